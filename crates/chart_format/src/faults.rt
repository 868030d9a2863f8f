// What is wrong with a file that is no chart's: a fault of its bytes, which a fault of a record holds whole, as a fault of
// the chart holds that. Each holds its place: that of the record's mark, or of the first byte after the end record.
ghost use Rattle.std.specs.Prelude.{◌≡◌, Some};
ghost use Rattle.chart_format.specs.declared.faults.Report.{Report};
ghost use Rattle.chart_format.specs.declared.faults.RecordFault.TheVariants.{Bytes};
ghost use Rattle.chart_format.specs.declared.faults.ChartFault.TheVariants.{Record};
ghost use Rattle.chart_format.specs.Reports.{bytes_report, record_report, chart_report};
ghost use Rattle.chart_format.specs.Words.{layer_words, bytes_words, record_words, chart_words};

use chart::{RowRefusal, TableRefusal};
use std::error::Error;
use std::fmt;

/// The layer that found a fault.
#[derive(Clone, Copy, Debug, PartialEq, Eq)]
pub enum Layer {
    /// The bytes of a record.
    Bytes,
    /// A record.
    Record,
    /// The chart that the records make.
    Chart,
}

impl fmt::Display for Layer {
    ghost output = { λ layer. Some (layer_words layer) };

    fn fmt<W: fmt::Write>(&self, f: &mut fmt::Formatter<W>) -> fmt::Result {
        f.write_str(match self {
            Layer::Bytes => "bytes",
            Layer::Record => "record",
            Layer::Chart => "chart",
        })
    }
}

/// What a fault tells: its number from 1 to 10, the layer that found it, and its place in the file, in bytes from the beginning:
/// that of the mark of the record that has the fault, or of the first byte after the end record (fault 9).
#[derive(Clone, Copy, Debug, PartialEq, Eq)]
pub struct Report {
    /// The number of the fault.
    pub number: u8,
    /// The layer that found it.
    pub layer: Layer,
    /// Its place.
    pub place: usize,
}

impl Report {
    // That a layer found the fault of this number at this place.
    fn new(number: u8, layer: Layer, place: usize) -> Report
        ensures { result ≡ record { number = number; layer = layer; place = place } }
    {
        Report {
            number,
            layer,
            place,
        }
    }
}

/// A fault of any layer. In words it says what is wrong, as `Display` writes it; where a fault is of a lower layer, it tells and says
/// what that one does.
pub trait Fault: Error {
    ghost report_of: { Self → Report };

    /// The number, the layer and the place of the fault.
    fn report(&self) -> Report
        ensures { result ≡ report_of self.now };
}

/// What is wrong with the bytes of a record.
#[derive(Clone, Copy, Debug, PartialEq, Eq)]
pub enum BytesFault {
    /// Fault 1: the file ends before the record is complete.
    Short { place: usize },
    /// Fault 2: no record has this mark.
    Unknown { place: usize },
}

/// What is wrong with a record.
#[derive(Clone, Copy, Debug, PartialEq, Eq)]
pub enum RecordFault {
    /// Fault 1 or 2, of its bytes.
    Bytes(BytesFault),
    /// Fault 4: the number of fixes or of legs is outside its limits.
    BadCounts { place: usize },
    /// Fault 5: the name is too short or too long, or has a byte that no name has.
    BadName { place: usize },
    /// Fault 8: a time or the level is outside its limits, or low is above high.
    BadTimes { place: usize },
}

/// What is wrong with the chart.
#[derive(Clone, Copy, Debug, PartialEq, Eq)]
pub enum ChartFault {
    /// Fault 1, 2, 4, 5 or 8, of a record.
    Record(RecordFault),
    /// Fault 3: a known mark that is not the one due.
    OutOfPlace { place: usize },
    /// Fault 6: a fix before this one has the same name.
    NameUsed { place: usize },
    /// Fault 7: a fix of the leg is not one of the chart's, or both are the same.
    BadFixes { place: usize },
    /// Fault 9: bytes follow the end record.
    BytesAfter { place: usize },
    /// Fault 10: leg memory has fewer places than the chart has legs.
    NoRoom { place: usize },
}

impl Fault for BytesFault {
    ghost report_of = { bytes_report };

    fn report(&self) -> Report {
        let (number, place) = match *self {
            BytesFault::Short { place } => (1, place),
            BytesFault::Unknown { place } => (2, place),
        };
        Report::new(number, Layer::Bytes, place)
    }
}

impl fmt::Display for BytesFault {
    ghost output = { λ fault. Some (bytes_words fault) };

    fn fmt<W: fmt::Write>(&self, f: &mut fmt::Formatter<W>) -> fmt::Result {
        f.write_str(match self {
            BytesFault::Short { .. } => "the file ends before its end record is complete",
            BytesFault::Unknown { .. } => "unknown mark",
        })
    }
}

impl Error for BytesFault {}

impl Fault for RecordFault {
    ghost report_of = { record_report };

    fn report(&self) -> Report {
        let (number, place) = match *self {
            RecordFault::Bytes(fault) => return fault.report(),
            RecordFault::BadCounts { place } => (4, place),
            RecordFault::BadName { place } => (5, place),
            RecordFault::BadTimes { place } => (8, place),
        };
        Report::new(number, Layer::Record, place)
    }
}

impl fmt::Display for RecordFault {
    ghost output = { λ fault. Some (record_words fault) };

    fn fmt<W: fmt::Write>(&self, f: &mut fmt::Formatter<W>) -> fmt::Result {
        match self {
            RecordFault::Bytes(fault) => fault.fmt(f),
            RecordFault::BadCounts { .. } => TableRefusal::BadCounts.fmt(f),
            RecordFault::BadName { .. } => f.write_str("bad name"),
            RecordFault::BadTimes { .. } => RowRefusal::BadTimes.fmt(f),
        }
    }
}

impl Error for RecordFault {}

impl Fault for ChartFault {
    ghost report_of = { chart_report };

    fn report(&self) -> Report {
        let (number, place) = match *self {
            ChartFault::Record(fault) => return fault.report(),
            ChartFault::OutOfPlace { place } => (3, place),
            ChartFault::NameUsed { place } => (6, place),
            ChartFault::BadFixes { place } => (7, place),
            ChartFault::BytesAfter { place } => (9, place),
            ChartFault::NoRoom { place } => (10, place),
        };
        Report::new(number, Layer::Chart, place)
    }
}

impl fmt::Display for ChartFault {
    ghost output = { λ fault. Some (chart_words fault) };

    fn fmt<W: fmt::Write>(&self, f: &mut fmt::Formatter<W>) -> fmt::Result {
        match self {
            ChartFault::Record(fault) => fault.fmt(f),
            ChartFault::OutOfPlace { .. } => f.write_str("known mark out of its place"),
            ChartFault::NameUsed { .. } => f.write_str("name already used"),
            ChartFault::BadFixes { .. } => RowRefusal::BadFixes.fmt(f),
            ChartFault::BytesAfter { .. } => f.write_str("bytes after the end record"),
            ChartFault::NoRoom { .. } => f.write_str("fewer places of leg memory than legs"),
        }
    }
}

impl Error for ChartFault {}

impl From<BytesFault> for RecordFault {
    ghost from_gives = { λ b r. r ≡ Bytes b };

    fn from(fault: BytesFault) -> RecordFault {
        RecordFault::Bytes(fault)
    }
}

impl From<RecordFault> for ChartFault {
    ghost from_gives = { λ r c. c ≡ Record r };

    fn from(fault: RecordFault) -> ChartFault {
        ChartFault::Record(fault)
    }
}
