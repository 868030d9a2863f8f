// What a reader is to say of a file. The numbers and layers are written out here, since the reader that is tested goes by the
// faults of `chart_format`.
use chart_format::{Layer, Report};
use std::fmt;

/// The verdict on a file: that it is accepted, or which fault it has.
#[derive(Clone, Copy, Debug, PartialEq, Eq)]
pub enum Verdict {
    Accepted,
    CutShort,
    UnknownMark,
    OutOfPlace,
    BadCounts,
    BadName,
    NameUsed,
    BadFixes,
    BadTimes,
    BytesAfter,
    NoRoom,
}

/// All of them, in the order of their numbers.
pub static VERDICTS: [Verdict; 11] = [
    Verdict::Accepted,
    Verdict::CutShort,
    Verdict::UnknownMark,
    Verdict::OutOfPlace,
    Verdict::BadCounts,
    Verdict::BadName,
    Verdict::NameUsed,
    Verdict::BadFixes,
    Verdict::BadTimes,
    Verdict::BytesAfter,
    Verdict::NoRoom,
];

impl Verdict {
    /// What is to be reported of a fault at this place; none where the file is to be accepted.
    pub fn report(self, place: usize) -> Option<Report> {
        let (number, layer) = match self {
            Verdict::Accepted => return None,
            Verdict::CutShort => (1, Layer::Bytes),
            Verdict::UnknownMark => (2, Layer::Bytes),
            Verdict::OutOfPlace => (3, Layer::Chart),
            Verdict::BadCounts => (4, Layer::Record),
            Verdict::BadName => (5, Layer::Record),
            Verdict::NameUsed => (6, Layer::Chart),
            Verdict::BadFixes => (7, Layer::Chart),
            Verdict::BadTimes => (8, Layer::Record),
            Verdict::BytesAfter => (9, Layer::Chart),
            Verdict::NoRoom => (10, Layer::Chart),
        };
        Some(Report {
            number,
            layer,
            place,
        })
    }
}

impl fmt::Display for Verdict {
    fn fmt<W: fmt::Write>(&self, f: &mut fmt::Formatter<W>) -> fmt::Result {
        f.write_str(match self {
            Verdict::Accepted => "accepted",
            Verdict::CutShort => "fault 1, the file ends within a record",
            Verdict::UnknownMark => "fault 2, an unknown mark",
            Verdict::OutOfPlace => "fault 3, a record out of place",
            Verdict::BadCounts => "fault 4, a count outside its limits",
            Verdict::BadName => "fault 5, a bad name",
            Verdict::NameUsed => "fault 6, a name already used",
            Verdict::BadFixes => "fault 7, bad fixes of a leg",
            Verdict::BadTimes => "fault 8, bad times or a bad level",
            Verdict::BytesAfter => "fault 9, bytes after the end",
            Verdict::NoRoom => "fault 10, too few places of leg memory",
        })
    }
}
