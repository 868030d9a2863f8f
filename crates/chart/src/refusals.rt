// Why a row, a table or a lattice is refused. Each refusal has one number, and is printed as what
// it says in words.
ghost use Rattle.std.specs.Prelude.{◌≡◌, ℕ, Some};
ghost use Rattle.chart.specs.declared.refusals.TableRefusal.TheVariants.{BadRow};
ghost use Rattle.chart.specs.Refusals.{row_number, table_number, lattice_number, row_words, table_words, lattice_words};

use std::error::Error;
use std::fmt;

/// A refusal of any call. It has a number, and is printed as what it says in words.
pub trait Refusal: Error {
    ghost number_of: { Self → ℕ };

    /// The number of the refusal, by which users know it.
    fn number(&self) -> u8
        ensures { result ≡ number_of self.now };
}

/// Why a row is no leg of a chart.
#[derive(Clone, Copy, Debug, PartialEq, Eq)]
pub enum RowRefusal {
    /// Number 8: a time or the level is outside its limits, or low is above high.
    BadTimes,
    /// Number 7: a fix is not one of the chart's, or both are the same.
    BadFixes,
}

impl Refusal for RowRefusal {
    ghost number_of = { row_number };

    fn number(&self) -> u8 {
        match *self {
            RowRefusal::BadTimes => 8,
            RowRefusal::BadFixes => 7,
        }
    }
}

impl fmt::Display for RowRefusal {
    ghost output = { λ refusal. Some (row_words refusal) };

    fn fmt<W: fmt::Write>(&self, f: &mut fmt::Formatter<W>) -> fmt::Result {
        f.write_str(match self {
            RowRefusal::BadTimes => "low above high, or a time or level outside its limits",
            RowRefusal::BadFixes => "a leg's fix is not on the chart, or both are the same",
        })
    }
}

impl Error for RowRefusal {}

/// Why a table does not take its rows.
#[derive(Clone, Copy, Debug, PartialEq, Eq)]
pub enum TableRefusal {
    /// Number 4: the number of fixes or of rows is outside its limits.
    BadCounts,
    /// The number of the refusal in it: the first row that is no leg of the chart is refused for
    /// this reason.
    BadRow(RowRefusal),
}

impl Refusal for TableRefusal {
    ghost number_of = { table_number };

    fn number(&self) -> u8 {
        match *self {
            TableRefusal::BadCounts => 4,
            TableRefusal::BadRow(refusal) => refusal.number(),
        }
    }
}

impl fmt::Display for TableRefusal {
    ghost output = { λ refusal. Some (table_words refusal) };

    fn fmt<W: fmt::Write>(&self, f: &mut fmt::Formatter<W>) -> fmt::Result {
        match self {
            TableRefusal::BadCounts => f.write_str("number of fixes or legs outside its limits"),
            TableRefusal::BadRow(refusal) => refusal.fmt(f),
        }
    }
}

impl Error for TableRefusal {}

impl From<RowRefusal> for TableRefusal {
    ghost from_gives = { λ row table. table ≡ BadRow row };

    fn from(refusal: RowRefusal) -> TableRefusal {
        TableRefusal::BadRow(refusal)
    }
}

/// Why a lattice is refused.
#[derive(Clone, Copy, Debug, PartialEq, Eq)]
pub enum LatticeRefusal {
    /// Number 16: the rows or columns are outside their limits, or the steps are not one fewer than
    /// the columns.
    BadGrid,
    /// Number 8: a time or the level is outside its limits, or a low is above its high.
    BadTimes,
}

impl Refusal for LatticeRefusal {
    ghost number_of = { lattice_number };

    fn number(&self) -> u8 {
        match *self {
            LatticeRefusal::BadGrid => 16,
            LatticeRefusal::BadTimes => 8,
        }
    }
}

impl fmt::Display for LatticeRefusal {
    ghost output = { λ refusal. Some (lattice_words refusal) };

    fn fmt<W: fmt::Write>(&self, f: &mut fmt::Formatter<W>) -> fmt::Result {
        match self {
            LatticeRefusal::BadGrid => {
                f.write_str(
                    "rows or columns outside their limits, or not one step fewer than columns",
                )
            }
            LatticeRefusal::BadTimes => RowRefusal::BadTimes.fmt(f),
        }
    }
}

impl Error for LatticeRefusal {}
