// Times from a least to a most, and the steps of a lattice, which are made of them.
ghost use Rattle.std.specs.Prelude.{◌≡◌, length};

use super::limits::MAX_SECONDS;

/// The times that a leg may take, in seconds: from `low` to `high`, both of them included. Any two
/// numbers can stand here; `is_valid` says whether they are those of a leg.
#[derive(Clone, Copy, Debug, PartialEq, Eq)]
pub struct Interval {
    /// The least time, in seconds.
    pub low: u32,
    /// The most time, in seconds.
    pub high: u32,
}

impl Interval {
    ghost use Rattle.std.specs.Prelude.{IsTrue, ◌↔◌};
    ghost use Rattle.chart.specs.Grid.{IsValidInterval};

    /// Whether `low` is at most `high`, and `high` is at most 100,000 seconds.
    pub fn is_valid(&self) -> bool
        ensures { IsTrue result ↔ IsValidInterval self.now }
    {
        self.low <= self.high && self.high <= MAX_SECONDS
    }
}

/// The times from one column of a lattice to the next: one interval for each turn, in the order −1,
/// 0, +1 of what the turn adds to the row. The intervals can be any numbers.
#[derive(Clone, Copy)]
pub struct Step {
    /// The intervals of the turns −1, 0 and +1.
    pub turns: [Interval; 3],
    ghost three: { length turns ≡ 3 },
}

impl Step {
    ghost use Rattle.std.specs.Prelude.{IsTrue, ◌↔◌};
    ghost use Rattle.chart.specs.Grid.{IsValidStep};

    // Whether each of the three intervals is within the limits of times.
    pub(crate) fn is_valid(&self) -> bool
        ensures { IsTrue result ↔ IsValidStep self.now }
    {
        self.turns.iter().all(|interval| interval.is_valid())
    }
}
