// A leg as plain numbers, before any check, and the checks that make a leg of it.
ghost use Rattle.std.specs.Prelude.{◌≡◌, IsTrue, ◌↔◌, IfOk, ◌≢◌};
ghost use Rattle.chart.specs.Rows.{row_of_leg, HasValidTimes, HasValidFixes, row_outcome, IsRowOutcome};

use super::interval::Interval;
use super::leg::Leg;
use super::limits::MAX_LEVEL;
use super::refusals::RowRefusal;

/// Whether a leg may be flown.
#[derive(Clone, Copy, Debug, PartialEq, Eq)]
pub enum Standing {
    /// The leg may be flown.
    Open,
    /// The leg may not be flown: no route has it.
    Closed,
}

/// One row of leg memory: any numbers, and a standing. Its fixes and its times are fields of their
/// own, and no `Ends` and no `Interval`, so that what is said of rows reads `row.low`, and not
/// `row.times.low`.
#[derive(Clone, Copy, Debug, PartialEq, Eq)]
pub struct Row {
    /// The number of the fix that the leg leaves.
    pub from: u16,
    /// The number of the fix that the leg enters.
    pub to: u16,
    /// The least time of the leg, in seconds.
    pub low: u32,
    /// The most time of the leg, in seconds.
    pub high: u32,
    /// The top level of the leg, in hundreds of feet.
    pub top: u16,
    /// Whether the leg may be flown.
    pub standing: Standing,
}

impl Row {
    /// Whether `low` is at most `high`, `high` at most 100,000 seconds, and `top` at most 600
    /// hundreds of feet.
    pub fn has_valid_times(&self) -> bool
        ensures { IsTrue result ↔ HasValidTimes self.now }
    {
        let Row { low, high, .. } = *self;
        Interval { low, high }.is_valid() && self.top <= MAX_LEVEL
    }

    /// Whether the row joins two different fixes of a chart that has `n`, whose numbers are those
    /// below `n`.
    pub fn has_valid_fixes(&self, n: u16) -> bool
        ensures { IsTrue result ↔ HasValidFixes n self.now }
    {
        self.from < n && self.to < n && self.from != self.to
    }

    /// The leg that has the numbers of this row, in a chart of `n` fixes. A row whose times or
    /// level are outside their limits is refused as `BadTimes` (8); else one that does not join two
    /// different fixes of the chart is refused as `BadFixes` (7).
    pub fn leg(&self, n: u16) -> Result<Leg, RowRefusal>
        ensures outcome { IsRowOutcome n self.now (row_outcome result) }
        ensures has_its_numbers { IfOk result (λ l. row_of_leg l ≡ self.now) }
    {
        if !self.has_valid_times() {
            return Err(RowRefusal::BadTimes);
        }
        if !self.has_valid_fixes(n) {
            return Err(RowRefusal::BadFixes);
        }
        Ok(self.as_leg())
    }

    // The leg that has the numbers of this row. It is no `From`, since that can't ask for a row
    // within its limits.
    pub(crate) fn as_leg(&self) -> Leg
        requires valid_times { HasValidTimes self.now }
        requires apart { self.now.from ≢ self.now.to }
        ensures { row_of_leg result ≡ self.now }
    {
        Leg {
            from: self.from,
            to: self.to,
            low: self.low,
            high: self.high,
            top: self.top,
            standing: self.standing,
        }
    }
}
