// The limits of charts and legs. specs/Limits.antt names the same numbers for the promises.
ghost use Rattle.std.specs.Prelude.{IsTrue, ◌↔◌};
ghost use Rattle.chart.specs.Rows.{HasValidCounts};

/// The fewest fixes of a chart.
pub const MIN_FIXES: usize = 2;

/// The most fixes of a chart.
pub const MAX_FIXES: usize = 200;

/// The most legs of a chart.
pub const MAX_LEGS: usize = 1000;

/// The longest time of a leg, in seconds.
pub const MAX_SECONDS: u32 = 100_000;

/// The highest top level of a leg, in hundreds of feet.
pub const MAX_LEVEL: u16 = 600;

/// The most rows of a lattice.
pub const MAX_ROWS: u16 = 10;

/// The most columns of a lattice.
pub const MAX_COLUMNS: u16 = 20;

/// The most steps of a lattice: one fewer than its columns.
pub const MAX_STEPS: usize = MAX_COLUMNS as usize - 1;

/// Whether a chart may have so many fixes and legs: from 2 to 200 fixes, and at most 1,000 legs.
pub fn are_valid_counts(fixes: u16, legs: usize) -> bool
    ensures { IsTrue result ↔ HasValidCounts fixes legs }
{
    (MIN_FIXES..=MAX_FIXES).contains(&(fixes as usize)) && legs <= MAX_LEGS
}
