// A chart that is computed: the legs of an ocean grid lie in no table.
ghost use Rattle.std.specs.Prelude.{◌≡◌, ℕ, ◌+◌, ◌*◌, ◌<◌, ◌≤◌, length, IsTrue, ◌↔◌};
ghost use Rattle.chart.specs.Limits.{max_rows, max_columns, max_steps, max_seconds, max_level};
ghost use Rattle.chart.specs.Grid.{interval_at, IsGridShape, AreValidSteps};
ghost use Rattle.chart.specs.internal.Steps.{AreCopied};

use super::Chart;
use super::interval::{Interval, Step};
use super::leg::Leg;
use super::limits::{MAX_COLUMNS, MAX_LEVEL, MAX_ROWS, MAX_STEPS};
use super::refusals::LatticeRefusal;
use super::row::Standing;

/// A chart whose legs are those of an ocean grid of `rows` × `columns` fixes, all open and with one
/// top level. The first `columns` − 1 of the steps are in use. They stand in an array of the most:
/// a lattice is `Copy`, which a list with a length of its own is not.
#[derive(Clone, Copy)]
pub struct Lattice {
    /// The number of rows, from 1 to 10.
    pub rows: u16,
    /// The number of columns, from 2 to 20.
    pub columns: u16,
    /// The top level of every leg, in hundreds of feet.
    pub top: u16,
    /// The times of the legs from each column to the next.
    pub steps: [Step; MAX_STEPS],
    ghost some: { 1 ≤ rows },
    ghost few: { rows ≤ max_rows },
    ghost wide: { 2 ≤ columns },
    ghost short: { columns ≤ max_columns },
    ghost level: { top ≤ max_level },
    ghost whole: { length steps ≡ max_steps },
    ghost ordered: { (s t : ℕ) → s + 1 < columns → t < 3 → (interval_at steps s t).low ≤ (interval_at steps s t).high },
    ghost bounded: { (s t : ℕ) → s + 1 < columns → t < 3 → (interval_at steps s t).high ≤ max_seconds },
}

// Whether the counts are those of a grid.
fn is_grid_shape(rows: u16, columns: u16, steps: usize) -> bool
    ensures { IsTrue result ↔ IsGridShape rows columns steps }
{
    (1..=MAX_ROWS).contains(&rows)
        && (2..=MAX_COLUMNS).contains(&columns)
        && steps == columns as usize - 1
}

// Whether every interval of every step is within the limits of times.
fn are_valid(steps: &[Step]) -> bool
    ensures { IsTrue result ↔ AreValidSteps steps.now (length steps.now) }
{
    steps.iter().all(|step| step.is_valid())
}

// Copies the steps to the front of all.
fn copy_steps(steps: &[Step], all: &mut [Step])
    requires { length steps.now ≤ length all.old }
    ensures { AreCopied steps.now all.new (length steps.now) }
{
    all[..steps.len()].copy_from_slice(steps);
}

impl Lattice {
    ghost use Rattle.std.specs.Prelude.{map, IfOk, OnOk};
    ghost use Rattle.chart.specs.Rows.{row_of_leg};
    ghost use Rattle.chart.specs.Grid.{grid_legs, lattice_outcome, IsLatticeOutcome, NumbersGrid};
    ghost use Rattle.chart.specs.Lattices.{lattice_fixes, lattice_legs};

    /// The lattice of a grid with `rows` rows and `columns` columns, the top level `top` in
    /// hundreds of feet, and the three intervals of each step in seconds. It is refused as
    /// `BadGrid` (16) where the rows are not from 1 to 10, the columns not from 2 to 20, or the
    /// steps not one fewer than the columns; else as `BadTimes` (8) where the level is above 600 or
    /// an interval is not valid.
    pub fn new(rows: u16, columns: u16, top: u16, steps: &[Step]) -> Result<Lattice, LatticeRefusal>
        ensures outcome { IsLatticeOutcome rows columns top steps.now (lattice_outcome result) }
        ensures means_the_grid { IfOk result
            (λ l. (lattice_fixes l ≡ columns * rows)
            × (map row_of_leg (lattice_legs l) ≡ grid_legs rows columns top steps.now)) }
        ensures numbers_every_leg_of_the_grid { OnOk result (NumbersGrid rows columns) }
    {
        if !is_grid_shape(rows, columns, steps.len()) {
            return Err(LatticeRefusal::BadGrid);
        }
        if top > MAX_LEVEL || !are_valid(steps) {
            return Err(LatticeRefusal::BadTimes);
        }
        let still = Interval { low: 0, high: 0 };
        let blank = Step {
            turns: [still, still, still],
        };
        let mut all = [blank; MAX_STEPS];
        copy_steps(steps, &mut all);
        Ok(Lattice {
            rows,
            columns,
            top,
            steps: all,
        })
    }
}

impl Chart for Lattice {
    ghost use Rattle.chart.specs.Lattices.{lattice_fixes, lattice_legs};
    ghost use Rattle.chart.specs.laws.Lattices.{lattice_is_chart};

    ghost fixes = { lattice_fixes };

    ghost legs = { lattice_legs };

    ghost is_chart = { lattice_is_chart };

    fn n(&self) -> u16 {
        self.columns * self.rows
    }

    fn m(&self) -> u16 {
        (self.columns - 1) * (3 * self.rows - 2)
    }

    // The number of legs is written out once more, since by a call of `m` the answers that go by
    // this bound do not close.
    fn leg(&self, k: u16) -> Option<Leg> {
        let rows = self.rows;
        let step_legs = 3 * rows - 2;
        if k >= (self.columns - 1) * step_legs {
            return None;
        }
        let s = k / step_legs;
        let place = k % step_legs + 1;
        let r = place / 3;
        let t = place % 3;
        let step = self.steps[s as usize];
        let time = step.turns[t as usize];
        Some(Leg {
            from: s * rows + r,
            to: (s + 1) * rows + r + t - 1,
            low: time.low,
            high: time.high,
            top: self.top,
            standing: Standing::Open,
        })
    }
}
