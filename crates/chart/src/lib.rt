// What a chart is, with its legs, the table and the lattice, and the kinds of totals that a route
// can have.
#![tactic(auto)]

ghost use Rattle.std.specs.Prelude.{◌≡◌, ◌+◌, ℕ, List, length};
ghost use Rattle.chart.specs.declared.leg.Leg.{Leg};
ghost use Rattle.chart.specs.Legs.{leg_get, IsChart};
ghost use Rattle.chart.specs.Routes.{RoutesAreShort};

mod choice;
mod interval;
mod kind;
mod lattice;
mod leg;
pub mod limits;
mod refusals;
mod row;
mod table;

pub use choice::{Choice, Highs, Lows};
pub use interval::{Interval, Step};
pub use kind::{Kind, Level, Quickest, QuickestTotal, Seconds};
pub use lattice::Lattice;
pub use leg::Leg;
pub use refusals::{LatticeRefusal, Refusal, RowRefusal, TableRefusal};
pub use row::{Row, Standing};
pub use table::Table;

/// A chart: from 2 to 200 fixes, which have the numbers from 0 on, and up to 1,000 legs, each
/// between two of them. It means `fixes` and `legs`, which keep these limits, and answers by them
/// alone: the same question has the same answer each time.
pub trait Chart {
    ghost fixes: { Self → ℕ };

    ghost legs: { Self → List Leg };

    ghost is_chart: { (c : Self) → IsChart (fixes c) (legs c) };

    /// The number of fixes.
    fn n(&self) -> u16
        ensures { result ≡ fixes self.now };

    /// The number of legs.
    fn m(&self) -> u16
        ensures { result ≡ length (legs self.now) };

    /// The leg that has the number `k`; `None` where `k` is the number of legs or more.
    fn leg(&self, k: u16) -> Option<Leg>
        ensures { result ≡ leg_get (legs self.now) k };
}

/// The two fixes that a route is wanted between, by their numbers. They can be any numbers: who is
/// asked for a route says which are refused.
#[derive(Clone, Copy, Debug, PartialEq, Eq)]
pub struct Ends {
    /// The fix that the route is to leave.
    pub from: u16,
    /// The fix that the route is to enter.
    pub to: u16,
}

/// The most legs that a route of this chart can have: one fewer than its fixes.
pub fn most_legs<C: Chart>(chart: &C) -> u16
    ensures one_fewer { result + 1 ≡ C.fixes chart.now }
    ensures routes_are_short { RoutesAreShort (C.fixes chart.now) (C.legs chart.now) }
    ensures within_limits { IsChart (C.fixes chart.now) (C.legs chart.now) }
{
    chart.n() - 1
}
