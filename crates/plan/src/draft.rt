// A plan that is not filed yet.
ghost use Rattle.std.specs.Prelude.{◌≡◌, ◌+◌, MatchResult};

use super::filed::Filed;
use super::refusals::EndsRefusal;
use arrayvec::ArrayVec;
use chart::{Chart, Ends};

/// A plan that is not filed yet: it has its chart and its ends. It has no call that routes or amends.
#[derive(Drop)]
pub struct Draft<C> {
    pub(crate) chart: C,
    pub(crate) ends: Ends,
}

impl<C: Chart> Draft<C> {
    ghost use Rattle.plan.specs.Ledgers.{at_filing};
    ghost use Rattle.plan.specs.Plans.{chart_of_draft, ends_of_draft, HasNewEnds, chart_of, ledger_of};
    ghost use Rattle.plan.specs.Answers.{ends_outcome, IsEndsOutcome};

    /// A draft on a chart. It runs from the chart's first fix to its last, until other ends are set.
    pub fn new(chart: C) -> Draft<C>
        ensures chart { chart_of_draft result ≡ chart }
        ensures from_the_first { (ends_of_draft result).from ≡ 0 }
        ensures to_the_last { (ends_of_draft result).to + 1 ≡ C.fixes chart }
    {
        let last = chart.n() - 1;
        Draft {
            chart,
            ends: Ends { from: 0, to: last },
        }
    }

    /// Sets the ends to two different fixes. It is refused with 11 where one of them is no fix of the chart, and with 12 where
    /// both are the same; the draft then keeps the ends that it had.
    pub fn ends(&mut self, departure: u16, destination: u16) -> Result<(), EndsRefusal>
        ensures outcome { IsEndsOutcome (C.fixes (chart_of_draft self.old)) departure destination
            (ends_outcome result) }
        ensures sets_the_ends { MatchResult result
            (λ _. HasNewEnds self.old self.new departure destination)
            (λ _. self.new ≡ self.old) }
    {
        let n = self.chart.n();
        if departure >= n || destination >= n {
            return Err(EndsRefusal::NoSuchFix);
        }
        if departure == destination {
            return Err(EndsRefusal::SameFix);
        }
        self.ends = Ends {
            from: departure,
            to: destination,
        };
        Ok(())
    }

    /// Files the plan: it stands at revision 0, with its chart, its ends and no leg amended. It is never refused.
    #[tactic(auto, unfolding(crate::specs::Overlays::overlay))]
    pub fn file(self) -> Filed<C>
        ensures chart { chart_of result ≡ chart_of_draft self }
        ensures ledger { ledger_of C.legs result ≡ at_filing (C.legs (chart_of_draft self)) (ends_of_draft self) }
    {
        let Draft { chart, ends } = self;
        Filed {
            chart,
            ends,
            revision: 0,
            amended: ArrayVec::new(),
        }
    }
}
