// The least high time onward from the end of a chain, over legs that enter none of its fixes.
ghost use Rattle.search.specs.Snapshots.{snapshot_legs};
ghost use Rattle.floor.specs.internal.Avoid.{avoid_rule};
ghost use Rattle.floor.specs.internal.Onward.{LeastOnward};
ghost use Rattle.floor.specs.laws.AvoidLaws.{avoid_laws};

use chart::{Ends, Kind, Leg};
use search::{Snapshot, best_on, is_flagged};

// The kind that sums high times over the legs of a chain, as long as it enters no used fix: a total is none once one is
// entered.
#[derive(Clone, Copy)]
struct Avoid<'a> {
    used: &'a [bool],
}

impl<'a> Kind for Avoid<'a> {
    type Total = Option<u32>;

    ghost rule = { λ s. avoid_rule s.used.now };

    ghost laws = { λ s. avoid_laws s.used.now };

    fn start(&self) -> Option<u32> {
        Some(0)
    }

    fn add(&self, total: Option<u32>, _k: u16, leg: &Leg) -> Option<u32> {
        if is_flagged(self.used, leg.to) {
            return None;
        }
        Some(total? + leg.high)
    }

    fn better(&self, a: Option<u32>, b: Option<u32>) -> bool {
        a.is_some_and(|x| b.is_none_or(|y| x < y))
    }
}

// The least high time of the chains that lead from one fix to another and enter no used fix; none where there is no
// such chain.
pub(crate) fn least_onward(snapshot: &Snapshot, used: &[bool], ends: Ends) -> Option<u32>
    ensures { LeastOnward (snapshot_legs snapshot.now) used.now ends.from ends.to result }
{
    if ends.from == ends.to {
        return Some(0);
    }
    best_on(snapshot, &Avoid { used }, ends)?
}
