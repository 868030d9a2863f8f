// The pursuit bound of a chain that a search keeps leg by leg.
ghost use Rattle.std.specs.Prelude.{◌≤◌};
ghost use Rattle.pursuit.specs.Pursuits.{PursuitBoundIsBelowEveryRegret};
ghost use Rattle.pursuit.specs.Answers.{IsPursuit, IsBelowChainRegrets, query_on};
ghost use Rattle.pursuit.specs.internal.Margins.{IsBoundAt};

use super::heights::height_of;
use super::margins::{OFFSET, margin_between};
use super::pursuit::Pursuit;
use super::reaching::{Reaching, time_at};
use chart::{Chart, Ends};
use search::Snapshot;

/// A chain as a search keeps it, leg by leg.
#[derive(Clone, Copy)]
pub struct ChainState<'a> {
    /// The fix that the chain leads to.
    pub end: u16,
    /// The sum of the high times of its legs, in seconds.
    pub high: u32,
    /// A flag for each leg of the chart, by its number: whether the chain has the leg.
    pub flags: &'a [bool],
}

// The bound of the chain by the rival who has reached the fix `b`; 0 where there is none.
fn bound_at(pursuit: &Pursuit, chain: &ChainState<'_>, times: &[Option<u32>], b: u16) -> u32
    ensures { 1 ≤ result → IsBoundAt pursuit.now chain.now times.now b result }
{
    if height_of(&pursuit.heights, b) < height_of(&pursuit.heights, chain.end) {
        return 0;
    }
    let Some(time) = time_at(times, b) else {
        return 0;
    };
    let margin = margin_between(&pursuit.margins, pursuit.fixes, chain.end, b);
    if margin == 0 {
        return 0;
    }
    chain
        .high
        .saturating_add(margin)
        .saturating_sub(time)
        .saturating_sub(OFFSET)
}

/// The pursuit bound of a chain between two ends, in seconds: no route that begins with the chain has less regret. It is 0
/// where the pursuit has no margin for it, and the call is never refused. A search that goes deep calls it at each step, so
/// its frame is kept out of the search's.
#[inline(never)]
pub fn bound(snapshot: &Snapshot, ends: Ends, pursuit: &Pursuit, chain: &ChainState<'_>) -> u32
    requires { IsPursuit (query_on snapshot.now ends) pursuit.now }
    ensures below { IsBelowChainRegrets (query_on snapshot.now ends) chain.now result }
    ensures below_every_regret { PursuitBoundIsBelowEveryRegret }
{
    let reaching = Reaching {
        snapshot,
        ends,
        heights: &pursuit.heights,
        flags: chain.flags,
        below: height_of(&pursuit.heights, chain.end),
    };
    let times = reaching.times(pursuit.order.as_slice());
    let mut most = 0;
    for b in 0..snapshot.n() {
        most = most.max(bound_at(pursuit, chain, &times, b));
    }
    most
}
