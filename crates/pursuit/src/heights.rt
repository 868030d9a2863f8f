// A height for each fix, so that every leg leads to a higher fix.
ghost use Rattle.std.specs.Prelude.{◌≡◌, ◌↔◌, IsTrue, length};
ghost use Rattle.chart.specs.Limits.{max_fixes};
ghost use Rattle.search.specs.Snapshots.{snapshot_fixes, snapshot_legs};
ghost use Rattle.pursuit.specs.Pursuits.{EveryLegRises, HasRisingHeights};
ghost use Rattle.pursuit.specs.Answers.{height_at, query_on};
ghost use Rattle.pursuit.specs.internal.Heights.{IsLiftByLeg, IsLiftByLegs};

use super::legs::rival_leg;
use super::margins::PURSUIT_FIXES;
use arrayvec::ArrayVec;
use chart::{Chart, Ends};
use search::Snapshot;

// The height of a fix.
pub(crate) fn height_of(heights: &[u16], fix: u16) -> u16
    ensures { result ≡ height_at heights.now fix }
{
    heights.get(fix as usize).copied().unwrap_or(0)
}

// Lifts the fix that the leg `k` leads to above the fix that it leaves, and says whether it did. No fix is lifted higher than
// there are fixes.
fn lift_by(snapshot: &Snapshot, ends: Ends, heights: &mut [u16], k: u16) -> bool
    requires { length heights.old ≡ max_fixes }
    ensures { IsLiftByLeg (query_on snapshot.now ends) (snapshot_fixes snapshot.now) k heights.old heights.new result }
{
    let Some(leg) = rival_leg(snapshot, ends, k) else {
        return false;
    };
    let from = height_of(heights, leg.from);
    if height_of(heights, leg.to) > from || from >= snapshot.n() {
        return false;
    }
    heights[leg.to as usize] = from + 1;
    true
}

// Lifts fixes by each leg, and says whether any was lifted.
fn lift(snapshot: &Snapshot, ends: Ends, heights: &mut [u16]) -> bool
    requires { length heights.old ≡ max_fixes }
    ensures { IsLiftByLegs (query_on snapshot.now ends) (snapshot_fixes snapshot.now) (length (snapshot_legs snapshot.now))
        heights.old heights.new result }
{
    let mut lifted = false;
    for k in 0..snapshot.m() {
        lifted |= lift_by(snapshot, ends, heights, k);
    }
    lifted
}

// Heights by which every leg leads to a higher fix, if there are any.
pub(crate) fn find_heights(snapshot: &Snapshot, ends: Ends) -> [u16; PURSUIT_FIXES]
    ensures { HasRisingHeights (query_on snapshot.now ends) → EveryLegRises (query_on snapshot.now ends) (height_at result) }
{
    let mut heights = [0; PURSUIT_FIXES];
    while lift(snapshot, ends, &mut heights) {}
    heights
}

// Whether every leg leads to a higher fix.
pub(crate) fn every_leg_rises(snapshot: &Snapshot, ends: Ends, heights: &[u16]) -> bool
    ensures { IsTrue result ↔ EveryLegRises (query_on snapshot.now ends) (height_at heights.now) }
{
    for k in 0..snapshot.m() {
        if let Some(leg) = rival_leg(snapshot, ends, k)
            && height_of(heights, leg.to) <= height_of(heights, leg.from)
        {
            return false;
        }
    }
    true
}

// Lists the fixes of the chart, the highest first. Nothing is promised of the order.
pub(crate) fn falling_order(
    snapshot: &Snapshot,
    heights: &[u16],
    order: &mut ArrayVec<u16, PURSUIT_FIXES>,
) {
    order.clear();
    let highest = heights.iter().copied().max().unwrap_or(0);
    for height in (0..=highest).rev() {
        for fix in 0..snapshot.n() {
            if height_of(heights, fix) == height && !order.is_full() {
                order.push(fix);
            }
        }
    }
}
