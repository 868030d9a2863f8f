// The least time of any route where the legs that a chain shuts take their low time and all others their high.
ghost use Rattle.std.specs.Prelude.{length};
ghost use Rattle.chart.specs.Regret.{query};
ghost use Rattle.search.specs.Snapshots.{snapshot_legs};
ghost use Rattle.floor.specs.internal.FloorChoice.{IsUsedBeside, TellsShut, FlagsUnshut, FloorChoiceTimeBy};

use chart::limits::MAX_LEGS;
use chart::{Chart, Ends, Leg};
use regret::least_time;
use search::{Snapshot, Walked, is_flagged};

// Whether the fix `v` is used, and is not `u`.
fn is_used_beside(used: &[bool], u: u16, v: u16) -> bool
    ensures { IsUsedBeside used.now u v result }
{
    v != u && is_flagged(used, v)
}

// Whether the leg, which has the number `k`, is shut by the chain that was walked along. Of the fixes that the chain
// meets, it leaves all but its end, and enters all but its start.
fn is_shut(walked: &Walked, k: u16, leg: Leg) -> bool
    ensures { TellsShut walked.now k leg result }
{
    !is_flagged(&walked.flown, k)
        && (is_used_beside(&walked.used, walked.end, leg.from)
            || is_used_beside(&walked.used, walked.from, leg.to))
}

// A flag on every leg that is not shut. A leg's number is also the place of its flag.
fn unshut_flags(snapshot: &Snapshot, walked: &Walked) -> [bool; MAX_LEGS]
    ensures { FlagsUnshut (snapshot_legs snapshot.now) walked.now result (length (snapshot_legs snapshot.now)) }
{
    let mut flags = [false; MAX_LEGS];
    for k in 0..snapshot.m() {
        flags[k as usize] = !snapshot.leg(k).is_some_and(|leg| is_shut(walked, k, leg));
    }
    flags
}

// The least time of any route between two ends where the legs that the chain shuts take their low time and all others
// their high; the chain was walked along from the departure.
pub(crate) fn floor_choice_time(snapshot: &Snapshot, ends: Ends, walked: &Walked) -> Option<u32>
    ensures { FloorChoiceTimeBy (query (snapshot_legs snapshot.now) ends.from ends.to) walked.now result }
{
    let flags = unshut_flags(snapshot, walked);
    least_time(snapshot, &flags, ends)
}
