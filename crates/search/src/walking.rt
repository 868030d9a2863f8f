// Walking along a list of legs: whether it is a chain, where it leads, what it meets, and how long it takes. And the
// flags that sets of fixes and of legs are.
ghost use Rattle.std.specs.Prelude.{◌≡◌, false, slice_index_or};
ghost use Rattle.search.specs.Snapshots.{snapshot_fixes, snapshot_legs};
ghost use Rattle.search.specs.Walks.{StepAnswer, WalkAnswer};

use super::snapshot::Snapshot;
use super::walked::Walked;
use chart::{Chart, Leg, Standing};

/// Whether the number `k` is flagged; past the end of the flags none is.
pub fn is_flagged(flags: &[bool], k: u16) -> bool
    ensures { result ≡ slice_index_or flags.now k false }
{
    flags.get(k as usize).copied().unwrap_or(false)
}

/// The leg of the number `k`, where it is open and leads on from the fix `here` to a fix that is not flagged in `used`;
/// else none, as where `k` is no leg's number.
pub fn step(snapshot: &Snapshot, here: u16, used: &[bool], k: u16) -> Option<Leg>
    ensures { StepAnswer (snapshot_legs snapshot.now) here used.now k result }
{
    snapshot.leg(k).filter(|leg| {
        leg.from == here && leg.standing == Standing::Open && !is_flagged(used, leg.to)
    })
}

/// What is known of the list as a chain from a fix of the chart; none where `from` is no fix's number, or the list is
/// no chain from it.
pub fn walk(snapshot: &Snapshot, from: u16, list: &[u16]) -> Option<Walked>
    ensures { WalkAnswer (snapshot_fixes snapshot.now) (snapshot_legs snapshot.now) from list.now result }
{
    if from >= snapshot.n() {
        return None;
    }
    let mut walked = Walked::at(from);
    for k in list {
        let leg = step(snapshot, walked.end, &walked.used, *k)?;
        walked.high += leg.high;
        walked.extend(*k, &leg);
    }
    Some(walked)
}
