// The floor of a chain: the least high time of the routes that begin with it, less the least time of any route where
// the legs that it shuts take their low time and all others their high.
ghost use Rattle.chart.specs.Regret.{query};
ghost use Rattle.chart.specs.Floors.{FloorIsBelowEveryRegret, FloorIsNeverNegative, FloorIsUnique};
ghost use Rattle.search.specs.Snapshots.{snapshot_legs};
ghost use Rattle.floor.specs.Answers.{floor_outcome, IsFloorOutcome};

use super::floor_choice::floor_choice_time;
use super::onward::least_onward;
use super::refusals::FloorRefusal;
use chart::{Chart, Ends};
use search::{Snapshot, walk};

/// The floor of a list of legs between two ends, in seconds, on a snapshot, which is taken once for many questions. It
/// is refused as `floor` says.
pub fn floor_on(snapshot: &Snapshot, ends: Ends, chain: &[u16]) -> Result<u32, FloorRefusal>
    ensures { IsFloorOutcome (query (snapshot_legs snapshot.now) ends.from ends.to) chain.now (floor_outcome result) }
{
    // The empty list is a chain from every number: where it is not walked along, the departure is no fix.
    let unwalked = if chain.is_empty() {
        FloorRefusal::NoRoute
    } else {
        FloorRefusal::NotAChain
    };
    let walked = walk(snapshot, ends.from, chain).ok_or(unwalked)?;
    let rest = Ends {
        from: walked.end,
        to: ends.to,
    };
    let onward = least_onward(snapshot, &walked.used, rest).ok_or(FloorRefusal::NoRoute)?;
    let choice_time = floor_choice_time(snapshot, ends, &walked).ok_or(FloorRefusal::NoRoute)?;
    Ok(walked.high + onward - choice_time)
}

/// The floor of a list of legs between two ends, in seconds: every route that begins with the list has at least this
/// regret. It is refused with the number 14 where the list is no chain that leaves the departure, and with 25 where it
/// is one and no route begins with it.
pub fn floor<C: Chart>(chart: &C, ends: Ends, chain: &[u16]) -> Result<u32, FloorRefusal>
    ensures answers { IsFloorOutcome (query (C.legs chart.now) ends.from ends.to) chain.now (floor_outcome result) }
    ensures below_every_regret { FloorIsBelowEveryRegret }
    ensures never_negative { FloorIsNeverNegative }
    ensures unique { FloorIsUnique }
{
    let snapshot = Snapshot::of(chart);
    floor_on(&snapshot, ends, chain)
}
