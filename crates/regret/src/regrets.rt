// The regret of a route. In the choice of times that is worst for it, its own legs take their high time and all others
// their low.
ghost use Rattle.chart.specs.Regret.{query, WorstChoiceGivesRegret, RegretIsNeverExceeded};
ghost use Rattle.chart.specs.Regret.{EveryRouteHasARegret, RegretIsUnique};
ghost use Rattle.search.specs.Snapshots.{snapshot_legs};
ghost use Rattle.regret.specs.Answers.{regret_outcome, IsRegretOutcome};

use super::flagged::least_time;
use super::refusals::RegretRefusal;
use chart::{Chart, Ends};
use search::{Snapshot, walk};

/// The regret of a list of legs between two ends, in seconds, on a snapshot, which is taken once for many questions. It
/// is refused with the number 14 where the list is no route between them.
pub fn regret_on(snapshot: &Snapshot, ends: Ends, list: &[u16]) -> Result<u32, RegretRefusal>
    ensures { IsRegretOutcome (query (snapshot_legs snapshot.now) ends.from ends.to) list.now (regret_outcome result) }
{
    let walked = walk(snapshot, ends.from, list)
        .filter(|walked| walked.end == ends.to)
        .ok_or(RegretRefusal::NotARoute)?;
    let best = least_time(snapshot, &walked.flown, ends).ok_or(RegretRefusal::NotARoute)?;
    Ok(walked.high - best)
}

/// The regret of a list of legs between two ends, in seconds. It is refused with the number 14 where the list is no
/// route between them.
pub fn regret<C: Chart>(chart: &C, ends: Ends, list: &[u16]) -> Result<u32, RegretRefusal>
    ensures answers { IsRegretOutcome (query (C.legs chart.now) ends.from ends.to) list.now (regret_outcome result) }
    ensures worst_choice { WorstChoiceGivesRegret }
    ensures never_exceeded { RegretIsNeverExceeded }
    ensures every_route_has_one { EveryRouteHasARegret }
    ensures unique { RegretIsUnique }
{
    let snapshot = Snapshot::of(chart);
    regret_on(&snapshot, ends, list)
}
