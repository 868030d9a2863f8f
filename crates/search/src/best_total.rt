// The best total of a route, by settling one fix after the other, the best first.
ghost use Rattle.chart.specs.Best.{BestTotal, BestTotalIsUnique};
ghost use Rattle.search.specs.Snapshots.{snapshot_legs};

use super::search_state::{FixState, Search};
use super::snapshot::Snapshot;
use chart::limits::MAX_FIXES;
use chart::{Chart, Ends, Kind};

/// The best total, of the kind that is given, over all routes of a snapshot between two ends. It is none where there is
/// no route, as between numbers that are no fixes, or from a fix to itself. One snapshot serves any number of
/// questions.
pub fn best_on<K: Kind>(snapshot: &Snapshot, kind: &K, ends: Ends) -> Option<K::Total>
    ensures { BestTotal (K.rule kind.now) (snapshot_legs snapshot.now) ends.from ends.to result }
{
    if ends.from >= snapshot.fixes || ends.to >= snapshot.fixes || ends.from == ends.to {
        return None;
    }
    let mut label = [kind.start(); MAX_FIXES];
    let mut state = [FixState::Unreached; MAX_FIXES];
    let mut search = Search {
        snapshot,
        kind,
        label: &mut label,
        state: &mut state,
    };
    search.run(ends)
}

/// The best total, of the kind that is given, over all routes of a chart between two ends; none where there is no
/// route, as `best_on` has it. It takes a snapshot of the chart for this one question.
pub fn best<C: Chart, K: Kind>(chart: &C, kind: &K, ends: Ends) -> Option<K::Total>
    ensures best_total { BestTotal (K.rule kind.now) (C.legs chart.now) ends.from ends.to result }
    ensures unique { BestTotalIsUnique (K.rule kind.now) }
{
    let snapshot = Snapshot::of(chart);
    best_on(&snapshot, kind, ends)
}
