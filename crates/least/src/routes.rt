// The route of least regret, written into the caller's memory, since no call allocates any.
ghost use Rattle.std.specs.Prelude.{◌<◌, IfSome};
ghost use Rattle.chart.specs.Regret.{query, LeastRegretIsUnique};
ghost use Rattle.search.specs.Snapshots.{snapshot_fixes, snapshot_legs};
ghost use Rattle.pursuit.specs.Answers.{IsPursuit};
ghost use Rattle.least.specs.internal.BranchAndBound.{IsOptimal};
ghost use Rattle.least.specs.Answers.{route_outcome, IsRouteOutcome};

use super::branch_and_bound::{BranchAndBound, Incumbent};
use super::few_chains::has_few_chains;
use super::refusals::RouteRefusal;
use arrayvec::ArrayVec;
use chart::limits::{MAX_FIXES, MAX_LEGS};
use chart::{Chart, Ends, most_legs};
use pursuit::Pursuit;
use search::Snapshot;

/// A route that was found.
#[derive(Clone, Copy, Debug, PartialEq, Eq)]
pub struct FoundRoute {
    /// How many legs the route has. Their numbers stand in the first places of the memory, in the order of the route.
    pub legs: u16,
    /// The regret of the route, in seconds.
    pub regret: u32,
}

// The best of all routes between two ends, by a search with the pursuit, if there is one.
fn find_with<'a>(
    snapshot: &'a Snapshot,
    ends: Ends,
    pursuit: Option<&'a Pursuit>,
) -> Option<Incumbent>
    requires leaves { ends.from < snapshot_fixes snapshot.now }
    requires pursued { IfSome pursuit (λ p. IsPursuit (query (snapshot_legs snapshot.now) ends.from ends.to) p.now) }
    ensures { IsOptimal (query (snapshot_legs snapshot.now) ends.from ends.to) result }
{
    let mut used = [false; MAX_FIXES];
    used[ends.from as usize] = true;
    let mut exploration = BranchAndBound {
        snapshot,
        ends,
        pursuit,
        chain: ArrayVec::new(),
        used,
        flags: [false; MAX_LEGS],
        high: 0,
        incumbent: None,
    };
    exploration.explore(ends.from);
    exploration.incumbent
}

// The best of all routes between two ends, by a search with a pursuit where the chart has one. The pursuit is large, and is kept out
// of the frame of a search without one.
#[inline(never)]
fn find_by_pursuit(snapshot: &Snapshot, ends: Ends) -> Option<Incumbent>
    requires leaves { ends.from < snapshot_fixes snapshot.now }
    ensures { IsOptimal (query (snapshot_legs snapshot.now) ends.from ends.to) result }
{
    let mut pursuit = Pursuit::new();
    if pursuit.fill(snapshot, ends) {
        return find_with(snapshot, ends, Some(&pursuit));
    }
    find_with(snapshot, ends, None)
}

// The best of all routes between two ends, and its regret. Where few chains come into the search, floors take less time than a
// pursuit would take to be filled.
fn find(snapshot: &Snapshot, ends: Ends) -> Option<Incumbent>
    ensures { IsOptimal (query (snapshot_legs snapshot.now) ends.from ends.to) result }
{
    if ends.from >= snapshot.n() {
        return None;
    }
    if has_few_chains(snapshot, ends) {
        return find_with(snapshot, ends, None);
    }
    find_by_pursuit(snapshot, ends)
}

/// Writes the route of least regret between two ends into the first places of the memory, as the numbers of its legs, and
/// returns how many legs it has and its regret in seconds. Of several routes with that regret it is the one whose list of
/// numbers comes first. The places after its legs stay as they are.
///
/// The memory is to have a place for each leg of the longest route that a chart of so many fixes could have, one less than
/// there are fixes. With fewer places the call is refused with the number 15, and where no route leads from the one end to the
/// other with the number 25. Where it is refused the memory stays as it is.
pub fn least_regret<C: Chart>(
    chart: &C,
    ends: Ends,
    memory: &mut [u16],
) -> Result<FoundRoute, RouteRefusal>
    ensures answers { IsRouteOutcome (query (C.legs chart.now) ends.from ends.to) (C.fixes chart.now)
        memory.old (route_outcome result) memory.new }
    ensures unique { LeastRegretIsUnique }
{
    if memory.len() < most_legs(chart) as usize {
        return Err(RouteRefusal::ShortMemory);
    }
    let snapshot = Snapshot::of(chart);
    let incumbent = find(&snapshot, ends).ok_or(RouteRefusal::NoRoute)?;
    let legs = incumbent.list.len();
    memory[..legs].copy_from_slice(incumbent.list.as_slice());
    Ok(FoundRoute {
        legs: legs as u16,
        regret: incumbent.regret,
    })
}
