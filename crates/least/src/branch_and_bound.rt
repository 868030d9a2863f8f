// A search over all routes between two ends: the chain that it has come along, and the incumbent, the best route so far.
ghost use Rattle.std.specs.Prelude.{◌≡◌};

use arrayvec::ArrayVec;
use chart::Ends;
use chart::limits::{MAX_FIXES, MAX_LEGS, MAX_SECONDS};
use floor::{FloorRefusal, floor_on};
use pursuit::{ChainState, Pursuit, bound};
use regret::regret_on;
use search::{Snapshot, step};

// No route has more regret: it has fewer legs than there are fixes.
const MOST_REGRET: u32 = MAX_SECONDS * (MAX_FIXES as u32 - 1);

// A route and its regret.
#[derive(Drop)]
pub(crate) struct Incumbent {
    pub(crate) list: ArrayVec<u16, MAX_FIXES>,
    pub(crate) regret: u32,
}

impl Incumbent {
    // What a route is compared by: its regret, and then its list.
    fn rank(&self) -> (u32, &[u16])
        ensures { (result.0 ≡ self.now.regret) × (result.1.now ≡ self.now.list.items) }
    {
        (self.regret, self.list.as_slice())
    }
}

// The search: the chain that it has come along, with a flag for each fix that the chain meets, a flag for each of its legs and
// the sum of their high times, and the incumbent. The flags are arrays of fixed size, since no call allocates memory.
#[derive(Drop)]
pub(crate) struct BranchAndBound<'a> {
    pub(crate) snapshot: &'a Snapshot,
    pub(crate) ends: Ends,
    pub(crate) pursuit: Option<&'a Pursuit>,
    pub(crate) chain: ArrayVec<u16, MAX_FIXES>,
    pub(crate) used: [bool; MAX_FIXES],
    pub(crate) flags: [bool; MAX_LEGS],
    pub(crate) high: u32,
    pub(crate) incumbent: Option<Incumbent>,
}

// Each method that changes the search says that it leaves all but the incumbent what it was. Every reason to prune a chain has a
// method, which promises when the reason applies and when not, and `can_prune` asks them.
impl<'a> BranchAndBound<'a> {
    ghost use Rattle.std.specs.Prelude.{IsTrue, ◌↔◌};
    ghost use Rattle.chart.specs.Floors.{IsPrefix, LeavesSource};
    ghost use Rattle.pursuit.specs.Answers.{IsPursuit};
    ghost use Rattle.least.specs.internal.BranchAndBound.{searched_query, IsValidIncumbent, Searches};
    ghost use Rattle.least.specs.internal.BranchAndBound.{ChangesOnlyIncumbent, IsOnly, ExtendsBy, IsReady, TellsReason};
    ghost use Rattle.least.specs.internal.BranchAndBound.{HasPrunableChain, BoundShows, FloorShows, TellsByBound};

    // Keeps the chain where it is a route and better than the incumbent. What it works on is kept out of the frames of the
    // search.
    #[inline(never)]
    fn update_incumbent(&mut self)
        requires { IsValidIncumbent (searched_query self.old) self.old.incumbent }
        ensures searched { Searches self.old self.new (IsOnly self.old.chain.items) }
        ensures only_incumbent { ChangesOnlyIncumbent self.old self.new }
    {
        let list = self.chain.as_slice();
        let Ok(regret) = regret_on(self.snapshot, self.ends, list) else {
            return;
        };
        let held = self.incumbent.as_ref();
        if held.is_none_or(|incumbent| (regret, list) < incumbent.rank()) {
            // It fits, since it is the chain's own list.
            let list = ArrayVec::try_from(list).unwrap();
            self.incumbent = Some(Incumbent { list, regret });
        }
    }

    // Whether a regret of at least `least` of each route that begins with the chain shows that none could replace the incumbent.
    // At an equal regret the lists decide; without an incumbent only a regret shows it that no route has.
    fn can_prune_by(&self, least: u32) -> bool
        ensures { IsTrue result ↔ BoundShows self.now least }
    {
        let list = self.chain.as_slice();
        match &self.incumbent {
            Some(incumbent) => incumbent.rank() < (least, list),
            None => least > MOST_REGRET,
        }
    }

    // Whether the pursuit bound of the chain, which leads to the fix `here`, shows that no route that begins with it could replace
    // the incumbent. Which bound it is, is not known, only that it is a bound.
    fn can_prune_by_pursuit(&self, pursuit: &Pursuit, here: u16) -> bool
        requires ready { IsReady self.now here }
        requires pursued { IsPursuit (searched_query self.now) pursuit.now }
        ensures { TellsByBound self.now result }
    {
        let chain = ChainState {
            end: here,
            high: self.high,
            flags: &self.flags,
        };
        self.can_prune_by(bound(self.snapshot, self.ends, pursuit, &chain))
    }

    // Whether the floor of the chain shows that no route that begins with it could replace the incumbent, or there is no such
    // route.
    fn can_prune_by_floor(&self) -> bool
        requires { LeavesSource (searched_query self.now) self.now.chain.items }
        ensures { IsTrue result ↔ FloorShows self.now }
    {
        match floor_on(self.snapshot, self.ends, self.chain.as_slice()) {
            Ok(floor) => self.can_prune_by(floor),
            Err(FloorRefusal::NoRoute) => true,
            Err(FloorRefusal::NotAChain) => unreachable!(),
        }
    }

    // Whether the chain, which leads to the fix `here`, can be pruned, by its pursuit bound, or by its floor where the search has
    // no pursuit: no route that begins with it could then replace the incumbent. What it works on is kept out of the frames of the
    // search, which goes deep.
    #[inline(never)]
    fn can_prune(&self, here: u16) -> bool
        requires { IsReady self.now here }
        ensures sound { IsTrue result → HasPrunableChain self.now }
        ensures reason { TellsReason self.now result }
    {
        match self.pursuit {
            Some(pursuit) => self.can_prune_by_pursuit(pursuit, here),
            None => self.can_prune_by_floor(),
        }
    }

    // Compares every route that begins with the chain, which leads to the fix `here`, with the incumbent, or prunes it.
    #[cycle(explore)]
    pub(crate) fn explore(&mut self, here: u16)
        requires { IsReady self.old here }
        ensures searched { Searches self.old self.new (IsPrefix self.old.chain.items) }
        ensures only_incumbent { ChangesOnlyIncumbent self.old self.new }
    {
        if here == self.ends.to {
            self.update_incumbent();
            return;
        }
        if self.can_prune(here) {
            return;
        }
        for k in self.snapshot.legs_from(here) {
            self.explore_leg(here, k);
        }
    }

    // Compares every route that begins with the chain and then the leg `k` with the incumbent, or prunes it.
    #[cycle(explore)]
    fn explore_leg(&mut self, here: u16, k: u16)
        requires { IsReady self.old here }
        ensures searched { Searches self.old self.new (ExtendsBy self.old.chain.items k) }
        ensures only_incumbent { ChangesOnlyIncumbent self.old self.new }
    {
        let Some(leg) = step(self.snapshot, here, &self.used, k) else {
            return;
        };
        let to = leg.to as usize;
        let number = k as usize;
        self.chain.push(k);
        self.used[to] = true;
        self.flags[number] = true;
        self.high += leg.high;
        self.explore(leg.to);
        self.high -= leg.high;
        self.flags[number] = false;
        self.used[to] = false;
        self.chain.pop();
    }
}
