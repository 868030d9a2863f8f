// A filed plan: how it is amended, what it is asked on its legs as they stand amended, and what it is as a chart.
ghost use Rattle.std.specs.Prelude.{◌≡◌, ◌≤◌, false, OnErr, OnOk};
ghost use Rattle.std.specs.Option.{ForSome};
ghost use Rattle.regret.specs.Answers.{regret_outcome, IsRegretOutcome};
ghost use Rattle.floor.specs.Answers.{floor_outcome, IsFloorOutcome};
ghost use Rattle.least.specs.Answers.{route_outcome, IsRouteOutcome};
ghost use Rattle.plan.specs.Limits.{last_revision};

use super::amendment::{AmendedLeg, Amendment, LAST_REVISION, MAX_AMENDED};
use super::closed::{Closed, Status};
use super::refusals::{AmendRefusal, BestRefusal};
use arrayvec::ArrayVec;
use chart::{Chart, Ends, Leg, Level, Quickest, QuickestTotal};
use floor::{FloorRefusal, floor};
use least::{FoundRoute, RouteRefusal, least_regret};
use regret::{RegretRefusal, regret};
use search::best;
use std::marker::PhantomData;

/// A filed plan: a chart, two ends, and the legs that stand amended, in the order in which they were inserted. They stand in an
/// array of fixed room, so that no call fails for want of memory.
#[derive(Drop)]
pub struct Filed<C> {
    pub(crate) chart: C,
    pub(crate) ends: Ends,
    pub(crate) revision: u16,
    pub(crate) amended: ArrayVec<AmendedLeg, MAX_AMENDED>,
    ghost counted: { revision ≤ last_revision },
}

impl<C> Filed<C> {
    ghost use Rattle.plan.specs.internal.AmendedLegs.{HasRoom, ChangesOnlyAmended, place_of, insert_amended};
    ghost use Rattle.plan.specs.internal.AmendedLegs.{remove_amended, set_amended};

    // Where the leg of a number stands among those that stand amended.
    fn place(&self, number: u16) -> Option<usize>
        ensures { result ≡ place_of self.now.amended.items number }
    {
        self.amended
            .iter()
            .position(|amended| amended.number == number)
    }

    // Inserts an amended leg in the place of its number, or behind all.
    fn insert_amended(&mut self, amended: AmendedLeg)
        requires room { HasRoom self.old.amended.items amended.number }
        ensures { ChangesOnlyAmended self.old self.new (insert_amended self.old.amended.items amended) }
    {
        match self.place(amended.number) {
            Some(place) => self.amended[place] = amended,
            None => self.amended.push(amended),
        }
    }

    // Removes the amended leg of a number.
    fn remove_amended(&mut self, number: u16)
        ensures { ChangesOnlyAmended self.old self.new (remove_amended self.old.amended.items number) }
    {
        self.amended.retain(|amended| amended.number != number);
    }

    // Sets what stands amended of the leg of a number; none removes it.
    fn set_amended(&mut self, number: u16, entry: Option<AmendedLeg>)
        requires room { ForSome entry (λ amended. HasRoom self.old.amended.items amended.number) }
        ensures { ChangesOnlyAmended self.old self.new (set_amended self.old.amended.items number entry) }
    {
        match entry {
            Some(amended) => self.insert_amended(amended),
            None => self.remove_amended(number),
        }
    }
}

impl<C: Chart> Filed<C> {
    ghost use Rattle.plan.specs.Amendments.{ChangeHasValidTimes, restores};
    ghost use Rattle.plan.specs.Ledgers.{query_of, outcome_on, ledger_after};
    ghost use Rattle.plan.specs.Plans.{chart_of, ledger_of, status_of, status_at_close};
    ghost use Rattle.plan.specs.Answers.{amend_outcome, quickest_outcome, level_outcome, IsQuickestOutcome};
    ghost use Rattle.plan.specs.Answers.{IsLevelOutcome};
    ghost use Rattle.plan.specs.internal.AmendedLegs.{HasRoom, IsCheckResult};

    // The plan's leg that is to be amended, or the first ground that refuses the amendment.
    fn check_amendment(&self, amendment: &Amendment) -> Result<Leg, AmendRefusal>
        ensures checked { IsCheckResult (ledger_of C.legs self.now) amendment.now result }
        ensures timed { OnOk result (ChangeHasValidTimes amendment.now.change) }
        ensures room { OnOk result
            (restores amendment.now.change ≡ false → HasRoom self.now.amended.items amendment.now.leg) }
    {
        let Some(leg) = self.leg(amendment.leg) else {
            return Err(AmendRefusal::NoSuchLeg);
        };
        if !amendment.change.has_valid_times() {
            return Err(AmendRefusal::BadTimes);
        }
        if self.revision == LAST_REVISION {
            return Err(AmendRefusal::LastRevision);
        }
        if amendment.revision != self.revision {
            return Err(AmendRefusal::OtherRevision);
        }
        if self.place(amendment.leg).is_some() {
            return Ok(leg);
        }
        if amendment.change.is_restore() {
            return Err(AmendRefusal::NotAmended);
        }
        if self.amended.is_full() {
            return Err(AmendRefusal::NoPlace);
        }
        Ok(leg)
    }

    /// Amends one leg, and answers the plan's new revision, which is the one before and one more. It is refused by the first of
    /// these grounds that applies: 13 where the chart has no leg of the number, 8 where the times given are not valid, 22 at the
    /// last revision, 21 where the plan stands at another revision than the one given, 24 where the leg to be restored does not
    /// stand amended, and 23 where `MAX_AMENDED` legs stand amended and this is none of them. The plan then stays what it was.
    pub fn amend(&mut self, amendment: Amendment) -> Result<u16, AmendRefusal>
        ensures answer { amend_outcome result ≡ outcome_on (ledger_of C.legs self.old) amendment }
        ensures ledger { ledger_of C.legs self.new
            ≡ ledger_after (C.legs (chart_of self.old)) (ledger_of C.legs self.old) amendment }
        ensures chart { chart_of self.new ≡ chart_of self.old }
        ensures refused { OnErr result (self.new ≡ self.old) }
    {
        let leg = self.check_amendment(&amendment)?;
        let entry = AmendedLeg::of(amendment.leg, &leg, amendment.change);
        self.set_amended(amendment.leg, entry);
        self.revision += 1;
        Ok(self.revision)
    }

    /// Writes the route of least regret between the ends into the first places of the memory, and answers how many legs it has
    /// and its regret in seconds; later places keep what they held. It is refused with 15 where the memory has fewer places than
    /// the longest route could have legs, one fewer than there are fixes, and else with 25 where there is no route; the memory
    /// then holds what it held.
    pub fn route(&self, memory: &mut [u16]) -> Result<FoundRoute, RouteRefusal>
        ensures { IsRouteOutcome (query_of (ledger_of C.legs self.now)) (C.fixes (chart_of self.now))
            memory.old (route_outcome result) memory.new }
    {
        least_regret(self, self.ends, memory)
    }

    /// The regret of a list of legs, in seconds. It is refused with 14 where the list is no route between the ends.
    pub fn regret(&self, list: &[u16]) -> Result<u32, RegretRefusal>
        ensures { IsRegretOutcome (query_of (ledger_of C.legs self.now)) list.now (regret_outcome result) }
    {
        regret(self, self.ends, list)
    }

    /// The floor of a list of legs, in seconds: every route that begins with the list has at least this regret. It is refused with
    /// 14 where the list is no chain that leaves the departure, and else with 25 where no route begins with it.
    pub fn floor(&self, chain: &[u16]) -> Result<u32, FloorRefusal>
        ensures { IsFloorOutcome (query_of (ledger_of C.legs self.now)) chain.now (floor_outcome result) }
    {
        floor(self, self.ends, chain)
    }

    /// The fewest seconds at high times of any route between the ends, and the fewest legs of those routes. It is refused with
    /// 25 where there is no route.
    pub fn quickest(&self) -> Result<QuickestTotal, BestRefusal>
        ensures { IsQuickestOutcome (query_of (ledger_of C.legs self.now)) (quickest_outcome result) }
    {
        best(self, &Quickest, self.ends).ok_or(BestRefusal::NoRoute)
    }

    /// The highest level of any route between the ends, in hundreds of feet. It is refused with 25 where there is no route.
    pub fn level(&self) -> Result<u16, BestRefusal>
        ensures { IsLevelOutcome (query_of (ledger_of C.legs self.now)) (level_outcome result) }
    {
        best(self, &Level, self.ends).ok_or(BestRefusal::NoRoute)
    }

    /// The revision, the number of legs that stand amended, and the ends. It is never refused.
    pub fn status(&self) -> Status
        ensures { result ≡ status_of (ledger_of C.legs self.now) }
    {
        Status {
            revision: self.revision,
            amended: self.amended.len() as u16,
            ends: self.ends,
        }
    }

    /// Ends the plan: its status is kept to be read, and its chart is given back as it was filed. It is never refused.
    pub fn close(self) -> (Closed<C>, C)
        ensures status { status_at_close result.0 ≡ status_of (ledger_of C.legs self) }
        ensures chart { result.1 ≡ chart_of self }
    {
        let status = self.status();
        let closed = Closed {
            status,
            of: PhantomData,
        };
        (closed, self.chart)
    }
}

/// A filed plan as a chart: the chart's fixes, and its legs with the amended ones in their places.
impl<C: Chart> Chart for Filed<C> {
    ghost use Rattle.plan.specs.Plans.{plan_legs};
    ghost use Rattle.plan.specs.laws.PlanLaws.{plan_is_chart};

    ghost fixes = { λ plan. C.fixes plan.chart };

    ghost legs = { plan_legs C.legs };

    ghost is_chart = { λ plan. plan_is_chart C.fixes C.legs C.is_chart plan };

    fn n(&self) -> u16 {
        self.chart.n()
    }

    fn m(&self) -> u16 {
        self.chart.m()
    }

    fn leg(&self, k: u16) -> Option<Leg> {
        let own = self.chart.leg(k)?;
        let Some(place) = self.place(k) else {
            return Some(own);
        };
        Some(self.amended[place].overlay_leg(&own))
    }
}
