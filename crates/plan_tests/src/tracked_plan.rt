// A filed plan and the ledger that is kept beside it, with the amendments that are tried on both, and how often each thing was asked.
use super::random::Random;
use anyhow::{bail, ensure};
use chart::{Chart, Ends, Row};
use plan::{Amendment, Change, Draft, Filed};
use reference::{Batch, Ledger, has_legs};
use std::alloc::{AllocError, Global};
use std::fmt;

/// A change of a leg, for the revision that the plan has, or for one that is so many behind it.
#[derive(Clone, Copy)]
pub struct Attempt {
    behind: u16,
    leg: u16,
    change: Change,
}

impl Attempt {
    /// A change for the revision that the plan has.
    pub fn now(leg: u16, change: Change) -> Attempt {
        Attempt {
            behind: 0,
            leg,
            change,
        }
    }

    /// A change for the revision before.
    pub fn stale(leg: u16, change: Change) -> Attempt {
        Attempt {
            behind: 1,
            leg,
            change,
        }
    }
}

/// How often a plan was amended and asked, and how it answered. The numbers of the refusals are kept in the order in which they came.
#[derive(Drop)]
pub struct Tally {
    granted: usize,
    refused: Vec<u8>,
    routes: usize,
    none: usize,
}

impl Tally {
    /// Nothing was asked yet.
    pub fn new(alloc: Global) -> Tally {
        Tally {
            granted: 0,
            refused: Vec::new(alloc),
            routes: 0,
            none: 0,
        }
    }

    // Counts an amendment.
    fn amended(&mut self, expected: Result<u16, u8>) -> Result<(), AllocError> {
        match expected {
            Ok(_) => self.granted = self.granted.saturating_add(1),
            Err(number) => self.refused.push(number)?,
        }
        Ok(())
    }

    // Counts the questions on legs that have a route or none.
    fn asked(&mut self, has_route: bool) {
        let count = if has_route {
            &mut self.routes
        } else {
            &mut self.none
        };
        *count = count.saturating_add(1);
    }

    fn count(&self, number: u8) -> usize {
        self.refused
            .iter()
            .filter(|other| **other == number)
            .count()
    }
}

impl fmt::Display for Tally {
    fn fmt<W: fmt::Write>(&self, f: &mut fmt::Formatter<W>) -> fmt::Result {
        let granted = self.granted;
        let refused = self.refused.len();
        write!(f, "{granted} amendments granted, {refused} refused")?;
        for number in [13, 8, 22, 21, 24, 23] {
            let count = self.count(number);
            if count > 0 {
                write!(f, ", {count} by {number}")?;
            }
        }
        let routes = self.routes;
        let none = self.none;
        write!(f, "; asked {routes} times with a route, {none} without")
    }
}

// How many amendments stand between questions.
const BETWEEN: usize = 4;

/// A filed plan, and what is kept of it from the amendments alone.
#[derive(Drop)]
pub struct TrackedPlan<C> {
    /// The plan.
    pub plan: Filed<C>,
    /// What is kept of it.
    pub ledger: Ledger,
}

impl<C: Chart + Drop> TrackedPlan<C> {
    /// Files a plan on a chart of so many fixes and of these legs, between the ends given, or the first and the last fix. It is asked in
    /// the call that files it.
    pub fn file(
        alloc: Global,
        chart: C,
        fixes: u16,
        ends: Option<Ends>,
        own: &[Row],
    ) -> anyhow::Result<TrackedPlan<C>> {
        let mut draft = Draft::new(chart);
        if let Some(ends) = ends {
            ensure!(draft.ends(ends.from, ends.to).is_ok(), "differs: ends");
        }
        let whole = Ends {
            from: 0,
            to: fixes.saturating_sub(1),
        };
        let ledger = Ledger::at_filing(alloc, fixes, ends.unwrap_or(whole), own)?;
        let mut batch = Batch::new(alloc);
        batch.ask(&ledger, &[])?;
        match batch.filed(draft)? {
            Some(plan) => Ok(TrackedPlan { plan, ledger }),
            None => bail!("differs: filing"),
        }
    }

    /// Whether the plan answers the batch as is expected, and then has the ledger's legs. The run is first tried with too few replies and
    /// with too few places: had the plan been changed then, it would answer otherwise.
    pub fn is_as_expected(&mut self, batch: &Batch<'_>) -> Result<bool, AllocError> {
        Ok(
            batch.is_refused_short(&mut self.plan)?
                && batch.answers_as_expected(&mut self.plan)?
                && self.ledger.is_meant_by(&self.plan),
        )
    }

    // Adds an amendment to a batch, and a status call behind it. It answers what is expected.
    fn attempt(
        &mut self,
        batch: &mut Batch<'_>,
        given: Attempt,
    ) -> Result<Result<u16, u8>, AllocError> {
        let revision = self.ledger.revision().saturating_sub(given.behind);
        let amendment = Amendment {
            revision,
            leg: given.leg,
            change: given.change,
        };
        let expected = batch.amend(&mut self.ledger, amendment)?;
        batch.status(&self.ledger)?;
        Ok(expected)
    }

    /// Adds these amendments to a batch, and all questions behind them. It answers what is expected of each amendment.
    pub fn attempt_all<'a>(
        &mut self,
        alloc: Global,
        batch: &mut Batch<'a>,
        given: &[Attempt],
        lists: &'a [Vec<u16>],
    ) -> Result<Vec<Result<u16, u8>>, AllocError> {
        let mut expected = Vec::new(alloc);
        for one in given {
            expected.push(self.attempt(batch, *one)?)?;
        }
        batch.ask(&self.ledger, lists)?;
        Ok(expected)
    }

    /// Adds amendments to a batch. Each is to be granted.
    pub fn grant_all(&mut self, batch: &mut Batch<'_>, given: &[Attempt]) -> anyhow::Result<()> {
        for one in given {
            let expected = self.attempt(batch, *one)?;
            ensure!(expected.is_ok(), "differs: an amendment of leg {}", one.leg);
        }
        Ok(())
    }

    /// Adds a route call with each of these numbers of places. It answers what is expected of each.
    pub fn route_on_places(
        &self,
        alloc: Global,
        batch: &mut Batch<'_>,
        places: &[usize],
    ) -> Result<Vec<Result<(usize, u32), u8>>, AllocError> {
        let listing = self.ledger.listing(alloc)?;
        let mut expected = Vec::new(alloc);
        for count in places {
            expected.push(batch.route(self.ledger.fixes(), &listing, *count)?)?;
        }
        Ok(expected)
    }

    /// Prints what is expected of the questions on the legs as they stand, and of the regret and the floor of these lists.
    pub fn show_expected(&self, rt: &HostRuntime, lists: &[&[u16]]) -> anyhow::Result<()> {
        let listing = self.ledger.listing(rt.alloc())?;
        let least = listing
            .least_regret()
            .map(|listed| (listed.list, listed.regret));
        let quickest = listing.quickest(rt.alloc())?;
        let level = listing.level();
        println!(rt; "  route {least:?}, quickest {quickest:?}, level {level:?}")?;
        for list in lists {
            let regret = listing.regret(list);
            let floor = listing.floor(rt.alloc(), list)?;
            println!(rt; "  list {list:?}: regret {regret:?}, floor {floor:?}")?;
        }
        Ok(())
    }

    /// Amends the plan and asks it, twice in one run. It answers whether all was as expected.
    pub fn advance(
        &mut self,
        alloc: Global,
        random: &mut Random,
        lists: &[Vec<u16>],
        tally: &mut Tally,
    ) -> Result<bool, AllocError> {
        let mut batch = Batch::new(alloc);
        for _ in 0..2 {
            tally.asked(batch.ask(&self.ledger, lists)?);
            for _ in 0..BETWEEN {
                let amendment = random.amendment(&self.ledger);
                tally.amended(batch.amend(&mut self.ledger, amendment)?)?;
                batch.status(&self.ledger)?;
            }
        }
        tally.asked(batch.ask(&self.ledger, lists)?);
        self.is_as_expected(&batch)
    }

    /// Closes the plan. It answers whether the status that is kept is the ledger's, and the chart that is given back has its own legs.
    pub fn close(self) -> (C, bool) {
        let TrackedPlan { plan, ledger } = self;
        let (closed, chart) = plan.close();
        let is_kept = closed.status() == ledger.status();
        let is_own = has_legs(&chart, ledger.own());
        (chart, is_kept && is_own)
    }
}
