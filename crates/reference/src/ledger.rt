// A ledger of plain rows. It is kept from the amendments alone, and never looks at the plan.
use chart::{Chart, Ends, Leg, Row, Standing};
use listing::Listing;
use plan::{Amendment, Change, Status};
use std::alloc::{AllocError, Global};

// The longest time of a leg.
const MAX_SECONDS: u32 = 100_000;

// At so many legs no further one is amended.
const MAX_AMENDED: usize = 64;

// At this revision no amendment is granted.
const LAST_REVISION: u16 = 999;

/// A revision, two ends, the chart's own legs, the plan's legs, and the numbers of those that stand amended.
#[derive(Drop)]
pub struct Ledger {
    fixes: u16,
    ends: Ends,
    revision: u16,
    own: Vec<Row>,
    legs: Vec<Row>,
    amended: Vec<u16>,
}

fn has_invalid_times(change: &Change) -> bool {
    match change {
        Change::Times(times) => times.low > times.high || times.high > MAX_SECONDS,
        _ => false,
    }
}

// The numbers of a leg.
fn row_of(leg: &Leg) -> Row {
    Row {
        from: leg.from,
        to: leg.to,
        low: leg.low,
        high: leg.high,
        top: leg.top,
        standing: leg.standing,
    }
}

/// Whether the chart has these legs, each by its number, and none beyond them.
pub fn has_legs<C: Chart>(chart: &C, legs: &[Row]) -> bool {
    chart.m() as usize == legs.len()
        && (0..u16::MAX).zip(legs).all(|(k, leg)| chart
            .leg(k)
            .is_some_and(|found| row_of(&found) == *leg))
        && (chart.m()..=u16::MAX).all(|k| chart.leg(k).is_none())
}

impl Ledger {
    /// The ledger of a plan that is just filed, on a chart with these legs and between these ends.
    pub fn at_filing(
        alloc: Global,
        fixes: u16,
        ends: Ends,
        own: &[Row],
    ) -> Result<Ledger, AllocError> {
        Ok(Ledger {
            fixes,
            ends,
            revision: 0,
            own: own.to_vec(alloc)?,
            legs: own.to_vec(alloc)?,
            amended: Vec::new(alloc),
        })
    }

    /// How many fixes the chart has.
    pub fn fixes(&self) -> u16 {
        self.fixes
    }

    /// The ends of the plan.
    pub fn ends(&self) -> Ends {
        self.ends
    }

    /// How many amendments were granted.
    pub fn revision(&self) -> u16 {
        self.revision
    }

    /// The chart's own legs.
    pub fn own(&self) -> &[Row] {
        &self.own
    }

    /// The plan's legs.
    pub fn legs(&self) -> &[Row] {
        &self.legs
    }

    // Whether the leg of a number stands amended.
    fn is_amended(&self, k: u16) -> bool {
        self.amended.contains(&k)
    }

    // The number of the first ground that applies to an amendment.
    fn first_ground(&self, amendment: &Amendment) -> Option<u8> {
        let is_amended = self.is_amended(amendment.leg);
        let restores = matches!(&amendment.change, Change::Restore);
        let grounds = [
            (13, amendment.leg as usize >= self.own.len()),
            (8, has_invalid_times(&amendment.change)),
            (22, self.revision == LAST_REVISION),
            (21, amendment.revision != self.revision),
            (24, restores && !is_amended),
            (
                23,
                !restores && !is_amended && self.amended.len() >= MAX_AMENDED,
            ),
        ];
        grounds
            .iter()
            .find(|ground| ground.1)
            .map(|ground| ground.0)
    }

    // Changes a leg.
    fn change(&mut self, k: u16, change: &Change) {
        let own = self.own.get(k as usize).copied();
        let (Some(own), Some(leg)) = (own, self.legs.get_mut(k as usize)) else {
            return;
        };
        match change {
            Change::Close => leg.standing = Standing::Closed,
            Change::Times(times) => {
                leg.low = times.low;
                leg.high = times.high;
                leg.standing = Standing::Open;
            }
            Change::Restore => *leg = own,
        }
    }

    // Enters the number of a leg unless it is there; for a restore it is struck.
    fn note_amended(&mut self, k: u16, change: &Change) -> Result<(), AllocError> {
        self.amended.retain(|number| *number != k);
        if !matches!(change, Change::Restore) {
            self.amended.push(k)?;
        }
        Ok(())
    }

    /// What is expected of an amendment: the new revision, or the number of a refusal. What is granted is entered.
    pub fn amend(&mut self, amendment: &Amendment) -> Result<Result<u16, u8>, AllocError> {
        if let Some(number) = self.first_ground(amendment) {
            return Ok(Err(number));
        }
        self.change(amendment.leg, &amendment.change);
        self.note_amended(amendment.leg, &amendment.change)?;
        self.revision = self.revision.saturating_add(1);
        Ok(Ok(self.revision))
    }

    /// What is expected of a status call.
    pub fn status(&self) -> Status {
        Status {
            revision: self.revision,
            amended: u16::try_from(self.amended.len()).unwrap_or(u16::MAX),
            ends: self.ends,
        }
    }

    /// The listing of the plan's legs.
    pub fn listing(&self, alloc: Global) -> Result<Listing, AllocError> {
        Listing::of(alloc, &self.legs, self.ends)
    }

    /// Whether the plan, as a chart, has the fixes and the legs of this ledger.
    pub fn is_meant_by<C: Chart>(&self, plan: &C) -> bool {
        plan.n() == self.fixes && has_legs(plan, &self.legs)
    }
}
