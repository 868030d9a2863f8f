// What the calls answer on a small chart beside the listing, between two ends or between every two fixes.
use super::bounds::count_bounds;
use anyhow::{Context, ensure};
use chart::{Chart, Ends, Refusal, Row};
use floor::floor;
use least::least_regret;
use listing::{FILLER, Listing, are_untouched};
use regret::regret;
use std::alloc::{AllocError, Global};
use std::fmt;

// More places than any route of a small chart has legs.
const PLACES: usize = 24;

// Charts of so many legs are listed both ways: by all choices of times, and by the worst choice of each route alone.
const FEW: usize = 10;

// How many chains the regret call answers otherwise than the listing does. Here and below the number of a refusal itself is tested.
fn count_regrets<C: Chart>(chart: &C, ends: Ends, listing: &Listing) -> usize {
    listing
        .chains()
        .iter()
        .filter(|chain| {
            let answer = regret(chart, ends, &chain.legs).map_err(|refusal| refusal.number());
            answer != listing.regret(&chain.legs)
        })
        .count()
}

// How many chains the floor call answers otherwise than the listing does.
fn count_floors<C: Chart>(
    alloc: Global,
    chart: &C,
    ends: Ends,
    listing: &Listing,
) -> Result<usize, AllocError> {
    let mut count = 0usize;
    for chain in listing.chains() {
        let answer = floor(chart, ends, &chain.legs).map_err(|refusal| refusal.number());
        if answer != listing.floor(alloc, &chain.legs)? {
            count = count.saturating_add(1);
        }
    }
    Ok(count)
}

// Whether the route call is refused for want of places, and leaves these as they were.
fn short_is_refused<C: Chart>(chart: &C, ends: Ends, memory: &mut [u16]) -> bool {
    least_regret(chart, ends, memory).is_err_and(|refusal| refusal.number() == 15)
        && are_untouched(memory)
}

// Whether the route call puts the listed route into memory, and leaves the places beyond it as they were.
fn route_agrees<C: Chart>(chart: &C, ends: Ends, listing: &Listing, memory: &mut [u16]) -> bool {
    let answer = least_regret(chart, ends, memory);
    match (answer, listing.least_regret()) {
        (Ok(found), Ok(listed)) => {
            found.regret == listed.regret
                && found.legs as usize == listed.list.len()
                && memory
                    .strip_prefix(listed.list)
                    .is_some_and(|beyond| are_untouched(beyond))
        }
        (Err(refusal), Err(number)) => refusal.number() == number && are_untouched(memory),
        _ => false,
    }
}

// Whether a test holds of so many filled places.
fn holds_on<F: FnOnce(&mut [u16]) -> bool>(count: usize, test: F) -> bool
    requires { F.IsAlwaysCallable test }
{
    let mut memory = [FILLER; PLACES];
    memory.get_mut(..count).is_some_and(test)
}

// Whether the route call agrees with the listing on too few, just enough and more than enough places.
fn routes_agree<C: Chart>(chart: &C, ends: Ends, listing: &Listing) -> bool {
    let enough = (chart.n() as usize).saturating_sub(1).min(PLACES);
    holds_on(
        enough.saturating_sub(1),
        |places| short_is_refused(chart, ends, places),
    ) && holds_on(enough, |places| route_agrees(chart, ends, listing, places))
        && holds_on(PLACES, |places| route_agrees(chart, ends, listing, places))
}

// Whether every route has the same regret in both listings.
fn ways_agree(all: &Listing, worst: &Listing) -> bool {
    all.routes()
        .iter()
        .all(|route| all.regret(route) == worst.regret(route))
}

/// The listing of a chart with these legs between two ends, with which the calls agree, and how many of its chains have a pursuit
/// bound.
pub fn compare<C: Chart>(
    alloc: Global,
    chart: &C,
    ends: Ends,
    rows: &[Row],
) -> anyhow::Result<(Listing, usize)> {
    let listing = Listing::at_worst(alloc, rows, ends)?;
    if rows.len() <= FEW {
        let all = Listing::of(alloc, rows, ends)?;
        ensure!(ways_agree(&all, &listing), "the listings differ");
    }
    let regrets = count_regrets(chart, ends, &listing);
    let floors = count_floors(alloc, chart, ends, &listing)?;
    ensure!(regrets == 0, "{regrets} regrets differ");
    ensure!(floors == 0, "{floors} floors differ");
    ensure!(routes_agree(chart, ends, &listing), "the route differs");
    let bounded = count_bounds(alloc, chart, ends, rows, &listing)?;
    Ok((listing, bounded))
}

/// How many charts there were, how many ends with a route and without, and how many chains with a pursuit bound.
#[derive(Clone, Copy)]
pub struct Tally {
    charts: usize,
    routes: usize,
    none: usize,
    bounded: usize,
}

impl Tally {
    /// No chart yet.
    pub fn new() -> Tally {
        Tally {
            charts: 0,
            routes: 0,
            none: 0,
            bounded: 0,
        }
    }

    fn count(&mut self, has_route: bool) {
        let count = if has_route {
            &mut self.routes
        } else {
            &mut self.none
        };
        *count = count.saturating_add(1);
    }

    /// Compares the calls on one more chart with its listings.
    pub fn compare_all<C: Chart>(
        &mut self,
        alloc: Global,
        chart: &C,
        rows: &[Row],
    ) -> anyhow::Result<()> {
        for from in 0..chart.n() {
            for to in 0..chart.n() {
                let (listing, bounded) = compare(alloc, chart, Ends { from, to }, rows).context(
                    format_args!("{from} to {to} on {rows:?}"),
                )?;
                self.count(!listing.routes().is_empty());
                self.bounded = self.bounded.saturating_add(bounded);
            }
        }
        self.charts = self.charts.saturating_add(1);
        Ok(())
    }
}

impl fmt::Display for Tally {
    fn fmt<W: fmt::Write>(&self, f: &mut fmt::Formatter<W>) -> fmt::Result {
        let charts = self.charts;
        let routes = self.routes;
        let none = self.none;
        let bounded = self.bounded;
        write!(
            f,
            "{charts} charts, {routes} ends with a route, {none} without, {bounded} chains bounded"
        )
    }
}
