// What is to be answered on a small chart, by the definitions, over the listing. A refusal is its number alone.
use super::chain::{Chain, all_chains};
use super::choice::{Choice, all_choices, least_total_time, loss_at_worst, total_time};
use chart::{Ends, Row};
use std::alloc::{AllocError, Global};

// The highest top level that a leg can have.
const HIGHEST_LEVEL: u16 = 600;

// The number of a refusal of a list that is no route or no chain.
const NOT_A_CHAIN_OR_ROUTE: u8 = 14;

// The number of a refusal where there is no route.
const NO_ROUTE: u8 = 25;

/// The legs of a chart, the chains that leave the departure, those of them that are routes, and all choices of times. There are
/// none where a route's regret is listed by its own worst choice.
#[derive(Drop)]
pub struct Listing {
    rows: Vec<Row>,
    chains: Vec<Chain>,
    routes: Vec<Vec<u16>>,
    choices: Option<Vec<Choice>>,
}

/// A route and its regret.
#[derive(Clone, Copy)]
pub struct ListedRoute<'a> {
    /// The regret of the route, in seconds.
    pub regret: u32,
    /// The numbers of its legs.
    pub list: &'a [u16],
}

impl ListedRoute<'_> {
    // Whether it is to be answered before the other: for less regret, or for as much with the list that comes first.
    fn is_preferred_to(&self, other: &ListedRoute<'_>) -> bool {
        self.regret < other.regret
            || (self.regret == other.regret && comes_before(self.list, other.list))
    }
}

// The lists of the chains that are routes to the fix.
fn routes_to(alloc: Global, chains: &[Chain], fix: u16) -> Result<Vec<Vec<u16>>, AllocError> {
    let mut routes = Vec::new(alloc);
    for chain in chains {
        if chain.is_route_to(fix) {
            routes.push(chain.legs.clone()?)?;
        }
    }
    Ok(routes)
}

fn shares_a_fix(a: &Row, b: &Row) -> bool {
    a.from == b.from || a.to == b.to
}

impl Listing {
    /// The listing of a chart's legs between two fixes, by all choices.
    pub fn of(alloc: Global, rows: &[Row], ends: Ends) -> Result<Listing, AllocError> {
        let mut listing = Listing::at_worst(alloc, rows, ends)?;
        listing.choices = Some(all_choices(alloc, rows, &listing.routes)?);
        Ok(listing)
    }

    /// The listing by the worst choice of each route alone.
    pub fn at_worst(alloc: Global, rows: &[Row], ends: Ends) -> Result<Listing, AllocError> {
        let chains = all_chains(alloc, rows, ends.from)?;
        let routes = routes_to(alloc, &chains, ends.to)?;
        Ok(Listing {
            rows: rows.to_vec(alloc)?,
            chains,
            routes,
            choices: None,
        })
    }

    /// The chains, the empty one first.
    pub fn chains(&self) -> &[Chain] {
        &self.chains
    }

    /// The routes.
    pub fn routes(&self) -> &[Vec<u16>] {
        &self.routes
    }

    fn is_chain(&self, list: &[u16]) -> bool {
        self.chains
            .iter()
            .any(|chain| chain.legs.as_slice() == list)
    }

    fn is_route(&self, list: &[u16]) -> bool {
        self.routes.iter().any(|route| route.as_slice() == list)
    }

    // The largest loss of a route under any choice.
    fn largest_loss(&self, route: &[u16]) -> u32 {
        match &self.choices {
            Some(choices) => choices
                .iter()
                .map(|choice| choice.loss_of(route))
                .max()
                .unwrap_or(0),
            None => loss_at_worst(&self.rows, &self.routes, route),
        }
    }

    /// The regret of a list of legs.
    pub fn regret(&self, list: &[u16]) -> Result<u32, u8> {
        if self.is_route(list) {
            Ok(self.largest_loss(list))
        } else {
            Err(NOT_A_CHAIN_OR_ROUTE)
        }
    }

    /// The route of least regret: of several, that whose list comes first.
    pub fn least_regret(&self) -> Result<ListedRoute<'_>, u8> {
        self.routes
            .iter()
            .map(|route| ListedRoute {
                regret: self.largest_loss(route),
                list: route.as_slice(),
            })
            .reduce(|least, route| if route.is_preferred_to(&least) {
                route
            } else {
                least
            })
            .ok_or(NO_ROUTE)
    }

    // Whether the leg shares a fix with one of the chain.
    fn meets_a_leg(&self, chain: &[u16], leg: &Row) -> bool {
        chain
            .iter()
            .filter_map(|j| self.rows.get(*j as usize))
            .any(|other| shares_a_fix(leg, other))
    }

    // The time of a leg where those that the chain shuts take their low time, and all others their high.
    fn floor_choice(&self, chain: &[u16], k: u16, leg: &Row) -> u32 {
        if !chain.contains(&k) && self.meets_a_leg(chain, leg) {
            leg.low
        } else {
            leg.high
        }
    }

    // The high times of all legs.
    fn high_times(&self, alloc: Global) -> Result<Vec<u32>, AllocError> {
        self.rows.iter().map(|leg| leg.high).collect(alloc)
    }

    // The smallest sum of high times among the routes that the chain begins, less the smallest time of all routes where the shut
    // legs are low.
    fn bound(&self, high_times: &[u32], floor_choice: &[u32], chain: &[u16]) -> Option<u32> {
        let onward = self
            .routes
            .iter()
            .filter(|route| route.starts_with(chain))
            .map(|route| total_time(high_times, route))
            .min()?;
        Some(onward.saturating_sub(least_total_time(floor_choice, &self.routes)?))
    }

    /// The floor of a list of legs.
    pub fn floor(&self, alloc: Global, list: &[u16]) -> Result<Result<u32, u8>, AllocError> {
        if !self.is_chain(list) {
            return Ok(Err(NOT_A_CHAIN_OR_ROUTE));
        }
        let high_times = self.high_times(alloc)?;
        let floor_choice: Vec<u32> = (0..u16::MAX)
            .zip(&self.rows)
            .map(|(k, leg)| self.floor_choice(list, k, leg))
            .collect(alloc)?;
        Ok(self.bound(&high_times, &floor_choice, list).ok_or(NO_ROUTE))
    }

    /// The fewest seconds at high times of any route, and of the routes that take so many, the fewest legs.
    pub fn quickest(&self, alloc: Global) -> Result<Result<(u32, usize), u8>, AllocError> {
        let high_times = self.high_times(alloc)?;
        Ok(
            self.routes
                .iter()
                .map(|route| (total_time(&high_times, route), route.len()))
                .min()
                .ok_or(NO_ROUTE),
        )
    }

    // The lowest top of a list of legs.
    fn level_of(&self, list: &[u16]) -> u16 {
        list.iter()
            .filter_map(|k| self.rows.get(*k as usize))
            .fold(HIGHEST_LEVEL, |level, leg| level.min(leg.top))
    }

    /// The highest level of any route.
    pub fn level(&self) -> Result<u16, u8> {
        self.routes
            .iter()
            .map(|route| self.level_of(route))
            .max()
            .ok_or(NO_ROUTE)
    }
}

// Whether the one list comes before the other: the smaller number where they first differ, or it begins the other. It is written
// out here, since the search that is compared with the listing goes by std's order of lists.
fn comes_before(a: &[u16], b: &[u16]) -> bool {
    let differ = a.iter().zip(b).find(|(x, y)| x != y);
    match differ {
        Some((x, y)) => x < y,
        None => a.len() < b.len(),
    }
}
