// The pursuit bound of each chain, beside its floor and the regrets of the routes that begin with it.
use anyhow::ensure;
use chart::limits::MAX_LEGS;
use chart::{Chart, Ends, Row};
use listing::{Chain, Listing};
use pursuit::{ChainState, Pursuit, bound};
use search::Snapshot;
use std::alloc::{AllocError, Global};

// No regret is more: the bound of a chain that no route begins with is.
const MOST_REGRET: u32 = 20_000_000;

// The sum of the high times of these legs.
fn high_time(rows: &[Row], legs: &[u16]) -> u32 {
    legs.iter()
        .filter_map(|k| rows.get(*k as usize))
        .fold(0u32, |sum, leg| sum.saturating_add(leg.high))
}

// A flag for each of these legs.
fn flagged(legs: &[u16]) -> [bool; MAX_LEGS] {
    let mut flags = [false; MAX_LEGS];
    for k in legs {
        if let Some(flag) = flags.get_mut(*k as usize) {
            *flag = true;
        }
    }
    flags
}

// Whether the bound is no less than the chain's floor, and no more than the regret of any route that begins with the chain;
// more than any regret where there is none.
fn fits(alloc: Global, listing: &Listing, chain: &[u16], bound: u32) -> Result<bool, AllocError> {
    Ok(match listing.floor(alloc, chain)? {
        Err(_) => bound > MOST_REGRET,
        Ok(floor) => {
            floor <= bound
                && listing
                    .routes()
                    .iter()
                    .filter(|route| route.starts_with(chain))
                    .all(|route| listing.regret(route).is_ok_and(|regret| bound <= regret))
        }
    })
}

/// How many chains have a pursuit bound, which fits each of them: those that do not meet the destination, on a chart that has a
/// pursuit.
pub fn count_bounds<C: Chart>(
    alloc: Global,
    chart: &C,
    ends: Ends,
    rows: &[Row],
    listing: &Listing,
) -> anyhow::Result<usize> {
    let snapshot = Snapshot::of(chart);
    let mut pursuit = Pursuit::new();
    if !pursuit.fill(&snapshot, ends) {
        return Ok(0);
    }
    let mut count = 0usize;
    for chain in listing.chains() {
        if chain.meets(ends.to) {
            continue;
        }
        let legs = chain.legs.as_slice();
        let state = ChainState {
            end: chain.end(),
            high: high_time(rows, legs),
            flags: &flagged(legs),
        };
        let bound = bound(&snapshot, ends, &pursuit, &state);
        ensure!(
            fits(alloc, listing, legs, bound)?,
            "the bound of {legs:?} is {bound}"
        );
        count = count.saturating_add(1);
    }
    Ok(count)
}
