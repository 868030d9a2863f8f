// A listing of all chains that leave a fix, made by trying every leg at the end of every chain.
use chart::{Row, Standing};
use std::alloc::{AllocError, Global};

// The most legs of a chain in the listing.
const MOST_LEGS: usize = 8;

/// A chain.
#[derive(Drop)]
pub struct Chain {
    /// The numbers of its legs.
    pub legs: Vec<u16>,
    // The fixes that it meets, but for the last.
    before: Vec<u16>,
    end: u16,
}

impl Chain {
    fn empty(alloc: Global, from: u16) -> Chain {
        Chain {
            legs: Vec::new(alloc),
            before: Vec::new(alloc),
            end: from,
        }
    }

    // Whether it is a route to the fix.
    pub(crate) fn is_route_to(&self, fix: u16) -> bool {
        !self.legs.is_empty() && self.end == fix
    }

    /// The fix where it ends.
    pub fn end(&self) -> u16 {
        self.end
    }

    /// Whether it meets the fix.
    pub fn meets(&self, fix: u16) -> bool {
        self.end == fix || self.before.contains(&fix)
    }

    // Whether it is a chain still with the leg at its end.
    fn can_take(&self, leg: &Row) -> bool {
        leg.standing == Standing::Open && leg.from == self.end && !self.meets(leg.to)
    }

    // The chain with the leg at its end, which has the number `k`.
    fn extended(&self, k: u16, leg: &Row) -> Result<Chain, AllocError> {
        let mut legs = self.legs.clone()?;
        let mut before = self.before.clone()?;
        legs.push(k)?;
        before.push(self.end)?;
        Ok(Chain {
            legs,
            before,
            end: leg.to,
        })
    }
}

// Each of these chains with one more leg, in every way.
fn all_extended(alloc: Global, rows: &[Row], chains: &[Chain]) -> Result<Vec<Chain>, AllocError> {
    let mut extended = Vec::new(alloc);
    for chain in chains {
        for (k, leg) in (0..u16::MAX).zip(rows) {
            if chain.can_take(leg) {
                extended.push(chain.extended(k, leg)?)?;
            }
        }
    }
    Ok(extended)
}

/// Every chain that leaves the fix and has so few legs as the listing has, the shorter ones first.
pub fn all_chains(alloc: Global, rows: &[Row], from: u16) -> Result<Vec<Chain>, AllocError> {
    let mut chains = Vec::new(alloc);
    let mut last = Vec::new(alloc);
    last.push(Chain::empty(alloc, from))?;
    for _ in 0..MOST_LEGS {
        let next = all_extended(alloc, rows, &last)?;
        chains.append(&mut last)?;
        last = next;
    }
    chains.append(&mut last)?;
    Ok(chains)
}
