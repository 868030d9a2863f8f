// Whether few chains come into a search, so that to ask the floor of each takes less time than to fill a pursuit. Nothing is promised
// of the answer: a search with a pursuit and one without find the same route.

use arrayvec::ArrayVec;
use chart::limits::MAX_FIXES;
use chart::{Chart, Ends, Standing};
use search::{Snapshot, is_flagged};

// How many chains are few where the departure leads to all fixes, with those that end at the destination and those from whose end no
// leg leads on to it. Where it leads to a part of the chart only, a floor takes less time, and more chains are few.
const FEW: usize = 8;

// No more chains than these are few.
const MOST: usize = 256;

// The fixes that legs lead to from one of them: a flag for each, those whose legs are still to be followed, and how many fixes and legs
// were looked at.
#[derive(Drop)]
struct Reached {
    flags: [bool; MAX_FIXES],
    pending: ArrayVec<u16, MAX_FIXES>,
    looked_at: usize,
}

impl Reached {
    // Takes in a fix, once.
    fn add(&mut self, fix: u16) {
        if is_flagged(&self.flags, fix) || self.pending.is_full() {
            return;
        }
        if let Some(flag) = self.flags.get_mut(fix as usize) {
            *flag = true;
            self.pending.push(fix);
        }
    }

    // Takes in the fixes to which open legs lead from this one.
    fn add_next(&mut self, snapshot: &Snapshot, fix: u16) {
        self.looked_at = self.looked_at.saturating_add(1);
        for k in snapshot.legs_from(fix) {
            self.looked_at = self.looked_at.saturating_add(1);
            if let Some(to) = open_end(snapshot, k) {
                self.add(to);
            }
        }
    }
}

// The fix to which the leg `k` leads, where it is open.
fn open_end(snapshot: &Snapshot, k: u16) -> Option<u16> {
    let leg = snapshot.leg(k)?;
    if leg.standing == Standing::Open {
        Some(leg.to)
    } else {
        None
    }
}

// The fixes to which open legs lead from a fix, up to the fix `to` if they lead there. Legs that no way comes to are not looked at.
fn reached_from(snapshot: &Snapshot, here: u16, to: Option<u16>) -> Reached {
    let mut reached = Reached {
        flags: [false; MAX_FIXES],
        pending: ArrayVec::new(),
        looked_at: 0,
    };
    reached.add(here);
    for _ in 0..MAX_FIXES {
        match reached.pending.pop() {
            Some(fix) if Some(fix) != to => reached.add_next(snapshot, fix),
            _ => break,
        }
    }
    reached
}

// How many chains are few, by how much of the chart the departure leads to.
fn most_few(snapshot: &Snapshot, from: u16) -> usize {
    let part = reached_from(snapshot, from, None).looked_at;
    let all = snapshot.n() as usize + snapshot.m() as usize;
    (FEW * all / part.max(1)).min(MOST)
}

// Adds the end of each chain that goes on by one open leg from the fix `here`, and says whether there are at most so many.
fn add_longer(
    snapshot: &Snapshot,
    here: u16,
    most: usize,
    chains: &mut ArrayVec<u16, MOST>,
) -> bool {
    for k in snapshot.legs_from(here) {
        let Some(to) = open_end(snapshot, k) else {
            continue;
        };
        if chains.is_full() || chains.len() >= most {
            return false;
        }
        chains.push(to);
    }
    true
}

// Whether few chains lead from the departure to fixes, and to the destination if to any; a chain is not gone on with from a fix
// that does not lead there.
pub(crate) fn has_few_chains(snapshot: &Snapshot, ends: Ends) -> bool {
    let most = most_few(snapshot, ends.from);
    // The ends of the chains so far, the shorter ones first.
    let mut chains = ArrayVec::<u16, MOST>::new();
    chains.push(ends.from);
    for i in 0..MOST {
        let Some(here) = chains.get(i).copied() else {
            return true;
        };
        let reached = reached_from(snapshot, here, Some(ends.to));
        if here != ends.to
            && is_flagged(&reached.flags, ends.to)
            && !add_longer(snapshot, here, most, &mut chains)
        {
            return false;
        }
    }
    true
}
