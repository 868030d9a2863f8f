// A chain that was walked along.
ghost use Rattle.std.specs.Prelude.{◌≡◌, ◌<◌, false, true, length, replicate, slice_set};
ghost use Rattle.chart.specs.Limits.{max_fixes, max_legs};

use chart::Leg;
use chart::limits::{MAX_FIXES, MAX_LEGS};

/// What is known of a chain that was walked along.
// Sets of fixes and of legs are flags of fixed size, since no call allocates memory.
#[derive(Clone, Copy)]
pub struct Walked {
    /// The fix that it begins at.
    pub from: u16,
    /// The fix that it ends at, which is the first one where it has no legs.
    pub end: u16,
    /// The sum of the high times of its legs, in seconds.
    pub high: u32,
    /// For each fix whether the chain meets it.
    pub used: [bool; MAX_FIXES],
    /// For each leg whether the chain has it.
    pub flown: [bool; MAX_LEGS],
    ghost used_length: { length used ≡ max_fixes },
    ghost flown_length: { length flown ≡ max_legs },
}

impl Walked {
    // At a fix, with no leg flown.
    pub(crate) fn at(from: u16) -> Walked
        requires { from < max_fixes }
        ensures from { result.from ≡ from }
        ensures end { result.end ≡ from }
        ensures high { result.high ≡ 0 }
        ensures used { result.used ≡ slice_set (replicate max_fixes false) from true }
        ensures flown { result.flown ≡ replicate max_legs false }
    {
        let mut used = [false; MAX_FIXES];
        used[from as usize] = true;
        Walked {
            from,
            end: from,
            high: 0,
            used,
            flown: [false; MAX_LEGS],
        }
    }

    // Goes on by the leg, which has the number `k`, but for the sum of times, which the walk itself adds up.
    pub(crate) fn extend(&mut self, k: u16, leg: &Leg)
        requires { (leg.now.to < max_fixes) × (k < max_legs) }
        ensures from { self.new.from ≡ self.old.from }
        ensures end { self.new.end ≡ leg.now.to }
        ensures high { self.new.high ≡ self.old.high }
        ensures used { self.new.used ≡ slice_set self.old.used leg.now.to true }
        ensures flown { self.new.flown ≡ slice_set self.old.flown k true }
    {
        self.end = leg.to;
        self.used[leg.to as usize] = true;
        self.flown[k as usize] = true;
    }
}
