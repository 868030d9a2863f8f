// The times by which a rival reaches fixes while the route is on a chain.
ghost use Rattle.std.specs.Prelude.{◌≡◌, None, Some, slice_index_or, slice_set};

use super::heights::height_of;
use super::legs::rival_leg;
use super::margins::PURSUIT_FIXES;
use chart::{Choice, Ends};
use regret::Flagged;
use search::Snapshot;

// The time by which a rival reaches a fix, where it is known.
pub(crate) fn time_at(times: &[Option<u32>], fix: u16) -> Option<u32>
    ensures { result ≡ slice_index_or times.now fix None }
{
    times.get(fix as usize).copied().flatten()
}

// Sets the time by which a rival reaches a fix.
fn set_time(times: &mut [Option<u32>], fix: u16, time: u32)
    ensures { times.new ≡ slice_set times.old fix (Some time) }
{
    let fix = fix as usize;
    if fix < times.len() {
        times[fix] = Some(time);
    }
}

// Which legs a rival may take, and in which times: those that leave fixes below the height `below`, the flagged legs in their
// high time and all others in their low.
#[derive(Clone, Copy)]
pub(crate) struct Reaching<'a> {
    pub(crate) snapshot: &'a Snapshot,
    pub(crate) ends: Ends,
    pub(crate) heights: &'a [u16],
    pub(crate) flags: &'a [bool],
    pub(crate) below: u16,
}

impl<'a> Reaching<'a> {
    ghost use Rattle.pursuit.specs.internal.Margins.{AreTimesOf};

    // Lets the rival take the leg `k`, if that leaves a fix below the height that it reaches.
    fn take_leg(&self, times: &mut [Option<u32>], k: u16)
        requires { AreTimesOf self.now times.old }
        ensures { AreTimesOf self.now times.new }
    {
        let Some(leg) = rival_leg(self.snapshot, self.ends, k) else {
            return;
        };
        if height_of(self.heights, leg.from) >= self.below {
            return;
        }
        let Some(so_far) = time_at(times, leg.from) else {
            return;
        };
        let flagged = Flagged { flags: self.flags };
        // No sum is too large, since paths that rise are short; the sum is tested, which is simpler than to prove it.
        let Some(time) = so_far.checked_add(flagged.time(k, &leg)) else {
            return;
        };
        if time_at(times, leg.to).is_none_or(|known| time < known) {
            set_time(times, leg.to, time);
        }
    }

    // Lets the rival take each leg that leaves the fix `u`.
    fn take_legs(&self, times: &mut [Option<u32>], u: u16)
        requires { AreTimesOf self.now times.old }
        ensures { AreTimesOf self.now times.new }
    {
        for k in self.snapshot.legs_from(u) {
            self.take_leg(times, k);
        }
    }

    // The times by which a rival reaches fixes. The order, which begins with the highest fix, is gone through from its end.
    pub(crate) fn times(&self, order: &[u16]) -> [Option<u32>; PURSUIT_FIXES]
        ensures { AreTimesOf self.now result }
    {
        let mut times = [None; PURSUIT_FIXES];
        set_time(&mut times, self.ends.from, 0);
        for u in order.iter().rev() {
            if height_of(self.heights, *u) >= self.below {
                return times;
            }
            self.take_legs(&mut times, *u);
        }
        times
    }
}
