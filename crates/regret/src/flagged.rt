// The choice of times in which the flagged legs take their high time, and all others their low, and the least time of
// any route in it.
ghost use Rattle.chart.specs.Best.{BestTotal};
ghost use Rattle.chart.specs.Kinds.{seconds_rule};
ghost use Rattle.search.specs.Snapshots.{snapshot_legs};
ghost use Rattle.regret.specs.FlaggedTimes.{flagged_times};
ghost use Rattle.regret.specs.laws.FlaggedTimesLaws.{flagged_bounded};

use chart::{Choice, Ends, Highs, Leg, Lows, Seconds};
use search::{Snapshot, best_on, is_flagged};

/// The choice of times in which the flagged legs take their high time, and all others their low.
#[derive(Clone, Copy)]
pub struct Flagged<'a> {
    /// A flag for each leg; a leg past the end of them is not flagged.
    pub flags: &'a [bool],
}

impl<'a> Choice for Flagged<'a> {
    ghost times = { λ c. flagged_times c.flags.now };

    ghost bounded = { λ c. flagged_bounded c.flags.now };

    fn time(&self, k: u16, leg: &Leg) -> u32 {
        if is_flagged(self.flags, k) {
            Highs.time(k, leg)
        } else {
            Lows.time(k, leg)
        }
    }
}

/// The least time, in seconds, of any route between two ends where the flagged legs take their high time, and all
/// others their low; none where there is no route, as between numbers that are no fixes, or from a fix to itself.
pub fn least_time(snapshot: &Snapshot, flags: &[bool], ends: Ends) -> Option<u32>
    ensures { BestTotal (seconds_rule (flagged_times flags.now)) (snapshot_legs snapshot.now) ends.from ends.to result }
{
    let seconds = Seconds {
        choice: Flagged { flags },
    };
    best_on(snapshot, &seconds, ends)
}
