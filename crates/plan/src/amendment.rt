// What is asked of a filed plan when it is amended, and the leg that then stands amended.
ghost use Rattle.std.specs.Prelude.{◌≡◌, ◌≤◌, ◌↔◌, IsTrue};
ghost use Rattle.chart.specs.Limits.{max_seconds};

use chart::{Interval, Leg, Standing};
use std::default::Default;

/// The most legs of a plan that stand amended at one time. specs/Limits.antt names the same number for the promises.
pub const MAX_AMENDED: usize = 64;

/// The last revision of a plan: at it every amendment is refused. specs/Limits.antt names the same number for the promises.
pub const LAST_REVISION: u16 = 999;

/// What is done to a leg. The fixes of the leg and its top level are never amended.
#[derive(Clone, Copy, Debug, PartialEq, Eq)]
pub enum Change {
    /// The leg is closed, and keeps the times that it has.
    Close,
    /// The leg has these times, in seconds, and is open.
    Times(Interval),
    /// The leg is the chart's own again.
    Restore,
}

impl Change {
    ghost use Rattle.plan.specs.Amendments.{ChangeHasValidTimes, restores};

    /// Whether the times that the change gives are valid: low is not above high, and high is not above the most seconds of a
    /// leg. A change that gives no times passes.
    pub fn has_valid_times(&self) -> bool
        ensures { IsTrue result ↔ ChangeHasValidTimes self.now }
    {
        match self {
            Change::Times(times) => times.is_valid(),
            Change::Close | Change::Restore => true,
        }
    }

    /// Whether the change gives the chart's own leg back.
    pub fn is_restore(&self) -> bool
        ensures { result ≡ restores self.now }
    {
        matches!(self, Change::Restore)
    }
}

/// A change of one leg, asked of a plan that stands at a revision.
#[derive(Clone, Copy, Debug, PartialEq, Eq)]
pub struct Amendment {
    /// The revision at which the plan is taken to stand. The amendment is refused where it stands at another.
    pub revision: u16,
    /// The number of the leg, in the order of the chart's rows from 0.
    pub leg: u16,
    /// What is done to it.
    pub change: Change,
}

/// A leg that stands amended: its number, with the times and the standing that it has instead of the chart's. Its fixes and its
/// top level are the chart's.
#[derive(Clone, Copy)]
pub struct AmendedLeg {
    /// The number of the leg, in the order of the chart's rows from 0.
    pub number: u16,
    /// Its low and its high time, in seconds.
    pub times: Interval,
    /// Whether it is open.
    pub standing: Standing,
    ghost ordered: { times.low ≤ times.high },
    ghost bounded: { times.high ≤ max_seconds },
}

impl AmendedLeg {
    ghost use Rattle.plan.specs.Amendments.{ChangeHasValidTimes};
    ghost use Rattle.plan.specs.Overlays.{overlay_leg};
    ghost use Rattle.plan.specs.internal.AmendedLegs.{IsEntryOf};

    // What is to stand of a leg of the plan after a change; none where it is to be the chart's own again.
    #[tactic(auto, unfolding(crate::specs::Overlays::overlay_leg))]
    pub(crate) fn of(number: u16, leg: &Leg, change: Change) -> Option<AmendedLeg>
        requires { ChangeHasValidTimes change }
        ensures { IsEntryOf number leg.now change result }
    {
        match change {
            Change::Close => Some(AmendedLeg {
                number,
                times: Interval {
                    low: leg.low,
                    high: leg.high,
                },
                standing: Standing::Closed,
            }),
            Change::Times(times) => Some(AmendedLeg {
                number,
                times,
                standing: Standing::Open,
            }),
            Change::Restore => None,
        }
    }

    // The leg with the times and the standing of this one.
    #[tactic(auto, unfolding(crate::specs::Overlays::overlay_leg))]
    pub(crate) fn overlay_leg(&self, leg: &Leg) -> Leg
        ensures { result ≡ overlay_leg leg.now self.now }
    {
        Leg {
            from: leg.from,
            to: leg.to,
            low: self.times.low,
            high: self.times.high,
            top: leg.top,
            standing: self.standing,
        }
    }
}

/// What stands where the array of a plan has no amended leg.
impl Default for AmendedLeg {
    fn default() -> AmendedLeg {
        AmendedLeg {
            number: 0,
            times: Interval { low: 0, high: 0 },
            standing: Standing::Closed,
        }
    }
}
