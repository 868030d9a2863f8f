// Kinds of totals, and the three kinds: seconds under a choice of times, high-time seconds with the
// number of legs, and level.
ghost use Rattle.std.specs.Prelude.{◌≡◌};
ghost use Rattle.chart.specs.Kinds.{Rule, Laws, HasFewLegs, TellsBetter, Compact, seconds_rule};
ghost use Rattle.chart.specs.Kinds.{quickest_rule, level_rule};
ghost use Rattle.chart.specs.laws.Kinds.{seconds_laws, quickest_laws, level_laws};

use super::choice::Choice;
use super::leg::Leg;
use super::limits::MAX_LEVEL;

/// A kind of total: what a total starts as, how a leg is added, and which of two is better. `rule`
/// says these three, and keeps the laws by which a search finds the best total.
pub trait Kind {
    /// What a total of this kind is.
    type Total: Copy;

    ghost rule: { Self → Rule Self.Total };

    ghost laws: { (k : Self) → Laws (rule k) };

    /// The total of no legs.
    fn start(&self) -> Self::Total
        ensures value { result ≡ (rule self.now).start }
        ensures keeps_laws { Laws (rule self.now) }
        ensures compact { Compact Self.Total.row };

    /// The total with the leg `leg`, which has the number `k`, added. A total is only made of as
    /// many legs as a route can have.
    fn add(&self, total: Self::Total, k: u16, leg: &Leg) -> Self::Total
        requires { HasFewLegs (rule self.now) total }
        ensures { result ≡ (rule self.now).add total k leg.now };

    /// Whether `a` is better than `b`; two equal totals are neither better.
    fn better(&self, a: Self::Total, b: Self::Total) -> bool
        ensures { TellsBetter (rule self.now) a b result };
}

/// Seconds under a choice of times: they add up, and fewer is better.
#[derive(Clone, Copy)]
pub struct Seconds<T> {
    /// The choice that gives each leg its time.
    pub choice: T,
}

impl<T: Choice> Kind for Seconds<T> {
    type Total = u32;

    ghost rule = { λ s. seconds_rule (T.Choice.times s.choice) };

    ghost laws = { λ s. seconds_laws (T.Choice.times s.choice) };

    fn start(&self) -> u32 {
        0
    }

    fn add(&self, total: u32, k: u16, leg: &Leg) -> u32 {
        total + self.choice.time(k, leg)
    }

    fn better(&self, a: u32, b: u32) -> bool {
        a < b
    }
}

/// How long a list of legs takes at high times, and how many legs it has. The order is that of the
/// seconds, then that of the number of legs.
#[derive(Clone, Copy, Debug, PartialEq, Eq, PartialOrd, Ord)]
pub struct QuickestTotal {
    /// The sum of the high times, in seconds.
    pub seconds: u32,
    /// The number of legs.
    pub legs: u16,
}

/// High-time seconds and the number of legs: both add up, and fewer seconds is better, then fewer
/// legs.
#[derive(Clone, Copy)]
pub struct Quickest;

impl Kind for Quickest {
    type Total = QuickestTotal;

    ghost rule = { λ _. quickest_rule };

    ghost laws = { λ _. quickest_laws };

    fn start(&self) -> QuickestTotal {
        QuickestTotal {
            seconds: 0,
            legs: 0,
        }
    }

    fn add(&self, total: QuickestTotal, _k: u16, leg: &Leg) -> QuickestTotal {
        QuickestTotal {
            seconds: total.seconds + leg.high,
            legs: total.legs + 1,
        }
    }

    fn better(&self, a: QuickestTotal, b: QuickestTotal) -> bool {
        a < b
    }
}

/// Level: the lowest top level of the legs, in hundreds of feet, and higher is better. Of no legs
/// it is the highest level, 600.
#[derive(Clone, Copy)]
pub struct Level;

impl Kind for Level {
    type Total = u16;

    ghost rule = { λ _. level_rule };

    ghost laws = { λ _. level_laws };

    fn start(&self) -> u16 {
        MAX_LEVEL
    }

    fn add(&self, total: u16, _k: u16, leg: &Leg) -> u16 {
        total.min(leg.top)
    }

    fn better(&self, a: u16, b: u16) -> bool {
        b < a
    }
}
