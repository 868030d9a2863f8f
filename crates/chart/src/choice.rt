// Choices of times: in each, the time of a leg lies between its low and its high.
ghost use Rattle.std.specs.Prelude.{◌≡◌};
ghost use Rattle.chart.specs.declared.leg.Leg.{Leg};
ghost use Rattle.chart.specs.Kinds.{Times, IsBounded, high_times, low_times};
ghost use Rattle.chart.specs.laws.Kinds.{high_bounded, low_bounded};

use super::leg::Leg;

/// A choice of times: one time for each leg, from its low to its high. `times` gives the time of a
/// leg from its number and the leg itself.
pub trait Choice {
    ghost times: { Self → Times };

    ghost bounded: { (c : Self) → IsBounded (times c) };

    /// The time in this choice of the leg `leg`, which has the number `k`, in seconds.
    fn time(&self, k: u16, leg: &Leg) -> u32
        ensures { result ≡ times self.now k leg.now };
}

/// The choice in which every leg takes its high time. This choice and the next are two types, since
/// one with a flag would say less by its name; the trait has the laws of both.
#[derive(Clone, Copy)]
pub struct Highs;

impl Choice for Highs {
    ghost times = { λ _. high_times };

    ghost bounded = { λ _. high_bounded };

    fn time(&self, _k: u16, leg: &Leg) -> u32 {
        leg.high
    }
}

/// The choice in which every leg takes its low time.
#[derive(Clone, Copy)]
pub struct Lows;

impl Choice for Lows {
    ghost times = { λ _. low_times };

    ghost bounded = { λ _. low_bounded };

    fn time(&self, _k: u16, leg: &Leg) -> u32 {
        leg.low
    }
}
