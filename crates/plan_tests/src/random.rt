// Times and amendments that are drawn, the same in every run.
use chart::Interval;
use listing::DrawnNumbers;
use plan::{Amendment, Change};
use reference::Ledger;

/// Numbers that are drawn, and what is made of them.
#[derive(Clone, Copy)]
pub struct Random {
    numbers: DrawnNumbers,
}

impl Random {
    /// Numbers that begin with this one.
    pub fn new(state: u64) -> Random {
        Random {
            numbers: DrawnNumbers::new(state),
        }
    }

    fn below(&mut self, n: u32) -> u32 {
        self.numbers.below(n)
    }

    /// A number below `n`; zero where `n` is zero.
    pub fn small(&mut self, n: u16) -> u16 {
        self.numbers.small(n)
    }

    /// Times within their limits, now and then at their limits.
    pub fn times(&mut self) -> Interval {
        let low = self.below(600);
        match self.below(12) {
            0 => Interval { low, high: low },
            1 => Interval {
                low: 0,
                high: 100_000,
            },
            2 => Interval {
                low: 100_000,
                high: 100_000,
            },
            _ => Interval {
                low,
                high: low.saturating_add(self.below(400)),
            },
        }
    }

    // Times outside their limits.
    fn bad_times(&mut self) -> Interval {
        let low = self.below(600);
        match self.below(4) {
            0 => Interval { low, high: 100_001 },
            1 => Interval {
                low: u32::MAX,
                high: u32::MAX,
            },
            _ => Interval {
                low: low.saturating_add(1),
                high: low,
            },
        }
    }

    fn change(&mut self) -> Change {
        match self.below(20) {
            0..4 => Change::Close,
            4..6 => Change::Times(self.bad_times()),
            6..13 => Change::Times(self.times()),
            _ => Change::Restore,
        }
    }

    // Mostly a leg of the chart.
    fn leg(&mut self, ledger: &Ledger) -> u16 {
        let legs = u16::try_from(ledger.own().len()).unwrap_or(u16::MAX);
        match self.below(24) {
            0 => legs,
            1 => legs.saturating_add(self.small(30_000)),
            _ => self.small(legs),
        }
    }

    // Mostly the revision that the plan has.
    fn revision(&mut self, ledger: &Ledger) -> u16 {
        let revision = ledger.revision();
        match self.below(24) {
            0 => revision.saturating_add(1),
            1 => revision.saturating_sub(1),
            2 => self.small(2000),
            _ => revision,
        }
    }

    /// An amendment of the plan that the ledger is of: now and then of no leg, or for another revision.
    pub fn amendment(&mut self, ledger: &Ledger) -> Amendment {
        Amendment {
            revision: self.revision(ledger),
            leg: self.leg(ledger),
            change: self.change(),
        }
    }
}
