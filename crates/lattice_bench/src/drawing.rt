// Lattices that are drawn, the same on every run.
use super::spreads::{Spread, SpreadLimits};
use chart::{Interval, Lattice, Step};
use std::alloc::Global;

// The top level of every leg.
const TOP: u16 = 390;

// Numbers without pattern.
#[derive(Drop)]
struct RandomNumbers {
    last: u32,
}

impl RandomNumbers {
    // The next number.
    fn draw(&mut self) -> u16 {
        self.last = self
            .last
            .wrapping_mul(1_664_525)
            .wrapping_add(1_013_904_223);
        (self.last / 65_536) as u16
    }

    // A number that is at most the one given.
    fn up_to(&mut self, most: u16) -> u16 {
        self.draw() % most.saturating_add(1)
    }

    // The interval of a leg, which may lead to another row.
    fn interval(&mut self, limits: &SpreadLimits, is_slanting: bool) -> Interval {
        let slant = if is_slanting { limits.slant } else { 0 };
        let low = u32::from(limits.low)
            + u32::from(slant)
            + u32::from(self.up_to(limits.low_varies));
        let width = u32::from(limits.width) + u32::from(self.up_to(limits.width_varies));
        Interval {
            low,
            high: low + width,
        }
    }

    fn step(&mut self, limits: &SpreadLimits) -> Step {
        let row_before = self.interval(limits, true);
        let same_row = self.interval(limits, false);
        let row_after = self.interval(limits, true);
        Step {
            turns: [row_before, same_row, row_after],
        }
    }
}

// A lattice of so many rows and columns, with times of a spread.
pub(crate) fn drawn_lattice(
    alloc: Global,
    rows: u16,
    columns: u16,
    spread: Spread,
) -> anyhow::Result<Lattice> {
    let mut numbers = RandomNumbers {
        last: u32::from(rows) * u32::from(columns),
    };
    let limits = spread.limits();
    let mut steps = Vec::new(alloc);
    for _ in 1..columns {
        steps.push(numbers.step(&limits))?;
    }
    Ok(Lattice::new(rows, columns, TOP, &steps)?)
}
