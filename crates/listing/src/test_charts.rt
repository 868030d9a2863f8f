// What the charts of the tests are made of: numbers that are drawn, and the legs of a grid, written out one by one.
use chart::{Interval, Row, Standing};
use std::alloc::{AllocError, Global};

/// The last number that was drawn. The numbers are without pattern, and the same in every run.
#[derive(Clone, Copy)]
pub struct DrawnNumbers {
    state: u64,
}

impl DrawnNumbers {
    /// Numbers that begin with this one.
    pub fn new(state: u64) -> DrawnNumbers {
        DrawnNumbers { state }
    }

    /// A number below `n`; zero where `n` is zero.
    pub fn below(&mut self, n: u32) -> u32 {
        self.state = self
            .state
            .wrapping_mul(6_364_136_223_846_793_005)
            .wrapping_add(1_442_695_040_888_963_407);
        let high = u32::try_from(self.state >> 33).unwrap_or(0);
        high.checked_rem(n).unwrap_or(0)
    }

    /// The same for a number of 16 bits.
    pub fn small(&mut self, n: u16) -> u16 {
        u16::try_from(self.below(u32::from(n))).unwrap_or(0)
    }
}

/// The intervals of a step in seconds, one for each turn.
pub type Turns = [Interval; 3];

// The row that a turn leads to: one less, the same, or one more.
fn turned(rows: u16, row: u16, turn: usize) -> Option<u16> {
    let to = match turn {
        0 => row.checked_sub(1)?,
        1 => row,
        _ => row.checked_add(1)?,
    };
    if to < rows { Some(to) } else { None }
}

/// The legs of a grid with one top level, from step to step, in each from row to row, and in each from turn to turn; a turn off
/// the grid has none. An error is want of memory.
pub fn grid_rows(
    alloc: Global,
    rows: u16,
    top: u16,
    steps: &[Turns],
) -> Result<Vec<Row>, AllocError> {
    let mut legs = Vec::new(alloc);
    let mut first = 0u16;
    for turns in steps {
        let next = first.saturating_add(rows);
        for row in 0..rows {
            for (turn, times) in turns.iter().enumerate() {
                if let Some(to) = turned(rows, row, turn) {
                    legs.push(Row {
                        from: first.saturating_add(row),
                        to: next.saturating_add(to),
                        low: times.low,
                        high: times.high,
                        top,
                        standing: Standing::Open,
                    })?;
                }
            }
        }
        first = next;
    }
    Ok(legs)
}
