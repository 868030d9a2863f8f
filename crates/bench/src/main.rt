// Times the best total over a lattice of 10 rows and 20 columns, and over a table of 200 fixes and 1,000 legs. Sums of the
// answers go to standard output, times to standard error.
#![tactic(auto)]

use chart::{Chart, Ends, Interval, Lattice, Quickest, Row, Standing, Step, Table};
use search::best;
use std::io;
use std::time::Instant;

const CALLS: u16 = 2000;

// Numbers without pattern, the same on every run.
#[derive(Drop)]
struct RandomNumbers {
    last: u32,
}

impl RandomNumbers {
    // The next number, of 16 bits.
    fn draw(&mut self) -> u32 {
        self.last = self
            .last
            .wrapping_mul(1_664_525)
            .wrapping_add(1_013_904_223);
        self.last / 65_536
    }

    fn interval(&mut self) -> Interval {
        Interval {
            low: 0,
            high: 1000 + self.draw() % 65_536,
        }
    }
}

fn fill_steps(steps: &mut [Step]) {
    let mut numbers = RandomNumbers { last: 7 };
    for step in steps.iter_mut() {
        let row_before = numbers.interval();
        let same_row = numbers.interval();
        let row_after = numbers.interval();
        *step = Step {
            turns: [row_before, same_row, row_after],
        };
    }
}

fn fill_rows(rows: &mut [Row]) {
    let mut numbers = RandomNumbers { last: 11 };
    for row in rows.iter_mut() {
        let from = numbers.draw() % 200;
        let to = (from + 1 + numbers.draw() % 199) % 200;
        *row = Row {
            from: from as u16,
            to: to as u16,
            low: 0,
            high: 1000 + numbers.draw() % 65_536,
            top: 390,
            standing: Standing::Open,
        };
    }
}

// The sum of the seconds and legs of many answers.
fn sum_of_bests<C: Chart>(chart: &C) -> u64 {
    (0..CALLS)
        .filter_map(|i| best(
            chart,
            &Quickest,
            Ends {
                from: i % 10,
                to: 199,
            },
        ))
        .fold(0u64, |sum, total| {
            sum.saturating_add(u64::from(total.seconds) + u64::from(total.legs))
        })
}

fn time<C: Chart>(rt: &HostRuntime, name: &str, chart: &C) -> io::Result<()> {
    let begin = Instant::now(rt)?;
    let sum = sum_of_bests(chart);
    let tenths = begin.elapsed(rt)?.as_micros() / (CALLS as u128 / 10);
    println!(rt; "{name} sum {sum}")?;
    let whole = tenths / 10;
    let part = tenths % 10;
    eprintln!(rt; "{name} {whole}.{part} us a call")
}

fn main(rt: HostRuntime) -> io::Result<()> {
    let still = Interval { low: 0, high: 0 };
    let mut steps = [Step {
        turns: [still, still, still],
    }; 19];
    fill_steps(&mut steps);
    if let Ok(lattice) = Lattice::new(10, 20, 390, &steps) {
        time(&rt, "lattice", &lattice)?;
    }
    let mut rows = [Row {
        from: 0,
        to: 1,
        low: 0,
        high: 0,
        top: 0,
        standing: Standing::Open,
    }; 1000];
    fill_rows(&mut rows);
    if let Ok(table) = Table::of(200, &rows) {
        time(&rt, "table", &table)?;
    }
    Ok(())
}
