// Draws the chart of four fixes, as it is and with a leg closed, and a lattice, each with its route. What is drawn is compared with a
// stored output, in which one picture follows the other.
#![tactic(auto)]

use chart::{Chart, Ends, Interval, Lattice, Standing, Step, Table, most_legs};
use least::least_regret;
use picture::{Drawing, svg_of};
use worked_examples::four_fix_rows;

const NAMES: [&str; 4] = ["TEFFA", "ESCR", "RIDGE", "SCP"];

const LATTICE_ROWS: u16 = 3;

const LATTICE_COLUMNS: u16 = 5;

// Prints the picture of a chart with its route of least regret, if it has one.
fn show<C: Chart>(rt: &HostRuntime, chart: &C, ends: Ends, names: &[String]) -> anyhow::Result<()> {
    let alloc = rt.alloc();
    let mut memory = vec![in alloc; 0u16; most_legs(chart) as usize]?;
    let legs = least_regret(chart, ends, memory.as_mut_slice()).map_or(0, |found| found.legs);
    let drawing = Drawing {
        ends,
        route: memory.as_slice().get(..legs as usize).unwrap_or(&[]),
        names,
    };
    let svg = svg_of(alloc, chart, &drawing)?;
    print!(rt; "{svg}")?;
    Ok(())
}

// The chart of four fixes, as it is and with its leg 4 closed.
fn show_four_fixes(rt: &HostRuntime) -> anyhow::Result<()> {
    let alloc = rt.alloc();
    let mut names = Vec::new(alloc);
    for name in NAMES {
        names.push(String::from_str(alloc, name)?)?;
    }
    let ends = Ends { from: 0, to: 3 };
    let mut rows = four_fix_rows();
    let table = Table::of(4, &rows)?;
    show(rt, &table, ends, names.as_slice())?;
    rows[4].standing = Standing::Closed;
    let table = Table::of(4, &rows)?;
    show(rt, &table, ends, names.as_slice())
}

// A step of a lattice: a turn takes a minute more, and every next step a little longer.
fn step(number: u16) -> Step {
    let low = 2400 + 40 * number as u32;
    let straight = Interval {
        low,
        high: low + 240,
    };
    let aside = Interval {
        low: low + 60,
        high: low + 360,
    };
    Step {
        turns: [aside, straight, aside],
    }
}

// A lattice, from the middle of its first column to the middle of its last.
fn show_lattice(rt: &HostRuntime) -> anyhow::Result<()> {
    let steps = [step(0), step(1), step(2), step(3)];
    let lattice = Lattice::new(LATTICE_ROWS, LATTICE_COLUMNS, 390, &steps)?;
    let ends = Ends { from: 1, to: 13 };
    show(rt, &lattice, ends, &[])
}

fn main(rt: HostRuntime) -> anyhow::Result<()> {
    show_four_fixes(&rt)?;
    show_lattice(&rt)
}
