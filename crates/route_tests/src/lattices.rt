// Small lattices, between every two fixes.
use super::compare::Tally;
use super::drawn::Times;
use anyhow::Context;
use chart::{Lattice, Step};
use listing::{DrawnNumbers, Turns, grid_rows};
use std::alloc::Global;

// The top level of every leg.
const TOP: u16 = 390;

// Rows and columns.
const SIZES: [(u16, u16); 10] = [
    (1, 2),
    (1, 5),
    (2, 2),
    (2, 3),
    (3, 2),
    (2, 4),
    (3, 3),
    (5, 2),
    (4, 3),
    (3, 4),
];

// The intervals of each step of a lattice with so many columns.
fn drawn_steps(
    alloc: Global,
    numbers: &mut DrawnNumbers,
    times: Times,
    columns: u16,
) -> anyhow::Result<Vec<Turns>> {
    let mut steps = Vec::new(alloc);
    for _ in 1..columns {
        let row_before = times.draw(numbers);
        let same_row = times.draw(numbers);
        let row_after = times.draw(numbers);
        steps.push([row_before, same_row, row_after])?;
    }
    Ok(steps)
}

// One lattice.
fn compare_lattice(
    alloc: Global,
    rows: u16,
    columns: u16,
    steps: &[Turns],
    tally: &mut Tally,
) -> anyhow::Result<()> {
    let legs = grid_rows(alloc, rows, TOP, steps)?;
    let all: Vec<Step> = steps
        .iter()
        .map(|turns| Step { turns: *turns })
        .collect(alloc)?;
    let lattice = Lattice::new(rows, columns, TOP, &all)?;
    tally.compare_all(alloc, &lattice, &legs)
}

// So many lattices of every size.
fn show_kind(
    rt: &HostRuntime,
    numbers: &mut DrawnNumbers,
    name: &str,
    times: Times,
    draws: u16,
) -> anyhow::Result<()> {
    let alloc = rt.alloc();
    let mut tally = Tally::new();
    for _ in 0..draws {
        for (rows, columns) in SIZES {
            let steps = drawn_steps(alloc, numbers, times, columns)?;
            compare_lattice(alloc, rows, columns, &steps, &mut tally).context(format_args!(
                "{rows} rows and {columns} columns, {name}"
            ))?;
        }
    }
    println!(rt; "lattices, {name}: {tally}, as listed")?;
    Ok(())
}

/// Compares the calls on lattices with times of each kind with their listings.
pub fn show_lattices(rt: &HostRuntime) -> anyhow::Result<()> {
    let numbers = &mut DrawnNumbers::new(2);
    show_kind(rt, numbers, "one interval everywhere", Times::Same, 1)?;
    show_kind(rt, numbers, "ties", Times::Ties, 8)?;
    show_kind(rt, numbers, "near each other", Times::Near, 4)?;
    show_kind(rt, numbers, "wide", Times::Wide, 4)
}
