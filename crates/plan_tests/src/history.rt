// Histories of plans: on tables, on lattices and on other plans.
use super::random::Random;
use super::small_charts::{DENSE, FOUR_FIXES, PARALLEL, SIX_FIXES, all_lists, drawn_rows, rows_of};
use super::tracked_plan::{Tally, TrackedPlan};
use anyhow::{Context, ensure};
use chart::{Chart, Ends, Lattice, Row, Step, Table};
use listing::{Turns, grid_rows};
use std::alloc::Global;

// How many runs a history has.
const RUNS: usize = 20;

// Files a plan on a chart of so many fixes and of these legs, amends and asks it in runs, and closes it.
fn run_history<C: Chart + Drop>(
    alloc: Global,
    chart: C,
    fixes: u16,
    ends: Option<Ends>,
    own: &[Row],
    random: &mut Random,
    tally: &mut Tally,
) -> anyhow::Result<()> {
    let mut tracked = TrackedPlan::file(alloc, chart, fixes, ends, own)?;
    let lists = all_lists(alloc, own, tracked.ledger.ends())?;
    for run in 0..RUNS {
        let is_as_expected = tracked.advance(alloc, random, &lists, tally)?;
        ensure!(is_as_expected, "differs: run {run} on {own:?}");
    }
    let (_, is_as_expected) = tracked.close();
    ensure!(is_as_expected, "differs: closing, on {own:?}");
    Ok(())
}

/// One history, with its name.
pub fn show_history<C: Chart + Drop>(
    rt: &HostRuntime,
    name: &str,
    chart: C,
    fixes: u16,
    ends: Option<Ends>,
    own: &[Row],
    random: &mut Random,
) -> anyhow::Result<()> {
    let mut tally = Tally::new(rt.alloc());
    run_history(rt.alloc(), chart, fixes, ends, own, random, &mut tally).context(format_args!(
        "{name}"
    ))?;
    println!(rt; "{name}: {tally}: as listed")?;
    Ok(())
}

// How many charts are drawn.
const DRAWN: u64 = 30;

// A history on the table of these rows.
fn show_table(
    rt: &HostRuntime,
    name: &str,
    fixes: u16,
    ends: Option<Ends>,
    rows: &[Row],
    random: &mut Random,
) -> anyhow::Result<()> {
    show_history(rt, name, Table::of(fixes, rows)?, fixes, ends, rows, random)
}

/// Histories on charts that are given.
pub fn show_tables(rt: &HostRuntime) -> anyhow::Result<()> {
    let alloc = rt.alloc();
    let random = &mut Random::new(1);
    let four = rows_of(alloc, &FOUR_FIXES)?;
    let parallel = rows_of(alloc, &PARALLEL)?;
    let dense = rows_of(alloc, &DENSE)?;
    let six = rows_of(alloc, &SIX_FIXES)?;
    let across = Some(Ends { from: 1, to: 3 });
    let back = Some(Ends { from: 2, to: 1 });
    show_table(rt, "two fixes, no legs", 2, None, &[], random)?;
    show_table(rt, "four fixes", 4, None, &four, random)?;
    show_table(rt, "four fixes, 1 to 3", 4, across, &four, random)?;
    show_table(rt, "parallel legs", 4, None, &parallel, random)?;
    show_table(rt, "dense", 5, None, &dense, random)?;
    show_table(rt, "dense, 2 to 1", 5, back, &dense, random)?;
    show_table(rt, "six fixes", 6, None, &six, random)
}

/// Histories on charts that are drawn, of 4 to 6 fixes and 7 to 9 legs.
pub fn show_drawn(rt: &HostRuntime) -> anyhow::Result<()> {
    let alloc = rt.alloc();
    let mut tally = Tally::new(alloc);
    for number in 0..DRAWN {
        let random = &mut Random::new(number);
        let fixes = random.small(3).saturating_add(4);
        let legs = random.small(3).saturating_add(7);
        let rows = drawn_rows(alloc, random, fixes, legs)?;
        let table = Table::of(fixes, &rows)?;
        run_history(alloc, table, fixes, None, &rows, random, &mut tally).context(format_args!(
            "drawn {number}"
        ))?;
    }
    println!(rt; "{DRAWN} drawn charts: {tally}: as listed")?;
    Ok(())
}

// The top level of every leg of a lattice.
const TOP: u16 = 340;

// The intervals of a step that is drawn.
fn drawn_turns(random: &mut Random) -> Turns {
    [random.times(), random.times(), random.times()]
}

// A history on the lattice of so many rows, with one column more than steps, between the fixes given.
fn show_lattice(
    rt: &HostRuntime,
    rows: u16,
    steps: u16,
    ends: Ends,
    random: &mut Random,
) -> anyhow::Result<()> {
    let alloc = rt.alloc();
    let mut turns = Vec::new(alloc);
    for _ in 0..steps {
        turns.push(drawn_turns(random))?;
    }
    let own = grid_rows(alloc, rows, TOP, &turns)?;
    let all: Vec<Step> = turns
        .iter()
        .map(|turns| Step { turns: *turns })
        .collect(alloc)?;
    let columns = steps.saturating_add(1);
    let fixes = rows.saturating_mul(columns);
    let (from, to) = (ends.from, ends.to);
    let name = format!(in alloc; "lattice of {rows} rows and {columns} columns, {from} to {to}")?;
    let lattice = Lattice::new(rows, columns, TOP, &all)?;
    show_history(rt, name.as_str(), lattice, fixes, Some(ends), &own, random)
}

/// Histories on lattices.
pub fn show_lattices(rt: &HostRuntime) -> anyhow::Result<()> {
    let random = &mut Random::new(7);
    show_lattice(rt, 2, 2, Ends { from: 0, to: 5 }, random)?;
    show_lattice(rt, 2, 2, Ends { from: 1, to: 4 }, random)?;
    show_lattice(rt, 3, 1, Ends { from: 1, to: 5 }, random)?;
    show_lattice(rt, 1, 5, Ends { from: 0, to: 5 }, random)
}

// How often a plan is filed on the lower one, and closed.
const FILINGS: usize = 8;

// How many fixes the chart of the lower plan has.
const FIXES: u16 = 5;

// The upper plans run between these fixes.
const UPPER_ENDS: Ends = Ends { from: 0, to: 3 };

// Files a plan on the lower one, amends it in two runs, and closes it. It answers the lower plan as it was given.
fn file_above<C: Chart + Drop>(
    alloc: Global,
    lower: TrackedPlan<C>,
    random: &mut Random,
    lists: &[Vec<u16>],
    tally: &mut Tally,
) -> anyhow::Result<TrackedPlan<C>> {
    let TrackedPlan { plan, ledger } = lower;
    let mut upper = TrackedPlan::file(alloc, plan, FIXES, Some(UPPER_ENDS), ledger.legs())?;
    for _ in 0..2 {
        let is_as_expected = upper.advance(alloc, random, lists, tally)?;
        ensure!(is_as_expected, "differs: an upper plan");
    }
    let (plan, is_as_expected) = upper.close();
    ensure!(is_as_expected, "differs: an upper plan, when it is closed");
    Ok(TrackedPlan { plan, ledger })
}

/// A plan on a table is amended; a plan is filed on it, amended and closed; and so on.
pub fn show_plans_on_plans(rt: &HostRuntime) -> anyhow::Result<()> {
    let alloc = rt.alloc();
    let rows = rows_of(alloc, &DENSE)?;
    let random = &mut Random::new(3);
    let lists = all_lists(alloc, &rows, UPPER_ENDS)?;
    let mut below = Tally::new(alloc);
    let mut above = Tally::new(alloc);
    let mut lower = TrackedPlan::file(alloc, Table::of(FIXES, &rows)?, FIXES, None, &rows)?;
    for _ in 0..FILINGS {
        let is_as_expected = lower.advance(alloc, random, &lists, &mut below)?;
        ensure!(is_as_expected, "differs: a lower plan");
        lower = file_above(alloc, lower, random, &lists, &mut above)?;
    }
    let is_as_expected = lower.advance(alloc, random, &lists, &mut below)?;
    ensure!(is_as_expected, "differs: a lower plan, at the end");
    println!(rt; "plan on a table, below others: {below}: as listed")?;
    println!(rt; "plans on that plan: {above}: as listed")?;
    Ok(())
}
