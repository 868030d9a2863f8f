// A chart of four fixes whose answers were worked out by hand, and the ends of a draft on it.
use super::history::show_history;
use super::random::Random;
use super::small_charts::{FOUR_FIXES, all_lists, rows_of};
use super::tracked_plan::{Attempt, TrackedPlan};
use anyhow::ensure;
use chart::{Ends, Interval, Refusal, Table};
use plan::{Change, Draft};
use reference::Batch;

// So many places are given to route calls: of three that are needed, and of more.
const PLACES: [usize; 7] = [0, 1, 2, 3, 4, 8, 300];

// The lists whose regret and floor are printed.
const LISTS: [&[u16]; 7] = [&[], &[0], &[2], &[0, 1], &[0, 4, 3], &[2, 3], &[4]];

fn times(low: u32, high: u32) -> Change {
    Change::Times(Interval { low, high })
}

// Amendments of which two are granted.
fn first() -> [Attempt; 4] {
    [
        Attempt::now(4, Change::Close),
        Attempt::now(0, times(500, 400)),
        Attempt::now(0, times(300, 400)),
        Attempt::stale(4, Change::Restore),
    ]
}

// Amendments that two grounds or more are against, of which the first counts; and two that are granted, after which no route is left.
fn second() -> [Attempt; 7] {
    [
        Attempt::stale(5, times(500, 400)),
        Attempt::now(u16::MAX, Change::Restore),
        Attempt::stale(2, times(0, 100_001)),
        Attempt::stale(2, Change::Restore),
        Attempt::now(2, Change::Restore),
        Attempt::now(1, Change::Close),
        Attempt::now(3, Change::Close),
    ]
}

/// What the listing answers is printed, and the plan answers it.
pub fn show_four_fixes(rt: &HostRuntime) -> anyhow::Result<()> {
    let alloc = rt.alloc();
    let rows = rows_of(alloc, &FOUR_FIXES)?;
    let mut tracked = TrackedPlan::file(alloc, Table::of(4, &rows)?, 4, None, &rows)?;
    let lists = all_lists(alloc, &rows, tracked.ledger.ends())?;
    let mut batch = Batch::new(alloc);
    batch.ask(&tracked.ledger, &lists)?;
    let routes = tracked.route_on_places(alloc, &mut batch, &PLACES)?;
    println!(rt; "four fixes, {PLACES:?} places: routes {routes:?}")?;
    tracked.show_expected(rt, &LISTS)?;
    for given in [&first()[..], &second()] {
        let expected = tracked.attempt_all(alloc, &mut batch, given, &lists)?;
        let routes = tracked.route_on_places(alloc, &mut batch, &PLACES)?;
        println!(rt; "  amendments {expected:?}, routes {routes:?}")?;
        tracked.show_expected(rt, &LISTS)?;
    }
    ensure!(tracked.is_as_expected(&batch)?, "differs: four fixes");
    println!(rt; "  all as listed")?;
    Ok(())
}

/// Ends that are refused leave those that were set before, and ends that are taken are the plan's.
pub fn show_ends(rt: &HostRuntime) -> anyhow::Result<()> {
    let alloc = rt.alloc();
    let rows = rows_of(alloc, &FOUR_FIXES)?;
    let table = Table::of(4, &rows)?;
    let mut draft = Draft::new(table);
    let mut answers = Vec::new(alloc);
    for (from, to) in [(0, 4), (4, 0), (9, 9), (2, 2), (1, 2), (1, 4), (3, 3)] {
        answers.push(draft.ends(from, to).map_err(|refusal| refusal.number()))?;
    }
    let (closed, _) = draft.file().close();
    let kept = closed.status().ends;
    ensure!(kept == Ends { from: 1, to: 2 }, "differs: ends");
    println!(rt; "ends {answers:?}, from 1 to 2 kept")?;
    let backward = Some(Ends { from: 3, to: 0 });
    show_history(
        rt,
        "four fixes, 3 to 0",
        table,
        4,
        backward,
        &rows,
        &mut Random::new(5),
    )
}
