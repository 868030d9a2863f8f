// As many legs as can be stand amended, and as many amendments as can be are granted.
use super::small_charts::{FOUR_FIXES, all_lists, rows_of};
use super::tracked_plan::{Attempt, TrackedPlan};
use anyhow::ensure;
use chart::{Interval, Row, Standing, Table};
use plan::Change;
use reference::Batch;
use std::alloc::{AllocError, Global};

// How many legs the chart has, alternately from fix 0 to fix 1 and from there to fix 2.
const LEGS: u16 = 70;

// How many of them are amended at first. Each of these has one time, so that the listing stays short.
const AMENDED: u16 = 64;

fn own_row(k: u16) -> Row {
    let low = u32::from(k) + 100;
    Row {
        from: k % 2,
        to: k % 2 + 1,
        low,
        high: if k < AMENDED { low } else { low + 80 },
        top: 300,
        standing: Standing::Open,
    }
}

fn own_rows(alloc: Global) -> Result<Vec<Row>, AllocError> {
    (0..LEGS).map(|k| own_row(k)).collect(alloc)
}

fn one_time(seconds: u32) -> Change {
    Change::Times(Interval {
        low: seconds,
        high: seconds,
    })
}

fn bad_times() -> Change {
    Change::Times(Interval { low: 9, high: 8 })
}

// Most are closed, and some are given another time.
fn first_change(k: u16) -> Change {
    match k % 8 {
        3 | 6 => one_time(u32::from(k) + 120),
        _ => Change::Close,
    }
}

// Changes of a further leg, for this revision and for the one before.
fn further() -> [Attempt; 6] {
    [
        Attempt::now(64, Change::Close),
        Attempt::now(69, one_time(50)),
        Attempt::now(64, Change::Restore),
        Attempt::stale(64, Change::Close),
        Attempt::stale(64, bad_times()),
        Attempt::stale(70, bad_times()),
    ]
}

// Changes of legs that stand amended.
fn again() -> [Attempt; 4] {
    [
        Attempt::now(0, Change::Close),
        Attempt::now(63, Change::Close),
        Attempt::now(1, one_time(90)),
        Attempt::now(1, bad_times()),
    ]
}

// A leg is restored, another takes its place, and so back.
fn freed() -> [Attempt; 8] {
    [
        Attempt::now(5, Change::Restore),
        Attempt::now(64, Change::Close),
        Attempt::now(5, Change::Close),
        Attempt::now(64, one_time(40)),
        Attempt::now(5, Change::Restore),
        Attempt::now(64, Change::Restore),
        Attempt::now(5, one_time(30)),
        Attempt::now(65, Change::Close),
    ]
}

// The first amendments, of which each is to be granted.
fn first_amended(alloc: Global) -> Result<Vec<Attempt>, AllocError> {
    (0..AMENDED)
        .map(|k| Attempt::now(k, first_change(k)))
        .collect(alloc)
}

/// With 64 legs amended, a further one is refused until one of them is restored.
pub fn show_most_amended(rt: &HostRuntime) -> anyhow::Result<()> {
    let alloc = rt.alloc();
    let rows = own_rows(alloc)?;
    let lists = [
        vec![in alloc; 64, 65]?,
        vec![in alloc; 0, 65]?,
        vec![in alloc; 64]?,
    ];
    let mut tracked = TrackedPlan::file(alloc, Table::of(3, &rows)?, 3, None, &rows)?;
    let mut batch = Batch::new(alloc);
    tracked.grant_all(&mut batch, &first_amended(alloc)?)?;
    let further = tracked.attempt_all(alloc, &mut batch, &further(), &lists)?;
    let again = tracked.attempt_all(alloc, &mut batch, &again(), &lists)?;
    let freed = tracked.attempt_all(alloc, &mut batch, &freed(), &lists)?;
    ensure!(tracked.is_as_expected(&batch)?, "differs: 64 legs amended");
    let (_, is_as_expected) = tracked.close();
    ensure!(
        is_as_expected,
        "differs: 64 legs amended, when it is closed"
    );
    println!(rt; "64 of {LEGS} legs amended, a further one {further:?}")?;
    println!(rt; "  one of them again {again:?}")?;
    println!(rt; "  one freed {freed:?}: as listed")?;
    Ok(())
}

// How many amendments are made in one run, and how many runs there are: 999 amendments in all.
const AMENDMENTS: u16 = 111;

const RUNS: u16 = 9;

// Four legs are given times, then closed, then restored, and so on.
fn granted(i: u16) -> Attempt {
    let low = u32::from(i);
    let change = match i / 4 % 3 {
        0 => Change::Times(Interval {
            low,
            high: low + 100,
        }),
        1 => Change::Close,
        _ => Change::Restore,
    };
    Attempt::now(i % 4, change)
}

// Amendments of a plan that stands at the last revision.
fn after_the_last() -> [Attempt; 9] {
    let bad = bad_times();
    [
        Attempt::now(5, Change::Close),
        Attempt::stale(5, bad),
        Attempt::now(0, bad),
        Attempt::stale(4, bad),
        Attempt::now(0, Change::Close),
        Attempt::stale(0, Change::Close),
        Attempt::now(4, Change::Restore),
        Attempt::stale(4, Change::Restore),
        Attempt::now(0, Change::Restore),
    ]
}

// The amendments of a run.
fn granted_in(alloc: Global, run: u16) -> Result<Vec<Attempt>, AllocError> {
    let first = run.saturating_mul(AMENDMENTS);
    (0..AMENDMENTS)
        .map(|i| granted(first.saturating_add(i)))
        .collect(alloc)
}

/// With 999 amendments granted, none is granted any more, and the plan answers as before.
pub fn show_last_revision(rt: &HostRuntime) -> anyhow::Result<()> {
    let alloc = rt.alloc();
    let rows = rows_of(alloc, &FOUR_FIXES)?;
    let mut tracked = TrackedPlan::file(alloc, Table::of(4, &rows)?, 4, None, &rows)?;
    let lists = all_lists(alloc, &rows, tracked.ledger.ends())?;
    for run in 0..RUNS {
        let mut batch = Batch::new(alloc);
        tracked.grant_all(&mut batch, &granted_in(alloc, run)?)?;
        batch.ask(&tracked.ledger, &lists)?;
        ensure!(
            tracked.is_as_expected(&batch)?,
            "differs: revisions, run {run}"
        );
    }
    let revision = tracked.ledger.revision();
    let mut batch = Batch::new(alloc);
    let expected = tracked.attempt_all(alloc, &mut batch, &after_the_last(), &lists)?;
    ensure!(
        tracked.is_as_expected(&batch)?,
        "differs: the last revision"
    );
    let (_, is_as_expected) = tracked.close();
    ensure!(
        is_as_expected,
        "differs: the last revision, when it is closed"
    );
    println!(rt; "revision {revision}, then {expected:?}: as listed")?;
    Ok(())
}
