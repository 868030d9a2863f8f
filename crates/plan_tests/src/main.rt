// Runs of calls on plans, each reply and each place of memory compared with a ledger that is kept apart, and with a separate listing
// of all lists of legs and all choices of times.
#![tactic(auto)]

mod four_fixes;
mod history;
mod limits;
mod random;
mod small_charts;
mod tracked_plan;

use four_fixes::{show_ends, show_four_fixes};
use history::{show_drawn, show_lattices, show_plans_on_plans, show_tables};
use limits::{show_last_revision, show_most_amended};

fn main(rt: HostRuntime) -> anyhow::Result<()> {
    show_four_fixes(&rt)?;
    show_most_amended(&rt)?;
    show_last_revision(&rt)?;
    show_ends(&rt)?;
    show_plans_on_plans(&rt)?;
    show_tables(&rt)?;
    show_lattices(&rt)?;
    show_drawn(&rt)
}
