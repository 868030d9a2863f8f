// Has sound and damaged chart files read, by a reader that borrows and by an index that owns the file, and compares what each answers
// with what the case expects.
#![tactic(auto)]

mod cases;
mod chart_file;
mod compare;
mod groups;
mod tables;
mod verdict;

use groups::show;
use tables::show_tables;
use verdict::VERDICTS;

fn main(rt: HostRuntime) -> anyhow::Result<()> {
    let mut count = 0usize;
    for verdict in &VERDICTS {
        count = count.saturating_add(show(&rt, *verdict)?);
    }
    println!(rt; "{count} cases")?;
    show_tables(&rt)
}
