// Compares regrets, floors and routes of least regret with a separate listing of all routes, on small charts.
#![tactic(auto)]

mod bounds;
mod cases;
mod compare;
mod drawn;
mod lattices;

use cases::show_cases;
use drawn::show_drawn;
use lattices::show_lattices;

fn main(rt: HostRuntime) -> anyhow::Result<()> {
    show_cases(&rt)?;
    show_drawn(&rt)?;
    show_lattices(&rt)
}
