// What the program tells of itself. It is a crate of its own, since a crate is run on one input.
#![tactic(auto)]

use console::run;

fn main(rt: HostRuntime) -> anyhow::Result<()> {
    run(&rt)
}
