// The program. All that it does stands in the library `console`.
#![tactic(auto)]

use console::run;

fn main(rt: HostRuntime) -> anyhow::Result<()> {
    run(&rt)
}
