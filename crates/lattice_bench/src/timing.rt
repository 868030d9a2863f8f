// A route that is answered several times, and the least time that it took the processor: other work on the machine does not
// count.
use chart::limits::MAX_FIXES;
use chart::{Ends, Lattice};
use least::{FoundRoute, least_regret};
use std::io;
use std::time::{CpuClock, Duration};

const CALLS: u16 = 10;

// No route has more legs.
const MAX_ROUTE: usize = MAX_FIXES - 1;

// The least time of several calls.
fn least_time(rt: &HostRuntime, lattice: &Lattice, ends: Ends) -> io::Result<Duration> {
    let mut least = Duration::MAX;
    for _ in 0..CALLS {
        let mut memory = [0; MAX_ROUTE];
        let begin = rt.process_cpu_time()?;
        let _answer = least_regret(lattice, ends, &mut memory);
        let end = rt.process_cpu_time()?;
        least = least.min(end.saturating_sub(begin));
    }
    Ok(least)
}

// Prints the route, and apart from it how many microseconds the call took.
pub(crate) fn show(
    rt: &HostRuntime,
    name: &str,
    lattice: &Lattice,
    ends: Ends,
) -> anyhow::Result<()> {
    let mut memory = [0; MAX_ROUTE];
    let FoundRoute { legs, regret } = least_regret(lattice, ends, &mut memory)?;
    print!(rt; "{name} regret {regret} legs")?;
    for leg in memory.iter().take(legs as usize) {
        print!(rt; " {leg}")?;
    }
    println!(rt; "")?;
    let tenths = least_time(rt, lattice, ends)?.as_nanos() / 100;
    let whole = tenths / 10;
    let part = tenths % 10;
    eprintln!(rt; "{name} {whole}.{part} us")?;
    Ok(())
}
