// Small charts, each with something that a search can get wrong.
use super::compare::compare;
use anyhow::Context;
use chart::{Ends, Row, Standing, Table};
use std::alloc::{AllocError, Global};

// An open leg of a case: from, to, low, high.
type PlainLeg = (u16, u16, u32, u32);

// A chart of `fixes` fixes with some of its legs closed, and the two fixes that routes are listed between.
#[derive(Clone, Copy)]
struct Case {
    name: &'static str,
    fixes: u16,
    ends: Ends,
    legs: &'static [PlainLeg],
    closed: &'static [usize],
}

const FOUR_FIXES: [PlainLeg; 5] = [
    (0, 1, 300, 400),
    (1, 3, 300, 500),
    (0, 2, 200, 600),
    (2, 3, 250, 450),
    (1, 2, 50, 100),
];

const TWO_FIXES: [PlainLeg; 1] = [(0, 1, 10, 20)];

const PARALLEL: [PlainLeg; 4] = [(0, 1, 10, 90), (0, 1, 40, 50), (1, 2, 5, 5), (1, 2, 0, 10)];

const ALL_ZERO: [PlainLeg; 4] = [(0, 1, 0, 0), (1, 2, 0, 0), (0, 2, 0, 0), (2, 1, 0, 0)];

const TIES: [PlainLeg; 6] = [
    (0, 2, 10, 30),
    (0, 1, 10, 30),
    (1, 3, 10, 30),
    (2, 3, 10, 30),
    (1, 3, 10, 30),
    (0, 3, 20, 60),
];

const BACK_AND_FORTH: [PlainLeg; 7] = [
    (1, 0, 5, 9),
    (3, 1, 5, 9),
    (0, 1, 10, 80),
    (1, 3, 20, 40),
    (3, 2, 1, 1),
    (0, 2, 30, 50),
    (2, 3, 30, 35),
];

const DEAD_ENDS: [PlainLeg; 6] = [
    (0, 1, 1, 2),
    (1, 2, 1, 2),
    (0, 3, 50, 90),
    (3, 4, 10, 60),
    (0, 4, 70, 120),
    (2, 1, 1, 1),
];

const UNREACHABLE: [PlainLeg; 3] = [(0, 1, 1, 2), (2, 3, 1, 2), (1, 0, 1, 2)];

const DENSE: [PlainLeg; 10] = [
    (0, 1, 10, 60),
    (0, 2, 20, 40),
    (1, 2, 5, 30),
    (2, 1, 5, 10),
    (1, 3, 30, 70),
    (2, 3, 25, 90),
    (1, 4, 60, 100),
    (2, 4, 70, 80),
    (3, 4, 10, 40),
    (0, 4, 100, 130),
];

// A later, longer list of less regret after an earlier one.
const LATER_IS_BETTER: [PlainLeg; 6] = [
    (0, 3, 0, 100),
    (0, 1, 10, 12),
    (1, 2, 10, 12),
    (2, 3, 10, 12),
    (0, 2, 5, 70),
    (1, 3, 5, 70),
];

// Fixes that a route comes to only after its destination, and from which none comes back; fix 4 is also passed on the way by a
// leg without time.
const PAST: [PlainLeg; 9] = [
    (0, 1, 10, 30),
    (0, 2, 10, 30),
    (1, 3, 10, 30),
    (2, 3, 20, 20),
    (2, 4, 0, 0),
    (3, 4, 0, 1),
    (4, 5, 0, 1),
    (1, 5, 0, 0),
    (1, 2, 0, 0),
];

// Layers of one, three, two and one fix, with legs that skip a layer.
const ONE_HEIGHT: [PlainLeg; 12] = [
    (0, 1, 1, 2),
    (0, 2, 1, 2),
    (0, 3, 0, 2),
    (1, 4, 0, 2),
    (2, 4, 1, 1),
    (2, 5, 0, 1),
    (3, 5, 1, 2),
    (4, 6, 0, 2),
    (5, 6, 1, 1),
    (0, 4, 2, 3),
    (1, 6, 1, 3),
    (0, 6, 3, 3),
];

// Legs from the middle into the departure, and out of the destination into the middle.
const BACK_IN_LAYERS: [PlainLeg; 11] = [
    (1, 0, 0, 0),
    (0, 1, 1, 2),
    (0, 2, 0, 3),
    (3, 0, 0, 0),
    (1, 3, 0, 2),
    (2, 3, 1, 1),
    (1, 4, 1, 4),
    (3, 4, 0, 1),
    (4, 2, 0, 0),
    (4, 1, 0, 0),
    (2, 4, 2, 3),
];

// No order: three fixes that lead round, on the way.
const ROUND: [PlainLeg; 9] = [
    (0, 1, 1, 2),
    (1, 2, 0, 1),
    (2, 3, 0, 1),
    (3, 1, 0, 1),
    (0, 3, 1, 3),
    (1, 4, 2, 4),
    (2, 4, 1, 4),
    (3, 4, 0, 4),
    (0, 2, 2, 2),
];

// A first leg without time, and a long way from there to a dead end.
const LONG_DEAD_END: [PlainLeg; 9] = [
    (0, 1, 0, 0),
    (1, 2, 0, 0),
    (2, 3, 0, 0),
    (3, 4, 0, 0),
    (0, 5, 1, 2),
    (5, 6, 1, 2),
    (0, 6, 2, 4),
    (1, 5, 2, 2),
    (5, 4, 0, 0),
];

static CASES: [Case; 22] = [
    Case {
        name: "four fixes",
        fixes: 4,
        ends: Ends { from: 0, to: 3 },
        legs: &FOUR_FIXES,
        closed: &[],
    },
    Case {
        name: "one leg closed",
        fixes: 4,
        ends: Ends { from: 0, to: 3 },
        legs: &FOUR_FIXES,
        closed: &[4],
    },
    Case {
        name: "two legs closed",
        fixes: 4,
        ends: Ends { from: 0, to: 3 },
        legs: &FOUR_FIXES,
        closed: &[1, 3],
    },
    Case {
        name: "two fixes",
        fixes: 2,
        ends: Ends { from: 0, to: 1 },
        legs: &TWO_FIXES,
        closed: &[],
    },
    Case {
        name: "two fixes, back",
        fixes: 2,
        ends: Ends { from: 1, to: 0 },
        legs: &TWO_FIXES,
        closed: &[],
    },
    Case {
        name: "parallel legs",
        fixes: 3,
        ends: Ends { from: 0, to: 2 },
        legs: &PARALLEL,
        closed: &[],
    },
    Case {
        name: "zero times",
        fixes: 3,
        ends: Ends { from: 0, to: 2 },
        legs: &ALL_ZERO,
        closed: &[],
    },
    Case {
        name: "ties",
        fixes: 4,
        ends: Ends { from: 0, to: 3 },
        legs: &TIES,
        closed: &[],
    },
    Case {
        name: "into the departure, out of the destination",
        fixes: 4,
        ends: Ends { from: 0, to: 3 },
        legs: &BACK_AND_FORTH,
        closed: &[],
    },
    Case {
        name: "dead ends",
        fixes: 5,
        ends: Ends { from: 0, to: 4 },
        legs: &DEAD_ENDS,
        closed: &[],
    },
    Case {
        name: "unreachable",
        fixes: 4,
        ends: Ends { from: 0, to: 3 },
        legs: &UNREACHABLE,
        closed: &[],
    },
    Case {
        name: "dense",
        fixes: 5,
        ends: Ends { from: 0, to: 4 },
        legs: &DENSE,
        closed: &[],
    },
    Case {
        name: "dense, other ends",
        fixes: 5,
        ends: Ends { from: 1, to: 3 },
        legs: &DENSE,
        closed: &[],
    },
    Case {
        name: "the later list is better",
        fixes: 4,
        ends: Ends { from: 0, to: 3 },
        legs: &LATER_IS_BETTER,
        closed: &[],
    },
    Case {
        name: "fixes past the destination",
        fixes: 6,
        ends: Ends { from: 0, to: 3 },
        legs: &PAST,
        closed: &[],
    },
    Case {
        name: "fixes past the destination, from the second fix",
        fixes: 6,
        ends: Ends { from: 1, to: 4 },
        legs: &PAST,
        closed: &[],
    },
    Case {
        name: "fixes of one height",
        fixes: 7,
        ends: Ends { from: 0, to: 6 },
        legs: &ONE_HEIGHT,
        closed: &[],
    },
    Case {
        name: "fixes of one height, some legs closed",
        fixes: 7,
        ends: Ends { from: 0, to: 6 },
        legs: &ONE_HEIGHT,
        closed: &[5, 9, 11],
    },
    Case {
        name: "fixes of one height, other ends",
        fixes: 7,
        ends: Ends { from: 0, to: 4 },
        legs: &ONE_HEIGHT,
        closed: &[],
    },
    Case {
        name: "legs back to the ends",
        fixes: 5,
        ends: Ends { from: 0, to: 4 },
        legs: &BACK_IN_LAYERS,
        closed: &[],
    },
    Case {
        name: "legs that lead round",
        fixes: 5,
        ends: Ends { from: 0, to: 4 },
        legs: &ROUND,
        closed: &[],
    },
    Case {
        name: "a long dead end",
        fixes: 7,
        ends: Ends { from: 0, to: 6 },
        legs: &LONG_DEAD_END,
        closed: &[],
    },
];

impl Case {
    // The row of the leg `k`.
    fn row(&self, k: usize, leg: &PlainLeg) -> Row {
        let (from, to, low, high) = *leg;
        Row {
            from,
            to,
            low,
            high,
            top: 300,
            standing: if self.closed.contains(&k) {
                Standing::Closed
            } else {
                Standing::Open
            },
        }
    }

    // The rows of its legs.
    fn rows(&self, alloc: Global) -> Result<Vec<Row>, AllocError> {
        self.legs
            .iter()
            .enumerate()
            .map(|(k, leg)| self.row(k, leg))
            .collect(alloc)
    }

    fn show(&self, rt: &HostRuntime) -> anyhow::Result<()> {
        let name = self.name;
        let rows = self.rows(rt.alloc())?;
        let table = Table::of(self.fixes, &rows).context(name)?;
        let (listing, bounded) = compare(rt.alloc(), &table, self.ends, &rows).context(name)?;
        let all = listing.chains().len();
        let routes = listing.routes().len();
        println!(rt; "{name}: {all} chains, {routes} routes, as listed; {bounded} bounded")?;
        Ok(())
    }
}

/// Compares the calls on each of the charts with its listing.
pub fn show_cases(rt: &HostRuntime) -> anyhow::Result<()> {
    for case in &CASES {
        case.show(rt)?;
    }
    Ok(())
}
