// Times that are drawn, and charts that are drawn in layers, between every two fixes. A leg leads from a layer to a later one,
// but for those that lead back.
use super::compare::Tally;
use anyhow::Context;
use chart::{Ends, Interval, Row, Standing, Table};
use listing::DrawnNumbers;
use std::alloc::{AllocError, Global};
use std::cmp::Ordering;

/// Times of which many are equal, one interval everywhere, times near each other, and times within all limits.
#[derive(Clone, Copy)]
pub enum Times {
    Ties,
    Same,
    Near,
    Wide,
}

// Two drawn times below `n`, the lower first.
fn pair(numbers: &mut DrawnNumbers, n: u32) -> Interval {
    let one = numbers.below(n);
    let other = numbers.below(n);
    Interval {
        low: one.min(other),
        high: one.max(other),
    }
}

impl Times {
    /// Draws an interval.
    pub fn draw(self, numbers: &mut DrawnNumbers) -> Interval {
        match self {
            Times::Ties => pair(numbers, 3),
            Times::Same => Interval { low: 30, high: 40 },
            Times::Near => pair(numbers, 30),
            Times::Wide => pair(numbers, 100_001),
        }
    }
}

// The top level of every leg.
const TOP: u16 = 300;

// Which legs lead back, about one in four: none, those into one fix and out of another, which have no part in the routes between
// these two, or any.
#[derive(Clone, Copy, PartialEq, Eq)]
enum Back {
    None,
    AtEnds,
    Anywhere,
}

// What the charts of a group are like. Of the legs of a group about one in so many is closed; none by 0.
#[derive(Clone, Copy)]
struct Group {
    name: &'static str,
    charts: u16,
    times: Times,
    back: Back,
    closed: u32,
}

const GROUPS: [Group; 8] = [
    Group {
        name: "ties",
        charts: 60,
        times: Times::Ties,
        back: Back::None,
        closed: 0,
    },
    Group {
        name: "one interval everywhere",
        charts: 30,
        times: Times::Same,
        back: Back::None,
        closed: 0,
    },
    Group {
        name: "near each other",
        charts: 40,
        times: Times::Near,
        back: Back::None,
        closed: 0,
    },
    Group {
        name: "wide",
        charts: 40,
        times: Times::Wide,
        back: Back::None,
        closed: 0,
    },
    Group {
        name: "ties, some legs closed",
        charts: 60,
        times: Times::Ties,
        back: Back::None,
        closed: 5,
    },
    Group {
        name: "ties, legs back into one fix and out of another",
        charts: 60,
        times: Times::Ties,
        back: Back::AtEnds,
        closed: 0,
    },
    Group {
        name: "near each other, legs back, some closed",
        charts: 40,
        times: Times::Near,
        back: Back::AtEnds,
        closed: 5,
    },
    Group {
        name: "ties, without an order",
        charts: 40,
        times: Times::Ties,
        back: Back::Anywhere,
        closed: 8,
    },
];

// The fixes that a leg is drawn between, or none where that leg would be drawn within a layer. `layers` has the layer of each fix.
fn drawn_fixes(
    numbers: &mut DrawnNumbers,
    back: Back,
    ends: Ends,
    layers: &[u16],
) -> Option<(u16, u16)> {
    let fixes = u16::try_from(layers.len()).unwrap_or(0);
    let one = numbers.small(fixes);
    let other = numbers.small(fixes);
    let leads_back = numbers.below(4) == 0;
    let leg = match back {
        Back::Anywhere if leads_back => (one, other),
        Back::AtEnds if leads_back && numbers.below(2) == 0 => (one, ends.from),
        Back::AtEnds if leads_back => (ends.to, other),
        _ => match layers.get(one as usize).cmp(&layers.get(other as usize)) {
            Ordering::Less => (one, other),
            Ordering::Equal => return None,
            Ordering::Greater => (other, one),
        },
    };
    if leg.0 == leg.1 { None } else { Some(leg) }
}

impl Group {
    // A leg between two fixes.
    fn row(&self, numbers: &mut DrawnNumbers, from: u16, to: u16) -> Row {
        let times = self.times.draw(numbers);
        Row {
            from,
            to,
            low: times.low,
            high: times.high,
            top: TOP,
            standing: if self.closed > 0 && numbers.below(self.closed) == 0 {
                Standing::Closed
            } else {
                Standing::Open
            },
        }
    }

    // The legs of a chart.
    fn rows(
        &self,
        alloc: Global,
        numbers: &mut DrawnNumbers,
        layers: &[u16],
    ) -> Result<Vec<Row>, AllocError> {
        let fixes = u16::try_from(layers.len()).unwrap_or(0);
        let ends = Ends {
            from: numbers.small(fixes),
            to: numbers.small(fixes),
        };
        let legs = numbers.small(12).saturating_add(8);
        let mut rows = Vec::new(alloc);
        for _ in 0..legs {
            if let Some((from, to)) = drawn_fixes(numbers, self.back, ends, layers) {
                rows.push(self.row(numbers, from, to))?;
            }
        }
        Ok(rows)
    }

    // One chart, of 4 to 8 fixes.
    fn compare(
        &self,
        alloc: Global,
        numbers: &mut DrawnNumbers,
        tally: &mut Tally,
    ) -> anyhow::Result<()> {
        let fixes = numbers.small(5).saturating_add(4);
        let mut layers = Vec::new(alloc);
        for _ in 0..fixes {
            layers.push(numbers.small(fixes.saturating_sub(1)))?;
        }
        let rows = self.rows(alloc, numbers, &layers)?;
        let table = Table::of(fixes, &rows)?;
        tally.compare_all(alloc, &table, &rows)
    }

    fn show(&self, rt: &HostRuntime, numbers: &mut DrawnNumbers) -> anyhow::Result<()> {
        let name = self.name;
        let mut tally = Tally::new();
        for _ in 0..self.charts {
            self.compare(rt.alloc(), numbers, &mut tally).context(name)?;
        }
        println!(rt; "layers, {name}: {tally}, as listed")?;
        Ok(())
    }
}

/// Compares the calls on the charts of each group with their listings.
pub fn show_drawn(rt: &HostRuntime) -> anyhow::Result<()> {
    let numbers = &mut DrawnNumbers::new(1);
    for group in GROUPS {
        group.show(rt, numbers)?;
    }
    Ok(())
}
