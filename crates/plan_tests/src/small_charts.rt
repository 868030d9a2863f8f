// Small charts of open legs, and the lists of legs that are asked of.
use super::random::Random;
use chart::{Ends, Row, Standing};
use listing::all_chains;
use std::alloc::{AllocError, Global};

// A leg: from, to, low, high, top.
type PlainLeg = (u16, u16, u32, u32, u16);

/// Four fixes: three routes lead from the first to the last.
pub const FOUR_FIXES: [PlainLeg; 5] = [
    (0, 1, 300, 400, 390),
    (1, 3, 300, 500, 350),
    (0, 2, 200, 600, 410),
    (2, 3, 250, 450, 370),
    (1, 2, 50, 100, 330),
];

/// Four fixes: two legs side by side lead from each to the next, and two more past a fix.
pub const PARALLEL: [PlainLeg; 8] = [
    (0, 1, 10, 30, 300),
    (0, 1, 10, 30, 310),
    (1, 2, 10, 30, 300),
    (1, 2, 20, 20, 320),
    (2, 3, 10, 30, 300),
    (2, 3, 0, 40, 310),
    (0, 2, 20, 60, 330),
    (1, 3, 20, 60, 290),
];

/// Five fixes: legs lead both ways between two of them.
pub const DENSE: [PlainLeg; 9] = [
    (0, 1, 10, 60, 200),
    (0, 2, 20, 40, 300),
    (1, 2, 5, 30, 250),
    (2, 1, 5, 10, 250),
    (1, 3, 30, 70, 400),
    (2, 3, 25, 90, 350),
    (1, 4, 60, 100, 150),
    (2, 4, 70, 80, 600),
    (3, 4, 10, 40, 0),
];

/// Six fixes: legs lead round among three of them.
pub const SIX_FIXES: [PlainLeg; 9] = [
    (0, 1, 100, 200, 300),
    (0, 2, 120, 180, 310),
    (1, 3, 80, 240, 320),
    (2, 3, 90, 100, 330),
    (3, 4, 10, 300, 340),
    (3, 5, 200, 220, 350),
    (4, 5, 50, 90, 360),
    (1, 4, 150, 160, 370),
    (4, 2, 5, 5, 380),
];

/// The rows of these legs.
pub fn rows_of(alloc: Global, legs: &[PlainLeg]) -> Result<Vec<Row>, AllocError> {
    legs.iter()
        .map(|leg| Row {
            from: leg.0,
            to: leg.1,
            low: leg.2,
            high: leg.3,
            top: leg.4,
            standing: Standing::Open,
        })
        .collect(alloc)
}

// The two fixes of a leg that is drawn: of the first legs one goes on from each fix to the next.
fn drawn_fixes(random: &mut Random, fixes: u16, k: u16) -> (u16, u16) {
    let next = k.saturating_add(1);
    if next < fixes {
        return (k, next);
    }
    let from = random.small(fixes);
    let by = random.small(fixes.saturating_sub(1)).saturating_add(1);
    let to = from.saturating_add(by).checked_rem(fixes).unwrap_or(0);
    (from, to)
}

/// The rows of so many legs that are drawn.
pub fn drawn_rows(
    alloc: Global,
    random: &mut Random,
    fixes: u16,
    legs: u16,
) -> Result<Vec<Row>, AllocError> {
    let mut rows = Vec::new(alloc);
    for k in 0..legs {
        let (from, to) = drawn_fixes(random, fixes, k);
        let times = random.times();
        rows.push(Row {
            from,
            to,
            low: times.low,
            high: times.high,
            top: random.small(601),
            standing: Standing::Open,
        })?;
    }
    Ok(rows)
}

fn opened(leg: &Row) -> Row {
    Row {
        standing: Standing::Open,
        ..*leg
    }
}

/// Every chain of these legs, were all of them open; each without its first leg; and lists with a leg twice or with a number
/// that no leg has.
pub fn all_lists(alloc: Global, legs: &[Row], ends: Ends) -> Result<Vec<Vec<u16>>, AllocError> {
    let open: Vec<Row> = legs.iter().map(|leg| opened(leg)).collect(alloc)?;
    let mut lists = Vec::new(alloc);
    for chain in all_chains(alloc, &open, ends.from)? {
        if let Some((_, rest)) = chain.legs.split_first() {
            lists.push(rest.to_vec(alloc)?)?;
        }
        lists.push(chain.legs.clone()?)?;
    }
    let beyond = u16::try_from(legs.len()).unwrap_or(u16::MAX);
    lists.push(vec![in alloc; 0; 2]?)?;
    lists.push(vec![in alloc; 0; 300]?)?;
    lists.push(vec![in alloc; beyond; 1]?)?;
    lists.push(vec![in alloc; u16::MAX; 1]?)?;
    Ok(lists)
}
