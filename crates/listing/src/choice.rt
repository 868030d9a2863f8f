// What a route loses: under any of all choices that give each open leg its low or its high time, between which no loss is larger; and in
// its own worst choice alone, where its legs take their high time and all others their low. A chart of many legs has more choices than
// can be tried, and none of them loses the route more.
use chart::{Row, Standing};
use std::alloc::{AllocError, Global};

// A choice: a time for each leg, and the least time of any route under it.
#[derive(Drop)]
pub(crate) struct Choice {
    times: Vec<u32>,
    least: Option<u32>,
}

impl Choice {
    // What a list loses under the choice, in seconds; nothing where there is no route.
    pub(crate) fn loss_of(&self, list: &[u16]) -> u32 {
        let time = total_time(&self.times, list);
        time.saturating_sub(self.least.unwrap_or(time))
    }
}

// The time of a list of legs, by the times of all legs.
pub(crate) fn total_time(times: &[u32], list: &[u16]) -> u32 {
    list.iter()
        .filter_map(|k| times.get(*k as usize))
        .fold(0u32, |sum, seconds| sum.saturating_add(*seconds))
}

// The least time of any of the routes, by the times of all legs.
pub(crate) fn least_total_time(times: &[u32], routes: &[Vec<u16>]) -> Option<u32> {
    routes.iter().map(|route| total_time(times, route)).min()
}

// The choices with one more time at their end.
fn extended(alloc: Global, choices: &[Vec<u32>], time: u32) -> Result<Vec<Vec<u32>>, AllocError> {
    let mut all = Vec::new(alloc);
    for choice in choices {
        let mut times = choice.clone()?;
        times.push(time)?;
        all.push(times)?;
    }
    Ok(all)
}

// Whether the leg has two times to choose from, and either makes a difference.
fn is_chosen(leg: &Row) -> bool {
    leg.standing == Standing::Open && leg.low != leg.high
}

// The times of all legs in every choice. A closed leg is on no route, and has its low time in all of them.
fn all_times(alloc: Global, rows: &[Row]) -> Result<Vec<Vec<u32>>, AllocError> {
    let mut all = Vec::new(alloc);
    all.push(Vec::new(alloc))?;
    for leg in rows {
        let mut next = extended(alloc, &all, leg.low)?;
        if is_chosen(leg) {
            let mut high = extended(alloc, &all, leg.high)?;
            next.append(&mut high)?;
        }
        all = next;
    }
    Ok(all)
}

// Every choice, beside these routes. An error is want of memory.
pub(crate) fn all_choices(
    alloc: Global,
    rows: &[Row],
    routes: &[Vec<u16>],
) -> Result<Vec<Choice>, AllocError> {
    let mut choices = Vec::new(alloc);
    for times in all_times(alloc, rows)? {
        let least = least_total_time(&times, routes);
        choices.push(Choice { times, least })?;
    }
    Ok(choices)
}

// The time of a list of legs in the worst choice of a route.
fn time_against(rows: &[Row], route: &[u16], list: &[u16]) -> u32 {
    list.iter()
        .filter_map(|k| {
            let leg = rows.get(*k as usize)?;
            Some(if route.contains(k) { leg.high } else { leg.low })
        })
        .fold(0u32, |sum, seconds| sum.saturating_add(seconds))
}

// What a route loses in its worst choice, beside these routes.
pub(crate) fn loss_at_worst(rows: &[Row], routes: &[Vec<u16>], route: &[u16]) -> u32 {
    let time = time_against(rows, route, route);
    let least = routes
        .iter()
        .map(|other| time_against(rows, route, other))
        .min();
    time.saturating_sub(least.unwrap_or(time))
}
