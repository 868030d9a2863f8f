// Where the fixes of a chart stand in a picture: in columns, and in each column one below the other.
use chart::limits::MAX_ROWS;
use chart::{Chart, Ends, Leg};
use std::alloc::{AllocError, Global};

// How the fixes are arranged.
#[derive(Clone, Copy)]
pub(crate) enum Arrangement {
    // As a lattice with so many rows has them: a fix has the number column × rows + row.
    Lattice { rows: u16 },
    // In layers: those that `n` legs lead to from the departure, and no fewer, stand in the column `n`, and those that none lead to in
    // the last one.
    Layers,
}

// Where a fix stands: its column, and its row in halves, so that columns of several lengths have one middle.
#[derive(Clone, Copy)]
pub(crate) struct Cell {
    pub(crate) column: u16,
    pub(crate) half_row: u16,
}

// A fix that no leg has led to yet.
const UNREACHED: u16 = u16::MAX;

// Puts each fix that a leg leads to from the layer before into this one, unless it stands in one. Tells whether there is any.
fn fill_layer<C: Chart>(chart: &C, layers: &mut [u16], layer: u16) -> bool {
    let mut is_any = false;
    for k in 0..chart.m() {
        let Some(leg) = chart.leg(k) else {
            continue;
        };
        let (from, to) = (leg.from as usize, leg.to as usize);
        let left = layers.get(from).copied().unwrap_or(UNREACHED);
        let entered = layers.get(to).copied().unwrap_or(0);
        if left.saturating_add(1) == layer && entered == UNREACHED {
            if let Some(entry) = layers.get_mut(to) {
                *entry = layer;
                is_any = true;
            }
        }
    }
    is_any
}

// The layer of each fix, and of those that no leg leads to the one after all others.
fn layers_of<C: Chart>(alloc: Global, chart: &C, departure: u16) -> Result<Vec<u16>, AllocError> {
    let mut layers = vec![in alloc; UNREACHED; chart.n() as usize]?;
    if let Some(first) = layers.as_mut_slice().get_mut(departure as usize) {
        *first = 0;
    }
    let mut last = 1;
    for layer in 1..chart.n() {
        if fill_layer(chart, layers.as_mut_slice(), layer) {
            last = layer.saturating_add(1);
        }
    }
    for layer in layers.as_mut_slice() {
        *layer = (*layer).min(last);
    }
    Ok(layers)
}

// How many fixes stand in a layer.
fn count_in(layers: &[u16], layer: u16) -> u16 {
    let mut count: u16 = 0;
    for other in layers {
        if *other == layer {
            count = count.saturating_add(1);
        }
    }
    count
}

// The most fixes of a layer.
fn most_in_a_layer(layers: &[u16]) -> u16 {
    let mut most = 0;
    for layer in layers {
        most = count_in(layers, *layer).max(most);
    }
    most
}

// The cells of fixes in these layers, each layer in the middle of the height of the longest.
fn layered_cells(alloc: Global, layers: &[u16]) -> Result<Vec<Cell>, AllocError> {
    let most = most_in_a_layer(layers);
    let mut cells = Vec::new(alloc);
    for (fix, layer) in layers.iter().enumerate() {
        let before = count_in(layers.get(..fix).unwrap_or(&[]), *layer);
        let space = most.saturating_sub(count_in(layers, *layer));
        cells.push(Cell {
            column: *layer,
            half_row: before.saturating_mul(2).saturating_add(space),
        })?;
    }
    Ok(cells)
}

// The cells of the fixes of a lattice.
fn lattice_cells(alloc: Global, fixes: u16, rows: u16) -> Result<Vec<Cell>, AllocError> {
    let rows = rows.max(1);
    let mut cells = Vec::new(alloc);
    for fix in 0..fixes {
        cells.push(Cell {
            column: fix / rows,
            half_row: (fix % rows).saturating_mul(2),
        })?;
    }
    Ok(cells)
}

// Whether the leg `k` joins the fixes that it would join in a lattice of so many rows, from 1 on.
fn joins_as_in_lattice(leg: &Leg, k: u16, rows: u16) -> bool {
    let step_legs = rows.saturating_mul(3).saturating_sub(2).max(1);
    let column = k / step_legs;
    let place = (k % step_legs).saturating_add(1);
    let (row, turn) = (place / 3, place % 3);
    let from = column.saturating_mul(rows).saturating_add(row);
    let to = from
        .saturating_add(rows)
        .saturating_add(turn)
        .saturating_sub(1);
    leg.from == from && leg.to == to
}

// Whether the legs of a chart join its fixes as those of a lattice of so many rows do.
fn is_lattice<C: Chart>(chart: &C, rows: u16) -> bool {
    let step_legs = rows.saturating_mul(3).saturating_sub(2);
    let steps = (chart.n() / rows.max(1)).saturating_sub(1);
    if chart.n() % rows.max(1) != 0 || steps == 0 || chart.m() != steps.saturating_mul(step_legs) {
        return false;
    }
    for k in 0..chart.m() {
        if !chart
            .leg(k)
            .is_some_and(|leg| joins_as_in_lattice(&leg, k, rows))
        {
            return false;
        }
    }
    true
}

impl Arrangement {
    // That of a lattice where the legs of a chart join its fixes as those of a lattice do, whatever their times and standings; else
    // layers.
    pub(crate) fn of<C: Chart>(chart: &C) -> Arrangement {
        for rows in 1..=MAX_ROWS {
            if is_lattice(chart, rows) {
                return Arrangement::Lattice { rows };
            }
        }
        Arrangement::Layers
    }

    // The cell of each fix of a chart.
    pub(crate) fn cells<C: Chart>(
        &self,
        alloc: Global,
        chart: &C,
        ends: Ends,
    ) -> Result<Vec<Cell>, AllocError> {
        match *self {
            Arrangement::Lattice { rows } => lattice_cells(alloc, chart.n(), rows),
            Arrangement::Layers => {
                let layers = layers_of(alloc, chart, ends.from)?;
                layered_cells(alloc, layers.as_slice())
            }
        }
    }
}
