// A chart as SVG: its legs with their times, its fixes with their names, and a route.
use super::arrangement::{Arrangement, Cell};
use super::scale::{Point, Scale, TEXT};
use chart::{Chart, Ends, Leg, Standing};
use std::alloc::{AllocError, Global};

/// What is drawn besides the fixes and legs of a chart.
#[derive(Clone, Copy)]
pub struct Drawing<'a> {
    /// The departure and the destination, which have a second ring.
    pub ends: Ends,
    /// The numbers of the legs that are drawn bold; none where there is no route.
    pub route: &'a [u16],
    /// The names of the fixes, in their order. A fix without one has its number alone.
    pub names: &'a [String],
}

// What is told of lines, fixes and arrows once for the whole picture.
const STYLE: &str = "\
<style>
polyline { fill: none; stroke: #9aa3ad; stroke-width: 1.3 }
.closed { stroke: #c98a8a; stroke-dasharray: 5 4 }
.route { stroke: #0b57a4; stroke-width: 4 }
circle { fill: #ffffff; stroke: #2f3a45; stroke-width: 1.5 }
text { fill: #2f3a45; text-anchor: middle; stroke: #ffffff; stroke-width: 3; paint-order: stroke }
.name { font-weight: bold }
.key { text-anchor: start }
</style>
<defs>
<marker id=\"arrow\" viewBox=\"0 0 8 8\" refX=\"4\" refY=\"4\" markerWidth=\"9\" markerHeight=\"9\" markerUnits=\"userSpaceOnUse\" orient=\"auto\"><path d=\"M0 0 8 4 0 8z\" fill=\"#6d7782\"/></marker>
<marker id=\"ahead\" viewBox=\"0 0 8 8\" refX=\"4\" refY=\"4\" markerWidth=\"15\" markerHeight=\"15\" markerUnits=\"userSpaceOnUse\" orient=\"auto\"><path d=\"M0 0 8 4 0 8z\" fill=\"#0b57a4\"/></marker>
</defs>
<rect width=\"100%\" height=\"100%\" fill=\"#ffffff\"/>
";

// A leg's way in a picture: from its one fix by a corner, where its arrow is, to its other.
#[derive(Clone, Copy)]
struct Way {
    start: Point,
    corner: Point,
    end: Point,
}

// A picture as far as it is drawn.
#[derive(Drop)]
struct Sheet<'a> {
    svg: String,
    scale: Scale,
    cells: &'a [Cell],
}

// How many legs before the leg `k` join the same two fixes, in the one direction or the other.
fn legs_beside<C: Chart>(chart: &C, k: u16, leg: &Leg) -> i32 {
    let mut count: i32 = 0;
    for j in 0..k {
        if chart.leg(j).is_some_and(|other| {
            (other.from == leg.from && other.to == leg.to)
                || (other.from == leg.to && other.to == leg.from)
        }) {
            count = count.saturating_add(1);
        }
    }
    count
}

// Whether a straight leg between these cells could go through another fix.
fn passes_others(from: Cell, to: Cell) -> bool {
    let across = from.column.abs_diff(to.column);
    let along = from.half_row.abs_diff(to.half_row);
    across > 1 || (across == 0 && along > 2)
}

// By how many twentieths of its length the leg's corner stands aside, so that legs between the same fixes part.
fn bend(leg: &Leg, from: Cell, to: Cell, beside: i32) -> i32 {
    let straight = if passes_others(from, to) { 3 } else { 0 };
    let apart = (beside.saturating_add(1) / 2).saturating_mul(4);
    let side = if beside % 2 == 0 {
        apart
    } else {
        0_i32.saturating_sub(apart)
    };
    let bend = side.saturating_add(straight);
    if leg.from < leg.to {
        bend
    } else {
        0_i32.saturating_sub(bend)
    }
}

impl Sheet<'_> {
    // The way of the leg `k`; none where one of its fixes has no cell.
    fn way<C: Chart>(&self, chart: &C, k: u16, leg: &Leg) -> Option<Way> {
        let from = *self.cells.get(leg.from as usize)?;
        let to = *self.cells.get(leg.to as usize)?;
        let (start, end) = (self.scale.point(from), self.scale.point(to));
        let bend = bend(leg, from, to, legs_beside(chart, k, leg));
        Some(Way {
            start,
            corner: start.towards(end, 14).aside(start, end, bend),
            end,
        })
    }

    fn header(&mut self) -> Result<(), AllocError> {
        let (width, height) = (self.scale.width(), self.scale.height());
        writeln!(
            self.svg,
            "<svg xmlns=\"http://www.w3.org/2000/svg\" viewBox=\"0 0 {width} {height}\" width=\"{width}\" height=\"{height}\" font-family=\"sans-serif\" font-size=\"{TEXT}\">"
        )?;
        write!(self.svg, "{STYLE}")?;
        Ok(())
    }

    fn line(&mut self, way: Way, class: &str, arrow: &str) -> Result<(), AllocError> {
        let Way { start, corner, end } = way;
        writeln!(
            self.svg,
            "<polyline class=\"{class}\" marker-mid=\"url(#{arrow})\" points=\"{},{} {},{} {},{}\"/>",
            start.x, start.y, corner.x, corner.y, end.x, end.y
        )?;
        Ok(())
    }

    // The legs that are of the route, or those that are not.
    fn legs<C: Chart>(
        &mut self,
        chart: &C,
        route: &[u16],
        of_route: bool,
    ) -> Result<(), AllocError> {
        for k in 0..chart.m() {
            let Some(leg) = chart.leg(k) else {
                continue;
            };
            let Some(way) = self.way(chart, k, &leg) else {
                continue;
            };
            match (route.contains(&k), leg.standing) {
                (true, _) if of_route => self.line(way, "route", "ahead")?,
                (false, Standing::Open) if !of_route => self.line(way, "open", "arrow")?,
                (false, Standing::Closed) if !of_route => self.line(way, "closed", "arrow")?,
                _ => {}
            }
        }
        Ok(())
    }

    // The number of each leg, and its low and high time.
    fn times<C: Chart>(&mut self, chart: &C) -> Result<(), AllocError> {
        for k in 0..chart.m() {
            let Some(leg) = chart.leg(k) else {
                continue;
            };
            let Some(way) = self.way(chart, k, &leg) else {
                continue;
            };
            let Point { x, y } = way.start.towards(way.corner, 10).below(TEXT / 3);
            writeln!(
                self.svg,
                "<text x=\"{x}\" y=\"{y}\">{k}: {}–{}</text>",
                leg.low, leg.high
            )?;
        }
        Ok(())
    }

    fn circle(&mut self, at: Point, radius: i32) -> Result<(), AllocError> {
        let Point { x, y } = at;
        writeln!(self.svg, "<circle cx=\"{x}\" cy=\"{y}\" r=\"{radius}\"/>")?;
        Ok(())
    }

    // A fix with its number, and its name where there is one.
    fn fix(&mut self, fix: u16, is_end: bool, names: &[String]) -> Result<(), AllocError> {
        let Some(cell) = self.cells.get(fix as usize).copied() else {
            return Ok(());
        };
        let at = self.scale.point(cell);
        let radius = self.scale.radius;
        if is_end {
            self.circle(at, radius.saturating_add(4))?;
        }
        self.circle(at, radius)?;
        let Point { x, y } = at.below(0_i32.saturating_sub(radius).saturating_sub(9));
        write!(self.svg, "<text class=\"name\" x=\"{x}\" y=\"{y}\">{fix}")?;
        if let Some(name) = names.get(fix as usize) {
            if name.bytes().all(|byte| byte.is_ascii_alphanumeric()) {
                write!(self.svg, " {name}")?;
            }
        }
        writeln!(self.svg, "</text>")?;
        Ok(())
    }

    fn key(&mut self) -> Result<(), AllocError> {
        let y = self.scale.height().saturating_sub(10);
        writeln!(
            self.svg,
            "<text class=\"key\" x=\"10\" y=\"{y}\">legs with their low and high seconds; bold: the route of least regret; dashed: closed</text>"
        )?;
        Ok(())
    }
}

/// A chart as a file of SVG, with its legs as lines from fix to fix. Fixes stand in the columns of a lattice where the legs join
/// them as those of a lattice do; else in layers, by how many legs lead to them from the departure. Legs of the route are bold
/// and closed ones dashed; each has its number and its low and high time in seconds beside it, unless there are more than 160
/// legs or 17 columns. An error is want of memory.
pub fn svg_of<C: Chart>(
    alloc: Global,
    chart: &C,
    drawing: &Drawing<'_>,
) -> Result<String, AllocError> {
    let ends = drawing.ends;
    let cells = Arrangement::of(chart).cells(alloc, chart, ends)?;
    let mut sheet = Sheet {
        svg: String::new(alloc),
        scale: Scale::of(cells.as_slice(), chart.m()),
        cells: cells.as_slice(),
    };
    sheet.header()?;
    sheet.legs(chart, drawing.route, false)?;
    sheet.legs(chart, drawing.route, true)?;
    if sheet.scale.has_times {
        sheet.times(chart)?;
    }
    for fix in 0..chart.n() {
        let is_end = fix == ends.from || fix == ends.to;
        sheet.fix(fix, is_end, drawing.names)?;
    }
    sheet.key()?;
    writeln!(sheet.svg, "</svg>")?;
    Ok(sheet.svg)
}
