// Lengths of a picture, in its units, and points of it.
use super::arrangement::Cell;

// A point of a picture, from its upper left corner.
#[derive(Clone, Copy)]
pub(crate) struct Point {
    pub(crate) x: i32,
    pub(crate) y: i32,
}

impl Point {
    // The point that lies so many twentieths of the way to another one.
    pub(crate) fn towards(self, other: Point, twentieths: i32) -> Point {
        let (dx, dy) = (
            other.x.saturating_sub(self.x),
            other.y.saturating_sub(self.y),
        );
        Point {
            x: self.x.saturating_add(dx.saturating_mul(twentieths) / 20),
            y: self.y.saturating_add(dy.saturating_mul(twentieths) / 20),
        }
    }

    // The point moved aside of the way from one point to another, by so many twentieths of its length.
    pub(crate) fn aside(self, from: Point, to: Point, twentieths: i32) -> Point {
        let (dx, dy) = (to.x.saturating_sub(from.x), to.y.saturating_sub(from.y));
        Point {
            x: self.x.saturating_sub(dy.saturating_mul(twentieths) / 20),
            y: self.y.saturating_add(dx.saturating_mul(twentieths) / 20),
        }
    }

    pub(crate) fn below(self, length: i32) -> Point {
        Point {
            x: self.x,
            y: self.y.saturating_add(length),
        }
    }
}

// How far apart and how large things are.
#[derive(Clone, Copy)]
pub(crate) struct Scale {
    columns: i32,
    half_rows: i32,
    column_width: i32,
    half_row_height: i32,
    // The radius of a fix.
    pub(crate) radius: i32,
    // Whether there is room for the times of legs.
    pub(crate) has_times: bool,
}

// The edge around all fixes.
const EDGE: i32 = 60;

// The width that the line below all fixes takes.
const LEAST_WIDTH: i32 = 620;

// With more legs than these no times are written, since they would cover one another.
const MOST_LEGS_WITH_TIMES: u16 = 160;

// In columns closer than this there is no room for times.
const LEAST_WIDTH_WITH_TIMES: i32 = 150;

// The height of signs.
pub(crate) const TEXT: i32 = 13;

impl Scale {
    // The scale of a picture of these cells with so many legs: the more there are, the closer they stand.
    pub(crate) fn of(cells: &[Cell], legs: u16) -> Scale {
        let (mut columns, mut half_rows) = (0, 0);
        for cell in cells {
            columns = (cell.column as i32).max(columns);
            half_rows = (cell.half_row as i32).max(half_rows);
        }
        let column_width = (2400 / columns.max(1)).clamp(70, 230);
        let has_times = legs <= MOST_LEGS_WITH_TIMES && column_width >= LEAST_WIDTH_WITH_TIMES;
        Scale {
            columns,
            half_rows,
            column_width,
            half_row_height: (1000 / half_rows.max(1)).clamp(12, 65),
            radius: if has_times { 7 } else { 5 },
            has_times,
        }
    }

    pub(crate) fn width(&self) -> i32 {
        self.columns
            .saturating_mul(self.column_width)
            .saturating_add(2 * EDGE)
            .max(LEAST_WIDTH)
    }

    pub(crate) fn height(&self) -> i32 {
        self.half_rows
            .saturating_mul(self.half_row_height)
            .saturating_add(2 * EDGE)
    }

    // The point of a cell.
    pub(crate) fn point(&self, cell: Cell) -> Point {
        Point {
            x: (cell.column as i32)
                .saturating_mul(self.column_width)
                .saturating_add(EDGE),
            y: (cell.half_row as i32)
                .saturating_mul(self.half_row_height)
                .saturating_add(EDGE),
        }
    }
}
