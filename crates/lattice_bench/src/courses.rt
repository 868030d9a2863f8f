// Between which two fixes of a lattice a route is wanted.
use chart::Ends;
use std::fmt;

// From the middle of the first column to the middle of the last, or from the first fix to the last.
#[derive(Clone, Copy)]
pub(crate) enum Course {
    Middle,
    Corner,
}

impl Course {
    // The ends of the course on a lattice.
    pub(crate) fn ends(self, rows: u16, columns: u16) -> Ends {
        let last_column = columns.saturating_sub(1).saturating_mul(rows);
        match self {
            Course::Middle => Ends {
                from: rows / 2,
                to: last_column.saturating_add(rows / 2),
            },
            Course::Corner => Ends {
                from: 0,
                to: last_column.saturating_add(rows.saturating_sub(1)),
            },
        }
    }
}

impl fmt::Display for Course {
    fn fmt<W: fmt::Write>(&self, f: &mut fmt::Formatter<W>) -> fmt::Result {
        f.write_str(match self {
            Course::Middle => "middle",
            Course::Corner => "corner",
        })
    }
}
