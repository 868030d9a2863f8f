// How the times of the legs of a lattice are spread.
use std::fmt;

// Times near each other, medium and wide intervals, and one interval everywhere.
#[derive(Clone, Copy)]
pub(crate) enum Spread {
    Near,
    Medium,
    Wide,
    Same,
}

// What intervals a spread draws: the low time is at least `low`, or `low` and `slant` where the leg leads to another row,
// and the interval is at least so wide. Each varies by as much as is said.
#[derive(Clone, Copy)]
pub(crate) struct SpreadLimits {
    pub(crate) low: u16,
    pub(crate) slant: u16,
    pub(crate) low_varies: u16,
    pub(crate) width: u16,
    pub(crate) width_varies: u16,
}

impl Spread {
    pub(crate) fn limits(self) -> SpreadLimits {
        match self {
            Spread::Near => SpreadLimits {
                low: 3000,
                slant: 60,
                low_varies: 100,
                width: 50,
                width_varies: 250,
            },
            Spread::Medium => SpreadLimits {
                low: 2400,
                slant: 60,
                low_varies: 1200,
                width: 0,
                width_varies: 1200,
            },
            Spread::Wide => SpreadLimits {
                low: 0,
                slant: 0,
                low_varies: 50_000,
                width: 0,
                width_varies: 50_000,
            },
            Spread::Same => SpreadLimits {
                low: 3000,
                slant: 0,
                low_varies: 0,
                width: 1000,
                width_varies: 0,
            },
        }
    }
}

impl fmt::Display for Spread {
    fn fmt<W: fmt::Write>(&self, f: &mut fmt::Formatter<W>) -> fmt::Result {
        f.write_str(match self {
            Spread::Near => "near",
            Spread::Medium => "medium",
            Spread::Wide => "wide",
            Spread::Same => "same",
        })
    }
}
