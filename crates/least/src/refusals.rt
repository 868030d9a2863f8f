// Why there is no route of least regret to answer.
ghost use Rattle.std.specs.Prelude.{Some};
ghost use Rattle.least.specs.Answers.{route_number, route_words};

use chart::Refusal;
use floor::FloorRefusal;
use std::error::Error;
use std::fmt;

/// Why no route is written. The memory then stays as it is.
#[derive(Clone, Copy, Debug, PartialEq, Eq)]
pub enum RouteRefusal {
    /// Number 15: the memory has fewer places than a route of the chart can have legs.
    ShortMemory,
    /// Number 25: no route leads from the departure to the destination.
    NoRoute,
}

impl Refusal for RouteRefusal {
    ghost number_of = { route_number };

    fn number(&self) -> u8 {
        match *self {
            RouteRefusal::ShortMemory => 15,
            RouteRefusal::NoRoute => 25,
        }
    }
}

impl fmt::Display for RouteRefusal {
    ghost output = { λ refusal. Some (route_words refusal) };

    fn fmt<W: fmt::Write>(&self, f: &mut fmt::Formatter<W>) -> fmt::Result {
        match self {
            RouteRefusal::ShortMemory => {
                f.write_str("fewer places of memory than a route can have legs")
            }
            RouteRefusal::NoRoute => FloorRefusal::NoRoute.fmt(f),
        }
    }
}

impl Error for RouteRefusal {}
