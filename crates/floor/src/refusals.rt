// Why the floor call is refused.
ghost use Rattle.std.specs.Prelude.{Some};
ghost use Rattle.floor.specs.Answers.{floor_number, floor_words};

use chart::Refusal;
use regret::RegretRefusal;
use std::error::Error;
use std::fmt;

/// Why a list of legs has no floor.
#[derive(Clone, Copy, Debug, PartialEq, Eq)]
pub enum FloorRefusal {
    /// Number 14: it is no chain that leaves the departure.
    NotAChain,
    /// Number 25: it is a chain that leaves the departure, and no route begins with it.
    NoRoute,
}

impl Refusal for FloorRefusal {
    ghost number_of = { floor_number };

    fn number(&self) -> u8 {
        match *self {
            FloorRefusal::NotAChain => 14,
            FloorRefusal::NoRoute => 25,
        }
    }
}

impl fmt::Display for FloorRefusal {
    ghost output = { λ refusal. Some (floor_words refusal) };

    fn fmt<W: fmt::Write>(&self, f: &mut fmt::Formatter<W>) -> fmt::Result {
        match self {
            FloorRefusal::NotAChain => RegretRefusal::NotARoute.fmt(f),
            FloorRefusal::NoRoute => f.write_str("no route, or none that begins so"),
        }
    }
}

impl Error for FloorRefusal {}
