// Why the regret call is refused.
ghost use Rattle.std.specs.Prelude.{Some};
ghost use Rattle.regret.specs.Answers.{regret_number, regret_words};

use chart::Refusal;
use std::error::Error;
use std::fmt;

/// Why a list of legs has no regret.
#[derive(Clone, Copy, Debug, PartialEq, Eq)]
pub enum RegretRefusal {
    /// Number 14: it is no route from the departure to the destination.
    NotARoute,
}

impl Refusal for RegretRefusal {
    ghost number_of = { regret_number };

    fn number(&self) -> u8 {
        match *self {
            RegretRefusal::NotARoute => 14,
        }
    }
}

impl fmt::Display for RegretRefusal {
    ghost output = { λ refusal. Some (regret_words refusal) };

    fn fmt<W: fmt::Write>(&self, f: &mut fmt::Formatter<W>) -> fmt::Result {
        f.write_str(match self {
            RegretRefusal::NotARoute => "not a route, or not a chain that leaves the departure",
        })
    }
}

impl Error for RegretRefusal {}
