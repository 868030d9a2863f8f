// Why a call of a plan is refused.
ghost use Rattle.std.specs.Prelude.{Some};
ghost use Rattle.plan.specs.Refusals.{amend_number, amend_words, ends_number, ends_words, best_number, best_words};

use chart::{Refusal, RowRefusal};
use floor::FloorRefusal;
use std::error::Error;
use std::fmt;

/// Why a plan is not amended, in the order in which the grounds are tried. The plan then stays what it was.
#[derive(Clone, Copy, Debug, PartialEq, Eq)]
pub enum AmendRefusal {
    /// Number 13: the chart has no leg of the number.
    NoSuchLeg,
    /// Number 8: a time is outside its limits, or low is above high.
    BadTimes,
    /// Number 22: the plan stands at the last revision.
    LastRevision,
    /// Number 21: the plan stands at another revision than the one given.
    OtherRevision,
    /// Number 24: the leg to be restored does not stand amended.
    NotAmended,
    /// Number 23: as many legs as can be stand amended, and this is none of them.
    NoPlace,
}

impl Refusal for AmendRefusal {
    ghost number_of = { amend_number };

    fn number(&self) -> u8 {
        match *self {
            AmendRefusal::NoSuchLeg => 13,
            AmendRefusal::BadTimes => 8,
            AmendRefusal::LastRevision => 22,
            AmendRefusal::OtherRevision => 21,
            AmendRefusal::NotAmended => 24,
            AmendRefusal::NoPlace => 23,
        }
    }
}

impl fmt::Display for AmendRefusal {
    ghost output = { λ refusal. Some (amend_words refusal) };

    fn fmt<W: fmt::Write>(&self, f: &mut fmt::Formatter<W>) -> fmt::Result {
        match self {
            AmendRefusal::NoSuchLeg => f.write_str("no such leg"),
            AmendRefusal::BadTimes => RowRefusal::BadTimes.fmt(f),
            AmendRefusal::LastRevision => f.write_str("the plan is at its last revision"),
            AmendRefusal::OtherRevision => f.write_str("the plan is at another revision"),
            AmendRefusal::NotAmended => f.write_str("the leg is not amended"),
            AmendRefusal::NoPlace => f.write_str("as many legs as can be stand amended"),
        }
    }
}

impl Error for AmendRefusal {}

/// Why a draft does not take its ends, in the order in which the grounds are tried. The draft then keeps the ends that it had.
#[derive(Clone, Copy, Debug, PartialEq, Eq)]
pub enum EndsRefusal {
    /// Number 11: one of them is no fix of the chart.
    NoSuchFix,
    /// Number 12: both are the same.
    SameFix,
}

impl Refusal for EndsRefusal {
    ghost number_of = { ends_number };

    fn number(&self) -> u8 {
        match *self {
            EndsRefusal::NoSuchFix => 11,
            EndsRefusal::SameFix => 12,
        }
    }
}

impl fmt::Display for EndsRefusal {
    ghost output = { λ refusal. Some (ends_words refusal) };

    fn fmt<W: fmt::Write>(&self, f: &mut fmt::Formatter<W>) -> fmt::Result {
        f.write_str(match self {
            EndsRefusal::NoSuchFix => "no such fix",
            EndsRefusal::SameFix => "departure and destination are the same",
        })
    }
}

impl Error for EndsRefusal {}

/// Why there is no best total.
#[derive(Clone, Copy, Debug, PartialEq, Eq)]
pub enum BestRefusal {
    /// Number 25: no route leads from the departure to the destination.
    NoRoute,
}

impl Refusal for BestRefusal {
    ghost number_of = { best_number };

    fn number(&self) -> u8 {
        match *self {
            BestRefusal::NoRoute => 25,
        }
    }
}

impl fmt::Display for BestRefusal {
    ghost output = { λ refusal. Some (best_words refusal) };

    fn fmt<W: fmt::Write>(&self, f: &mut fmt::Formatter<W>) -> fmt::Result {
        match self {
            BestRefusal::NoRoute => FloorRefusal::NoRoute.fmt(f),
        }
    }
}

impl Error for BestRefusal {}
