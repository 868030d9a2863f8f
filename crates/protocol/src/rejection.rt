// Why commands are not granted, with the refusals of all of them as one type.
ghost use Rattle.std.specs.Prelude.{◌≡◌, Some};
ghost use Rattle.protocol.specs.declared.rejection.Rejection.TheVariants.{Refused, Fault};
ghost use Rattle.protocol.specs.declared.rejection.CommandError.TheVariants.{Rejected, NoMemory};
ghost use Rattle.protocol.specs.Refusals.{any_refusal_number, any_refusal_words};
ghost use Rattle.protocol.specs.ReplyTexts.{rejection_text};

use chart::{LatticeRefusal, Refusal};
use chart_format::{ChartFault, Fault};
use floor::FloorRefusal;
use least::RouteRefusal;
use plan::{AmendRefusal, BestRefusal, EndsRefusal};
use reader::NoSuchFix;
use regret::RegretRefusal;
use std::alloc::AllocError;
use std::error::Error;
use std::fmt;

/// The refusal of any command: that of the call or of the chart that refused it. It has the number and prints the words of that refusal.
#[derive(Clone, Copy, Debug, PartialEq, Eq)]
pub enum AnyRefusal {
    /// Of a lattice that is asked for.
    Lattice(LatticeRefusal),
    /// Of the name of a fix.
    Name(NoSuchFix),
    /// Of the ends of a draft.
    Ends(EndsRefusal),
    /// Of an amendment.
    Amend(AmendRefusal),
    /// Of a route.
    Route(RouteRefusal),
    /// Of the regret of a list.
    Regret(RegretRefusal),
    /// Of the floor of a list.
    Floor(FloorRefusal),
    /// Of the quickest total and of the level.
    Best(BestRefusal),
}

impl Refusal for AnyRefusal {
    ghost number_of = { any_refusal_number };

    fn number(&self) -> u8 {
        match self {
            AnyRefusal::Lattice(refusal) => refusal.number(),
            AnyRefusal::Name(refusal) => refusal.number(),
            AnyRefusal::Ends(refusal) => refusal.number(),
            AnyRefusal::Amend(refusal) => refusal.number(),
            AnyRefusal::Route(refusal) => refusal.number(),
            AnyRefusal::Regret(refusal) => refusal.number(),
            AnyRefusal::Floor(refusal) => refusal.number(),
            AnyRefusal::Best(refusal) => refusal.number(),
        }
    }
}

impl fmt::Display for AnyRefusal {
    ghost output = { λ refusal. Some (any_refusal_words refusal) };

    fn fmt<W: fmt::Write>(&self, f: &mut fmt::Formatter<W>) -> fmt::Result {
        match self {
            AnyRefusal::Lattice(refusal) => refusal.fmt(f),
            AnyRefusal::Name(refusal) => refusal.fmt(f),
            AnyRefusal::Ends(refusal) => refusal.fmt(f),
            AnyRefusal::Amend(refusal) => refusal.fmt(f),
            AnyRefusal::Route(refusal) => refusal.fmt(f),
            AnyRefusal::Regret(refusal) => refusal.fmt(f),
            AnyRefusal::Floor(refusal) => refusal.fmt(f),
            AnyRefusal::Best(refusal) => refusal.fmt(f),
        }
    }
}

impl Error for AnyRefusal {}

/// Why a command is not granted. It has then changed nothing.
#[derive(Drop)]
pub enum Rejection<'a> {
    /// A refusal with its number.
    Refused(AnyRefusal),
    /// The file is no chart: its fault, which has a number, a layer, and a place, the number of bytes before it.
    Fault(ChartFault),
    /// There is no file at the path that can be read.
    Unreadable { path: &'a str },
    /// No file can be written to the path.
    Unwritable { path: &'a str },
    /// There is no such plan, or it is not in the state that the command needs; or there is no chart for it.
    WrongState,
    /// Words are missing, too many, or no numbers of their width.
    Malformed,
}

impl fmt::Display for Rejection<'_> {
    ghost output = { λ rejection. Some (rejection_text rejection) };

    fn fmt<W: fmt::Write>(&self, f: &mut fmt::Formatter<W>) -> fmt::Result {
        match self {
            Rejection::Refused(refusal) => write!(f, "refused {}: {refusal}", refusal.number()),
            Rejection::Fault(fault) => {
                let report = fault.report();
                let number = report.number;
                write!(
                    f,
                    "fault {number} {} {}: {fault}",
                    report.layer, report.place
                )
            }
            Rejection::Unreadable { path } => write!(f, "unreadable {path}"),
            Rejection::Unwritable { path } => write!(f, "unwritable {path}"),
            Rejection::WrongState => f.write_str("out of turn"),
            Rejection::Malformed => f.write_str("malformed"),
        }
    }
}

impl From<AnyRefusal> for Rejection<'_> {
    ghost from_gives = { λ refusal why. why ≡ Refused refusal };

    fn from(refusal: AnyRefusal) -> Self {
        Self::Refused(refusal)
    }
}

impl From<ChartFault> for Rejection<'_> {
    ghost from_gives = { λ fault why. why ≡ Fault fault };

    fn from(fault: ChartFault) -> Self {
        Self::Fault(fault)
    }
}

/// Why a command has no answer: it is rejected, or there is no memory for a picture, which ends the program.
#[derive(Drop)]
pub enum CommandError<'a> {
    /// The command changed nothing.
    Rejected(Rejection<'a>),
    /// There is no memory for the drawing.
    NoMemory(AllocError),
}

impl<'a> From<Rejection<'a>> for CommandError<'a> {
    ghost from_gives = { λ why e. e ≡ Rejected why };

    fn from(why: Rejection<'a>) -> CommandError<'a> {
        CommandError::Rejected(why)
    }
}

impl From<AllocError> for CommandError<'_> {
    ghost from_gives = { λ error e. e ≡ NoMemory error };

    fn from(error: AllocError) -> Self {
        CommandError::NoMemory(error)
    }
}
