// The line that is replied to a line of a script: the answer to a command that is granted, and why another is not.
ghost use Rattle.std.specs.Prelude.{◌≡◌, Some};
ghost use Rattle.protocol.specs.Replies.{reply_of};
ghost use Rattle.protocol.specs.ReplyTexts.{list_text, counts_text, status_text, answer_text, reply_line_text};

use super::command::Verb;
use super::rejection::{CommandError, Rejection};
use arrayvec::{ArrayString, ArrayVec};
use chart::limits::MAX_FIXES;
use chart::{Ends, QuickestTotal};
use chart_format::sizes::MAX_NAME;
use plan::Status;
use reader::Counts;
use std::alloc::AllocError;
use std::fmt;

/// What a command is answered where it is granted. Times, regrets and floors are in seconds.
#[derive(Drop)]
pub enum Answer {
    /// The numbers of fixes and legs of the chart that is now current.
    Chart(Counts),
    /// The same of the lattice that is now current.
    Lattice(Counts),
    /// The name of a fix, and the number of bytes before it in the file.
    Name {
        text: ArrayString<MAX_NAME>,
        place: usize,
    },
    /// The number of the plan that is drafted.
    Draft {
        plan: u16,
    },
    /// The ends that the draft now has.
    Ends(Ends),
    /// The revision at filing.
    File {
        revision: u16,
    },
    /// The revision that the amendment made.
    Amend {
        revision: u16,
    },
    /// The route of least regret: its regret and its legs.
    Route {
        regret: u32,
        legs: ArrayVec<u16, MAX_FIXES>,
    },
    /// The regret of the list.
    Regret(u32),
    /// The floor of the list.
    Floor(u32),
    /// The least total at high times, and the fewest legs that take it.
    Quickest(QuickestTotal),
    /// The highest level of a route.
    Level(u16),
    /// What the plan answers of itself.
    Status(Status),
    /// The plan is closed.
    Close,
    /// The drawing, which is SVG.
    Picture {
        svg: String,
    },
}

// Numbers, each after a space.
#[derive(Clone, Copy)]
struct ListText<'a>(&'a [u16]);

impl fmt::Display for ListText<'_> {
    ghost output = { λ list. Some (list_text list.0.now) };

    fn fmt<W: fmt::Write>(&self, f: &mut fmt::Formatter<W>) -> fmt::Result {
        for k in self.0 {
            write!(f, " {k}")?;
        }
        Ok(())
    }
}

// How many fixes and legs a chart has.
#[derive(Clone, Copy)]
struct CountsText(Counts);

impl fmt::Display for CountsText {
    ghost output = { λ counts. Some (counts_text counts.0) };

    fn fmt<W: fmt::Write>(&self, f: &mut fmt::Formatter<W>) -> fmt::Result {
        let Counts { fixes, legs } = self.0;
        write!(f, "{fixes} fixes {legs} legs")
    }
}

// What a plan answers of itself.
#[derive(Clone, Copy)]
struct StatusText(Status);

impl fmt::Display for StatusText {
    ghost output = { λ status. Some (status_text status.0) };

    fn fmt<W: fmt::Write>(&self, f: &mut fmt::Formatter<W>) -> fmt::Result {
        let Status {
            revision,
            amended,
            ends: Ends { from, to },
        } = self.0;
        write!(
            f,
            "revision {revision} amended {amended} from {from} to {to}"
        )
    }
}

impl fmt::Display for Answer {
    ghost output = { λ answer. Some (answer_text answer) };

    fn fmt<W: fmt::Write>(&self, f: &mut fmt::Formatter<W>) -> fmt::Result {
        match self {
            Answer::Chart(counts) => write!(f, "chart {}", CountsText(*counts)),
            Answer::Lattice(counts) => write!(f, "lattice {}", CountsText(*counts)),
            Answer::Name { text, place } => write!(f, "name {text} at {place}"),
            Answer::Draft { plan } => write!(f, "draft {plan}"),
            Answer::Ends(Ends { from, to }) => write!(f, "ends {from} {to}"),
            Answer::File { revision } => write!(f, "file revision {revision}"),
            Answer::Amend { revision } => write!(f, "amend granted {revision}"),
            Answer::Route { regret, legs } => {
                write!(f, "route regret {regret} legs{}", ListText(legs.as_slice()))
            }
            Answer::Regret(seconds) => write!(f, "regret {seconds}"),
            Answer::Floor(seconds) => write!(f, "floor {seconds}"),
            Answer::Quickest(QuickestTotal { seconds, legs }) => {
                write!(f, "quickest {seconds} seconds {legs} legs")
            }
            Answer::Level(level) => write!(f, "level {level}"),
            Answer::Status(status) => write!(f, "status {}", StatusText(*status)),
            Answer::Close => f.write_str("close"),
            Answer::Picture { svg } => write!(f, "picture {} bytes", svg.len()),
        }
    }
}

/// What is replied to a line that is no comment. It prints the line without its end.
#[derive(Drop)]
pub enum ReplyLine<'a> {
    /// The command ran.
    Granted(Answer),
    /// The command changed nothing.
    Rejected { verb: Verb, why: Rejection<'a> },
    /// The first word is no verb.
    Unknown,
}

impl<'a> ReplyLine<'a> {
    /// The reply to a command with this verb, from what came of it. An error is want of memory.
    pub fn of(
        verb: Verb,
        outcome: Result<Answer, CommandError<'a>>,
    ) -> Result<ReplyLine<'a>, AllocError>
        ensures { result ≡ reply_of verb outcome.entry }
    {
        match outcome {
            Ok(answer) => Ok(ReplyLine::Granted(answer)),
            Err(CommandError::Rejected(why)) => Ok(ReplyLine::Rejected { verb, why }),
            Err(CommandError::NoMemory(error)) => Err(error),
        }
    }
}

impl fmt::Display for ReplyLine<'_> {
    ghost output = { λ line. Some (reply_line_text line) };

    fn fmt<W: fmt::Write>(&self, f: &mut fmt::Formatter<W>) -> fmt::Result {
        match self {
            ReplyLine::Granted(answer) => answer.fmt(f),
            ReplyLine::Rejected { verb, why } => write!(f, "{verb} {why}"),
            ReplyLine::Unknown => f.write_str("unknown command"),
        }
    }
}
