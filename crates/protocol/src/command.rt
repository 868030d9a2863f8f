// What a script can ask: the verbs that commands begin with, and what the words of a command say.
ghost use Rattle.std.specs.Prelude.{◌≡◌, Some, IfSome, IfNone};
ghost use Rattle.protocol.specs.Verbs.{verb_word};

use chart::{Ends, Step};
use plan::Amendment;
use std::fmt;

/// The word that a command begins with, and each rejection of it. It prints that word.
#[derive(Clone, Copy, Debug, PartialEq, Eq)]
pub enum Verb {
    /// `chart`: the chart of a file.
    Chart,
    /// `lattice`: a lattice.
    Lattice,
    /// `name`: the name of a fix.
    Name,
    /// `draft`: a draft on the current chart.
    Draft,
    /// `ends`: the ends of a draft.
    Ends,
    /// `file`: the filing of a draft.
    File,
    /// `amend`: an amendment of a filed plan.
    Amend,
    /// `route`: the route of least regret.
    Route,
    /// `regret`: the regret of a list of legs.
    Regret,
    /// `floor`: the floor of a chain.
    Floor,
    /// `quickest`: the least total of seconds.
    Quickest,
    /// `level`: the highest level.
    Level,
    /// `status`: what a plan tells of itself.
    Status,
    /// `close`: the end of a filed plan.
    Close,
    /// `picture`: a drawing of the chart of a filed plan.
    Picture,
}

impl Verb {
    // The verb that a word is.
    pub(crate) fn of(word: &str) -> Option<Verb>
        ensures found { IfSome result (λ verb. word.now ≡ verb_word verb) }
        ensures none { IfNone result ((verb : Verb) → word.now ≡ verb_word verb → ⊥) }
    {
        Some(match word {
            "chart" => Verb::Chart,
            "lattice" => Verb::Lattice,
            "name" => Verb::Name,
            "draft" => Verb::Draft,
            "ends" => Verb::Ends,
            "file" => Verb::File,
            "amend" => Verb::Amend,
            "route" => Verb::Route,
            "regret" => Verb::Regret,
            "floor" => Verb::Floor,
            "quickest" => Verb::Quickest,
            "level" => Verb::Level,
            "status" => Verb::Status,
            "close" => Verb::Close,
            "picture" => Verb::Picture,
            _ => return None,
        })
    }
}

impl fmt::Display for Verb {
    ghost output = { λ verb. Some (verb_word verb) };

    fn fmt<W: fmt::Write>(&self, f: &mut fmt::Formatter<W>) -> fmt::Result {
        f.write_str(match self {
            Verb::Chart => "chart",
            Verb::Lattice => "lattice",
            Verb::Name => "name",
            Verb::Draft => "draft",
            Verb::Ends => "ends",
            Verb::File => "file",
            Verb::Amend => "amend",
            Verb::Route => "route",
            Verb::Regret => "regret",
            Verb::Floor => "floor",
            Verb::Quickest => "quickest",
            Verb::Level => "level",
            Verb::Status => "status",
            Verb::Close => "close",
            Verb::Picture => "picture",
        })
    }
}

/// What a line of a script says.
#[derive(Drop)]
pub enum Line<'a> {
    /// Nothing is asked, and nothing replied.
    Comment,
    /// A command, and the verb that it began with.
    Command { verb: Verb, command: Command<'a> },
    /// After this verb words are missing, too many, or no numbers of their width.
    Malformed(Verb),
    /// The first word is no verb.
    Unknown,
}

/// What a command asks.
#[derive(Drop)]
pub enum Command<'a> {
    /// That the chart of the file at the path becomes the current one.
    Chart { path: &'a str },
    /// That this lattice becomes the current chart.
    Lattice(LatticeRequest),
    /// The name of a fix of the current chart.
    Name { fix: u16 },
    /// Something of the plan of a number.
    Plan { plan: u16, command: PlanCommand },
    /// A drawing of the filed plan's chart, to be written to the path.
    Picture { plan: u16, path: &'a str },
}

/// A lattice that is asked for, before any check: its numbers of rows and columns, the top level of its legs, and for each step
/// the intervals of its turns in seconds.
#[derive(Drop)]
pub struct LatticeRequest {
    /// The number of rows.
    pub rows: u16,
    /// The number of columns.
    pub columns: u16,
    /// The top level of each leg, in hundreds of feet.
    pub top: u16,
    /// The intervals from each column to the next, in the order of the columns.
    pub steps: Vec<Step>,
}

/// What is asked of the plan of a number.
#[derive(Drop)]
pub enum PlanCommand {
    /// That it is drafted on the current chart.
    Draft,
    /// That the draft runs between these ends.
    Ends(Ends),
    /// That the draft is filed.
    File,
    /// A call of the filed plan.
    Call(PlanCall),
    /// That the filed plan is closed.
    Close,
}

/// A call of a filed plan.
#[derive(Drop)]
pub enum PlanCall {
    /// The change of a leg.
    Amend(Amendment),
    /// The route of least regret. Where no number of places is given it takes as many as it can need.
    Route { places: Option<u16> },
    /// The regret of a list of legs, in seconds. The list may be empty, and is then no route.
    Regret(Vec<u16>),
    /// The floor of a list of legs, in seconds.
    Floor(Vec<u16>),
    /// The least total of seconds at high times.
    Quickest,
    /// The highest level of a route.
    Level,
    /// The revision, the number of amended legs, and the ends.
    Status,
}
