// How a line of a script is taken apart.
ghost use Rattle.std.specs.Prelude.{◌≡◌, ◌==◌, ⊤, IfOk, OnErr, MatchBool, slice_index};
ghost use Rattle.protocol.specs.Lines.{IsWordsOf, SaysNumber, SaysNumbers, SaysTimes, SaysInterval, SaysStep};
ghost use Rattle.protocol.specs.Lines.{SaysSteps, SaysChange, SaysAmendment, SaysPlaces, SaysPlanCommand};
ghost use Rattle.protocol.specs.Lines.{SaysLattice, SaysOfPlan, SaysCommand, SaysLine, Words};
ghost use Rattle.protocol.specs.internal.Parses.{Reads, Parses, CollectsNumbers, CollectsList, HasListVerb, plus};

use super::command::{Command, LatticeRequest, Line, PlanCall, PlanCommand, Verb};
use chart::{Ends, Interval, Step};
use plan::{Amendment, Change};
use std::alloc::{AllocError, Global};

// The words say nothing.
#[derive(Drop)]
struct Malformed;

// Why words that may be collected into a list are not taken apart.
#[derive(Drop)]
enum ParseError {
    Malformed,
    NoMemory(AllocError),
}

impl From<Malformed> for ParseError {
    ghost use Rattle.protocol.specs.declared.parsing.ParseError.TheVariants.{Malformed};

    ghost from_gives = { λ _ e. e ≡ Malformed };

    fn from(_malformed: Malformed) -> ParseError {
        ParseError::Malformed
    }
}

impl From<AllocError> for ParseError {
    ghost use Rattle.protocol.specs.declared.parsing.ParseError.TheVariants.{NoMemory};

    ghost from_gives = { λ error e. e ≡ NoMemory error };

    fn from(error: AllocError) -> ParseError {
        ParseError::NoMemory(error)
    }
}

// Whether a plus stands first, which `parse` would take. A number is written in decimal digits alone.
fn has_plus(word: &str) -> bool
    ensures { result ≡ (slice_index word.now 0 == plus) }
{
    word.starts_with('+')
}

// A number of 16 bits.
fn parse_u16(word: &str) -> Result<u16, Malformed>
    ensures { Reads (SaysNumber 16 word.now) result }
{
    if has_plus(word) {
        return Err(Malformed);
    }
    word.parse::<u16>().map_err(|_error| Malformed)
}

// A number of 32 bits.
fn parse_u32(word: &str) -> Result<u32, Malformed>
    ensures { Reads (SaysNumber 32 word.now) result }
{
    if has_plus(word) {
        return Err(Malformed);
    }
    word.parse::<u32>().map_err(|_error| Malformed)
}

// A list of numbers of 16 bits.
fn parse_numbers(alloc: Global, words: &[&str]) -> Result<Vec<u16>, ParseError>
    ensures { Parses ⊤ (λ list. SaysNumbers words.now list.items) result }
{
    let mut list = Vec::new(alloc);
    for word in words {
        list.push(parse_u16(word)?).map_err(AllocError::from)?;
    }
    Ok(list)
}

// Two words for an interval.
fn parse_times(low: &str, high: &str) -> Result<Interval, Malformed>
    ensures { Reads (SaysTimes low.now high.now) result }
{
    Ok(Interval {
        low: parse_u32(low)?,
        high: parse_u32(high)?,
    })
}

// One word for an interval: LOW-HIGH.
fn parse_interval(word: &str) -> Result<Interval, Malformed>
    ensures { Reads (SaysInterval word.now) result }
{
    let (low, high) = word.split_once('-').ok_or(Malformed)?;
    parse_times(low, high)
}

// Three words for the intervals of a step, in the order of the turns −1, 0, +1.
fn parse_step(row_before: &str, same_row: &str, row_after: &str) -> Result<Step, Malformed>
    ensures { Reads (SaysStep row_before.now same_row.now row_after.now) result }
{
    let turns = [
        parse_interval(row_before)?,
        parse_interval(same_row)?,
        parse_interval(row_after)?,
    ];
    Ok(Step { turns })
}

// Three words for each step.
fn parse_steps(alloc: Global, words: &[&str]) -> Result<Vec<Step>, ParseError>
    ensures { Parses ⊤ (λ steps. SaysSteps words.now steps.items) result }
{
    if words.len() % 3 != 0 {
        return Err(ParseError::Malformed);
    }
    let mut steps = Vec::new(alloc);
    for k in 0..words.len() / 3 {
        let step = parse_step(words[3 * k], words[3 * k + 1], words[3 * k + 2])?;
        steps.push(step).map_err(AllocError::from)?;
    }
    Ok(steps)
}

// What the words after the leg of an amendment say.
fn parse_change(words: &[&str]) -> Result<Change, Malformed>
    ensures { Reads (SaysChange words.now) result }
{
    match *words {
        ["close"] => Ok(Change::Close),
        ["times", low, high] => Ok(Change::Times(parse_times(low, high)?)),
        ["restore"] => Ok(Change::Restore),
        _ => Err(Malformed),
    }
}

// The words after the number of a plan that is to be amended.
fn parse_amendment(words: &[&str]) -> Result<Amendment, Malformed>
    ensures { Reads (SaysAmendment words.now) result }
{
    let [revision, leg, change @ ..] = words else {
        return Err(Malformed);
    };
    Ok(Amendment {
        revision: parse_u16(revision)?,
        leg: parse_u16(leg)?,
        change: parse_change(change)?,
    })
}

// The number of places for a route, which need not be said.
fn parse_places(words: &[&str]) -> Result<Option<u16>, Malformed>
    ensures { Reads (SaysPlaces words.now) result }
{
    match *words {
        [] => Ok(None),
        [places] => Ok(Some(parse_u16(places)?)),
        _ => Err(Malformed),
    }
}

// What the words after the number of a plan say.
fn parse_plan_command(alloc: Global, verb: Verb, words: &[&str]) -> Result<PlanCommand, ParseError>
    ensures { Parses (CollectsNumbers verb) (SaysPlanCommand verb words.now) result }
{
    match (verb, words) {
        (Verb::Draft, []) => Ok(PlanCommand::Draft),
        (Verb::Ends, [departure, destination]) => Ok(PlanCommand::Ends(Ends {
            from: parse_u16(departure)?,
            to: parse_u16(destination)?,
        })),
        (Verb::File, []) => Ok(PlanCommand::File),
        (Verb::Amend, _) => Ok(PlanCommand::Call(PlanCall::Amend(parse_amendment(words)?))),
        (Verb::Route, _) => Ok(PlanCommand::Call(PlanCall::Route {
            places: parse_places(words)?,
        })),
        (Verb::Regret, _) => Ok(PlanCommand::Call(PlanCall::Regret(parse_numbers(alloc, words)?))),
        (Verb::Floor, _) => Ok(PlanCommand::Call(PlanCall::Floor(parse_numbers(alloc, words)?))),
        (Verb::Quickest, []) => Ok(PlanCommand::Call(PlanCall::Quickest)),
        (Verb::Level, []) => Ok(PlanCommand::Call(PlanCall::Level)),
        (Verb::Status, []) => Ok(PlanCommand::Call(PlanCall::Status)),
        (Verb::Close, []) => Ok(PlanCommand::Close),
        _ => Err(ParseError::Malformed),
    }
}

// The words after the verb of a lattice.
fn parse_lattice(alloc: Global, words: &[&str]) -> Result<LatticeRequest, ParseError>
    ensures { Parses ⊤ (SaysLattice words.now) result }
{
    let [rows, columns, top, intervals @ ..] = words else {
        return Err(ParseError::Malformed);
    };
    Ok(LatticeRequest {
        rows: parse_u16(rows)?,
        columns: parse_u16(columns)?,
        top: parse_u16(top)?,
        steps: parse_steps(alloc, intervals)?,
    })
}

// The words after the verb of a command to a plan.
fn parse_of_plan<'a>(
    alloc: Global,
    verb: Verb,
    words: &[&'a str],
) -> Result<Command<'a>, ParseError>
    ensures { Parses (CollectsNumbers verb) (SaysOfPlan verb words.now) result }
{
    let [plan, words @ ..] = words else {
        return Err(ParseError::Malformed);
    };
    Ok(Command::Plan {
        plan: parse_u16(plan)?,
        command: parse_plan_command(alloc, verb, words)?,
    })
}

// What the words after a verb say.
fn parse_command<'a>(
    alloc: Global,
    verb: Verb,
    words: &[&'a str],
) -> Result<Command<'a>, ParseError>
    ensures { Parses (CollectsList verb) (SaysCommand verb words.now) result }
{
    match (verb, words) {
        (Verb::Chart, [path]) => Ok(Command::Chart { path }),
        (Verb::Name, [fix]) => Ok(Command::Name {
            fix: parse_u16(fix)?,
        }),
        (Verb::Picture, [plan, path]) => Ok(Command::Picture {
            plan: parse_u16(plan)?,
            path,
        }),
        (Verb::Lattice, _) => Ok(Command::Lattice(parse_lattice(alloc, words)?)),
        (Verb::Chart | Verb::Name | Verb::Picture, _) => Err(ParseError::Malformed),
        _ => parse_of_plan(alloc, verb, words),
    }
}

// How many words may follow a verb that takes no list: those of an amendment of times.
const MOST_WORDS: usize = 6;

// Whether any number of words may follow the verb.
fn takes_list(verb: Verb) -> bool
    ensures { MatchBool result ⊤ (CollectsList verb → ⊥) }
{
    matches!(verb, Verb::Lattice | Verb::Regret | Verb::Floor)
}

// What the words of a line say.
fn read_words<'a>(alloc: Global, words: &[&'a str]) -> Result<Line<'a>, AllocError>
    ensures says { IfOk result (SaysLine words.now) }
    ensures no_memory { OnErr result (HasListVerb words.now) }
{
    let [first, words @ ..] = words else {
        return Ok(Line::Comment);
    };
    if first.starts_with('#') {
        return Ok(Line::Comment);
    }
    let Some(verb) = Verb::of(first) else {
        return Ok(Line::Unknown);
    };
    match parse_command(alloc, verb, words) {
        Ok(command) => Ok(Line::Command { verb, command }),
        Err(ParseError::Malformed) => Ok(Line::Malformed(verb)),
        Err(ParseError::NoMemory(error)) => Err(error),
    }
}

/// What a line of a script says. A comment is an empty line, or one whose first word begins with a hash sign. Words are parted by
/// white space. Nothing is rejected here: a line whose words say no command is `Malformed` or `Unknown`, and an error is want of memory.
pub fn parse_line(alloc: Global, line: &str) -> Result<Line<'_>, AllocError>
    ensures says { IfOk result (λ said. (words : Words) × IsWordsOf line.now words × SaysLine words said) }
{
    let mut words = line.split_whitespace();
    let Some(first) = words.next() else {
        return Ok(Line::Comment);
    };
    // A comment, and a line that begins with no verb, is known by its first word. Memory is asked only for words that may say something.
    if first.starts_with('#') {
        return Ok(Line::Comment);
    }
    let Some(verb) = Verb::of(first) else {
        return Ok(Line::Unknown);
    };
    if !takes_list(verb) && words.count() > MOST_WORDS {
        return Ok(Line::Malformed(verb));
    }
    let words: Vec<&str> = line.split_whitespace().collect(alloc)?;
    read_words(alloc, &words)
}
