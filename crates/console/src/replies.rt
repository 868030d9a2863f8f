// The reply to a line of a script, and what it takes from files and puts into them.
ghost use Rattle.std.specs.Prelude.{◌≡◌, MatchResult, OnErr};
ghost use Rattle.console.specs.Sessions.{session_of, bytes_of};
ghost use Rattle.console.specs.Lines.{IsLineStep, path_of_picture, IsFetchedFor, NamesChartFile, IsTakenLine};

use super::chart_files::Files;
use super::session::Session;
use protocol::{Answer, Command, Line, Rejection, ReplyLine, Verb};
use std::alloc::AllocError;

// The reply to one line; none to a comment. For a chart command, `file` has the bytes of its file, and none where it can't be read.
fn reply_to_line<'a>(
    session: &mut Session,
    line: Line<'a>,
    file: Option<Vec<u8>>,
) -> Result<Option<ReplyLine<'a>>, AllocError>
    ensures step { IsLineStep (session_of session.old) line.entry (bytes_of file) result (session_of session.new) }
    ensures without_memory { OnErr result (session_of session.new ≡ session_of session.old) }
{
    Ok(match line {
        Line::Comment => None,
        Line::Command { verb, command } => Some(ReplyLine::of(verb, session.run(command, file))?),
        Line::Malformed(verb) => Some(ReplyLine::Rejected {
            verb,
            why: Rejection::Malformed,
        }),
        Line::Unknown => Some(ReplyLine::Unknown),
    })
}

// The path that a picture is to be written to, if a line asks for one.
fn picture_path<'a>(line: &Line<'a>) -> Option<&'a str>
    ensures { result ≡ path_of_picture line.now }
{
    match line {
        Line::Command {
            command: Command::Picture { path, .. },
            ..
        } => Some(*path),
        _ => None,
    }
}

// The bytes of the file that a line names, if it names one that can be read.
fn fetch_for<F: Files>(
    rt: &HostRuntime,
    files: &F,
    line: &Line<'_>,
) -> Result<Option<Vec<u8>>, AllocError>
    ensures { MatchResult result
        (λ file. IsFetchedFor (F.fetches files.now) line.now (bytes_of file))
        (λ _. NamesChartFile line.now) }
{
    match line {
        Line::Command {
            command: Command::Chart { path },
            ..
        } => files.fetch(rt, path),
        _ => Ok(None),
    }
}

// Takes a line that may be a command, as `take_line` says. Its frame holds replies, and is kept out of that of a comment.
#[inline(never)]
fn take_command<'a, F: Files>(
    rt: &HostRuntime,
    files: &F,
    session: &mut Session,
    line: Line<'a>,
) -> Result<Option<ReplyLine<'a>>, AllocError>
    ensures taken { IsTakenLine (F.fetches files.now) (F.stores files.now)
        (session_of session.old) line.entry result (session_of session.new) }
    ensures without_memory { OnErr result (session_of session.new ≡ session_of session.old) }
{
    let file = fetch_for(rt, files, &line)?;
    let to = picture_path(&line);
    let reply = reply_to_line(session, line, file)?;
    let (Some(path), Some(ReplyLine::Granted(Answer::Picture { svg }))) = (to, &reply) else {
        return Ok(reply);
    };
    if files.store(rt, path, svg.as_bytes()) {
        return Ok(reply);
    }
    Ok(Some(ReplyLine::Rejected {
        verb: Verb::Picture,
        why: Rejection::Unwritable { path },
    }))
}

// Takes one line: fetches the file that it names, replies to it, and writes the picture that it asked for. There is no reply to a comment.
#[inline(always)]
pub(crate) fn take_line<'a, F: Files>(
    rt: &HostRuntime,
    files: &F,
    session: &mut Session,
    line: Line<'a>,
) -> Result<Option<ReplyLine<'a>>, AllocError>
    ensures taken { IsTakenLine (F.fetches files.now) (F.stores files.now)
        (session_of session.old) line.entry result (session_of session.new) }
    ensures without_memory { OnErr result (session_of session.new ≡ session_of session.old) }
{
    match line {
        Line::Comment => Ok(None),
        line => take_command(rt, files, session, line),
    }
}
