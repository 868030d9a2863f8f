// The program: the demo that it carries, the commands of a file, or those of standard input.
ghost use Rattle.std.specs.Prelude.{[], MatchResult};
ghost use Rattle.console.specs.Sessions.{session_of};
ghost use Rattle.console.specs.Scripts.{Bytes, TakesScript};

use super::chart_files::{Files, FolderFiles};
use super::demo::show_demo;
use super::replies::take_line;
use super::session::Session;
use anyhow::{Context, bail};
use protocol::parse_line;
use std::io::{BufRead, BufReader};
use std::{env, fs};

/// Replies to every line of the input, to its end, each reply on a line of the output. A comment has none. An error is one of input, of
/// output or of memory, and the lines before it are replied to.
pub fn run_script<F: Files, R: BufRead + Drop>(
    rt: &HostRuntime,
    files: &F,
    session: &mut Session,
    input: R,
) -> anyhow::Result<()>
    ensures { MatchResult result
        (λ _. TakesScript (F.fetches files.now) (F.stores files.now)
        (session_of session.old) (R.remaining input) [] (session_of session.new))
        (λ _. (rest : Bytes) × TakesScript (F.fetches files.now) (F.stores files.now)
        (session_of session.old) (R.remaining input) rest (session_of session.new)) }
{
    let alloc = rt.alloc();
    for bytes in input.split(alloc, b'\n') {
        let text = String::from_utf8_lossy(alloc, bytes?.as_slice())?;
        let line = parse_line(alloc, text.as_str())?;
        if let Some(reply) = take_line(rt, files, session, line)? {
            println!(rt; "{reply}")?;
        }
    }
    Ok(())
}

// What `--help` prints.
const HELP: &str = "\
Keeps plans of least-regret routes: takes commands, one to a line, and replies to each with one line.

Usage:
  teffscarp             shows the demo that the program carries
  teffscarp SCRIPT      replies to the commands of the file SCRIPT
  teffscarp -           replies to the commands of standard input
  teffscarp --help      tells this
  teffscarp --version   tells the version

Commands, where PLAN is a number from 1 to 9, and what is in brackets can be left out:
  chart PATH                                    the file's chart is the current one
  lattice ROWS COLUMNS TOP [LOW-HIGH LOW-HIGH LOW-HIGH …]
                                                so is this lattice, with three intervals for each step
  name FIX                                      the name of a fix of the current chart
  draft PLAN                                    a draft on the current chart
  ends PLAN DEPARTURE DESTINATION               the ends of the draft
  file PLAN                                     files the draft
  amend PLAN REVISION LEG close                 closes a leg
  amend PLAN REVISION LEG times LOW HIGH        sets the times of a leg, and opens it
  amend PLAN REVISION LEG restore               gives back the chart's own leg
  route PLAN [PLACES]                           the route of least regret
  regret PLAN [LEG …]                           the regret of a route
  floor PLAN [LEG …]                            the floor of a chain
  quickest PLAN                                 the least seconds at high times, and the fewest legs that take them
  level PLAN                                    the highest level of a route
  status PLAN                                   the revision, the number of amended legs, and the ends
  close PLAN                                    closes the filed plan
  picture PLAN PATH                             draws the filed plan's chart, and writes the drawing (SVG) to PATH

A line without words, and one that begins with #, is passed over. Times are in whole seconds, levels in hundreds of feet.
";

// What `--version` prints.
const VERSION: &str = "teffscarp 1.0";

// Replies to the commands of a file.
fn run_file(rt: &HostRuntime, path: &str) -> anyhow::Result<()> {
    let alloc = rt.alloc();
    let file = fs::open(rt, path).context(format_args!("cannot open the script {path}"))?;
    let mut session = Session::new(alloc);
    run_script(rt, &FolderFiles, &mut session, BufReader::new(alloc, file)?).context(format_args!(
        "cannot go on with the script {path}"
    ))
}

/// Runs the program on its argument: the path of a script, `-` for standard input, `--help` or `--version`. With no argument it shows the
/// demo. An error is a flag that is none of these, a second argument, or one of input, of output or of memory; where a script cannot be
/// opened or read, it names its path.
pub fn run(rt: &HostRuntime) -> anyhow::Result<()> {
    let mut args = env::args(rt)?;
    let _program = args.next();
    let Some(argument) = args.next() else {
        return show_demo(rt);
    };
    if args.next().is_some() {
        bail!("more than one argument: `teffscarp --help` tells which it takes");
    }
    match argument.as_str() {
        "-" => {
            let mut session = Session::new(rt.alloc());
            run_script(rt, &FolderFiles, &mut session, rt.stdin().lock())
        }
        "--help" => Ok(print!(rt; "{HELP}")?),
        "--version" => Ok(println!(rt; "{VERSION}")?),
        flag if flag.starts_with('-') => {
            bail!("no flag {flag}: `teffscarp --help` tells those that there are")
        }
        path => run_file(rt, path),
    }
}
