// The demo that the program carries: a script, and what was done in it, told from its replies.
use super::chart_files::BuiltInFiles;
use super::replies::take_line;
use super::session::Session;
use protocol::{Answer, Command, Line, PlanCommand, Rejection, ReplyLine, Verb, parse_line};
use std::alloc::{AllocError, Global};
use std::fmt;

// Plans 1 and 2 are sent the same sound calls, and plan 2 one more amendment, whose low time is above its high.
const SCRIPT: &str = "\
chart four-fixes.chart
name 0
name 1
name 2
name 3
chart cut.chart
chart repeated.chart
chart reversed.chart
draft 1
ends 1 0 3
file 1
draft 2
ends 2 0 3
file 2
lattice 3 5 390 2460-2700 2400-2640 2460-2700 2560-2900 2500-2840 2560-2900 2360-2600 2300-2540 2360-2600 2510-2800 2450-2740 2510-2800
name 0
draft 3
ends 3 1 13
file 3
route 1
route 2
amend 1 0 4 close
amend 2 0 4 close
route 1
route 2
amend 2 1 0 times 500 400
amend 1 1 0 times 300 400
amend 2 1 0 times 300 400
status 1
status 2
regret 1 2 3
regret 2 2 3
regret 1 0 4 3
regret 2 0 4 3
floor 1 0
floor 2 0
amend 1 2 4 restore
amend 2 2 4 restore
amend 1 3 2 times 200 350
amend 2 3 2 times 200 350
route 1
route 2
regret 1 0 4 3
regret 2 0 4 3
floor 1
floor 2
quickest 1
quickest 2
level 1
level 2
status 1
status 2
route 3
quickest 3
amend 3 0 3 close
amend 3 0 10 close
amend 3 1 10 times 2500 3600
route 3
quickest 3
level 3
floor 3 2
status 3
close 1
close 2
close 3
status 3
route 3
amend 3 2 3 restore
";

// How often each thing was done, and what two plans were asked and replied.
#[derive(Drop)]
struct Summary {
    filed: u32,
    granted: u32,
    refused: u32,
    routes: u32,
    first: Transcript,
    second: Transcript,
}

// The calls of one plan, without its number, and the replies to them, but for the amendments that were refused: those are counted.
#[derive(Drop)]
struct Transcript {
    plan: u16,
    text: String,
    calls: u32,
    refused: u32,
}

// The plan whose call a line is, if any.
fn called_plan(line: &Line<'_>) -> Option<u16> {
    match line {
        Line::Command {
            command: Command::Plan {
                plan,
                command: PlanCommand::Call(_),
            },
            ..
        } => Some(*plan),
        _ => None,
    }
}

// Whether it is the reply to an amendment that is refused.
fn is_refused(reply: &ReplyLine<'_>) -> bool {
    matches!(
        reply,
        ReplyLine::Rejected {
            verb: Verb::Amend,
            why: Rejection::Refused(_),
        }
    )
}

fn add_one(count: &mut u32) {
    *count = count.saturating_add(1);
}

impl Transcript {
    fn new(alloc: Global, plan: u16) -> Transcript {
        Transcript {
            plan,
            text: String::new(alloc),
            calls: 0,
            refused: 0,
        }
    }

    fn enter(&mut self, line: &str, reply: &ReplyLine<'_>) -> Result<(), AllocError> {
        if is_refused(reply) {
            add_one(&mut self.refused);
            return Ok(());
        }
        let (verb, others) = line.split_once(' ').unwrap_or((line, ""));
        let (_plan, words) = others.split_once(' ').unwrap_or((others, ""));
        writeln!(self.text, "{verb} {words}: {reply}")?;
        add_one(&mut self.calls);
        Ok(())
    }
}

impl Summary {
    // Nothing was done yet. The two plans are to be compared.
    fn new(alloc: Global, first: u16, second: u16) -> Summary {
        Summary {
            filed: 0,
            granted: 0,
            refused: 0,
            routes: 0,
            first: Transcript::new(alloc, first),
            second: Transcript::new(alloc, second),
        }
    }

    fn count(&mut self, reply: &ReplyLine<'_>) {
        match reply {
            ReplyLine::Granted(Answer::File { .. }) => add_one(&mut self.filed),
            ReplyLine::Granted(Answer::Amend { .. }) => add_one(&mut self.granted),
            ReplyLine::Granted(Answer::Route { .. }) => add_one(&mut self.routes),
            _ if is_refused(reply) => add_one(&mut self.refused),
            _ => {}
        }
    }

    // Enters the reply to a line, which is a call of this plan, if of any.
    fn enter(
        &mut self,
        line: &str,
        plan: Option<u16>,
        reply: &ReplyLine<'_>,
    ) -> Result<(), AllocError> {
        self.count(reply);
        if plan == Some(self.first.plan) {
            self.first.enter(line, reply)?;
        }
        if plan == Some(self.second.plan) {
            self.second.enter(line, reply)?;
        }
        Ok(())
    }
}

impl fmt::Display for Summary {
    fn fmt<W: fmt::Write>(&self, f: &mut fmt::Formatter<W>) -> fmt::Result {
        let Summary {
            filed,
            granted,
            refused,
            routes,
            ..
        } = self;
        writeln!(
            f,
            "plans filed {filed}, amendments granted {granted} and refused {refused}, routes answered {routes}"
        )?;
        let (first, second) = (&self.first, &self.second);
        write!(f, "plans {} and {} gave ", first.plan, second.plan)?;
        if first.text.as_str() == second.text.as_str() {
            write!(
                f,
                "the same replies to the same {} sound calls",
                first.calls
            )?;
        } else {
            f.write_str("other replies, or had other sound calls")?;
        }
        write!(
            f,
            ", though {} amendments of the one and {} of the other were refused",
            first.refused, second.refused
        )
    }
}

/// Runs the demo: prints each command of its script with its reply, and at the end what was done. An error is one of output or of memory.
pub fn show_demo(rt: &HostRuntime) -> anyhow::Result<()> {
    let alloc = rt.alloc();
    let mut session = Session::new(alloc);
    let mut summary = Summary::new(alloc, 1, 2);
    for text in SCRIPT.lines() {
        println!(rt; "> {text}")?;
        let line = parse_line(alloc, text)?;
        let plan = called_plan(&line);
        if let Some(reply) = take_line(rt, &BuiltInFiles, &mut session, line)? {
            println!(rt; "{reply}")?;
            summary.enter(text, plan, &reply)?;
        }
    }
    println!(rt; "{summary}")?;
    Ok(())
}
