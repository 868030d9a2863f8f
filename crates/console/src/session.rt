// The state between two commands, and what each command is answered.
ghost use Rattle.std.specs.Prelude.{◌≡◌, ◌-◌, length, MatchOption};
ghost use Rattle.console.specs.Models.{last_plan, IsPlanNumber};

use super::current_chart::CurrentChart;
use super::plan_state::PlanState;
use protocol::{Answer, Command, CommandError, LatticeRequest, PlanCommand, Rejection};
use std::alloc::Global;
use std::default::Default;

// Plans have the numbers from 1 to this one. specs/Models.antt names the same number for the promises.
const LAST_PLAN: usize = 9;

/// What is kept between two commands: the current chart, if there is one, and the state of each plan by its number, from 1 to 9.
#[derive(Drop)]
pub struct Session {
    alloc: Global,
    current_chart: Option<CurrentChart>,
    plans: [PlanState; LAST_PLAN],
    ghost numbered: { length plans ≡ last_plan },
}

// The place of the plan of a number, if there is one.
fn place_of(plan: u16) -> Option<usize>
    ensures { MatchOption result (IsPlanNumber plan → ⊥) (λ place. IsPlanNumber plan × (place ≡ plan - 1)) }
{
    let place = (plan as usize).checked_sub(1)?;
    (place < LAST_PLAN).then_some(place)
}

impl Session {
    ghost use Rattle.std.specs.Prelude.{◌⊎◌, OnErr};
    ghost use Rattle.protocol.specs.declared.rejection.Rejection.TheVariants.{Unreadable};
    ghost use Rattle.console.specs.Models.{new_session};
    ghost use Rattle.console.specs.Sessions.{session_of, bytes_of};
    ghost use Rattle.console.specs.Steps.{IsChartStep, IsLatticeStep, IsNameAnswer, StepsPlan, HasNoPlan};
    ghost use Rattle.console.specs.Steps.{DrawsPlan, DrawsNoPlan};
    ghost use Rattle.console.specs.Steps.{IsSessionStep};

    /// No chart, and no plan under any number.
    pub fn new(alloc: Global) -> Session
        ensures { session_of result ≡ new_session }
    {
        Session {
            alloc,
            current_chart: None,
            plans: Default::default(),
        }
    }

    // A file that is not accepted leaves the current chart what it was.
    fn chart<'a>(&mut self, path: &'a str, file: Option<Vec<u8>>) -> Result<Answer, Rejection<'a>>
        ensures { IsChartStep (session_of self.old) (bytes_of file) (Unreadable path.entry) result
            (session_of self.new) }
    {
        let file = file.ok_or(Rejection::Unreadable { path })?;
        let current_chart = CurrentChart::of_file(file)?;
        let counts = current_chart.counts();
        self.current_chart = Some(current_chart);
        Ok(Answer::Chart(counts))
    }

    fn lattice<'a>(&mut self, request: &LatticeRequest) -> Result<Answer, Rejection<'a>>
        ensures { IsLatticeStep (session_of self.old) request.now result (session_of self.new) }
    {
        let current_chart = CurrentChart::of_lattice(request)?;
        let counts = current_chart.counts();
        self.current_chart = Some(current_chart);
        Ok(Answer::Lattice(counts))
    }

    fn name<'a>(&self, fix: u16) -> Result<Answer, Rejection<'a>>
        ensures { IsNameAnswer (session_of self.now).current fix result }
    {
        match &self.current_chart {
            Some(current_chart) => current_chart.name(fix),
            None => Err(Rejection::WrongState),
        }
    }

    // A command of the plan of a number, if there is one.
    fn plan_command<'a>(
        &mut self,
        plan: u16,
        command: &PlanCommand,
    ) -> Result<Answer, Rejection<'a>>
        ensures { StepsPlan (session_of self.old) plan command.now result (session_of self.new)
            ⊎ HasNoPlan (session_of self.old) plan result (session_of self.new) }
    {
        let place = place_of(plan).ok_or(Rejection::WrongState)?;
        self.plans[place].run(plan, command, &self.current_chart)
    }

    // The drawing of the plan of a number, if it is filed.
    fn picture<'a>(&self, plan: u16) -> Result<Answer, CommandError<'a>>
        ensures { DrawsPlan (session_of self.now) plan result ⊎ DrawsNoPlan plan result }
    {
        let place = place_of(plan).ok_or(Rejection::WrongState)?;
        self.plans[place].picture(self.alloc)
    }

    /// Runs one command, and answers it. For a command that names the path of a chart file, `file` has the bytes of that file, and none
    /// where it can't be read; other commands leave it alone. A command that has no answer changes nothing. A picture may have none for
    /// want of memory; no other command asks for memory.
    pub fn run<'a>(
        &mut self,
        command: Command<'a>,
        file: Option<Vec<u8>>,
    ) -> Result<Answer, CommandError<'a>>
        ensures step { IsSessionStep (session_of self.old) command.entry (bytes_of file) result (session_of self.new) }
        ensures not_granted { OnErr result (session_of self.new ≡ session_of self.old) }
    {
        Ok(match command {
            Command::Chart { path } => self.chart(path, file)?,
            Command::Lattice(request) => self.lattice(&request)?,
            Command::Name { fix } => self.name(fix)?,
            Command::Plan { plan, command } => self.plan_command(plan, &command)?,
            Command::Picture { plan, path: _ } => self.picture(plan)?,
        })
    }
}
