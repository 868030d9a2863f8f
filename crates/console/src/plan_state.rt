// Plans by number, each in its state, and the calls of those that are filed.
ghost use Rattle.std.specs.Prelude.{◌≡◌, ◌≤◌, length};
ghost use Rattle.chart.specs.Limits.{max_fixes};
ghost use Rattle.search.specs.Snapshots.{snapshot_fixes, snapshot_legs};
ghost use Rattle.plan.specs.Plans.{chart_of, ledger_of};
ghost use Rattle.runs.specs.Histories.{call_places, ledger_after_call};
ghost use Rattle.runs.specs.RepliesTo.{IsReplyTo};
ghost use Rattle.protocol.specs.declared.reply_line.Answer.TheVariants as answer;
ghost use Rattle.console.specs.declared.plan_state.PlanState.TheVariants.{Vacant};
ghost use Rattle.console.specs.Models.{filed};
ghost use Rattle.console.specs.Sessions.{chart_model, current_if_any, plan_model};
ghost use Rattle.console.specs.Calls.{IsOutOfTurn, IsCallOf, answer_of};
ghost use Rattle.console.specs.Steps.{Becomes, drafted_from, filed_from, closed_from, IsEndsStep};
ghost use Rattle.console.specs.Steps.{AnswersCall, IsCallStep, IsPlanStep, IsPictureOf};

use super::current_chart::CurrentChart;
use arrayvec::ArrayVec;
use chart::limits::MAX_FIXES;
use chart::{Ends, most_legs};
use picture::{Drawing, svg_of};
use plan::{BestRefusal, Closed, Draft, Filed};
use protocol::{Answer, AnyRefusal, CommandError, PlanCall, PlanCommand, Rejection};
use runs::run::run;
use runs::{Call, Reply};
use search::Snapshot;
use std::alloc::{AllocError, Global};
use std::default::Default;
use std::mem;

// The call as a run takes it, on a plan whose routes have `most` legs at most.
fn as_call(call: &PlanCall, most: u16) -> Call<'_>
    ensures asked { IsCallOf call.now most result }
    ensures places { call_places result ≤ most }
{
    match call {
        PlanCall::Amend(amendment) => Call::Amend(*amendment),
        PlanCall::Route { places } => Call::Route {
            places: places.unwrap_or(most).min(most) as usize,
        },
        PlanCall::Regret(list) => Call::Regret(list.as_slice()),
        PlanCall::Floor(chain) => Call::Floor(chain.as_slice()),
        PlanCall::Quickest => Call::Quickest,
        PlanCall::Level => Call::Level,
        PlanCall::Status => Call::Status,
    }
}

// What the reply of a run answers, with the legs of a route from the memory.
fn answer_of<'a>(reply: Reply, memory: &[u16]) -> Result<Answer, Rejection<'a>>
    requires { length memory.now ≤ max_fixes }
    ensures { result ≡ answer_of reply memory.now }
{
    Ok(match reply {
        Reply::Amend(answer) => Answer::Amend {
            revision: answer.map_err(AnyRefusal::Amend)?,
        },
        Reply::Route(answer) => {
            let found = answer.map_err(AnyRefusal::Route)?;
            let legs = memory.get(..found.legs as usize).unwrap_or(memory);
            Answer::Route {
                regret: found.regret,
                legs: ArrayVec::try_from(legs).unwrap(),
            }
        }
        Reply::Regret(answer) => Answer::Regret(answer.map_err(AnyRefusal::Regret)?),
        Reply::Floor(answer) => Answer::Floor(answer.map_err(AnyRefusal::Floor)?),
        Reply::Quickest(answer) => Answer::Quickest(answer.map_err(AnyRefusal::Best)?),
        Reply::Level(answer) => Answer::Level(answer.map_err(AnyRefusal::Best)?),
        Reply::Status(status) => Answer::Status(status),
    })
}

// The reply of a filed plan to one call: that of a run of this call alone.
#[tactic(auto, unfolding(runs::specs::Histories::ledger_after_calls))]
fn reply_to(plan: &mut Filed<Snapshot>, call: Call<'_>, memory: &mut [u16]) -> Reply
    requires room { length memory.old ≡ call_places call }
    ensures is_reply_to_call { IsReplyTo (snapshot_fixes plan.old.chart) (ledger_of snapshot_legs plan.old)
        call.entry result memory.old memory.new }
    ensures ledger { ledger_of snapshot_legs plan.new
        ≡ ledger_after_call (snapshot_legs plan.old.chart) (ledger_of snapshot_legs plan.old) call.entry }
    ensures chart { plan.new.chart ≡ plan.old.chart }
{
    let mut replies = [Reply::Level(Err(BestRefusal::NoRoute))];
    run(plan, &[call], &mut replies, memory).unwrap();
    replies[0]
}

// Makes one call of a filed plan, which is lent as many places of memory as it takes.
fn make_call<'a>(plan: &mut Filed<Snapshot>, call: &PlanCall) -> Result<Answer, Rejection<'a>>
    ensures { AnswersCall (chart_model (chart_of plan.old)) (ledger_of snapshot_legs plan.old) call.now result
        (filed (chart_model (chart_of plan.new)) (ledger_of snapshot_legs plan.new)) }
{
    let call = as_call(call, most_legs(plan));
    let mut memory = [0; MAX_FIXES];
    let lent = &mut memory[..call.places()];
    let reply = reply_to(plan, call, lent);
    answer_of(reply, lent)
}

// A drawing of the chart of a filed plan, with its route of least regret if it has one.
fn draw(alloc: Global, plan: &Filed<Snapshot>) -> Result<String, AllocError> {
    let mut memory = [0; MAX_FIXES];
    let legs = plan.route(&mut memory).map_or(0, |found| found.legs);
    let drawing = Drawing {
        ends: plan.status().ends,
        route: memory.get(..legs as usize).unwrap_or(&[]),
        names: &[],
    };
    svg_of(alloc, plan, &drawing)
}

// What is known of the plan of one number.
#[derive(Drop)]
pub(crate) enum PlanState {
    Vacant,
    Draft(Draft<Snapshot>),
    Filed(Filed<Snapshot>),
    Closed(Closed<Snapshot>),
}

impl Default for PlanState {
    ghost is_default = { λ plan. plan ≡ Vacant };

    fn default() -> PlanState {
        PlanState::Vacant
    }
}

impl PlanState {
    // Runs a command of the plan, which has this number.
    pub(crate) fn run<'a>(
        &mut self,
        plan: u16,
        command: &PlanCommand,
        current_chart: &Option<CurrentChart>,
    ) -> Result<Answer, Rejection<'a>>
        ensures { IsPlanStep (current_if_any current_chart.now) plan command.now
            (plan_model self.old) result (plan_model self.new) }
    {
        match command {
            PlanCommand::Draft => self.draft(plan, current_chart),
            PlanCommand::Ends(ends) => self.ends(*ends),
            PlanCommand::File => self.file(),
            PlanCommand::Call(call) => self.call(call),
            PlanCommand::Close => self.close(),
        }
    }

    // A number is drafted, unless it has a draft or a filed plan; none says that there is no current chart.
    pub(crate) fn draft<'a>(
        &mut self,
        plan: u16,
        current_chart: &Option<CurrentChart>,
    ) -> Result<Answer, Rejection<'a>>
        ensures { Becomes (drafted_from (current_if_any current_chart.now) (plan_model self.old)) (answer.Draft plan)
            (plan_model self.old) result (plan_model self.new) }
    {
        match (current_chart, &*self) {
            (Some(current_chart), PlanState::Vacant | PlanState::Closed(_)) => {
                *self = PlanState::Draft(Draft::new(Snapshot::of(&current_chart.chart)));
                Ok(Answer::Draft { plan })
            }
            _ => Err(Rejection::WrongState),
        }
    }

    // Sets the ends of a draft.
    pub(crate) fn ends<'a>(&mut self, ends: Ends) -> Result<Answer, Rejection<'a>>
        ensures { IsEndsStep ends (plan_model self.old) result (plan_model self.new) }
    {
        let PlanState::Draft(draft) = self else {
            return Err(Rejection::WrongState);
        };
        draft.ends(ends.from, ends.to).map_err(AnyRefusal::Ends)?;
        Ok(Answer::Ends(ends))
    }

    // Files a draft.
    pub(crate) fn file<'a>(&mut self) -> Result<Answer, Rejection<'a>>
        ensures { Becomes (filed_from (plan_model self.old)) (answer.File 0)
            (plan_model self.old) result (plan_model self.new) }
    {
        match mem::take(self) {
            PlanState::Draft(draft) => {
                let filed = draft.file();
                let revision = filed.status().revision;
                *self = PlanState::Filed(filed);
                Ok(Answer::File { revision })
            }
            other => self.keep(other),
        }
    }

    // Closes a filed plan.
    pub(crate) fn close<'a>(&mut self) -> Result<Answer, Rejection<'a>>
        ensures { Becomes (closed_from (plan_model self.old)) answer.Close
            (plan_model self.old) result (plan_model self.new) }
    {
        match mem::take(self) {
            PlanState::Filed(filed) => {
                let (closed, _chart) = filed.close();
                *self = PlanState::Closed(closed);
                Ok(Answer::Close)
            }
            other => self.keep(other),
        }
    }

    // The plan stays as it was, since it is not in the state that the command needs.
    fn keep<'a>(&mut self, state: PlanState) -> Result<Answer, Rejection<'a>>
        ensures kept { self.new ≡ state }
        ensures out_of_turn { IsOutOfTurn result }
    {
        *self = state;
        Err(Rejection::WrongState)
    }

    // Draws a filed plan.
    pub(crate) fn picture<'a>(&self, alloc: Global) -> Result<Answer, CommandError<'a>>
        ensures { IsPictureOf (plan_model self.now) result }
    {
        match self {
            PlanState::Filed(filed) => Ok(Answer::Picture {
                svg: draw(alloc, filed)?,
            }),
            _ => Err(Rejection::WrongState.into()),
        }
    }

    // Makes a call of a filed plan. A closed plan still has its status.
    fn call<'a>(&mut self, call: &PlanCall) -> Result<Answer, Rejection<'a>>
        ensures { IsCallStep call.now (plan_model self.old) result (plan_model self.new) }
    {
        match (self, call) {
            (PlanState::Filed(filed), _) => make_call(filed, call),
            (PlanState::Closed(closed), PlanCall::Status) => Ok(Answer::Status(closed.status())),
            _ => Err(Rejection::WrongState),
        }
    }
}
