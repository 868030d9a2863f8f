// Runs of calls on a filed plan, and why a run is rejected.
ghost use Rattle.std.specs.Prelude.{◌≡◌, ◌+◌, [], ◌∷◌, length, Some, MatchResult, OnOk, OnErr};
ghost use Rattle.std.specs.List.{count_by};
ghost use Rattle.chart.specs.Regret.{EveryRouteHasARegret};
ghost use Rattle.plan.specs.Plans.{chart_of, ledger_of, revision_of};
ghost use Rattle.runs.specs.Histories.{ledger_after_call, ledger_after_calls, HistoriesJoin, HistoriesKeepTheLedger};
ghost use Rattle.runs.specs.RepliesTo.{IsReplyTo};
ghost use Rattle.runs.specs.Law.{grants, HasRoomFor, RunRefused, IsLawfulRun, RunsHaveOneOutcome};

use super::call::Call;
use super::reply::Reply;
use chart::Chart;
use plan::Filed;
use std::error::Error;
use std::fmt;

/// Why a run is rejected: what is too short for its calls. These refusals are the run's own, and have no number.
#[derive(Clone, Copy, Debug, PartialEq, Eq)]
pub enum RunRefusal {
    /// There are fewer replies than calls.
    FewReplies,
    /// The memory has fewer places than the route calls take together.
    ShortMemory,
}

impl fmt::Display for RunRefusal {
    ghost use Rattle.runs.specs.Law.{run_words};

    ghost output = { λ refusal. Some (run_words refusal) };

    fn fmt<W: fmt::Write>(&self, f: &mut fmt::Formatter<W>) -> fmt::Result {
        f.write_str(match self {
            RunRefusal::FewReplies => "fewer replies than calls",
            RunRefusal::ShortMemory => "fewer places of memory than the route calls take",
        })
    }
}

impl Error for RunRefusal {}

// Whether the calls have so many replies and so many places of memory.
pub(crate) fn check_room(
    calls: &[Call<'_>],
    replies: usize,
    memory: usize,
) -> Result<(), RunRefusal>
    ensures { MatchResult result
        (λ _. HasRoomFor calls.now replies memory)
        (λ e. RunRefused calls.now replies memory e) }
{
    if replies < calls.len() {
        return Err(RunRefusal::FewReplies);
    }
    let mut left = memory;
    for call in calls {
        left = left
            .checked_sub(call.places())
            .ok_or(RunRefusal::ShortMemory)?;
    }
    Ok(())
}

// Executes one call, which has this part of the memory.
fn execute<C: Chart>(plan: &mut Filed<C>, call: &Call<'_>, part: &mut [u16]) -> Reply
    ensures is_reply { IsReplyTo (C.fixes (chart_of plan.old)) (ledger_of C.legs plan.old)
        call.now result part.old part.new }
    ensures ledger { ledger_of C.legs plan.new
        ≡ ledger_after_call (C.legs (chart_of plan.old)) (ledger_of C.legs plan.old) call.now }
    ensures counted { revision_of plan.new ≡ revision_of plan.old + count_by grants (result ∷ []) }
    ensures chart { chart_of plan.new ≡ chart_of plan.old }
{
    match *call {
        Call::Amend(amendment) => Reply::Amend(plan.amend(amendment)),
        Call::Route { .. } => Reply::Route(plan.route(part)),
        Call::Regret(list) => Reply::Regret(plan.regret(list)),
        Call::Floor(chain) => Reply::Floor(plan.floor(chain)),
        Call::Quickest => Reply::Quickest(plan.quickest()),
        Call::Level => Reply::Level(plan.level()),
        Call::Status => Reply::Status(plan.status()),
    }
}

/// Executes the calls in their order, each with its reply. Each route call takes the next places of the memory, as many as it
/// says; replies and places beyond those that the calls take keep what they held. The run is rejected where there are fewer
/// replies than calls, and else where the memory has too few places; no call is then executed, and the plan, the replies and the
/// memory stay what they were.
#[tactic(auto, using(crate::proofs::LedgerKept::histories_join, crate::proofs::LedgerKept::histories_keep_the_ledger, regret::proofs::EveryRouteHasRegret::every_route_has_a_regret))]
pub fn run<C: Chart>(
    plan: &mut Filed<C>,
    calls: &[Call<'_>],
    replies: &mut [Reply],
    memory: &mut [u16],
) -> Result<(), RunRefusal>
    ensures law { MatchResult result
        (λ _. IsLawfulRun C.fixes C.legs (chart_of plan.old) (ledger_of C.legs plan.old)
        calls.now replies.old replies.new memory.old memory.new plan.new)
        (λ e. RunRefused calls.now (length replies.old) (length memory.old) e) }
    ensures as_a_chart { OnOk result
        ((⟦<Filed<C> as Chart>⟧.fixes plan.new ≡ C.fixes (chart_of plan.old))
        × (⟦<Filed<C> as Chart>⟧.legs plan.new
        ≡ (ledger_after_calls (C.legs (chart_of plan.old)) (ledger_of C.legs plan.old) calls.now).legs)) }
    ensures histories_join { HistoriesJoin }
    ensures every_history_keeps_the_ledger { HistoriesKeepTheLedger }
    ensures every_route_has_a_regret { EveryRouteHasARegret }
    ensures one_outcome { RunsHaveOneOutcome }
    ensures refused { OnErr result
        ((plan.new ≡ plan.old) × (replies.new ≡ replies.old) × (memory.new ≡ memory.old)) }
{
    check_room(calls, replies.len(), memory.len())?;
    let mut used = 0;
    for (i, call) in calls.iter().enumerate() {
        let places = call.places();
        replies[i] = execute(plan, call, &mut memory[used..used + places]);
        used += places;
    }
    Ok(())
}
