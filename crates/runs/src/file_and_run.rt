// A draft that is filed and then runs its calls.
ghost use Rattle.std.specs.Prelude.{◌≡◌, length, MatchResult, IfOk, OnErr};
ghost use Rattle.chart.specs.Regret.{EveryRouteHasARegret};
ghost use Rattle.plan.specs.Ledgers.{at_filing};
ghost use Rattle.plan.specs.Plans.{chart_of_draft, ends_of_draft};
ghost use Rattle.runs.specs.Histories.{ledger_after_calls, HistoriesJoin, HistoriesKeepTheLedger};
ghost use Rattle.runs.specs.Law.{RunRefused, IsLawfulRun, IsRunFromFiling, RunsHaveOneOutcome};

use super::call::Call;
use super::reply::Reply;
use super::run::{RunRefusal, check_room, run};
use chart::Chart;
use plan::{Draft, Filed};

/// A draft that is not filed since its calls cannot be executed.
#[derive(Drop)]
pub struct RunRejected<C> {
    /// The draft, as it was.
    pub draft: Draft<C>,
    /// What is too short for the calls.
    pub refusal: RunRefusal,
}

/// Files the draft and executes the calls in their order, as `run` does. Where there are fewer replies than calls, and else where
/// the memory has too few places, the draft is not filed and comes back as it was; the replies and the memory stay what they were.
#[tactic(auto, using(crate::proofs::LedgerKept::histories_join, crate::proofs::LedgerKept::histories_keep_the_ledger, regret::proofs::EveryRouteHasRegret::every_route_has_a_regret))]
pub fn file_and_run<C: Chart>(
    draft: Draft<C>,
    calls: &[Call<'_>],
    replies: &mut [Reply],
    memory: &mut [u16],
) -> Result<Filed<C>, RunRejected<C>>
    ensures law { MatchResult result
        (λ plan. IsLawfulRun C.fixes C.legs (chart_of_draft draft)
        (at_filing (C.legs (chart_of_draft draft)) (ends_of_draft draft))
        calls.now replies.old replies.new memory.old memory.new plan)
        (λ e. (e.draft ≡ draft) × RunRefused calls.now (length replies.old) (length memory.old) e.refusal) }
    ensures from_filing { IfOk result
        (λ plan. IsRunFromFiling C.legs (chart_of_draft draft) (ends_of_draft draft) calls.now plan) }
    ensures as_a_chart { IfOk result (λ plan.
        (⟦<Filed<C> as Chart>⟧.fixes plan ≡ C.fixes (chart_of_draft draft))
        × (⟦<Filed<C> as Chart>⟧.legs plan
        ≡ (ledger_after_calls (C.legs (chart_of_draft draft))
        (at_filing (C.legs (chart_of_draft draft)) (ends_of_draft draft)) calls.now).legs)) }
    ensures histories_join { HistoriesJoin }
    ensures every_history_keeps_the_ledger { HistoriesKeepTheLedger }
    ensures every_route_has_a_regret { EveryRouteHasARegret }
    ensures one_outcome { RunsHaveOneOutcome }
    ensures refused { OnErr result ((replies.new ≡ replies.old) × (memory.new ≡ memory.old)) }
{
    if let Err(refusal) = check_room(calls, replies.len(), memory.len()) {
        return Err(RunRejected { draft, refusal });
    }
    let mut plan = draft.file();
    run(&mut plan, calls, replies, memory).unwrap();
    Ok(plan)
}
