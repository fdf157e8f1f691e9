//! What is answered of a run with the stated addresses.

ghost use Rattle.std.specs.Prelude.{IfErr, IfOk};
ghost use Rattle.witx_bytes.specs.Seen.{seen};
ghost use Rattle.witx_run.specs.OutcomeViews.{run_of};
ghost use Rattle.witx_call.specs.{PlacementViews.{room_of}, WordViews.{word_view}};
ghost use Rattle.witx_invoke.specs.Answering.{EndsSeen, HasNoRoom};

use crate::error::InvokeError;
use std::alloc::Global;
use witx_bytes::Value;
use witx_call::{Invoked, Placement, Word, outcome_seen};
use witx_run::Run;

/// What is seen of the call, once its run has ended; else there is no room.
#[tactic(auto, using(witx_call::proofs::AnswerLemmas::answer_rules))]
pub(crate) fn answer(
    alloc: Global,
    run: Run<Value, Word, Placement>,
) -> Result<Invoked, InvokeError>
    ensures seen { IfOk result (EndsSeen (run_of seen word_view room_of run)) }
    ensures refused { IfErr result (HasNoRoom (run_of seen word_view room_of run)) }
{
    match run {
        Run::Ended(outcome) => Ok(outcome_seen(alloc, outcome)?),
        Run::StuckInCaller(_) => Err(InvokeError::NoRoom),
        Run::StuckInCallee(_) => Err(InvokeError::NoRoom),
    }
}
