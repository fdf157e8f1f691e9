//! The turns that set blocks aside, run them and leave them.

ghost use Rattle.std.specs.Prelude.{◌≡◌, ◌<◌, ◌≤◌, ◌-◌, ◌+◌, ◌∷◌, ◌++◌, [], suc, length, Some, cond, IfOk, MatchOption, option_map, Bool, true, false};
ghost use Rattle.witx_machine.specs.{Events.{push}, Machine.{block_word, payload_item, went}};
ghost use Rattle.witx_machine.specs.Rows.{result_lower, result_lift};
ghost use Rattle.witx_run.specs.Views.{item_of, picked_of, stack_of, type_tree};
ghost use Rattle.witx_run.specs.{BlockTurns.{GoesInside, SetsAside}, LeftOver.{left_item, left_row}};
ghost use Rattle.witx_run.specs.{MachineViews.{Setting, state_in}, Nearing.{Falls}, RowEnds.{Makes}};
ghost use Rattle.witx_run.specs.ScriptParts.{event_below};
ghost use Rattle.witx_run.specs.Turns.{ComesTo, FramesFit, TurnsHere, script_events, leaving, lifting_by, lowering_by, turned, whole_at, whole_behind, whole_with};

use crate::cases::has_cases;
use crate::domain::{Domain, Picked};
use crate::frame::Frame;
use crate::item::Item;
use crate::machine::{Block, Inside};
use crate::progress::{ProgressOf, Stop, Turn, settle};
use crate::script::ScriptOf;
use crate::stack::{Stack, pop_value, pop_word, push_value, push_word};
use std::alloc::Global;
use std::mem::replace;
use witx_ast::TypeRef;
use witx_base::OutOfMemory;
use witx_machine::WasmType;

/// The types that the two cases of a result carry.
#[derive(Drop)]
pub(crate) struct Cases<'a> {
    pub(crate) ok: Option<&'a TypeRef>,
    pub(crate) err: Option<&'a TypeRef>,
}

/// A result step as it runs a block: which step and which case it is, and the block.
#[derive(Drop)]
struct ResultStep {
    lowers: bool,
    error: bool,
    block: Block,
}

/// A push sets its block aside, and the trace goes on behind it.
pub(crate) fn set_aside<'a, D: Domain>(
    progress: &mut ProgressOf<D>,
    script: &ScriptOf<'a, D>,
) -> Result<Turn<'a>, OutOfMemory>
    requires { event_below (script_events script.now) progress.old.at progress.old.end ≡ Some push }
    ensures comes { IfOk result (SetsAside D.Domain script.now progress.old progress.new) }
    ensures falls { IfOk result (λ turn. Falls 0 progress.old progress.new turn) }
    ensures frames { IfOk result (λ _. progress.new.frames ≡ progress.old.frames) }
    ensures here { IfOk result (λ turn. TurnsHere progress.new turn) }
{
    match script.block_at(progress.at, progress.end) {
        Some(block) => {
            progress.at = block.end + 1;
            progress.machine.blocks.push(block)?;
            Ok(Turn::Advances)
        }
        None => Ok(Turn::Stops(Stop::Stuck(progress.at))),
    }
}

/// Runs the block of the case that the value has.
pub(crate) fn lower_result<'a, D: Domain>(
    alloc: Global,
    domain: &D,
    progress: &mut ProgressOf<D>,
    script: &ScriptOf<'a, D>,
    cases: Cases<'_>,
) -> Result<Turn<'a>, OutOfMemory>
    requires here { progress.old.at < progress.old.end }
    requires deep { FramesFit script.now progress.old }
    ensures comes { IfOk result (λ turn. (called : Bool) →
        ComesTo (D.domain domain.now) D.value_of D.word_of D.memory_of script.now called
        (λ x es. whole_at (D.domain domain.now) D.value_of D.word_of D.memory_of x es progress.old
        (result_lower (type_tree cases.entry.ok) (type_tree cases.entry.err))) progress.new turn) }
    ensures falls { IfOk result (λ turn. Falls 0 progress.old progress.new turn) }
    ensures deep { IfOk result (λ _. FramesFit script.now progress.new) }
    ensures here { IfOk result (λ turn. TurnsHere progress.new turn) }
{
    if !has_cases(script.func.results.as_slice(), cases.ok, cases.err) {
        return Ok(Turn::Stops(Stop::Stuck(progress.at)));
    }
    match pop_value::<D>(&mut progress.machine.stack) {
        Some(value) => lower_value(alloc, domain, progress, script, cases, value),
        None => Ok(Turn::Stops(Stop::Stuck(progress.at))),
    }
}

fn lower_value<'a, D: Domain>(
    alloc: Global,
    domain: &D,
    progress: &mut ProgressOf<D>,
    script: &ScriptOf<'a, D>,
    cases: Cases<'_>,
    value: D::Value,
) -> Result<Turn<'a>, OutOfMemory>
    requires here { progress.old.at < progress.old.end }
    requires deep { FramesFit script.now progress.old }
    ensures comes { IfOk result (λ turn. (x : Setting D.V D.W D.M) →
        whole_behind (D.domain domain.now) D.value_of D.word_of D.memory_of x (script_events script.now) progress.old
        (lowering_by (D.domain domain.now) D.value_of D.word_of D.memory_of x (script_events script.now) progress.old
        (type_tree cases.entry.ok) (type_tree cases.entry.err) (D.value_of value)
        (stack_of D.value_of D.word_of progress.old.machine.stack.items)
        (state_in D.value_of D.word_of D.memory_of x (script_events script.now) progress.old.machine))
        ≡ turned (D.domain domain.now) D.value_of D.word_of D.memory_of x (script_events script.now) progress.new turn) }
    ensures falls { IfOk result (λ turn. Falls 0 progress.old progress.new turn) }
    ensures deep { IfOk result (λ _. FramesFit script.now progress.new) }
    ensures here { IfOk result (λ turn. TurnsHere progress.new turn) }
{
    let Some((first, second)) = last_two(&mut progress.machine.blocks) else {
        drop(value);
        return Ok(Turn::Stops(Stop::Stuck(progress.at)));
    };
    match domain.picks(cases.ok, cases.err, value)? {
        Some(picked) => {
            let error = picked.error;
            let inside = Inside::Lower(payload_item::<D>(picked));
            let block = chosen(error, first, second);
            let step = ResultStep {
                lowers: true,
                error,
                block,
            };
            enter::<D>(alloc, progress, script, inside, step)
        }
        None => Ok(Turn::Stops(Stop::Stuck(progress.at))),
    }
}

/// Runs the block of the case that the word stands for.
pub(crate) fn lift_result<'a, D: Domain>(
    alloc: Global,
    domain: &D,
    progress: &mut ProgressOf<D>,
    script: &ScriptOf<'a, D>,
) -> Result<Turn<'a>, OutOfMemory>
    requires here { progress.old.at < progress.old.end }
    requires deep { FramesFit script.now progress.old }
    ensures comes { IfOk result (λ turn. (x : Setting D.V D.W D.M) →
        whole_at (D.domain domain.now) D.value_of D.word_of D.memory_of x (script_events script.now) progress.old
        result_lift
        ≡ turned (D.domain domain.now) D.value_of D.word_of D.memory_of x (script_events script.now) progress.new turn) }
    ensures falls { IfOk result (λ turn. Falls 0 progress.old progress.new turn) }
    ensures deep { IfOk result (λ _. FramesFit script.now progress.new) }
    ensures here { IfOk result (λ turn. TurnsHere progress.new turn) }
{
    match pop_word::<D>(&mut progress.machine.stack) {
        Some(word) => lift_word(alloc, domain, progress, script, word),
        None => Ok(Turn::Stops(Stop::Stuck(progress.at))),
    }
}

fn lift_word<'a, D: Domain>(
    alloc: Global,
    domain: &D,
    progress: &mut ProgressOf<D>,
    script: &ScriptOf<'a, D>,
    word: D::Word,
) -> Result<Turn<'a>, OutOfMemory>
    requires here { progress.old.at < progress.old.end }
    requires deep { FramesFit script.now progress.old }
    ensures comes { IfOk result (λ turn. (x : Setting D.V D.W D.M) →
        whole_behind (D.domain domain.now) D.value_of D.word_of D.memory_of x (script_events script.now) progress.old
        (lifting_by (D.domain domain.now) D.value_of D.word_of D.memory_of x (script_events script.now) progress.old
        (D.word_of word)
        (stack_of D.value_of D.word_of progress.old.machine.stack.items)
        (state_in D.value_of D.word_of D.memory_of x (script_events script.now) progress.old.machine))
        ≡ turned (D.domain domain.now) D.value_of D.word_of D.memory_of x (script_events script.now) progress.new turn) }
    ensures falls { IfOk result (λ turn. Falls 0 progress.old progress.new turn) }
    ensures deep { IfOk result (λ _. FramesFit script.now progress.new) }
    ensures here { IfOk result (λ turn. TurnsHere progress.new turn) }
{
    let Some((first, second)) = last_two(&mut progress.machine.blocks) else {
        drop(word);
        return Ok(Turn::Stops(Stop::Stuck(progress.at)));
    };
    let choice = domain.chooses(&word);
    drop(word);
    match choice {
        Some(error) => {
            let block = chosen(error, first, second);
            let step = ResultStep {
                lowers: false,
                error,
                block,
            };
            enter::<D>(alloc, progress, script, Inside::Lift, step)
        }
        None => Ok(Turn::Stops(Stop::Stuck(progress.at))),
    }
}

/// Goes into a block, on an empty stack of its own.
fn enter<'a, D: Domain>(
    alloc: Global,
    progress: &mut ProgressOf<D>,
    script: &ScriptOf<'a, D>,
    inside: Inside<D::Value, D::Word>,
    step: ResultStep,
) -> Result<Turn<'a>, OutOfMemory>
    requires here { progress.old.at < progress.old.end }
    requires deep { FramesFit script.now progress.old }
    ensures comes { IfOk result (GoesInside D.Domain script.now progress.old progress.new
        inside step.lowers step.error step.block) }
    ensures falls { IfOk result (λ turn. Falls (suc (step.block.end - step.block.first)) progress.old progress.new turn) }
    ensures deep { IfOk result (λ _. FramesFit script.now progress.new) }
    ensures here { IfOk result (λ turn. TurnsHere progress.new turn) }
{
    if progress.frames.len() >= script.events.len() {
        drop(inside);
        return Ok(Turn::Stops(Stop::Stuck(progress.at)));
    }
    let frame = Frame {
        inside: replace(&mut progress.inside, inside),
        at: progress.at,
        end: progress.end,
        below: replace(&mut progress.machine.stack, Vec::new(alloc)),
        lowers: step.lowers,
        error: step.error,
        has_value: step.block.has_value,
        finish: step.block.end,
    };
    progress.frames.push(frame)?;
    progress.at = step.block.first;
    progress.end = step.block.end;
    Ok(Turn::Advances)
}

/// Behind the last event of a block goes back to the step that runs it, or the trace is over.
pub(crate) fn leave<'a, D: Domain>(
    alloc: Global,
    domain: &D,
    progress: &mut ProgressOf<D>,
    script: &ScriptOf<'a, D>,
) -> Result<Turn<'a>, OutOfMemory>
    requires deep { FramesFit script.now progress.old }
    ensures comes { IfOk result (λ turn. (x : Setting D.V D.W D.M) →
        whole_with (D.domain domain.now) D.value_of D.word_of D.memory_of x (script_events script.now) progress.old
        (went (state_in D.value_of D.word_of D.memory_of x (script_events script.now) progress.old.machine))
        ≡ turned (D.domain domain.now) D.value_of D.word_of D.memory_of x (script_events script.now) progress.new turn) }
    ensures falls { IfOk result (λ turn. Falls 0 progress.old progress.new turn) }
    ensures deep { IfOk result (λ _. FramesFit script.now progress.new) }
    ensures here { IfOk result (λ turn. TurnsHere progress.new turn) }
{
    match progress.frames.pop() {
        Some(frame) => leave_block(alloc, domain, progress, script, frame),
        None => Ok(Turn::Stops(Stop::Over)),
    }
}

fn leave_block<'a, D: Domain>(
    alloc: Global,
    domain: &D,
    progress: &mut ProgressOf<D>,
    script: &ScriptOf<'a, D>,
    frame: Frame<D::Value, D::Word>,
) -> Result<Turn<'a>, OutOfMemory>
    requires deep { suc (length progress.old.frames.items) ≤ length script.now.events.now }
    ensures comes { IfOk result (λ turn. (x : Setting D.V D.W D.M) →
        leaving (D.domain domain.now) D.value_of D.word_of D.memory_of x (script_events script.now) progress.old frame
        ≡ turned (D.domain domain.now) D.value_of D.word_of D.memory_of x (script_events script.now) progress.new turn) }
    ensures falls { IfOk result (λ turn. Falls (frame.end - frame.at) progress.old progress.new turn) }
    ensures frames { IfOk result (λ _. progress.new.frames ≡ progress.old.frames) }
    ensures here { IfOk result (λ turn. TurnsHere progress.new turn) }
{
    let Some(left) = left_over::<D>(&mut progress.machine.stack, frame.has_value) else {
        let finish = frame.finish;
        drop(frame);
        return Ok(Turn::Stops(Stop::Stuck(finish)));
    };
    let lowers = frame.lowers;
    let error = frame.error;
    progress.at = frame.at;
    progress.end = frame.end;
    drop(replace(&mut progress.inside, frame.inside));
    drop(replace(&mut progress.machine.stack, frame.below));
    let went = push_left(domain, &mut progress.machine.stack, lowers, error, left)?;
    Ok(settle::<D>(progress, script, went))
}

/// The two blocks set aside last, taken off, the earlier one first.
fn last_two(blocks: &mut Vec<Block>) -> Option<(Block, Block)>
    ensures { MatchOption result (length blocks.old.items < 2)
        (λ p. blocks.old.items ≡ (blocks.new.items ++ p.0 ∷ []) ++ p.1 ∷ []) }
{
    if blocks.len() < 2 {
        return None;
    }
    match (blocks.pop(), blocks.pop()) {
        (Some(second), Some(first)) => Some((first, second)),
        _ => None,
    }
}

/// The block of a case.
fn chosen(error: bool, first: Block, second: Block) -> Block
    ensures { result ≡ cond error second first }
{
    if error { second } else { first }
}

/// What the case carries, as it lies on a stack.
fn payload_item<D: Domain>(picked: Picked<D::Value>) -> Option<Item<D::Value, D::Word>>
    ensures { option_map (item_of D.value_of D.word_of) result ≡ payload_item (picked_of D.value_of picked).1 }
{
    match picked.payload {
        Some((value, name)) => Some(Item::Value { value, name }),
        None => None,
    }
}

/// What a block leaves: one item where its finish has a value, else none; not where anything else lies there.
fn left_over<D: Domain>(
    stack: &mut Stack<D>,
    has_value: bool,
) -> Option<Option<Item<D::Value, D::Word>>>
    ensures { option_map (option_map (item_of D.value_of D.word_of)) result
        ≡ left_item has_value (stack_of D.value_of D.word_of stack.old.items) }
{
    if !has_value {
        return if stack.is_empty() { Some(None) } else { None };
    }
    match stack.pop() {
        Some(item) => alone::<D>(stack, item),
        None => None,
    }
}

fn alone<D: Domain>(
    below: &[Item<D::Value, D::Word>],
    item: Item<D::Value, D::Word>,
) -> Option<Option<Item<D::Value, D::Word>>>
    ensures { option_map (option_map (item_of D.value_of D.word_of)) result
        ≡ left_item true (item_of D.value_of D.word_of item ∷ stack_of D.value_of D.word_of below.now) }
{
    if below.is_empty() {
        Some(Some(item))
    } else {
        drop(item);
        None
    }
}

/// Pushes what a step makes of what its block left; or the step has no rule.
fn push_left<D: Domain>(
    domain: &D,
    stack: &mut Stack<D>,
    lowers: bool,
    error: bool,
    left: Option<Item<D::Value, D::Word>>,
) -> Result<bool, OutOfMemory>
    ensures { IfOk result (Makes D.Domain stack.old stack.new
        (left_row (D.domain domain.now) lowers error (option_map (item_of D.value_of D.word_of) left))) }
{
    if lowers {
        push_word::<D>(stack, block_word(domain, error, left))
    } else {
        push_result(domain, stack, error, left)
    }
}

fn push_result<D: Domain>(
    domain: &D,
    stack: &mut Stack<D>,
    error: bool,
    left: Option<Item<D::Value, D::Word>>,
) -> Result<bool, OutOfMemory>
    ensures { IfOk result (Makes D.Domain stack.old stack.new
        (left_row (D.domain domain.now) false error (option_map (item_of D.value_of D.word_of) left))) }
{
    match left {
        None => {
            let result = domain.result(error, None)?;
            push_value::<D>(stack, Some(result))
        }
        Some(Item::Value { value, name: _ }) => {
            let result = domain.result(error, Some(value))?;
            push_value::<D>(stack, Some(result))
        }
        Some(Item::Word(_)) => Ok(false),
    }
}

/// The word that result_lower pushes.
fn block_word<D: Domain>(
    domain: &D,
    error: bool,
    left: Option<Item<D::Value, D::Word>>,
) -> Option<D::Word>
    ensures { option_map D.word_of result
        ≡ block_word (D.domain domain.now) error (option_map (item_of D.value_of D.word_of) left) }
{
    match left {
        None => Some(domain.case_word(error)),
        Some(Item::Word(word)) => {
            if domain.has_type(WasmType::I32, &word) {
                Some(word)
            } else {
                None
            }
        }
        Some(Item::Value { value: _, name: _ }) => None,
    }
}
