//! The two calls of a run: the caller's, which hands words to the callee and takes its words back, and the
//! callee's, of the interface's function.
#![tactic(auto, using(crate::proofs::CallLemmas::call_rules))]

ghost use Rattle.std.specs.Prelude.{◌≡◌, Some, IfOk, map, option_and_then, option_map};
ghost use Rattle.witx_machine.specs.Machine.{pushed, word_item};
ghost use Rattle.witx_machine.specs.Run.{one_word, reply_items, typed, words_in};
ghost use Rattle.witx_machine.specs.Signature.{signature_results};
ghost use Rattle.witx_instructions.specs.Views.{called, param_types};
ghost use Rattle.witx_run.specs.CallViews.{reply_on, reply_row, typed_only, with_reply, words_row, IsAnswered};
ghost use Rattle.witx_run.specs.{RowEnds.{Makes}, SideEnds.{HostHandsOn, HostReplies, HostTakesBack}};
ghost use Rattle.witx_run.specs.Views.{items_of, reply_of, stack_of};

use crate::callee::{Returned, ReturnedOf};
use crate::domain::Domain;
use crate::item::Item;
use crate::machine::MachineOf;
use crate::naming::{CallRow, names_function, names_words};
use crate::outcome::CallMade;
use crate::side::Host;
use crate::sides::{argument_item, word_item};
use crate::stack::{Stack, values_off, words_off};
use std::alloc::Global;
use std::mem::replace;
use witx_ast::{InterfaceFunc, InterfaceFuncParam, TypeRef};
use witx_base::OutOfMemory;
use witx_instructions::{WasmTypes, words_back};
use witx_machine::WasmType;

/// What is known of a call, over a domain.
pub(crate) type CallMadeOf<D> = CallMade<
    <D as Domain>::Value,
    <D as Domain>::Word,
    <D as Domain>::Memory,
>;

impl<'a, D: Domain> Host<'a, D> {
    /// Calls the interface's function in the callee's trace, which hasn't called it yet: takes the values off,
    /// and pushes the reply. Answers the values; none where the call has no rule.
    pub(crate) fn reply_to(
        &self,
        machine: &mut MachineOf<D>,
        func: &InterfaceFunc,
        call: CallRow<'_, TypeRef>,
    ) -> Result<Option<Vec<D::Value>>, OutOfMemory>
        ensures noted { IfOk result (λ noted. HostReplies D.Domain self.now (called func.now) call.entry
            machine.old machine.new noted) }
        ensures answer { machine.new.answer ≡ machine.old.answer }
        ensures blocks { machine.new.blocks ≡ machine.old.blocks }
    {
        if names_function(self.owner, func, &call) {
            reply_on(
                self.alloc,
                self.domain,
                &mut machine.stack,
                func,
                self.reply,
            )
        } else {
            Ok(None)
        }
    }

    /// Takes the words of a call off in the caller's trace, which hasn't made its call yet, where they are words of
    /// the callee's types; none where the call has no rule.
    pub(crate) fn take_words(
        &self,
        machine: &mut MachineOf<D>,
        func: &InterfaceFunc,
        call: CallRow<'_, WasmType>,
    ) -> Result<Option<Vec<D::Word>>, OutOfMemory>
        ensures words { IfOk result (λ words. HostHandsOn D.Domain self.now (called func.now) call.entry
            machine.old machine.new words) }
        ensures answer { machine.new.answer ≡ machine.old.answer }
        ensures blocks { machine.new.blocks ≡ machine.old.blocks }
    {
        if names_words(self.alloc, self.owner, func, &call)? {
            typed_words_off(self.alloc, self.domain, &mut machine.stack, call.params)
        } else {
            Ok(None)
        }
    }

    /// Takes back in the caller's trace what came of the callee's run. None where the items that it gave back aren't
    /// words of the result types: then the call has no rule.
    pub(crate) fn take_back(
        &self,
        machine: &mut MachineOf<D>,
        func: &InterfaceFunc,
        words: Vec<D::Word>,
        returned: ReturnedOf<D>,
    ) -> Result<Option<CallMadeOf<D>>, OutOfMemory>
        ensures made { IfOk result (λ call. HostTakesBack D.Domain self.now (called func.now)
            (map D.word_of words.items) returned machine.old machine.new call) }
        ensures answer { machine.new.answer ≡ machine.old.answer }
        ensures blocks { machine.new.blocks ≡ machine.old.blocks }
    {
        let Returned {
            noted,
            back,
            memory,
        } = returned;
        match typed_words(self.alloc, self.domain, func, back.as_slice())? {
            Some(callee_words) => {
                let call = made_call(self.domain, machine, words, noted, callee_words, memory)?;
                Ok(Some(call))
            }
            None => Ok(None),
        }
    }
}

// The values that the call takes off, where the reply is one that the function has.
fn reply_on<D: Domain>(
    alloc: Global,
    domain: &D,
    stack: &mut Stack<D>,
    func: &InterfaceFunc,
    reply: Option<&D::Value>,
) -> Result<Option<Vec<D::Value>>, OutOfMemory>
    ensures { IfOk result (λ noted.
        option_map (λ vs. (map D.value_of vs.items, stack_of D.value_of D.word_of stack.new.items)) noted
        ≡ reply_row (called func.now) (reply_of D.value_of reply.entry)
        (stack_of D.value_of D.word_of stack.old.items)) }
{
    match values_off::<D>(alloc, stack, func.params.len())? {
        Some(values) => push_reply_for(domain, stack, func.results.as_slice(), reply, values),
        None => Ok(None),
    }
}

fn push_reply_for<D: Domain>(
    domain: &D,
    stack: &mut Stack<D>,
    results: &[InterfaceFuncParam],
    reply: Option<&D::Value>,
    values: Vec<D::Value>,
) -> Result<Option<Vec<D::Value>>, OutOfMemory>
    ensures { IfOk result (λ noted.
        option_map (λ vs. (map D.value_of vs.items, stack_of D.value_of D.word_of stack.new.items)) noted
        ≡ reply_on (reply_items (param_types results.now) (reply_of D.value_of reply.entry))
        (map D.value_of values.items, stack_of D.value_of D.word_of stack.old.items)) }
{
    if push_reply(domain, stack, results, reply)? {
        Ok(Some(values))
    } else {
        Ok(None)
    }
}

/// Pushes the reply as a call of the interface leaves it, and answers whether there is one exactly where the
/// function has a result.
fn push_reply<D: Domain>(
    domain: &D,
    stack: &mut Stack<D>,
    results: &[InterfaceFuncParam],
    reply: Option<&D::Value>,
) -> Result<bool, OutOfMemory>
    ensures { IfOk result (Makes D.Domain stack.old stack.new
        (with_reply (param_types results.now) (reply_of D.value_of reply.entry))) }
{
    match reply {
        Some(value) => push_result(domain, stack, results, value),
        None => Ok(results.is_empty()),
    }
}

fn push_result<D: Domain>(
    domain: &D,
    stack: &mut Stack<D>,
    results: &[InterfaceFuncParam],
    reply: &D::Value,
) -> Result<bool, OutOfMemory>
    ensures { IfOk result (Makes D.Domain stack.old stack.new
        (with_reply (param_types results.now) (Some (D.value_of reply.now)))) }
{
    match results {
        [only] => {
            stack.push(argument_item(domain, &only.tref, reply)?)?;
            Ok(true)
        }
        _ => Ok(false),
    }
}

fn typed_words_off<D: Domain>(
    alloc: Global,
    domain: &D,
    stack: &mut Stack<D>,
    types: &WasmTypes,
) -> Result<Option<Vec<D::Word>>, OutOfMemory>
    ensures { IfOk result (λ words.
        option_map (λ ws. (map D.word_of ws.items, stack_of D.value_of D.word_of stack.new.items)) words
        ≡ words_row (D.domain domain.now) types.now (stack_of D.value_of D.word_of stack.old.items)) }
{
    let Some(words) = words_off::<D>(alloc, stack, types.len())? else {
        return Ok(None);
    };
    Ok(words_of_types(domain, types, words))
}

/// The words, if they are of these types, one for each.
fn words_of_types<D: Domain>(
    domain: &D,
    types: &WasmTypes,
    words: Vec<D::Word>,
) -> Option<Vec<D::Word>>
    ensures { option_map (λ ws. map D.word_of ws.items) result
        ≡ typed_only (D.domain domain.now) types.now (map D.word_of words.items) }
{
    if are_typed(domain, types.as_slice(), words.as_slice()) {
        Some(words)
    } else {
        None
    }
}

/// Whether these are words of these types, one for each.
fn are_typed<D: Domain>(domain: &D, types: &[WasmType], words: &[D::Word]) -> bool
    ensures { result ≡ typed (D.domain domain.now) types.now (map D.word_of words.now) }
{
    if types.len() != words.len() {
        return false;
    }
    for i in 0..types.len() {
        if !domain.has_type(types[i], &words[i]) {
            return false;
        }
    }
    true
}

// The items that came back, where they are words of the result types and nothing else.
fn typed_words<D: Domain>(
    alloc: Global,
    domain: &D,
    func: &InterfaceFunc,
    back: &[Item<D::Value, D::Word>],
) -> Result<Option<Vec<D::Word>>, OutOfMemory>
    ensures { IfOk result (λ words. option_map (λ ws. map D.word_of ws.items) words
        ≡ option_and_then (typed_only (D.domain domain.now) (signature_results (called func.now)))
        (words_in (items_of D.value_of D.word_of back.now))) }
{
    match only_words(alloc, domain, back)? {
        Some(words) => Ok(words_of_types(domain, &words_back(alloc, func)?, words)),
        None => Ok(None),
    }
}

/// The words that these items are; none where there is a value among them.
fn only_words<D: Domain>(
    alloc: Global,
    domain: &D,
    items: &[Item<D::Value, D::Word>],
) -> Result<Option<Vec<D::Word>>, OutOfMemory>
    ensures { IfOk result (λ words. option_map (λ ws. map D.word_of ws.items) words
        ≡ words_in (items_of D.value_of D.word_of items.now)) }
{
    let mut words = Vec::new(alloc);
    for item in items {
        let Item::Word(word) = item else {
            return Ok(None);
        };
        words.push(domain.copy_word(word)?)?;
    }
    Ok(Some(words))
}

fn made_call<D: Domain>(
    domain: &D,
    machine: &mut MachineOf<D>,
    words: Vec<D::Word>,
    noted: Vec<D::Value>,
    callee_words: Vec<D::Word>,
    at_return: D::Memory,
) -> Result<CallMadeOf<D>, OutOfMemory>
    ensures made { IfOk result (λ call. IsAnswered (D.domain domain.now) D.value_of D.word_of D.memory_of
        (map D.word_of words.items) (map D.value_of noted.items) (map D.word_of callee_words.items)
        (D.memory_of at_return)
        machine.old machine.new call) }
    ensures answer { machine.new.answer ≡ machine.old.answer }
    ensures blocks { machine.new.blocks ≡ machine.old.blocks }
{
    let at_call = put_back(domain, machine, callee_words.as_slice(), &at_return)?;
    Ok(CallMade {
        words,
        at_call,
        noted,
        callee_words,
        at_return,
    })
}

// The caller's machine with the words that came back and what stood at the addresses then; what stood there
// before is given back.
fn put_back<D: Domain>(
    domain: &D,
    machine: &mut MachineOf<D>,
    words: &[D::Word],
    at_return: &D::Memory,
) -> Result<D::Memory, OutOfMemory>
    ensures before { IfOk result (λ memory. memory ≡ machine.old.memory) }
    ensures stack { IfOk result (λ _. stack_of D.value_of D.word_of machine.new.stack.items
        ≡ pushed (map word_item (map D.word_of words.now)) (stack_of D.value_of D.word_of machine.old.stack.items)) }
    ensures returned { IfOk result (λ _. option_map D.word_of machine.new.returned
        ≡ one_word (map D.word_of words.now)) }
    ensures memory { IfOk result (λ _. D.memory_of machine.new.memory ≡ D.memory_of at_return.now) }
    ensures slots { machine.new.slots ≡ machine.old.slots }
    ensures answer { machine.new.answer ≡ machine.old.answer }
    ensures blocks { machine.new.blocks ≡ machine.old.blocks }
{
    push_words::<D>(domain, &mut machine.stack, words)?;
    machine.returned = one_word(domain, words)?;
    let memory = domain.copy_memory(at_return)?;
    Ok(replace(&mut machine.memory, memory))
}

fn push_words<D: Domain>(
    domain: &D,
    stack: &mut Stack<D>,
    words: &[D::Word],
) -> Result<(), OutOfMemory>
    ensures { IfOk result (λ _. stack_of D.value_of D.word_of stack.new.items
        ≡ pushed (map word_item (map D.word_of words.now)) (stack_of D.value_of D.word_of stack.old.items)) }
{
    for word in words {
        stack.push(word_item(domain, word)?)?;
    }
    Ok(())
}

// The word, where there is just one.
fn one_word<D: Domain>(domain: &D, words: &[D::Word]) -> Result<Option<D::Word>, OutOfMemory>
    ensures { IfOk result (λ word. option_map D.word_of word ≡ one_word (map D.word_of words.now)) }
{
    match words {
        [word] => Ok(Some(domain.copy_word(word)?)),
        _ => Ok(None),
    }
}
