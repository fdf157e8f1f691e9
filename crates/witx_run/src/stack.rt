//! The rows that look at the stack, and at the memory and the slots that they name.
#![tactic(auto, using(crate::proofs::StackLemmas::stack_rules))]

ghost use Rattle.std.specs.Prelude.{◌≡◌, ◌∷◌, [], Some, None, IfOk, MatchOption, map, option_map, slice_get};
ghost use Rattle.witx_ast.specs.Views.{named_tree};
ghost use Rattle.witx_machine.specs.Machine.{pushed, plain_item, values_off, words_off, items_off, slot_word};
ghost use Rattle.witx_run.specs.{RowEnds.{Makes, MakesBoth}, SlotViews.{given_slots}};
ghost use Rattle.witx_run.specs.StackRows.{top_word_of, top_named_of, top_value_of, pushed_item, pushed_word, pushed_value, pushed_words, lowering_row, lifting_row, list_words_row, list_value_row, load_row, store_row, addr_row, put_named, tuple_row, parts_row};
ghost use Rattle.witx_run.specs.Views.{item_of, items_of, name_tree, scalar_of, stack_of};

use crate::conversion::Conversion;
use crate::copies::copy_item;
use crate::domain::Domain;
use crate::item::Item;
use crate::slots::Slots;
use std::alloc::Global;
use std::rc::Rc;
use witx_ast::NamedType;
use witx_base::OutOfMemory;

/// The stack of a trace, of which the top comes last.
pub(crate) type Stack<D> = Vec<Item<<D as Domain>::Value, <D as Domain>::Word>>;

/// The word on top, taken off.
pub(crate) fn pop_word<D: Domain>(stack: &mut Stack<D>) -> Option<D::Word>
    ensures { MatchOption result (top_word_of (stack_of D.value_of D.word_of stack.old.items) ≡ None)
        (λ w. top_word_of (stack_of D.value_of D.word_of stack.old.items)
        ≡ Some (D.word_of w, stack_of D.value_of D.word_of stack.new.items)) }
{
    match stack.pop() {
        Some(Item::Word(word)) => Some(word),
        Some(Item::Value { value: _, name: _ }) => None,
        None => None,
    }
}

/// The value on top with its name, taken off.
pub(crate) fn pop_named<D: Domain>(
    stack: &mut Stack<D>,
) -> Option<(D::Value, Option<Rc<NamedType>>)>
    ensures { MatchOption result (top_named_of (stack_of D.value_of D.word_of stack.old.items) ≡ None)
        (λ v. top_named_of (stack_of D.value_of D.word_of stack.old.items)
        ≡ Some (D.value_of v.0, name_tree v.1, stack_of D.value_of D.word_of stack.new.items)) }
{
    match stack.pop() {
        Some(Item::Value { value, name }) => Some((value, name)),
        Some(Item::Word(_)) => None,
        None => None,
    }
}

/// The value on top, taken off.
pub(crate) fn pop_value<D: Domain>(stack: &mut Stack<D>) -> Option<D::Value>
    ensures { MatchOption result (top_value_of (stack_of D.value_of D.word_of stack.old.items) ≡ None)
        (λ v. top_value_of (stack_of D.value_of D.word_of stack.old.items)
        ≡ Some (D.value_of v, stack_of D.value_of D.word_of stack.new.items)) }
{
    match stack.pop() {
        Some(Item::Value { value, name: _ }) => Some(value),
        Some(Item::Word(_)) => None,
        None => None,
    }
}

/// Pushes what there is; or the step has no rule.
pub(crate) fn push_word<D: Domain>(
    stack: &mut Stack<D>,
    word: Option<D::Word>,
) -> Result<bool, OutOfMemory>
    ensures { IfOk result (Makes D.Domain stack.old stack.new
        (pushed_word (option_map D.word_of word))) }
{
    match word {
        Some(word) => {
            stack.push(Item::Word(word))?;
            Ok(true)
        }
        None => Ok(false),
    }
}

/// Pushes the value that there is; or the step has no rule.
pub(crate) fn push_value<D: Domain>(
    stack: &mut Stack<D>,
    value: Option<D::Value>,
) -> Result<bool, OutOfMemory>
    ensures { IfOk result (Makes D.Domain stack.old stack.new
        (pushed_value (option_map D.value_of value))) }
{
    match value {
        Some(value) => {
            stack.push(Item::Value { value, name: None })?;
            Ok(true)
        }
        None => Ok(false),
    }
}

/// Pushes an argument, by its number; or the step has no rule.
pub(crate) fn get_arg<D: Domain>(
    domain: &D,
    stack: &mut Stack<D>,
    arguments: &[Item<D::Value, D::Word>],
    nth: usize,
) -> Result<bool, OutOfMemory>
    ensures { IfOk result (Makes D.Domain stack.old stack.new
        (pushed_item (slice_get (items_of D.value_of D.word_of arguments.now) nth))) }
{
    match arguments.get(nth) {
        Some(item) => {
            stack.push(copy_item(domain, item)?)?;
            Ok(true)
        }
        None => Ok(false),
    }
}

/// A value becomes the address at which it is put; or the step has no rule.
pub(crate) fn addr_of<D: Domain>(
    domain: &D,
    stack: &mut Stack<D>,
    memory: &mut D::Memory,
) -> Result<bool, OutOfMemory>
    ensures { IfOk result (MakesBoth D.Domain stack.old stack.new memory.new
        (addr_row (D.domain domain.now) (D.memory_of memory.old))) }
{
    match pop_named::<D>(stack) {
        Some((value, name)) => put_by_name(domain, stack, memory, value, name),
        None => Ok(false),
    }
}

fn put_by_name<D: Domain>(
    domain: &D,
    stack: &mut Stack<D>,
    memory: &mut D::Memory,
    value: D::Value,
    name: Option<Rc<NamedType>>,
) -> Result<bool, OutOfMemory>
    ensures { IfOk result (MakesBoth D.Domain stack.old stack.new memory.new
        (put_named (D.domain domain.now) (name_tree name) (D.value_of value) (D.memory_of memory.old))) }
{
    match name {
        Some(named) => {
            let word = domain.put(memory, &named, value)?;
            push_word::<D>(stack, word)
        }
        None => Ok(false),
    }
}

/// A value becomes its one word; or the step has no rule.
pub(crate) fn lowering<D: Domain>(
    domain: &D,
    stack: &mut Stack<D>,
    conversion: Conversion<'_>,
) -> Result<bool, OutOfMemory>
    ensures { IfOk result (Makes D.Domain stack.old stack.new
        (lowering_row (D.domain domain.now) (scalar_of conversion.entry))) }
{
    match pop_value::<D>(stack) {
        Some(value) => {
            let word = domain.lower(conversion, &value)?;
            push_word::<D>(stack, word)
        }
        None => Ok(false),
    }
}

/// A word becomes the value whose word it is; or the step has no rule.
pub(crate) fn lifting<D: Domain>(
    domain: &D,
    stack: &mut Stack<D>,
    conversion: Conversion<'_>,
) -> Result<bool, OutOfMemory>
    ensures { IfOk result (Makes D.Domain stack.old stack.new
        (lifting_row (D.domain domain.now) (scalar_of conversion.entry))) }
{
    match pop_word::<D>(stack) {
        Some(word) => {
            let value = domain.lift(conversion, &word)?;
            push_value::<D>(stack, value)
        }
        None => Ok(false),
    }
}

/// A list becomes its address and its length; or the step has no rule.
pub(crate) fn list_pointer_length<D: Domain>(
    domain: &D,
    stack: &mut Stack<D>,
) -> Result<bool, OutOfMemory>
    ensures { IfOk result (Makes D.Domain stack.old stack.new
        (list_words_row (D.domain domain.now))) }
{
    match pop_value::<D>(stack) {
        Some(value) => {
            let words = domain.list_words(&value)?;
            push_words::<D>(stack, words)
        }
        None => Ok(false),
    }
}

fn push_words<D: Domain>(
    stack: &mut Stack<D>,
    words: Option<(D::Word, D::Word)>,
) -> Result<bool, OutOfMemory>
    ensures { IfOk result (Makes D.Domain stack.old stack.new
        (pushed_words (option_map (λ p. (D.word_of p.0, D.word_of p.1)) words))) }
{
    match words {
        Some((address, length)) => {
            stack.push(Item::Word(address))?;
            stack.push(Item::Word(length))?;
            Ok(true)
        }
        None => Ok(false),
    }
}

/// An address and a length become their list; or the step has no rule.
pub(crate) fn list_from_pointer_length<D: Domain>(
    domain: &D,
    stack: &mut Stack<D>,
) -> Result<bool, OutOfMemory>
    ensures { IfOk result (Makes D.Domain stack.old stack.new
        (list_value_row (D.domain domain.now))) }
{
    let Some(length) = pop_word::<D>(stack) else {
        return Ok(false);
    };
    let Some(address) = pop_word::<D>(stack) else {
        return Ok(false);
    };
    let value = domain.list_value(&address, &length)?;
    push_value::<D>(stack, value)
}

/// Pushes the address of a slot; or the step has no rule.
pub(crate) fn return_pointer_get<D: Domain>(
    domain: &D,
    stack: &mut Stack<D>,
    slots: &Slots<D::Word>,
    slot: usize,
) -> Result<bool, OutOfMemory>
    ensures { IfOk result (Makes D.Domain stack.old stack.new
        (pushed_word (slot_word slot (given_slots D.word_of slots.now.in_order.items)))) }
{
    match slots.get(slot) {
        Some(address) => {
            stack.push(Item::Word(domain.copy_word(address)?))?;
            Ok(true)
        }
        None => Ok(false),
    }
}

/// An address becomes the value that stands there; or the step has no rule.
pub(crate) fn load<D: Domain>(
    domain: &D,
    stack: &mut Stack<D>,
    memory: &D::Memory,
    ty: &Rc<NamedType>,
) -> Result<bool, OutOfMemory>
    ensures { IfOk result (Makes D.Domain stack.old stack.new
        (load_row (D.domain domain.now) (named_tree ty.now.value) (D.memory_of memory.now))) }
{
    let Some(word) = pop_word::<D>(stack) else {
        return Ok(false);
    };
    match domain.get(memory, ty, &word)? {
        Some(value) => {
            let name = Some(Rc::clone(ty)?);
            stack.push(Item::Value { value, name })?;
            Ok(true)
        }
        None => Ok(false),
    }
}

/// A value is put at an address; or the step has no rule.
pub(crate) fn store<D: Domain>(
    domain: &D,
    stack: &mut Stack<D>,
    memory: &mut D::Memory,
    ty: &Rc<NamedType>,
) -> Result<bool, OutOfMemory>
    ensures { IfOk result (MakesBoth D.Domain stack.old stack.new memory.new
        (store_row (D.domain domain.now) (named_tree ty.now.value) (D.memory_of memory.old))) }
{
    let Some(word) = pop_word::<D>(stack) else {
        return Ok(false);
    };
    match pop_value::<D>(stack) {
        Some(value) => domain.set(memory, ty, &word, value),
        None => Ok(false),
    }
}

/// So many values, taken off in the order in which they were pushed; none where there aren't so many.
pub(crate) fn values_off<D: Domain>(
    alloc: Global,
    stack: &mut Stack<D>,
    count: usize,
) -> Result<Option<Vec<D::Value>>, OutOfMemory>
    ensures { IfOk result (λ values.
        option_map (λ vs. (map D.value_of vs.items, stack_of D.value_of D.word_of stack.new.items)) values
        ≡ values_off count [] (stack_of D.value_of D.word_of stack.old.items)) }
{
    let mut values = Vec::new(alloc);
    for _taken in 0..count {
        let Some(value) = pop_value::<D>(stack) else {
            return Ok(None);
        };
        values.push(value)?;
    }
    values.reverse();
    Ok(Some(values))
}

/// So many words, in the same way.
pub(crate) fn words_off<D: Domain>(
    alloc: Global,
    stack: &mut Stack<D>,
    count: usize,
) -> Result<Option<Vec<D::Word>>, OutOfMemory>
    ensures { IfOk result (λ words.
        option_map (λ ws. (map D.word_of ws.items, stack_of D.value_of D.word_of stack.new.items)) words
        ≡ words_off count [] (stack_of D.value_of D.word_of stack.old.items)) }
{
    let mut words = Vec::new(alloc);
    for _taken in 0..count {
        let Some(word) = pop_word::<D>(stack) else {
            return Ok(None);
        };
        words.push(word)?;
    }
    words.reverse();
    Ok(Some(words))
}

/// The item on top, taken off.
fn pop_item<D: Domain>(stack: &mut Stack<D>) -> Option<Item<D::Value, D::Word>>
    ensures { MatchOption result (stack_of D.value_of D.word_of stack.old.items ≡ [])
        (λ x. stack_of D.value_of D.word_of stack.old.items
        ≡ item_of D.value_of D.word_of x ∷ stack_of D.value_of D.word_of stack.new.items) }
{
    stack.pop()
}

/// So many items, in the same way.
pub(crate) fn items_off<D: Domain>(
    alloc: Global,
    stack: &mut Stack<D>,
    count: usize,
) -> Result<Option<Stack<D>>, OutOfMemory>
    ensures { IfOk result (λ items.
        option_map (λ xs. (items_of D.value_of D.word_of xs.items, stack_of D.value_of D.word_of stack.new.items)) items
        ≡ items_off count [] (stack_of D.value_of D.word_of stack.old.items)) }
{
    let mut items = Vec::new(alloc);
    for _taken in 0..count {
        let Some(item) = pop_item::<D>(stack) else {
            return Ok(None);
        };
        items.push(item)?;
    }
    items.reverse();
    Ok(Some(items))
}

/// So many values become their tuple; or the step has no rule.
pub(crate) fn tuple_lift<D: Domain>(
    alloc: Global,
    domain: &D,
    stack: &mut Stack<D>,
    count: usize,
) -> Result<bool, OutOfMemory>
    ensures { IfOk result (Makes D.Domain stack.old stack.new
        (tuple_row (D.domain domain.now) count)) }
{
    match values_off::<D>(alloc, stack, count)? {
        Some(values) => {
            let value = domain.tuple(values)?;
            stack.push(Item::Value { value, name: None })?;
            Ok(true)
        }
        None => Ok(false),
    }
}

/// A tuple becomes its members; or the step has no rule.
pub(crate) fn tuple_lower<D: Domain>(
    domain: &D,
    stack: &mut Stack<D>,
    count: usize,
) -> Result<bool, OutOfMemory>
    ensures { IfOk result (Makes D.Domain stack.old stack.new
        (parts_row (D.domain domain.now) count)) }
{
    let Some(value) = pop_value::<D>(stack) else {
        return Ok(false);
    };
    match domain.parts(count, value)? {
        Some(parts) => {
            push_all::<D>(stack, parts)?;
            Ok(true)
        }
        None => Ok(false),
    }
}

fn push_all<D: Domain>(stack: &mut Stack<D>, parts: Vec<D::Value>) -> Result<(), OutOfMemory>
    ensures { IfOk result (λ _. stack_of D.value_of D.word_of stack.new.items
        ≡ pushed (map plain_item (map D.value_of parts.items)) (stack_of D.value_of D.word_of stack.old.items)) }
{
    let mut left = parts;
    left.reverse();
    while let Some(value) = left.pop() {
        stack.push(Item::Value { value, name: None })?;
    }
    Ok(())
}

/// Pushes the payload of a block that result_lower runs; or the step has no rule.
pub(crate) fn variant_payload<D: Domain>(
    domain: &D,
    stack: &mut Stack<D>,
    payload: Option<&Item<D::Value, D::Word>>,
) -> Result<bool, OutOfMemory>
    ensures { IfOk result (Makes D.Domain stack.old stack.new
        (pushed_item (option_map (λ x. item_of D.value_of D.word_of x.now) payload.entry))) }
{
    match payload {
        Some(item) => {
            stack.push(copy_item(domain, item)?)?;
            Ok(true)
        }
        None => Ok(false),
    }
}

/// Pushes the one word that the call gave; or the step has no rule.
pub(crate) fn reuse_return<D: Domain>(
    domain: &D,
    stack: &mut Stack<D>,
    returned: &Option<D::Word>,
) -> Result<bool, OutOfMemory>
    ensures { IfOk result (Makes D.Domain stack.old stack.new
        (pushed_word (option_map D.word_of returned.now))) }
{
    match returned {
        Some(word) => {
            stack.push(Item::Word(domain.copy_word(word)?))?;
            Ok(true)
        }
        None => Ok(false),
    }
}
