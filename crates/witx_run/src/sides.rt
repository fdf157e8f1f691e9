//! What the side of a trace is given: its arguments, as they lie on a stack.
#![tactic(auto, using(crate::proofs::SideLemmas::side_rules))]

ghost use Rattle.std.specs.Prelude.{◌≡◌, IfOk, map};
ghost use Rattle.witx_ast.specs.Views.{tree_of};
ghost use Rattle.witx_machine.specs.{Functions.{name_of}, Machine.{value_item, word_item}};
ghost use Rattle.witx_machine.specs.Run.{argument_items};
ghost use Rattle.witx_instructions.specs.Views.{called};
ghost use Rattle.witx_run.specs.Views.{item_of, items_of};

use crate::copies::name_of;
use crate::domain::Domain;
use crate::item::Item;
use crate::stack::Stack;
use std::alloc::Global;
use witx_ast::{InterfaceFunc, TypeRef};
use witx_base::OutOfMemory;

/// The arguments as the caller has them, each with its type's name if it has one; as many as there are
/// parameters and arguments.
pub(crate) fn argument_items<D: Domain>(
    alloc: Global,
    domain: &D,
    func: &InterfaceFunc,
    arguments: &[D::Value],
) -> Result<Stack<D>, OutOfMemory>
    ensures { IfOk result (λ items. items_of D.value_of D.word_of items.items
        ≡ argument_items (called func.now).params (map D.value_of arguments.now)) }
{
    let mut items = Vec::new(alloc);
    for (param, argument) in func.params.iter().zip(arguments) {
        items.push(argument_item(domain, &param.tref, argument)?)?;
    }
    Ok(items)
}

/// A value with the name of its type, if that is a name.
pub(crate) fn argument_item<D: Domain>(
    domain: &D,
    ty: &TypeRef,
    argument: &D::Value,
) -> Result<Item<D::Value, D::Word>, OutOfMemory>
    ensures { IfOk result (λ item. item_of D.value_of D.word_of item
        ≡ value_item (D.value_of argument.now) (name_of (tree_of ty.now))) }
{
    let name = name_of(ty)?;
    let value = domain.copy_value(argument)?;
    Ok(Item::Value { value, name })
}

/// The arguments as the callee has them: its words.
pub(crate) fn word_items<D: Domain>(
    alloc: Global,
    domain: &D,
    words: &[D::Word],
) -> Result<Stack<D>, OutOfMemory>
    ensures { IfOk result (λ items. items_of D.value_of D.word_of items.items
        ≡ map word_item (map D.word_of words.now)) }
{
    let mut items = Vec::new(alloc);
    for word in words {
        items.push(word_item(domain, word)?)?;
    }
    Ok(items)
}

/// A word as it lies on a stack.
pub(crate) fn word_item<D: Domain>(
    domain: &D,
    word: &D::Word,
) -> Result<Item<D::Value, D::Word>, OutOfMemory>
    ensures { IfOk result (λ item. item_of D.value_of D.word_of item ≡ word_item (D.word_of word.now)) }
{
    Ok(Item::Word(domain.copy_word(word)?))
}
