//! Items once more, and the names that they carry.

ghost use Rattle.std.specs.Prelude.{◌≡◌, IfOk};
ghost use Rattle.witx_ast.specs.Views.{tree_of};
ghost use Rattle.witx_machine.specs.Functions.{name_of};
ghost use Rattle.witx_run.specs.Views.{name_tree, item_of};

use crate::domain::Domain;
use crate::item::Item;
use std::rc::Rc;
use witx_ast::{NamedType, TypeRef};
use witx_base::OutOfMemory;

/// A name once more.
pub(crate) fn copy_name(name: &Option<Rc<NamedType>>) -> Result<Option<Rc<NamedType>>, OutOfMemory>
    ensures { IfOk result (λ made. name_tree made ≡ name_tree name.now) }
{
    match name {
        Some(named) => Ok(Some(Rc::clone(named)?)),
        None => Ok(None),
    }
}

/// The named type, where the type is a name.
#[tactic(auto, using(crate::proofs::SideLemmas::side_rules))]
pub fn name_of(ty: &TypeRef) -> Result<Option<Rc<NamedType>>, OutOfMemory>
    ensures { IfOk result (λ named. name_tree named ≡ name_of (tree_of ty.now)) }
{
    match ty {
        TypeRef::Name(named) => Ok(Some(Rc::clone(named)?)),
        TypeRef::Value(_) => Ok(None),
    }
}

/// An item once more.
pub(crate) fn copy_item<D: Domain>(
    domain: &D,
    item: &Item<D::Value, D::Word>,
) -> Result<Item<D::Value, D::Word>, OutOfMemory>
    ensures { IfOk result (λ made. item_of D.value_of D.word_of made ≡ item_of D.value_of D.word_of item.now) }
{
    match item {
        Item::Word(word) => Ok(Item::Word(domain.copy_word(word)?)),
        Item::Value { value, name } => Ok(Item::Value {
            value: domain.copy_value(value)?,
            name: copy_name(name)?,
        }),
    }
}
