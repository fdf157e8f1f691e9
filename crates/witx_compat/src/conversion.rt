//! Conversions between types, and parameters and results that are mapped or unknown.
#![tactic(auto, using(crate::proofs::Mapping::convert_rules))]

ghost use Rattle.std.specs.Prelude.{◌≡◌, IfOk, option_map};
ghost use Rattle.witx_ast.specs.{Views.{tree_of, datatype_tree}, Functions.{param_field}};
ghost use Rattle.witx_compat.specs.Conversions.{targets, converted, conversion_answer, param_mapped, result_mapped, is_compatible, unknown_word};
ghost use Rattle.witx_compat.specs.Views.{conversion_view, mapped_view, unknown_view, unknown_param};

use crate::answer::RepEquality;
use crate::representable::Representable;
use witx_ast::{Datatype, InterfaceFuncParam, TypeRef};
use witx_base::{Items, OutOfMemory};

/// The two types of a conversion, the one that gives values first.
#[derive(PartialEq, Eq, Hash, Debug, Drop)]
pub enum TypePolyfill {
    /// Values of the new type become values of the old one.
    NewToOld(TypeRef, TypeRef),
    /// Values of the old type become values of the new one.
    OldToNew(TypeRef, TypeRef),
}

/// Conversions, in order.
pub type TypePolyfills = Items<TypePolyfill>;

impl TypePolyfill {
    /// How the type that receives values is represented by the one that gives them.
    pub fn repeq(&self) -> RepEquality
        ensures { result ≡ conversion_answer (conversion_view self.now) }
    {
        match self {
            TypePolyfill::NewToOld(new, old) => old.representable(new),
            TypePolyfill::OldToNew(old, new) => new.representable(old),
        }
    }
}

/// Two parameters, or two results, that are mapped to each other.
#[derive(PartialEq, Eq, Hash, Debug, Drop)]
pub struct ParamPolyfill {
    pub new: InterfaceFuncParam,
    pub old: InterfaceFuncParam,
    pub type_polyfill: TypePolyfill,
}

/// Those that are mapped, in order.
pub type ParamPolyfills = Items<ParamPolyfill>;

impl ParamPolyfill {
    /// Two parameters: the old one's values become the new one's. A refusal drops both.
    pub fn param(
        new: InterfaceFuncParam,
        old: InterfaceFuncParam,
    ) -> Result<ParamPolyfill, OutOfMemory>
        ensures { IfOk result (λ made. mapped_view made ≡ param_mapped (param_field new) (param_field old)) }
    {
        let (old_type, new_type) = common_types(&old.tref, &new.tref)?;
        Ok(ParamPolyfill {
            new,
            old,
            type_polyfill: TypePolyfill::OldToNew(old_type, new_type),
        })
    }

    /// Two results: the new one's values become the old one's. A refusal drops both.
    pub fn result(
        new: InterfaceFuncParam,
        old: InterfaceFuncParam,
    ) -> Result<ParamPolyfill, OutOfMemory>
        ensures { IfOk result (λ made. mapped_view made ≡ result_mapped (param_field new) (param_field old)) }
    {
        let (new_type, old_type) = common_types(&new.tref, &old.tref)?;
        Ok(ParamPolyfill {
            new,
            old,
            type_polyfill: TypePolyfill::NewToOld(new_type, old_type),
        })
    }

    /// How the type that receives values is represented by the one that gives them.
    pub fn repeq(&self) -> RepEquality
        ensures { result ≡ conversion_answer (mapped_view self.now).conversion }
    {
        self.type_polyfill.repeq()
    }

    /// Whether the names are equal and `repeq` is `Eq`.
    pub fn full_compat(&self) -> bool
        ensures { result ≡ is_compatible (mapped_view self.now) }
    {
        self.new.name == self.old.name && self.repeq().is_same()
    }
}

/// The types themselves, or the targets of two lists, two pointers or two const pointers.
fn common_types(a: &TypeRef, b: &TypeRef) -> Result<(TypeRef, TypeRef), OutOfMemory>
    ensures { IfOk result (λ p. (tree_of p.0, tree_of p.1) ≡ converted (tree_of a.now) (tree_of b.now)) }
{
    match common_targets(a, b) {
        Some((x, y)) => Ok((x.clone()?, y.clone()?)),
        None => Ok((a.clone()?, b.clone()?)),
    }
}

fn common_targets<'a>(a: &'a TypeRef, b: &'a TypeRef) -> Option<(&'a TypeRef, &'a TypeRef)>
    ensures { option_map (λ p. (tree_of p.0.now, tree_of p.1.now)) result ≡ targets (tree_of a.now) (tree_of b.now) }
{
    match (a, b) {
        (TypeRef::Value(a), TypeRef::Value(b)) => targets_of(a, b),
        _ => None,
    }
}

fn targets_of<'a>(a: &'a Datatype, b: &'a Datatype) -> Option<(&'a TypeRef, &'a TypeRef)>
    ensures { option_map (λ p. (tree_of p.0.now, tree_of p.1.now)) result
        ≡ targets (datatype_tree a.now) (datatype_tree b.now) }
{
    match (a, b) {
        (Datatype::List(x), Datatype::List(y)) => Some((x, y)),
        (Datatype::Pointer(x), Datatype::Pointer(y)) => Some((x, y)),
        (Datatype::ConstPointer(x), Datatype::ConstPointer(y)) => Some((x, y)),
        _ => None,
    }
}

/// A parameter, or a result, that is not mapped, and whose function has it.
#[derive(PartialEq, Eq, Hash, Debug, Drop)]
pub enum ParamUnknown {
    Old(InterfaceFuncParam),
    New(InterfaceFuncParam),
}

/// Those that are not mapped, in order.
pub type ParamUnknowns = Items<ParamUnknown>;

impl ParamUnknown {
    /// Whose it is: `old` or `new`.
    pub fn which(&self) -> &'static str
        ensures { result.now ≡ unknown_word (unknown_view self.now) }
    {
        match self {
            ParamUnknown::Old(_) => "old",
            ParamUnknown::New(_) => "new",
        }
    }

    /// The parameter, or the result, itself.
    pub fn param(&self) -> &InterfaceFuncParam
        ensures { result.now ≡ unknown_param self.now }
    {
        match self {
            ParamUnknown::Old(param) | ParamUnknown::New(param) => param,
        }
    }
}
