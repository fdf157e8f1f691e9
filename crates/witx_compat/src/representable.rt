//! Whether the values of one type can be represented by another, type by type.
#![tactic(auto, using(crate::proofs::Steps::compat_rules))]

ghost use Rattle.std.specs.Prelude.{◌≡◌, ◌&&◌, false, length, true};
ghost use Rattle.witx_ast.specs.Plain.{plain};
ghost use Rattle.witx_ast.specs.Views.{tree_of, cases_plain, datatype_tree, named_tree, record_tree, variant_tree, members_plain};
ghost use Rattle.witx_ast.specs.declared.types.RecordDatatype.{out-RecordDatatype};
ghost use Rattle.witx_ast.specs.declared.types.Variant.{out-Variant};
ghost use Rattle.witx_base.specs.SameBytes.{same_bytes};
ghost use Rattle.witx_ast.specs.contracts.types.RecordKindPartialEq.TheImpl as kinds;
ghost use Rattle.witx_compat.specs.declared.answer.RepEquality.{RepEquality};
ghost use Rattle.witx_compat.specs.Answers.{builtin_by, repr_by, worse};
ghost use Rattle.witx_compat.specs.Heads.{all_placed, has_misplaced, same_names};
ghost use Rattle.witx_compat.specs.Represents.{represented, count_by};

use crate::answer::RepEquality;
use crate::places::are_placed;
use witx_ast::{
    BuiltinType, Datatype, IntRepr, NamedType, RecordDatatype, RecordMember, TypeRef, Variant,
};

/// Whether values of one type can be represented by another type.
///
/// Names of types are looked through.
pub trait Representable {
    /// The answer, as the table of the definitions has it.
    ghost answer: { Self → Self → RepEquality };

    /// The types are the same but for names of types and documentation.
    ghost is_alike: { Self → Self → Type 0 };

    /// How `self` is represented by `by`.
    fn representable(&self, by: &Self) -> RepEquality
        ensures exact { result ≡ answer self.now by.now }
        ensures alike { result ≡ RepEquality.Eq → is_alike self.now by.now };
}

impl Representable for BuiltinType {
    ghost answer = { builtin_by };

    ghost is_alike = { λ a b. a ≡ b };

    #[tactic(auto, using(crate::proofs::Steps::answer_rules))]
    fn representable(&self, by: &Self) -> RepEquality {
        if self == by {
            return RepEquality::Eq;
        }
        match (self, by) {
            (
                BuiltinType::U8 { lang_c_char: _ },
                BuiltinType::U16 | BuiltinType::U32 { lang_ptr_size: _ } | BuiltinType::U64,
            )
            | (BuiltinType::U16, BuiltinType::U32 { lang_ptr_size: _ } | BuiltinType::U64)
            | (BuiltinType::U32 { lang_ptr_size: _ }, BuiltinType::U64) => RepEquality::Superset,
            _ => RepEquality::NotEq,
        }
    }
}

impl Representable for IntRepr {
    ghost answer = { repr_by };

    ghost is_alike = { λ a b. a ≡ b };

    #[tactic(auto, using(crate::proofs::Steps::answer_rules))]
    fn representable(&self, by: &Self) -> RepEquality {
        if self == by {
            return RepEquality::Eq;
        }
        match (self, by) {
            (IntRepr::U16, IntRepr::U32 | IntRepr::U64) | (IntRepr::U32, IntRepr::U64) => {
                RepEquality::Superset
            }
            _ => RepEquality::NotEq,
        }
    }
}

impl Representable for TypeRef {
    ghost answer = { λ a b. represented (plain (tree_of a)) (plain (tree_of b)) };

    ghost is_alike = { λ a b. plain (tree_of a) ≡ plain (tree_of b) };

    fn representable(&self, by: &Self) -> RepEquality {
        self.type_().representable(by.type_())
    }
}

impl Representable for NamedType {
    ghost answer = { λ a b. represented (plain (named_tree a)) (plain (named_tree b)) };

    ghost is_alike = { λ a b. plain (named_tree a) ≡ plain (named_tree b) };

    fn representable(&self, by: &Self) -> RepEquality {
        self.tref.representable(&by.tref)
    }
}

// What lies in types is gone into by `gone_into` and what it calls. Where the cases of variants stand is asked before that, at
// each place where two types are met, and in a function of its own, so that a level of types takes little of the stack.
impl Representable for Datatype {
    ghost answer = { λ a b. represented (plain (datatype_tree a)) (plain (datatype_tree b)) };

    ghost is_alike = { λ a b. plain (datatype_tree a) ≡ plain (datatype_tree b) };

    fn representable(&self, by: &Self) -> RepEquality {
        if are_misplaced(self, by) {
            return RepEquality::NotEq;
        }
        gone_into(self, by)
    }
}

impl Representable for RecordDatatype {
    ghost answer = { λ a b. represented (plain (record_tree a)) (plain (record_tree b)) };

    ghost is_alike = { λ a b. plain (record_tree a) ≡ plain (record_tree b) };

    #[inline(never)]
    #[cycle(compat)]
    fn representable(&self, by: &Self) -> RepEquality {
        if !are_headed_alike(self, by) {
            return RepEquality::NotEq;
        }
        let members = self.members.as_slice();
        let others = by.members.as_slice();
        for i in 0..members.len() {
            if !part_answer(&members[i].tref, &others[i].tref).is_same() {
                return RepEquality::NotEq;
            }
        }
        RepEquality::Eq
    }
}

impl Representable for Variant {
    ghost answer = { λ a b. represented (plain (variant_tree a)) (plain (variant_tree b)) };

    ghost is_alike = { λ a b. plain (variant_tree a) ≡ plain (variant_tree b) };

    fn representable(&self, by: &Self) -> RepEquality {
        if !are_placed(&self.cases, &by.cases) {
            return RepEquality::NotEq;
        }
        cases_answer(self, by)
    }
}

/// Two types that lie in others, or behind them. Taken in where it is called, so that a level of types is two calls as LLVM
/// builds it, and one as Rattle's own compiler does.
#[inline(always)]
#[cycle(compat)]
fn part_answer(mine: &TypeRef, other: &TypeRef) -> RepEquality
    ensures { result ≡ represented (plain (tree_of mine.now)) (plain (tree_of other.now)) }
{
    let one = mine.type_();
    let by = other.type_();
    if are_misplaced(one, by) {
        return RepEquality::NotEq;
    }
    gone_into(one, by)
}

/// Two types, of which none has a case that stands elsewhere in the other.
#[cycle(compat)]
fn gone_into(one: &Datatype, by: &Datatype) -> RepEquality
    requires { has_misplaced (plain (datatype_tree one.now)) (plain (datatype_tree by.now)) ≡ false }
    ensures { result ≡ represented (plain (datatype_tree one.now)) (plain (datatype_tree by.now)) }
{
    match (one, by) {
        (Datatype::Record(a), Datatype::Record(b)) => a.representable(b),
        (Datatype::Variant(a), Datatype::Variant(b)) => cases_answer(a, b),
        (Datatype::Handle(_), Datatype::Handle(_)) => RepEquality::Eq,
        (Datatype::List(a), Datatype::List(b))
        | (Datatype::Pointer(a), Datatype::Pointer(b))
        | (Datatype::ConstPointer(a), Datatype::ConstPointer(b)) => part_answer(a, b),
        (Datatype::Builtin(a), Datatype::Builtin(b)) => a.representable(b),
        _ => RepEquality::NotEq,
    }
}

/// Two variants, each case of which stands at its place in the other.
#[inline(never)]
#[cycle(compat)]
fn cases_answer(one: &Variant, by: &Variant) -> RepEquality
    requires { all_placed 0 (cases_plain (out-Variant one.now).cases) (cases_plain (out-Variant by.now).cases) ≡ true }
    ensures { result ≡ represented (plain (variant_tree one.now)) (plain (variant_tree by.now)) }
{
    let mut answer = head_answer(one, by);
    if answer.is_refused() {
        return answer;
    }
    let cases = one.cases.as_slice();
    let others = by.cases.as_slice();
    for i in 0..cases.len() {
        match (&cases[i].tref, &others[i].tref) {
            (Some(mine), Some(other)) => {
                answer = answer.worse(&part_answer(mine, other));
                if answer.is_refused() {
                    return answer;
                }
                continue;
            }
            (Some(_), None) => return RepEquality::NotEq,
            (None, Some(_)) => {
                answer = answer.worse(&RepEquality::Superset);
                continue;
            }
            (None, None) => continue,
        }
    }
    answer
}

/// Whether a case of two variants stands elsewhere in the other.
#[inline(never)]
fn are_misplaced(one: &Datatype, by: &Datatype) -> bool
    ensures { result ≡ has_misplaced (plain (datatype_tree one.now)) (plain (datatype_tree by.now)) }
{
    match (one, by) {
        (Datatype::Variant(a), Datatype::Variant(b)) => !are_placed(&a.cases, &b.cases),
        _ => false,
    }
}

/// Whether the kinds are equal, the members as many, and member by member their names equal.
#[inline(never)]
fn are_headed_alike(one: &RecordDatatype, by: &RecordDatatype) -> bool
    ensures { let a = out-RecordDatatype one.now in let b = out-RecordDatatype by.now in
        result ≡ (kinds.ghosts.eq a.kind b.kind && same_names (members_plain a.members) (members_plain b.members)) }
{
    one.kind == by.kind && are_named_alike(one.members.as_slice(), by.members.as_slice())
}

/// Whether the members are as many, and member by member their names are equal.
fn are_named_alike(members: &[RecordMember], by: &[RecordMember]) -> bool
    ensures { result ≡ same_names (members_plain members.now) (members_plain by.now) }
{
    if members.len() != by.len() {
        return false;
    }
    for i in 0..members.len() {
        if !is_named_alike(&members[i], &by[i]) {
            return false;
        }
    }
    true
}

fn is_named_alike(member: &RecordMember, by: &RecordMember) -> bool
    ensures { result ≡ same_bytes member.now.name by.now.name }
{
    member.name == by.name
}

/// The worse of the tags' answer and of whether there are more cases.
#[inline(never)]
fn head_answer(one: &Variant, by: &Variant) -> RepEquality
    ensures { let a = out-Variant one.now in let b = out-Variant by.now in
        result ≡ worse (repr_by a.tag_repr b.tag_repr) (count_by (length a.cases) (length b.cases)) }
{
    let tags = one.tag_repr.representable(&by.tag_repr);
    tags.worse(&counted(one.cases.len(), by.cases.len()))
}

/// Whether there are more cases.
fn counted(cases: usize, by: usize) -> RepEquality
    ensures { result ≡ count_by cases by }
{
    if cases < by {
        RepEquality::Superset
    } else {
        RepEquality::Eq
    }
}
