//! Which type a text stands for in the lines of a function.
#![tactic(auto, using(crate::proofs::TypeReading::gather_rules))]

ghost use Rattle.std.specs.{Prelude.{◌≡◌, ◌++◌, IfOk, OnOk, map, option_map}, List.{flat_map}};
ghost use Rattle.std.specs.Option.{option_to_list, option_and_then};
ghost use Rattle.witx_base.specs.Texts.{same_text};
ghost use Rattle.witx_ast.specs.Views.{datatype_tree, named_tree, tree_of};
ghost use Rattle.witx_ast.specs.{Definitions.{definition_tree, typename_called}, TypeNames.{type_text}};
ghost use Rattle.witx_machine.specs.Functions.{err_of, ok_of, result_cases};
ghost use Rattle.witx_instructions.specs.Views.{called, param_types, payload_tree};
ghost use Rattle.witx_traces.specs.ReadTypes.{candidate_type, known_in};
ghost use Rattle.witx_traces.specs.Traces.{err_types, first_shown, held_types, ok_types, payload_types, shown, shown_payload, target, known_of};

use crate::candidates::{Candidate, KnownTypes};
use std::alloc::Global;
use std::rc::Rc;
use witx_abi::{err_type, ok_type, result_cases};
use witx_ast::{Datatype, Document, InterfaceFunc, InterfaceFuncParam, NamedType, TypeRef};
use witx_base::{Id, OutOfMemory};

impl<'a> KnownTypes<'a> {
    /// What they stand for in the lines of a function of a document.
    #[tactic(auto, using(crate::proofs::TypeReading::known_rules))]
    pub(crate) fn new(
        alloc: Global,
        document: &'a Document,
        func: &'a InterfaceFunc,
    ) -> Result<KnownTypes<'a>, OutOfMemory>
        ensures { IfOk result (λ k. known_in k ≡ known_of (map definition_tree document.now.definitions) (called func.now)) }
    {
        let payloads = payloads_of(alloc, func)?;
        let held = held_of(alloc, func)?;
        Ok(KnownTypes {
            document,
            func,
            held,
            payloads,
        })
    }

    /// The function.
    #[tactic(auto, unfolding(crate::specs::ReadTypes::known_in))]
    pub(crate) fn func(&self) -> &'a InterfaceFunc
        ensures params { param_types result.now.params ≡ (known_in self.now).params }
        ensures results { param_types result.now.results ≡ (known_in self.now).results }
    {
        self.func
    }

    /// The typename that is spelled so.
    #[tactic(auto, unfolding(crate::specs::ReadTypes::known_in))]
    pub(crate) fn typename(
        &self,
        alloc: Global,
        text: &str,
    ) -> Result<Option<&'a Rc<NamedType>>, OutOfMemory>
        ensures { IfOk result (λ o. option_map (λ n. named_tree n.now.value) o ≡ (known_in self.now).typename text.now) }
    {
        typename(alloc, self.document, text)
    }

    /// The type that a text stands for: the typename, else the first of the types that the function holds.
    #[tactic(auto, using(witx_ast::proofs::TreeKinds::kind_rules), unfolding(crate::specs::ReadTypes::known_in))]
    pub(crate) fn shown(&self, alloc: Global, text: &str) -> Result<Option<TypeRef>, OutOfMemory>
        ensures { IfOk result (λ o. option_map tree_of o ≡ shown (known_in self.now) text.now) }
    {
        match typename(alloc, self.document, text)? {
            Some(named) => Ok(Some(TypeRef::Name(named.clone()?))),
            None => first_candidate(self.held.as_slice(), text),
        }
    }

    /// The type that a text stands for where a result is lowered: its ok or err type before all others.
    #[tactic(auto, unfolding(crate::specs::ReadTypes::known_in))]
    pub(crate) fn payload(&self, alloc: Global, text: &str) -> Result<Option<TypeRef>, OutOfMemory>
        ensures { IfOk result (λ o. option_map tree_of o ≡ shown_payload (known_in self.now) text.now) }
    {
        match first_candidate(self.payloads.as_slice(), text)? {
            Some(ty) => Ok(Some(ty)),
            None => self.shown(alloc, text),
        }
    }
}

fn typename<'a>(
    alloc: Global,
    document: &'a Document,
    text: &str,
) -> Result<Option<&'a Rc<NamedType>>, OutOfMemory>
    ensures { IfOk result (λ o. option_map (λ n. named_tree n.now.value) o
        ≡ typename_called (map definition_tree document.now.definitions) text.now) }
{
    let name = Id::new(alloc, text)?;
    Ok(document.typename(&name))
}

/// The first candidate with this text.
#[tactic(auto, using(crate::proofs::TypeReading::candidate_rules))]
fn first_candidate(candidates: &[Candidate<'_>], text: &str) -> Result<Option<TypeRef>, OutOfMemory>
    ensures { IfOk result (λ o. option_map tree_of o ≡ first_shown (map candidate_type candidates.now) text.now) }
{
    for candidate in candidates {
        if is_shown(candidate, text) {
            return Ok(Some(candidate.ty.clone()?));
        }
    }
    Ok(None)
}

/// Whether the candidate is shown so.
#[tactic(auto, unfolding(witx_base::specs::Texts::same_text))]
fn is_shown(candidate: &Candidate<'_>, text: &str) -> bool
    ensures { result ≡ same_text (type_text (candidate_type candidate.now)) text.now }
{
    candidate.text.as_str() == text
}

/// What a list or a pointer is of, names looked through.
#[tactic(auto, using(crate::proofs::TypeReading::target_rules))]
fn target(ty: &TypeRef) -> Option<&TypeRef>
    ensures { option_to_list (payload_tree result) ≡ target (tree_of ty.now) }
{
    datatype_target(ty.type_())
}

#[tactic(auto, using(crate::proofs::TypeReading::target_rules))]
fn datatype_target(datatype: &Datatype) -> Option<&TypeRef>
    ensures { option_to_list (payload_tree result) ≡ target (datatype_tree datatype.now) }
{
    match datatype {
        Datatype::List(target) | Datatype::Pointer(target) | Datatype::ConstPointer(target) => {
            Some(target)
        }
        Datatype::Record(_) | Datatype::Variant(_) | Datatype::Handle(_) | Datatype::Builtin(_) =>
            None,
    }
}

/// What the ok case of a result carries.
fn ok_of(ty: &TypeRef) -> Option<&TypeRef>
    ensures { payload_tree result ≡ option_and_then ok_of (result_cases (tree_of ty.now)) }
{
    match result_cases(ty) {
        Some(variant) => ok_type(variant),
        None => None,
    }
}

/// What the err case of a result carries.
fn err_of(ty: &TypeRef) -> Option<&TypeRef>
    ensures { payload_tree result ≡ option_and_then err_of (result_cases (tree_of ty.now)) }
{
    match result_cases(ty) {
        Some(variant) => err_type(variant),
        None => None,
    }
}

/// A type with its text.
fn shown_candidate<'a>(alloc: Global, ty: &'a TypeRef) -> Result<Candidate<'a>, OutOfMemory>
    ensures { IfOk result (λ c. candidate_type c ≡ tree_of ty.now) }
{
    let text = ty.type_name(alloc)?;
    Ok(Candidate { text, ty })
}

/// Appends a type, if there is one.
#[tactic(auto, using(crate::proofs::TypeReading::push_rules))]
fn push_type<'a>(
    alloc: Global,
    candidates: &mut Vec<Candidate<'a>>,
    ty: Option<&'a TypeRef>,
) -> Result<(), OutOfMemory>
    ensures { OnOk result (map candidate_type candidates.new.items
        ≡ map candidate_type candidates.old.items ++ option_to_list (payload_tree ty.entry)) }
{
    match ty {
        Some(ty) => {
            let candidate = shown_candidate(alloc, ty)?;
            Ok(candidates.push(candidate)?)
        }
        None => Ok(()),
    }
}

/// Appends what a list or a pointer is of.
fn push_target<'a>(
    alloc: Global,
    candidates: &mut Vec<Candidate<'a>>,
    ty: &'a TypeRef,
) -> Result<(), OutOfMemory>
    ensures { OnOk result (map candidate_type candidates.new.items
        ≡ map candidate_type candidates.old.items ++ target (tree_of ty.now)) }
{
    push_type(alloc, candidates, target(ty))
}

/// Appends what the err type of a result is of, if that is a list or a pointer.
fn push_err_target<'a>(
    alloc: Global,
    candidates: &mut Vec<Candidate<'a>>,
    ty: &'a TypeRef,
) -> Result<(), OutOfMemory>
    ensures { OnOk result (map candidate_type candidates.new.items
        ≡ map candidate_type candidates.old.items ++ flat_map target (err_types (tree_of ty.now))) }
{
    match err_of(ty) {
        Some(err) => push_target(alloc, candidates, err),
        None => Ok(()),
    }
}

/// Appends the ok and err types of a result.
fn push_payload<'a>(
    alloc: Global,
    candidates: &mut Vec<Candidate<'a>>,
    ty: &'a TypeRef,
) -> Result<(), OutOfMemory>
    ensures { OnOk result (map candidate_type candidates.new.items
        ≡ map candidate_type candidates.old.items ++ (ok_types (tree_of ty.now) ++ err_types (tree_of ty.now))) }
{
    push_type(alloc, candidates, ok_of(ty))?;
    push_type(alloc, candidates, err_of(ty))
}

/// Appends what the lists and pointers among the types are of.
fn push_targets<'a>(
    alloc: Global,
    candidates: &mut Vec<Candidate<'a>>,
    params: &'a [InterfaceFuncParam],
) -> Result<(), OutOfMemory>
    ensures { OnOk result (map candidate_type candidates.new.items
        ≡ map candidate_type candidates.old.items ++ flat_map target (param_types params.now)) }
{
    for param in params {
        push_target(alloc, candidates, &param.tref)?;
    }
    Ok(())
}

/// Appends what the lists and pointers among the err types are of.
fn push_err_targets<'a>(
    alloc: Global,
    candidates: &mut Vec<Candidate<'a>>,
    results: &'a [InterfaceFuncParam],
) -> Result<(), OutOfMemory>
    ensures { OnOk result (map candidate_type candidates.new.items
        ≡ map candidate_type candidates.old.items ++ flat_map (λ t. flat_map target (err_types t)) (param_types results.now)) }
{
    for returned in results {
        push_err_target(alloc, candidates, &returned.tref)?;
    }
    Ok(())
}

/// Appends the ok and err types.
fn push_payloads<'a>(
    alloc: Global,
    candidates: &mut Vec<Candidate<'a>>,
    results: &'a [InterfaceFuncParam],
) -> Result<(), OutOfMemory>
    ensures { OnOk result (map candidate_type candidates.new.items
        ≡ map candidate_type candidates.old.items ++ flat_map (λ t. ok_types t ++ err_types t) (param_types results.now)) }
{
    for returned in results {
        push_payload(alloc, candidates, &returned.tref)?;
    }
    Ok(())
}

/// The ok and err types of the result.
fn payloads_of<'a>(
    alloc: Global,
    func: &'a InterfaceFunc,
) -> Result<Vec<Candidate<'a>>, OutOfMemory>
    ensures { IfOk result (λ v. map candidate_type v.items ≡ payload_types (called func.now)) }
{
    let mut payloads = Vec::new(alloc);
    push_payloads(alloc, &mut payloads, func.results.as_slice())?;
    Ok(payloads)
}

/// The types that the function holds.
fn held_of<'a>(alloc: Global, func: &'a InterfaceFunc) -> Result<Vec<Candidate<'a>>, OutOfMemory>
    ensures { IfOk result (λ v. map candidate_type v.items ≡ held_types (called func.now)) }
{
    let results = func.results.as_slice();
    let mut held = Vec::new(alloc);
    push_targets(alloc, &mut held, func.params.as_slice())?;
    push_targets(alloc, &mut held, results)?;
    push_err_targets(alloc, &mut held, results)?;
    push_payloads(alloc, &mut held, results)?;
    Ok(held)
}
