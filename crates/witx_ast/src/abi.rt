//! Which results a function may have, under each way of calling it.
#![tactic(auto, using(crate::proofs::ResultLaws::result_rules))]

ghost use Rattle.std.specs.{Prelude.{◌≡◌, Some, None, map, option_map, MatchResult}, Option.{option_copied}};
ghost use Rattle.witx_ast.specs.{Tree.{behind, fields_of}, Views.{tree_of, member_field}};
ghost use Rattle.witx_ast.specs.Functions.{param_field};
ghost use Rattle.witx_ast.specs.Results.{results_reason, result_reason, type_reason, payloads_reason, ok_named, all_named};

use crate::function::{Abi, Params};
use crate::types::{Datatype, RecordKind, RecordMember, TypeRef};

impl Abi {
    /// Whether the results are permitted, or the reason why not: at most one result. Under
    /// `Preview1` it is a scalar, flags, or an `ok`/`err` variant of named types; under `Stored`
    /// it is a name.
    pub fn validate(&self, _params: &Params, results: &Params) -> Result<(), &'static str>
        ensures { MatchResult result
            (λ _. results_reason self.now (map param_field results.now) ≡ None)
            (λ reason. results_reason self.now (map param_field results.now) ≡ Some reason.now) }
    {
        let results = results.as_slice();
        if results.len() > 1 {
            return Err("more than one result");
        }
        match results.first() {
            Some(only) => validate_result(*self, &only.tref),
            None => Ok(()),
        }
    }
}

fn validate_result(abi: Abi, tref: &TypeRef) -> Result<(), &'static str>
    ensures { MatchResult result
        (λ _. result_reason abi (tree_of tref.now) ≡ None)
        (λ reason. result_reason abi (tree_of tref.now) ≡ Some reason.now) }
{
    match abi {
        Abi::Preview1 => validate_type(tref),
        Abi::Stored => {
            if tref.named() {
                Ok(())
            } else {
                Err("only named types are allowed in results")
            }
        }
    }
}

fn validate_type(tref: &TypeRef) -> Result<(), &'static str>
    ensures { MatchResult result
        (λ _. type_reason (behind (tree_of tref.now)) ≡ None)
        (λ reason. type_reason (behind (tree_of tref.now)) ≡ Some reason.now) }
{
    match &**tref.type_() {
        Datatype::Handle(_)
        | Datatype::Pointer(_)
        | Datatype::ConstPointer(_)
        | Datatype::Builtin(_) => Ok(()),
        Datatype::List(_) => Err("invalid return type"),
        Datatype::Record(record) => match record.kind {
            RecordKind::Bitflags(_) => Ok(()),
            RecordKind::Tuple | RecordKind::Other => Err("invalid return type"),
        },
        Datatype::Variant(variant) => match variant.as_expected() {
            Some((ok, err)) => validate_payloads(ok, err),
            None => Err("invalid return type"),
        },
    }
}

fn validate_payloads(ok: Option<&TypeRef>, err: Option<&TypeRef>) -> Result<(), &'static str>
    ensures { MatchResult result
        (λ _. payloads_reason (Some (option_map tree_of (option_copied ok.entry), option_map tree_of (option_copied err.entry))) ≡ None)
        (λ reason. payloads_reason (Some (option_map tree_of (option_copied ok.entry), option_map tree_of (option_copied err.entry))) ≡ Some reason.now) }
{
    if let Some(ok) = ok {
        if !ok_is_named(ok) {
            return Err("only named types are allowed in results");
        }
    }
    if let Some(err) = err {
        if !err.named() {
            return Err("only named types are allowed in results");
        }
    }
    Ok(())
}

/// Whether an `ok` type is named, or is a tuple of named types.
fn ok_is_named(tref: &TypeRef) -> bool
    ensures { result ≡ ok_named (tree_of tref.now) }
{
    match &**tref.type_() {
        Datatype::Record(record) => match record.kind {
            RecordKind::Tuple => all_are_named(record.members.as_slice()),
            RecordKind::Bitflags(_) | RecordKind::Other => tref.named(),
        },
        Datatype::Variant(_)
        | Datatype::Handle(_)
        | Datatype::List(_)
        | Datatype::Pointer(_)
        | Datatype::ConstPointer(_)
        | Datatype::Builtin(_) => tref.named(),
    }
}

fn all_are_named(members: &[RecordMember]) -> bool
    ensures { result ≡ all_named (fields_of (map member_field members.now)) }
{
    for member in members {
        if !member.tref.named() {
            return false;
        }
    }
    true
}
