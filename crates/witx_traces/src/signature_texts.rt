//! The signature that a text is.
//!
//! It is read loosely, and then its own text is compared with what stands there.
#![tactic(auto, using(crate::proofs::SignatureReading::type_rules))]

ghost use Rattle.std.specs.Prelude.{◌≡◌, ◌≤◌, IfOk, length, option_map};
ghost use Rattle.witx_base.specs.Texts.{same_text};
ghost use Rattle.witx_adapt.specs.Names.{signature};
ghost use Rattle.witx_traces.specs.LineReading.{IsFirstType, LeavesLess, SignatureAt, TypesAt, behind_space, signature_parts, taken_line};

use crate::heads::behind;
use std::alloc::Global;
use witx_abi::{WasmType, WasmTypes};
use witx_adapt::put_signature;
use witx_base::OutOfMemory;

/// The parameters and the results of a signature.
#[derive(Drop)]
pub(crate) struct WasmSignature {
    pub(crate) params: WasmTypes,
    pub(crate) results: WasmTypes,
}

/// The type at the head, and what follows it.
fn first_type(text: &str) -> Option<(WasmType, &str)>
    ensures first { IsFirstType text.now (option_map taken_line result) }
    ensures shorter { LeavesLess text.now result }
{
    if let Some(rest) = behind(text, "i32") {
        return Some((WasmType::I32, rest));
    }
    if let Some(rest) = behind(text, "i64") {
        return Some((WasmType::I64, rest));
    }
    if let Some(rest) = behind(text, "f32") {
        return Some((WasmType::F32, rest));
    }
    if let Some(rest) = behind(text, "f64") {
        return Some((WasmType::F64, rest));
    }
    None
}

/// What follows a space, if one stands at the head.
fn behind_space(text: &str) -> &str
    ensures behind { result.now ≡ behind_space text.now }
    ensures shorter { length result.now ≤ length text.now }
{
    match behind(text, " ") {
        Some(rest) => rest,
        None => text,
    }
}

/// The types at the head with a space behind each but the last, and what follows them.
#[tactic(auto, using(crate::proofs::SignatureReading::loop_rules))]
fn read_types(alloc: Global, text: &str) -> Result<(WasmTypes, &str), OutOfMemory>
    ensures { IfOk result (λ p. TypesAt text.now p.0 p.1.now) }
{
    let mut types = WasmTypes::new(alloc);
    let mut rest = text;
    while let Some((ty, more)) = first_type(rest) {
        types.push(ty)?;
        rest = behind_space(more);
    }
    Ok((types, rest))
}

/// The signature that the text is.
#[tactic(auto, using(crate::proofs::SignatureReading::signature_rules))]
pub(crate) fn read_signature(
    alloc: Global,
    text: &str,
) -> Result<Option<WasmSignature>, OutOfMemory>
    ensures { IfOk result (λ o. SignatureAt text.now (option_map signature_parts o)) }
{
    let Some(inside) = behind(text, "(") else {
        return Ok(None);
    };
    let (params, rest) = read_types(alloc, inside)?;
    let Some(inside_results) = behind(rest, ") -> (") else {
        return Ok(None);
    };
    let (results, _end) = read_types(alloc, inside_results)?;
    if is_signature(alloc, params.as_slice(), results.as_slice(), text)? {
        return Ok(Some(WasmSignature { params, results }));
    }
    Ok(None)
}

/// Whether the text is that of the signature.
#[tactic(auto, unfolding(witx_base::specs::Texts::same_text))]
fn is_signature(
    alloc: Global,
    params: &[WasmType],
    results: &[WasmType],
    text: &str,
) -> Result<bool, OutOfMemory>
    ensures { IfOk result (λ same. same ≡ same_text (signature params.now results.now) text.now) }
{
    let mut shown = String::new(alloc);
    put_signature(&mut shown, params, results)?;
    Ok(shown.as_str() == text)
}
