//! What an attacker would send: functions made by hand, which no text has.

use std::alloc::Global;
use std::rc::Rc;
use witx::parse;
use witx_abi::{AbiError, AbiFunc, Place, Trace, WasmType, WasmTypes, lowerable};
use witx_ast::{Abi, Document, InterfaceFunc, InterfaceFuncParam, NamedType, Params, TypeRef};
use witx_base::{Id, Items, Text};

/// The types that the functions take and give.
const TYPES: &str = "\
(typename $n u32)
(typename $long u64)
(typename $plain (record (field $x u8)))
(typename $pair (tuple u8 u8))
(typename $mixed (tuple $n u8))
(typename $none (tuple))
(typename $flag bool)
(typename $fd (handle))
(typename $bytes (list u8))
(typename $e (enum $a $b))
(typename $empty (variant (@witx tag u8)))
(typename $wide (variant (@witx tag u64) (case $ok) (case $err)))
(typename $ok_mixed (expected $mixed (error $e)))
(typename $ok_none (expected (tuple) (error $e)))
(typename $err_bytes (expected $n (error $bytes)))
(typename $err_long (expected $n (error $long)))";

/// The types of parameters and of results, `*` for the type that stands behind a name; the place that
/// can't be lowered; and the types of the words in and back, or none where a result has none.
type Handmade = (
    &'static [&'static str],
    &'static [&'static str],
    Option<Place>,
    Option<(&'static [WasmType], &'static [WasmType])>,
);

const I32: WasmType = WasmType::I32;

const I64: WasmType = WasmType::I64;

#[rattlefmt::skip]
static PREVIEW1: &[Handmade] = &[
    (&[], &[], None, Some((&[], &[]))),
    // More than one result.
    (&[], &["n", "n"], Some(Place::Result(1)), Some((&[], &[I32, I32]))),
    (&["n"], &["n", "long", "n"], Some(Place::Result(1)), Some((&[I32], &[I32, I64, I32]))),
    // Parameters without a name.
    (&["*plain"], &[], Some(Place::Param(0)), Some((&[I32], &[]))),
    (&["n", "*pair"], &["n", "n"], Some(Place::Param(1)), Some((&[I32, I32], &[I32, I32]))),
    (&["*flag"], &[], Some(Place::Param(0)), Some((&[I32], &[]))),
    (&["long", "*fd"], &[], Some(Place::Param(1)), Some((&[I64, I32], &[]))),
    (&["*empty"], &[], Some(Place::Param(0)), Some((&[I32], &[]))),
    (&["plain", "pair", "flag", "fd", "*bytes"], &[], None, Some((&[I32, I32, I32, I32, I32, I32], &[]))),
    // A variant without a case.
    (&["empty"], &[], None, Some((&[I32], &[]))),
    // An ok type that is a tuple by name, with a member that has none; an empty one.
    (&[], &["ok_mixed"], Some(Place::Result(0)), Some((&[I32, I32], &[I32]))),
    (&[], &["*ok_mixed"], Some(Place::Result(0)), Some((&[I32, I32], &[I32]))),
    (&[], &["*ok_none"], None, Some((&[], &[I32]))),
    // Errors that aren't one word of 32 bits, and a tag of 64.
    (&[], &["err_bytes"], Some(Place::Result(0)), Some((&[I32], &[I32]))),
    (&[], &["err_long"], Some(Place::Result(0)), Some((&[I32], &[I32]))),
    (&[], &["wide"], Some(Place::Result(0)), Some((&[], &[I64]))),
    // Results that no word brings back.
    (&[], &["bytes"], Some(Place::Result(0)), None),
    (&[], &["plain"], Some(Place::Result(0)), None),
    (&[], &["*fd"], Some(Place::Result(0)), Some((&[], &[I32]))),
];

#[rattlefmt::skip]
static STORED: &[Handmade] = &[
    (&[], &["bytes"], None, Some((&[I32], &[]))),
    (&["long"], &["ok_mixed"], None, Some((&[I64, I32], &[]))),
    (&[], &["*ok_none"], Some(Place::Result(0)), Some((&[I32], &[]))),
    (&[], &["n", "n"], Some(Place::Result(1)), Some((&[I32], &[]))),
];

fn tref_to(named: &Rc<NamedType>, is_value: bool) -> Option<TypeRef> {
    if is_value {
        Some(TypeRef::Value(named.type_().clone().ok()?))
    } else {
        Some(TypeRef::Name(named.clone().ok()?))
    }
}

fn tref_of(alloc: Global, document: &Document, word: &str) -> Option<TypeRef> {
    let name = Id::new(alloc, word.strip_prefix('*').unwrap_or(word)).ok()?;
    tref_to(document.typename(&name)?, word.starts_with('*'))
}

fn param_of(alloc: Global, document: &Document, word: &str) -> Option<InterfaceFuncParam> {
    let name = Id::new(alloc, "x").ok()?;
    let docs = Text::new(alloc, "").ok()?;
    let tref = tref_of(alloc, document, word)?;
    Some(InterfaceFuncParam { name, tref, docs })
}

fn params_of(alloc: Global, document: &Document, words: &[&str]) -> Option<Params> {
    let mut params = Items::new(alloc);
    for word in words {
        params.push(param_of(alloc, document, word)?).ok()?;
    }
    Some(params)
}

/// The parameters and the results of a row.
fn sides_of(alloc: Global, document: &Document, row: &Handmade) -> Option<(Params, Params)> {
    let params = params_of(alloc, document, row.0)?;
    Some((params, params_of(alloc, document, row.1)?))
}

fn func_of(alloc: Global, document: &Document, abi: Abi, row: &Handmade) -> Option<InterfaceFunc> {
    let name = Id::new(alloc, "f").ok()?;
    let docs = Text::new(alloc, "").ok()?;
    let (params, results) = sides_of(alloc, document, row)?;
    Some(InterfaceFunc {
        abi,
        name,
        params,
        results,
        noreturn: false,
        docs,
    })
}

type Signature = Option<(&'static [WasmType], &'static [WasmType])>;

fn are_words(found: &(WasmTypes, WasmTypes), wanted: (&[WasmType], &[WasmType])) -> bool {
    found.0.as_slice() == wanted.0 && found.1.as_slice() == wanted.1
}

fn has_signature(alloc: Global, func: &InterfaceFunc, wanted: Signature) -> bool {
    match (func.wasm_signature(alloc), wanted) {
        (Ok(found), Some(wanted)) => are_words(&found, wanted),
        (Err(_), None) => true,
        _ => false,
    }
}

/// Whether the events of one side are made, or else refused before the first with the place.
fn is_played(answer: Result<(), AbiError>, trace: &Trace, place: Option<Place>) -> bool {
    match place {
        Some(place) => answer == Err(AbiError::Unlowerable(place)) && trace.events().is_empty(),
        None => answer.is_ok() && !trace.events().is_empty(),
    }
}

fn sides_are(alloc: Global, func: &InterfaceFunc, place: Option<Place>) -> bool {
    let Ok(module) = Id::new(alloc, "m") else {
        return false;
    };
    let mut caller = Trace::new(alloc);
    let mut callee = Trace::new(alloc);
    let called = func.call_wasm(alloc, &module, &mut caller);
    let calls = func.call_interface(alloc, &module, &mut callee);
    is_played(called, &caller, place) && is_played(calls, &callee, place)
}

fn is_as_wanted(alloc: Global, func: &InterfaceFunc, row: &Handmade) -> bool {
    lowerable(func).err() == row.2
        && has_signature(alloc, func, row.3)
        && sides_are(alloc, func, row.2)
}

fn row_is_as_wanted(alloc: Global, document: &Document, abi: Abi, row: &Handmade) -> bool {
    match func_of(alloc, document, abi, row) {
        Some(func) => is_as_wanted(alloc, &func, row),
        None => false,
    }
}

fn are_as_wanted(alloc: Global, document: &Document, abi: Abi, rows: &[Handmade]) -> bool {
    for row in rows {
        if !row_is_as_wanted(alloc, document, abi, row) {
            return false;
        }
    }
    true
}

fn all_as_wanted(alloc: Global) -> bool {
    parse(alloc, TYPES).is_ok_and(|document| are_as_wanted(
        alloc,
        &document,
        Abi::Preview1,
        PREVIEW1,
    ) && are_as_wanted(alloc, &document, Abi::Stored, STORED))
}

#[test]
fn functions_made_by_hand(rt: HostRuntime) {
    assert!(rt; all_as_wanted(rt.alloc()));
}
