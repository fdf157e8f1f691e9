//! Documents, functions, values and entries by hand, and what the tests of conditions say of them.

use std::alloc::Global;
use std::rc::Rc;
use witx_ast::{BuiltinType, Definitions, Document, InterfaceFunc};
use witx_base::{Duplicate, OutOfMemory};
use witx_bytes::{Value, Values};
use witx_fixtures_run::func_of;
use witx_tools::{
    FuncPolyfill, adapt_document, allocate_writable, are_values, document_of, has_each_entry,
    is_closed, is_mapped, is_ordered, parse, takes_values,
};

/// Texts, and of the document of their definitions the other way round whether it is ordered, and closed.
#[rattlefmt::skip]
const TURNED: &[(&str, bool, bool)] = &[
    ("(typename $a u8) (typename $b u16)", true, true),
    ("(typename $a u8) (typename $b (list $a))", false, false),
    (r#"(typename $a u8) (module $m (@interface func (export "f") (param $x $a)))"#, true, false),
    (r#"(module $m (@interface func (export "f"))) (typename $a u8)"#, true, true),
];

fn turned(alloc: Global, document: &Document) -> Result<Definitions, OutOfMemory> {
    let mut definitions = Definitions::new(alloc);
    for definition in document.definitions().as_slice().iter().rev() {
        definitions.push(definition.copy()?)?;
    }
    Ok(definitions)
}

fn document_turned(alloc: Global, text: &str) -> Option<Document> {
    let document = parse(alloc, text).ok()?;
    let definitions = turned(alloc, &document).ok()?;
    document_of(alloc, definitions).ok()?
}

fn are_turned(alloc: Global) -> bool {
    for (text, ordered, closed) in TURNED {
        if !document_turned(alloc, text).is_some_and(|it| is_ordered(&it) == *ordered
            && is_closed(&it) == *closed)
        {
            return false;
        }
    }
    true
}

#[test]
fn documents_turned_round(rt: HostRuntime) {
    assert!(rt; are_turned(rt.alloc()));
}

/// Whether there is no document of the definitions of the text, each twice.
fn has_none_twice(alloc: Global, text: &str) -> Option<bool> {
    let document = parse(alloc, text).ok()?;
    let mut definitions = turned(alloc, &document).ok()?;
    for definition in document.definitions().as_slice() {
        definitions.push(definition.copy().ok()?).ok()?;
    }
    Some(document_of(alloc, definitions).ok()?.is_none())
}

#[test]
fn names_that_stand_twice(rt: HostRuntime) {
    assert!(rt; has_none_twice(rt.alloc(), "(typename $a u8)").unwrap_or(false));
}

const TAKES_A_BYTE: &str =
    r#"(module $m (@interface func (export "f") (param $x u8) (result $r u8)))"#;

/// Whether a function takes values, and not with its result twice.
fn takes_one_result(func: &InterfaceFunc) -> Option<bool> {
    let mut made = func.copy().ok()?;
    made.results.push(func.results.get(0)?.copy().ok()?).ok()?;
    Some(takes_values(func) && !takes_values(&made))
}

/// Numbers, and whether they are values of a byte.
const BYTES: &[(i128, bool)] = &[(0, true), (255, true), (256, false), (-1, false)];

fn number(number: i128) -> Value {
    Value::Num(BuiltinType::U8 { lang_c_char: false }, number)
}

fn has_values(alloc: Global, func: &InterfaceFunc, given: i128) -> Option<bool> {
    let mut args = Values::new(alloc);
    args.push(number(given)).ok()?;
    let reply = number(given);
    Some(are_values(func, &args, Some(&reply)) && !are_values(func, &args, None))
}

fn are_bytes(alloc: Global, func: &InterfaceFunc) -> bool {
    BYTES.iter().all(|(given, is_byte)| has_values(alloc, func, *given) == Some(*is_byte))
}

#[test]
fn functions_and_values(rt: HostRuntime) {
    let alloc = rt.alloc();
    assert!(rt;
        func_of(alloc, TAKES_A_BYTE).is_some_and(|func| {
            takes_one_result(&func).unwrap_or(false) && are_bytes(alloc, &func)
        })
    );
}

/// Whether a function is mapped to itself, and not without what is mapped of its parameters.
fn is_mapped_whole(alloc: Global, func: &Rc<InterfaceFunc>) -> Option<bool> {
    let new = func.clone().ok()?;
    let old = func.clone().ok()?;
    let mut mapped = FuncPolyfill::new(alloc, new, old).ok()?;
    let whole = is_mapped(alloc, &mapped).ok()?;
    mapped.mapped_params.truncate(0);
    Some(whole && !is_mapped(alloc, &mapped).ok()?)
}

#[test]
fn mapped_functions(rt: HostRuntime) {
    let alloc = rt.alloc();
    assert!(rt;
        func_of(alloc, TAKES_A_BYTE).is_some_and(|func| is_mapped_whole(alloc, &func).unwrap_or(
            false
        ))
    );
}

/// Whether all that the traces of a text's functions take is writable.
fn all_writable(alloc: Global, text: &str) -> Option<bool> {
    let document = parse(alloc, text).ok()?;
    let adapted = adapt_document(alloc, document).ok()?;
    for entry in adapted.functions.as_slice() {
        if !allocate_writable(&entry.func, entry.caller.events(), entry.callee.events()) {
            return Some(false);
        }
    }
    Some(true)
}

#[test]
fn traces_that_take_writable(rt: HostRuntime) {
    assert!(rt; all_writable(rt.alloc(), TAKES_A_BYTE).unwrap_or(false));
}

const TWO_FUNCTIONS: &str = r#"
(module $m (import "memory" (memory)) (@interface func (export "f")))
(module $n (@interface func (export "f")))
"#;

/// Texts, how many entries are kept, and whether there is one for each function then.
#[rattlefmt::skip]
const ENTRIES: &[(&str, usize, bool)] = &[
    ("(typename $a u8)", 0, true),
    (TAKES_A_BYTE, 1, true),
    (TAKES_A_BYTE, 0, false),
    (TWO_FUNCTIONS, 2, true),
    (TWO_FUNCTIONS, 1, false),
];

fn keeps_each(alloc: Global, text: &str, kept: usize) -> Option<bool> {
    let document = parse(alloc, text).ok()?;
    let mut adapted = adapt_document(alloc, document).ok()?;
    adapted.functions.truncate(kept);
    Some(has_each_entry(&adapted))
}

fn all_keep(alloc: Global) -> bool {
    for (text, kept, each) in ENTRIES {
        if keeps_each(alloc, text, *kept) != Some(*each) {
            return false;
        }
    }
    true
}

#[test]
fn entries_of_functions(rt: HostRuntime) {
    assert!(rt; all_keep(rt.alloc()));
}
