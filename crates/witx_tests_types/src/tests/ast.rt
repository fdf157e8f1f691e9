//! Names of types, documents in another order of definitions, look-ups, error types, cases in the order
//! of their tag, and a long chain of names.

use std::alloc::{AllocError, Global};
use std::hash::{DefaultHasher, Hash, Hasher};
use witx::parse;
use witx_ast::{Case, Cases, Datatype, Document, Module, NamedType, TypeRef, TypeRefs};
use witx_base::{Duplicate, Id, OutOfMemory};
use witx_fixtures::built_text;
use witx_fixtures_run::typename_of;

/// Texts, and the name of the type that stands behind the name `t`.
const NAMED: &[(&str, &str)] = &[
    ("(typename $size u8) (typename $t $size)", "size"),
    (
        "(typename $size u8) (typename $t (list $size))",
        "List<size>",
    ),
    (
        "(typename $size u8) (typename $t (expected (error (list $size))))",
        "Result<(), List<size>>",
    ),
];

fn has_name(alloc: Global, tref: &TypeRef, name: &str) -> bool {
    tref.type_name(alloc).is_ok_and(|own| own.as_str() == name)
}

/// Whether a copy of the type is equal to it and has that name.
fn shows(alloc: Global, named: &NamedType, name: &str) -> bool {
    named
        .tref
        .copy()
        .is_ok_and(|copy| copy == named.tref && has_name(alloc, &copy, name))
}

fn text_shows(alloc: Global, &(text, name): &(&str, &str)) -> bool {
    typename_of(alloc, text).is_some_and(|named| shows(alloc, &named, name))
}

#[test]
fn names_of_types(rt: HostRuntime) {
    let alloc = rt.alloc();
    assert!(rt; NAMED.iter().all(|row| text_shows(alloc, row)));
}

/// Two typenames, a module of a memory and two functions that fail in the same way, and a constant.
const ERRNO_FIRST: &str = r#"
(typename $errno u8)
(typename $size u8)
(module $fs
    (import "memory" (memory))
    (@interface func (export "read") (result $r (expected (error $errno))))
    (@interface func (export "write") (result $r (expected (error $errno)))))
(@witx const $size $most 9)"#;

/// The same but for the order of the typenames.
const SIZE_FIRST: &str = r#"
(typename $size u8)
(typename $errno u8)
(module $fs
    (import "memory" (memory))
    (@interface func (export "read") (result $r (expected (error $errno))))
    (@interface func (export "write") (result $r (expected (error $errno)))))
(@witx const $size $most 9)"#;

fn hash_of(document: &Document) -> u64 {
    let mut hasher = DefaultHasher::new();
    document.hash(&mut hasher);
    hasher.finish()
}

/// Whether documents whose definitions stand in another order are equal, and a copy is.
fn are_equal(one: &Document, other: &Document) -> bool {
    one == other
        && hash_of(one) == hash_of(other)
        && one.definitions() != other.definitions()
        && one.copy().is_ok_and(|copy| copy == *other)
}

fn equals_the_other(alloc: Global, one: &Document) -> bool {
    parse(alloc, SIZE_FIRST).is_ok_and(|other| are_equal(one, &other))
}

fn orders_are_equal(alloc: Global) -> bool {
    parse(alloc, ERRNO_FIRST).is_ok_and(|one| equals_the_other(alloc, &one))
}

#[test]
fn documents_in_another_order(rt: HostRuntime) {
    assert!(rt; orders_are_equal(rt.alloc()));
}

/// Names, and whether a typename or a module has them.
const LOOKED_UP: &[(&str, bool, bool)] = &[
    ("errno", true, false),
    ("fs", false, true),
    ("most", false, false),
];

fn finds(
    alloc: Global,
    document: &Document,
    name: &str,
    typename: bool,
    module: bool,
) -> Result<bool, OutOfMemory> {
    let name = Id::new(alloc, name)?;
    Ok(document.typename(&name).is_some() == typename && document.module(&name).is_some() == module)
}

fn finds_all(alloc: Global, document: &Document) -> bool {
    LOOKED_UP.iter().all(|(name, typename, module)| finds(
        alloc, document, name, *typename, *module,
    ).unwrap_or(false))
}

fn has_two_typenames(document: &Document) -> bool {
    let mut typenames = document.typenames();
    typenames.next().is_some() && typenames.next().is_some() && typenames.next().is_none()
}

fn has_one_constant(document: &Document) -> bool {
    let mut constants = document.constants();
    constants.next().is_some() && constants.next().is_none()
}

fn has_one_error_type(alloc: Global, document: &Document) -> bool {
    document
        .error_types(alloc)
        .is_ok_and(|trefs| trefs.len() == 1)
}

fn is_looked_up(alloc: Global, document: &Document) -> bool {
    finds_all(alloc, document)
        && has_two_typenames(document)
        && has_one_constant(document)
        && has_one_error_type(alloc, document)
}

#[test]
fn look_ups(rt: HostRuntime) {
    let alloc = rt.alloc();
    assert!(rt; parse(alloc, ERRNO_FIRST).is_ok_and(|document| is_looked_up(alloc, &document)));
}

fn has_read(alloc: Global, module: &Module) -> Result<bool, OutOfMemory> {
    let read = Id::new(alloc, "read")?;
    Ok(module.func(&read).is_some() && module.import(&read).is_none())
}

fn has_one_import(module: &Module) -> bool {
    let mut imports = module.imports();
    imports.next().is_some() && imports.next().is_none()
}

fn has_two_funcs(module: &Module) -> bool {
    let mut funcs = module.funcs();
    funcs.next().is_some() && funcs.next().is_some() && funcs.next().is_none()
}

fn equals_its_copy(module: &Module) -> bool {
    module.copy().is_ok_and(|copy| copy == *module)
}

fn has_items(alloc: Global, document: &Document) -> bool {
    match document.modules().next() {
        Some(module) => has_read(alloc, module).unwrap_or(false)
            && has_one_import(module)
            && has_two_funcs(module)
            && equals_its_copy(module),
        None => false,
    }
}

#[test]
fn items_of_a_module(rt: HostRuntime) {
    let alloc = rt.alloc();
    assert!(rt; parse(alloc, ERRNO_FIRST).is_ok_and(|document| has_items(alloc, &document)));
}

/// Texts, and the names of their error types.
const ERRORS: &[(&str, &[&str])] = &[
    (
        r#"
(typename $n u32)
(typename $e (enum $a $b))
(typename $size u32)
(typename $errno (enum $none $some))
(module $m
    (@interface func (export "f") (param $s string) (result $r (expected $n (error $e))))
    (@interface func (export "g") (result $r (expected (tuple $size $size) (error $errno)))))"#,
        &["e", "errno"],
    ),
    // Each once, where it comes first, also across modules.
    (
        r#"
(typename $errno (enum $none $some))
(typename $e (enum $a $b))
(module $m
    (@interface func (export "f") (result $r (expected (error $e))))
    (@interface func (export "g") (result $r (expected (error $errno))))
    (@interface func (export "h") (result $r (expected (error $e)))))
(module $k
    (@interface func (export "f") (result $r (expected (error $errno)))))"#,
        &["e", "errno"],
    ),
    (
        r#"(module $m (@interface func (export "f") (result $r u8)))"#,
        &[],
    ),
];

fn are_named(alloc: Global, trefs: &TypeRefs, names: &[&str]) -> bool {
    for (tref, name) in trefs.iter().zip(names) {
        if !has_name(alloc, tref, name) {
            return false;
        }
    }
    trefs.len() == names.len()
}

fn has_errors(alloc: Global, document: &Document, names: &[&str]) -> bool {
    document
        .error_types(alloc)
        .is_ok_and(|trefs| are_named(alloc, &trefs, names))
}

fn text_has_errors(alloc: Global, &(text, names): &(&str, &[&str])) -> bool {
    parse(alloc, text).is_ok_and(|document| has_errors(alloc, &document, names))
}

#[test]
fn error_types_in_order(rt: HostRuntime) {
    let alloc = rt.alloc();
    assert!(rt; ERRORS.iter().all(|row| text_has_errors(alloc, row)));
}

/// Texts, and the names of the cases of `t` with the names of their payloads.
const CASES: &[(&str, &[(&str, Option<&str>)])] = &[
    // In the order of the tag.
    (
        r#"
(typename $tag (enum (@witx tag u8) $a $b))
(typename $t (variant (@witx tag $tag) (case $b u8) (case $a)))"#,
        &[("a", None), ("b", Some("u8"))],
    ),
    // A union takes the names of its tag in their order.
    (
        r#"
(typename $tag (enum (@witx tag u8) $a $b))
(typename $t (union (@witx tag $tag) u16 u32))"#,
        &[("a", Some("u16")), ("b", Some("u32"))],
    ),
    (
        "(typename $t (union u8 u64))",
        &[("0", Some("u8")), ("1", Some("u64"))],
    ),
    (
        "(typename $t (expected u8 (error u16)))",
        &[("ok", Some("u8")), ("err", Some("u16"))],
    ),
    ("(typename $t bool)", &[("false", None), ("true", None)]),
    ("(typename $t (enum $x $y))", &[("x", None), ("y", None)]),
];

fn has_payload(alloc: Global, case: &Case, payload: Option<&str>) -> bool {
    match (&case.tref, payload) {
        (Some(tref), Some(payload)) => has_name(alloc, tref, payload),
        (None, None) => true,
        _ => false,
    }
}

fn is_case(alloc: Global, case: &Case, name: &str, payload: Option<&str>) -> bool {
    has_payload(alloc, case, payload) && case.name.is(name)
}

fn are_cases(alloc: Global, cases: &Cases, wanted: &[(&str, Option<&str>)]) -> bool {
    for (case, (name, payload)) in cases.iter().zip(wanted) {
        if !is_case(alloc, case, name, *payload) {
            return false;
        }
    }
    cases.len() == wanted.len()
}

fn named_has_cases(alloc: Global, named: &NamedType, wanted: &[(&str, Option<&str>)]) -> bool {
    match &**named.type_() {
        Datatype::Variant(variant) => are_cases(alloc, &variant.cases, wanted),
        _ => false,
    }
}

fn has_cases(alloc: Global, &(text, wanted): &(&str, &[(&str, Option<&str>)])) -> bool {
    typename_of(alloc, text).is_some_and(|named| named_has_cases(alloc, &named, wanted))
}

#[test]
fn cases_in_order(rt: HostRuntime) {
    let alloc = rt.alloc();
    assert!(rt; CASES.iter().all(|row| has_cases(alloc, row)));
}

/// Names each of which stands for the one before, with `t` as the last.
fn chain(alloc: Global) -> Result<String, AllocError> {
    built_text(
        alloc,
        &[
            ("(typename $n0 u8)", 1),
            ("\n(typename $n^ $n#)", 19_998),
            ("\n(typename $t $n19998)", 1),
        ],
    )
}

fn is_builtin(alloc: Global, document: &Document) -> Option<bool> {
    let name = Id::new(alloc, "t").ok()?;
    Some(document.typename(&name)?.type_().kind() == "builtin")
}

fn ends_builtin(alloc: Global, text: &str) -> bool {
    parse(alloc, text).is_ok_and(|document| is_builtin(alloc, &document) == Some(true))
}

/// The document is let go last: names that are let go by themselves are let go each within the next.
fn chain_ends(alloc: Global) -> bool {
    chain(alloc).is_ok_and(|text| ends_builtin(alloc, text.as_str()))
}

#[test]
fn a_long_chain_of_names(rt: HostRuntime) {
    assert!(rt; chain_ends(rt.alloc()));
}
