//! How types are represented by others, how modules are mapped to others, and the Markdown of it.

use std::alloc::{AllocError, Global};
use std::fmt::Write;
use std::rc::Rc;
use witx::parse;
use witx_ast::{
    Datatype, Document, IntRepr, InterfaceFunc, InterfaceFuncParam, Module, NamedType, Params,
};
use witx_base::{Duplicate, Id};
use witx_compat::{
    FuncPolyfill, ModulePolyfill, ParamPolyfill, RepEquality, Representable, TypePolyfill,
};
use witx_docs::Documentation;

/// Types, and how each is represented by every type of the table, in order: `=` as an equal, `<` by
/// one that has room for more, `.` not at all. The second type is named `t1`.
const REPRESENTED: &[(&str, &str)] = &[
    ("char", "=....................................."),
    ("u8", ".=.<<<<......=........................"),
    ("(@witx char8)", "..=<<<<..............................."),
    ("u16", "...=<<<..............................."),
    ("u32", "....=.<..............................."),
    ("(@witx usize)", ".....=<..............................."),
    ("u64", "......=..............................."),
    ("s8", ".......=.............................."),
    ("s16", "........=............................."),
    ("s32", ".........=............................"),
    ("s64", "..........=..........................."),
    ("f32", "...........=.........................."),
    ("f64", "............=........................."),
    ("$t1", ".=.<<<<......=........................"),
    ("(handle)", "..............=......................."),
    ("(list u8)", "...............=<....................."),
    ("(list u16)", "................=....................."),
    ("string", ".................=...................."),
    (
        "(@witx pointer u8)",
        "..................=<..................",
    ),
    (
        "(@witx pointer u16)",
        "...................=..................",
    ),
    (
        "(@witx const_pointer u8)",
        "....................=.................",
    ),
    ("(tuple u8 u8)", ".....................=................"),
    (
        "(record (field $0 u8) (field $1 u8))",
        "......................=...............",
    ),
    (
        "(record (field $1 u8) (field $0 u8))",
        ".......................=..............",
    ),
    (
        "(record (field $0 u8) (field $1 u16))",
        "........................=.............",
    ),
    (
        "(record (field $0 u8))",
        ".........................=............",
    ),
    (
        "(flags (@witx repr u8) $x $y)",
        "..........................=...........",
    ),
    (
        "(flags (@witx repr u16) $x $y)",
        "...........................=..........",
    ),
    (
        "(enum (@witx tag u8) $x $y)",
        "............................=....<.<<.",
    ),
    (
        "(enum (@witx tag u16) $x $y)",
        ".............................=<<......",
    ),
    (
        "(enum (@witx tag u32) $x $y)",
        "..............................=<......",
    ),
    (
        "(enum (@witx tag u64) $x $y)",
        "...............................=......",
    ),
    (
        "(enum (@witx tag u8) $x)",
        "............................<...=<.<<.",
    ),
    (
        "(enum (@witx tag u8) $x $y $z)",
        ".................................=....",
    ),
    (
        "(enum (@witx tag u8) $y $x)",
        "..................................=...",
    ),
    (
        "(variant (@witx tag u8) (case $x u8) (case $y))",
        "...................................=<.",
    ),
    (
        "(variant (@witx tag u8) (case $x u16) (case $y))",
        "....................................=.",
    ),
    (
        "(variant (@witx tag u8) (case $x) (case $x))",
        "......................................",
    ),
];

fn letter(answer: RepEquality) -> char {
    match answer {
        RepEquality::Eq => '=',
        RepEquality::Superset => '<',
        RepEquality::NotEq => '.',
    }
}

/// Each type under a name of its own.
fn table_text(alloc: Global) -> Result<String, AllocError> {
    let mut text = String::new(alloc);
    let mut number: u64 = 0;
    for (form, _) in REPRESENTED {
        write!(text, "(typename $t{number} {form})\n")?;
        number = number.saturating_add(1);
    }
    Ok(text)
}

/// Whether the types themselves, behind their names, have the answer.
fn parts_answer(one: &Datatype, by: &Datatype, wanted: RepEquality) -> bool {
    match (one, by) {
        (Datatype::Record(one), Datatype::Record(by)) => one.representable(by) == wanted,
        (Datatype::Variant(one), Datatype::Variant(by)) => one.representable(by) == wanted,
        (Datatype::Builtin(one), Datatype::Builtin(by)) => one.representable(by) == wanted,
        _ => one.representable(by) == wanted,
    }
}

fn answers(one: &NamedType, by: &NamedType, wanted: char) -> bool {
    let answer = one.representable(by);
    letter(answer) == wanted
        && one.tref.representable(&by.tref) == answer
        && parts_answer(one.type_(), by.type_(), answer)
}

fn row_answers(document: &Document, one: &NamedType, row: &str) -> bool {
    for (by, wanted) in document.typenames().zip(row.chars()) {
        if !answers(one, by, wanted) {
            return false;
        }
    }
    true
}

fn table_answers(document: &Document) -> bool {
    for (one, (_, row)) in document.typenames().zip(REPRESENTED) {
        if !row_answers(document, one, row) {
            return false;
        }
    }
    true
}

fn text_answers(alloc: Global, text: &str) -> bool {
    parse(alloc, text).is_ok_and(|document| table_answers(&document))
}

fn table_holds(alloc: Global) -> bool {
    table_text(alloc).is_ok_and(|text| text_answers(alloc, text.as_str()))
}

#[test]
fn types_by_types(rt: HostRuntime) {
    assert!(rt; table_holds(rt.alloc()));
}

/// Two types, how the first is represented by the second, and the second by the first.
const PAIRS: &[(&str, &str, &str)] = &[
    // Names are looked through, and documentation is none of a type.
    ("(list $n)", "(list (list u8))", "=="),
    (
        "(record (field $x $n))",
        "(record ;;; a field\n (field $x (list u8)))",
        "==",
    ),
    // A record's members are equal or not.
    (
        "(record (field $x u8) (field $y u8))",
        "(record (field $x u8) (field $y u16))",
        "..",
    ),
    (
        "(record (field $x (list u8)))",
        "(record (field $x (list u16)))",
        "..",
    ),
    ("(record (field $x u8))", "(record (field $y u8))", ".."),
    // Targets and payloads are looked into.
    ("(list (list u8))", "(list (list u64))", "<."),
    (
        "(@witx pointer (list u8))",
        "(@witx pointer (list u8))",
        "==",
    ),
    (
        "(list (@witx pointer u8))",
        "(list (@witx const_pointer u8))",
        "..",
    ),
    (
        "(expected u8 (error u16))",
        "(expected u16 (error u16))",
        "<.",
    ),
    ("(expected (error u16))", "(expected u8 (error u16))", "<."),
    (
        "(expected u8 (error u16))",
        "(expected u16 (error u8))",
        "..",
    ),
    ("(union u8 u16)", "(union u8 u16 u32)", "<."),
    // The tag is wider, and a payload narrower.
    (
        "(variant (@witx tag u16) (case $x u32))",
        "(variant (@witx tag u32) (case $x u16))",
        "..",
    ),
    (
        "(variant (@witx tag u16) (case $x u16))",
        "(variant (@witx tag u32) (case $x u32) (case $y))",
        "<.",
    ),
    // Another name of a case.
    ("(enum $x $y)", "(enum $x $z)", ".."),
];

fn pair_answers(document: &Document, wanted: &str) -> bool {
    let mut typenames = document.typenames().skip(1);
    let (Some(one), Some(other)) = (typenames.next(), typenames.next()) else {
        return false;
    };
    let mut letters = wanted.chars();
    letters
        .next()
        .is_some_and(|there| answers(one, other, there))
        && letters.next().is_some_and(|back| answers(other, one, back))
}

fn pair_text(alloc: Global, one: &str, other: &str) -> Result<String, AllocError> {
    let mut text = String::new(alloc);
    write!(
        text,
        "(typename $n (list u8))\n(typename $a {one})\n(typename $b {other})"
    )?;
    Ok(text)
}

fn text_pairs(alloc: Global, text: &str, wanted: &str) -> bool {
    parse(alloc, text).is_ok_and(|document| pair_answers(&document, wanted))
}

fn pair_holds(alloc: Global, &(one, other, wanted): &(&str, &str, &str)) -> bool {
    pair_text(alloc, one, other).is_ok_and(|text| text_pairs(alloc, text.as_str(), wanted))
}

#[test]
fn parts_by_parts(rt: HostRuntime) {
    let alloc = rt.alloc();
    assert!(rt; PAIRS.iter().all(|row| pair_holds(alloc, row)));
}

/// How representations of tags are represented by others, in order.
const TAGS: [(IntRepr, &str); 4] = [
    (IntRepr::U8, "=..."),
    (IntRepr::U16, ".=<<"),
    (IntRepr::U32, "..=<"),
    (IntRepr::U64, "...="),
];

fn tag_answers(tag: IntRepr, row: &str) -> bool {
    for ((by, _), wanted) in TAGS.iter().zip(row.chars()) {
        if letter(tag.representable(by)) != wanted {
            return false;
        }
    }
    true
}

fn tags_answer() -> bool {
    TAGS.iter().all(|(tag, row)| tag_answers(*tag, row))
}

#[test]
fn tags_by_tags(rt: HostRuntime) {
    assert!(rt; tags_answer());
}

/// Two answers, and their join.
const JOINS: [(RepEquality, RepEquality, RepEquality); 9] = [
    (RepEquality::Eq, RepEquality::Eq, RepEquality::Eq),
    (RepEquality::Eq, RepEquality::Superset, RepEquality::NotEq),
    (RepEquality::Eq, RepEquality::NotEq, RepEquality::NotEq),
    (RepEquality::Superset, RepEquality::Eq, RepEquality::NotEq),
    (
        RepEquality::Superset,
        RepEquality::Superset,
        RepEquality::NotEq,
    ),
    (
        RepEquality::Superset,
        RepEquality::NotEq,
        RepEquality::NotEq,
    ),
    (RepEquality::NotEq, RepEquality::Eq, RepEquality::NotEq),
    (
        RepEquality::NotEq,
        RepEquality::Superset,
        RepEquality::NotEq,
    ),
    (RepEquality::NotEq, RepEquality::NotEq, RepEquality::NotEq),
];

fn joins_hold() -> bool {
    for (one, other, joined) in JOINS {
        if one.join(&other) != joined {
            return false;
        }
    }
    true
}

#[test]
fn joined_answers(rt: HostRuntime) {
    assert!(rt; joins_hold());
}

/// Two modules, of one function and of two.
const TWO_MODULES: &str = r#"
(module $k (@interface func (export "g") (param $s string) (result $r u8)))
(module $m (@interface func (export "f") (param $a u8)) (@interface func (export "h")))"#;

/// Two functions of one document, and the Markdown of the second in terms of the first.
const FUNCTIONS: &[(&str, &str, &str)] = &[
    ("f", "f", "* `f`: full compatibility"),
    // Other names alone, without parts and with one.
    ("none", "nothing", "* `nothing` => `none`"),
    (
        "f",
        "g",
        "* `g` => `f`:\n    - param `x`: compatible\n    - result `r`: compatible",
    ),
    (
        "f",
        "none",
        "* `none` => `f`:\n    - new param `x`: no corresponding result!\n    - new result `r`: no corresponding result!",
    ),
    (
        "none",
        "f",
        "* `f` => `none`:\n    - old param `x`: no corresponding result!\n    - old result `r`: no corresponding result!",
    ),
];

const FUNCTIONS_TEXT: &str = r#"
(module $m
    (@interface func (export "f") (param $x u8) (result $r u8))
    (@interface func (export "g") (param $x u8) (result $r u8))
    (@interface func (export "none"))
    (@interface func (export "nothing")))"#;

fn func(alloc: Global, module: &Module, name: &str) -> Option<Rc<InterfaceFunc>> {
    let name = Id::new(alloc, name).ok()?;
    module.func(&name)?.clone().ok()
}

/// Whether a function's Markdown is this, and its mapped parts are two conversions.
fn function_is(alloc: Global, mapped: &FuncPolyfill, wanted: &str) -> bool {
    let parts = mapped
        .mapped_params
        .len()
        .saturating_add(mapped.mapped_results.len());
    mapped
        .to_md(alloc)
        .is_ok_and(|text| text.as_str() == wanted)
        && mapped
            .type_polyfills(alloc)
            .is_ok_and(|kinds| kinds.len() == parts)
        && mapped.copy().is_ok_and(|copy| copy == *mapped)
}

fn functions_are(
    alloc: Global,
    module: &Module,
    new: &str,
    old: &str,
    wanted: &str,
) -> Option<bool> {
    let new = func(alloc, module, new)?;
    let old = func(alloc, module, old)?;
    Some(FuncPolyfill::new(alloc, new, old).is_ok_and(|mapped| function_is(alloc, &mapped, wanted)))
}

fn all_functions_are(alloc: Global, document: &Document) -> bool {
    let Some(module) = document.modules().next() else {
        return false;
    };
    FUNCTIONS.iter().all(|(new, old, wanted)| functions_are(alloc, module, new, old, wanted)
        == Some(true))
}

#[test]
fn functions_in_terms_of_others(rt: HostRuntime) {
    let alloc = rt.alloc();
    assert!(rt;
        parse(alloc, FUNCTIONS_TEXT).is_ok_and(|document| all_functions_are(alloc, &document))
    );
}

/// Functions of one parameter and one result, each of which is mapped to the first.
const PARTS_TEXT: &str = r#"
(typename $n u8)
(module $m
    (@interface func (export "f") (param $a u16) (result $s u16))
    (@interface func (export "same") (param $a u16) (result $s u16))
    (@interface func (export "narrow") (param $b u8) (result $t u8))
    (@interface func (export "wide") (param $a u64) (result $s u64))
    (@interface func (export "named") (param $a (list $n)) (result $s (@witx pointer $n))))"#;

/// Of a function in terms of the first: the Markdown of its parameter and of its result, and of the
/// conversions of both.
const PARTS: &[(&str, &str, &str, &str, &str)] = &[
    (
        "same",
        "`a`: compatible types",
        "`s`: compatible types",
        "* old `u16` => new `u16`: compatible",
        "* new `u16` => old `u16`: compatible",
    ),
    (
        "narrow",
        "`b` => `a`: `u8` is incompatible with new `u16`",
        "`t` => `s`: `u8` is superset-compatible with `u16`",
        "* old `u8` => new `u16`",
        "* new `u16` => old `u8`: superset",
    ),
    (
        "wide",
        "`a`: `u64` is superset-compatible with `u16`",
        "`s`: `u64` is incompatible with new `u16`",
        "* old `u64` => new `u16`: superset",
        "* new `u16` => old `u64`",
    ),
    (
        "named",
        "`a`: `List<n>` is incompatible with new `u16`",
        "`s`: `Pointer<n>` is incompatible with new `u16`",
        "* old `List<n>` => new `u16`",
        "* new `u16` => old `Pointer<n>`",
    ),
];

fn conversion_is(alloc: Global, conversion: &TypePolyfill, wanted: &str) -> bool {
    conversion.copy().is_ok_and(|copy| copy == *conversion)
        && conversion
            .to_md(alloc)
            .is_ok_and(|text| text.as_str() == wanted)
}

/// Whether a part's Markdown and that of its conversion are these.
fn part_is(alloc: Global, part: &ParamPolyfill, wanted: &str, conversion: &str) -> bool {
    part.to_md(alloc).is_ok_and(|text| text.as_str() == wanted)
        && conversion_is(alloc, &part.type_polyfill, conversion)
        && part.copy().is_ok_and(|copy| copy == *part)
}

fn first_of(params: &Params) -> Option<InterfaceFuncParam> {
    params.get(0)?.copy().ok()
}

fn first_param(new: &InterfaceFunc, old: &InterfaceFunc) -> Option<ParamPolyfill> {
    let new = first_of(&new.params)?;
    let old = first_of(&old.params)?;
    ParamPolyfill::param(new, old).ok()
}

fn first_result(new: &InterfaceFunc, old: &InterfaceFunc) -> Option<ParamPolyfill> {
    let new = first_of(&new.results)?;
    let old = first_of(&old.results)?;
    ParamPolyfill::result(new, old).ok()
}

fn parts_are(alloc: Global, new: &InterfaceFunc, old: &InterfaceFunc, wanted: [&str; 4]) -> bool {
    let [param, result, param_types, result_types] = wanted;
    first_param(new, old).is_some_and(|part| part_is(alloc, &part, param, param_types))
        && first_result(new, old).is_some_and(|part| part_is(alloc, &part, result, result_types))
}

fn all_parts_of(alloc: Global, module: &Module, new: &InterfaceFunc) -> bool {
    for (old, param, result, param_types, result_types) in PARTS {
        let wanted = [*param, *result, *param_types, *result_types];
        if !func(alloc, module, old).is_some_and(|old| parts_are(alloc, new, &old, wanted)) {
            return false;
        }
    }
    true
}

fn all_parts_are(alloc: Global, document: &Document) -> bool {
    let Some(module) = document.modules().next() else {
        return false;
    };
    func(alloc, module, "f").is_some_and(|new| all_parts_of(alloc, module, &new))
}

#[test]
fn parameters_in_terms_of_others(rt: HostRuntime) {
    let alloc = rt.alloc();
    assert!(rt; parse(alloc, PARTS_TEXT).is_ok_and(|document| all_parts_are(alloc, &document)));
}

/// The first module of a text.
fn module_of(alloc: Global, text: &str) -> Option<Rc<Module>> {
    let document = parse(alloc, text).ok()?;
    document.modules().next()?.clone().ok()
}

/// A module's Markdown, and the number of its conversions and of its copy's.
fn module_is(alloc: Global, mapped: &ModulePolyfill) -> bool {
    let wanted = "## `k` in terms of `k`\n* `g`: full compatibility";
    mapped.copy().is_ok_and(|copy| copy == *mapped)
        && mapped
            .type_polyfills(alloc)
            .is_ok_and(|conversions| conversions.len() == 2)
        && mapped
            .to_md(alloc)
            .is_ok_and(|text| text.as_str() == wanted)
}

fn a_module_is_mapped(alloc: Global) -> Option<bool> {
    let new = module_of(alloc, TWO_MODULES)?;
    let old = module_of(alloc, TWO_MODULES)?;
    Some(ModulePolyfill::new(alloc, new, old).is_ok_and(|mapped| module_is(alloc, &mapped)))
}

#[test]
fn a_module_in_terms_of_itself(rt: HostRuntime) {
    assert!(rt; a_module_is_mapped(rt.alloc()).unwrap_or(false));
}
