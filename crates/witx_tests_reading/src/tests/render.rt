//! Printed documents that read back as another document, and expressions by hand.

use std::alloc::Global;
use std::fmt::Write;
use witx::{Document, parse};
use witx_base::{Duplicate, OutOfMemory};
use witx_render::{SExpr, document_text};

fn prints_as(alloc: Global, document: &Document, text: &str) -> bool {
    document_text(alloc, document).is_ok_and(|printed| printed.as_str() == text)
}

/// Documents with other tags than a `bool` has, and their text.
const BOOLS: [(&str, &str); 2] = [
    (
        "(typename $b (enum (@witx tag u8) $false $true))",
        "(typename $b bool)\n",
    ),
    (
        "(typename $b (variant (@witx tag u64) (case $false) (case $true)))",
        "(typename $b bool)\n",
    ),
];

/// The text is a document that is not equal.
fn reads_back_otherwise(alloc: Global, document: &Document, text: &str) -> bool {
    parse(alloc, text).is_ok_and(|again| again != *document)
}

fn loses_its_tag(alloc: Global, &(source, text): &(&str, &str)) -> bool {
    parse(alloc, source).is_ok_and(|document| prints_as(alloc, &document, text)
        && reads_back_otherwise(alloc, &document, text))
}

// Such a document is not plain, so it need not read back.
#[test]
fn bool_like_variants_print_bool(rt: HostRuntime) {
    let alloc = rt.alloc();
    assert!(rt; BOOLS.iter().all(|row| loses_its_tag(alloc, row)));
}

fn shows(alloc: Global, expr: &SExpr, text: &str) -> bool {
    let mut out = String::new(alloc);
    write!(out, "{expr}").is_ok() && out.as_str() == text
}

fn bare(alloc: Global) -> Result<SExpr, OutOfMemory> {
    SExpr::docs(alloc, "", SExpr::quote(alloc, "a b")?)
}

fn noted(alloc: Global) -> Result<SExpr, OutOfMemory> {
    SExpr::docs(alloc, "d", SExpr::annot(alloc, "c")?)
}

fn is_bare(alloc: Global, expr: &SExpr) -> bool {
    SExpr::quote(alloc, "a b").is_ok_and(|quote| *expr == quote) && shows(alloc, expr, "\"a b\"")
}

fn is_noted(alloc: Global, expr: &SExpr) -> bool {
    expr.copy().is_ok_and(|copy| copy == *expr) && shows(alloc, expr, "(;; d ;) @c")
}

fn carries_documentation(alloc: Global) -> bool {
    bare(alloc).is_ok_and(|expr| is_bare(alloc, &expr))
        && noted(alloc).is_ok_and(|expr| is_noted(alloc, &expr))
}

#[test]
fn empty_documentation_is_none(rt: HostRuntime) {
    assert!(rt; carries_documentation(rt.alloc()));
}
