//! Syntax trees: equal up to places, equal to their copies, and the documentation of items.

use std::alloc::Global;
use witx_base::{Duplicate, OutOfMemory};
use witx_lex::Span;
use witx_syntax::{IdSyntax, TopLevelDocument, parse_document};

/// An identifier that stands at `start`, with its name, and whether it is equal to `$size` at 5.
const IDENTIFIERS: &[(&str, usize, bool)] = &[
    ("size", 5, true),
    ("size", 40, true),
    ("sizes", 5, false),
];

fn id(name: &str, start: usize) -> IdSyntax<'_> {
    let span = Span { start, end: start };
    IdSyntax { name, span }
}

fn are_compared() -> bool {
    for (name, start, is_equal) in IDENTIFIERS {
        if (id(name, *start) == id("size", 5)) != *is_equal {
            return false;
        }
    }
    true
}

#[test]
fn identifiers_are_equal_by_name(rt: HostRuntime) {
    assert!(rt; are_compared());
}

/// A function with a parameter, which has documentation.
const READ: &str = r#"(module $m (@interface func (export "read")
    ;;; the buffer
    (param $buf (list $size))))"#;

/// Texts, and whether they are equal to it.
const TEXTS: &[(&str, bool)] = &[
    (READ, true),
    (
        r#"

(module $m (@interface func   (export "read")
;;; the buffer
(param $buf (list $size))))"#,
        true,
    ),
    (
        r#"(module $m (@interface func (export "write")
    ;;; the buffer
    (param $buf (list $size))))"#,
        false,
    ),
    (
        r#"(module $m (@interface func (export "read")
    ;;; a buffer
    (param $buf (list $size))))"#,
        false,
    ),
];

fn equals_its_copy(document: &TopLevelDocument<'_>) -> Result<bool, OutOfMemory> {
    Ok(document.copy()? == *document)
}

/// Whether the text reads as a document that is equal to the other or not.
fn compares<'x>(alloc: Global, read: &TopLevelDocument<'x>, text: &'x str, is_equal: bool) -> bool {
    match parse_document(alloc, text) {
        Ok(other) => { (*read == other) == is_equal && equals_its_copy(&other).unwrap_or(false) }
        Err(_) => false,
    }
}

fn is_compared(alloc: Global, &(text, is_equal): &(&str, bool)) -> bool {
    match parse_document(alloc, READ) {
        Ok(read) => compares(alloc, &read, text, is_equal),
        Err(_) => false,
    }
}

#[test]
fn texts_are_equal_without_places(rt: HostRuntime) {
    let alloc = rt.alloc();
    assert!(rt; TEXTS.iter().all(|row| is_compared(alloc, row)));
}

/// Texts, and the documentation of their first form.
const DOCUMENTED: &[(&str, &str)] = &[
    (";;; The size. \n(typename $size u8)", "The size.\n"),
    (";;; hello\n(use \"p\")", "hello\n"),
    (";;; a\n;;;\u{3000}b\n(use \"p\")", "a\n\u{3000}b\n"),
    ("(;; in one piece ;)(use \"p\")", "in one piece\n"),
    (";; none\n(use \"p\")", ""),
];

fn has_docs(alloc: Global, document: &TopLevelDocument, wanted: &str) -> Result<bool, OutOfMemory> {
    match document.items.get(0) {
        Some(first) => {
            let docs = first.comments.copy()?.docs(alloc)?;
            Ok(docs.as_str() == wanted)
        }
        None => Ok(false),
    }
}

fn all_have_docs(alloc: Global) -> bool {
    for (text, wanted) in DOCUMENTED {
        match parse_document(alloc, text) {
            Ok(document) => {
                if !has_docs(alloc, &document, wanted).unwrap_or(false) {
                    return false;
                }
            }
            Err(_) => return false,
        }
    }
    true
}

#[test]
fn comments_are_documentation(rt: HostRuntime) {
    assert!(rt; all_have_docs(rt.alloc()));
}
