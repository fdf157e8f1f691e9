//! The forms, each with and without its optional parts, and each message; fronts of a text; a text
//! with one token deleted, doubled or replaced; and the bound on open parentheses.

use Wanted::{Fault, Forms};
use std::alloc::{AllocError, Global};
use witx_fixtures::long_text;
use witx_syntax::{ParseFault, SyntaxError, parse_document};

/// What a text is read as.
enum Wanted {
    /// A document of so many top-level forms.
    Forms(usize),
    /// The message, and its line and column.
    Fault(&'static str, usize, usize),
}

#[rattlefmt::skip]
static ROWS: &[(&str, Wanted)] = &[
    ("", Forms(0)),
    (" ", Forms(0)),
    (";; empty", Forms(0)),
    (r#"(use "p")"#, Forms(1)),
    (r#"(use "p")(use "q")"#, Forms(2)),
    ("(typename $n char)", Forms(1)),
    ("(typename $n u8)", Forms(1)),
    ("(typename $n u16)", Forms(1)),
    ("(typename $n u32)", Forms(1)),
    ("(typename $n u64)", Forms(1)),
    ("(typename $n s8)", Forms(1)),
    ("(typename $n s16)", Forms(1)),
    ("(typename $n s32)", Forms(1)),
    ("(typename $n s64)", Forms(1)),
    ("(typename $n f32)", Forms(1)),
    ("(typename $n f64)", Forms(1)),
    ("(typename $n string)", Forms(1)),
    ("(typename $n bool)", Forms(1)),
    ("(typename $n $m)", Forms(1)),
    ("(typename $n (handle))", Forms(1)),
    ("(typename $n (list u8))", Forms(1)),
    ("(typename $n (tuple))", Forms(1)),
    ("(typename $n (tuple u8 $m (tuple)))", Forms(1)),
    ("(typename $n (@witx usize))", Forms(1)),
    ("(typename $n (@witx char8))", Forms(1)),
    ("(typename $n (@witx pointer u8))", Forms(1)),
    ("(typename $n (@witx const_pointer (list $m)))", Forms(1)),
    ("(typename $n (enum $a))", Forms(1)),
    ("(typename $n (enum $a $b))", Forms(1)),
    ("(typename $n (enum (@witx tag u8) $a))", Forms(1)),
    ("(typename $n (flags))", Forms(1)),
    ("(typename $n (flags $a $b))", Forms(1)),
    ("(typename $n (flags (@witx repr u64) $a))", Forms(1)),
    ("(typename $n (flags (@witx repr u64)))", Forms(1)),
    ("(typename $n (record (field $a u8)))", Forms(1)),
    ("(typename $n (record (field $a u8) (field $b (@witx usize))))", Forms(1)),
    ("(typename $n (expected (error)))", Forms(1)),
    ("(typename $n (expected (error u8)))", Forms(1)),
    ("(typename $n (expected (list u8) (error $e)))", Forms(1)),
    ("(typename $n (union))", Forms(1)),
    ("(typename $n (union u8))", Forms(1)),
    ("(typename $n (union u8 (@witx usize)))", Forms(1)),
    ("(typename $n (union (@witx tag u8)))", Forms(1)),
    ("(typename $n (union (@witx tag $t) u8 (@witx usize)))", Forms(1)),
    ("(typename $n (variant))", Forms(1)),
    ("(typename $n (variant (case $a)))", Forms(1)),
    ("(typename $n (variant (case $a u8) (case $b)))", Forms(1)),
    ("(typename $n (variant (@witx tag u8)))", Forms(1)),
    ("(typename $n (variant (@witx tag $t) (case $a (variant))))", Forms(1)),
    ("(typename $n (expected))", Fault("unexpected token", 1, 23)),
    ("(typename $n (expected u8 (error)))", Forms(1)),
    ("(typename $n (expected u8 u8))", Fault("expected `(`", 1, 27)),
    ("(typename $n (enum))", Fault("unexpected token", 1, 19)),
    ("(typename $n (enum (@witx tag u8)))", Fault("expected an identifier", 1, 34)),
    ("(typename $n (record))", Fault("expected `(`", 1, 21)),
    ("(typename $n (union (@witx pointer u8)))", Fault("expected `tag`", 1, 28)),
    ("(typename $n (enum (@witx repr u8) $a))", Fault("expected `tag`", 1, 27)),
    ("(typename $n (enum (@witx tag $t) $a))", Fault("unexpected token", 1, 31)),
    ("(typename $n (flags (@witx tag u8)))", Fault("expected `repr`", 1, 28)),
    ("(typename $n (expected u8 error))", Fault("expected `(`", 1, 27)),
    ("(typename $n (expected u8))", Fault("expected `(`", 1, 26)),
    ("(typename $n (list))", Fault("unexpected token", 1, 19)),
    ("(typename $n (list u8 u8))", Fault("expected `)`", 1, 23)),
    ("(typename $n (handle u8))", Fault("expected `)`", 1, 22)),
    ("(typename $n (handle)", Fault("expected `)`", 1, 22)),
    ("(typename $n (frob))", Fault("unexpected token", 1, 15)),
    ("(typename $n frob)", Fault("unexpected token", 1, 14)),
    ("(typename $n 7)", Fault("unexpected token", 1, 14)),
    (r#"(typename $n "s")"#, Fault("unexpected token", 1, 14)),
    ("(typename $n ())", Fault("unexpected token", 1, 15)),
    ("(typename $n (@witx frob))", Fault("unexpected token", 1, 21)),
    ("(typename $n (@witx usize u8))", Fault("expected `)`", 1, 27)),
    ("(typename $n (@interface))", Fault("unexpected token", 1, 15)),
    ("(typename $n @witx)", Fault("unexpected token", 1, 14)),
    ("(typename $n (variant $a))", Fault("unexpected token", 1, 23)),
    ("(typename $n (variant (case)))", Fault("expected an identifier", 1, 28)),
    ("(typename $n (variant (case $a u8 u8)))", Fault("expected `)`", 1, 35)),
    ("(typename $n (record (field $a)))", Fault("unexpected token", 1, 31)),
    ("(typename $n (record (field u8)))", Fault("expected an identifier", 1, 29)),
    ("(typename $n (record $a))", Fault("expected `(`", 1, 22)),
    ("(typename $n (tuple (field $a u8)))", Fault("unexpected token", 1, 22)),
    ("(typename $n (@witx pointer))", Fault("unexpected token", 1, 28)),
    ("(typename $n (enum $a (handle)))", Fault("unexpected token", 1, 23)),
    ("(typename $n (union (@witx tag u8 u8)))", Fault("expected `)`", 1, 35)),
    ("(module $m)", Forms(1)),
    (r#"(module $m (import "n" (memory)))"#, Forms(1)),
    (r#"(module $m (@interface func (export "f")))"#, Forms(1)),
    (
        r#"(module $m (@interface func (export "f") (param $x u8) (result $r u8) (param $y u8) (@witx noreturn)))"#,
        Forms(1),
    ),
    (
        r#"(module $m (import "n" (memory))(@interface func (export "f") (@witx noreturn)))"#,
        Forms(1),
    ),
    ("(@witx const $n $m 7)", Forms(1)),
    ("(@witx const $n $m +0x1f_f)", Forms(1)),
    ("(@witx const $n $m 18446744073709551615)", Forms(1)),
    ("(@witx const $n $max 18446744073709551616)", Fault("integer out of range", 1, 22)),
    ("(@witx const $n $m 0x1_0000_0000_0000_0000)", Fault("integer out of range", 1, 20)),
    ("(@witx const $n $m)", Fault("expected an integer", 1, 19)),
    ("(@witx const $n $m -5)", Fault("expected an integer", 1, 20)),
    ("(@witx const $n 7)", Fault("expected an identifier", 1, 17)),
    ("(@witx typename $n u8)", Fault("expected `const`", 1, 8)),
    ("(typename $n 18446744073709551616)", Fault("unexpected token", 1, 14)),
    ("(use bbbbbbb)", Fault("expected a string", 1, 6)),
    ("(use)", Fault("expected a string", 1, 5)),
    (r#"(use "p""#, Fault("expected `)`", 1, 9)),
    (r#"(use "p" "q")"#, Fault("expected `)`", 1, 10)),
    (r#"(use "p"))"#, Fault("expected `(`", 1, 10)),
    (")", Fault("expected `(`", 1, 1)),
    ("$x", Fault("expected `(`", 1, 1)),
    ("(", Fault("unexpected token", 1, 2)),
    ("((", Fault("unexpected token", 1, 2)),
    ("(frob)", Fault("unexpected token", 1, 2)),
    ("(typename)", Fault("expected an identifier", 1, 10)),
    ("(typename $n)", Fault("unexpected token", 1, 13)),
    ("(typename u8)", Fault("expected an identifier", 1, 11)),
    ("(typename $n u8", Fault("expected `)`", 1, 16)),
    ("(typename $n u8 u8)", Fault("expected `)`", 1, 17)),
    ("(module)", Fault("expected an identifier", 1, 8)),
    ("(module $m", Fault("unexpected token", 1, 11)),
    ("(module $m (import))", Fault("expected a string", 1, 19)),
    (r#"(module $m (import "n"))"#, Fault("expected `(`", 1, 23)),
    (r#"(module $m (import "n" (table)))"#, Fault("expected `memory`", 1, 25)),
    (r#"(module $m (import "n" (memory) u8))"#, Fault("expected `)`", 1, 33)),
    (r#"(module $m (import "n" memory))"#, Fault("expected `(`", 1, 24)),
    ("(module $m (@witx noreturn))", Fault("unexpected token", 1, 13)),
    ("(module $m (@interface))", Fault("expected `func`", 1, 23)),
    ("(module $m (@interface func))", Fault("expected `(`", 1, 28)),
    ("(module $m (@interface func (export)))", Fault("expected a string", 1, 36)),
    ("(module $m (@interface func (export $f)))", Fault("expected a string", 1, 37)),
    (
        r#"(module $m (@interface func (export "f") (param u8)))"#,
        Fault("expected an identifier", 1, 49),
    ),
    (r#"(module $m (@interface func (export "f") (param $x)))"#, Fault("unexpected token", 1, 51)),
    (
        r#"(module $m (@interface func (export "f") (@witx usize)))"#,
        Fault("unexpected token", 1, 49),
    ),
    (r#"(module $m (@interface func (export "f") (@witx stored)))"#, Forms(1)),
    (
        r#"(module $m (@interface func (export "f") (@witx stored) (@witx noreturn) (@witx stored)))"#,
        Forms(1),
    ),
    (
        r#"(module $m (@interface func (export "f") (@witx stored u8)))"#,
        Fault("expected `)`", 1, 56),
    ),
    (r#"(module $m (@interface func (export "f") u8))"#, Fault("unexpected token", 1, 42)),
    ("(module $m (func))", Fault("unexpected token", 1, 13)),
    ("\n\n  (typename $n\n frob)", Fault("unexpected token", 4, 2)),
    (
        "\
;; c
(typename $n u8) ;; d
(",
        Fault("unexpected token", 3, 2),
    ),
    (r#"(use "p)"#, Fault("unterminated string", 1, 6)),
    (r#"(use "\q")"#, Fault("invalid escape", 1, 7)),
    ("(use \"\u{1}\")", Fault("invalid character in string", 1, 7)),
    (r#"(use "\ff")"#, Fault("string is not UTF-8", 1, 6)),
    ("(typename $ u8)", Fault("empty identifier", 1, 11)),
    ("(; ", Fault("unterminated block comment", 1, 1)),
    (") {", Fault("unexpected character", 1, 3)),
];

fn has_forms(wanted: &Wanted, found: usize) -> bool {
    match wanted {
        Forms(len) => found == *len,
        Fault(..) => false,
    }
}

fn has_fault(wanted: &Wanted, found: &ParseFault) -> bool {
    match wanted {
        Forms(_) => false,
        Fault(message, line, column) => found.message == *message
            && found.line == *line
            && found.column == *column,
    }
}

fn reads_as(alloc: Global, text: &str, wanted: &Wanted) -> bool {
    match parse_document(alloc, text) {
        Ok(document) => {
            let forms = document.items.len();
            drop(document);
            has_forms(wanted, forms)
        }
        Err(SyntaxError::Parse(found)) => has_fault(wanted, &found),
        Err(SyntaxError::OutOfMemory) => false,
    }
}

#[test]
fn documents_and_faults(rt: HostRuntime) {
    let alloc = rt.alloc();
    assert!(rt;
        ROWS.iter()
            .all(|(text, wanted)| reads_as(alloc, text, wanted))
    );
}

/// Three forms.
const FORMS: &str =
    r#"(typename $n u32)(typename $e (enum $a $b))(module $m (@interface func (export "f") (param $s string) (result $r (expected $n (error $e)))))"#;

/// How many fronts of the forms, from the empty one on, are read as what.
#[rattlefmt::skip]
static FRONTS: &[(usize, Wanted)] = &[
    (1, Forms(0)),
    (8, Fault("unexpected token", 1, 2)),
    (1, Fault("expected an identifier", 1, 10)),
    (1, Fault("expected an identifier", 1, 11)),
    (1, Fault("empty identifier", 1, 11)),
    (1, Fault("unexpected token", 1, 13)),
    (3, Fault("unexpected token", 1, 14)),
    (1, Fault("expected `)`", 1, 17)),
    (1, Forms(1)),
    (8, Fault("unexpected token", 1, 19)),
    (1, Fault("expected an identifier", 1, 27)),
    (1, Fault("expected an identifier", 1, 28)),
    (1, Fault("empty identifier", 1, 28)),
    (1, Fault("unexpected token", 1, 30)),
    (1, Fault("unexpected token", 1, 31)),
    (4, Fault("unexpected token", 1, 32)),
    (1, Fault("unexpected token", 1, 36)),
    (1, Fault("unexpected token", 1, 37)),
    (1, Fault("empty identifier", 1, 37)),
    (1, Fault("unexpected token", 1, 39)),
    (1, Fault("unexpected token", 1, 40)),
    (1, Fault("empty identifier", 1, 40)),
    (1, Fault("unexpected token", 1, 42)),
    (1, Fault("expected `)`", 1, 43)),
    (1, Forms(2)),
    (6, Fault("unexpected token", 1, 45)),
    (1, Fault("expected an identifier", 1, 51)),
    (1, Fault("expected an identifier", 1, 52)),
    (1, Fault("empty identifier", 1, 52)),
    (1, Fault("unexpected token", 1, 54)),
    (1, Fault("unexpected token", 1, 55)),
    (10, Fault("unexpected token", 1, 56)),
    (1, Fault("expected `func`", 1, 66)),
    (4, Fault("expected `func`", 1, 67)),
    (1, Fault("expected `(`", 1, 71)),
    (1, Fault("expected `(`", 1, 72)),
    (6, Fault("expected `export`", 1, 73)),
    (1, Fault("expected a string", 1, 79)),
    (1, Fault("expected a string", 1, 80)),
    (2, Fault("unterminated string", 1, 80)),
    (1, Fault("expected `)`", 1, 83)),
    (1, Fault("unexpected token", 1, 84)),
    (1, Fault("unexpected token", 1, 85)),
    (5, Fault("unexpected token", 1, 86)),
    (1, Fault("expected an identifier", 1, 91)),
    (1, Fault("expected an identifier", 1, 92)),
    (1, Fault("empty identifier", 1, 92)),
    (1, Fault("unexpected token", 1, 94)),
    (6, Fault("unexpected token", 1, 95)),
    (1, Fault("expected `)`", 1, 101)),
    (1, Fault("unexpected token", 1, 102)),
    (1, Fault("unexpected token", 1, 103)),
    (6, Fault("unexpected token", 1, 104)),
    (1, Fault("expected an identifier", 1, 110)),
    (1, Fault("expected an identifier", 1, 111)),
    (1, Fault("empty identifier", 1, 111)),
    (1, Fault("unexpected token", 1, 113)),
    (1, Fault("unexpected token", 1, 114)),
    (8, Fault("unexpected token", 1, 115)),
    (1, Fault("unexpected token", 1, 123)),
    (1, Fault("unexpected token", 1, 124)),
    (1, Fault("empty identifier", 1, 124)),
    (1, Fault("expected `(`", 1, 126)),
    (1, Fault("expected `(`", 1, 127)),
    (5, Fault("expected `error`", 1, 128)),
    (1, Fault("unexpected token", 1, 133)),
    (1, Fault("unexpected token", 1, 134)),
    (1, Fault("empty identifier", 1, 134)),
    (1, Fault("expected `)`", 1, 136)),
    (1, Fault("expected `)`", 1, 137)),
    (1, Fault("expected `)`", 1, 138)),
    (1, Fault("unexpected token", 1, 139)),
    (1, Fault("unexpected token", 1, 140)),
    (1, Forms(3)),
];

/// The first characters of the forms, so many.
fn front(alloc: Global, len: usize) -> Result<String, AllocError> {
    let mut text = String::new(alloc);
    for character in FORMS.chars().take(len) {
        text.push(character)?;
    }
    Ok(text)
}

fn front_reads_as(alloc: Global, len: usize, wanted: &Wanted) -> bool {
    match front(alloc, len) {
        Ok(text) => reads_as(alloc, text.as_str(), wanted),
        Err(_) => false,
    }
}

fn all_fronts_read(alloc: Global) -> bool {
    let mut len = 0usize;
    for (times, wanted) in FRONTS {
        for _ in 0..*times {
            if !front_reads_as(alloc, len, wanted) {
                return false;
            }
            len = len.saturating_add(1);
        }
    }
    len > FORMS.len()
}

#[test]
fn fronts(rt: HostRuntime) {
    assert!(rt; all_fronts_read(rt.alloc()));
}

/// A text that has each form. Its tokens stand in lines of their own.
#[rattlefmt::skip]
static TOKENS: &[&str] = &[
    "(", "use", r#""p""#, ")", "(", "typename", "$a", "(", "enum", "(", "@witx", "tag", "u8",
    ")", "$x", "$y", ")", ")", "(", "typename", "$b", "(", "flags", "(", "@witx", "repr", "u64",
    ")", "$x", ")", ")", "(", "typename", "$c", "(", "record", "(", "field", "$x", "char", ")",
    "(", "field", "$y", "(", "@witx", "usize", ")", ")", ")", ")", "(", "typename", "$d", "(",
    "union", "(", "@witx", "tag", "$a", ")", "(", "list", "$c", ")", "(", "@witx", "pointer",
    "u8", ")", ")", ")", "(", "typename", "$e", "(", "variant", "(", "@witx", "tag", "u16", ")",
    "(", "case", "$x", ")", "(", "case", "$y", "(", "tuple", "string", "bool", ")", ")", ")",
    ")", "(", "typename", "$f", "(", "expected", "(", "handle", ")", "(", "error", "$a", ")",
    ")", ")", "(", "typename", "$g", "(", "union", "(", "@witx", "tag", "f32", ")", "(",
    "@witx", "char8", ")", ")", ")", "(", "@witx", "const", "$n", "$m", "7", ")", "(", "module",
    "$m", "(", "import", r#""n""#, "(", "memory", ")", ")", "(", "@interface", "func", "(",
    "export", r#""f""#, ")", "(", "param", "$x", "u8", ")", "(", "result", "$r", "(",
    "expected", "(", "error", ")", ")", ")", "(", "@witx", "noreturn", ")", ")", ")",
];

/// A token, what stands in its place, and what the text is then read as.
#[rattlefmt::skip]
static EDITS: &[(usize, &str, Wanted)] = &[
    (0, "", Fault("expected `(`", 2, 1)),
    (1, "use use", Fault("expected a string", 2, 5)),
    (2, "+0x2", Fault("expected a string", 3, 1)),
    (3, "", Fault("expected `)`", 5, 1)),
    (4, "( (", Fault("unexpected token", 5, 3)),
    (5, "string", Fault("unexpected token", 6, 1)),
    (6, "", Fault("expected an identifier", 8, 1)),
    (7, "( (", Fault("unexpected token", 8, 3)),
    (8, r#""s""#, Fault("unexpected token", 9, 1)),
    (9, "", Fault("unexpected token", 11, 1)),
    (10, "@witx @witx", Fault("expected `tag`", 11, 7)),
    (11, "@witx", Fault("expected `tag`", 12, 1)),
    (12, "", Fault("unexpected token", 14, 1)),
    (13, ") )", Fault("expected an identifier", 14, 3)),
    (14, "18446744073709551616", Fault("expected an identifier", 15, 1)),
    (15, "", Forms(10)),
    (16, ") )", Fault("expected `(`", 18, 1)),
    (17, "(", Fault("expected `)`", 18, 1)),
    (18, "", Fault("expected `(`", 20, 1)),
    (19, "typename typename", Fault("expected an identifier", 20, 10)),
    (20, "field", Fault("expected an identifier", 21, 1)),
    (21, "", Fault("unexpected token", 23, 1)),
    (22, "flags flags", Fault("unexpected token", 23, 7)),
    (23, "field", Fault("unexpected token", 24, 1)),
    (24, "", Fault("expected `@witx`", 26, 1)),
    (25, "repr repr", Fault("unexpected token", 26, 6)),
    (26, "$z", Fault("unexpected token", 27, 1)),
    (27, "", Fault("expected `)`", 29, 1)),
    (28, "$x $x", Forms(10)),
    (29, "8", Fault("unexpected token", 30, 1)),
    (30, "", Fault("expected `)`", 32, 1)),
    (31, "( (", Fault("unexpected token", 32, 3)),
    (32, "8", Fault("unexpected token", 33, 1)),
    (33, "", Fault("expected an identifier", 35, 1)),
    (34, "( (", Fault("unexpected token", 35, 3)),
    (35, "tag", Fault("unexpected token", 36, 1)),
    (36, "", Fault("expected `(`", 38, 1)),
    (37, "field field", Fault("expected an identifier", 38, 7)),
    (38, "case", Fault("expected an identifier", 39, 1)),
    (39, "", Fault("unexpected token", 41, 1)),
    (40, ") )", Fault("expected `)`", 42, 1)),
    (41, "error", Fault("unexpected token", 42, 1)),
    (42, "", Fault("expected `field`", 44, 1)),
    (43, "$y $y", Fault("expected `)`", 45, 1)),
    (44, "field", Fault("unexpected token", 45, 1)),
    (45, "", Fault("unexpected token", 47, 1)),
    (46, "usize usize", Fault("expected `)`", 47, 7)),
    (47, "u32", Fault("expected `)`", 48, 1)),
    (48, "", Fault("expected `)`", 52, 1)),
    (49, ") )", Fault("expected `(`", 51, 1)),
    (50, "u32", Fault("expected `)`", 51, 1)),
    (51, "", Fault("expected `(`", 53, 1)),
    (52, "typename typename", Fault("expected an identifier", 53, 10)),
    (53, "@witx", Fault("expected an identifier", 54, 1)),
    (54, "", Fault("unexpected token", 56, 1)),
    (55, "union union", Fault("unexpected token", 56, 7)),
    (56, "@witx", Fault("unexpected token", 57, 1)),
    (57, "", Fault("unexpected token", 59, 1)),
    (58, "tag tag", Fault("unexpected token", 59, 5)),
    (59, "@witx", Fault("unexpected token", 60, 1)),
    (60, "", Fault("expected `)`", 62, 1)),
    (61, "( (", Fault("unexpected token", 62, 3)),
    (62, "frob", Fault("unexpected token", 63, 1)),
    (63, "", Fault("unexpected token", 65, 1)),
    (64, ") )", Fault("expected `)`", 66, 1)),
    (65, r#""s""#, Fault("unexpected token", 66, 1)),
    (66, "", Fault("unexpected token", 68, 1)),
    (67, "pointer pointer", Fault("unexpected token", 68, 9)),
    (68, "case", Fault("unexpected token", 69, 1)),
    (69, "", Fault("expected `)`", 73, 1)),
    (70, ") )", Fault("expected `(`", 72, 1)),
    (71, "case", Fault("expected `)`", 72, 1)),
    (72, "", Fault("expected `(`", 74, 1)),
    (73, "typename typename", Fault("expected an identifier", 74, 10)),
    (74, "frob", Fault("expected an identifier", 75, 1)),
    (75, "", Fault("unexpected token", 77, 1)),
    (76, "variant variant", Fault("unexpected token", 77, 9)),
    (77, r#""s""#, Fault("unexpected token", 78, 1)),
    (78, "", Fault("unexpected token", 80, 1)),
    (79, "tag tag", Fault("unexpected token", 80, 5)),
    (80, "18446744073709551616", Fault("unexpected token", 81, 1)),
    (81, "", Fault("expected `)`", 83, 1)),
    (82, "( (", Fault("expected `case`", 83, 3)),
    (83, "u32", Fault("expected `case`", 84, 1)),
    (84, "", Fault("expected an identifier", 86, 1)),
    (85, ") )", Fault("expected `)`", 87, 1)),
    (86, "$z", Fault("unexpected token", 87, 1)),
    (87, "", Fault("expected `case`", 89, 1)),
    (88, "$y $y", Fault("expected `)`", 90, 1)),
    (89, "u32", Fault("expected `)`", 91, 1)),
    (90, "", Fault("unexpected token", 92, 1)),
    (91, "string string", Forms(10)),
    (92, r#""s""#, Fault("unexpected token", 93, 1)),
    (93, "", Fault("expected `)`", 98, 1)),
    (94, ") )", Fault("expected `(`", 97, 1)),
    (95, r#""s""#, Fault("unexpected token", 96, 1)),
    (96, "", Fault("expected `)`", 98, 1)),
    (97, "( (", Fault("unexpected token", 98, 3)),
    (98, "18446744073709551616", Fault("unexpected token", 99, 1)),
    (99, "", Fault("expected an identifier", 101, 1)),
    (100, "( (", Fault("unexpected token", 101, 3)),
    (101, "string", Fault("unexpected token", 102, 1)),
    (102, "", Fault("unexpected token", 104, 1)),
    (103, "handle handle", Fault("expected `)`", 104, 8)),
    (104, "tag", Fault("expected `)`", 105, 1)),
    (105, "", Fault("expected `(`", 107, 1)),
    (106, "error error", Fault("unexpected token", 107, 7)),
    (107, "tag", Fault("unexpected token", 108, 1)),
    (108, "", Fault("expected `)`", 112, 1)),
    (109, ") )", Fault("expected `(`", 111, 1)),
    (110, "enum", Fault("expected `)`", 111, 1)),
    (111, "", Fault("expected `(`", 113, 1)),
    (112, "typename typename", Fault("expected an identifier", 113, 10)),
    (113, "18446744073709551616", Fault("expected an identifier", 114, 1)),
    (114, "", Fault("unexpected token", 116, 1)),
    (115, "union union", Fault("unexpected token", 116, 7)),
    (116, "8", Fault("unexpected token", 117, 1)),
    (117, "", Fault("unexpected token", 119, 1)),
    (118, "tag tag", Fault("unexpected token", 119, 5)),
    (119, "(", Fault("unexpected token", 121, 1)),
    (120, "", Fault("expected `)`", 122, 1)),
    (121, "( (", Fault("unexpected token", 122, 3)),
    (122, "string", Fault("unexpected token", 123, 1)),
    (123, "", Fault("unexpected token", 125, 1)),
    (124, ") )", Fault("expected `(`", 127, 1)),
    (125, "string", Fault("expected `)`", 128, 1)),
    (126, "", Fault("expected `)`", 128, 1)),
    (127, "( (", Fault("unexpected token", 128, 3)),
    (128, "u32", Fault("unexpected token", 129, 1)),
    (129, "", Fault("expected `const`", 131, 1)),
    (130, "$n $n", Fault("expected an integer", 132, 1)),
    (131, "string", Fault("expected an identifier", 132, 1)),
    (132, "", Fault("expected an integer", 134, 1)),
    (133, ") )", Fault("expected `(`", 134, 3)),
    (134, "$z", Fault("expected `(`", 135, 1)),
    (135, "", Fault("unexpected token", 137, 1)),
    (136, "$m $m", Fault("unexpected token", 137, 4)),
    (137, ")", Fault("expected `(`", 139, 1)),
    (138, "", Fault("unexpected token", 140, 1)),
    (139, r#""n" "n""#, Fault("expected `(`", 140, 5)),
    (140, "tag", Fault("expected `(`", 141, 1)),
    (141, "", Fault("expected `memory`", 143, 1)),
    (142, ") )", Fault("unexpected token", 146, 1)),
    (143, "enum", Fault("expected `)`", 144, 1)),
    (144, "", Fault("unexpected token", 146, 1)),
    (145, "@interface @interface", Fault("expected `func`", 146, 12)),
    (146, "8", Fault("expected `func`", 147, 1)),
    (147, "", Fault("expected `(`", 149, 1)),
    (148, "export export", Fault("expected a string", 149, 8)),
    (149, "@witx", Fault("expected a string", 150, 1)),
    (150, "", Fault("expected `)`", 152, 1)),
    (151, "( (", Fault("unexpected token", 152, 3)),
    (152, "field", Fault("unexpected token", 153, 1)),
    (153, "", Fault("expected an identifier", 155, 1)),
    (154, "u8 u8", Fault("expected `)`", 155, 4)),
    (155, "+0x2", Fault("expected `)`", 156, 1)),
    (156, "", Fault("unexpected token", 158, 1)),
    (157, "result result", Fault("expected an identifier", 158, 8)),
    (158, "enum", Fault("expected an identifier", 159, 1)),
    (159, "", Fault("unexpected token", 161, 1)),
    (160, "expected expected", Fault("unexpected token", 161, 10)),
    (161, "memory", Fault("unexpected token", 162, 1)),
    (162, "", Fault("unexpected token", 164, 1)),
    (163, ") )", Fault("unexpected token", 168, 1)),
    (164, "field", Fault("expected `)`", 165, 1)),
    (165, "", Fault("expected `)`", 167, 1)),
    (166, "( (", Fault("unexpected token", 167, 3)),
    (167, "+0x2", Fault("unexpected token", 168, 1)),
    (168, "", Fault("unexpected token", 170, 1)),
    (169, ") )", Fault("expected `(`", 172, 1)),
    (170, "18446744073709551616", Fault("unexpected token", 171, 1)),
    (171, "", Fault("unexpected token", 173, 1)),
];

/// The tokens, but for the one at the place, in whose place the other stands.
fn edited(alloc: Global, place: usize, other: &str) -> Result<String, AllocError> {
    let mut text = String::new(alloc);
    for (at, token) in TOKENS.iter().enumerate() {
        text.push_str(if at == place { other } else { *token })?;
        text.push_str("\n")?;
    }
    Ok(text)
}

fn edited_reads_as(alloc: Global, place: usize, other: &str, wanted: &Wanted) -> bool {
    match edited(alloc, place, other) {
        Ok(text) => reads_as(alloc, text.as_str(), wanted),
        Err(_) => false,
    }
}

#[test]
fn edits(rt: HostRuntime) {
    let alloc = rt.alloc();
    assert!(rt;
        EDITS.iter().all(|(place, other, wanted)| edited_reads_as(alloc, *place, other, wanted))
    );
}

/// How many lists stand in one another, with one parenthesis more around them.
const NESTED: &[(usize, Wanted)] = &[
    (99, Forms(1)),
    (100, Fault("too many open parentheses", 1, 608)),
];

fn nested(alloc: Global, lists: usize) -> Result<String, AllocError> {
    let front = long_text(alloc, "(typename $t ", "(list ", lists, "u8)")?;
    long_text(alloc, front.as_str(), ")", lists, "")
}

fn nested_reads_as(alloc: Global, lists: usize, wanted: &Wanted) -> bool {
    match nested(alloc, lists) {
        Ok(text) => reads_as(alloc, text.as_str(), wanted),
        Err(_) => false,
    }
}

#[test]
fn open_parentheses(rt: HostRuntime) {
    let alloc = rt.alloc();
    assert!(rt;
        NESTED
            .iter()
            .all(|(lists, wanted)| nested_reads_as(alloc, *lists, wanted))
    );
}
