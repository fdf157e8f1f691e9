//! Texts with their tokens or their fault, and the line and column of a byte.

use std::alloc::{AllocError, Global};
use std::fmt::Write;
use witx_fixtures::long_text;
use witx_lex::{LexError, Lexed, Token, Tokens, lex, line_column};

/// What is read of a text: its tokens, each behind its comments in brackets and before its span, or
/// the fault; nothing where memory is refused.
fn reading(alloc: Global, text: &str) -> Option<String> {
    match lex(alloc, text) {
        Ok(tokens) => listed(alloc, &tokens),
        Err(LexError::Bad(fault)) => format!(in alloc; "{:?} {}", fault.kind, fault.at).ok(),
        Err(LexError::OutOfMemory) => None,
    }
}

fn listed(alloc: Global, tokens: &Tokens) -> Option<String> {
    let mut out = String::new(alloc);
    for lexed in tokens {
        if put(&mut out, lexed).is_err() {
            return None;
        }
    }
    Some(out)
}

fn put(out: &mut String, lexed: &Lexed) -> Result<(), AllocError> {
    for comment in &lexed.comments {
        write!(out, "[{comment}]")?;
    }
    let (name, bytes) = named(&lexed.token);
    let span = lexed.span;
    write!(out, "{name}{bytes} {}..{};", span.start, span.end)
}

fn named<'a>(token: &'a Token) -> (&'static str, &'a str) {
    match token {
        Token::LParen => ("(", ""),
        Token::RParen => (")", ""),
        Token::Id(text) => ("id ", text),
        Token::Word(text) => ("word ", text),
        Token::Annot(text) => ("annot ", text),
        Token::Int(text) => ("int ", text),
        Token::Quoted(text) => ("quoted ", text.as_str()),
    }
}

fn reads_as(alloc: Global, text: &str, wanted: &str) -> bool {
    match reading(alloc, text) {
        Some(found) => found.as_str() == wanted,
        None => false,
    }
}

fn all_read(alloc: Global, rows: &[(&str, &str)]) -> bool {
    for (text, wanted) in rows {
        if !reads_as(alloc, text, wanted) {
            return false;
        }
    }
    true
}

static TOKENS: &[(&str, &str)] = &[
    ("", ""),
    (" \t\r\n", ""),
    ("()", "( 0..1;) 1..2;"),
    ("))", ") 0..1;) 1..2;"),
    ("$a", "id a 0..2;"),
    ("$$", "id $ 0..2;"),
    ("$0x", "id 0x 0..3;"),
    ("@witx", "annot witx 0..5;"),
    ("@@", "annot @ 0..2;"),
    ("@", "word @ 0..1;"),
    ("u8", "word u8 0..2;"),
    ("a$b@c", "word a$b@c 0..5;"),
    (
        "!#%&'*+-./:<=>?\\^_`|~",
        "word !#%&'*+-./:<=>?\\^_`|~ 0..21;",
    ),
    ("0", "int 0 0..1;"),
    ("+7", "int +7 0..2;"),
    ("1_000", "int 1_000 0..5;"),
    ("0xf_f", "int 0xf_f 0..5;"),
    ("+0x1F", "int +0x1F 0..5;"),
    ("18446744073709551616", "int 18446744073709551616 0..20;"),
    ("-5", "word -5 0..2;"),
    ("+", "word + 0..1;"),
    ("++1", "word ++1 0..3;"),
    ("1__0", "word 1__0 0..4;"),
    ("_1", "word _1 0..2;"),
    ("1_", "word 1_ 0..2;"),
    ("0x", "word 0x 0..2;"),
    ("0x_1", "word 0x_1 0..4;"),
    ("0X1", "word 0X1 0..3;"),
    ("1f", "word 1f 0..2;"),
    ("\"\"", "quoted  0..2;"),
    ("\"a'é; (;\"", "quoted a'é; (; 0..10;"),
    ("\"\\t\\n\\r\"", "quoted \t\n\r 0..8;"),
    ("\"\\\"\\'\\\\\"", "quoted \"'\\ 0..8;"),
    ("\"\\41\\c3\\A9\"", "quoted Aé 0..11;"),
    ("\"\\u{e9}\\u{1_F4_a9}\\u{00000041}\"", "quoted é💩A 0..31;"),
    (
        "\"\\u{10ffff}\\u{d7ff}\\u{e000}\"",
        "quoted \u{10ffff}\u{d7ff}\u{e000} 0..28;",
    ),
    ("\"a\"b\"c\"", "quoted a 0..3;word b 3..4;quoted c 4..7;"),
    ("$a$b(c", "id a$b 0..4;( 4..5;word c 5..6;"),
    (";;", ""),
    (";; x", ""),
    (";; x\r\na", "[ x\r]word a 6..7;"),
    (";;a\n;;;b\n\n(", "[a][;b]( 10..11;"),
    ("(;;)a", "[]word a 4..5;"),
    ("(;)a;)b", "[)a]word b 6..7;"),
    ("(; é (; x ;) y ;)\"s\"", "[ é (; x ;) y ]quoted s 18..21;"),
    ("(;\";)a", "[\"]word a 5..6;"),
    ("(;a;;)b", "[a;]word b 6..7;"),
    (
        "a;;b\nc(;d;)(e",
        "word a 0..1;[b]word c 5..6;[d]( 11..12;word e 12..13;",
    ),
];

#[test]
fn reads_tokens(rt: HostRuntime) {
    assert!(rt; all_read(rt.alloc(), TOKENS));
}

static FAULTS: &[(&str, &str)] = &[
    ("{", "UnexpectedCharacter 0"),
    ("a ,b", "UnexpectedCharacter 2"),
    ("(;;)\u{e9}", "UnexpectedCharacter 4"),
    ("\u{7f}", "UnexpectedCharacter 0"),
    ("\0", "UnexpectedCharacter 0"),
    (";", "UnexpectedCharacter 0"),
    ("a;b", "UnexpectedCharacter 1"),
    ("a ]", "UnexpectedCharacter 2"),
    ("$", "EmptyId 0"),
    ("(a $)", "EmptyId 3"),
    ("\"\"$", "EmptyId 2"),
    ("(;", "UnterminatedComment 0"),
    ("(;)", "UnterminatedComment 0"),
    ("a (; (; ;)", "UnterminatedComment 2"),
    ("(; ;", "UnterminatedComment 0"),
    ("(;(;)", "UnterminatedComment 0"),
    ("\"", "UnterminatedString 0"),
    ("\"a", "UnterminatedString 0"),
    ("$a \"\\u{41}", "UnterminatedString 3"),
    ("\"\\ff", "UnterminatedString 0"),
    ("\"\\\"", "UnterminatedString 0"),
    ("\"a\\", "BadEscape 2"),
    ("\"a\\u", "BadEscape 2"),
    ("\"a\\u{", "BadEscape 2"),
    ("\"a\\u{4", "BadEscape 2"),
    ("\"\\u{}\"", "BadEscape 1"),
    ("\"\\u{_1}\"", "BadEscape 1"),
    ("\"\\u{1__0}\"", "BadEscape 1"),
    ("\"\\u{d800}\"", "BadEscape 1"),
    ("\"\\u{dfff}\"", "BadEscape 1"),
    ("\"\\u{110000}\"", "BadEscape 1"),
    ("\"\\u{10000000000000041}\"", "BadEscape 1"),
    ("\"\\u{41 }\"", "BadEscape 1"),
    ("\"\\4", "BadEscape 1"),
    ("\"\\4g\"", "BadEscape 1"),
    ("\"\\x\"\n", "BadEscape 1"),
    ("\"é\\0\"", "BadEscape 3"),
    ("\"\n\\\"", "BadCharacter 1"),
    ("\"a\u{7f}\"", "BadCharacter 2"),
    ("(\"\t", "BadCharacter 2"),
    ("\"\\ff\"", "NotUtf8 0"),
    ("\"\\c3\" \"\\a9\"", "NotUtf8 0"),
    ("a \"\\ed\\a0\\80\"", "NotUtf8 2"),
    ("\"\\c3a\"", "NotUtf8 0"),
];

#[test]
fn finds_faults(rt: HostRuntime) {
    assert!(rt; all_read(rt.alloc(), FAULTS));
}

/// The front of a text, what follows it so many times, its end, and its fault, if it has one.
type LongText = (
    &'static str,
    &'static str,
    usize,
    &'static str,
    &'static str,
);

static NESTED: &[LongText] = &[
    ("", "(", 100, "", ""),
    ("", "(", 101, "", "TooDeep 100"),
    ("", "((((", 1_000_000, "", "TooDeep 100"),
    (")", "(", 101, "", "TooDeep 101"),
    ("", "()", 1000, "", ""),
    ("(;", "(", 200, " ;)", ""),
    (";;", "(", 200, "", ""),
    ("\"", "(", 200, "\"", ""),
    ("", "(", 100, "(;;)", ""),
    ("", "(", 100, "(;;)(", "TooDeep 104"),
    ("(\n", " (", 100, "", "TooDeep 201"),
    ("", "(;", 1_000_000, "", "UnterminatedComment 0"),
];

const LONG: &[LongText] = &[
    ("", " ", 4_194_304, "", ""),
    (";;", "x", 4_194_304, "\na", ""),
    ("(;", "(;;)", 1_048_576, ";)", ""),
    ("\"", "\\u{e9}", 600_000, "", "UnterminatedString 0"),
    ("\"\\u{", "0", 4_194_304, "", "BadEscape 1"),
];

fn ends_as(alloc: Global, text: &str, fault: &str) -> bool {
    if fault.is_empty() {
        lex(alloc, text).is_ok()
    } else {
        reads_as(alloc, text, fault)
    }
}

fn row_ends(alloc: Global, (front, unit, times, back, fault): &LongText) -> bool {
    long_text(alloc, front, unit, *times, back).is_ok_and(|text| ends_as(
        alloc,
        text.as_str(),
        fault,
    ))
}

fn all_end(alloc: Global, rows: &[LongText]) -> bool {
    rows.iter().all(|row| row_ends(alloc, row))
}

#[test]
fn counts_parentheses(rt: HostRuntime) {
    assert!(rt; all_end(rt.alloc(), NESTED));
}

#[test]
fn reads_long_texts(rt: HostRuntime) {
    assert!(rt; all_end(rt.alloc(), LONG));
}

/// A block comment in another, and a string with each kind of escape.
const CUT: &str = "(;a(;b;)c;)\"x\\t\\u{1f}\\41\"";

/// How many fronts of that text, from the empty one on, have which fault, if they have one.
static FRONTS: &[(usize, &str)] = &[
    (2, ""),
    (9, "UnterminatedComment 0"),
    (1, ""),
    (2, "UnterminatedString 11"),
    (1, "BadEscape 13"),
    (1, "UnterminatedString 11"),
    (5, "BadEscape 15"),
    (1, "UnterminatedString 11"),
    (2, "BadEscape 21"),
    (1, "UnterminatedString 11"),
    (1, ""),
];

fn front_ends_as(alloc: Global, len: usize, fault: &str) -> bool {
    match CUT.get(..len) {
        Some(front) => ends_as(alloc, front, fault),
        None => false,
    }
}

fn all_fronts_end(alloc: Global) -> bool {
    let mut len = 0usize;
    for (times, fault) in FRONTS {
        for _ in 0..*times {
            if !front_ends_as(alloc, len, fault) {
                return false;
            }
            len = len.saturating_add(1);
        }
    }
    len > CUT.len()
}

#[test]
fn cut_at_each_byte(rt: HostRuntime) {
    assert!(rt; all_fronts_end(rt.alloc()));
}

/// A text, the place of a byte, and its line and column.
static PLACES: &[(&str, usize, (usize, usize))] = &[
    ("", 0, (1, 1)),
    ("", 7, (1, 1)),
    ("ab", 0, (1, 1)),
    ("ab", 1, (1, 2)),
    ("ab", 9, (1, 3)),
    ("a\nb", 1, (1, 2)),
    ("a\nb", 2, (2, 1)),
    ("a\r\n\r\nb", 5, (3, 1)),
    ("\n\n", 1, (2, 1)),
    ("\n\n", 2, (3, 1)),
    ("é\né", 3, (2, 1)),
    ("é\né", 2, (1, 3)),
    ("(use bbbbbbb)", 5, (1, 6)),
];

fn all_placed() -> bool {
    for (text, at, wanted) in PLACES {
        if line_column(text, *at) != *wanted {
            return false;
        }
    }
    true
}

#[test]
fn places_bytes(rt: HostRuntime) {
    assert!(rt; all_placed());
}
