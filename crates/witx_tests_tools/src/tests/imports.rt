//! Lists of what a WebAssembly module imports: what is read, and where a text is none.

use std::alloc::{AllocError, Global};
use std::fmt::Write;
use witx_imports::{ImportsError, WasmImport, WasmImports, read_imports};
use witx_machine::WasmType;

/// Texts, and their imports, each with its words in and back, or the place where no token fits.
static READ: &[(&str, &str)] = &[
    ("", ""),
    (";; none", ""),
    (
        r#"(import "m" "add" (func (param i32) (param $y i64) (result i32)))"#,
        "m add I32 I64 -> I32;",
    ),
    (r#"(import "m" "sub" (func))"#, "m sub ->;"),
    // Groups are joined, and an identifier says nothing.
    (
        "(import \"m\" \"f\" (func $f (param i32 f32) (param) (result f64) (result)))\n(import\"m\"\"f\"(func(;;)))",
        "m f I32 F32 -> F64;m f ->;",
    ),
    (
        r#"(import "a\u{e9}" "" (func (param i32 i64 f32 f64) (result i32 i64)))"#,
        "aé  I32 I64 F32 F64 -> I32 I64;",
    ),
    // Other imports, other types, and other orders.
    (r#"(import "m" "add" (memory 1))"#, "1:20"),
    (r#"(import "m" "f" (func (type 0)))"#, "1:24"),
    (r#"(import "m" "f" (func (param i31)))"#, "1:30"),
    (r#"(import "m" "f" (func (param $x i32 i64)))"#, "1:37"),
    (
        r#"(import "m" "f" (func (result i32) (param i32)))"#,
        "1:37",
    ),
    (r#"(import m "f" (func))"#, "1:9"),
    ("\n(module)", "2:2"),
    // A text that ends too early, one with a parenthesis too many, and faults of the lexer.
    (r#"(import "m""#, "1:12"),
    (r#"(import "m" "f" (func)))"#, "1:24"),
    (r#"(import "m"#, "1:9"),
    (r#"(import "m" "f" (func $))"#, "1:23"),
];

fn put_words(out: &mut String, words: &[WasmType]) -> Result<(), AllocError> {
    for word in words {
        write!(out, " {word:?}")?;
    }
    Ok(())
}

fn put_import(out: &mut String, import: &WasmImport) -> Result<(), AllocError> {
    write!(out, "{} {}", import.module.as_str(), import.name.as_str())?;
    put_words(out, import.params.as_slice())?;
    out.push_str(" ->")?;
    put_words(out, import.results.as_slice())?;
    out.push_str(";")
}

fn put_imports(out: &mut String, imports: &WasmImports) -> Result<(), AllocError> {
    for import in imports {
        put_import(out, import)?;
    }
    Ok(())
}

fn put_answer(
    out: &mut String,
    answer: &Result<WasmImports, ImportsError>,
) -> Result<(), AllocError> {
    match answer {
        Ok(imports) => put_imports(out, imports),
        Err(ImportsError::Bad { line, column }) => write!(out, "{line}:{column}"),
        Err(ImportsError::OutOfMemory) => out.push_str("no memory"),
    }
}

fn reads_as(alloc: Global, &(text, wanted): &(&str, &str)) -> bool {
    let answer = read_imports(alloc, text);
    let mut out = String::new(alloc);
    put_answer(&mut out, &answer).is_ok() && out.as_str() == wanted
}

#[test]
fn lists_of_imports(rt: HostRuntime) {
    let alloc = rt.alloc();
    assert!(rt; READ.iter().all(|row| reads_as(alloc, row)));
}
