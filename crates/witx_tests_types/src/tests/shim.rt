//! Shims of an old function and a new one: the words that are passed, and each refusal before those
//! behind it.

use std::alloc::{AllocError, Global};
use std::fmt::Write;
use std::rc::Rc;
use witx_ast::InterfaceFunc;
use witx_base::{Duplicate, OutOfMemory};
use witx_compat::FuncPolyfill;
use witx_fixtures_run::func_of;
use witx_machine::Place;
use witx_shim::{Places, Shim, ShimError, shim};

/// Texts with an old function and with a new one, and what is told of the shim.
#[rattlefmt::skip]
const ROWS: &[(&str, &str, &str)] = &[
    (
        r#"(module $m (@interface func (export "f") (param $s string) (param $x u8)))"#,
        r#"(module $m (@interface func (export "f") (param $x u8) (param $s string)))"#,
        "pass 2 0 1",
    ),
    (
        r#"(typename $n u32) (typename $e (enum $a $b))
        (module $m (@interface func (export "f") (param $s string) (param $x u8) (result $r (expected $n (error $e)))))"#,
        r#"(typename $n u32) (typename $e (enum $a $b))
        (module $m (@interface func (export "f") (param $x u8) (param $s string) (result $r (expected $n (error $e)))))"#,
        "pass 2 0 1 3",
    ),
    // Stored, a whole result comes back through a pointer, which is passed last.
    (
        r#"(typename $t string)
        (module $m (@interface func (export "f") (@witx stored) (param $s string) (param $x u8) (result $r $t)))"#,
        r#"(typename $t string)
        (module $m (@interface func (export "f") (@witx stored) (param $x u8) (param $s string) (result $r $t)))"#,
        "pass 2 0 1 3",
    ),
    (
        r#"(module $m (@interface func (export "f")))"#,
        r#"(module $m (@interface func (export "f")))"#,
        "pass",
    ),
    (
        r#"(module $m (@interface func (export "f") (param $s string) (param $x u8)))"#,
        r#"(module $m (@interface func (export "f") (param $x u16) (param $s string)))"#,
        "not compatible",
    ),
    (
        r#"(module $m (@interface func (export "f") (param $x u8)))"#,
        r#"(module $m (@interface func (export "f") (@witx stored) (param $x u16)))"#,
        "not compatible",
    ),
    (
        r#"(module $m (@interface func (export "f") (param $c (tuple u8 u8))))"#,
        r#"(module $m (@interface func (export "f") (@witx stored) (param $c (tuple u8 u8))))"#,
        "other abi",
    ),
    // A tuple is a parameter only by its name: of the old function, and then of the new one.
    (
        r#"(module $m (@interface func (export "f") (param $x u8) (param $c (tuple u8 u8))))"#,
        r#"(module $m (@interface func (export "f") (param $c (tuple u8 u8)) (param $x u8)))"#,
        "old parameter 1",
    ),
    (
        r#"(typename $t (tuple u8 u8)) (module $m (@interface func (export "f") (param $x u8) (param $c $t)))"#,
        r#"(module $m (@interface func (export "f") (param $c (tuple u8 u8)) (param $x u8)))"#,
        "new parameter 0",
    ),
    (
        r#"(module $m (@interface func (export "f") (result $r (expected (error)))))"#,
        r#"(module $m (@interface func (export "f") (result $r (expected (error)))))"#,
        "old result 0",
    ),
];

fn put_pass(out: &mut String, pass: &Places) -> Result<(), AllocError> {
    write!(out, "pass")?;
    for number in pass {
        write!(out, " {number}")?;
    }
    Ok(())
}

fn put_place(out: &mut String, whose: &str, place: Place) -> Result<(), AllocError> {
    match place {
        Place::Param(number) => write!(out, "{whose} parameter {number}"),
        Place::Result(number) => write!(out, "{whose} result {number}"),
    }
}

fn put_refusal(out: &mut String, refusal: &ShimError) -> Result<(), AllocError> {
    match refusal {
        ShimError::Repeated(name) => write!(out, "repeated {}", name.as_str()),
        ShimError::NotCompatible => write!(out, "not compatible"),
        ShimError::OtherAbi => write!(out, "other abi"),
        ShimError::OldUnlowerable(place) => put_place(out, "old", *place),
        ShimError::NewUnlowerable(place) => put_place(out, "new", *place),
        ShimError::OutOfMemory => write!(out, "out of memory"),
    }
}

fn put_answer(out: &mut String, answer: &Result<Shim, ShimError>) -> Result<(), AllocError> {
    match answer {
        Ok(made) => put_pass(out, &made.pass),
        Err(refusal) => put_refusal(out, refusal),
    }
}

fn is_told(alloc: Global, answer: &Result<Shim, ShimError>, wanted: &str) -> bool {
    let mut out = String::new(alloc);
    put_answer(&mut out, answer).is_ok() && out.as_str() == wanted
}

/// Whether that is told of the shim of the two functions.
fn tells(
    alloc: Global,
    old: Rc<InterfaceFunc>,
    new: Rc<InterfaceFunc>,
    wanted: &str,
) -> Result<bool, OutOfMemory> {
    let poly = FuncPolyfill::new(alloc, new, old)?;
    let answer = shim(alloc, &poly);
    drop(poly);
    Ok(is_told(alloc, &answer, wanted))
}

fn texts_tell(alloc: Global, &(old, new, wanted): &(&str, &str, &str)) -> Option<bool> {
    let old = func_of(alloc, old)?;
    let new = func_of(alloc, new)?;
    tells(alloc, old, new, wanted).ok()
}

#[test]
fn words_through_shims(rt: HostRuntime) {
    let alloc = rt.alloc();
    assert!(rt; ROWS.iter().all(|row| texts_tell(alloc, row) == Some(true)));
}

/// Texts with an old function and with a new one, each with the numbers of the parameters that are added
/// once more at its end, and what is told of the shim: the first name that an earlier parameter has.
#[rattlefmt::skip]
const REPEATED: &[(&str, &[usize], &str, &[usize], &str)] = &[
    (
        r#"(module $m (@interface func (export "f") (param $a u8) (param $b u8)))"#, &[1, 0],
        r#"(module $m (@interface func (export "f") (@witx stored) (param $y u8)))"#, &[0],
        "repeated b",
    ),
    (
        r#"(module $m (@interface func (export "f") (param $x u8)))"#, &[],
        r#"(module $m (@interface func (export "f") (@witx stored) (param $y u8)))"#, &[0],
        "repeated y",
    ),
];

fn with_again(
    alloc: Global,
    func: &InterfaceFunc,
    numbers: &[usize],
) -> Result<Rc<InterfaceFunc>, OutOfMemory> {
    let mut made = func.copy()?;
    for number in numbers {
        if let Some(param) = func.params.get(*number) {
            made.params.push(param.copy()?)?;
        }
    }
    Ok(Rc::new(alloc, made)?)
}

fn function(alloc: Global, text: &str, numbers: &[usize]) -> Option<Rc<InterfaceFunc>> {
    let func = func_of(alloc, text)?;
    with_again(alloc, &func, numbers).ok()
}

fn refuses(
    alloc: Global,
    &(old, old_again, new, new_again, wanted): &(&str, &[usize], &str, &[usize], &str),
) -> Option<bool> {
    let old = function(alloc, old, old_again)?;
    let new = function(alloc, new, new_again)?;
    tells(alloc, old, new, wanted).ok()
}

#[test]
fn repeated_names(rt: HostRuntime) {
    let alloc = rt.alloc();
    assert!(rt; REPEATED.iter().all(|row| refuses(alloc, row) == Some(true)));
}
