//! The tool `invoke` over devices that fail, and the call of the library, once.

ghost use Rattle.std.specs.Prelude.{All};
ghost use Rattle.witx_tools.specs.Callable.{IsCallable};

use crate::tests::tools::{Fails, all_fail};
use std::alloc::Global;
use witx::parse;
use witx_adapt::{AdaptedFunc, adapt_document};
use witx_bytes::{Value, traces_take_writable};
use witx_fixtures_run::Case;
use witx_invoke::{Invoked, Placed, Word, invoke, read_values, value_text};
use witx_machine::WasmType;

/// Two numbers in and one back, and values for it.
const ADD: &str = r#";;;; file /a
(module $m (@interface func (export "add") (param $x u32) (param $y u64) (result $r u32)))
;;;; file /v
5
7
12
"#;

/// Calls of the devices that fail, and what a run gives then.
#[rattlefmt::skip]
static FAILING: &[(Fails, Case)] = &[
    ((&[1], &[], &[]), ("invoke m add /v /a", ADD, 3, "", "witx: cannot read input\n")),
    ((&[], &[1], &[0]), ("invoke m add /v /a", ADD, 4, "pass i32:5", "")),
    ((&[], &[0], &[2]), ("invoke m sub /v /a", ADD, 4, "", "witx: no function `s")),
    ((&[], &[], &[0]), ("invoke m add", ADD, 4, "", "")),
];

#[test]
fn failing_calls(rt: HostRuntime) {
    assert!(rt; all_fail(rt.alloc(), FAILING));
}

// ---- the call of the library

/// The call of the first of these functions with the values of these lines.
fn first_call(alloc: Global, functions: &[AdaptedFunc], values: &str) -> Option<Invoked>
    requires { All IsCallable functions.now }
{
    if functions.is_empty() {
        return None;
    }
    entry_call(alloc, &functions[0], values)
}

/// The call of a function with the values of these lines.
fn entry_call(alloc: Global, entry: &AdaptedFunc, values: &str) -> Option<Invoked>
    requires { IsCallable entry.now }
{
    match read_values(alloc, &entry.func, values) {
        Ok(given) => invoke(alloc, entry, &given.args, given.reply.as_ref()).ok(),
        Err(_) => None,
    }
}

/// The call of the first function of a text.
fn call_of(alloc: Global, text: &str, values: &str) -> Option<Invoked> {
    traces_take_writable();
    let Ok(document) = parse(alloc, text) else {
        return None;
    };
    match adapt_document(alloc, document) {
        Ok(adapted) => first_call(alloc, adapted.functions.as_slice(), values),
        Err(_) => None,
    }
}

const LENGTH: &str = r#"(typename $n u32) (typename $e (enum $a $b))
(module $m (@interface func (export "f") (param $s string) (result $r (expected $n (error $e)))))"#;

const PASS: &[Word] = &[
    Word {
        ty: WasmType::I32,
        bits: 1000,
    },
    Word {
        ty: WasmType::I32,
        bits: 5,
    },
    Word {
        ty: WasmType::I32,
        bits: 16,
    },
];

const BACK: &[Word] = &[Word {
    ty: WasmType::I32,
    bits: 0,
}];

const TAKEN: &[Placed] = &[Placed { at: 16, len: 4 }];

fn has_text(alloc: Global, value: Option<&Value>, text: &str) -> bool {
    let Some(value) = value else {
        return false;
    };
    value_text(alloc, value).is_ok_and(|written| written.as_str() == text)
}

/// What is seen of the call with a list and the length 258.
fn is_seen(alloc: Global, invoked: &Invoked) -> bool {
    invoked.pass.as_slice() == PASS
        && invoked.back.as_slice() == BACK
        && invoked.taken.as_slice() == TAKEN
        && has_text(alloc, invoked.notes.get(0), "@1000+5")
        && has_text(alloc, invoked.returned.as_ref(), "(#0 258)")
}

fn has_bytes(invoked: &Invoked) -> bool {
    let memory = &invoked.memory;
    memory.byte(15) == None
        && memory.byte(16) == Some(2)
        && memory.byte(17) == Some(1)
        && memory.byte(19) == Some(0)
        && memory.byte(20) == None
}

fn is_called(alloc: Global) -> bool {
    call_of(alloc, LENGTH, "@1000+5\n(#0 258)\n").is_some_and(|invoked| is_seen(alloc, &invoked)
        && has_bytes(&invoked))
}

#[test]
fn the_call_is_seen(rt: HostRuntime) {
    assert!(rt; is_called(rt.alloc()));
}
