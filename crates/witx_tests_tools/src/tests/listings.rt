//! The reader of traces and the verdict, each called once, and functions that get no yes.

ghost use Rattle.witx_traces.specs.Traces.{HasEachEntry, listed};

use std::alloc::Global;
use witx::parse;
use witx_adapt::{Adapted, AdaptedFunc, adapt_document, listing};
use witx_ast::InterfaceFunc;
use witx_base::{Id, Items, OutOfMemory};
use witx_fixtures_run::func_of;
use witx_machine::Place;
use witx_verify::{Doubt, TracePair, TracesError, Verdict, read_traces, verify};

const ADD: &str =
    r#"(module $m (@interface func (export "add") (param $x u32) (param $y u64) (result $r u32)))"#;

fn gets_yes(alloc: Global, entry: &AdaptedFunc, pair: &TracePair) -> bool {
    let found = verify(
        alloc,
        &entry.module.name,
        &entry.func,
        &pair.caller,
        &pair.callee,
    );
    found == Ok(Verdict::Yes)
}

fn all_get_yes(alloc: Global, functions: &[AdaptedFunc], pairs: &[TracePair]) -> bool {
    for (entry, pair) in functions.iter().zip(pairs) {
        if !gets_yes(alloc, entry, pair) {
            return false;
        }
    }
    functions.len() == pairs.len()
}

/// Whether the listing of a document gives each of its functions traces that get a yes.
fn own_get_yes(alloc: Global, adapted: &Adapted) -> Option<bool>
    requires { HasEachEntry (listed adapted.now) }
{
    let text = listing(alloc, adapted).ok()?;
    let pairs = read_traces(alloc, adapted, text.as_str()).ok()?;
    Some(all_get_yes(alloc, adapted.functions.as_slice(), pairs.as_slice()))
}

/// The line of a text that can't stand, where it has one.
fn unfit_line(alloc: Global, adapted: &Adapted, text: &str) -> Option<usize>
    requires { HasEachEntry (listed adapted.now) }
{
    match read_traces(alloc, adapted, text).err() {
        Some(TracesError::Line { line }) => Some(line),
        _ => None,
    }
}

fn adapted_is_read(alloc: Global, adapted: &Adapted) -> bool
    requires { HasEachEntry (listed adapted.now) }
{
    own_get_yes(alloc, adapted) == Some(true)
        && unfit_line(alloc, adapted, "module m\n\n") == Some(2)
}

fn is_read(alloc: Global, text: &str) -> bool {
    let Ok(document) = parse(alloc, text) else {
        return false;
    };
    match adapt_document(alloc, document) {
        Ok(adapted) => adapted_is_read(alloc, &adapted),
        Err(_) => false,
    }
}

#[test]
fn traces_are_read(rt: HostRuntime) {
    assert!(rt; is_read(rt.alloc(), ADD));
}

/// Functions that get no yes, whatever their traces, for this place.
#[rattlefmt::skip]
static DOUBTFUL: &[(&str, Place)] = &[
    (r#"(module $m (@interface func (export "f") (param $x u8) (param $y bool)))"#, Place::Param(1)),
    (r#"(module $m (@interface func (export "f") (result $r (expected (error)))))"#, Place::Result(0)),
    (
        r#"(typename $w (flags (@witx repr u8) $a $b $c $d $e $f $g $h $i))
(module $m (@interface func (export "f") (param $x u8) (param $y $w)))"#,
        Place::Param(1),
    ),
];

/// The verdict on two traces without events.
fn empty_verdict(alloc: Global, func: &InterfaceFunc) -> Result<Verdict, OutOfMemory> {
    let module = Id::new(alloc, "m")?;
    verify(alloc, &module, func, &Items::new(alloc), &Items::new(alloc))
}

fn is_doubtful(alloc: Global, func: &InterfaceFunc, place: Place) -> bool {
    empty_verdict(alloc, func) == Ok(Verdict::No(Doubt::Function(place)))
}

fn text_is_doubtful(alloc: Global, &(text, place): &(&str, Place)) -> bool {
    func_of(alloc, text).is_some_and(|func| is_doubtful(alloc, &func, place))
}

#[test]
fn doubtful_functions(rt: HostRuntime) {
    let alloc = rt.alloc();
    assert!(rt; DOUBTFUL.iter().all(|row| text_is_doubtful(alloc, row)));
}
