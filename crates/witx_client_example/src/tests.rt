//! The client on one text.

use crate::{ClientError, adapted_text, first_call, given_traces, own_traces_hold, shims_of};
use std::alloc::Global;
use witx_tools::{
    Adapted, Duplicate, Id, Invoked, Module, ModuleMap, OutOfMemory, Word, listing, module_of,
};

const TEXT: &str = "\
(typename $size u32)
(typename $error (enum (@witx tag u16) $none $full))
(module $log (@interface func (export \"write\")
  (param $text string) (result $r (expected $size (error $error)))))";

/// A text of five characters at 1000, and the reply that five of them were written.
const LINES: &str = "\
@1000+5
(#0 5)
";

/// The bits of words.
fn bits(words: &[Word]) -> Option<(u64, u64, u64)> {
    match words {
        [at, len, back] => Some((at.bits, len.bits, back.bits)),
        _ => None,
    }
}

fn passes(invoked: &Invoked) -> bool {
    bits(invoked.pass.as_slice()) == Some((1000, 5, 16))
}

fn log(alloc: Global) -> Result<Id, OutOfMemory> {
    Id::new(alloc, "log")
}

/// The shims of the document by itself: one, which passes each word on.
fn own_shims(alloc: Global, adapted: &Adapted) -> Result<bool, ClientError> {
    let mut names = ModuleMap::new(alloc);
    names.insert(log(alloc)?, log(alloc)?)?;
    let shims = shims_of(alloc, &adapted.document, &adapted.document, &names)?;
    Ok(match shims.as_slice() {
        [made] => made.pass.as_slice() == [0, 1, 2].as_slice(),
        _ => false,
    })
}

fn whole_way(alloc: Global) -> Result<bool, ClientError> {
    let adapted = adapted_text(alloc, TEXT)?;
    let holds = own_traces_hold(alloc, &adapted)?;
    let call = first_call(alloc, &adapted, LINES)?;
    let shims = own_shims(alloc, &adapted)?;
    Ok(holds && shims && call.is_some_and(|invoked| passes(&invoked)))
}

#[test]
fn the_whole_way(rt: HostRuntime) {
    assert!(rt; whole_way(rt.alloc()).is_ok_and(|held| held));
}

/// Whether a document's own listing gives traces, and none as soon as an entry is gone.
fn gives_with_each_entry(alloc: Global) -> Result<bool, ClientError> {
    let mut adapted = adapted_text(alloc, TEXT)?;
    let text = listing(alloc, &adapted)?;
    let whole = given_traces(alloc, &adapted, text.as_str())?.is_some();
    adapted.functions.truncate(0);
    Ok(whole && given_traces(alloc, &adapted, text.as_str())?.is_none())
}

#[test]
fn an_entry_for_each_function(rt: HostRuntime) {
    assert!(rt; gives_with_each_entry(rt.alloc()).is_ok_and(|held| held));
}

/// The module of the items of another under the name `log`, or of those twice.
fn module_again(alloc: Global, of: &Module, twice: bool) -> Result<Option<Module>, OutOfMemory> {
    let mut items = of.definitions().copy()?;
    if twice {
        for item in of.definitions().as_slice() {
            items.push(item.copy()?)?;
        }
    }
    module_of(alloc, log(alloc)?, items, of.docs.copy()?)
}

/// Whether the module of a text is made once more of its items, and none is of its items twice.
fn is_made_once(alloc: Global) -> Result<bool, ClientError> {
    let adapted = adapted_text(alloc, TEXT)?;
    let Some(log) = adapted.document.module(&log(alloc)?) else {
        return Ok(false);
    };
    let made = module_again(alloc, log, false)?;
    let twice = module_again(alloc, log, true)?;
    Ok(twice.is_none() && made.is_some_and(|made| made == **log))
}

#[test]
fn a_module_by_hand(rt: HostRuntime) {
    assert!(rt; is_made_once(rt.alloc()).is_ok_and(|held| held));
}

/// Texts that are refused, and what is told of them.
#[rattlefmt::skip]
const REFUSED: &[(&str, &str)] = &[
    ("(use bbbbbbb)", "expected a string\n     --> -:1:6"),
    ("(typename $a $b)", "in \"-\":\n\nUnknown name `b`\n     --> -:1:14"),
    (
        "(typename $f (flags (@witx repr u8) $a $b $c $d $e $f $g $h $i))",
        "definition 0: 9 flags or cases, at most 8",
    ),
];

fn tells(alloc: Global, source: &str, told: &str) -> bool {
    match adapted_text(alloc, source) {
        Err(ClientError::Refused(text)) => text.as_str() == told,
        _ => false,
    }
}

fn all_told(alloc: Global) -> bool {
    for (source, told) in REFUSED {
        if !tells(alloc, source, told) {
            return false;
        }
    }
    true
}

#[test]
fn refusals_as_text(rt: HostRuntime) {
    assert!(rt; all_told(rt.alloc()));
}
