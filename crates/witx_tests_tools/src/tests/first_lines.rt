//! The first lines of the page of `witx_tools`, run: nothing but that crate is named.

use std::alloc::Global;
use witx_tools::{Adapted, Bundle, OutOfMemory, Verdict, WitxPath, adapt, verify};

const BUNDLE: &str = "\
;;;; file /size.witx
(typename $size u32)
;;;; file /log.witx
(use \"size.witx\")
(module $log (@interface func (export \"write\") (param $text string) (result $written $size)))
";

/// The document of the file at this path of a bundle, adapted; or none, where it is refused.
fn adapted(alloc: Global, bundle: &[u8], path: &str) -> Option<Adapted> {
    let mut files = Bundle::read(alloc, bundle).ok()?;
    let path = WitxPath::new(alloc, path).ok()?;
    adapt(alloc, &[path], &mut files).ok()
}

/// Whether the caller's and the callee's events of each of its functions are faithful.
fn are_faithful(alloc: Global, adapted: &Adapted) -> Result<bool, OutOfMemory> {
    for entry in adapted.functions.as_slice() {
        let (caller, callee) = (entry.caller.events(), entry.callee.events());
        if verify(alloc, &entry.module.name, &entry.func, caller, callee)? != Verdict::Yes {
            return Ok(false);
        }
    }
    Ok(true)
}

fn all_hold(alloc: Global) -> bool {
    let Some(found) = adapted(alloc, BUNDLE.as_bytes(), "/log.witx") else {
        return false;
    };
    found.functions.len() == 1
        && are_faithful(alloc, &found) == Ok(true)
        && adapted(alloc, BUNDLE.as_bytes(), "/other.witx").is_none()
}

#[test]
fn first_lines(rt: HostRuntime) {
    let alloc = rt.alloc();
    assert!(rt; all_hold(alloc));
}
