//! What is declared in a text.

use std::alloc::Global;
use std::rc::Rc;
use witx::parse;
use witx_ast::{InterfaceFunc, NamedType};
use witx_base::Id;

/// The typename `t` of a text.
pub fn typename_of(alloc: Global, text: &str) -> Option<Rc<NamedType>> {
    let name = Id::new(alloc, "t").ok()?;
    let document = parse(alloc, text).ok()?;
    document.typename(&name)?.clone().ok()
}

/// The first function of the first module of a text.
pub fn func_of(alloc: Global, text: &str) -> Option<Rc<InterfaceFunc>> {
    let document = parse(alloc, text).ok()?;
    document.modules().next()?.funcs().next()?.clone().ok()
}
