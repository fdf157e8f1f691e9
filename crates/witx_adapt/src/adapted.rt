//! An adapted document, and its entries.

use std::rc::Rc;
use witx_abi::{Trace, WasmTypes};
use witx_ast::{Document, InterfaceFunc, Module};
use witx_base::Items;
use witx_layout::SizeAligns;

/// A function with what lowering makes of it: its signature, and the events of its caller and callee.
#[derive(Drop)]
pub struct AdaptedFunc {
    pub module: Rc<Module>,
    pub func: Rc<InterfaceFunc>,
    pub params: WasmTypes,
    pub results: WasmTypes,
    pub caller: Trace,
    pub callee: Trace,
}

/// Functions of a document, in its order.
pub type AdaptedFuncs = Items<AdaptedFunc>;

/// A checked document with all that is made of it: one entry for each function of its modules, and
/// one layout for each typename. The document is let go last.
#[derive(Drop)]
pub struct Adapted {
    pub functions: AdaptedFuncs,
    pub layouts: SizeAligns,
    pub document: Document,
}
