//! The surface of the crates that write of a document: `witx_abi`, `witx_render`, `witx_compat`,
//! `witx_docs`.

use crate::bounds::{copied, displayed, each, equal, error, hashed, plain, shown};
use std::alloc::Global;
use std::rc::Rc;
use witx_abi::{
    AbiError, AbiFunc, Bindgen, BindgenError, Event, Events, FailingBindgen, Instruction,
    InterfaceCall, Payloads, Place, SignatureError, Step, Trace, WasmCall, WasmType, WasmTypes,
    lowerable,
};
use witx_ast::{
    BuiltinType, Datatype, Document, HandleDatatype, IntRepr, InterfaceFunc, InterfaceFuncParam,
    Module, ModuleImport, NamedType, RecordDatatype, TypeRef, Variant,
};
use witx_base::{Calls, Id, OutOfMemory, Text};
use witx_compat::{
    FuncPolyfill, FuncPolyfills, ModuleMap, ModulePolyfill, ModulePolyfills, ParamPolyfill,
    ParamPolyfills, ParamUnknown, ParamUnknowns, Polyfill, PolyfillError, RepEquality,
    Representable, TypePolyfill, TypePolyfills,
};
use witx_docs::{
    DocsError, Documentation, MdContent, MdFunc, MdHeading, MdNamedType, MdSection, MdTree,
    MissingLinks, Numbers, ToMarkdown, document_md,
};
use witx_render::{SExpr, SExprs, ToSExpr, document_text};

/// Signatures, instructions, traces.
pub fn abi() {
    plain::<WasmType>();
    each!(equal:
        Place, SignatureError, AbiError, BindgenError, Event, Step, WasmCall, InterfaceCall,
        Payloads, Events,
    );
    copied::<WasmTypes>();
    shown::<Instruction<'static>>();
}

/// How many operands an instruction takes, and how many results it gives.
pub fn sizes_of(instruction: &Instruction<'_>) -> (usize, usize) {
    (instruction.operands_len(), instruction.results_len())
}

/// S-expressions.
pub fn expressions() {
    displayed::<SExpr>();
    each!(copied: SExpr, SExprs);
}

/// Compatibility of two documents.
pub fn compatibility() {
    plain::<RepEquality>();
    each!(hashed:
        Polyfill, ModulePolyfill, FuncPolyfill, ParamPolyfill, ParamUnknown, TypePolyfill,
    );
    error::<PolyfillError>();
}

/// The lists of polyfills, and the mapping of modules.
pub fn compatibility_lists() {
    each!(hashed: ModulePolyfills, FuncPolyfills, ParamPolyfills, ParamUnknowns, TypePolyfills);
    copied::<ModuleMap>();
}

/// Pages.
pub fn pages() {
    equal::<DocsError>();
    each!(hashed: Numbers, MissingLinks);
}

/// The tree that a page is made from.
pub fn nodes() {
    plain::<MdHeading>();
    each!(shown: MdSection, MdNamedType, MdFunc);
}
