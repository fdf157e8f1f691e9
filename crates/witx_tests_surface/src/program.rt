//! The surface of `witx`: the headline's call, the program, and its parts.

use crate::bounds::{each, equal, error};
use std::alloc::Global;
use witx::{
    AdaptError, Adapted, AdaptedFuncs, Bundle, BundleError, InputError, Ran, WitxError, adapt,
    has_form, listing, parse, parse_witx_with, put_text, read_bundle, run, sample_bundle, summary,
};
use witx_ast::Document;
use witx_base::{Failed, MemSink, MemSource, OutOfMemory, Text, WitxPath};
use witx_check::ValidationError;
use witx_files::MockFs;
use witx_syntax::ParseError;

/// What the texts mean, and what is written of it.
pub fn headline() {
    error::<WitxError>();
    each!(equal: AdaptError, BundleError);
}

/// The pairs of traces of an adapted document.
pub fn pairs_of(adapted: &Adapted) -> &AdaptedFuncs {
    &adapted.functions
}

/// The program, and the calls that make tools.
pub fn program() {
    equal::<InputError>();
}
