//! The surface of the crates that make a document and lay it out: `witx_ast`, `witx_check`,
//! `witx_layout`.

use crate::bounds::{
    cloned, cloned_and_hashed, copied, each, equal, error, hashed, plain_and_hashed,
    plain_and_ordered,
};
use std::alloc::Global;
use std::rc::Rc;
use std::sync::ledger::Ledger;
use witx_ast::{
    Abi, BuiltinType, Case, Cases, Constant, Constants, Datatype, Definition, Definitions,
    Document, Entries, Entry, Funcs, HandleDatatype, Imports, IntRepr, InterfaceFunc,
    InterfaceFuncParam, Members, Module, ModuleDefinition, ModuleDefinitions, ModuleEntries,
    ModuleEntry, ModuleImport, ModuleImportVariant, Modules, NamedType, Params, RecordDatatype,
    RecordKind, RecordMember, TypeRef, TypeRefs, Typenames, Variant,
};
use witx_base::{Id, OutOfMemory, Text, WitxPath};
use witx_check::{CheckError, DocValidation, DocValidationScope, ValidationError};
use witx_files::MockFs;
use witx_layout::{
    Layout, LayoutError, LayoutsError, MemberLayouts, RecordMemberLayout, RecordMembers, SizeAlign,
    SizeAligns, Steps, TagTooNarrow, TooLarge, VariantOffset, fits_tags, layouts, layouts_text,
};
use witx_syntax::{CommentSyntax, DeclSyntax};

/// Documents, modules, and their look-ups.
pub fn documents() {
    each!(hashed:
        Document, Definition, Definitions, Module, ModuleDefinition, ModuleDefinitions,
        ModuleImport, InterfaceFunc, InterfaceFuncParam, Params, Constant,
    );
    each!(cloned: Entry, ModuleEntry);
    each!(copied: Entries, ModuleEntries);
    each!(plain_and_hashed: Abi, ModuleImportVariant);
}

/// Types.
pub fn types() {
    each!(hashed:
        NamedType, Datatype, RecordDatatype, RecordMember, Members, Variant, Case, Cases, TypeRefs,
    );
    cloned_and_hashed::<TypeRef>();
    each!(plain_and_hashed: BuiltinType, IntRepr, RecordKind, HandleDatatype);
}

/// The checks of declarations.
pub fn checks() {
    error::<ValidationError>();
    equal::<CheckError>();
}

/// A declaration that a scope checks.
pub fn validated(
    scope: &mut DocValidationScope<'_>,
    decl: &DeclSyntax<'_>,
    comments: &CommentSyntax<'_>,
    definitions: &mut Definitions,
) -> Result<(), CheckError> {
    scope.validate_decl(decl, comments, definitions)
}

/// Sizes, alignments, offsets.
pub fn layout() {
    plain_and_ordered::<SizeAlign>();
    hashed::<SizeAligns>();
    each!(equal: TooLarge, LayoutError, TagTooNarrow, LayoutsError);
}

/// The offset of a member.
pub fn offset_of(layout: &RecordMemberLayout<'_>) -> usize {
    layout.offset
}
