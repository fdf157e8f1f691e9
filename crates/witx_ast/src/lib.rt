//! The document: types, functions, modules and constants, what is read off them, and look-ups.
#![tactic(auto)]

mod abi;
mod copies;
mod copy_laws;
mod copying;
mod definition;
mod document;
mod errors;
mod function;
mod held;
mod holding;
mod kinds;
mod laws;
mod module;
mod names;
mod reads;
mod types;
mod written;

pub use copy_laws::{
    cloned_entry_is_equal, cloned_module_entry_is_equal, copied_case_is_equal,
    copied_constant_is_equal, copied_datatype_is_equal, copied_definition_is_equal,
    copied_definitions_are_equal, copied_documents_are_equal, copied_entries_are_equal,
    copied_function_is_equal, copied_import_is_equal, copied_item_is_equal, copied_lists_are_equal,
    copied_member_is_equal, copied_modules_are_equal, copied_named_type_is_equal,
    copied_param_is_equal, copied_parts_are_equal, copied_record_is_equal, copied_type_is_equal,
    copied_variant_is_equal,
};
pub use definition::{
    Constant, Constants, Definition, Definitions, Entries, Entry, Modules, Typenames,
};
pub use document::{Document, names_are_distinct};
pub use errors::TypeRefs;
pub use function::{Abi, InterfaceFunc, InterfaceFuncParam, Params};
pub use kinds::{Kind, OfKind};
pub use laws::{
    alike_test_is_exact, alike_types_share_values, documents_are_equal_by_entries,
    documents_are_hashed_by_names, equal_by_tree, equal_documents_hash_alike,
    equal_modules_hash_alike, misfits_are_exact, modules_are_equal_by_entries,
    modules_are_hashed_by_names, tag_test_is_exact, value_test_is_exact,
};
pub use module::{
    Funcs, Imports, Module, ModuleDefinition, ModuleDefinitions, ModuleEntries, ModuleEntry,
    ModuleImport, ModuleImportVariant,
};
pub use types::{
    BuiltinType, Case, Cases, Datatype, HandleDatatype, IntRepr, Members, NamedType,
    RecordDatatype, RecordKind, RecordMember, TypeRef, Variant,
};
