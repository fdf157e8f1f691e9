//! The one crate to be named: the program's top call, `run_all`, which knows all commands; the calls of the commands that
//! `run` doesn't have, its tools; and all that `witx` gives on, under the same names. Not here: the laws of the crates
//! below about their definitions, and calls that they have for each other.
#![tactic(auto)]

mod conditions;
mod import_texts;
mod invoke_texts;
mod laws;
mod own;
mod performing;
mod program;
mod shim_texts;
mod verdict_texts;

pub use conditions::{
    adapted_meets_conditions, given_values_meet_conditions, mapped_module_meets_conditions,
    new_validator_meets_conditions, polyfill_meets_conditions,
};
pub use laws::{commands_of_both, shims_tell_two_refusals, valid_is_not_refused_by_tools};
pub use program::run_all;
pub use witx_conditions::{
    allocate_writable, are_values, document_of, has_each_entry, is_closed, is_mapped, is_ordered,
    module_of, takes_values,
};
pub use witx_error_texts::ErrorText;
pub use witx_imports::{
    ImportFault, ImportFaults, ImportsError, WasmImport, WasmImports, check_imports, read_imports,
};
pub use witx_invoke::{
    GivenValues, InvokeError, Invoked, Placed, PlacedRanges, ValuesError, Word, Words, invoke,
    read_values, value_text,
};
// The names of a run's statuses, and what its definitions decide.
pub use witx_commands::{
    DONE, NO_BUNDLE, NO_FORM, NO_MEMORY, REFUSED, UNREAD, UNWRITTEN, constants_have_typenames,
    output_or_refusal, valid_files_are_not_refused, valid_is_not_refused,
};
pub use witx_shim::{Places, Shim, ShimError, shim};
pub use witx_traces::{TracePair, TracePairs, TracesError, read_traces};
pub use witx_verify::{Doubt, Verdict, verify};
// All that `witx` gives on, by hand, since more than two hundred names would be laid out one a line: first its own calls,
// then what it has of the crates below, a list for each.
#[rattlefmt::skip]
pub use witx::{AdaptError, InputError, Ran, adapt, has_form, put_text, read_bundle, run};
#[rattlefmt::skip]
pub use witx::{
    Bytes, CallCounter, Calls, Duplicate, Failed, Id, Items, MemSink, MemSource, NameMap,
    OutOfMemory, Reading, Sink, Source, Text, WitxPath, Writing,
};
#[rattlefmt::skip]
pub use witx::{
    Comments, LexError, LexFault, LexKind, Lexed, LineCursor, Span, Token, Tokens, lex, line_column,
};
#[rattlefmt::skip]
pub use witx::{
    BuiltinSyntax, CaseSyntax, CaseSyntaxes, CommentSyntax, ConstSyntax, DeclSyntax, Documented,
    EnumSyntax, ExpectedSyntax, FieldSyntax, FieldSyntaxes, FlagsSyntax, HandleSyntax, IdSyntax,
    ImportTypeSyntax, InterfaceFuncSyntax, MemberSyntaxes, ModuleDeclSyntax, ModuleDeclSyntaxes,
    ModuleImportSyntax, ModuleSyntax, RecordSyntax, TopLevelDocument, TopLevelSyntax,
    TopLevelSyntaxes, TupleSyntax, TypeSyntaxes, TypedefSyntax, TypenameSyntax, UnionFieldSyntaxes,
    UnionSyntax, VariantSyntax, documentation,
};
#[rattlefmt::skip]
pub use witx::{ParseError, ParseFault, SyntaxError, parse_document};
#[rattlefmt::skip]
pub use witx::{Aliases, FailingFs, IoError, IoFault, Location, MockFs, WitxIo};
#[rattlefmt::skip]
pub use witx::{Bundle, BundleError};
#[rattlefmt::skip]
pub use witx::{
    Abi, BuiltinType, Case, Cases, Constant, Constants, Datatype, Definition, Definitions, Document,
    Entries, Entry, Funcs, HandleDatatype, Imports, IntRepr, InterfaceFunc, InterfaceFuncParam,
    Kind, Members, Module, ModuleDefinition, ModuleDefinitions, ModuleEntries, ModuleEntry,
    ModuleImport, ModuleImportVariant, Modules, NamedType, OfKind, Params, RecordDatatype,
    RecordKind, RecordMember, TypeRef, TypeRefs, Typenames, Variant,
};
#[rattlefmt::skip]
pub use witx::{CheckError, DocValidation, DocValidationScope, SharedPath, ValidationError};
#[rattlefmt::skip]
pub use witx::{WitxError, parse, parse_witx_with};
#[rattlefmt::skip]
pub use witx::{
    Layout, LayoutError, LayoutsError, MemberLayouts, RecordMemberLayout, RecordMembers, SizeAlign,
    SizeAligns, Steps, TagTooNarrow, TooLarge, VariantOffset, fits_tags, layouts, layouts_text,
    ordered_layouts_text, uncounted_layouts,
};
#[rattlefmt::skip]
pub use witx::{
    AbiError, AbiFunc, Bindgen, BindgenError, Event, Events, FailingBindgen, Instruction,
    InterfaceCall, Payloads, Place, SignatureError, Step, Trace, WasmCall, WasmType, WasmTypes,
    callee_trace, caller_trace, lowerable, words_back, words_in,
};
#[rattlefmt::skip]
pub use witx::{SExpr, SExprs, ToSExpr, document_text, print_and_parse};
#[rattlefmt::skip]
pub use witx::{
    FuncPolyfill, FuncPolyfills, ModuleMap, ModulePolyfill, ModulePolyfills, ParamPolyfill,
    ParamPolyfills, ParamUnknown, ParamUnknowns, Polyfill, PolyfillError, RepEquality,
    Representable, TypePolyfill, TypePolyfills,
};
#[rattlefmt::skip]
pub use witx::{
    DocsError, Documentation, MdContent, MdFunc, MdHeading, MdInputs, MdNamedType, MdOutputs,
    MdSection, MdTree, MissingLinks, Numbers, ToMarkdown, closed_document_md, document_md,
};
#[rattlefmt::skip]
pub use witx::{
    Bools, ByteMemory, PlaceError, ReadError, Value, Values, is_value, read_value, writable,
    write_value,
};
#[rattlefmt::skip]
pub use witx::{LARGEST_SAMPLE, sample_bundle, sample_files, summary};
#[rattlefmt::skip]
pub use witx::{
    Adapted, AdaptedFunc, AdaptedFuncs, DocumentError, RefusedDocument, adapt_document, listing,
};
