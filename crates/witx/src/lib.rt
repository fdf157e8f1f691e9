//! The front door: `run`, which reads a bundle of interface texts and writes what its command asks for; `adapt`,
//! the call behind the first command; and again, under their own names, the calls and types that a caller of
//! these needs of the crates below. Not here: the laws of those crates about their definitions, and calls that they
//! have for each other. `witx_tools` gives all of this on, with the calls of the further commands. What a run is made
//! of, for a program that runs further commands, stands in `program` and `commands`, and in `witx_commands`.
#![tactic(auto)]

pub mod commands;
mod output;
pub mod program;
mod refused;

pub use output::put_text;
pub use program::{Ran, run};
pub use witx_commands::{AdaptError, InputError, adapt, has_form, read_bundle};
// By hand, since more than a hundred names would be laid out one a line.
#[rattlefmt::skip]
pub use witx_base::{
    Bytes, CallCounter, Calls, Duplicate, Failed, Id, Items, MemSink, MemSource, NameMap,
    OutOfMemory, Reading, Sink, Source, Text, WitxPath, Writing,
};
#[rattlefmt::skip]
pub use witx_lex::{
    Comments, LexError, LexFault, LexKind, Lexed, LineCursor, Span, Token, Tokens, lex, line_column,
};
#[rattlefmt::skip]
pub use witx_syntax_tree::{
    BuiltinSyntax, CaseSyntax, CaseSyntaxes, CommentSyntax, ConstSyntax, DeclSyntax, Documented,
    EnumSyntax, ExpectedSyntax, FieldSyntax, FieldSyntaxes, FlagsSyntax, HandleSyntax, IdSyntax,
    ImportTypeSyntax, InterfaceFuncSyntax, MemberSyntaxes, ModuleDeclSyntax, ModuleDeclSyntaxes,
    ModuleImportSyntax, ModuleSyntax, RecordSyntax, TopLevelDocument, TopLevelSyntax,
    TopLevelSyntaxes, TupleSyntax, TypeSyntaxes, TypedefSyntax, TypenameSyntax, UnionFieldSyntaxes,
    UnionSyntax, VariantSyntax, documentation,
};
#[rattlefmt::skip]
pub use witx_syntax::{ParseError, ParseFault, SyntaxError, parse_document};
#[rattlefmt::skip]
pub use witx_files::{Aliases, FailingFs, IoError, IoFault, Location, MockFs, WitxIo};
#[rattlefmt::skip]
pub use witx_bundle::{Bundle, BundleError};
#[rattlefmt::skip]
pub use witx_ast::{
    Abi, BuiltinType, Case, Cases, Constant, Constants, Datatype, Definition, Definitions, Document,
    Entries, Entry, Funcs, HandleDatatype, Imports, IntRepr, InterfaceFunc, InterfaceFuncParam,
    Kind, Members, Module, ModuleDefinition, ModuleDefinitions, ModuleEntries, ModuleEntry,
    ModuleImport, ModuleImportVariant, Modules, NamedType, OfKind, Params, RecordDatatype,
    RecordKind, RecordMember, TypeRef, TypeRefs, Typenames, Variant,
};
#[rattlefmt::skip]
pub use witx_check::{CheckError, DocValidation, DocValidationScope, SharedPath, ValidationError};
#[rattlefmt::skip]
pub use witx_walk::{WitxError, parse, parse_witx_with};
#[rattlefmt::skip]
pub use witx_layout::{
    Layout, LayoutError, LayoutsError, MemberLayouts, RecordMemberLayout, RecordMembers, SizeAlign,
    SizeAligns, Steps, TagTooNarrow, TooLarge, VariantOffset, fits_tags, layouts, layouts_text,
    ordered_layouts_text, uncounted_layouts,
};
#[rattlefmt::skip]
pub use witx_abi::{
    AbiError, AbiFunc, Bindgen, BindgenError, Event, Events, FailingBindgen, Instruction,
    InterfaceCall, Payloads, Place, SignatureError, Step, Trace, WasmCall, WasmType, WasmTypes,
    callee_trace, caller_trace, lowerable, words_back, words_in,
};
#[rattlefmt::skip]
pub use witx_render::{SExpr, SExprs, ToSExpr, document_text};
#[rattlefmt::skip]
pub use witx_read_back::print_and_parse;
#[rattlefmt::skip]
pub use witx_compat::{
    FuncPolyfill, FuncPolyfills, ModuleMap, ModulePolyfill, ModulePolyfills, ParamPolyfill,
    ParamPolyfills, ParamUnknown, ParamUnknowns, Polyfill, PolyfillError, RepEquality,
    Representable, TypePolyfill, TypePolyfills,
};
#[rattlefmt::skip]
pub use witx_docs::{
    DocsError, Documentation, MdContent, MdFunc, MdHeading, MdInputs, MdNamedType, MdOutputs,
    MdSection, MdTree, MissingLinks, Numbers, ToMarkdown, closed_document_md, document_md,
};
#[rattlefmt::skip]
pub use witx_bytes::{
    Bools, ByteMemory, PlaceError, ReadError, Value, Values, is_value, read_value, writable,
    write_value,
};
#[rattlefmt::skip]
pub use witx_sample::{LARGEST_SAMPLE, sample_bundle, sample_files, summary};
#[rattlefmt::skip]
pub use witx_adapt::{
    Adapted, AdaptedFunc, AdaptedFuncs, DocumentError, RefusedDocument, adapt_document, listing,
};
