//! The syntax of the interface language: the tree of a text, or where it has none and why.
#![tactic(auto)]

mod actions;
mod builder;
mod held;
mod laws;
mod leaf;
mod parser;
mod stack;
mod value;

pub use laws::{
    a_document_or_a_fault, at_most_one_document, at_most_one_parse_fault,
    identifiers_stand_in_the_text, no_fault_where_read,
};
pub use parser::parse_document;
pub use witx_language::{ParseError, ParseFault, SyntaxError, token_kinds_are_distinct};
pub use witx_syntax_tree::{
    BuiltinSyntax, CaseSyntax, CaseSyntaxes, CommentSyntax, Comments, ConstSyntax, DeclSyntax,
    Documented, EnumSyntax, ExpectedSyntax, FieldSyntax, FieldSyntaxes, FlagsSyntax, HandleSyntax,
    IdSyntax, ImportTypeSyntax, InterfaceFuncSyntax, MemberSyntaxes, ModuleDeclSyntax,
    ModuleDeclSyntaxes, ModuleImportSyntax, ModuleSyntax, RecordSyntax, TopLevelDocument,
    TopLevelSyntax, TopLevelSyntaxes, TupleSyntax, TypeSyntaxes, TypedefSyntax, TypenameSyntax,
    UnionFieldSyntaxes, UnionSyntax, VariantSyntax,
};
