//! Syntax trees of the interface language, as a text has them: names with their places, and the
//! comments of each item.
#![tactic(auto)]

mod compare_laws;
mod copies;
mod laws;
mod tree;

pub use compare_laws::{
    declarations_are_compared_without_places, lists_are_compared_by_items,
    types_are_compared_without_places,
};
pub use laws::{
    documents_equal_without_places, identifiers_equal_by_name, types_equal_without_places,
};
pub use tree::{
    BuiltinSyntax, CaseSyntax, CaseSyntaxes, ConstSyntax, DeclSyntax, EnumSyntax, ExpectedSyntax,
    FieldSyntax, FieldSyntaxes, FlagsSyntax, HandleSyntax, IdSyntax, ImportTypeSyntax,
    InterfaceFuncSyntax, MemberSyntaxes, ModuleDeclSyntax, ModuleDeclSyntaxes, ModuleImportSyntax,
    ModuleSyntax, RecordSyntax, TopLevelDocument, TopLevelSyntax, TopLevelSyntaxes, TupleSyntax,
    TypeSyntaxes, TypedefSyntax, TypenameSyntax, UnionFieldSyntaxes, UnionSyntax, VariantSyntax,
};
pub use witx_comments::{
    CommentSyntax, Comments, Documented, documentation, lines_are_cut_between_characters,
};
