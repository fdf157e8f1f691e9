//! The surface of the crates that read one text: `witx_base`, `witx_lex`, `witx_syntax`, `witx_files`.

use crate::bounds::{copied, each, equal, error, hashed, ordered, plain};
use std::alloc::Global;
use witx_base::{
    Bytes, Calls, Failed, Id, Items, MemSink, MemSource, NameMap, OutOfMemory, Sink, Source, Text,
    WitxPath,
};
use witx_files::{Aliases, FailingFs, IoError, IoFault, Location, MockFs, WitxIo};
use witx_lex::{
    Comments, LexError, LexFault, LexKind, Lexed, Span, Token, Tokens, lex, line_column,
};
use witx_syntax::{
    BuiltinSyntax, CaseSyntax, CaseSyntaxes, CommentSyntax, ConstSyntax, DeclSyntax, Documented,
    EnumSyntax, ExpectedSyntax, FieldSyntax, FieldSyntaxes, FlagsSyntax, HandleSyntax, IdSyntax,
    ImportTypeSyntax, InterfaceFuncSyntax, MemberSyntaxes, ModuleDeclSyntax, ModuleDeclSyntaxes,
    ModuleImportSyntax, ModuleSyntax, ParseError, ParseFault, RecordSyntax, SyntaxError,
    TopLevelDocument, TopLevelSyntax, TopLevelSyntaxes, TupleSyntax, TypeSyntaxes, TypedefSyntax,
    TypenameSyntax, UnionFieldSyntaxes, UnionSyntax, VariantSyntax, parse_document,
};

/// Texts, names, paths, and the devices in memory.
pub fn base() {
    each!(ordered: Text, WitxPath);
    each!(hashed: Id, Bytes, Calls);
    each!(equal: OutOfMemory, Failed);
}

/// The token of a quoted text owns the text.
pub fn quoted(text: Text) -> Token<'static> {
    Token::Quoted(text)
}

/// Tokens, faults of texts, and places.
pub fn tokens() {
    each!(equal:
        Span, Token<'static>, Lexed<'static>, Tokens<'static>, LexFault, LexKind, LexError,
    );
    copied::<Comments<'static>>();
}

/// Syntax trees, and the parser.
pub fn syntax() {
    each!(plain: IdSyntax<'static>, BuiltinSyntax, HandleSyntax, ImportTypeSyntax);
    each!(copied:
        CommentSyntax<'static>, Documented<'static, TypedefSyntax<'static>>,
        TopLevelDocument<'static>, TopLevelSyntax<'static>, DeclSyntax<'static>,
        TypenameSyntax<'static>, TypedefSyntax<'static>, EnumSyntax<'static>, FlagsSyntax<'static>,
        TupleSyntax<'static>, ExpectedSyntax<'static>, ConstSyntax<'static>, RecordSyntax<'static>,
        FieldSyntax<'static>, UnionSyntax<'static>, VariantSyntax<'static>, CaseSyntax<'static>,
        ModuleSyntax<'static>, ModuleDeclSyntax<'static>, ModuleImportSyntax,
        InterfaceFuncSyntax<'static>,
    );
}

/// The documentation of comments.
pub fn docs_of(alloc: Global, comments: &CommentSyntax<'_>) -> Result<Text, OutOfMemory> {
    comments.docs(alloc)
}

/// The lists of syntax trees, and why a text has no tree.
pub fn syntax_lists() {
    each!(copied:
        CaseSyntaxes<'static>, FieldSyntaxes<'static>, MemberSyntaxes<'static>,
        ModuleDeclSyntaxes<'static>, TopLevelSyntaxes<'static>, TypeSyntaxes<'static>,
        UnionFieldSyntaxes<'static>,
    );
    error::<ParseError>();
    each!(equal: ParseFault, SyntaxError);
}

/// Files in memory, places in them, and what a reader of files answers.
pub fn files() {
    each!(copied: Location, Aliases);
    each!(equal: IoError, IoFault);
}
