//! What forms stand for while a tree is built. The last item of a list stands first.

use witx_base::{OutOfMemory, Text};
use witx_language::{Entries, Entry, TokenKind};
use witx_lex::Span;
use witx_syntax_tree::{
    BuiltinSyntax, CaseSyntax, Documented, FieldSyntax, IdSyntax, ModuleDeclSyntax, TopLevelSyntax,
    TypedefSyntax,
};
use witx_values::TextTokens;

/// A member with its comments.
pub type Member<'a> = Documented<'a, IdSyntax<'a>>;

/// A field with its comments.
pub type Field<'a> = Documented<'a, FieldSyntax<'a>>;

/// A type of a union with its comments.
pub type UnionField<'a> = Documented<'a, TypedefSyntax<'a>>;

/// A case with its comments.
pub type Case<'a> = Documented<'a, CaseSyntax<'a>>;

/// A declaration of a module with its comments.
pub type Decl<'a> = Documented<'a, ModuleDeclSyntax<'a>>;

/// A top-level form with its comments.
pub type Item<'a> = Documented<'a, TopLevelSyntax<'a>>;

/// An identifier.
#[derive(Drop)]
pub struct Named<'a> {
    pub id: IdSyntax<'a>,
}

/// An integer.
#[derive(Drop)]
pub struct Number {
    pub value: u64,
}

/// A builtin word.
#[derive(Drop)]
pub struct BuiltinWord {
    pub builtin: BuiltinSyntax,
}

/// A quoted text, and where it stands.
#[derive(Drop)]
pub struct Quoted {
    pub text: Text,
    pub span: Span,
}

/// What a token or a form stands for.
#[derive(Drop)]
pub enum Value<'a> {
    Name(Named<'a>),
    Quoted(Quoted),
    Integer(Number),
    Builtin(BuiltinWord),
    Type(TypedefSyntax<'a>),
    Types(Vec<TypedefSyntax<'a>>),
    Error(Option<Box<TypedefSyntax<'a>>>),
    Member(Member<'a>),
    Members(Vec<Member<'a>>),
    Field(Field<'a>),
    Fields(Vec<Field<'a>>),
    UnionField(UnionField<'a>),
    UnionFields(Vec<UnionField<'a>>),
    Case(Case<'a>),
    Cases(Vec<Case<'a>>),
    Entry(Entry<'a>),
    Entries(Entries<'a>),
    Decl(Decl<'a>),
    Decls(Vec<Decl<'a>>),
    Item(TopLevelSyntax<'a>),
    Items(Vec<Item<'a>>),
}

/// The tokens of the text that is read.
pub type Tokens<'a> = TextTokens<'a, TokenKind>;

/// Values that a tree is built of; the last is the top.
pub type Stack<'a> = Vec<Value<'a>>;

/// What an action answers: nothing but that memory may be wanted.
pub type Done = Result<(), OutOfMemory>;
