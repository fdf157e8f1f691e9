//! Syntax trees. An identifier is a slice of the source, without its `$`.

use witx_base::{Items, Text};
use witx_comments::Documented;
use witx_lex::Span;

/// An identifier, and where it stands with its `$`.
///
/// Identifiers are equal by name, wherever they stand.
#[derive(Clone, Copy, Debug)]
#[derive_where(PartialEq, Eq)]
pub struct IdSyntax<'a> {
    pub name: &'a str,
    #[derive_where(skip(EqHashOrd))]
    pub span: Span,
}

/// A builtin type. `usize` is a `U32` of the size of a pointer, `char8` a `U8` that is a character.
#[derive(Clone, Copy, PartialEq, Eq, Debug)]
pub enum BuiltinSyntax {
    Char,
    U8 { lang_c_char: bool },
    U16,
    U32 { lang_ptr_size: bool },
    U64,
    S8,
    S16,
    S32,
    S64,
    F32,
    F64,
}

/// The names of an enum or of flags.
pub type MemberSyntaxes<'a> = Items<Documented<'a, IdSyntax<'a>>>;

/// The types of a tuple.
pub type TypeSyntaxes<'a> = Items<TypedefSyntax<'a>>;

/// The fields of a union.
pub type UnionFieldSyntaxes<'a> = Items<Documented<'a, TypedefSyntax<'a>>>;

/// The fields of a record, or the parameters or results of a function.
pub type FieldSyntaxes<'a> = Items<Documented<'a, FieldSyntax<'a>>>;

/// The cases of a variant.
pub type CaseSyntaxes<'a> = Items<Documented<'a, CaseSyntax<'a>>>;

/// The declarations of a module.
pub type ModuleDeclSyntaxes<'a> = Items<Documented<'a, ModuleDeclSyntax<'a>>>;

/// The top-level forms of a text.
pub type TopLevelSyntaxes<'a> = Items<Documented<'a, TopLevelSyntax<'a>>>;

/// A type. Types are equal where they are the same up to places.
#[derive(Debug, Drop)]
#[cycle(typedefs)]
pub enum TypedefSyntax<'a> {
    Enum(EnumSyntax<'a>),
    Tuple(TupleSyntax<'a>),
    Expected(ExpectedSyntax<'a>),
    Flags(FlagsSyntax<'a>),
    Record(RecordSyntax<'a>),
    Union(UnionSyntax<'a>),
    Variant(VariantSyntax<'a>),
    Handle(HandleSyntax),
    List(Box<TypedefSyntax<'a>>),
    Pointer(Box<TypedefSyntax<'a>>),
    ConstPointer(Box<TypedefSyntax<'a>>),
    Builtin(BuiltinSyntax),
    Ident(IdSyntax<'a>),
    String,
    Bool,
}

// By their readings, so that the derived comparisons of the types below say the same.
impl<'a> PartialEq for TypedefSyntax<'a> {
    ghost use Rattle.std.specs.Cmp.{on_per, partial_equiv_from_equiv};
    ghost use Rattle.witx_syntax_tree.specs.{Views.{type_view}, Same.{same_type}};
    ghost use Rattle.witx_syntax_tree.specs.SameLaws.{type_equivalence};

    ghost eq = { λ a b. same_type (type_view a) (type_view b) };

    ghost laws = { on_per type_view (partial_equiv_from_equiv type_equivalence) };

    #[cycle(typedefs)]
    #[tactic(auto, using(crate::proofs::Equal::same_rules))]
    fn eq(&self, other: &TypedefSyntax<'a>) -> bool {
        match (self, other) {
            (TypedefSyntax::Enum(a), TypedefSyntax::Enum(b)) => *a == *b,
            (TypedefSyntax::Tuple(a), TypedefSyntax::Tuple(b)) => *a == *b,
            (TypedefSyntax::Expected(a), TypedefSyntax::Expected(b)) => *a == *b,
            (TypedefSyntax::Flags(a), TypedefSyntax::Flags(b)) => *a == *b,
            (TypedefSyntax::Record(a), TypedefSyntax::Record(b)) => *a == *b,
            (TypedefSyntax::Union(a), TypedefSyntax::Union(b)) => *a == *b,
            (TypedefSyntax::Variant(a), TypedefSyntax::Variant(b)) => *a == *b,
            (TypedefSyntax::Handle(a), TypedefSyntax::Handle(b)) => *a == *b,
            (TypedefSyntax::List(a), TypedefSyntax::List(b)) => **a == **b,
            (TypedefSyntax::Pointer(a), TypedefSyntax::Pointer(b)) => **a == **b,
            (TypedefSyntax::ConstPointer(a), TypedefSyntax::ConstPointer(b)) => **a == **b,
            (TypedefSyntax::Builtin(a), TypedefSyntax::Builtin(b)) => *a == *b,
            (TypedefSyntax::Ident(a), TypedefSyntax::Ident(b)) => *a == *b,
            (TypedefSyntax::String, TypedefSyntax::String) => true,
            (TypedefSyntax::Bool, TypedefSyntax::Bool) => true,
            _ => false,
        }
    }
}

impl<'a> Eq for TypedefSyntax<'a> {
    ghost use Rattle.std.specs.Cmp.{on_equiv};
    ghost use Rattle.witx_syntax_tree.specs.{Views.{type_view}, SameLaws.{type_equivalence}};

    ghost laws = { on_equiv type_view type_equivalence };
}

/// An enum with its representation, if one is given, and its names, one or more.
#[derive(PartialEq, Eq, Debug, Drop)]
pub struct EnumSyntax<'a> {
    pub repr: Option<BuiltinSyntax>,
    pub members: MemberSyntaxes<'a>,
}

/// Flags with their representation, if one is given.
#[derive(PartialEq, Eq, Debug, Drop)]
pub struct FlagsSyntax<'a> {
    pub repr: Option<BuiltinSyntax>,
    pub flags: MemberSyntaxes<'a>,
}

/// A tuple.
#[derive(PartialEq, Eq, Debug, Drop)]
#[cycle(typedefs)]
pub struct TupleSyntax<'a> {
    pub types: TypeSyntaxes<'a>,
}

/// An expected result or error, each with a type or without.
#[derive(PartialEq, Eq, Debug, Drop)]
#[cycle(typedefs)]
pub struct ExpectedSyntax<'a> {
    pub ok: Option<Box<TypedefSyntax<'a>>>,
    pub err: Option<Box<TypedefSyntax<'a>>>,
}

/// A record with its fields, one or more.
#[derive(PartialEq, Eq, Debug, Drop)]
#[cycle(typedefs)]
pub struct RecordSyntax<'a> {
    pub fields: FieldSyntaxes<'a>,
}

/// A field, a parameter or a result.
#[derive(PartialEq, Eq, Debug, Drop)]
#[cycle(typedefs)]
pub struct FieldSyntax<'a> {
    pub name: IdSyntax<'a>,
    pub type_: TypedefSyntax<'a>,
}

/// A union with its tag, if one is given.
#[derive(PartialEq, Eq, Debug, Drop)]
#[cycle(typedefs)]
pub struct UnionSyntax<'a> {
    pub tag: Option<Box<TypedefSyntax<'a>>>,
    pub fields: UnionFieldSyntaxes<'a>,
}

/// A variant with its tag, if one is given.
#[derive(PartialEq, Eq, Debug, Drop)]
#[cycle(typedefs)]
pub struct VariantSyntax<'a> {
    pub tag: Option<Box<TypedefSyntax<'a>>>,
    pub cases: CaseSyntaxes<'a>,
}

/// A case, with a type or without.
#[derive(PartialEq, Eq, Debug, Drop)]
#[cycle(typedefs)]
pub struct CaseSyntax<'a> {
    pub name: IdSyntax<'a>,
    pub ty: Option<TypedefSyntax<'a>>,
}

/// A handle.
#[derive(Clone, Copy, PartialEq, Eq, Debug)]
pub struct HandleSyntax;

/// A named type.
#[derive(PartialEq, Eq, Debug, Drop)]
pub struct TypenameSyntax<'a> {
    pub ident: IdSyntax<'a>,
    pub def: TypedefSyntax<'a>,
}

/// A constant of a named type.
#[derive(PartialEq, Eq, Debug, Drop)]
pub struct ConstSyntax<'a> {
    pub ty: IdSyntax<'a>,
    pub name: IdSyntax<'a>,
    pub value: u64,
}

/// What a module imports.
#[derive(Clone, Copy, PartialEq, Eq, Debug)]
pub enum ImportTypeSyntax {
    Memory,
}

/// An import of a module, its name, and where that stands, which equality skips.
#[derive(Debug, Drop)]
#[derive_where(PartialEq, Eq)]
pub struct ModuleImportSyntax {
    pub name: Text,
    #[derive_where(skip(EqHashOrd))]
    pub name_loc: Span,
    pub type_: ImportTypeSyntax,
}

/// A function of a module, the name that it is exported by, and where that stands, which equality
/// skips.
#[derive(Debug, Drop)]
#[derive_where(PartialEq, Eq)]
pub struct InterfaceFuncSyntax<'a> {
    pub export: Text,
    #[derive_where(skip(EqHashOrd))]
    pub export_loc: Span,
    pub params: FieldSyntaxes<'a>,
    pub results: FieldSyntaxes<'a>,
    pub noreturn: bool,
    /// Whether the result is stored whole through one return pointer.
    pub stored: bool,
}

/// A declaration of a module.
#[derive(PartialEq, Eq, Debug, Drop)]
pub enum ModuleDeclSyntax<'a> {
    Import(ModuleImportSyntax),
    Func(InterfaceFuncSyntax<'a>),
}

/// A module.
#[derive(PartialEq, Eq, Debug, Drop)]
pub struct ModuleSyntax<'a> {
    pub name: IdSyntax<'a>,
    pub decls: ModuleDeclSyntaxes<'a>,
}

/// A declaration.
#[derive(PartialEq, Eq, Debug, Drop)]
pub enum DeclSyntax<'a> {
    Typename(TypenameSyntax<'a>),
    Module(ModuleSyntax<'a>),
    /// The comments are those between the `(` and `@witx`.
    Const(Documented<'a, ConstSyntax<'a>>),
}

/// A top-level form: a declaration, or the use of another file.
#[derive(PartialEq, Eq, Debug, Drop)]
pub enum TopLevelSyntax<'a> {
    Decl(DeclSyntax<'a>),
    Use(Text),
}

/// A text.
#[derive(PartialEq, Eq, Debug, Drop)]
pub struct TopLevelDocument<'a> {
    pub items: TopLevelSyntaxes<'a>,
}
