//! Identifiers, types, fields and cases from their parts. The last item of a list stands first.
#![tactic(auto, unfolding(witx_syntax_tree::specs::Views::type_view, witx_syntax_tree::specs::Views::field_view, witx_syntax_tree::specs::Views::case_view))]

ghost use Rattle.std.specs.Prelude.{◌≡◌, reverse, map};
ghost use Rattle.witx_syntax_tree.specs.Trees as tree;
ghost use Rattle.witx_syntax_tree.specs.Views.{boxed_view, case_view, cases_view, field_view, fields_view, member_view, name_view, optional_view, type_view, types_view, union_fields_view};

use witx_base::Items;
use witx_lex::Span;
use witx_syntax_tree::{
    BuiltinSyntax, CaseSyntax, Documented, EnumSyntax, ExpectedSyntax, FieldSyntax, FlagsSyntax,
    HandleSyntax, IdSyntax, RecordSyntax, TupleSyntax, TypedefSyntax, UnionSyntax, VariantSyntax,
};
use witx_values::reversed;

/// An identifier, and where it stands.
#[inline]
pub fn identifier<'a>(name: &'a str, span: Span) -> IdSyntax<'a>
    ensures { name_view result ≡ record { name = name.now; start = span.start; end = span.end } }
{
    IdSyntax { name, span }
}

/// A type by its name.
pub fn ident<'a>(name: IdSyntax<'a>) -> TypedefSyntax<'a>
    ensures { type_view result ≡ tree.ident (name_view name.entry) }
{
    TypedefSyntax::Ident(name)
}

/// A builtin type.
pub fn builtin<'a>(builtin: BuiltinSyntax) -> TypedefSyntax<'a>
    ensures { type_view result ≡ tree.builtin builtin }
{
    TypedefSyntax::Builtin(builtin)
}

/// `string`.
pub fn string<'a>() -> TypedefSyntax<'a>
    ensures { type_view result ≡ tree.string }
{
    TypedefSyntax::String
}

/// `bool`.
pub fn boolean<'a>() -> TypedefSyntax<'a>
    ensures { type_view result ≡ tree.boolean }
{
    TypedefSyntax::Bool
}

/// A handle.
pub fn handle<'a>() -> TypedefSyntax<'a>
    ensures { type_view result ≡ tree.handle }
{
    TypedefSyntax::Handle(HandleSyntax)
}

/// A list.
pub fn list<'a>(target: Box<TypedefSyntax<'a>>) -> TypedefSyntax<'a>
    ensures { type_view result ≡ tree.list_of (type_view target.entry.value) }
{
    TypedefSyntax::List(target)
}

/// A pointer.
pub fn pointer<'a>(target: Box<TypedefSyntax<'a>>) -> TypedefSyntax<'a>
    ensures { type_view result ≡ tree.pointer_to (type_view target.entry.value) }
{
    TypedefSyntax::Pointer(target)
}

/// A pointer to what is only read.
pub fn const_pointer<'a>(target: Box<TypedefSyntax<'a>>) -> TypedefSyntax<'a>
    ensures { type_view result ≡ tree.const_pointer_to (type_view target.entry.value) }
{
    TypedefSyntax::ConstPointer(target)
}

/// A tuple.
pub fn tuple<'a>(types: Vec<TypedefSyntax<'a>>) -> TypedefSyntax<'a>
    ensures { type_view result ≡ tree.tuple_of (types_view (reverse types.entry.items)) }
{
    TypedefSyntax::Tuple(TupleSyntax {
        types: Items::from_vec(reversed(types)),
    })
}

/// An enum.
pub fn enumeration<'a>(
    repr: Option<BuiltinSyntax>,
    members: Vec<Documented<'a, IdSyntax<'a>>>,
) -> TypedefSyntax<'a>
    ensures { type_view result ≡ tree.enum_of repr (map member_view (reverse members.entry.items)) }
{
    TypedefSyntax::Enum(EnumSyntax {
        repr,
        members: Items::from_vec(reversed(members)),
    })
}

/// Flags.
pub fn flags<'a>(
    repr: Option<BuiltinSyntax>,
    flags: Vec<Documented<'a, IdSyntax<'a>>>,
) -> TypedefSyntax<'a>
    ensures { type_view result ≡ tree.flags_of repr (map member_view (reverse flags.entry.items)) }
{
    TypedefSyntax::Flags(FlagsSyntax {
        repr,
        flags: Items::from_vec(reversed(flags)),
    })
}

/// A record.
pub fn record<'a>(fields: Vec<Documented<'a, FieldSyntax<'a>>>) -> TypedefSyntax<'a>
    ensures { type_view result ≡ tree.record_of (fields_view (reverse fields.entry.items)) }
{
    TypedefSyntax::Record(RecordSyntax {
        fields: Items::from_vec(reversed(fields)),
    })
}

/// A union.
pub fn union_of<'a>(
    tag: Option<Box<TypedefSyntax<'a>>>,
    fields: Vec<Documented<'a, TypedefSyntax<'a>>>,
) -> TypedefSyntax<'a>
    ensures { type_view result
        ≡ tree.union_of (boxed_view tag.entry) (union_fields_view (reverse fields.entry.items)) }
{
    TypedefSyntax::Union(UnionSyntax {
        tag,
        fields: Items::from_vec(reversed(fields)),
    })
}

/// A variant.
pub fn variant<'a>(
    tag: Option<Box<TypedefSyntax<'a>>>,
    cases: Vec<Documented<'a, CaseSyntax<'a>>>,
) -> TypedefSyntax<'a>
    ensures { type_view result ≡ tree.variant_of (boxed_view tag.entry) (cases_view (reverse cases.entry.items)) }
{
    TypedefSyntax::Variant(VariantSyntax {
        tag,
        cases: Items::from_vec(reversed(cases)),
    })
}

/// An expected type.
pub fn expected<'a>(
    ok: Option<Box<TypedefSyntax<'a>>>,
    err: Option<Box<TypedefSyntax<'a>>>,
) -> TypedefSyntax<'a>
    ensures { type_view result ≡ tree.expected (boxed_view ok.entry) (boxed_view err.entry) }
{
    TypedefSyntax::Expected(ExpectedSyntax { ok, err })
}

/// A field, a parameter or a result.
pub fn field<'a>(name: IdSyntax<'a>, type_: TypedefSyntax<'a>) -> FieldSyntax<'a>
    ensures { field_view result ≡ record { name = name_view name.entry; type_ = type_view type_.entry } }
{
    FieldSyntax { name, type_ }
}

/// A case.
pub fn case<'a>(name: IdSyntax<'a>, ty: Option<TypedefSyntax<'a>>) -> CaseSyntax<'a>
    ensures { case_view result ≡ record { name = name_view name.entry; ty = optional_view ty.entry } }
{
    CaseSyntax { name, ty }
}
