//! Copies: each has the reading of what it is made of, names with their places, and comments.
#![tactic(auto, using(crate::proofs::Copied::copy_rules))]

ghost use Rattle.std.specs.{Prelude.{◌≡◌, IfOk}, List.{AllZip}};
ghost use Rattle.witx_comments.specs.{Comments.{comments_view}, Copies.{IsCopyOfDocumented}};
ghost use Rattle.witx_syntax_tree.specs.Views.{boxed_view, case_view, decl_view, declaration_view, document_view, field_view, item_view, type_view};
ghost use Rattle.witx_syntax_tree.specs.Copies.{ReadsAs};
ghost use Rattle.witx_syntax_tree.specs.declared.tree.DeclSyntax.TheVariants as declaration;
ghost use Rattle.witx_syntax_tree.specs.declared.tree.ModuleDeclSyntax.TheVariants as decl;
ghost use Rattle.witx_syntax_tree.specs.declared.tree.TypedefSyntax.TheVariants as typedef;

use crate::tree::{
    CaseSyntax, CaseSyntaxes, ConstSyntax, DeclSyntax, EnumSyntax, ExpectedSyntax, FieldSyntax,
    FieldSyntaxes, FlagsSyntax, IdSyntax, InterfaceFuncSyntax, ModuleDeclSyntax,
    ModuleImportSyntax, ModuleSyntax, RecordSyntax, TopLevelDocument, TopLevelSyntax, TupleSyntax,
    TypeSyntaxes, TypedefSyntax, TypenameSyntax, UnionFieldSyntaxes, UnionSyntax, VariantSyntax,
};
use std::alloc::Global;
use std::boxed::Box;
use witx_base::{Duplicate, Items, OutOfMemory};
use witx_comments::Documented;

impl<'a> Duplicate for IdSyntax<'a> {
    ghost is_copy = { λ id made. made ≡ id };

    fn copy(&self) -> Result<IdSyntax<'a>, OutOfMemory> {
        Ok(*self)
    }
}

impl<'a> Duplicate for EnumSyntax<'a> {
    ghost is_copy = { λ enumeration made. type_view (typedef.Enum made) ≡ type_view (typedef.Enum enumeration) };

    fn copy(&self) -> Result<EnumSyntax<'a>, OutOfMemory> {
        Ok(EnumSyntax {
            repr: self.repr,
            members: self.members.copy()?,
        })
    }
}

impl<'a> Duplicate for FlagsSyntax<'a> {
    ghost is_copy = { λ flags made. type_view (typedef.Flags made) ≡ type_view (typedef.Flags flags) };

    fn copy(&self) -> Result<FlagsSyntax<'a>, OutOfMemory> {
        Ok(FlagsSyntax {
            repr: self.repr,
            flags: self.flags.copy()?,
        })
    }
}

impl<'a> Duplicate for TypedefSyntax<'a> {
    ghost is_copy = { λ copied made. type_view made ≡ type_view copied };

    #[cycle(typedefs)]
    fn copy(&self) -> Result<TypedefSyntax<'a>, OutOfMemory> {
        match self {
            TypedefSyntax::Enum(enumeration) => Ok(TypedefSyntax::Enum(enumeration.copy()?)),
            TypedefSyntax::Tuple(tuple) => Ok(TypedefSyntax::Tuple(tuple.copy()?)),
            TypedefSyntax::Expected(expected) => Ok(TypedefSyntax::Expected(expected.copy()?)),
            TypedefSyntax::Flags(flags) => Ok(TypedefSyntax::Flags(flags.copy()?)),
            TypedefSyntax::Record(record) => Ok(TypedefSyntax::Record(record.copy()?)),
            TypedefSyntax::Union(union_) => Ok(TypedefSyntax::Union(union_.copy()?)),
            TypedefSyntax::Variant(variant) => Ok(TypedefSyntax::Variant(variant.copy()?)),
            TypedefSyntax::Handle(handle) => Ok(TypedefSyntax::Handle(*handle)),
            TypedefSyntax::List(target) => Ok(TypedefSyntax::List(boxed_copy(target)?)),
            TypedefSyntax::Pointer(target) => Ok(TypedefSyntax::Pointer(boxed_copy(target)?)),
            TypedefSyntax::ConstPointer(target) => {
                Ok(TypedefSyntax::ConstPointer(boxed_copy(target)?))
            }
            TypedefSyntax::Builtin(builtin) => Ok(TypedefSyntax::Builtin(*builtin)),
            TypedefSyntax::Ident(id) => Ok(TypedefSyntax::Ident(*id)),
            TypedefSyntax::String => Ok(TypedefSyntax::String),
            TypedefSyntax::Bool => Ok(TypedefSyntax::Bool),
        }
    }
}

/// A copy of the type, in memory of its own.
#[cycle(typedefs)]
fn boxed_copy<'a>(boxed: &Box<TypedefSyntax<'a>>) -> Result<Box<TypedefSyntax<'a>>, OutOfMemory>
    ensures { IfOk result (λ made. type_view made.value ≡ type_view boxed.now.value) }
{
    Ok(Box::new(*Box::allocator(boxed), (**boxed).copy()?)?)
}

/// A copy of the type, if there is one.
#[cycle(typedefs)]
fn optional_copy<'a>(
    boxed: &Option<Box<TypedefSyntax<'a>>>,
) -> Result<Option<Box<TypedefSyntax<'a>>>, OutOfMemory>
    ensures { IfOk result (λ made. boxed_view made ≡ boxed_view boxed.now) }
{
    match boxed {
        Some(boxed) => Ok(Some(Box::new(*Box::allocator(boxed), (**boxed).copy()?)?)),
        None => Ok(None),
    }
}

impl<'a> Duplicate for TupleSyntax<'a> {
    ghost is_copy = { λ tuple made. type_view (typedef.Tuple made) ≡ type_view (typedef.Tuple tuple) };

    #[cycle(typedefs)]
    fn copy(&self) -> Result<TupleSyntax<'a>, OutOfMemory> {
        Ok(TupleSyntax {
            types: copied_types(self.types.allocator(), self.types.as_slice())?,
        })
    }
}

impl<'a> Duplicate for ExpectedSyntax<'a> {
    ghost is_copy = { λ expected made. type_view (typedef.Expected made) ≡ type_view (typedef.Expected expected) };

    #[cycle(typedefs)]
    fn copy(&self) -> Result<ExpectedSyntax<'a>, OutOfMemory> {
        Ok(ExpectedSyntax {
            ok: optional_copy(&self.ok)?,
            err: optional_copy(&self.err)?,
        })
    }
}

impl<'a> Duplicate for RecordSyntax<'a> {
    ghost is_copy = { λ record_ made. type_view (typedef.Record made) ≡ type_view (typedef.Record record_) };

    #[cycle(typedefs)]
    fn copy(&self) -> Result<RecordSyntax<'a>, OutOfMemory> {
        Ok(RecordSyntax {
            fields: copied_fields(self.fields.allocator(), self.fields.as_slice())?,
        })
    }
}

impl<'a> Duplicate for FieldSyntax<'a> {
    ghost is_copy = { λ field made. field_view made ≡ field_view field };

    #[cycle(typedefs)]
    fn copy(&self) -> Result<FieldSyntax<'a>, OutOfMemory> {
        Ok(FieldSyntax {
            name: self.name,
            type_: self.type_.copy()?,
        })
    }
}

impl<'a> Duplicate for UnionSyntax<'a> {
    ghost is_copy = { λ union_ made. type_view (typedef.Union made) ≡ type_view (typedef.Union union_) };

    #[cycle(typedefs)]
    fn copy(&self) -> Result<UnionSyntax<'a>, OutOfMemory> {
        Ok(UnionSyntax {
            tag: optional_copy(&self.tag)?,
            fields: copied_union_fields(self.fields.allocator(), self.fields.as_slice())?,
        })
    }
}

impl<'a> Duplicate for VariantSyntax<'a> {
    ghost is_copy = { λ variant made. type_view (typedef.Variant made) ≡ type_view (typedef.Variant variant) };

    #[cycle(typedefs)]
    fn copy(&self) -> Result<VariantSyntax<'a>, OutOfMemory> {
        Ok(VariantSyntax {
            tag: optional_copy(&self.tag)?,
            cases: copied_cases(self.cases.allocator(), self.cases.as_slice())?,
        })
    }
}

impl<'a> Duplicate for CaseSyntax<'a> {
    ghost is_copy = { λ case made. case_view made ≡ case_view case };

    #[cycle(typedefs)]
    fn copy(&self) -> Result<CaseSyntax<'a>, OutOfMemory> {
        let ty = match &self.ty {
            Some(ty) => Some(ty.copy()?),
            None => None,
        };
        Ok(CaseSyntax {
            name: self.name,
            ty,
        })
    }
}

// The lists below lead back to types, so each is copied by a loop of its own.
#[cycle(typedefs)]
fn copied_types<'a>(
    alloc: Global,
    types: &[TypedefSyntax<'a>],
) -> Result<TypeSyntaxes<'a>, OutOfMemory>
    ensures { IfOk result (AllZip (ReadsAs type_view) types.now) }
{
    let mut copies = Items::new(alloc);
    for item in types {
        copies.push(item.copy()?)?;
    }
    Ok(copies)
}

#[cycle(typedefs)]
fn copied_fields<'a>(
    alloc: Global,
    fields: &[Documented<'a, FieldSyntax<'a>>],
) -> Result<FieldSyntaxes<'a>, OutOfMemory>
    ensures { IfOk result (AllZip (IsCopyOfDocumented (ReadsAs field_view)) fields.now) }
{
    let mut copies = Items::new(alloc);
    for noted in fields {
        let comments = noted.comments.copy()?;
        let item = noted.item.copy()?;
        copies.push(Documented { comments, item })?;
    }
    Ok(copies)
}

#[cycle(typedefs)]
fn copied_union_fields<'a>(
    alloc: Global,
    fields: &[Documented<'a, TypedefSyntax<'a>>],
) -> Result<UnionFieldSyntaxes<'a>, OutOfMemory>
    ensures { IfOk result (AllZip (IsCopyOfDocumented (ReadsAs type_view)) fields.now) }
{
    let mut copies = Items::new(alloc);
    for noted in fields {
        let comments = noted.comments.copy()?;
        let item = noted.item.copy()?;
        copies.push(Documented { comments, item })?;
    }
    Ok(copies)
}

#[cycle(typedefs)]
fn copied_cases<'a>(
    alloc: Global,
    cases: &[Documented<'a, CaseSyntax<'a>>],
) -> Result<CaseSyntaxes<'a>, OutOfMemory>
    ensures { IfOk result (AllZip (IsCopyOfDocumented (ReadsAs case_view)) cases.now) }
{
    let mut copies = Items::new(alloc);
    for noted in cases {
        let comments = noted.comments.copy()?;
        let item = noted.item.copy()?;
        copies.push(Documented { comments, item })?;
    }
    Ok(copies)
}

impl<'a> Duplicate for TypenameSyntax<'a> {
    ghost is_copy = { λ named made. declaration_view (declaration.Typename made) ≡ declaration_view (declaration.Typename named) };

    fn copy(&self) -> Result<TypenameSyntax<'a>, OutOfMemory> {
        Ok(TypenameSyntax {
            ident: self.ident,
            def: self.def.copy()?,
        })
    }
}

impl<'a> Duplicate for ConstSyntax<'a> {
    ghost is_copy = { λ constant made. made ≡ constant };

    fn copy(&self) -> Result<ConstSyntax<'a>, OutOfMemory> {
        Ok(ConstSyntax {
            ty: self.ty,
            name: self.name,
            value: self.value,
        })
    }
}

impl Duplicate for ModuleImportSyntax {
    ghost is_copy = { λ import made. made ≡ import };

    fn copy(&self) -> Result<ModuleImportSyntax, OutOfMemory> {
        Ok(ModuleImportSyntax {
            name: self.name.copy()?,
            name_loc: self.name_loc,
            type_: self.type_,
        })
    }
}

impl<'a> Duplicate for InterfaceFuncSyntax<'a> {
    ghost is_copy = { λ func made. decl_view (decl.Func made) ≡ decl_view (decl.Func func) };

    fn copy(&self) -> Result<InterfaceFuncSyntax<'a>, OutOfMemory> {
        Ok(InterfaceFuncSyntax {
            export: self.export.copy()?,
            export_loc: self.export_loc,
            params: self.params.copy()?,
            results: self.results.copy()?,
            noreturn: self.noreturn,
            stored: self.stored,
        })
    }
}

impl<'a> Duplicate for ModuleDeclSyntax<'a> {
    ghost is_copy = { λ declared made. decl_view made ≡ decl_view declared };

    fn copy(&self) -> Result<ModuleDeclSyntax<'a>, OutOfMemory> {
        match self {
            ModuleDeclSyntax::Import(import) => Ok(ModuleDeclSyntax::Import(import.copy()?)),
            ModuleDeclSyntax::Func(func) => Ok(ModuleDeclSyntax::Func(func.copy()?)),
        }
    }
}

impl<'a> Duplicate for ModuleSyntax<'a> {
    ghost is_copy = { λ copied made. declaration_view (declaration.Module made) ≡ declaration_view (declaration.Module copied) };

    fn copy(&self) -> Result<ModuleSyntax<'a>, OutOfMemory> {
        Ok(ModuleSyntax {
            name: self.name,
            decls: self.decls.copy()?,
        })
    }
}

impl<'a> Duplicate for DeclSyntax<'a> {
    ghost is_copy = { λ declared made. declaration_view made ≡ declaration_view declared };

    fn copy(&self) -> Result<DeclSyntax<'a>, OutOfMemory> {
        match self {
            DeclSyntax::Typename(named) => Ok(DeclSyntax::Typename(named.copy()?)),
            DeclSyntax::Module(copied) => Ok(DeclSyntax::Module(copied.copy()?)),
            DeclSyntax::Const(constant) => Ok(DeclSyntax::Const(constant.copy()?)),
        }
    }
}

impl<'a> Duplicate for TopLevelSyntax<'a> {
    ghost is_copy = { λ item made. item_view made ≡ item_view item };

    fn copy(&self) -> Result<TopLevelSyntax<'a>, OutOfMemory> {
        match self {
            TopLevelSyntax::Decl(declared) => Ok(TopLevelSyntax::Decl(declared.copy()?)),
            TopLevelSyntax::Use(path) => Ok(TopLevelSyntax::Use(path.copy()?)),
        }
    }
}

impl<'a> Duplicate for TopLevelDocument<'a> {
    ghost is_copy = { λ document made. document_view made ≡ document_view document };

    fn copy(&self) -> Result<TopLevelDocument<'a>, OutOfMemory> {
        Ok(TopLevelDocument {
            items: self.items.copy()?,
        })
    }
}
