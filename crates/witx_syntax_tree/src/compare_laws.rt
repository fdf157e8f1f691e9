//! What equality decides of each type of syntax, and that copies equal their originals, as functions
//! that do nothing: each contract is a theorem.

ghost use Rattle.std.specs.{Prelude.{◌≡◌, map}, Bool.{Decides}};
ghost use Rattle.witx_comments.specs.Comments.{comments_view};
ghost use Rattle.witx_syntax_tree.specs.Compared.{Compares, case_reading, constant_reading, documented_reading, field_reading};
ghost use Rattle.witx_syntax_tree.specs.Unplaced.{unplaced, unplaced_decl, unplaced_document, unplaced_item};
ghost use Rattle.witx_syntax_tree.specs.Views.{decl_view, declaration_view, document_view, item_view, type_view};
ghost use Rattle.witx_syntax_tree.specs.declared.tree.DeclSyntax.TheVariants as declaration;
ghost use Rattle.witx_syntax_tree.specs.declared.tree.ModuleDeclSyntax.TheVariants as decl;
ghost use Rattle.witx_syntax_tree.specs.declared.tree.TypedefSyntax.TheVariants as typedef;

use crate::tree::{
    BuiltinSyntax, CaseSyntax, ConstSyntax, DeclSyntax, EnumSyntax, ExpectedSyntax, FieldSyntax,
    FlagsSyntax, HandleSyntax, IdSyntax, ImportTypeSyntax, InterfaceFuncSyntax, ModuleDeclSyntax,
    ModuleImportSyntax, ModuleSyntax, RecordSyntax, TopLevelDocument, TopLevelSyntax, TupleSyntax,
    TypedefSyntax, TypenameSyntax, UnionSyntax, VariantSyntax,
};
use witx_base::{Duplicate, Items};
use witx_comments::{CommentSyntax, Documented};

/// Types and their parts are equal exactly where they read the same without places, and a copy equals
/// its original. Builtin types and handles are equal where they are the same.
pub fn types_are_compared_without_places<'a>()
    ensures builtins { (a b : BuiltinSyntax) → Decides (⟦<BuiltinSyntax as PartialEq>⟧.eq a b) (a ≡ b) }
    ensures handles { (a b : HandleSyntax) → Decides (⟦<HandleSyntax as PartialEq>⟧.eq a b) (a ≡ b) }
    ensures identifiers { Compares ⟦<IdSyntax<'a> as PartialEq>⟧.eq ⟦<IdSyntax<'a> as Duplicate>⟧.is_copy
        (λ x. x.name.now) }
    ensures types { Compares ⟦<TypedefSyntax<'a> as PartialEq>⟧.eq ⟦<TypedefSyntax<'a> as Duplicate>⟧.is_copy
        (λ x. unplaced (type_view x)) }
    ensures enums { Compares ⟦<EnumSyntax<'a> as PartialEq>⟧.eq ⟦<EnumSyntax<'a> as Duplicate>⟧.is_copy
        (λ x. unplaced (type_view (typedef.Enum x))) }
    ensures flags { Compares ⟦<FlagsSyntax<'a> as PartialEq>⟧.eq ⟦<FlagsSyntax<'a> as Duplicate>⟧.is_copy
        (λ x. unplaced (type_view (typedef.Flags x))) }
    ensures tuples { Compares ⟦<TupleSyntax<'a> as PartialEq>⟧.eq ⟦<TupleSyntax<'a> as Duplicate>⟧.is_copy
        (λ x. unplaced (type_view (typedef.Tuple x))) }
    ensures expecteds { Compares ⟦<ExpectedSyntax<'a> as PartialEq>⟧.eq ⟦<ExpectedSyntax<'a> as Duplicate>⟧.is_copy
        (λ x. unplaced (type_view (typedef.Expected x))) }
    ensures records { Compares ⟦<RecordSyntax<'a> as PartialEq>⟧.eq ⟦<RecordSyntax<'a> as Duplicate>⟧.is_copy
        (λ x. unplaced (type_view (typedef.Record x))) }
    ensures fields { Compares ⟦<FieldSyntax<'a> as PartialEq>⟧.eq ⟦<FieldSyntax<'a> as Duplicate>⟧.is_copy field_reading }
    ensures unions { Compares ⟦<UnionSyntax<'a> as PartialEq>⟧.eq ⟦<UnionSyntax<'a> as Duplicate>⟧.is_copy
        (λ x. unplaced (type_view (typedef.Union x))) }
    ensures variants { Compares ⟦<VariantSyntax<'a> as PartialEq>⟧.eq ⟦<VariantSyntax<'a> as Duplicate>⟧.is_copy
        (λ x. unplaced (type_view (typedef.Variant x))) }
    ensures cases { Compares ⟦<CaseSyntax<'a> as PartialEq>⟧.eq ⟦<CaseSyntax<'a> as Duplicate>⟧.is_copy case_reading }
{}

/// Declarations and what they are made of are equal exactly where they read the same without places,
/// and a copy equals its original. Kinds of imports are equal where they are the same.
pub fn declarations_are_compared_without_places<'a>()
    ensures comments { Compares ⟦<CommentSyntax<'a> as PartialEq>⟧.eq
        ⟦<CommentSyntax<'a> as Duplicate>⟧.is_copy comments_view }
    ensures import_types { (a b : ImportTypeSyntax) → Decides (⟦<ImportTypeSyntax as PartialEq>⟧.eq a b) (a ≡ b) }
    ensures imports { Compares ⟦<ModuleImportSyntax as PartialEq>⟧.eq ⟦<ModuleImportSyntax as Duplicate>⟧.is_copy
        (λ x. unplaced_decl (decl_view (decl.Import x))) }
    ensures functions { Compares ⟦<InterfaceFuncSyntax<'a> as PartialEq>⟧.eq
        ⟦<InterfaceFuncSyntax<'a> as Duplicate>⟧.is_copy
        (λ x. unplaced_decl (decl_view (decl.Func x))) }
    ensures module_items { Compares ⟦<ModuleDeclSyntax<'a> as PartialEq>⟧.eq ⟦<ModuleDeclSyntax<'a> as Duplicate>⟧.is_copy
        (λ x. unplaced_decl (decl_view x)) }
    ensures typenames { Compares ⟦<TypenameSyntax<'a> as PartialEq>⟧.eq ⟦<TypenameSyntax<'a> as Duplicate>⟧.is_copy
        (λ x. unplaced_item (declaration_view (declaration.Typename x))) }
    ensures modules { Compares ⟦<ModuleSyntax<'a> as PartialEq>⟧.eq ⟦<ModuleSyntax<'a> as Duplicate>⟧.is_copy
        (λ x. unplaced_item (declaration_view (declaration.Module x))) }
    ensures constants { Compares ⟦<ConstSyntax<'a> as PartialEq>⟧.eq ⟦<ConstSyntax<'a> as Duplicate>⟧.is_copy
        constant_reading }
    ensures declarations { Compares ⟦<DeclSyntax<'a> as PartialEq>⟧.eq ⟦<DeclSyntax<'a> as Duplicate>⟧.is_copy
        (λ x. unplaced_item (declaration_view x)) }
    ensures items { Compares ⟦<TopLevelSyntax<'a> as PartialEq>⟧.eq ⟦<TopLevelSyntax<'a> as Duplicate>⟧.is_copy
        (λ x. unplaced_item (item_view x)) }
    ensures documents { Compares ⟦<TopLevelDocument<'a> as PartialEq>⟧.eq ⟦<TopLevelDocument<'a> as Duplicate>⟧.is_copy
        (λ x. unplaced_document (document_view x)) }
{}

/// So documented items, by their comments and their items, and lists, item by item.
pub fn lists_are_compared_by_items<'a, T: PartialEq + Duplicate + Drop, V>()
    ensures documented { (reading : T → V) → Compares T.eq T.is_copy reading
        → Compares ⟦<Documented<'a, T> as PartialEq>⟧.eq ⟦<Documented<'a, T> as Duplicate>⟧.is_copy (documented_reading reading) }
    ensures lists { (reading : T → V) → Compares T.eq T.is_copy reading
        → Compares ⟦<Items<T> as PartialEq>⟧.eq ⟦<Items<T> as Duplicate>⟧.is_copy (map reading) }
{}
