//! Modules: their items, in order and by name.

ghost use Rattle.std.specs.Prelude.{◌≡◌, ◌∷◌, ◌++◌, [], IfOk, IfErr, OnOk, Some, None, map, option_map};
ghost use Rattle.witx_base.specs.Found.{found};
ghost use Rattle.witx_ast.specs.{Items.{item_tree, entry_item, ItemsFit}, Definitions.{module_tree}};
ghost use Rattle.witx_comments.specs.{Documentation.{documentation_of}, Comments.{comments_view}};
ghost use Rattle.witx_syntax_tree.specs.Views.{noted_decl};
ghost use Rattle.witx_scope.specs.{Faults.{first_fault}, Names.{FindsOnOk, new_mark}, Blame.{Blames}};
ghost use Rattle.witx_scope.specs.{Senses.{here_of}, DeclarationForms.{items_in}};
ghost use Rattle.witx_scope.specs.Modules.{with_name, item_called, item_with, item_checks, items_checks, item_meant};
ghost use Rattle.witx_scope.specs.{Introduced.{AreIntroduced}, Sites.{place_at, checks_module, makes_module}};
ghost use Rattle.witx_check.specs.Declaring.{with_declared, RefusesName, LeavesName};

use crate::functions::checked_func;
use std::rc::Rc;
use witx_ast::{
    Entries, Module, ModuleDefinition, ModuleDefinitions, ModuleEntries, ModuleEntry, ModuleImport,
    ModuleImportVariant,
};
use witx_base::{Duplicate, Id, OutOfMemory};
use witx_scope::{
    CheckError, Marks, Names, Scope, Site, StepsLeft, Unfinished, introduce, introduce_mark,
};
use witx_syntax_tree::{
    CommentSyntax, Documented, ModuleDeclSyntax, ModuleImportSyntax, ModuleSyntax,
};

/// The items of a module, in order and by name.
#[derive(Drop)]
pub struct Contents {
    pub definitions: ModuleDefinitions,
    pub entries: ModuleEntries,
}

fn checked_import(
    import: &ModuleImportSyntax,
    scope: &Scope<'_>,
    marks: &mut Marks,
    comments: &CommentSyntax<'_>,
) -> Result<ModuleImport, CheckError>
    ensures ok { OnOk result (new_mark (here_of scope.now) marks.old import.now.name import.now.name_loc.start ≡ None) }
    ensures name { IfOk result (λ made. made.name ≡ import.now.name) }
    ensures docs { IfOk result (λ made. made.docs ≡ documentation_of (comments_view comments.now)) }
    ensures kept { FindsOnOk result marks.new ((import.now.name, import.now.name_loc.start) ∷ marks.old) }
    ensures fault { IfErr result
        (λ e. Blames e (new_mark (here_of scope.now) marks.old import.now.name import.now.name_loc.start)) }
{
    let name = introduce_mark(marks, scope, import.name.as_str(), import.name_loc.start)?;
    Ok(ModuleImport {
        name,
        variant: ModuleImportVariant::Memory,
        docs: comments.docs(scope.alloc)?,
    })
}

/// An item of a module, whose name is taken in before the item is checked.
#[tactic(auto, using(crate::proofs::ModuleItems::item_rules))]
fn checked_item(
    decl: &Documented<'_, ModuleDeclSyntax<'_>>,
    scope: &Scope<'_>,
    marks: &mut Marks,
) -> Result<ModuleDefinition, CheckError>
    ensures ok { OnOk result (first_fault (item_checks (here_of scope.now) marks.old (noted_decl decl.now).decl) ≡ None) }
    ensures tree { IfOk result (λ made. item_tree made ≡ item_meant (here_of scope.now) (noted_decl decl.now)) }
    ensures kept { FindsOnOk result marks.new (with_name (noted_decl decl.now).decl marks.old) }
    ensures fault { IfErr result (λ e. Blames e
        (first_fault (item_checks (here_of scope.now) marks.old (noted_decl decl.now).decl))) }
{
    match &decl.item {
        ModuleDeclSyntax::Import(import) => {
            let made = checked_import(import, scope, marks, &decl.comments)?;
            Ok(ModuleDefinition::Import(Rc::new(scope.alloc, made)?))
        }
        ModuleDeclSyntax::Func(func) => {
            let made = checked_func(func, scope, marks, &decl.comments)?;
            Ok(ModuleDefinition::Func(Rc::new(scope.alloc, made)?))
        }
    }
}

/// The name of an item.
fn item_name(item: &ModuleDefinition) -> Result<Id, OutOfMemory>
    ensures { IfOk result (λ name. name ≡ item_called (item_tree item.now)) }
{
    match item {
        ModuleDefinition::Import(import) => import.name.copy(),
        ModuleDefinition::Func(func) => func.name.copy(),
    }
}

/// The item as an entry.
fn item_entry(item: &ModuleDefinition) -> Result<ModuleEntry, OutOfMemory>
    ensures { IfOk result (λ entry. entry_item entry ≡ item_tree item.now) }
{
    match item {
        ModuleDefinition::Import(import) => Ok(ModuleEntry::Import(import.clone()?)),
        ModuleDefinition::Func(func) => Ok(ModuleEntry::Func(func.clone()?)),
    }
}

/// Puts an item in, behind the others and under its name.
#[tactic(auto, using(crate::proofs::ModuleItems::entry_rules))]
fn add_item(contents: &mut Contents, item: ModuleDefinition) -> Result<(), OutOfMemory>
    ensures definitions { OnOk result (contents.new.definitions ≡ contents.old.definitions ++ item ∷ []) }
    ensures entries { (q : _) → OnOk result (option_map entry_item (found contents.new.entries q)
        ≡ item_with contents.old.entries (item_tree item) q) }
{
    let name = item_name(&item)?;
    let entry = item_entry(&item)?;
    contents.entries.insert(name, entry)?;
    contents.definitions.push(item)?;
    Ok(())
}

/// The items of a module.
#[tactic(auto, using(crate::proofs::ModuleItems::items_rules))]
fn checked_items(
    decls: &[Documented<'_, ModuleDeclSyntax<'_>>],
    scope: &Scope<'_>,
) -> Result<Contents, CheckError>
    ensures ok { OnOk result (first_fault (items_checks (here_of scope.now) [] (items_in decls.now)) ≡ None) }
    ensures tree { IfOk result (λ made. map item_tree made.definitions
        ≡ map (item_meant (here_of scope.now)) (items_in decls.now)) }
    ensures fits { IfOk result (λ made. ItemsFit made.definitions made.entries) }
    ensures fault { IfErr result (λ e. Blames e (first_fault (items_checks (here_of scope.now) [] (items_in decls.now)))) }
{
    let mut contents = Contents {
        definitions: ModuleDefinitions::new(scope.alloc),
        entries: ModuleEntries::new(scope.alloc),
    };
    let mut marks = Marks::new(scope.alloc);
    for decl in decls {
        let item = checked_item(decl, scope, &mut marks)?;
        add_item(&mut contents, item)?;
    }
    Ok(contents)
}

/// The module of a declaration whose name stands at `place`, and is taken in before the items are
/// checked.
#[tactic(auto, using(crate::proofs::Within::takes_rules))]
pub fn checked_module(
    names: &mut Names,
    unfinished: &mut Unfinished,
    entries: &Entries,
    steps: &StepsLeft,
    site: Site<'_>,
    decl: &ModuleSyntax<'_>,
) -> Result<Module, CheckError>
    requires place { site.place ≡ place_at site decl.now.name }
    requires introduced { AreIntroduced names.old unfinished.old entries.now }
    ensures ok { OnOk result (first_fault (checks_module names.old entries.now site.entry decl.now) ≡ None) }
    ensures tree { IfOk result (λ m. module_tree m ≡ makes_module names.old entries.now site.entry decl.now) }
    ensures name { IfOk result (λ m. m.name ≡ decl.now.name.name.now) }
    ensures fault { IfErr result (λ e. Blames e (first_fault (checks_module names.old entries.now site.entry decl.now))) }
    ensures kept { FindsOnOk result names.new (with_declared site.entry decl.now.name names.old) }
    ensures refused { RefusesName result names.old names.new site.entry decl.now.name }
    ensures left { LeavesName result names.old names.new site.entry decl.now.name }
    ensures introduced_after { AreIntroduced names.new unfinished.new entries.now }
    ensures current { OnOk result (unfinished.new.current ≡ Some decl.now.name.name.now) }
{
    let Site {
        text,
        path,
        place,
        comments,
    } = site;
    let alloc = names.allocator();
    let name = introduce(names, unfinished, entries, steps, decl.name.name, place)?;
    let scope = Scope {
        names,
        unfinished,
        entries,
        text,
        path,
        steps,
        alloc,
    };
    let contents = checked_items(decl.decls.as_slice(), &scope)?;
    let docs = comments.docs(alloc)?;
    Ok(Module::new(name, contents.definitions, contents.entries, docs))
}
