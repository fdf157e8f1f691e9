//! Whole declarations, checked and kept.
#![tactic(auto, using(crate::proofs::Finishing::keeping_rules))]

ghost use Rattle.std.specs.Prelude.{◌≡◌, ◌∷◌, ◌++◌, [], OnOk, OnErr, Some, map};
ghost use Rattle.witx_ast.specs.Definitions.{definition_tree, entry_tree, module_of, module_tree};
ghost use Rattle.witx_ast.specs.Views.{named_tree};
ghost use Rattle.witx_scope.specs.{Names.{a_type, a_module}, Kept.{entry_sense_of, made_typename}};
ghost use Rattle.witx_scope.specs.Sites.{place_at, typename_at, module_at, constant_at};
ghost use Rattle.witx_check.specs.Declaring.{SensesOnOk, TreesOnOk, TablesTake};

use crate::modules::checked_module;
use crate::typenames::checked_typename;
use std::alloc::Global;
use std::rc::Rc;
use witx_ast::{Definition, Definitions, Entries, Entry, Module, NamedType};
use witx_base::{Duplicate, Id, OutOfMemory};
use witx_scope::{CheckError, Site, Tables, take_constant};
use witx_syntax_tree::{ConstSyntax, Documented, ModuleSyntax, TypenameSyntax};

/// Puts a finished typename or module behind the definitions and under its name, or neither.
#[tactic(auto, using(crate::proofs::Finishing::finish_rules))]
fn finish(
    definitions: &mut Definitions,
    entries: &mut Entries,
    name: Id,
    definition: Definition,
    entry: Entry,
) -> Result<(), OutOfMemory>
    ensures definitions { OnOk result (definitions.new ≡ definitions.old ++ definition ∷ []) }
    ensures senses { SensesOnOk result entries.old entries.new name (entry_sense_of (Some entry)) }
    ensures trees { TreesOnOk result entries.old entries.new name (entry_tree entry) }
    ensures unchanged { OnErr result (definitions.new ≡ definitions.old) }
    ensures entries_unchanged { OnErr result (entries.new ≡ entries.old) }
{
    let len = definitions.len();
    definitions.push(definition)?;
    match entries.insert(name, entry) {
        Ok(()) => Ok(()),
        Err(error) => {
            definitions.truncate(len);
            Err(error)
        }
    }
}

/// Puts a finished typename behind the definitions and under its name, or neither.
fn keep_typename(
    definitions: &mut Definitions,
    entries: &mut Entries,
    alloc: Global,
    made: NamedType,
) -> Result<(), OutOfMemory>
    ensures appended { OnOk result (map definition_tree definitions.new
        ≡ map definition_tree definitions.old ++ made_typename made ∷ []) }
    ensures senses { SensesOnOk result entries.old entries.new made.name (Some (a_type (named_tree made))) }
    ensures trees { TreesOnOk result entries.old entries.new made.name (made_typename made) }
    ensures unchanged { OnErr result (definitions.new ≡ definitions.old) }
    ensures entries_unchanged { OnErr result (entries.new ≡ entries.old) }
{
    let name = made.name.copy()?;
    let named = Rc::new(alloc, made)?;
    let shared = named.clone()?;
    finish(
        definitions,
        entries,
        name,
        Definition::Typename(shared),
        Entry::Typename(named),
    )
}

/// Puts a finished module behind the definitions and under its name, or neither.
fn keep_module(
    definitions: &mut Definitions,
    entries: &mut Entries,
    alloc: Global,
    made: Module,
) -> Result<(), OutOfMemory>
    ensures appended { OnOk result (map definition_tree definitions.new
        ≡ map definition_tree definitions.old ++ module_of (module_tree made) ∷ []) }
    ensures senses { SensesOnOk result entries.old entries.new made.name (Some a_module) }
    ensures trees { TreesOnOk result entries.old entries.new made.name (module_of (module_tree made)) }
    ensures unchanged { OnErr result (definitions.new ≡ definitions.old) }
    ensures entries_unchanged { OnErr result (entries.new ≡ entries.old) }
{
    let name = made.name.copy()?;
    let module = Rc::new(alloc, made)?;
    let shared = module.clone()?;
    finish(
        definitions,
        entries,
        name,
        Definition::Module(shared),
        Entry::Module(module),
    )
}

/// Takes a typename in, whose name stands at the place of the site.
pub fn validate_typename(
    tables: &mut Tables,
    site: Site<'_>,
    decl: &TypenameSyntax<'_>,
    definitions: &mut Definitions,
) -> Result<(), CheckError>
    requires { site.place ≡ place_at site decl.now.ident }
    ensures { TablesTake tables.old tables.new definitions.old definitions.new
        (typename_at site.entry decl.now) result }
{
    let alloc = tables.alloc;
    match checked_typename(
        &mut tables.names,
        &mut tables.unfinished,
        &tables.entries,
        &tables.steps,
        site,
        decl,
    ) {
        Ok(made) => {
            keep_typename(definitions, &mut tables.entries, alloc, made)?;
            tables.unfinished.finish();
            Ok(())
        }
        Err(error) => Err(error),
    }
}

/// Takes a module in, whose name stands at the place of the site.
pub fn validate_module(
    tables: &mut Tables,
    site: Site<'_>,
    decl: &ModuleSyntax<'_>,
    definitions: &mut Definitions,
) -> Result<(), CheckError>
    requires { site.place ≡ place_at site decl.now.name }
    ensures { TablesTake tables.old tables.new definitions.old definitions.new
        (module_at site.entry decl.now) result }
{
    let alloc = tables.alloc;
    match checked_module(
        &mut tables.names,
        &mut tables.unfinished,
        &tables.entries,
        &tables.steps,
        site,
        decl,
    ) {
        Ok(made) => {
            keep_module(definitions, &mut tables.entries, alloc, made)?;
            tables.unfinished.finish();
            Ok(())
        }
        Err(error) => Err(error),
    }
}

/// Takes a constant in, whose name stands at the place of the site; a refused one leaves nothing.
pub fn validate_constant(
    tables: &mut Tables,
    site: Site<'_>,
    decl: &Documented<'_, ConstSyntax<'_>>,
    definitions: &mut Definitions,
) -> Result<(), CheckError>
    requires { site.place ≡ place_at site decl.now.item.name }
    ensures { TablesTake tables.old tables.new definitions.old definitions.new
        (constant_at site.entry decl.now) result }
{
    take_constant(tables, site, decl, definitions)
}
