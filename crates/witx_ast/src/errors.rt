//! The error types of a document's functions.
#![tactic(auto, using(crate::proofs::ErrorLaws::error_rules))]

ghost use Rattle.std.specs.{Prelude.{◌≡◌, map, option_map, OnOk, IfOk}, Option.{option_copied}};
ghost use Rattle.witx_ast.specs.{Tree.{behind}, Views.{tree_of}, Functions.{func_tree}, Items.{item_tree}};
ghost use Rattle.witx_ast.specs.Definitions.{definition_tree};
ghost use Rattle.witx_ast.specs.ErrorTypes.{type_error, function_error, item_errors, definition_errors, all_errors, error_types_of};
ghost use Rattle.witx_ast.specs.Seen.{TellsTypes, and_type, and_types};

use crate::definition::Definition;
use crate::document::Document;
use crate::function::InterfaceFunc;
use crate::module::ModuleDefinition;
use crate::types::{Datatype, TypeRef};
use std::alloc::Global;
use std::collections::HashSet;
use witx_base::{Items, OutOfMemory};

/// A list of types.
pub type TypeRefs = Items<TypeRef>;

impl Document {
    /// The error types of the functions with one `ok`/`err` result, each once, by first appearance.
    pub fn error_types(&self, alloc: Global) -> Result<TypeRefs, OutOfMemory>
        ensures { IfOk result (λ types. map tree_of types ≡ error_types_of (map definition_tree self.now.definitions)) }
    {
        let mut found = Found {
            types: Items::new(alloc),
            seen: HashSet::new(alloc),
        };
        found.add_all(self.definitions().as_slice())?;
        Ok(found.types)
    }
}

/// The error types found so far, in order and as a set.
#[derive(Drop)]
struct Found {
    types: TypeRefs,
    seen: HashSet<TypeRef>,
}

impl Found {
    fn add_all(&mut self, definitions: &[Definition]) -> Result<(), OutOfMemory>
        requires { TellsTypes self.old.seen self.old.types }
        ensures { OnOk result (map tree_of self.new.types
            ≡ and_types (map tree_of self.old.types) (all_errors (map definition_tree definitions.now))) }
    {
        for definition in definitions {
            self.add_definition(definition)?;
        }
        Ok(())
    }

    fn add_definition(&mut self, definition: &Definition) -> Result<(), OutOfMemory>
        requires { TellsTypes self.old.seen self.old.types }
        ensures told { OnOk result (TellsTypes self.new.seen self.new.types) }
        ensures types { OnOk result (map tree_of self.new.types
            ≡ and_types (map tree_of self.old.types) (definition_errors (definition_tree definition.now))) }
    {
        match definition {
            Definition::Module(module) => self.add_items(module.definitions().as_slice()),
            Definition::Typename(_) | Definition::Constant(_) => Ok(()),
        }
    }

    fn add_items(&mut self, items: &[ModuleDefinition]) -> Result<(), OutOfMemory>
        requires { TellsTypes self.old.seen self.old.types }
        ensures told { OnOk result (TellsTypes self.new.seen self.new.types) }
        ensures types { OnOk result (map tree_of self.new.types
            ≡ and_types (map tree_of self.old.types) (item_errors (map item_tree items.now))) }
    {
        for item in items {
            if let ModuleDefinition::Func(func) = item {
                if let Some(error) = error_of(func) {
                    self.add(error)?;
                }
            }
        }
        Ok(())
    }

    fn add(&mut self, error: &TypeRef) -> Result<(), OutOfMemory>
        requires { TellsTypes self.old.seen self.old.types }
        ensures told { OnOk result (TellsTypes self.new.seen self.new.types) }
        ensures types { OnOk result (map tree_of self.new.types ≡ and_type (map tree_of self.old.types) (tree_of error.now)) }
    {
        if self.seen.insert(error.clone()?)? {
            self.types.push(error.clone()?)?;
        }
        Ok(())
    }
}

fn error_of(func: &InterfaceFunc) -> Option<&TypeRef>
    ensures { option_map tree_of (option_copied result) ≡ function_error (func_tree func.now) }
{
    let results = func.results.as_slice();
    if results.len() != 1 {
        return None;
    }
    error_of_type(&results[0].tref)
}

fn error_of_type(tref: &TypeRef) -> Option<&TypeRef>
    ensures { option_map tree_of (option_copied result) ≡ type_error (behind (tree_of tref.now)) }
{
    match &**tref.type_() {
        Datatype::Variant(variant) => match variant.as_expected() {
            Some((_, err)) => err,
            None => None,
        },
        Datatype::Record(_)
        | Datatype::Handle(_)
        | Datatype::List(_)
        | Datatype::Pointer(_)
        | Datatype::ConstPointer(_)
        | Datatype::Builtin(_) => None,
    }
}
