//! Whether each name in the types of a module's functions is that of a typename that stands before.
#![tactic(auto, using(crate::proofs::Naming::item_rules))]

ghost use Rattle.std.specs.Prelude.{◌≡◌, map};
ghost use Rattle.witx_ast.specs.{Definitions.{definition_tree}, Functions.{param_field}, Items.{item_tree}};
ghost use Rattle.witx_conditions.specs.NameTests.{item_stands, items_stand, params_stand};

use crate::names::names_stand;
use witx_ast::{Definition, InterfaceFuncParam, ModuleDefinition};

/// Whether so it is of these items.
pub(crate) fn items_stand(before: &[Definition], items: &[ModuleDefinition]) -> bool
    ensures { result ≡ items_stand (map definition_tree before.now) (map item_tree items.now) }
{
    for item in items {
        if !item_stands(before, item) {
            return false;
        }
    }
    true
}

fn item_stands(before: &[Definition], item: &ModuleDefinition) -> bool
    ensures { result ≡ item_stands (map definition_tree before.now) (item_tree item.now) }
{
    match item {
        ModuleDefinition::Import(_) => true,
        ModuleDefinition::Func(func) => params_stand(before, func.params.as_slice())
            && params_stand(before, func.results.as_slice()),
    }
}

fn params_stand(before: &[Definition], params: &[InterfaceFuncParam]) -> bool
    ensures { result ≡ params_stand (map definition_tree before.now) (map param_field params.now) }
{
    for param in params {
        if !names_stand(before, &param.tref) {
            return false;
        }
    }
    true
}
