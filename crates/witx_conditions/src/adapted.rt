//! Adapted documents made by hand: whether they have an entry for each function.

ghost use Rattle.std.specs.Prelude.{◌≡◌, ◌+◌, ◌<◌, ◌∷◌, [], None, IfSome, map, true};
ghost use Rattle.witx_ast.specs.{Definitions.{definition_tree}, Items.{item_tree}};
ghost use Rattle.witx_adapt.specs.Listings.{func_count};
ghost use Rattle.witx_traces.specs.Traces.{HasEachEntry, function_number, listed};

use witx_adapt::Adapted;
use witx_ast::{Definition, ModuleDefinition};

/// Whether an adapted document has as many entries as its modules have functions, as `read_traces` asks for.
#[tactic(auto, using(crate::proofs::Counting::entry_rules))]
pub fn has_each_entry(adapted: &Adapted) -> bool
    ensures entries { result ≡ true → HasEachEntry (listed adapted.now) }
    ensures exact { HasEachEntry (listed adapted.now) → result ≡ true }
{
    let definitions = adapted.document.definitions().as_slice();
    match left_of_definitions(definitions, adapted.functions.len()) {
        Some(left) => left == 0,
        None => false,
    }
}

/// What is left of a number after one for each function of these definitions; none where it is less.
fn left_of_definitions(definitions: &[Definition], number: usize) -> Option<usize>
    ensures left { IfSome result (λ left. left + function_number (map definition_tree definitions.now) ≡ number) }
    ensures less { result ≡ None → number < function_number (map definition_tree definitions.now) }
{
    let mut left = number;
    for definition in definitions {
        left = left_of_definition(definition, left)?;
    }
    Some(left)
}

fn left_of_definition(definition: &Definition, number: usize) -> Option<usize>
    ensures left { IfSome result (λ left. left + function_number (definition_tree definition.now ∷ []) ≡ number) }
    ensures less { result ≡ None → number < function_number (definition_tree definition.now ∷ []) }
{
    match definition {
        Definition::Typename(_) => Some(number),
        Definition::Module(module) => left_of_items(module.definitions().as_slice(), number),
        Definition::Constant(_) => Some(number),
    }
}

fn left_of_items(items: &[ModuleDefinition], number: usize) -> Option<usize>
    ensures left { IfSome result (λ left. left + func_count (map item_tree items.now) ≡ number) }
    ensures less { result ≡ None → number < func_count (map item_tree items.now) }
{
    let mut left = number;
    for item in items {
        left = left_of_item(item, left)?;
    }
    Some(left)
}

fn left_of_item(item: &ModuleDefinition, number: usize) -> Option<usize>
    ensures left { IfSome result (λ left. left + func_count (item_tree item.now ∷ []) ≡ number) }
    ensures less { result ≡ None → number < func_count (item_tree item.now ∷ []) }
{
    match item {
        ModuleDefinition::Import(_) => Some(number),
        ModuleDefinition::Func(_) => number.checked_sub(1),
    }
}
