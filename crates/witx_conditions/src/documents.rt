//! Documents made by hand: whether they are ordered, and closed.
#![tactic(auto, using(crate::proofs::Ordering::order_rules))]

ghost use Rattle.std.specs.Prelude.{◌≡◌, [], map, true};
ghost use Rattle.witx_ast.specs.Definitions.{definition_tree};
ghost use Rattle.witx_conditions.specs.Documents.{HasClosedDefinitions, HasOrderedDefinitions};
ghost use Rattle.witx_conditions.specs.NameTests.{definition_stands, each_after};

use crate::items::items_stand;
use crate::names::names_stand;
use witx_ast::{Definition, Document};

/// Whether a document is ordered: each name inside a typename's type is that of a typename that stands before it, for
/// an equal type. In the time of a walk through the definitions before for each name, and of a comparison of its types.
pub fn is_ordered(document: &Document) -> bool
    ensures ordered { result ≡ true → HasOrderedDefinitions document.now }
    ensures exact { HasOrderedDefinitions document.now → result ≡ true }
{
    each_stands(document.definitions().as_slice(), false)
}

/// Whether it is closed: so it is also of each name in the types of its functions. A closed document is ordered.
pub fn is_closed(document: &Document) -> bool
    ensures closed { result ≡ true → HasClosedDefinitions document.now }
    ensures ordered { result ≡ true → HasOrderedDefinitions document.now }
    ensures exact { HasClosedDefinitions document.now → result ≡ true }
{
    each_stands(document.definitions().as_slice(), true)
}

// Whether so it is of each definition; of modules only where functions count.
#[tactic(auto, using(crate::proofs::Ordering::each_rules))]
fn each_stands(definitions: &[Definition], functions: bool) -> bool
    ensures { result ≡ each_after (definition_stands functions) [] (map definition_tree definitions.now) }
{
    for i in 0..definitions.len() {
        let definition = &definitions[i];
        if !definition_stands(&definitions[..i], definition, functions) {
            return false;
        }
    }
    true
}

fn definition_stands(before: &[Definition], definition: &Definition, functions: bool) -> bool
    ensures { result ≡ definition_stands functions (map definition_tree before.now) (definition_tree definition.now) }
{
    match definition {
        Definition::Typename(named) => names_stand(before, &named.tref),
        Definition::Module(module) => {
            !functions || items_stand(before, module.definitions().as_slice())
        }
        Definition::Constant(_) => true,
    }
}
