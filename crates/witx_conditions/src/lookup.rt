//! The typename of a name among definitions.

ghost use Rattle.std.specs.Prelude.{◌≡◌, map, option_map};
ghost use Rattle.witx_ast.specs.Definitions.{as_typename, definition_tree, introduced, typename_called};
ghost use Rattle.witx_ast.specs.{Same.{same_tree}, Tree.{behind}, Views.{named_tree, tree_of}};
ghost use Rattle.witx_conditions.specs.NameTests.{is_text_of, is_type_behind};

use std::rc::Rc;
use witx_ast::{Definition, NamedType};
use witx_base::Id;

/// Whether a typename of that name, for an equal type, is the first of that name among these definitions.
#[tactic(auto, using(crate::proofs::Looking::stand_rules))]
pub(crate) fn stands_before(before: &[Definition], named: &NamedType) -> bool
    ensures { result ≡ is_type_behind (typename_called (map definition_tree before.now) named.now.name)
        (tree_of named.now.tref) }
{
    match typename_in(before, &named.name) {
        Some(found) => are_alike(found, named),
        None => false,
    }
}

/// Whether the types behind two names are equal.
fn are_alike(one: &NamedType, other: &NamedType) -> bool
    ensures { result ≡ same_tree (behind (named_tree one.now)) (behind (named_tree other.now)) }
{
    **one.type_() == **other.type_()
}

/// The first definition of that name, if it is a typename.
#[tactic(auto, using(crate::proofs::Looking::look_rules))]
fn typename_in<'a>(before: &'a [Definition], name: &Id) -> Option<&'a Rc<NamedType>>
    ensures { option_map (λ n. named_tree n.now.value) result ≡ typename_called (map definition_tree before.now) name.now }
{
    for definition in before {
        if has_name(definition, name) {
            return as_typename(definition);
        }
    }
    None
}

/// Whether a definition introduces that name.
fn has_name(definition: &Definition, name: &Id) -> bool
    ensures { result ≡ is_text_of (introduced (definition_tree definition.now)) name.now }
{
    match definition {
        Definition::Typename(named) => name.is(named.name.as_str()),
        Definition::Module(module) => name.is(module.name.as_str()),
        Definition::Constant(_) => false,
    }
}

/// The definition, if it is a typename.
#[tactic(auto, using(witx_ast::proofs::Trees::tree_rules))]
fn as_typename(definition: &Definition) -> Option<&Rc<NamedType>>
    ensures { option_map (λ n. named_tree n.now.value) result ≡ as_typename (definition_tree definition.now) }
{
    match definition {
        Definition::Typename(named) => Some(named),
        Definition::Module(_) => None,
        Definition::Constant(_) => None,
    }
}
