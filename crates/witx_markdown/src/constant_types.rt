//! The types of a document's constants.

ghost use Rattle.std.specs.Prelude.{◌≡◌, map, option_map};
ghost use Rattle.witx_ast.specs.Definitions.{definition_tree};
ghost use Rattle.witx_markdown.specs.Constants.{unknown_type};

use witx_ast::{Definition, Document};
use witx_base::Id;

/// The first constant's type that is no typename of the document.
#[tactic(auto, using(crate::proofs::ConstantTypes::unknown_rules))]
pub fn unknown_constant_type(document: &Document) -> Option<&Id>
    ensures { option_map (λ name. name.now) result ≡ unknown_type (map definition_tree document.now.definitions) }
{
    for definition in document.definitions().as_slice() {
        let Definition::Constant(constant) = definition else {
            continue;
        };
        if document.typename(&constant.ty).is_none() {
            return Some(&constant.ty);
        }
    }
    None
}
