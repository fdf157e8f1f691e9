//! The constants of a document, by the names of their types.
#![tactic(auto, using(crate::proofs::Standing::standing_rules))]

ghost use Rattle.std.specs.Prelude.{◌≡◌, ◌∷◌, ◌++◌, [], ℕ, List, IfOk, OnOk, map};
ghost use Rattle.witx_ast.specs.Definitions.{definition_tree};
ghost use Rattle.witx_markdown.specs.Constants.{constants_in};
ghost use Rattle.witx_docs.specs.{Parts.{constants_of}, ByType.{StandByType, standing}};

use std::alloc::Global;
use std::collections::BTreeMap;
use witx_ast::{Constant, Definition};
use witx_base::{Duplicate, Id, Items, OutOfMemory};

/// Constants, in order, under the names of their types.
pub type ConstantsByType<'a> = BTreeMap<Id, Items<&'a Constant>>;

/// The constants among definitions.
pub fn constants_by_type<'a>(
    alloc: Global,
    definitions: &'a [Definition],
) -> Result<ConstantsByType<'a>, OutOfMemory>
    ensures { IfOk result
        (λ constants. StandByType constants.entries (constants_in (map definition_tree definitions.now))) }
{
    let mut constants = ConstantsByType::new(alloc);
    for definition in definitions {
        let Definition::Constant(constant) = definition else {
            continue;
        };
        add_constant(alloc, &mut constants, constant)?;
    }
    Ok(constants)
}

/// Adds a constant behind those of its type.
fn add_constant<'a>(
    alloc: Global,
    constants: &mut ConstantsByType<'a>,
    constant: &'a Constant,
) -> Result<(), OutOfMemory>
    ensures { (name : List ℕ) → OnOk result (standing constants.new.entries name
        ≡ standing constants.old.entries name ++ constants_of name (constant.now ∷ [])) }
{
    let mut own = constants.remove(&constant.ty).unwrap_or(Items::new(alloc));
    own.push(constant)?;
    constants.insert(constant.ty.copy()?, own)?;
    Ok(())
}
