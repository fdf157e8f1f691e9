//! Variables in a line of C.
#![tactic(auto, using(crate::proofs::Appending::appending_rules))]

ghost use Rattle.std.specs.{Prelude.{◌≡◌, ◌++◌, OnOk, string_bytes}, List.{flat_map}};
ghost use Rattle.witx_header.specs.Bodies.{behind_comma, member, variable_text, variables_text};

use crate::handed::Variable;
use std::alloc::AllocError;
use std::fmt::Write;

/// Appends variables, with commas between them.
pub fn put_variables(text: &mut String, variables: &[Variable]) -> Result<(), AllocError>
    ensures { OnOk result (string_bytes text.new ≡ string_bytes text.old ++ variables_text variables.now) }
{
    match variables {
        [] => Ok(()),
        [first, more @ ..] => put_first(text, *first, more),
    }
}

fn put_first(text: &mut String, first: Variable, more: &[Variable]) -> Result<(), AllocError>
    ensures { OnOk result (string_bytes text.new
        ≡ string_bytes text.old ++ (variable_text first ++ flat_map behind_comma more.now)) }
{
    put_variable(text, first)?;
    put_more(text, more)?;
    Ok(())
}

fn put_more(text: &mut String, more: &[Variable]) -> Result<(), AllocError>
    ensures { OnOk result (string_bytes text.new ≡ string_bytes text.old ++ flat_map behind_comma more.now) }
{
    for variable in more {
        text.push_str(", ")?;
        put_variable(text, *variable)?;
    }
    Ok(())
}

/// Appends the members of a tuple, which are named as the variables that they come from.
pub fn put_members(text: &mut String, operands: &[Variable]) -> Result<(), AllocError>
    ensures { OnOk result (string_bytes text.new ≡ string_bytes text.old ++ flat_map member operands.now) }
{
    for operand in operands {
        text.push_str("__typeof__(")?;
        put_variable(text, *operand)?;
        text.push_str(") ")?;
        put_variable(text, *operand)?;
        text.push_str("; ")?;
    }
    Ok(())
}

/// Appends the name of a variable.
pub fn put_variable(text: &mut String, variable: Variable) -> Result<(), AllocError>
    ensures { OnOk result (string_bytes text.new ≡ string_bytes text.old ++ variable_text variable) }
{
    let number = variable.number;
    write!(text, "t{number}")
}
