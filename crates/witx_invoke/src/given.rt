//! The values of one call, read from lines.
#![tactic(auto, using(crate::proofs::Lines::line_rules))]

ghost use Rattle.std.specs.Prelude.{◌≡◌, ◌≤◌, ◌+◌, ◌^◌, ◌<◌, ◌++◌, ℕ, List, IfOk, true, map, option_map, length};
ghost use Rattle.witx_ast.specs.{Functions.{func_tree, param_field}, Plain.{plain}};
ghost use Rattle.witx_ast.specs.{Tags.{fits, function_fits, types_fit}, Tree.{Tree}, Views.{tree_of}};
ghost use Rattle.witx_bytes.specs.Seen.{seen};
ghost use Rattle.witx_machine.specs.Functions.{function_of};
ghost use Rattle.witx_call.specs.Lines.{AreLines, FirstFault, Gives, NoLine, line_param_types, line_types};
ghost use Rattle.witx_invoke.specs.Reading.{TakesLine};

use crate::error::ValuesError;
use crate::extents::check_types;
use crate::line::read_line;
use std::alloc::Global;
use witx_ast::{InterfaceFunc, InterfaceFuncParam, TypeRef};
use witx_bytes::{ReadError, Value, Values};

/// The values of one call.
#[derive(PartialEq, Eq, Debug, Drop)]
pub struct GivenValues {
    /// A value for each parameter.
    pub args: Values,
    /// The value of the result, if the function has one.
    pub reply: Option<Value>,
}

/// The values that the lines of a text are: one line for each parameter and one for a result, each
/// the text of a value of its type, ended by a line feed.
///
/// Asked of a function with at most one result, whose types fit their tags. Refused as `Line` for the first
/// line that isn't the text of a value of its type, or is one too many or missing. Want of memory also where there is
/// too much to the function's types, or where they are too deep.
pub fn read_values(
    alloc: Global,
    func: &InterfaceFunc,
    text: &str,
) -> Result<GivenValues, ValuesError>
    requires single { length func.now.results ≤ 1 }
    requires fits { function_fits (func_tree func.now) ≡ true }
    ensures given { IfOk result (λ given. Gives (function_of (func_tree func.now)) text.now
        (map seen given.args) (option_map seen given.reply)) }
    ensures line { (n : ℕ) → result ≡ Err (ValuesError.Line n)
        → FirstFault 1 (line_types (function_of (func_tree func.now))) text.now n }
{
    check_types(alloc, func)?;
    let params = func.params.as_slice();
    let (args, rest) = read_lines(alloc, params, 0, text.as_bytes())?;
    let (replies, rest) = read_lines(alloc, func.results.as_slice(), params.len(), rest)?;
    if !rest.is_empty() {
        return Err(ValuesError::Line {
            line: params.len() + replies.len() + 1,
        });
    }
    Ok(GivenValues {
        args,
        reply: replies.into_vec().pop(),
    })
}

/// A value for each parameter, or result, from its line, and what follows these lines; so many lines
/// stand before them.
fn read_lines<'a>(
    alloc: Global,
    params: &[InterfaceFuncParam],
    before: usize,
    text: &'a [u8],
) -> Result<(Values, &'a [u8]), ValuesError>
    requires few { before + length params.now < 2 ^ 64 }
    requires fits { types_fit (map param_field params.now) ≡ true }
    ensures read { IfOk result (λ p. AreLines (line_param_types params.now) text.now (map seen p.0) p.1.now) }
    ensures line { (n : ℕ) → result ≡ Err (ValuesError.Line n) → (more : List Tree)
        → FirstFault (before + 1) (line_param_types params.now ++ more) text.now n }
{
    let mut values = Values::new(alloc);
    let mut rest = text;
    for i in 0..params.len() {
        let (value, more) = read_numbered(alloc, &params[i].tref, before + i + 1, rest)?;
        values.push(value)?;
        rest = more;
    }
    Ok((values, rest))
}

/// The value of a line, which has this number.
fn read_numbered<'a>(
    alloc: Global,
    ty: &TypeRef,
    line: usize,
    text: &'a [u8],
) -> Result<(Value, &'a [u8]), ValuesError>
    requires { fits (plain (tree_of ty.now)) ≡ true }
    ensures read { IfOk result (TakesLine (tree_of ty.now) text.now) }
    ensures line { (n : ℕ) → result ≡ Err (ValuesError.Line n) → (n ≡ line) × NoLine (tree_of ty.now) text.now }
{
    match read_line(alloc, ty, text) {
        Ok(read) => Ok(read),
        Err(ReadError::NoValue) => Err(ValuesError::Line { line }),
        Err(ReadError::OutOfMemory) => Err(ValuesError::OutOfMemory),
    }
}
