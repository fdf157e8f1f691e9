//! One line: the text of a value of a type, and a line feed.

ghost use Rattle.std.specs.Prelude.{◌≡◌, IfOk, true};
ghost use Rattle.witx_ast.specs.{Plain.{plain}, Tags.{fits}, Views.{tree_of}};
ghost use Rattle.witx_call.specs.Lines.{NoLine};
ghost use Rattle.witx_invoke.specs.Reading.{TakesLine};

use crate::read::read_type;
use std::alloc::Global;
use witx_ast::TypeRef;
use witx_bytes::{DEEPEST, ReadError, Value};
use witx_call::behind_line;

/// The value whose line the text begins with, and what follows the line.
pub(crate) fn read_line<'a>(
    alloc: Global,
    ty: &TypeRef,
    text: &'a [u8],
) -> Result<(Value, &'a [u8]), ReadError>
    requires { fits (plain (tree_of ty.now)) ≡ true }
    ensures read { IfOk result (TakesLine (tree_of ty.now) text.now) }
    ensures none { result ≡ Err ReadError.NoValue → NoLine (tree_of ty.now) text.now }
{
    let (value, _behind) = read_type(alloc, ty, text, DEEPEST)?;
    match behind_line(alloc, ty, &value, text)? {
        Some(rest) => Ok((value, rest)),
        None => {
            drop(value);
            Err(ReadError::NoValue)
        }
    }
}
