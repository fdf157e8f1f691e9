//! The line of a value: its text, and a line feed.

ghost use Rattle.std.specs.Prelude.{◌≡◌, IfOk, option_copied, string_bytes};
ghost use Rattle.witx_ast.specs.Views.{tree_of};
ghost use Rattle.witx_bytes.specs.Seen.{seen};
ghost use Rattle.witx_call.specs.Lines.{IsBehindLine, line_text};

use crate::text::put_value;
use std::alloc::Global;
use witx_ast::TypeRef;
use witx_base::OutOfMemory;
use witx_bytes::{Value, is_value};

/// What follows the line of a value, if it is a value of the type and the text begins with its line.
pub fn behind_line<'a>(
    alloc: Global,
    ty: &TypeRef,
    value: &Value,
    text: &'a [u8],
) -> Result<Option<&'a [u8]>, OutOfMemory>
    ensures { IfOk result (λ o. IsBehindLine (tree_of ty.now) text.now (seen value.now) (option_copied o)) }
{
    if !is_value(ty, value) {
        return Ok(None);
    }
    let line = line_of(alloc, value)?;
    Ok(text.strip_prefix(line.as_str().as_bytes()))
}

fn line_of(alloc: Global, value: &Value) -> Result<String, OutOfMemory>
    ensures { IfOk result (λ line. string_bytes line ≡ line_text (seen value.now)) }
{
    let mut line = String::new(alloc);
    put_value(&mut line, value)?;
    line.push_str("\n")?;
    Ok(line)
}
