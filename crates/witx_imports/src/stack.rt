//! The stack of values that a list is built on. Its last value is the top.

ghost use Rattle.std.specs.Prelude.{◌≡◌, IfOk};
ghost use Rattle.witx_values.specs.Language.{IsOnTop};
ghost use Rattle.witx_imports.specs.declared.value.Sort.TheVariants as sorts;
ghost use Rattle.witx_imports.specs.{Sorts.{import_sort_of}, Stack.{import_value_view}};
ghost use Rattle.witx_imports.specs.Values.{some_imports};

use crate::import::WasmImports;
use crate::value::Value;
use witx_base::{Items, OutOfMemory};
use witx_values::{held, reversed};

/// Puts a value on top.
pub fn push(stack: &mut Vec<Value>, value: Value) -> Result<(), OutOfMemory>
    ensures { IfOk result (λ _. IsOnTop import_value_view (import_value_view value) stack.old.items stack.new.items) }
{
    stack.push(value)?;
    Ok(())
}

/// The imports that the value of a text is.
pub fn imports_in(value: Value) -> WasmImports
    requires { import_sort_of (import_value_view value) ≡ sorts.Imports }
    ensures { import_value_view value ≡ some_imports result }
{
    Items::from_vec(reversed(held!(value, Value::Imports)))
}
