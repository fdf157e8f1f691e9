//! What each production makes of its parts.

ghost use Rattle.std.specs.Prelude.{◌≡◌, ◌++◌, reverse, IfOk};
ghost use Rattle.witx_values.specs.Language.{Ready};
ghost use Rattle.witx_imports.specs.{Actions.{import_language}, Stack.{ImportMade, import_value_view}};
ghost use Rattle.witx_imports.specs.declared.symbols.ProductionName.TheVariants as production;

use crate::import::WasmImport;
use crate::stack::push;
use crate::value::{Signature, Value};
use std::alloc::Global;
use witx_base::{Items, OutOfMemory};
use witx_machine::WasmType;
use witx_values::{appended, held, reversed, top};

/// No words.
pub fn no_words(alloc: Global, stack: &mut Vec<Value>) -> Result<(), OutOfMemory>
    ensures { IfOk result (λ _. ImportMade production.NoParams stack.old.items stack.new.items) }
{
    let signature = Signature {
        params: Vec::new(alloc),
        results: Vec::new(alloc),
    };
    push(stack, Value::Signature(signature))
}

/// An import in front of those behind it.
pub fn more_imports(stack: &mut Vec<Value>) -> Result<(), OutOfMemory>
    requires { Ready import_language import_value_view production.MoreImports stack.old.items }
    ensures { IfOk result (λ _. ImportMade production.MoreImports stack.old.items stack.new.items) }
{
    let import = held!(top!(stack), Value::Import);
    let imports = appended(held!(top!(stack), Value::Imports), import)?;
    push(stack, Value::Imports(imports))
}

/// `(import "m" "f" (func ..))`: its names and words.
pub fn import(stack: &mut Vec<Value>) -> Result<(), OutOfMemory>
    requires { Ready import_language import_value_view production.Import stack.old.items }
    ensures { IfOk result (λ _. ImportMade production.Import stack.old.items stack.new.items) }
{
    let module = held!(top!(stack), Value::Name);
    let name = held!(top!(stack), Value::Name);
    let signature = held!(top!(stack), Value::Signature);
    let import = WasmImport {
        module,
        name,
        params: Items::from_vec(reversed(signature.params)),
        results: Items::from_vec(reversed(signature.results)),
    };
    push(stack, Value::Import(import))
}

/// A group of parameters in front of the others.
pub fn more_params(stack: &mut Vec<Value>) -> Result<(), OutOfMemory>
    requires { Ready import_language import_value_view production.MoreParams stack.old.items }
    ensures { IfOk result (λ _. ImportMade production.MoreParams stack.old.items stack.new.items) }
{
    let group = held!(top!(stack), Value::Types);
    let signature = held!(top!(stack), Value::Signature);
    let params = joined(signature.params, group)?;
    let results = signature.results;
    push(stack, Value::Signature(Signature { params, results }))
}

/// A group of results in front of the others.
pub fn more_results(stack: &mut Vec<Value>) -> Result<(), OutOfMemory>
    requires { Ready import_language import_value_view production.MoreResults stack.old.items }
    ensures { IfOk result (λ _. ImportMade production.MoreResults stack.old.items stack.new.items) }
{
    let group = held!(top!(stack), Value::Types);
    let signature = held!(top!(stack), Value::Signature);
    let results = joined(signature.results, group)?;
    let params = signature.params;
    push(stack, Value::Signature(Signature { params, results }))
}

/// `(param $n W)`: a group of one type.
pub fn named_param(alloc: Global, stack: &mut Vec<Value>) -> Result<(), OutOfMemory>
    requires { Ready import_language import_value_view production.NamedParam stack.old.items }
    ensures { IfOk result (λ _. ImportMade production.NamedParam stack.old.items stack.new.items) }
{
    let group = appended(Vec::new(alloc), held!(top!(stack), Value::Type))?;
    push(stack, Value::Types(group))
}

/// A type in front of those behind it.
pub fn more_types(stack: &mut Vec<Value>) -> Result<(), OutOfMemory>
    requires { Ready import_language import_value_view production.MoreTypes stack.old.items }
    ensures { IfOk result (λ _. ImportMade production.MoreTypes stack.old.items stack.new.items) }
{
    let word = held!(top!(stack), Value::Type);
    let group = appended(held!(top!(stack), Value::Types), word)?;
    push(stack, Value::Types(group))
}

/// The types with those of a group in front, where both are kept with the last type first.
fn joined(types: Vec<WasmType>, group: Vec<WasmType>) -> Result<Vec<WasmType>, OutOfMemory>
    ensures { IfOk result (λ made. reverse made.items ≡ reverse group.items ++ reverse types.items) }
{
    let mut types = types;
    types.extend_from_slice(group.as_slice())?;
    Ok(types)
}
