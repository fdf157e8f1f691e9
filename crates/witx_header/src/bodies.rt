//! The caller's side of a function, below its prototype.

ghost use Rattle.std.specs.{Prelude.{◌≡◌, ◌++◌, [], IfOk, OnOk, codes, map, string_bytes}, Fmt.{decimal}};
ghost use Rattle.std.specs.List.{flat_map};
ghost use Rattle.witx_ast.specs.Functions.{func_tree, param_field};
ghost use Rattle.witx_machine.specs.{Lowerable.{unlowerable}, Traces.{caller_events}};
ghost use Rattle.witx_instructions.specs.{Told.{unlowerable_place}, Views.{called}};
ghost use Rattle.witx_header.specs.Bodies.{body_lines, call_line, calls_from, side_text, value_line, field_lines};
ghost use Rattle.witx_header.specs.Kept.{call_of};

use crate::body::Body;
use crate::handed::Handed;
use crate::lines::put_line;
use crate::names::put_name;
use crate::types::put_type;
use std::alloc::{AllocError, Global};
use std::fmt::Write;
use witx_abi::{AbiError, AbiFunc};
use witx_ast::{InterfaceFunc, InterfaceFuncParam};
use witx_base::{Id, Items, OutOfMemory};
use witx_instructions::functions_are_read_as_their_trees;

/// Appends the caller's side of a function of a module, as a comment; nothing where it can't be lowered.
pub fn put_body(text: &mut String, owner: &Id, func: &InterfaceFunc) -> Result<(), OutOfMemory>
    ensures { OnOk result (string_bytes text.new ≡ string_bytes text.old ++ body_lines owner.now (func_tree func.now)) }
{
    let alloc = *text.allocator();
    functions_are_read_as_their_trees();
    match caller_calls(alloc, owner, func) {
        Ok(calls) => put_side(text, func.params.as_slice(), calls),
        Err(AbiError::Unlowerable(_)) => Ok(()),
        // A body counts no fault, so it is memory that was wanting.
        Err(AbiError::BindgenFailed) | Err(AbiError::OutOfMemory) => Err(OutOfMemory),
    }
}

/// The calls of a body for the events of a function's caller side.
fn caller_calls(alloc: Global, owner: &Id, func: &InterfaceFunc) -> Result<Items<Handed>, AbiError>
    ensures calls { IfOk result (λ calls. map call_of calls ≡ calls_from 0 [] (caller_events owner.now (called func.now))) }
    ensures unlowerable { unlowerable_place result ≡ unlowerable (called func.now) }
{
    let mut body = Body::new(alloc);
    func.call_wasm(alloc, owner, &mut body)?;
    Ok(body.into_calls())
}

fn put_side(
    text: &mut String,
    params: &[InterfaceFuncParam],
    calls: Items<Handed>,
) -> Result<(), OutOfMemory>
    ensures { OnOk result (string_bytes text.new
        ≡ string_bytes text.old ++ side_text (map param_field params.now) (map call_of calls)) }
{
    text.push_str("/* The caller's side:\n")?;
    put_values(text, params)?;
    put_lines(text, calls.as_slice())?;
    text.push_str("*/\n\n")?;
    Ok(())
}

#[tactic(auto, using(crate::proofs::Appending::appending_rules))]
fn put_lines(text: &mut String, calls: &[Handed]) -> Result<(), AllocError>
    ensures { OnOk result (string_bytes text.new ≡ string_bytes text.old ++ flat_map call_line (map call_of calls.now)) }
{
    for call in calls {
        put_line(text, call)?;
    }
    Ok(())
}

/// Appends the values that go in, by their numbers.
#[tactic(auto, using(crate::proofs::Sides::value_rules))]
fn put_values(text: &mut String, params: &[InterfaceFuncParam]) -> Result<(), AllocError>
    ensures { OnOk result (string_bytes text.new ≡ string_bytes text.old ++ field_lines 0 (map param_field params.now)) }
{
    for (place, param) in params.iter().enumerate() {
        put_value(text, place, param)?;
    }
    Ok(())
}

fn put_value(text: &mut String, place: usize, param: &InterfaceFuncParam) -> Result<(), AllocError>
    ensures { OnOk result (string_bytes text.new ≡ string_bytes text.old ++ value_line place (param_field param.now)) }
{
    put_place(text, place)?;
    put_type(text, &param.tref)?;
    text.push_str(" ")?;
    put_name(text, param.name.as_str())?;
    text.push_str("\n")?;
    Ok(())
}

fn put_place(text: &mut String, place: usize) -> Result<(), AllocError>
    ensures { OnOk result (string_bytes text.new
        ≡ string_bytes text.old ++ (codes "    // value" ++ decimal place ++ codes ": ")) }
{
    write!(text, "    // value{place}: ")
}
