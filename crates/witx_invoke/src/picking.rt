//! Which case a result has.
#![tactic(auto, using(crate::proofs::PickLemmas::pick_rules))]

ghost use Rattle.std.specs.Prelude.{◌≡◌, IfOk, Some, option_map};
ghost use Rattle.witx_ast.specs.Views.{tree_of};
ghost use Rattle.witx_machine.specs.Cells.{cells, picked as picked_case};
ghost use Rattle.witx_bytes.specs.Seen.{seen, seen_in};
ghost use Rattle.witx_run.specs.Views.{picked_of, type_tree};
ghost use Rattle.witx_invoke.specs.Picking.{value_case_picked};

use std::boxed::Box;
use witx_ast::TypeRef;
use witx_base::OutOfMemory;
use witx_bytes::{Value, is_value};
use witx_run::{Picked, name_of};

/// Which case a result has, whose cases carry these types; none where what it carries isn't of the
/// case's type.
pub(crate) fn picks(
    ok: Option<&TypeRef>,
    err: Option<&TypeRef>,
    value: Value,
) -> Result<Option<Picked<Value>>, OutOfMemory>
    ensures { IfOk result (λ picked. option_map (picked_of seen) picked
        ≡ cells.picks (type_tree ok.entry) (type_tree err.entry) (seen value)) }
{
    match value {
        Value::Case(case, payload) => pick_case(ok, err, case, payload),
        Value::Num(_, _) => Ok(None),
        Value::Handle(_) => Ok(None),
        Value::Pointer(_) => Ok(None),
        Value::ConstPointer(_) => Ok(None),
        Value::List { .. } => Ok(None),
        Value::Flags(_) => Ok(None),
        Value::Tuple(_) => Ok(None),
        Value::Rec(_) => Ok(None),
        Value::Enum(_) => Ok(None),
    }
}

fn pick_case(
    ok: Option<&TypeRef>,
    err: Option<&TypeRef>,
    case: u32,
    payload: Option<Box<Value>>,
) -> Result<Option<Picked<Value>>, OutOfMemory>
    ensures { IfOk result (λ picked. option_map (picked_of seen) picked
        ≡ value_case_picked (type_tree ok.entry) (type_tree err.entry) case (option_map seen_in payload)) }
{
    match case {
        0 => pick(false, ok, payload),
        1 => pick(true, err, payload),
        _ => {
            drop(payload);
            Ok(None)
        }
    }
}

/// The case, with its payload as its type has it.
fn pick(
    error: bool,
    ty: Option<&TypeRef>,
    payload: Option<Box<Value>>,
) -> Result<Option<Picked<Value>>, OutOfMemory>
    ensures { IfOk result (λ picked. option_map (picked_of seen) picked
        ≡ picked_case error (type_tree ty.entry) (option_map seen_in payload)) }
{
    match (ty, payload) {
        (None, None) => Ok(Some(Picked {
            error,
            payload: None,
        })),
        (Some(ty), Some(value)) => pick_value(error, ty, value),
        (None, Some(value)) => {
            drop(value);
            Ok(None)
        }
        (Some(_), None) => Ok(None),
    }
}

fn pick_value(
    error: bool,
    ty: &TypeRef,
    value: Box<Value>,
) -> Result<Option<Picked<Value>>, OutOfMemory>
    ensures { IfOk result (λ picked. option_map (picked_of seen) picked
        ≡ picked_case error (Some (tree_of ty.now)) (Some (seen_in value))) }
{
    if !is_value(ty, &value) {
        drop(value);
        return Ok(None);
    }
    let name = name_of(ty)?;
    Ok(Some(Picked {
        error,
        payload: Some((Box::into_inner(value), name)),
    }))
}
