//! The parts of a type, one below the other.
#![tactic(auto, using(crate::proofs::Counting::extent_rules))]

ghost use Rattle.std.specs.Prelude.{◌≡◌, ◌+◌, IfOk, OnOk};
ghost use Rattle.witx_ast.specs.Views.{tree_of, datatype_tree};
ghost use Rattle.witx_extent.specs.Extents.{extent};
ghost use Rattle.witx_extent.specs.Waiting.{waiting_extent, own_extent, members_extent, payloads_extent, case_extent};

use std::alloc::Global;
use witx_ast::{Case, Datatype, RecordMember, TypeRef};
use witx_base::OutOfMemory;

/// A type that is still to be gone through, with the numbers of names and of types around it.
#[derive(Clone, Copy)]
pub struct Waiting<'a> {
    pub tref: &'a TypeRef,
    pub names: usize,
    pub types: usize,
}

/// A type alone, with nothing around it.
pub fn first_waiting<'a>(alloc: Global, tref: &'a TypeRef) -> Result<Vec<Waiting<'a>>, OutOfMemory>
    ensures { IfOk result (λ waiting. waiting_extent waiting.items ≡ extent (tree_of tref.now)) }
{
    let mut waiting = Vec::new(alloc);
    put_one(&mut waiting, tref, 0, 0)?;
    Ok(waiting)
}

/// What there is to a type beside its parts: the type itself, and one for each case.
pub fn own_extent(tref: &TypeRef) -> usize
    ensures { result ≡ own_extent (tree_of tref.now) }
{
    match tref {
        TypeRef::Name(_) => 1,
        TypeRef::Value(datatype) => datatype_extent(datatype),
    }
}

fn datatype_extent(datatype: &Datatype) -> usize
    ensures { result ≡ own_extent (datatype_tree datatype.now) }
{
    match datatype {
        Datatype::Variant(variant) => variant.cases.as_slice().len() + 1,
        Datatype::Record(_)
        | Datatype::Handle(_)
        | Datatype::List(_)
        | Datatype::Pointer(_)
        | Datatype::ConstPointer(_)
        | Datatype::Builtin(_) => 1,
    }
}

/// Puts the type behind a name, or the parts of a type that is written out, behind those that wait.
pub fn put_parts<'a>(waiting: &mut Vec<Waiting<'a>>, one: Waiting<'a>) -> Result<(), OutOfMemory>
    ensures { OnOk result (waiting_extent waiting.new.items + own_extent (tree_of one.entry.tref.now)
        ≡ waiting_extent waiting.old.items + extent (tree_of one.entry.tref.now)) }
{
    match one.tref {
        TypeRef::Name(named) => {
            put_one(waiting, &named.tref, one.names.saturating_add(1), one.types)?;
            Ok(())
        }
        TypeRef::Value(datatype) => {
            put_datatype(waiting, datatype, one.names, one.types.saturating_add(1))?;
            Ok(())
        }
    }
}

fn put_one<'a>(
    waiting: &mut Vec<Waiting<'a>>,
    tref: &'a TypeRef,
    names: usize,
    types: usize,
) -> Result<(), OutOfMemory>
    ensures { OnOk result (waiting_extent waiting.new.items
        ≡ waiting_extent waiting.old.items + extent (tree_of tref.now)) }
{
    waiting.push(Waiting { tref, names, types })?;
    Ok(())
}

fn put_datatype<'a>(
    waiting: &mut Vec<Waiting<'a>>,
    datatype: &'a Datatype,
    names: usize,
    types: usize,
) -> Result<(), OutOfMemory>
    ensures { OnOk result (waiting_extent waiting.new.items + own_extent (datatype_tree datatype.now)
        ≡ waiting_extent waiting.old.items + extent (datatype_tree datatype.now)) }
{
    match datatype {
        Datatype::Record(record) => {
            put_members(waiting, record.members.as_slice(), names, types)?;
            Ok(())
        }
        Datatype::Variant(variant) => {
            put_payloads(waiting, variant.cases.as_slice(), names, types)?;
            Ok(())
        }
        Datatype::List(tref) => {
            put_one(waiting, tref, names, types)?;
            Ok(())
        }
        Datatype::Pointer(tref) => {
            put_one(waiting, tref, names, types)?;
            Ok(())
        }
        Datatype::ConstPointer(tref) => {
            put_one(waiting, tref, names, types)?;
            Ok(())
        }
        Datatype::Handle(_) => Ok(()),
        Datatype::Builtin(_) => Ok(()),
    }
}

fn put_members<'a>(
    waiting: &mut Vec<Waiting<'a>>,
    members: &'a [RecordMember],
    names: usize,
    types: usize,
) -> Result<(), OutOfMemory>
    ensures { OnOk result (waiting_extent waiting.new.items
        ≡ waiting_extent waiting.old.items + members_extent members.now) }
{
    for member in members {
        put_one(waiting, &member.tref, names, types)?;
    }
    Ok(())
}

fn put_payloads<'a>(
    waiting: &mut Vec<Waiting<'a>>,
    cases: &'a [Case],
    names: usize,
    types: usize,
) -> Result<(), OutOfMemory>
    ensures { OnOk result (waiting_extent waiting.new.items
        ≡ waiting_extent waiting.old.items + payloads_extent cases.now) }
{
    for case in cases {
        put_payload(waiting, case, names, types)?;
    }
    Ok(())
}

fn put_payload<'a>(
    waiting: &mut Vec<Waiting<'a>>,
    case: &'a Case,
    names: usize,
    types: usize,
) -> Result<(), OutOfMemory>
    ensures { OnOk result (waiting_extent waiting.new.items ≡ waiting_extent waiting.old.items + case_extent case.now) }
{
    match &case.tref {
        Some(tref) => {
            put_one(waiting, tref, names, types)?;
            Ok(())
        }
        None => Ok(()),
    }
}
