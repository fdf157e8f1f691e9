//! What lowering goes through, and its listing shows.

use crate::allowance::Allowance;
use std::alloc::Global;
use witx_ast::{
    Case, Datatype, Definition, Document, InterfaceFunc, InterfaceFuncParam, Module, RecordMember,
    TypeRef, Variant,
};
use witx_base::OutOfMemory;

/// A member of a tuple that is given back takes some eight events: as much time and memory as so many bytes.
const MEMBER: usize = 128;

/// Want of memory where what lowering goes through, and the listing shows beside its lines, is more than so many bytes:
/// the names that are looked through, the members of tuples that functions give back, the cases of variants, and the
/// bytes of names.
pub fn check_lowering(alloc: Global, document: &Document, most: usize) -> Result<(), OutOfMemory> {
    let mut allowance = Allowance::new(most, 0);
    for definition in document.definitions().as_slice() {
        match definition {
            Definition::Module(owner) => {
                take_functions(&mut allowance, alloc, owner)?;
                continue;
            }
            Definition::Typename(_) | Definition::Constant(_) => continue,
        }
    }
    Ok(())
}

fn take_functions(
    allowance: &mut Allowance,
    alloc: Global,
    owner: &Module,
) -> Result<(), OutOfMemory> {
    let name = owner.name.len();
    for func in owner.funcs() {
        take_function(allowance, alloc, name, func)?;
    }
    Ok(())
}

// The names of the module and the function stand in two lines.
fn take_function(
    allowance: &mut Allowance,
    alloc: Global,
    owner: usize,
    func: &InterfaceFunc,
) -> Result<(), OutOfMemory> {
    let names = owner.saturating_add(func.name.len());
    allowance.take_number(names.saturating_mul(2))?;
    for param in func.params.as_slice() {
        take_mention(allowance, alloc, &param.tref)?;
    }
    take_results(allowance, alloc, func.results.as_slice())
}

fn take_results(
    allowance: &mut Allowance,
    alloc: Global,
    results: &[InterfaceFuncParam],
) -> Result<(), OutOfMemory> {
    for result in results {
        let datatype = take_mention(allowance, alloc, &result.tref)?;
        if let Datatype::Variant(variant) = datatype {
            take_payloads(allowance, alloc, variant)?;
        }
    }
    Ok(())
}

// Takes a type where it is mentioned, and gives what stands behind its names.
fn take_mention<'a>(
    allowance: &mut Allowance,
    alloc: Global,
    tref: &'a TypeRef,
) -> Result<&'a Datatype, OutOfMemory> {
    allowance.take_number(name_bytes(tref))?;
    let datatype = allowance.take_names(tref)?;
    match datatype {
        Datatype::Variant(variant) => allowance.take_number(variant.cases.len())?,
        Datatype::List(target) | Datatype::Pointer(target) | Datatype::ConstPointer(target) => {
            allowance.take_shown(alloc, target, 0)?
        }
        Datatype::Record(_) | Datatype::Handle(_) | Datatype::Builtin(_) => {}
    }
    Ok(datatype)
}

// A name stands in two or three lines.
fn name_bytes(tref: &TypeRef) -> usize {
    match tref {
        TypeRef::Name(named) => named.name.len().saturating_mul(3),
        TypeRef::Value(_) => 0,
    }
}

// Only a result of two cases is lowered.
fn take_payloads(
    allowance: &mut Allowance,
    alloc: Global,
    variant: &Variant,
) -> Result<(), OutOfMemory> {
    match variant.cases.as_slice() {
        [ok, err] => {
            take_payload(allowance, alloc, ok)?;
            take_payload(allowance, alloc, err)
        }
        _ => Ok(()),
    }
}

fn take_payload(allowance: &mut Allowance, alloc: Global, case: &Case) -> Result<(), OutOfMemory> {
    let Some(tref) = &case.tref else {
        return Ok(());
    };
    match take_mention(allowance, alloc, tref)? {
        Datatype::Record(record) if record.is_tuple() => {
            take_members(allowance, record.members.as_slice())
        }
        _ => Ok(()),
    }
}

fn take_members(allowance: &mut Allowance, members: &[RecordMember]) -> Result<(), OutOfMemory> {
    for member in members {
        allowance.take_number(MEMBER)?;
        allowance.take_number(name_bytes(&member.tref))?;
    }
    Ok(())
}
