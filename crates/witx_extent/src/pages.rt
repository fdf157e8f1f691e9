//! What the page of a document and the list of its layouts show.

use crate::allowance::Allowance;
use std::alloc::Global;
use witx_ast::{
    Datatype, Definition, Document, InterfaceFunc, InterfaceFuncParam, Module, NamedType,
    RecordMember, TypeRef,
};
use witx_base::{Duplicate, NameMap, OutOfMemory};

/// What the line of a member's layout takes beside its name, in bytes.
const FIELD: usize = 24;

/// Want of memory where the types of a document show more than so many bytes on its page: each part that is written out
/// has a line with its path and its whole type.
pub fn check_page(alloc: Global, document: &Document, most: usize) -> Result<(), OutOfMemory> {
    let mut allowance = Allowance::new(most, 0);
    for definition in document.definitions().as_slice() {
        take_definition(&mut allowance, alloc, definition)?;
    }
    Ok(())
}

fn take_definition(
    allowance: &mut Allowance,
    alloc: Global,
    definition: &Definition,
) -> Result<(), OutOfMemory> {
    match definition {
        Definition::Typename(named) => {
            allowance.take_shown(alloc, &named.tref, named.name.len())
        }
        Definition::Module(owner) => take_functions(allowance, alloc, owner),
        Definition::Constant(_) => Ok(()),
    }
}

fn take_functions(
    allowance: &mut Allowance,
    alloc: Global,
    owner: &Module,
) -> Result<(), OutOfMemory> {
    for func in owner.funcs() {
        take_function(allowance, alloc, func)?;
    }
    Ok(())
}

fn take_function(
    allowance: &mut Allowance,
    alloc: Global,
    func: &InterfaceFunc,
) -> Result<(), OutOfMemory> {
    let path = func.name.len();
    take_params(allowance, alloc, func.params.as_slice(), path)?;
    take_params(allowance, alloc, func.results.as_slice(), path)
}

fn take_params(
    allowance: &mut Allowance,
    alloc: Global,
    params: &[InterfaceFuncParam],
    path: usize,
) -> Result<(), OutOfMemory> {
    for param in params {
        let inner = path.saturating_add(param.name.len());
        allowance.take_shown(alloc, &param.tref, inner)?;
    }
    Ok(())
}

/// Want of memory where the layouts of a document's typenames show more than so many bytes below their lines: a name
/// shows the members of the record that it stands for.
pub fn check_layouts(alloc: Global, document: &Document, most: usize) -> Result<(), OutOfMemory> {
    let mut allowance = Allowance::new(most, 0);
    let mut known = NameMap::new(alloc);
    for definition in document.definitions().as_slice() {
        match definition {
            Definition::Typename(named) => {
                take_layout(&mut allowance, &mut known, named)?;
                continue;
            }
            Definition::Module(_) | Definition::Constant(_) => continue,
        }
    }
    Ok(())
}

// What each name shows is kept, where it shows something.
fn take_layout(
    allowance: &mut Allowance,
    known: &mut NameMap<usize>,
    named: &NamedType,
) -> Result<(), OutOfMemory> {
    let bytes = layout_bytes(known, &named.tref);
    if bytes == 0 {
        return Ok(());
    }
    allowance.take_number(bytes)?;
    known.insert(named.name.copy()?, bytes)
}

fn layout_bytes(known: &NameMap<usize>, tref: &TypeRef) -> usize {
    match tref {
        TypeRef::Name(named) => known.get(&named.name).copied().unwrap_or(0),
        TypeRef::Value(datatype) => match &**datatype {
            Datatype::Record(record) => members_bytes(record.members.as_slice()),
            _ => 0,
        },
    }
}

fn members_bytes(members: &[RecordMember]) -> usize {
    let mut bytes = 0usize;
    for member in members {
        bytes = bytes
            .saturating_add(member.name.len())
            .saturating_add(FIELD);
    }
    bytes
}
