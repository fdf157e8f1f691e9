//! What a type shows where it is mentioned.

ghost use Rattle.std.specs.Prelude.{◌≤◌, OnOk};

use crate::allowance::Allowance;
use std::alloc::Global;
use witx_ast::{Datatype, RecordMember, TypeRef, Variant};
use witx_base::OutOfMemory;

/// What a line takes beside the names in it, in bytes.
const LINE: usize = 64;

/// What a type takes in a line that is no name, in bytes.
const UNNAMED: usize = 4;

/// A name that is looked through takes as much time as so many bytes.
const NAME: usize = 16;

/// A type that is still to be shown: the bytes of the path to it, and the number of lines that show it, which are its own
/// and those of all that it is a part of.
#[derive(Clone, Copy)]
struct Shown<'a> {
    tref: &'a TypeRef,
    path: usize,
    lines: usize,
}

impl Allowance {
    /// Takes what a type shows below a path of so many bytes, in bytes: each part that is written out has a line with its
    /// path and its whole type.
    pub fn take_shown(
        &mut self,
        alloc: Global,
        tref: &TypeRef,
        path: usize,
    ) -> Result<(), OutOfMemory> {
        let mut waiting = Vec::new(alloc);
        waiting.push(Shown {
            tref,
            path,
            lines: 1,
        })?;
        while let Some(next) = waiting.pop() {
            self.take_number(LINE)?;
            self.take_line(next)?;
            put_parts(&mut waiting, next)?;
        }
        Ok(())
    }

    /// Takes the names that a type is looked through, and gives the type behind them.
    pub fn take_names<'a>(&mut self, tref: &'a TypeRef) -> Result<&'a Datatype, OutOfMemory> {
        self.take_names_times(tref, 1)
    }

    fn take_names_times<'a>(
        &mut self,
        tref: &'a TypeRef,
        times: usize,
    ) -> Result<&'a Datatype, OutOfMemory>
        ensures { OnOk result (self.new.left ≤ self.old.left) }
    {
        let mut tref = tref;
        loop {
            match tref {
                TypeRef::Name(named) => {
                    self.take_number(NAME.saturating_mul(times))?;
                    tref = &named.tref;
                }
                TypeRef::Value(datatype) => return Ok(datatype),
            }
        }
    }

    // A list's target is looked through, since a list of characters is shown as a string.
    fn take_line(&mut self, one: Shown<'_>) -> Result<(), OutOfMemory>
        ensures { OnOk result (self.new.left ≤ self.old.left) }
    {
        self.take_number(one.path.saturating_mul(2))?;
        self.take_number(own_bytes(one.tref).saturating_mul(one.lines))?;
        match list_target(one.tref) {
            Some(target) => {
                self.take_names_times(target, one.lines)?;
                Ok(())
            }
            None => Ok(()),
        }
    }
}

/// The bytes that a type shows beside its parts: a name stands with a link.
fn own_bytes(tref: &TypeRef) -> usize {
    match tref {
        TypeRef::Name(named) => named.name.len().saturating_mul(2),
        TypeRef::Value(_) => UNNAMED,
    }
}

fn list_target(tref: &TypeRef) -> Option<&TypeRef> {
    match tref {
        TypeRef::Name(_) => None,
        TypeRef::Value(datatype) => match &**datatype {
            Datatype::List(target) => Some(target),
            _ => None,
        },
    }
}

/// Puts the parts of a type that is written out behind those that wait.
fn put_parts<'a>(waiting: &mut Vec<Shown<'a>>, one: Shown<'a>) -> Result<(), OutOfMemory> {
    match one.tref {
        TypeRef::Name(_) => Ok(()),
        TypeRef::Value(datatype) => put_datatype(waiting, one, datatype),
    }
}

fn put_datatype<'a>(
    waiting: &mut Vec<Shown<'a>>,
    one: Shown<'a>,
    datatype: &'a Datatype,
) -> Result<(), OutOfMemory> {
    match datatype {
        Datatype::Record(record) => put_members(waiting, one, record.members.as_slice()),
        Datatype::Variant(variant) => put_variant(waiting, one, variant),
        Datatype::List(tref) | Datatype::Pointer(tref) | Datatype::ConstPointer(tref) => {
            put_part(waiting, one, "", tref)
        }
        Datatype::Handle(_) | Datatype::Builtin(_) => Ok(()),
    }
}

/// Puts a part of this name.
fn put_part<'a>(
    waiting: &mut Vec<Shown<'a>>,
    whole: Shown<'a>,
    name: &str,
    tref: &'a TypeRef,
) -> Result<(), OutOfMemory> {
    waiting.push(Shown {
        tref,
        path: whole.path.saturating_add(name.len()).saturating_add(1),
        lines: whole.lines.saturating_add(1),
    })?;
    Ok(())
}

fn put_members<'a>(
    waiting: &mut Vec<Shown<'a>>,
    whole: Shown<'a>,
    members: &'a [RecordMember],
) -> Result<(), OutOfMemory> {
    for member in members {
        put_part(waiting, whole, member.name.as_str(), &member.tref)?;
    }
    Ok(())
}

// Of a truth value no case is shown.
fn put_variant<'a>(
    waiting: &mut Vec<Shown<'a>>,
    whole: Shown<'a>,
    variant: &'a Variant,
) -> Result<(), OutOfMemory> {
    if variant.is_bool() {
        return Ok(());
    }
    for case in variant.cases.as_slice() {
        if let Some(tref) = &case.tref {
            put_part(waiting, whole, case.name.as_str(), tref)?;
        }
    }
    Ok(())
}
