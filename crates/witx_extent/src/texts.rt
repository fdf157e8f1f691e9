//! What a type says beside its structure.
#![tactic(auto, using(crate::proofs::Counting::extent_rules))]

ghost use Rattle.witx_ast.specs.Views.{tree_of};
ghost use Rattle.witx_extent.specs.Extents.{TakesOff, extent};

use crate::allowance::Allowance;
use crate::parts::{first_waiting, put_parts};
use std::alloc::Global;
use witx_ast::{Case, Datatype, RecordMember, TypeRef};
use witx_base::OutOfMemory;

impl Allowance {
    /// Takes what there is to a type, as `take` does, and in the same walk takes off `texts` one for each name and each type
    /// that is written out, at each of its mentions, and the bytes of the names and of the documentation in it. Want of
    /// memory also where that is more than is left there.
    pub fn take_with_texts(
        &mut self,
        texts: &mut Allowance,
        alloc: Global,
        tref: &TypeRef,
    ) -> Result<(), OutOfMemory>
        ensures { TakesOff result self.old self.new (extent (tree_of tref.now)) }
    {
        let mut waiting = first_waiting(alloc, tref)?;
        while let Some(next) = waiting.pop() {
            self.take_one(next)?;
            texts.take_number(said_bytes(next.tref))?;
            put_parts(&mut waiting, next)?;
        }
        Ok(())
    }
}

// One, and those of a type beside its parts.
fn said_bytes(tref: &TypeRef) -> usize {
    own_bytes(tref).saturating_add(1)
}

fn own_bytes(tref: &TypeRef) -> usize {
    match tref {
        TypeRef::Name(named) => text_bytes(named.name.as_str(), named.docs.as_str()),
        TypeRef::Value(datatype) => match &**datatype {
            Datatype::Record(record) => members_bytes(record.members.as_slice()),
            Datatype::Variant(variant) => cases_bytes(variant.cases.as_slice()),
            _ => 0,
        },
    }
}

fn text_bytes(name: &str, docs: &str) -> usize {
    name.len().saturating_add(docs.len())
}

fn members_bytes(members: &[RecordMember]) -> usize {
    let mut bytes = 0usize;
    for member in members {
        bytes = bytes.saturating_add(text_bytes(member.name.as_str(), member.docs.as_str()));
    }
    bytes
}

fn cases_bytes(cases: &[Case]) -> usize {
    let mut bytes = 0usize;
    for case in cases {
        bytes = bytes.saturating_add(text_bytes(case.name.as_str(), case.docs.as_str()));
    }
    bytes
}
