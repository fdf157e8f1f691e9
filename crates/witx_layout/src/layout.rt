//! Sizes and alignments of types, whose names are looked through, and where a payload begins.
#![tactic(auto, using(crate::proofs::Onward::layout_rules))]

ghost use Rattle.std.specs.Prelude.{◌≡◌, ◌≤◌, ◌<◌, ◌^◌, IfOk, IsErr, ◌↔◌};
ghost use Rattle.witx_layout.specs.Layouts.{MeasuresMembers, MeasuresPayloads};
ghost use Rattle.witx_layout.specs.Numbers.{size_of, align_of, members_align, payloads_align, payload_offset as begin_of_payload};
ghost use Rattle.witx_ast.specs.Plain.{Plain, Arms, plain, builtin, handle};
ghost use Rattle.witx_ast.specs.Views.{tree_of, datatype_tree, named_tree, record_tree, variant_tree};
ghost use Rattle.witx_ast.specs.{Words.{repr_builtin}, Views.{members_plain, cases_plain}};
ghost use Rattle.witx_ast.specs.declared.types.IntRepr.{IntRepr};

use crate::rounding::{followed_by, greater, padded, tagged};
use witx_ast::{
    BuiltinType, Case, Datatype, HandleDatatype, IntRepr, NamedType, RecordDatatype, RecordKind,
    RecordMember, TypeRef, Variant,
};
use witx_base::{Duplicate, OutOfMemory};

/// A size and an alignment, in bytes.
#[derive(Clone, Copy, PartialEq, Eq, Hash, PartialOrd, Ord, Debug)]
pub struct SizeAlign {
    pub size: usize,
    pub align: usize,
}

impl Duplicate for SizeAlign {
    ghost is_copy = { λ layout made. made ≡ layout };

    fn copy(&self) -> Result<SizeAlign, OutOfMemory> {
        Ok(*self)
    }
}

/// The exact number exceeds `usize::MAX`.
#[derive(Clone, Copy, PartialEq, Eq)]
pub struct TooLarge;

/// The layout of a type in linear memory.
///
/// Scalars are as wide as they say and aligned to their width; handles and pointers are words of
/// four bytes, a list is a pointer and a length. Members follow each other, each at the next
/// multiple of its alignment; a variant is its tag and behind it the payload; a whole is as aligned
/// as its most aligned part, and its size is a multiple of that.
pub trait Layout {
    /// The type with its names looked through.
    ghost plain_tree: { Self → Plain };

    /// The size and the alignment.
    fn mem_size_align(&self) -> Result<SizeAlign, TooLarge>
        ensures exact { IfOk result (λ v. (v.size ≡ size_of (plain_tree self.now))
            × (v.align ≡ align_of (plain_tree self.now))) }
        ensures too_large { IsErr result ↔ (2 ^ 64 ≤ size_of (plain_tree self.now)) };

    /// The size.
    fn mem_size(&self) -> Result<usize, TooLarge>
        ensures exact { IfOk result (λ size. size ≡ size_of (plain_tree self.now)) }
        ensures too_large { IsErr result ↔ (2 ^ 64 ≤ size_of (plain_tree self.now)) }
    {
        Ok(self.mem_size_align()?.size)
    }

    /// The alignment, a power of two from 1 to 8.
    fn mem_align(&self) -> usize
        ensures { result ≡ align_of (plain_tree self.now) };
}

impl Layout for BuiltinType {
    ghost plain_tree = { builtin };

    fn mem_size_align(&self) -> Result<SizeAlign, TooLarge> {
        Ok(scalar(self.mem_align()))
    }

    fn mem_align(&self) -> usize {
        match self {
            BuiltinType::U8 { lang_c_char: _ } | BuiltinType::S8 => 1,
            BuiltinType::U16 | BuiltinType::S16 => 2,
            BuiltinType::Char
            | BuiltinType::U32 { lang_ptr_size: _ }
            | BuiltinType::S32
            | BuiltinType::F32 => 4,
            BuiltinType::U64 | BuiltinType::S64 | BuiltinType::F64 => 8,
        }
    }
}

impl Layout for IntRepr {
    ghost plain_tree = { λ r. builtin (repr_builtin r) };

    fn mem_size_align(&self) -> Result<SizeAlign, TooLarge> {
        Ok(scalar(self.mem_align()))
    }

    fn mem_align(&self) -> usize {
        self.to_builtin().mem_align()
    }
}

impl Layout for HandleDatatype {
    ghost plain_tree = { λ _. handle };

    fn mem_size_align(&self) -> Result<SizeAlign, TooLarge> {
        Ok(scalar(self.mem_align()))
    }

    fn mem_align(&self) -> usize {
        4
    }
}

/// A value that is as wide as it is aligned.
fn scalar(width: usize) -> SizeAlign
    ensures size { result.size ≡ width }
    ensures align { result.align ≡ width }
{
    SizeAlign {
        size: width,
        align: width,
    }
}

impl Layout for TypeRef {
    ghost plain_tree = { λ t. plain (tree_of t) };

    #[cycle(layout)]
    fn mem_size_align(&self) -> Result<SizeAlign, TooLarge> {
        match self {
            TypeRef::Name(named) => named.mem_size_align(),
            TypeRef::Value(datatype) => datatype.mem_size_align(),
        }
    }

    #[cycle(align)]
    fn mem_align(&self) -> usize {
        match self {
            TypeRef::Name(named) => named.mem_align(),
            TypeRef::Value(datatype) => datatype.mem_align(),
        }
    }
}

impl Layout for NamedType {
    ghost plain_tree = { λ n. plain (named_tree n) };

    #[cycle(layout)]
    fn mem_size_align(&self) -> Result<SizeAlign, TooLarge> {
        self.tref.mem_size_align()
    }

    #[cycle(align)]
    fn mem_align(&self) -> usize {
        self.tref.mem_align()
    }
}

impl Layout for Datatype {
    ghost plain_tree = { λ d. plain (datatype_tree d) };

    #[cycle(layout)]
    fn mem_size_align(&self) -> Result<SizeAlign, TooLarge> {
        match self {
            Datatype::Record(record) => record.mem_size_align(),
            Datatype::Variant(variant) => variant.mem_size_align(),
            Datatype::Handle(handle) => handle.mem_size_align(),
            Datatype::List(_) => Ok(SizeAlign { size: 8, align: 4 }),
            Datatype::Pointer(_) | Datatype::ConstPointer(_) => Ok(scalar(4)),
            Datatype::Builtin(builtin) => builtin.mem_size_align(),
        }
    }

    #[cycle(align)]
    fn mem_align(&self) -> usize {
        match self {
            Datatype::Record(record) => record.mem_align(),
            Datatype::Variant(variant) => variant.mem_align(),
            Datatype::Handle(handle) => handle.mem_align(),
            Datatype::List(_) | Datatype::Pointer(_) | Datatype::ConstPointer(_) => 4,
            Datatype::Builtin(builtin) => builtin.mem_align(),
        }
    }
}

impl Layout for RecordDatatype {
    ghost plain_tree = { λ r. plain (record_tree r) };

    #[cycle(layout)]
    fn mem_size_align(&self) -> Result<SizeAlign, TooLarge> {
        if let RecordKind::Bitflags(repr) = self.kind {
            return repr.mem_size_align();
        }
        let members = members_layout(self.members.as_slice())?;
        padded(members)
    }

    #[cycle(align)]
    fn mem_align(&self) -> usize {
        if let RecordKind::Bitflags(repr) = self.kind {
            return repr.mem_align();
        }
        greatest_member_align(self.members.as_slice())
    }
}

impl Layout for Variant {
    ghost plain_tree = { λ v. plain (variant_tree v) };

    #[cycle(layout)]
    fn mem_size_align(&self) -> Result<SizeAlign, TooLarge> {
        let tag = scalar(self.tag_repr.mem_align());
        let payload = greatest_payload(self.cases.as_slice())?;
        tagged(tag, payload)
    }

    #[cycle(align)]
    fn mem_align(&self) -> usize {
        greater(
            self.tag_repr.mem_align(),
            greatest_payload_align(self.cases.as_slice()),
        )
    }
}

/// Where the members end, one after the other from 0 on, and their greatest alignment.
#[cycle(layout)]
fn members_layout(members: &[RecordMember]) -> Result<SizeAlign, TooLarge>
    ensures { MeasuresMembers members.now result }
{
    let mut reached = SizeAlign { size: 0, align: 1 };
    for member in members {
        let part = member.tref.mem_size_align()?;
        reached = followed_by(reached, part)?;
    }
    Ok(reached)
}

/// The greatest size and the greatest alignment of a payload.
#[cycle(layout)]
fn greatest_payload(cases: &[Case]) -> Result<SizeAlign, TooLarge>
    ensures { MeasuresPayloads cases.now result }
{
    let mut greatest = SizeAlign { size: 0, align: 1 };
    for case in cases {
        if let Some(tref) = &case.tref {
            let payload = tref.mem_size_align()?;
            greatest = SizeAlign {
                size: greater(greatest.size, payload.size),
                align: greater(greatest.align, payload.align),
            };
        }
    }
    Ok(greatest)
}

#[cycle(align)]
fn greatest_member_align(members: &[RecordMember]) -> usize
    ensures { result ≡ members_align (members_plain members.now) }
{
    let mut greatest = 1;
    for member in members {
        greatest = greater(greatest, member.tref.mem_align());
    }
    greatest
}

#[cycle(align)]
fn greatest_payload_align(cases: &[Case]) -> usize
    ensures { result ≡ payloads_align (cases_plain cases.now) }
{
    let mut greatest = 1;
    for case in cases {
        if let Some(tref) = &case.tref {
            greatest = greater(greatest, tref.mem_align());
        }
    }
    greatest
}

/// Where a variant's payload begins.
pub trait VariantOffset {
    /// The tag and the cases.
    ghost tag: { Self → IntRepr };

    ghost plain_cases: { Self → Arms };

    /// The offset of the payload behind the tag, the same for each case.
    fn payload_offset(&self) -> usize
        ensures offset { result ≡ begin_of_payload (tag self.now) (plain_cases self.now) }
        ensures bound { result ≤ 8 };
}

impl VariantOffset for Variant {
    ghost use Rattle.witx_ast.specs.{declared.types.Variant.{out-Variant}, Views.{cases_plain}};

    ghost tag = { λ v. (out-Variant v).tag_repr };

    ghost plain_cases = { λ v. cases_plain (out-Variant v).cases };

    #[tactic(auto, using(crate::proofs::Onward::offset_rules))]
    fn payload_offset(&self) -> usize {
        let tag = self.tag_repr.mem_align();
        let align = greatest_payload_align(self.cases.as_slice());
        tag + (align - tag % align) % align
    }
}
