//! Sizes, alignments and offsets of types, by each call.

ghost use Rattle.std.specs.Prelude.{◌≡◌, ◌<◌, IfSome, map};
ghost use Rattle.witx_ast.specs.{Definitions.{definition_tree}, Ordered.{IsOrdered}};

use std::alloc::Global;
use std::marker::Brand;
use std::sync::ledger::{Blank, Ledger};
use witx::parse;
use witx_ast::{Datatype, Document, NamedType, RecordDatatype};
use witx_fixtures::built_text;
use witx_fixtures_run::typename_of;
use witx_layout::{
    Layout, LayoutError, LayoutsError, RecordMembers, SizeAlign, SizeAligns, Steps, VariantOffset,
    layouts,
};

/// A record of an enum on u32, twice a u64, and flags on u16.
const CLOCK: &str = "\
(typename $id (enum (@witx tag u32) $a $b $c $d))
(typename $options (flags (@witx repr u16) $a))
(typename $t (record (field $a $id) (field $b u64) (field $c u64) (field $d $options)))";

/// A union of a clock and a record of one handle.
const EVENT: &str = "\
(typename $id (enum (@witx tag u32) $a $b $c $d))
(typename $options (flags (@witx repr u16) $a))
(typename $clock (record (field $a $id) (field $b u64) (field $c u64) (field $d $options)))
(typename $handle (handle))
(typename $file (record (field $a $handle)))
(typename $t (union (@witx tag u8) $clock $file))";

/// A variant of five bytes, and of a word.
const UNEVEN: &str = "\
(typename $bytes (record (field $a u8) (field $b u8) (field $c u8) (field $d u8) (field $e u8)))
(typename $t (variant (@witx tag u8) (case $a $bytes) (case $b u32)))";

/// A byte, a word and two bytes.
const MIXED: &str = "(typename $t (record (field $m u8) (field $n u32) (field $o u16)))";

/// A u64 in pairs of pairs, ten times.
const TEN_DOUBLINGS: &str = "\
(typename $t1 (tuple u64 u64))
(typename $t2 (tuple $t1 $t1))
(typename $t3 (tuple $t2 $t2))
(typename $t4 (tuple $t3 $t3))
(typename $t5 (tuple $t4 $t4))
(typename $t6 (tuple $t5 $t5))
(typename $t7 (tuple $t6 $t6))
(typename $t8 (tuple $t7 $t7))
(typename $t9 (tuple $t8 $t8))
(typename $t (tuple $t9 $t9))";

/// Texts, the size and the alignment of `t`, and the offset of its payload, if it is a variant.
static SIZES: &[(&str, usize, usize, Option<usize>)] = &[
    (CLOCK, 32, 8, None),
    (MIXED, 12, 4, None),
    (TEN_DOUBLINGS, 8192, 8, None),
    ("(typename $t (tuple))", 0, 1, None),
    (EVENT, 40, 8, Some(8)),
    (UNEVEN, 12, 4, Some(4)),
    ("(typename $t (variant (@witx tag u64)))", 8, 8, Some(8)),
    ("(typename $t u8)", 1, 1, None),
    ("(typename $t s16)", 2, 2, None),
    ("(typename $t char)", 4, 4, None),
    ("(typename $t f64)", 8, 8, None),
    ("(typename $t (handle))", 4, 4, None),
    ("(typename $t (list u64))", 8, 4, None),
    ("(typename $t (@witx pointer u64))", 4, 4, None),
    ("(typename $t (@witx const_pointer u64))", 4, 4, None),
];

fn has<L: Layout>(layout: &L, size: usize, align: usize) -> bool {
    layout.mem_size_align() == Ok(SizeAlign { size, align })
        && layout.mem_size() == Ok(size)
        && layout.mem_align() == align
}

fn datatype_has(datatype: &Datatype, size: usize, align: usize, payload: Option<usize>) -> bool {
    match datatype {
        Datatype::Record(record) => payload.is_none() && has(record, size, align),
        Datatype::Variant(variant) => {
            payload == Some(variant.payload_offset()) && has(variant, size, align)
        }
        _ => payload.is_none() && has(datatype, size, align),
    }
}

fn named_has(named: &NamedType, size: usize, align: usize, payload: Option<usize>) -> bool {
    has(named, size, align)
        && has(&named.tref, size, align)
        && datatype_has(named.type_(), size, align, payload)
}

fn text_has(
    alloc: Global,
    &(text, size, align, payload): &(&str, usize, usize, Option<usize>),
) -> bool {
    match typename_of(alloc, text) {
        Some(named) => named_has(&named, size, align, payload),
        None => false,
    }
}

#[test]
fn sizes(rt: HostRuntime) {
    let alloc = rt.alloc();
    assert!(rt; SIZES.iter().all(|row| text_has(alloc, row)));
}

/// Texts, how many typenames they have, and the size and the alignment of the last one.
static COUNTED: &[(&str, usize, usize, usize)] = &[
    (CLOCK, 3, 32, 8),
    (EVENT, 6, 40, 8),
    (TEN_DOUBLINGS, 10, 8192, 8),
    ("(module $m)", 0, 0, 0),
];

/// The document of a text, which is ordered.
fn ordered_document(alloc: Global, text: &str) -> Option<Document>
    ensures { IfSome result (λ document. IsOrdered (map definition_tree document.definitions)) }
{
    match parse(alloc, text) {
        Ok(document) => Some(document),
        Err(refusal) => {
            drop(refusal);
            None
        }
    }
}

/// The layouts of an ordered document, whose steps a new ledger counts.
fn counted_layouts<L: Ledger>(
    alloc: Global,
    document: &Document,
    blank: Blank,
) -> Result<SizeAligns, LayoutsError>
    requires ordered { IsOrdered (map definition_tree document.now.definitions) }
    requires name { blank.name ≡ L.name }
    requires parts { blank.parts ≡ L.parts }
    requires some { 0 < blank.parts }
{
    let mut steps = Steps::<L>::new(blank);
    layouts(alloc, document, &mut steps)
}

fn end_with(layouts: &[SizeAlign], len: usize, size: usize, align: usize) -> bool {
    match layouts.last() {
        Some(last) => layouts.len() == len && last.size == size && last.align == align,
        None => len == 0,
    }
}

fn document_is_counted(
    alloc: Global,
    document: &Document,
    len: usize,
    size: usize,
    align: usize,
) -> bool
    requires { IsOrdered (map definition_tree document.now.definitions) }
{
    match counted_layouts::<Brand>(alloc, document, Blank::new(1)) {
        Ok(layouts) => end_with(layouts.as_slice(), len, size, align),
        Err(_) => false,
    }
}

fn text_is_counted(alloc: Global, &(text, len, size, align): &(&str, usize, usize, usize)) -> bool {
    match ordered_document(alloc, text) {
        Some(document) => document_is_counted(alloc, &document, len, size, align),
        None => false,
    }
}

#[test]
fn layouts_are_counted(rt: HostRuntime) {
    let alloc = rt.alloc();
    assert!(rt; COUNTED.iter().all(|row| text_is_counted(alloc, row)));
}

/// Whether there are so many members, of which the last begins there.
fn ends_at(
    alloc: Global,
    record: &RecordDatatype,
    len: usize,
    offset: usize,
) -> Result<bool, LayoutError> {
    let layouts = record.member_layout(alloc)?;
    let last = layouts.as_slice().last();
    Ok(layouts.len() == len && last.map(|member| member.offset) == Some(offset))
}

fn named_ends_at(alloc: Global, named: &NamedType, len: usize, offset: usize) -> bool {
    match &**named.type_() {
        Datatype::Record(record) => ends_at(alloc, record, len, offset).unwrap_or(false),
        _ => false,
    }
}

/// More flags than their number has bits: it has its own size, and each has an offset, as a `bool` of four bytes.
fn flags_have_members(alloc: Global) -> Option<bool> {
    let pieces = [
        ("(typename $t (flags (@witx repr u64)", 1),
        (" $x#", 65),
        ("))", 1),
    ];
    let text = built_text(alloc, &pieces).ok()?;
    let named = typename_of(alloc, text.as_str())?;
    Some(named_has(&named, 8, 8, None) && named_ends_at(alloc, &named, 65, 256))
}

#[test]
fn members_of_flags(rt: HostRuntime) {
    assert!(rt; flags_have_members(rt.alloc()).unwrap_or(false));
}
