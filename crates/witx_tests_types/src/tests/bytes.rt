//! Values in a memory of bytes: images with their padding, bytes that spell nothing, and ranges.

use std::alloc::Global;
use witx_ast::{BuiltinType, TypeRef};
use witx_bytes::{
    ByteMemory, PlaceError, ReadError, Value, is_value, read_value, writable, write_value,
};
use witx_fixtures_run::typename_of;
use witx_layout::Layout;

/// A byte of an image that stands for padding.
const PAD: u16 = 256;

/// Where images are read, and where copies are written and read: across an address that is a multiple of
/// 256, behind a byte of which nothing is copied.
const IMAGE: u32 = 16;

const BEFORE: u32 = 510;

const COPY: u32 = 511;

/// A variant of five bytes, and of a word.
const UNEVEN: &str = "\
(typename $bytes (record (field $a u8) (field $b u8) (field $c u8) (field $d u8) (field $e u8)))
(typename $t (variant (@witx tag u8) (case $a $bytes) (case $b u32)))";

/// A result whose payloads are eight bytes and two.
const RESULT: &str = "\
(typename $e (enum (@witx tag u16) $x $y))
(typename $t (expected u64 (error $e)))";

/// Types, images of values, and these values as `Debug` prints them.
static IMAGES: &[(&str, &[u16], &str)] = &[
    (
        "(typename $t u8)",
        &[255],
        "Num(U8 { lang_c_char: false }, 255)",
    ),
    (
        "(typename $t (@witx char8))",
        &[65],
        "Num(U8 { lang_c_char: true }, 65)",
    ),
    ("(typename $t u16)", &[255, 255], "Num(U16, 65535)"),
    (
        "(typename $t u32)",
        &[0, 0, 0, 128],
        "Num(U32 { lang_ptr_size: false }, 2147483648)",
    ),
    (
        "(typename $t (@witx usize))",
        &[1, 2, 3, 4],
        "Num(U32 { lang_ptr_size: true }, 67305985)",
    ),
    (
        "(typename $t u64)",
        &[255, 255, 255, 255, 255, 255, 255, 255],
        "Num(U64, 18446744073709551615)",
    ),
    ("(typename $t s8)", &[128], "Num(S8, -128)"),
    ("(typename $t s8)", &[127], "Num(S8, 127)"),
    ("(typename $t s16)", &[254, 255], "Num(S16, -2)"),
    (
        "(typename $t s32)",
        &[0, 0, 0, 128],
        "Num(S32, -2147483648)",
    ),
    (
        "(typename $t s64)",
        &[0, 0, 0, 0, 0, 0, 0, 128],
        "Num(S64, -9223372036854775808)",
    ),
    (
        "(typename $t s64)",
        &[255, 255, 255, 255, 255, 255, 255, 127],
        "Num(S64, 9223372036854775807)",
    ),
    (
        "(typename $t f32)",
        &[1, 0, 128, 127],
        "Num(F32, 2139095041)",
    ),
    (
        "(typename $t f64)",
        &[0, 0, 0, 0, 0, 0, 240, 63],
        "Num(F64, 4607182418800017408)",
    ),
    ("(typename $t char)", &[255, 215, 0, 0], "Num(Char, 55295)"),
    ("(typename $t char)", &[0, 224, 0, 0], "Num(Char, 57344)"),
    (
        "(typename $t char)",
        &[255, 255, 16, 0],
        "Num(Char, 1114111)",
    ),
    (
        "(typename $t (handle))",
        &[7, 0, 0, 255],
        "Handle(4278190087)",
    ),
    (
        "(typename $t (list u64))",
        &[16, 0, 0, 0, 3, 0, 0, 0],
        "List { address: 16, length: 3 }",
    ),
    (
        "(typename $t (@witx pointer u64))",
        &[0, 1, 0, 0],
        "Pointer(256)",
    ),
    (
        "(typename $t (@witx const_pointer u64))",
        &[0, 0, 1, 0],
        "ConstPointer(65536)",
    ),
    (
        "(typename $t (flags (@witx repr u16) $a $b $c))",
        &[5, 0],
        "Flags(Items { items: [true, false, true] })",
    ),
    (
        "(typename $t (flags (@witx repr u8) $a $b $c $d $e $f $g $h))",
        &[129],
        "Flags(Items { items: [true, false, false, false, false, false, false, true] })",
    ),
    (
        "(typename $t (flags (@witx repr u64) $a $b))",
        &[2, 0, 0, 0, 0, 0, 0, 0],
        "Flags(Items { items: [false, true] })",
    ),
    (
        "(typename $t (tuple u16 s8))",
        &[1, 2, 255, PAD],
        "Tuple(Items { items: [Num(U16, 513), Num(S8, -1)] })",
    ),
    ("(typename $t (tuple))", &[], "Tuple(Items { items: [] })"),
    (
        "(typename $t (record (field $m s8) (field $n s32) (field $o u16)))",
        &[1, PAD, PAD, PAD, 2, 0, 0, 0, 3, 0, PAD, PAD],
        "Rec(Items { items: [Num(S8, 1), Num(S32, 2), Num(U16, 3)] })",
    ),
    // Names are looked through, and a member of no size has a place.
    (
        "(typename $a (tuple)) (typename $b $a) (typename $c s16) (typename $t (tuple $b $c $b))",
        &[9, 0],
        "Tuple(Items { items: [Tuple(Items { items: [] }), Num(S16, 9), Tuple(Items { items: [] })] })",
    ),
    ("(typename $t (enum (@witx tag u8) $a $b))", &[1], "Enum(1)"),
    (
        "(typename $t (enum (@witx tag u64) $a $b))",
        &[1, 0, 0, 0, 0, 0, 0, 0],
        "Enum(1)",
    ),
    ("(typename $t bool)", &[1, 0, 0, 0], "Enum(1)"),
    (
        "(typename $t (variant (@witx tag u8) (case $a) (case $b s16)))",
        &[0, PAD, PAD, PAD],
        "Case(0, None)",
    ),
    (
        "(typename $t (variant (@witx tag u8) (case $a) (case $b s16)))",
        &[1, PAD, 2, 0],
        "Case(1, Some(Num(S16, 2)))",
    ),
    (
        UNEVEN,
        &[1, PAD, PAD, PAD, 2, 1, 0, 0, PAD, PAD, PAD, PAD],
        "Case(1, Some(Num(U32 { lang_ptr_size: false }, 258)))",
    ),
    (
        UNEVEN,
        &[0, PAD, PAD, PAD, 1, 2, 3, 4, 5, PAD, PAD, PAD],
        "Case(0, Some(Rec(Items { items: [Num(U8 { lang_c_char: false }, 1), Num(U8 { lang_c_char: false }, 2), \
         Num(U8 { lang_c_char: false }, 3), Num(U8 { lang_c_char: false }, 4), Num(U8 { lang_c_char: false }, 5)] })))",
    ),
    (
        RESULT,
        &[0, 0, 0, 0, PAD, PAD, PAD, PAD, 5, 0, 0, 0, 0, 0, 0, 0],
        "Case(0, Some(Num(U64, 5)))",
    ),
    (
        RESULT,
        &[
            1, 0, 0, 0, PAD, PAD, PAD, PAD, 1, 0, PAD, PAD, PAD, PAD, PAD, PAD,
        ],
        "Case(1, Some(Enum(1)))",
    ),
];

/// Sets a byte that is held.
fn poke(memory: &mut ByteMemory, unit: &TypeRef, at: u32, byte: u8) -> bool {
    let value = Value::Num(BuiltinType::U8 { lang_c_char: false }, byte as i128);
    written(memory, at, unit, &value)
}

/// Writes where that may be done.
fn written(memory: &mut ByteMemory, at: u32, ty: &TypeRef, value: &Value) -> bool {
    let Ok(size) = ty.mem_size() else {
        return false;
    };
    if !is_value(ty, value) || !writable(ty) || !memory.holds(at, size as u64) {
        return false;
    }
    write_value(memory, at, ty, value);
    true
}

/// Reads where that may be done.
fn found(
    alloc: Global,
    memory: &ByteMemory,
    at: u32,
    ty: &TypeRef,
) -> Option<Result<Value, ReadError>> {
    if ty.mem_size().is_err() || !writable(ty) {
        return None;
    }
    Some(read_value(alloc, memory, at, ty))
}

/// Sets bytes, and another one in place of each that is padding.
fn fill(memory: &mut ByteMemory, unit: &TypeRef, at: u32, image: &[u16], padding: u8) -> bool {
    let mut next = at;
    for byte in image {
        if !poke(memory, unit, next, u8::try_from(*byte).unwrap_or(padding)) {
            return false;
        }
        next = next.saturating_add(1);
    }
    true
}

/// Where bytes that stand there end.
fn end_of(memory: &ByteMemory, at: u32, image: &[u16], padding: u8) -> Option<u32> {
    let mut next = at;
    for byte in image {
        if memory.byte(next) != Some(u8::try_from(*byte).unwrap_or(padding)) {
            return None;
        }
        next = next.saturating_add(1);
    }
    Some(next)
}

fn is_printed(alloc: Global, value: &Value, wanted: &str) -> bool {
    match format!(in alloc; "{value:?}") {
        Ok(text) => text.as_str() == wanted,
        Err(_) => false,
    }
}

fn value_at(alloc: Global, memory: &ByteMemory, at: u32, ty: &TypeRef) -> Option<Value> {
    found(alloc, memory, at, ty)?.ok()
}

fn reads(alloc: Global, memory: &ByteMemory, at: u32, ty: &TypeRef, wanted: &str) -> bool {
    value_at(alloc, memory, at, ty).is_some_and(|value| is_printed(alloc, &value, wanted))
}

/// Whether the value of the typename `t` of a text is printed so.
fn text_reads(alloc: Global, memory: &ByteMemory, at: u32, text: &str, wanted: &str) -> bool {
    typename_of(alloc, text).is_some_and(|named| reads(alloc, memory, at, &named.tref, wanted))
}

fn has_no_value(alloc: Global, memory: &ByteMemory, at: u32, ty: &TypeRef) -> bool {
    found(alloc, memory, at, ty).is_some_and(|read| read.err() == Some(ReadError::NoValue))
}

fn text_has_no_value(alloc: Global, memory: &ByteMemory, at: u32, text: &str) -> bool {
    typename_of(alloc, text).is_some_and(|named| has_no_value(alloc, memory, at, &named.tref))
}

fn reads_again(alloc: Global, memory: &ByteMemory, ty: &TypeRef, value: &Value) -> bool {
    value_at(alloc, memory, COPY, ty).is_some_and(|again| again == *value)
}

fn is_put(alloc: Global, memory: &mut ByteMemory, ty: &TypeRef, value: &Value) -> bool {
    written(memory, COPY, ty, value) && reads_again(alloc, memory, ty, value)
}

fn is_between(memory: &ByteMemory, image: &[u16]) -> bool {
    match end_of(memory, COPY, image, 0x55) {
        Some(end) => memory.byte(BEFORE) == Some(0x55) && memory.byte(end) == Some(0x55),
        None => false,
    }
}

/// Writes at `COPY` what is read at `IMAGE`, where two ranges were filled with other bytes.
fn is_copied(alloc: Global, memory: &mut ByteMemory, ty: &TypeRef, image: &[u16]) -> bool {
    let Some(value) = value_at(alloc, memory, IMAGE, ty) else {
        return false;
    };
    let is_put = is_put(alloc, memory, ty, &value);
    drop(value);
    is_put && is_between(memory, image)
}

/// A memory in which the places of the image and of its copy are held.
fn places(alloc: Global) -> Option<ByteMemory> {
    let mut memory = ByteMemory::new(alloc);
    memory.place(IMAGE, 20).ok()?;
    memory.place(BEFORE, 20).ok()?;
    Some(memory)
}

/// A memory with one image at `IMAGE`, and 0x55 at the bytes around `COPY`.
fn prepared(alloc: Global, image: &[u16]) -> Option<ByteMemory> {
    let unit = typename_of(alloc, "(typename $t u8)")?;
    let mut memory = places(alloc)?;
    let is_filled = fill(&mut memory, &unit.tref, IMAGE, image, 0xEE)
        && fill(&mut memory, &unit.tref, BEFORE, &[PAD; 20], 0x55);
    drop(unit);
    if is_filled { Some(memory) } else { None }
}

/// Whether the image reads as the value, and is still there once that is written elsewhere.
fn reads_and_stays(
    alloc: Global,
    memory: &mut ByteMemory,
    ty: &TypeRef,
    image: &[u16],
    wanted: &str,
) -> bool {
    reads(alloc, memory, IMAGE, ty, wanted)
        && is_copied(alloc, memory, ty, image)
        && end_of(memory, IMAGE, image, 0xEE).is_some()
}

fn is_image(alloc: Global, &(text, image, wanted): &(&str, &[u16], &str)) -> Option<bool> {
    let named = typename_of(alloc, text)?;
    let mut memory = prepared(alloc, image)?;
    Some(reads_and_stays(alloc, &mut memory, &named.tref, image, wanted))
}

#[test]
fn images(rt: HostRuntime) {
    let alloc = rt.alloc();
    assert!(rt; IMAGES.iter().all(|row| is_image(alloc, row) == Some(true)));
}

/// Types, and bytes that spell none of their values.
static NO_VALUES: &[(&str, &[u16])] = &[
    (UNEVEN, &[2, 0, 0, 0, 0, 0, 0, 0, 0, 0, 0, 0]),
    ("(typename $t (flags (@witx repr u16) $a $b $c))", &[8, 0]),
    ("(typename $t (flags (@witx repr u16) $a $b $c))", &[0, 1]),
    ("(typename $t char)", &[0, 216, 0, 0]),
    ("(typename $t char)", &[255, 223, 0, 0]),
    ("(typename $t char)", &[0, 0, 17, 0]),
    ("(typename $t bool)", &[2, 0, 0, 0]),
    ("(typename $t bool)", &[0, 1, 0, 0]),
    ("(typename $t (enum (@witx tag u8) $a $b))", &[255]),
    (
        "(typename $t (enum (@witx tag u64) $a $b))",
        &[0, 0, 0, 0, 1, 0, 0, 0],
    ),
    (
        "(typename $t (variant (@witx tag u64)))",
        &[0, 0, 0, 0, 0, 0, 0, 0],
    ),
    (
        "(typename $t (record (field $a u8) (field $b char)))",
        &[1, PAD, PAD, PAD, 0, 216, 0, 0],
    ),
    (
        "(typename $t (variant (@witx tag u8) (case $a bool)))",
        &[0, PAD, PAD, PAD, 3, 0, 0, 0],
    ),
    (RESULT, &[2, 0, 0, 0, 0, 0, 0, 0, 0, 0, 0, 0, 0, 0, 0, 0]),
];

fn spells_nothing(alloc: Global, &(text, image): &(&str, &[u16])) -> bool {
    prepared(alloc, image).is_some_and(|memory| text_has_no_value(alloc, &memory, IMAGE, text))
}

#[test]
fn no_values(rt: HostRuntime) {
    let alloc = rt.alloc();
    assert!(rt; NO_VALUES.iter().all(|row| spells_nothing(alloc, row)));
}

/// Writes the bytes of such a value into two places that are held.
fn fill_uneven(alloc: Global, memory: &mut ByteMemory) -> bool {
    let Some(unit) = typename_of(alloc, "(typename $t u8)") else {
        return false;
    };
    fill(memory, &unit.tref, 16, &[1], 0) && fill(memory, &unit.tref, 20, &[2, 1, 0], 0)
}

/// Bytes that aren't held spell nothing, save at padding.
fn reads_held_alone(alloc: Global) -> Option<bool> {
    let mut memory = ByteMemory::new(alloc);
    memory.place(16, 1).ok()?;
    memory.place(20, 3).ok()?;
    if !fill_uneven(alloc, &mut memory) {
        return None;
    }
    let short = text_has_no_value(alloc, &memory, 16, UNEVEN);
    memory.place(23, 1).ok()?;
    let wanted = "Case(1, Some(Num(U32 { lang_ptr_size: false }, 258)))";
    Some(
        short
            && text_has_no_value(alloc, &memory, 40, UNEVEN)
            && text_reads(alloc, &memory, 16, UNEVEN, wanted),
    )
}

#[test]
fn held_bytes(rt: HostRuntime) {
    assert!(rt; reads_held_alone(rt.alloc()).unwrap_or(false));
}

/// Nothing stands from 2^32 on, and what has no size is read anywhere.
fn reads_at_the_end(alloc: Global) -> Option<bool> {
    let mut memory = ByteMemory::new(alloc);
    memory.place(u32::MAX, 1).ok()?;
    let none = "(typename $t (tuple))";
    Some(
        text_reads(alloc, &memory, u32::MAX, "(typename $t s8)", "Num(S8, 0)")
            && text_has_no_value(alloc, &memory, u32::MAX, "(typename $t u16)")
            && text_reads(alloc, &memory, 7, none, "Tuple(Items { items: [] })"),
    )
}

#[test]
fn end_of_memory(rt: HostRuntime) {
    assert!(rt; reads_at_the_end(rt.alloc()).unwrap_or(false));
}

/// First addresses and lengths of ranges, and whether they are placed, one after the other.
const PLACES: &[(u32, u32, Result<(), PlaceError>)] = &[
    (16, 12, Ok(())),
    (16, 12, Err(PlaceError::Taken)),
    (27, 1, Err(PlaceError::Taken)),
    (15, 2, Err(PlaceError::Taken)),
    (1, 1000, Err(PlaceError::Taken)),
    (28, 1000, Ok(())),
    (15, 1, Ok(())),
    (u32::MAX, 1, Ok(())),
    (u32::MAX, 1, Err(PlaceError::Taken)),
];

fn is_placed(memory: &mut ByteMemory, at: u32, len: u32, wanted: Result<(), PlaceError>) -> bool {
    if at == 0 || len == 0 || at as u64 + len as u64 > 1 << 32 {
        return false;
    }
    memory.place(at, len) == wanted
}

/// Ranges, and whether they are held, once all those are placed.
const HELD: &[(u32, u64, bool)] = &[
    (16, 12, true),
    (15, 1013, true),
    (15, 1014, false),
    (14, 1, false),
    (14, 0, true),
    (0, 0, false),
    (0, 1, false),
    (u32::MAX, 1, true),
    (u32::MAX, 2, false),
    (u32::MAX, u64::MAX, false),
];

fn ranges_are_kept(alloc: Global) -> bool {
    let mut memory = ByteMemory::new(alloc);
    for (at, len, wanted) in PLACES {
        if !is_placed(&mut memory, *at, *len, *wanted) {
            return false;
        }
    }
    for (at, len, wanted) in HELD {
        if memory.holds(*at, *len) != *wanted {
            return false;
        }
    }
    memory.byte(14).is_none() && memory.byte(15) == Some(0) && memory.byte(1028).is_none()
}

#[test]
fn ranges(rt: HostRuntime) {
    assert!(rt; ranges_are_kept(rt.alloc()));
}

/// Types, and whether each type that is reached fits its tag.
const WRITABLE: &[(&str, bool)] = &[
    (
        "(typename $t (flags (@witx repr u8) $a $b $c $d $e $f $g $h))",
        true,
    ),
    (
        "(typename $t (flags (@witx repr u8) $a $b $c $d $e $f $g $h $i))",
        false,
    ),
    (
        "(typename $f (flags (@witx repr u8) $a $b $c $d $e $f $g $h $i)) (typename $t (tuple u8 $f))",
        false,
    ),
    (
        "(typename $f (flags (@witx repr u8) $a $b $c $d $e $f $g $h $i)) (typename $t (list $f))",
        true,
    ),
];

fn is_writable(alloc: Global, &(text, wanted): &(&str, bool)) -> bool {
    typename_of(alloc, text).is_some_and(|named| writable(&named.tref) == wanted)
}

#[test]
fn writable_types(rt: HostRuntime) {
    let alloc = rt.alloc();
    assert!(rt; WRITABLE.iter().all(|row| is_writable(alloc, row)));
}

/// Types, numbers of a kind, and whether these are values of the type.
static NUMBERS: &[(&str, BuiltinType, i128, bool)] = &[
    ("(typename $t u16)", BuiltinType::U16, 65535, true),
    ("(typename $t u16)", BuiltinType::U16, 65536, false),
    ("(typename $t u16)", BuiltinType::U16, -1, false),
    ("(typename $t u16)", BuiltinType::S16, 1, false),
    ("(typename $t s16)", BuiltinType::S16, -32768, true),
    ("(typename $t s16)", BuiltinType::S16, -32769, false),
    ("(typename $t char)", BuiltinType::Char, 0xD7FF, true),
    ("(typename $t char)", BuiltinType::Char, 0xD800, false),
    ("(typename $t char)", BuiltinType::Char, 0x110000, false),
    ("(typename $t (handle))", BuiltinType::U16, 1, false),
];

/// Values are told apart by what they are, and not by their number alone.
fn are_told_apart() -> bool {
    Value::Handle(1) == Value::Handle(1)
        && Value::Handle(1) != Value::Pointer(1)
        && Value::Handle(1) != Value::Handle(2)
}

fn all_are_values(alloc: Global) -> bool {
    for (text, kind, number, wanted) in NUMBERS {
        let value = Value::Num(*kind, *number);
        if !typename_of(alloc, text).is_some_and(|named| is_value(&named.tref, &value) == *wanted) {
            return false;
        }
    }
    true
}

#[test]
fn values_of_types(rt: HostRuntime) {
    assert!(rt; all_are_values(rt.alloc()) && are_told_apart());
}
