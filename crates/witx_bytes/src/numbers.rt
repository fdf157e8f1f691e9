//! Numbers as bytes and back, and the bits of flags.

ghost use Rattle.std.specs.Prelude.{◌≡◌, ◌+◌, ◌^◌, ◌<◌, ◌≤◌, true, pos, length};
ghost use Rattle.witx_ast.specs.ValueTests.{in_range as is_in_range, is_below as below, is_within as within};
ghost use Rattle.witx_layout.specs.Numbers.{builtin_size};
ghost use Rattle.witx_machine.specs.Words.{wrapped, cut, with_sign, bits_of_flags};
ghost use Rattle.witx_bytes.specs.{Bytes.{held}, Images.{little}, Writes.{HasRange, Writes}};

use crate::memory::ByteMemory;
use witx_ast::BuiltinType;

/// Writes a number in so many bytes, the lowest first.
#[tactic(auto, using(crate::proofs::Blocks::range_block_rules))]
pub(crate) fn write_number(memory: &mut ByteMemory, at: u64, width: u64, number: u64)
    requires { HasRange at width (held memory.old) }
    ensures { Writes at (little width number) (held memory.old) (held memory.new) }
{
    if width > 0 && width <= 256 - at % 256 {
        memory.write_part(at as u32, width as u32, number);
    } else {
        write_bytes(memory, at, width, number);
    }
}

/// The same, byte by byte.
#[tactic(auto, using(crate::proofs::Writing::held_rules))]
fn write_bytes(memory: &mut ByteMemory, at: u64, width: u64, number: u64)
    requires { HasRange at width (held memory.old) }
    ensures { Writes at (little width number) (held memory.old) (held memory.new) }
{
    let mut rest = number;
    for x in at..at + width {
        memory.write_part(x as u32, 1, rest);
        rest /= 256;
    }
}

/// How many numbers a builtin has room for.
fn modulus(builtin: BuiltinType) -> i128
    ensures { result ≡ pos (256 ^ builtin_size builtin) }
{
    match builtin {
        BuiltinType::U8 { lang_c_char: _ } | BuiltinType::S8 => 1 << 8,
        BuiltinType::U16 | BuiltinType::S16 => 1 << 16,
        BuiltinType::Char
        | BuiltinType::U32 { lang_ptr_size: _ }
        | BuiltinType::S32
        | BuiltinType::F32 => 1 << 32,
        BuiltinType::U64 | BuiltinType::S64 | BuiltinType::F64 => 1 << 64,
    }
}

/// The number in two's complement of the builtin's size.
pub(crate) fn number_bits(builtin: BuiltinType, number: i128) -> u64
    requires { is_in_range builtin number ≡ true }
    ensures { result ≡ wrapped (256 ^ builtin_size builtin) number }
{
    if number < 0 {
        (number + modulus(builtin)) as u64
    } else {
        number as u64
    }
}

/// The number that bits are for a builtin, cut to its width.
pub fn number_of(ty: BuiltinType, bits: u64) -> i128
    ensures { result ≡ cut ty bits }
{
    match ty {
        BuiltinType::S8 => signed(bits % (1 << 8), 1 << 7),
        BuiltinType::S16 => signed(bits % (1 << 16), 1 << 15),
        BuiltinType::S32 => signed(bits % (1 << 32), 1 << 31),
        BuiltinType::S64 => signed(bits, 1 << 63),
        BuiltinType::Char => (bits % (1 << 32)) as i128,
        BuiltinType::U8 { lang_c_char: _ } => (bits % (1 << 8)) as i128,
        BuiltinType::U16 => (bits % (1 << 16)) as i128,
        BuiltinType::U32 { lang_ptr_size: _ } => (bits % (1 << 32)) as i128,
        BuiltinType::U64 => bits as i128,
        BuiltinType::F32 => (bits % (1 << 32)) as i128,
        BuiltinType::F64 => bits as i128,
    }
}

/// A number below twice `half`, read with a sign.
fn signed(bits: u64, half: u64) -> i128
    requires half { half ≤ 2 ^ 63 }
    requires bits { bits < half + half }
    ensures { result ≡ with_sign half bits }
{
    if bits < half {
        bits as i128
    } else {
        bits as i128 - 2 * half as i128
    }
}

/// The bits of flags: flag k is bit k.
#[tactic(auto, using(crate::proofs::FlagBits::flag_rules))]
pub fn flag_bits(flags: &[bool]) -> u64
    requires { length flags.now ≤ 64 }
    ensures { result ≡ bits_of_flags flags.now }
{
    let mut bits = 0;
    let mut i = flags.len();
    while i > 0 {
        i -= 1;
        bits = bits * 2 + if flags[i] { 1 } else { 0 };
    }
    bits
}

/// Whether a number is one of the builtin.
pub fn in_range(ty: BuiltinType, number: i128) -> bool
    ensures { result ≡ is_in_range ty number }
{
    match ty {
        BuiltinType::Char => is_below(number, 0xD800)
            || (number >= 0xE000 && is_below(number, 0x110000)),
        BuiltinType::U8 { lang_c_char: _ } => is_below(number, 1 << 8),
        BuiltinType::U16 => is_below(number, 1 << 16),
        BuiltinType::U32 { lang_ptr_size: _ } => is_below(number, 1 << 32),
        BuiltinType::U64 => is_below(number, 1 << 64),
        BuiltinType::S8 => is_within(number, 1 << 7),
        BuiltinType::S16 => is_within(number, 1 << 15),
        BuiltinType::S32 => is_within(number, 1 << 31),
        BuiltinType::S64 => is_within(number, 1 << 63),
        BuiltinType::F32 => is_below(number, 1 << 32),
        BuiltinType::F64 => is_below(number, 1 << 64),
    }
}

fn is_below(number: i128, end: u128) -> bool
    ensures { result ≡ below end number }
{
    number >= 0 && (number as u128) < end
}

fn is_within(number: i128, end: u128) -> bool
    requires { end < 2 ^ 127 }
    ensures { result ≡ within end number }
{
    number >= -(end as i128) && number < end as i128
}
