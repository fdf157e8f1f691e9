//! The words of builtins.

ghost use Rattle.std.specs.Prelude.{◌≡◌, true, pos};
ghost use Rattle.witx_ast.specs.ValueTests.{in_range as is_in_range};
ghost use Rattle.witx_machine.specs.Words.{builtin_word_type as type_of_word, modulus as modulus_of, wrapped};

use witx_ast::BuiltinType;
use witx_machine::WasmType;
use witx_run::builtin_word_type;

/// How many bit patterns a word of the type has.
fn modulus(ty: WasmType) -> i128
    ensures { result ≡ pos (modulus_of ty) }
{
    match ty {
        WasmType::I32 | WasmType::F32 => 1 << 32,
        WasmType::I64 | WasmType::F64 => 1 << 64,
    }
}

/// The bits of a number in the word of its builtin, in two's complement.
pub(crate) fn word_bits(builtin: BuiltinType, number: i128) -> u64
    requires { is_in_range builtin number ≡ true }
    ensures { result ≡ wrapped (modulus_of (type_of_word builtin)) number }
{
    if number < 0 {
        (number + modulus(builtin_word_type(builtin))) as u64
    } else {
        number as u64
    }
}
