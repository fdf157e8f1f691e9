//! Numbers of a listing.

ghost use Rattle.std.specs.{Prelude.{◌≡◌, ◌<◌, ◌∷◌, []}, Fmt.{decimal}};
ghost use Rattle.witx_adapt.specs.Names.{PutsText};

use std::alloc::AllocError;
use std::fmt::Write;

/// Appends a number in decimal digits. Most numbers of a listing have one digit, which needs no formatter.
pub fn put_decimal(text: &mut String, n: usize) -> Result<(), AllocError>
    ensures { PutsText result text.old text.new (decimal n) }
{
    if n < 10 {
        return text.push(only_digit(n));
    }
    write!(text, "{n}")
}

/// The digit of a number below ten.
fn only_digit(n: usize) -> char
    requires { n < 10 }
    ensures value { decimal n ≡ result ∷ [] }
    ensures ascii { result < 128 }
{
    (b'0' + n as u8) as char
}
