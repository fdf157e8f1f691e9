//! Values of the interface.

ghost use Rattle.std.specs.Prelude.{◌≡◌, IfOk};

use std::alloc::Global;
use std::boxed::Box;
use witx_ast::BuiltinType;
use witx_base::{Items, OutOfMemory};

/// A value of a type. Equal where all parts are.
#[cycle(values)]
#[derive(PartialEq, Eq, Debug, Drop)]
pub enum Value {
    /// A number of a builtin; a character is its scalar value, a float its bit pattern.
    Num(BuiltinType, i128),
    /// A handle's number.
    Handle(u32),
    /// The address that a pointer is.
    Pointer(u32),
    /// The address that a pointer to what isn't changed is.
    ConstPointer(u32),
    /// A list: where its items begin, and how many there are.
    List {
        /// The address of the first item.
        address: u32,
        /// The number of items.
        length: u32,
    },
    /// Flags: one truth value per member.
    Flags(Bools),
    /// A tuple: one value per member.
    Tuple(Values),
    /// A record that is neither flags nor a tuple: one value per member.
    Rec(Values),
    /// A case of a variant without payloads, by its number from 0.
    Enum(u32),
    /// A case of another variant, by its number from 0, with its payload if it has one.
    Case(u32, Option<Box<Value>>),
}

/// Truth values, in order.
pub type Bools = Items<bool>;

/// Values, in order.
pub type Values = Items<Value>;

/// The value behind a pointer of its own, as a case has its payload.
pub fn boxed(alloc: Global, value: Value) -> Result<Box<Value>, OutOfMemory>
    ensures { IfOk result (λ made. made.value ≡ value) }
{
    Ok(Box::new(alloc, value)?)
}
