//! Why bytes are no module.

ghost use Rattle.std.specs.Prelude.{◌≡◌};
ghost use Rattle.witx_wasm.specs.declared.fault.ModuleError.TheVariants as module_errors;
ghost use Rattle.witx_wasm.specs.declared.fault.ReadError.TheVariants as read_errors;

use witx_base::{MemoryRefused, OutOfMemory};

/// What is wrong at a place of the bytes.
#[derive(Clone, Copy, PartialEq, Eq)]
pub enum FaultKind {
    /// A byte of the four with which each module begins, `\0asm`, is another one.
    Magic,
    /// A byte of the version, which is 1 in four bytes, is another one.
    Version,
    /// What began ends too soon: a module, or a section or a name by what its size says of it.
    End,
    /// A section's size counts this byte to the section, whose contents end before it.
    Excess,
    /// A number takes more than five bytes, or is 2^32 or more.
    Number,
    /// No section has this number.
    SectionId,
    /// A section stands behind one that it has to precede, or twice.
    SectionOrder,
    /// A name is no UTF-8. Told is where the first bytes begin that are no character.
    NotUtf8,
    /// A type is none of a function.
    FunctionForm,
    /// A group of types, a subtype, or the type of an array or a structure, of garbage collection, which
    /// aren't read.
    CompositeType,
    /// No type of values.
    ValueType,
    /// The type of vectors, `v128`, which isn't read.
    Vector,
    /// No type of references.
    ReferenceType,
    /// A type of references other than `funcref` and `externref`, of typed references, of garbage
    /// collection or of exceptions, which isn't read.
    HeapType,
    /// What is imported is no function, table, memory, global.
    ImportKind,
    /// A section or an import of tags, of exception handling, which isn't read.
    Tag,
    /// No limits begin so.
    Limits,
    /// Limits of a memory or a table that is shared, which aren't read.
    Shared,
    /// Limits of a memory or a table with addresses of 64 bits, which aren't read.
    Wide,
    /// Limits of a memory with pages of another size, which aren't read.
    PageSize,
    /// A global is neither constant nor variable.
    Mutability,
    /// The module has no type with this number. Told is where the number begins.
    UnknownType,
}

/// What is wrong, and the offset of the first byte that can't stand; at the end of the bytes, or of a
/// section, that of the byte that is missing.
#[derive(Clone, Copy, PartialEq, Eq)]
pub struct Fault {
    pub kind: FaultKind,
    pub at: usize,
}

/// Why bytes are no module.
#[derive(Clone, Copy, PartialEq, Eq)]
pub enum ModuleError {
    /// They are none.
    Fault(Fault),
    /// Memory was refused.
    OutOfMemory,
}

impl From<OutOfMemory> for ModuleError {
    ghost from_gives = { λ _ e. e ≡ module_errors.OutOfMemory };

    fn from(_refused: OutOfMemory) -> ModuleError {
        ModuleError::OutOfMemory
    }
}

/// Where the reading of some bytes stops: what is wrong, and how many of the bytes are left there.
#[derive(Clone, Copy)]
pub struct Stop {
    pub kind: FaultKind,
    pub left: usize,
}

/// Why a part isn't read.
#[derive(Clone, Copy)]
pub enum ReadError {
    Stop(Stop),
    OutOfMemory,
}

impl<E: MemoryRefused> From<E> for ReadError {
    ghost from_gives = { λ _ e. e ≡ read_errors.OutOfMemory };

    fn from(_refused: E) -> ReadError {
        ReadError::OutOfMemory
    }
}
