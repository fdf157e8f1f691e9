//! Errors of signatures, generators, shims and polyfills.

ghost use Rattle.std.specs.Prelude.{◌≡◌, IfOk};
ghost use Rattle.witx_error_texts.specs.ErrorTexts.{abi_error_text, absent, part_of, polyfill_error, repeated, shim_error, signature_error};

use crate::error_text::ErrorText;
use crate::numbers::unlowered_text;
use crate::told::told;
use std::alloc::Global;
use witx_abi::{AbiError, SignatureError};
use witx_base::{OutOfMemory, Text};
use witx_compat::PolyfillError;
use witx_machine::Place;
use witx_shim::ShimError;

impl ErrorText for SignatureError {
    ghost is_told = { λ e text. text ≡ signature_error e };

    fn error_text(&self, alloc: Global) -> Result<Text, OutOfMemory> {
        told!(alloc, self => SignatureError { Unlowerable(place) => unlowered_text(alloc, *place) })
    }
}

impl ErrorText for AbiError {
    ghost is_told = { λ e text. text ≡ abi_error_text e };

    fn error_text(&self, alloc: Global) -> Result<Text, OutOfMemory> {
        told!(alloc, self => AbiError {
            Unlowerable(place) => unlowered_text(alloc, *place),
            BindgenFailed => Text::new(alloc, "generator failed"),
        })
    }
}

impl ErrorText for ShimError {
    ghost is_told = { λ e text. text ≡ shim_error e };

    fn error_text(&self, alloc: Global) -> Result<Text, OutOfMemory> {
        told!(alloc, self => ShimError {
            Repeated(name) => repeated(alloc, name.as_str()),
            NotCompatible => Text::new(alloc, "not compatible"),
            OtherAbi => Text::new(alloc, "other abi"),
            OldUnlowerable(place) => part_of(alloc, "old", *place),
            NewUnlowerable(place) => part_of(alloc, "new", *place),
        })
    }
}

fn repeated(alloc: Global, name: &str) -> Result<Text, OutOfMemory>
    ensures { IfOk result (λ text. text ≡ repeated name.now) }
{
    Ok(Text::from_string(format!(in alloc; "two parameters `{name}`")?))
}

/// A part of one of two functions that can't be lowered.
fn part_of(alloc: Global, which: &str, place: Place) -> Result<Text, OutOfMemory>
    ensures { IfOk result (λ text. text ≡ part_of which.now place) }
{
    let part = unlowered_text(alloc, place)?;
    Ok(Text::from_string(format!(in alloc; "{which} {}", part.as_str())?))
}

impl ErrorText for PolyfillError {
    ghost is_told = { λ e text. text ≡ polyfill_error e };

    fn error_text(&self, alloc: Global) -> Result<Text, OutOfMemory> {
        told!(alloc, self => PolyfillError {
            ModuleNotPresent { name } => absent(alloc, "Module", name.as_str()),
            FuncNotPresent { name, .. } => absent(alloc, "Function", name.as_str()),
        })
    }
}

/// What is absent, and its name.
fn absent(alloc: Global, what: &str, name: &str) -> Result<Text, OutOfMemory>
    ensures { IfOk result (λ text. text ≡ absent what.now name.now) }
{
    Ok(Text::from_string(format!(in alloc; "{what} not present: `{name}`")?))
}
