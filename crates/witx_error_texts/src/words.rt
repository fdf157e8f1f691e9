//! Errors that are told by words alone.

ghost use Rattle.std.specs.Prelude.{◌≡◌, codes};
ghost use Rattle.witx_error_texts.specs.ErrorTexts.{bindgen_error, invoke_error, layout_error, place_error, read_error};
ghost use Rattle.witx_walk.specs.ErrorReports.{fault_text};

use crate::error_text::ErrorText;
use crate::told::told;
use std::alloc::Global;
use witx_abi::BindgenError;
use witx_base::{OutOfMemory, Text};
use witx_bytes::{PlaceError, ReadError};
use witx_files::IoFault;
use witx_invoke::InvokeError;
use witx_layout::{LayoutError, TooLarge};

impl ErrorText for IoFault {
    ghost is_told = { λ e text. text ≡ fault_text e };

    fn error_text(&self, alloc: Global) -> Result<Text, OutOfMemory> {
        match self {
            IoFault::NotFound => Text::new(alloc, "file not found"),
            IoFault::LineNotFound => Text::new(alloc, "line not found"),
            IoFault::Failed => Text::new(alloc, "read failed"),
        }
    }
}

impl ErrorText for TooLarge {
    ghost is_told = { λ e text. text ≡ codes "size too large" };

    fn error_text(&self, alloc: Global) -> Result<Text, OutOfMemory> {
        Text::new(alloc, "size too large")
    }
}

impl ErrorText for LayoutError {
    ghost is_told = { λ e text. text ≡ layout_error e };

    fn error_text(&self, alloc: Global) -> Result<Text, OutOfMemory> {
        told!(alloc, self => LayoutError { TooLarge => Text::new(alloc, "size too large") })
    }
}

impl ErrorText for BindgenError {
    ghost is_told = { λ e text. text ≡ bindgen_error e };

    fn error_text(&self, alloc: Global) -> Result<Text, OutOfMemory> {
        told!(alloc, self => BindgenError { Failed => Text::new(alloc, "generator failed") })
    }
}

impl ErrorText for InvokeError {
    ghost is_told = { λ e text. text ≡ invoke_error e };

    fn error_text(&self, alloc: Global) -> Result<Text, OutOfMemory> {
        told!(alloc, self => InvokeError {
            ZeroError => Text::new(alloc, "error word is 0"),
            NoRoom => Text::new(alloc, "out of room"),
        })
    }
}

impl ErrorText for PlaceError {
    ghost is_told = { λ e text. text ≡ place_error e };

    fn error_text(&self, alloc: Global) -> Result<Text, OutOfMemory> {
        told!(alloc, self => PlaceError { Taken => Text::new(alloc, "range already held") })
    }
}

impl ErrorText for ReadError {
    ghost is_told = { λ e text. text ≡ read_error e };

    fn error_text(&self, alloc: Global) -> Result<Text, OutOfMemory> {
        told!(alloc, self => ReadError { NoValue => Text::new(alloc, "no value of the type") })
    }
}
