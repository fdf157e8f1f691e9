//! Why a document can't be adapted.

ghost use Rattle.std.specs.Prelude.{◌≡◌};

use std::alloc::AllocError;
use witx_ast::Document;
use witx_base::{Id, OutOfMemory};
use witx_layout::{LayoutsError, TagTooNarrow};
use witx_machine::Place;

/// Why a document can't be adapted.
#[derive(PartialEq, Eq, Drop)]
pub enum DocumentError {
    /// This type doesn't fit its tag; it is the first in document order.
    TagTooNarrow(TagTooNarrow),
    /// The size of this typename, by the number of its definition from 0, exceeds `usize::MAX`; it is
    /// the first.
    TooLarge {
        definition: usize,
    },
    /// This part of this function can't be lowered; it is the first function.
    Unlowerable {
        module: Id,
        function: Id,
        place: Place,
    },
    OutOfMemory,
}

/// A document that can't be adapted, handed back, and why.
#[derive(PartialEq, Eq, Drop)]
pub struct RefusedDocument {
    pub error: DocumentError,
    pub document: Document,
}

impl From<OutOfMemory> for DocumentError {
    ghost use Rattle.witx_adapt.specs.declared.error.DocumentError.TheVariants as document_error;

    ghost from_gives = { λ _ e. e ≡ document_error.OutOfMemory };

    fn from(_: OutOfMemory) -> DocumentError {
        DocumentError::OutOfMemory
    }
}

impl From<AllocError> for DocumentError {
    ghost use Rattle.witx_adapt.specs.declared.error.DocumentError.TheVariants as document_error;

    ghost from_gives = { λ _ e. e ≡ document_error.OutOfMemory };

    fn from(_: AllocError) -> DocumentError {
        DocumentError::OutOfMemory
    }
}

impl From<TagTooNarrow> for DocumentError {
    ghost use Rattle.witx_adapt.specs.declared.error.DocumentError.TheVariants as document_error;

    ghost from_gives = { λ refused e. e ≡ document_error.TagTooNarrow refused };

    fn from(refused: TagTooNarrow) -> DocumentError {
        DocumentError::TagTooNarrow(refused)
    }
}

impl From<LayoutsError> for DocumentError {
    ghost use Rattle.witx_adapt.specs.Adaptable.{layouts_refusal};

    ghost from_gives = { λ refused e. e ≡ layouts_refusal refused };

    fn from(refused: LayoutsError) -> DocumentError {
        match refused {
            LayoutsError::TooLarge { definition } => DocumentError::TooLarge { definition },
            LayoutsError::OutOfMemory => DocumentError::OutOfMemory,
        }
    }
}
