//! Why files can't be adapted.
use witx_adapt::RefusedDocument;
use witx_base::Id;
use witx_layout::TagTooNarrow;
use witx_machine::Place;
use witx_walk::WitxError;

/// Why files can't be adapted.
#[derive(PartialEq, Eq, Debug, Drop)]
pub enum AdaptError {
    /// They mean no document; never for want of memory.
    Refused(WitxError),
    /// This type doesn't fit its tag; it is the first in document order.
    TagTooNarrow(TagTooNarrow),
    /// The size of this typename, by the number of its definition from 0, exceeds `usize::MAX`; it is
    /// the first.
    TooLarge {
        definition: usize,
    },
    /// This part of this function can't be lowered; it is the first function.
    Unlowerable {
        module: Id,
        function: Id,
        place: Place,
    },
    OutOfMemory,
}

/// Why files can't be adapted; where they mean a document, with that document.
#[derive(Drop)]
pub enum Unadapted {
    /// They mean no document, or there was no memory.
    Texts(WitxError),
    /// They mean this document, which is refused.
    Document(RefusedDocument),
}
