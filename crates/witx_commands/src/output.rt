//! What a command is to write, and how its large value is kept or let go.

ghost use Rattle.std.specs.Prelude.{◌≡◌, ◌==◌, [], None, if◌then◌else◌};

use crate::status::DONE;
use std::alloc::Global;
use std::mem::forget;
use witx_adapt::Adapted;
use witx_ast::Document;
use witx_base::Text;

/// What a command is to write, what it notes beside that, and the value that it lists.
#[derive(Drop)]
pub struct Output {
    /// For the first sink.
    pub text: Text,
    /// For the second sink; empty, but for what `docs` tells of links that lead nowhere.
    pub notes: Text,
    /// What is listed or summed up: there for `adapt` and `sample` alone.
    pub adapted: Option<Adapted>,
}

/// No notes; takes no memory.
pub fn no_notes(alloc: Global) -> Text
    ensures { result ≡ [] }
{
    Text::from_string(String::new(alloc))
}

/// An output of a text alone.
pub fn text_alone(alloc: Global, text: Text) -> Output
    ensures text { result.text ≡ text }
    ensures notes { result.notes ≡ [] }
    ensures adapted { result.adapted ≡ None }
{
    Output {
        text,
        notes: no_notes(alloc),
        adapted: None,
    }
}

/// The value of an output, kept where the status says that it was written whole, and else let go.
///
/// A crate that lets a large value go, or hands it to a generic call, proves anew how it is let go. So
/// these functions do it for the crates above.
pub fn kept(status: u8, adapted: Option<Adapted>) -> Option<Adapted>
    ensures { result ≡ (if status == 0 then adapted else None) }
{
    if status == DONE { adapted } else { None }
}

/// Lets the value of an output go. No clause says more than that this is safe and ends: nothing is answered
/// or changed, and what the memory holds afterwards no clause sees.
pub fn let_go(adapted: Option<Adapted>) {
    drop(adapted);
}

/// Leaves the value of an output where it is, for a process that ends. It has no clause, as [`let_go`].
pub fn leave(adapted: Option<Adapted>) {
    forget(adapted);
}

/// Lets a document go. It has no clause, as [`let_go`].
pub fn let_document_go(document: Document) {
    drop(document);
}
