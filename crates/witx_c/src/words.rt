//! The words of a call, from one stretch of bytes.

ghost use Rattle.std.specs.Prelude.{◌≡◌, map, IfOk};
ghost use Rattle.witx_c.specs.Words.{words_between_zeros};

use std::alloc::{AllocError, Global};
use witx_base::{Items, OutOfMemory, Text};

/// The words of the text: what stands between its characters of code 0.
pub fn texts_in(alloc: Global, text: &str) -> Result<Items<Text>, OutOfMemory>
    ensures { IfOk result (λ words. words ≡ words_between_zeros text.now) }
{
    texts_of(alloc, pieces(alloc, text)?.as_slice())
}

/// The pieces of the text, still borrowed.
fn pieces(alloc: Global, text: &str) -> Result<Vec<&str>, AllocError>
    ensures { IfOk result (λ v. map (λ x. x.now) v.items ≡ words_between_zeros text.now) }
{
    text.split('\0').collect(alloc)
}

/// Texts of their own.
fn texts_of(alloc: Global, pieces: &[&str]) -> Result<Items<Text>, OutOfMemory>
    ensures { IfOk result (λ texts. texts ≡ map (λ x. x.now) pieces.now) }
{
    let mut texts = Items::new(alloc);
    for piece in pieces {
        texts.push(Text::new(alloc, piece)?)?;
    }
    Ok(texts)
}
