//! What several topics are tested on: numbers of calls, and long texts.

use std::alloc::{AllocError, Global};
use std::fmt::Write;
use witx_base::{Calls, OutOfMemory};

/// Numbers of calls that fail.
pub fn calls_of(alloc: Global, numbers: &[u64]) -> Result<Calls, OutOfMemory> {
    Ok(Calls::from_vec(Vec::from_slice(alloc, numbers)?))
}

/// `front`, then `unit` so many times, then `back`.
pub fn long_text(
    alloc: Global,
    front: &str,
    unit: &str,
    times: usize,
    back: &str,
) -> Result<String, AllocError> {
    let mut text = String::from_str(alloc, front)?;
    for _ in 0..times {
        text.push_str(unit)?;
    }
    text.push_str(back)?;
    Ok(text)
}

/// Pieces, each as often as its number says. In a piece `#` stands for the number of the turn, from 0,
/// and `^` for the next number.
pub type Pieces<'a> = &'a [(&'a str, usize)];

/// Puts a piece behind a text, with the number of its turn.
fn put_piece(text: &mut String, piece: &str, number: usize) -> Result<(), AllocError> {
    if !piece.contains('#') && !piece.contains('^') {
        return text.push_str(piece);
    }
    for letter in piece.chars() {
        match letter {
            '#' => write!(text, "{number}")?,
            '^' => write!(text, "{}", number.saturating_add(1))?,
            _ => text.push(letter)?,
        }
    }
    Ok(())
}

/// The text that pieces make, in order.
pub fn built_text(alloc: Global, pieces: Pieces<'_>) -> Result<String, AllocError> {
    let mut text = String::new(alloc);
    for (piece, count) in pieces {
        for number in 0..*count {
            put_piece(&mut text, piece, number)?;
        }
    }
    Ok(text)
}
