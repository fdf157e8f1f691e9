//! The notation of bundles in the cases of a topic.
//!
//! - `[[60*TEXT]]` stands for a text so many times. In it `#` stands for the number of the turn, from 0,
//!   and `^` for the next number.
//! - `[[13]]` stands for the character of that number, as a carriage return.
//! - Behind the marks `---- not` and `---- but` stand two texts: the bundle is that of the last case with
//!   a bundle of its own, with the second text in the place of the first that is like the first.
//! - All else stands for itself.

use std::alloc::{AllocError, Global};
use std::fmt::Write;
use witx_fixtures::built_text;

/// The bundle that the text of a case means, behind the last bundle that was written out; with no text it
/// is that one.
pub fn bundle_of(
    alloc: Global,
    text: Option<&str>,
    last: &mut String,
) -> Result<String, AllocError> {
    let Some(text) = text else {
        return String::from_str(alloc, last.as_str());
    };
    if text.starts_with("---- not\n") {
        return changed(alloc, text, last.as_str());
    }
    let bundle = written_out(alloc, text)?;
    *last = String::from_str(alloc, bundle.as_str())?;
    Ok(bundle)
}

/// The last bundle with a change. Where what is to be changed isn't there, the text of the case, which is
/// no bundle.
fn changed(alloc: Global, text: &str, last: &str) -> Result<String, AllocError> {
    let (old, new) = change_of(text).unwrap_or((text, ""));
    match last.split_once(old) {
        Some((front, back)) => format!(in alloc; "{front}{new}{back}"),
        None => String::from_str(alloc, text),
    }
}

/// The two texts of a change.
fn change_of(text: &str) -> Option<(&str, &str)> {
    let (old, rest) = text.strip_prefix("---- not\n")?.split_once("\n---- but")?;
    Some((old, rest.strip_prefix('\n').unwrap_or(rest)))
}

/// A text with what its marks stand for.
fn written_out(alloc: Global, text: &str) -> Result<String, AllocError> {
    let mut out = String::new(alloc);
    for (number, part) in text.split("[[").enumerate() {
        put_part(alloc, &mut out, number, part)?;
    }
    Ok(out)
}

/// Puts a part of a text, which begins with a mark where it isn't the first one.
fn put_part(alloc: Global, out: &mut String, number: usize, part: &str) -> Result<(), AllocError> {
    match part.split_once("]]") {
        Some((mark, rest)) if number > 0 => {
            put_mark(alloc, out, mark)?;
            out.push_str(rest)
        }
        None if number > 0 => write!(out, "[[{part}"),
        _ => out.push_str(part),
    }
}

/// Puts what a mark stands for; one that is none stands for itself.
fn put_mark(alloc: Global, out: &mut String, mark: &str) -> Result<(), AllocError> {
    match repeat_of(mark) {
        Some(repeat) => out.push_str(built_text(alloc, &[repeat])?.as_str()),
        None => match mark.parse::<u8>() {
            Ok(number) => out.push(char::from(number)),
            Err(_) => write!(out, "[[{mark}]]"),
        },
    }
}

/// What is repeated, and how often.
fn repeat_of(mark: &str) -> Option<(&str, usize)> {
    let (count, piece) = mark.split_once('*')?;
    Some((piece, count.parse().ok()?))
}
