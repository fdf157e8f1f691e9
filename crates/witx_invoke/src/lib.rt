//! The values that lines of text give for one call, and what that call over a memory of bytes does to values,
//! words and ranges.
#![tactic(auto)]

mod answering;
mod builtins;
mod byte_domain;
mod copies;
mod error;
mod excepting;
mod extents;
mod fitting;
mod flags;
mod given;
mod heads;
mod invoking;
mod kinds;
mod laws;
mod lifting;
mod line;
mod loading;
mod lowering;
mod picking;
mod read;
mod shapes;
mod storing;
mod word_parts;

pub use error::{InvokeError, ValuesError};
pub use fitting::function_fits;
pub use given::{GivenValues, read_values};
pub use invoking::invoke;
pub use laws::{a_call_comes_to_one_thing, lines_tell_values, texts_tell_values};
pub use witx_call::{Invoked, Placed, PlacedRanges, Word, Words, value_text};
