//! A memory of bytes, and the images of values in it.
#![tactic(auto)]

mod block;
mod fitting;
mod laid;
mod laws;
mod membership;
mod memory;
mod numbers;
mod places;
mod read;
mod read_error;
mod scalars;
mod value;
mod write;

pub use fitting::writable;
pub use laid::{DEEPEST, Laid, MOST_TYPES, lay_out};
pub use laws::{
    alike_images, at_most_one_value, bytes_follow_cells, image_has_the_size, reading_is_spelling,
    traces_run_over_bytes, traces_take_writable, writing_is_spelling,
};
pub use membership::{are_bare, is_value};
pub use memory::{ByteMemory, PlaceError};
pub use numbers::{flag_bits, in_range, number_of};
pub use read::{flags_of, read_laid, read_value};
pub use read_error::ReadError;
pub use value::{Bools, Value, Values, boxed};
pub use write::{write_laid, write_value};
