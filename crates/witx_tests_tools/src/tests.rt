//! The tests, by what they test.

mod by_hand;
mod devices;
mod first_lines;
mod imports;
mod invoke;
mod listings;
mod sample;
mod texts;
mod tools;
mod values;
mod verify;
