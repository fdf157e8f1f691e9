//! The tests, by what they test.

mod check;
mod generated;
mod pages;
mod read_back;
mod refused;
mod render;
mod surface;
mod walk;
