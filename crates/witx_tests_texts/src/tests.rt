//! The tests, by what they test.

mod base;
mod bundle;
mod comments;
mod files;
mod grammar;
mod lex;
mod streams;
mod syntax;
mod tree;
