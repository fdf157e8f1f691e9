//! What lies on a stack.

use std::rc::Rc;
use witx_ast::NamedType;

/// What lies on a stack: a word, or a value with the named type under which it came, if there is one.
#[derive(Drop)]
pub enum Item<V, W> {
    /// A word.
    Word(W),
    /// A value.
    Value {
        /// The value itself.
        value: V,
        /// The named type under which it came.
        name: Option<Rc<NamedType>>,
    },
}
