//! What is told of an error that can be want of memory, written once.

/// The text of an error: that of its variant, of those in the braces, and else that memory ran out.
macro_rules! told {
    ($alloc:expr, $error:expr => $name:ident { $(
        $variant:ident $(($held:ident))? $({ $($field:tt)* })? => $text:expr
    ),* $(,)? }) => {
        match $error {
            $($name::$variant $(($held))? $({ $($field)* })? => $text,)*
            $name::OutOfMemory => Text::new($alloc, "out of memory"),
        }
    };
}

pub(crate) use told;
