//! What values hold, where it is known of which variant they are.

/// What a value holds that is of this variant.
#[macro_export]
macro_rules! held {
    ($value:expr, $values:ident::$variant:ident) => {
        match $value {
            $values::$variant(held) => held,
            _ => unreachable!(),
        }
    };
}

/// The top of a stack that isn't empty; it is taken off.
#[macro_export]
macro_rules! top {
    ($stack:expr) => {{
        let Some(top) = $stack.pop() else {
            unreachable!()
        };
        top
    }};
}
