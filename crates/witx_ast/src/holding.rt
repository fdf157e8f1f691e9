//! What an enum holds, where it is of one variant.

/// What the value holds, where it is of this variant.
macro_rules! held_by {
    ($value:expr, $variant:pat => $held:ident) => {
        match $value {
            $variant => Some($held),
            _ => None,
        }
    };
}

pub(crate) use held_by;
