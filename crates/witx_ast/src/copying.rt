//! Copies written once: of a struct field by field, and of an enum by its variants.

/// A copy of a struct: its fields are copied, and those behind the semicolon taken as they are.
macro_rules! copied {
    ($whole:expr => $name:ident { $($field:ident),* $(; $($plain:ident),*)? }) => {
        Ok($name {
            $($field: $whole.$field.copy()?,)*
            $($($plain: $whole.$plain,)*)?
        })
    };
}

/// A copy of an enum: what each variant holds is cloned, or copied.
macro_rules! copied_variant {
    ($whole:expr => $name:ident { $($variant:ident . $way:ident),* }) => {
        match $whole {
            $($name::$variant(held) => Ok($name::$variant(held.$way()?)),)*
        }
    };
}

pub(crate) use copied;
pub(crate) use copied_variant;
