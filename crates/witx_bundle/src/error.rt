//! Why bytes are no bundle.

ghost use Rattle.std.specs.Prelude.{◌≡◌};

use witx_base::MemoryRefused;

/// Why bytes are no bundle.
#[derive(Clone, Copy, PartialEq, Eq, Debug)]
pub enum BundleError {
    /// There are more than `LONGEST_BUNDLE` bytes.
    TooLong,
    /// The bytes aren't UTF-8; `at` is the length of their longest prefix that is.
    NotUtf8 { at: usize },
    /// The byte at `at` stands before the first header and is no blank; it is the first such byte.
    BeforeFirst { at: usize },
    /// Memory was wanted and refused.
    OutOfMemory,
}

impl<E: MemoryRefused> From<E> for BundleError {
    ghost use Rattle.std.specs.Prelude.{◌≡◌};
    ghost use Rattle.witx_bundle.specs.declared.error.BundleError.TheVariants.{OutOfMemory};

    ghost from_gives = { λ _ e. e ≡ OutOfMemory };

    fn from(_refused: E) -> BundleError {
        BundleError::OutOfMemory
    }
}
