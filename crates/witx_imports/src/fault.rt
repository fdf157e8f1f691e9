//! What is wrong with imports.

use witx_base::Items;

/// What is wrong with an import, which has this number in its list, from 0.
#[derive(PartialEq, Eq, Drop)]
pub enum ImportFault {
    /// No entry has its names.
    Missing { index: usize },
    /// The first entry with its names, which has this number among all entries, has another signature.
    Differs { index: usize, function: usize },
}

/// The faults of a list, in the order of its imports.
pub type ImportFaults = Items<ImportFault>;
