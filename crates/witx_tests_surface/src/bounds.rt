//! What a row of the tables asks of a type.

use std::error::Error;
use std::fmt::{Debug, Display};
use std::hash::Hash;
use witx_base::Duplicate;

/// `Display`.
pub fn displayed<T: Display>() {}

/// `Debug`.
pub fn shown<T: Debug>() {}

/// Equality.
pub fn equal<T: PartialEq + Eq>() {}

/// `Error` and equality.
pub fn error<T: Error + PartialEq + Eq>() {}

/// Equality, `copy` and `Debug`.
pub fn copied<T: PartialEq + Eq + Duplicate + Debug>() {}

/// Equality, hash, `copy` and `Debug`.
pub fn hashed<T: PartialEq + Eq + Hash + Duplicate + Debug>() {}

/// Equality, order, hash, `copy` and `Debug`.
pub fn ordered<T: PartialEq + Eq + PartialOrd + Ord + Hash + Duplicate + Debug>() {}

/// Equality, `clone` and `Debug`.
pub fn cloned<T: PartialEq + Eq + Clone + Debug>() {}

/// Equality, hash, `clone` and `Debug`.
pub fn cloned_and_hashed<T: PartialEq + Eq + Hash + Clone + Debug>() {}

/// Equality, `Copy` and `Debug`.
pub fn plain<T: PartialEq + Eq + Copy + Debug>() {}

/// Equality, hash, `Copy` and `Debug`.
pub fn plain_and_hashed<T: PartialEq + Eq + Hash + Copy + Debug>() {}

/// Equality, order, hash, `Copy` and `Debug`.
pub fn plain_and_ordered<T: PartialEq + Eq + PartialOrd + Ord + Hash + Copy + Debug>() {}

/// Asks the same of each of these types.
macro_rules! each {
    ($bound:ident: $($row:ty),+ $(,)?) => {
        $($bound::<$row>();)+
    };
}

pub(crate) use each;
