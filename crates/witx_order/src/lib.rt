//! The specification of the walk: the reading order of files that use one another and the verdict on
//! them, as definitions, and the laws that these have. The crate that walks keeps to it by contract.
#![tactic(auto)]

mod laws;

pub use laws::{
    declared_where_read, fine_means, front_form, front_verdict, next_mark, one_final_front,
    one_verdict, one_walk, walk_form,
};
