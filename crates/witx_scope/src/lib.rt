//! What names denote, the faults of declarations with their places and reports, and constants.
#![tactic(auto)]

mod cases;
mod constants;
mod error;
mod faults;
mod keep;
mod marks;
mod names;
mod naming;
mod place;
mod report;
mod room;
mod scope;
mod site;
mod steps_left;
mod tables;
mod unfinished;

pub use cases::{TagNames, case_names, case_with, ordered};
pub use constants::{ConstantName, ConstantPlaces};
pub use error::{CheckError, ValidationError};
pub use faults::{abi_fault, anonymous_type, bad_field, bad_tag, repr, wrong_kind, wrong_size};
pub use keep::take_constant;
pub use marks::Marks;
pub use names::{introduce, introduce_mark, mark, used};
pub use naming::named;
pub use place::{SharedPath, SharedPlace, shared_path, with_shared};
pub use room::with_room;
pub use scope::{Names, Scope};
pub use site::Site;
pub use steps_left::StepsLeft;
pub use tables::Tables;
pub use unfinished::Unfinished;
