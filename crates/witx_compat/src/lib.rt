//! Whether one interface can stand in for another: how a type is represented by another, and how the
//! functions of an old module are mapped to those of a new one.
#![tactic(auto)]

mod answer;
mod conversion;
mod copies;
mod copy_laws;
mod error;
mod functions;
mod halves;
mod laws;
mod modules;
mod once;
mod part;
mod places;
mod representable;
mod table;

pub use answer::RepEquality;
pub use conversion::{
    ParamPolyfill, ParamPolyfills, ParamUnknown, ParamUnknowns, TypePolyfill, TypePolyfills,
};
pub use copy_laws::{
    copied_conversion_is_equal, copied_mapped_function_is_equal, copied_mapped_module_is_equal,
    copied_mapped_param_is_equal, copied_mappings_are_equal, copied_polyfill_is_equal,
    copied_unknown_param_is_equal,
};
pub use error::PolyfillError;
pub use functions::{FuncPolyfill, FuncPolyfills};
pub use laws::{
    join_is_associative, join_is_commutative, same_builtins, same_exactly_where_alike,
    same_is_reflexive, same_is_symmetric, same_is_transitive, same_reprs,
};
pub use modules::{ModuleMap, ModulePolyfill, ModulePolyfills, Polyfill};
pub use representable::Representable;
