//! Scoping and validation: the first fault of a declaration, or its definition.
#![tactic(auto)]

mod functions;
mod laws;
mod modules;
mod parts;
mod typenames;
mod types;
mod validate;
mod validation_scope;
mod validator;

pub use laws::{names_by_position, nothing_by_position};
pub use validation_scope::DocValidationScope;
pub use validator::DocValidation;
pub use witx_lex::LineCursor;
pub use witx_scope::{CheckError, SharedPath, ValidationError};
