//! Documents printed as S-expressions: the expressions as data, what each item of a document is printed
//! as, and the text of a whole document.
#![tactic(auto)]

mod document;
mod expression;
mod functions;
mod laws;
mod modules;
mod parts;
mod to_sexpr;
mod types;

pub use document::document_text;
pub use expression::{SExpr, SExprs};
pub use laws::copied_expressions_are_equal;
pub use to_sexpr::ToSExpr;
