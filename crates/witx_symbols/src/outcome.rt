//! What the machine's runs are over symbols.

use crate::cells::Cells;
use crate::symbol::Symbol;
use crate::words::Word;
use std::rc::Rc;

/// What lies on a stack.
pub type Item = witx_run::Item<Rc<Symbol>, Word>;

/// What comes of a run of two traces in one world.
pub type Run = witx_run::Run<Rc<Symbol>, Word, Cells>;

/// What is known of a run that ended.
pub type Outcome = witx_run::Outcome<Rc<Symbol>, Word, Cells>;
