//! The statuses with which a run ends.

/// The command is done.
pub const DONE: u8 = 0;

/// The command's call refused the files.
pub const REFUSED: u8 = 1;

/// The words have no form.
pub const NO_FORM: u8 = 2;

/// The source failed.
pub const UNREAD: u8 = 3;

/// A sink failed.
pub const UNWRITTEN: u8 = 4;

/// There was no memory.
pub const NO_MEMORY: u8 = 5;

/// The input is no bundle.
pub const NO_BUNDLE: u8 = 6;
