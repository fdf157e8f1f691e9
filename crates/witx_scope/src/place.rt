//! Places in the files of declarations. Those of one file share its path.

ghost use Rattle.std.specs.Prelude.{◌≡◌, IfOk};
ghost use Rattle.witx_files.specs.declared.location.Location.{Location};
ghost use Rattle.witx_scope.specs.Places.{location_in};

use std::alloc::Global;
use std::marker::Model;
use std::rc::Rc;
use witx_base::{Duplicate, OutOfMemory, WitxPath};
use witx_files::Location;
use witx_lex::LineCursor;

/// A path, together with a shared copy of it for the places of its file.
#[derive(Clone, Copy)]
pub struct SharedPath<'a> {
    /// The path.
    pub path: &'a WitxPath,
    shared: &'a Rc<WitxPath>,
    ghost same: { shared.now.value ≡ path.now },
}

impl<'a> SharedPath<'a> {
    /// A shared path.
    pub fn new(shared: &'a Rc<WitxPath>) -> SharedPath<'a>
        ensures { result.path.now ≡ shared.now.value }
    {
        SharedPath {
            path: &**shared,
            shared,
        }
    }

    /// The place of the byte at an offset of the file's text, to which the cursor moves.
    #[tactic(auto, unfolding(crate::specs::Places::location_in))]
    pub fn place(&self, lines: &mut LineCursor<'_>, at: usize) -> Result<SharedPlace, OutOfMemory>
        ensures place { IfOk result (λ p. p ≡ location_in lines.old.text.now self.now.path.now at) }
        ensures text { lines.new.text.now ≡ lines.old.text.now }
    {
        let (line, column) = lines.line_column(at);
        Ok(SharedPlace {
            path: self.shared.clone()?,
            line,
            column,
        })
    }
}

/// A path with a shared copy of it.
pub fn with_shared<'a>(path: &'a WitxPath, shared: &'a Rc<WitxPath>) -> SharedPath<'a>
    requires { shared.now.value ≡ path.now }
    ensures { result.path.now ≡ path.now }
{
    SharedPath { path, shared }
}

/// The path, to be shared by the places of its file; it is kept for the next declaration.
pub fn shared_path(
    kept: &mut Option<Rc<WitxPath>>,
    alloc: Global,
    path: &WitxPath,
) -> Result<Rc<WitxPath>, OutOfMemory>
    ensures { IfOk result (λ shared. shared.value ≡ path.now) }
{
    if let Some(shared) = &*kept {
        if **shared == *path {
            return Ok(shared.clone()?);
        }
    }
    let shared = Rc::new(alloc, path.copy()?)?;
    *kept = Some(shared.clone()?);
    Ok(shared)
}

/// A place in a file, which contracts see as its location. The places of one file share its path, so
/// that a kept name takes no memory for it.
#[derive(Drop)]
pub struct SharedPlace {
    path: Rc<WitxPath>,
    line: usize,
    column: usize,
}

impl Model for SharedPlace {
    ghost use Rattle.witx_files.specs.declared.location.Location.{Location};

    ghost Value = { Location };

    ghost view = { λ p. record { path = p.path.value; line = p.line; column = p.column } };
}

impl SharedPlace {
    /// The location, with a path of its own.
    pub fn location(&self) -> Result<Location, OutOfMemory>
        ensures { IfOk result (λ l. l ≡ self.now) }
    {
        Ok(Location {
            path: self.path.copy()?,
            line: self.line,
            column: self.column,
        })
    }
}

impl Duplicate for SharedPlace {
    ghost is_copy = { λ place made. made ≡ place };

    fn copy(&self) -> Result<SharedPlace, OutOfMemory> {
        Ok(SharedPlace {
            path: self.path.clone()?,
            line: self.line,
            column: self.column,
        })
    }
}
