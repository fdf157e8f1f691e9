//! The steps of reading files in order: each answers one call, with the error that tells where.

ghost use Rattle.std.specs.Prelude.{◌≡◌, List, Option, ℕ, IfOk, IfErr, OnOk};
ghost use Rattle.witx_order.specs.{Items.{Declared}, Walks.{folder_of}};
ghost use Rattle.witx_files.specs.Files.{Files};
ghost use Rattle.witx_walk.specs.{Answers.{Caused, told_fault}, Meaning.{fault_behind}};
ghost use Rattle.witx_walk.specs.Readings.{syntax_fault};
ghost use Rattle.witx_walk.specs.Steps.{Holding, IsDeclared, declared_at, IsGot, IsReached, IsWell, NeverComes, StaysTracked};
ghost use Rattle.witx_language.specs.FaultPlaces.{fault_view};

use crate::error::WitxError;
use crate::walking::Walking;
use std::alloc::Global;
use std::rc::Rc;
use witx_base::{Duplicate, Text, WitxPath};
use witx_check::{CheckError, LineCursor, SharedPath};
use witx_files::{IoError, WitxIo};
use witx_syntax::{ParseError, ParseFault};
use witx_syntax_tree::{CommentSyntax, DeclSyntax};

/// The path that `joined` stands for. The fault of a call has `joined` itself, so that a failed call is
/// never answered by want of memory.
pub fn canonical_path<I: WitxIo>(
    alloc: Global,
    joined: WitxPath,
    io: &mut I,
) -> Result<WitxPath, WitxError>
    ensures files { I.files io.new ≡ I.files io.old }
    ensures aliases { I.aliases io.new ≡ I.aliases io.old }
    ensures answer { IsReached (I.aliases io.old) joined (I.faults io.old) (I.faults io.new) result }
{
    match io.canonicalize(alloc, &joined) {
        Ok(path) => Ok(path),
        Err(IoError::Fault(fault)) => Err(WitxError::Io(joined, fault)),
        Err(IoError::OutOfMemory) => Err(WitxError::OutOfMemory),
    }
}

/// The text at a canonical path. The path of the error is made before the call, for the same reason.
pub fn text_at<I: WitxIo>(alloc: Global, path: &WitxPath, io: &mut I) -> Result<Text, WitxError>
    ensures files { I.files io.new ≡ I.files io.old }
    ensures aliases { I.aliases io.new ≡ I.aliases io.old }
    ensures answer { IsGot (I.files io.old) path.now (I.faults io.old) (I.faults io.new) result }
{
    let asked = path.copy()?;
    match io.fgets(alloc, path) {
        Ok(text) => Ok(text),
        Err(IoError::Fault(fault)) => Err(WitxError::Io(asked, fault)),
        Err(IoError::OutOfMemory) => Err(WitxError::OutOfMemory),
    }
}

/// The fault of the text of a file.
pub fn unread(path: WitxPath, fault: ParseFault) -> ParseError
    ensures path { result.path ≡ path }
    ensures fault { told_fault result ≡ syntax_fault (fault_view fault) }
{
    ParseError {
        message: fault.message,
        path,
        line: fault.line,
        column: fault.column,
    }
}

/// The folder from which the uses of a file are seen: its parent, or else the directory that led
/// there.
pub fn folder_of(path: &WitxPath, directory: &WitxPath) -> Result<WitxPath, WitxError>
    ensures folder { IfOk result (λ f. f ≡ folder_of path.now directory.now) }
    ensures memory { IfErr result (λ e. e ≡ WitxError.OutOfMemory) }
{
    match path.parent()? {
        Some(folder) => Ok(folder),
        None => Ok(directory.copy()?),
    }
}

/// The path, to be shared by the places of its file.
pub fn shared_path(alloc: Global, path: WitxPath) -> Result<Rc<WitxPath>, WitxError>
    ensures path { IfOk result (λ shared. shared.value ≡ path) }
    ensures memory { IfErr result (λ e. e ≡ WitxError.OutOfMemory) }
{
    match Rc::new(alloc, path) {
        Ok(shared) => Ok(shared),
        Err(_) => Err(WitxError::OutOfMemory),
    }
}

/// Takes memory at once for as many declarations as a file has items, of which some are uses; what has been read stays.
#[tactic(auto, using(crate::proofs::Room::room_rules))]
pub fn make_room(walk: &mut Walking, items: usize) -> Result<(), WitxError>
    ensures taken { walk.new.taken ≡ walk.old.taken }
    ensures tracks { StaysTracked walk.old walk.new }
    ensures well { IsWell walk.old → IsWell walk.new }
    ensures memory { IfErr result (λ e. e ≡ WitxError.OutOfMemory) }
{
    walk.definitions.reserve(items)?;
    walk.validation.reserve(items)?;
    Ok(())
}

/// Checks a declaration of the file at `path`, whose text `lines` goes through, and keeps its
/// definition.
pub fn declare(
    walk: &mut Walking,
    path: &SharedPath<'_>,
    lines: &mut LineCursor<'_>,
    declaration: &DeclSyntax<'_>,
    comments: &CommentSyntax<'_>,
) -> Result<(), WitxError>
    ensures taken { walk.new.taken ≡ walk.old.taken }
    ensures cause { (files : Option Files) (count : ℕ) → Caused NeverComes files count count result }
    ensures well { IsWell walk.old → OnOk result (IsWell walk.new) }
    ensures declared { (declared : List Declared) → Holding walk.old declared →
        IsDeclared
        (fault_behind declared (declared_at path.now.path.now lines.old.text.now comments.now declaration.now))
        declared (declared_at path.now.path.now lines.old.text.now comments.now declaration.now) walk.new result }
    ensures text { lines.new.text.now ≡ lines.old.text.now }
{
    let definitions = &mut walk.definitions;
    match walk
        .validation
        .validate_decl(lines, path, declaration, comments, definitions)
    {
        Ok(()) => Ok(()),
        Err(CheckError::Validation(fault)) => Err(WitxError::Validation(fault)),
        Err(CheckError::OutOfMemory) => Err(WitxError::OutOfMemory),
    }
}
