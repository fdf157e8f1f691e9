//! Files in order: each file once, at the first mention of its path, and the files that it uses
//! where it uses them.

ghost use Rattle.std.specs.Prelude.{◌≡◌, ◌∷◌, [], List, map, Ok, Err, IfErr, IfOk, OnOk, None};
ghost use Rattle.witx_base.specs.Paths.{Path, file_name};
ghost use Rattle.witx_syntax_tree.specs.Views.{noted_item};
ghost use Rattle.witx_order.specs.Items.{Declared, TextItem, items_of, item_of};
ghost use Rattle.witx_order.specs.Walks.{OpenFile, Place, open_file, place, reach, wish};
ghost use Rattle.witx_walk.specs.Answers.{CausedBy, NamelessIn, IsOrderedDocument, IsClosedDocument, WalkAnswers, answer_of, IsVerdictOf, WhereTold};
ghost use Rattle.witx_walk.specs.Steps.{AreTakenIn, HasNoFewerPaths, IsTakenIn, IsWell, NeverComes, WalkOutcome, StayTaken, Tracks};

use crate::error::WitxError;
use crate::path_set::PathSet;
use crate::steps::{canonical_path, declare, folder_of, make_room, shared_path, text_at, unread};
use crate::walking::{FileProgress, Walking};
use std::alloc::Global;
use witx_ast::{Definitions, Document};
use witx_base::{Duplicate, WitxPath};
use witx_check::{DocValidation, SharedPath};
use witx_files::WitxIo;
use witx_syntax::{SyntaxError, parse_document};
use witx_syntax_tree::{Documented, TopLevelSyntax};

/// The most files that are taken in.
const MOST_FILES: usize = 1024;

/// Follows a path that is reached: it is skipped, or its file is read and its items are taken in.
#[cycle(walk)]
fn take_in<I: WitxIo>(
    alloc: Global,
    walk: &mut Walking,
    joined: WitxPath,
    directory: &WitxPath,
    io: &mut I,
) -> Result<(), WitxError>
    ensures files { I.files io.new ≡ I.files io.old }
    ensures aliases { I.aliases io.new ≡ I.aliases io.old }
    ensures grows { OnOk result (HasNoFewerPaths walk.old.taken walk.new.taken) }
    ensures keeps { OnOk result (StayTaken walk.old.taken walk.new.taken) }
    ensures reached { OnOk result (IsTakenIn (I.aliases io.old) joined walk.new.taken) }
    ensures cause { CausedBy I.WitxIo NeverComes io.old io.new result }
    ensures well { IsWell walk.old → OnOk result (IsWell walk.new) }
    ensures told { WhereTold (I.files io.old) (I.aliases io.old) (λ w.
        (at : Place) (open_files : List OpenFile) (handed taken : List Path) (declared : List Declared)
        → Tracks walk.old taken declared
        → wish at ≡ reach (place open_files handed taken declared) joined directory.now
        → WalkOutcome w at (place open_files handed) walk.new (I.faults io.old) (I.faults io.new) result) }
{
    let path = canonical_path(alloc, joined, io)?;
    if walk.taken.contains(&path) {
        return Ok(());
    }
    if walk.taken.len() >= MOST_FILES {
        return Err(WitxError::TooManyFiles(path));
    }
    let text = text_at(alloc, &path, io)?;
    walk.taken.insert(&path)?;
    let folder = folder_of(&path, directory)?;
    match parse_document(alloc, text.as_str()) {
        Ok(document) => {
            let shared = shared_path(alloc, path)?;
            let path = SharedPath::new(&shared);
            make_room(walk, document.items.len())?;
            take_items(
                alloc,
                walk,
                &path,
                &folder,
                text.as_str(),
                document.items.as_slice(),
                io,
            )
        }
        Err(SyntaxError::Parse(fault)) => Err(WitxError::Parse(unread(path, fault))),
        Err(SyntaxError::OutOfMemory) => Err(WitxError::OutOfMemory),
    }
}

/// Takes in the items of an open file.
#[cycle(walk)]
fn take_items<I: WitxIo>(
    alloc: Global,
    walk: &mut Walking,
    path: &SharedPath<'_>,
    folder: &WitxPath,
    text: &str,
    items: &[Documented<'_, TopLevelSyntax<'_>>],
    io: &mut I,
) -> Result<(), WitxError>
    ensures files { I.files io.new ≡ I.files io.old }
    ensures aliases { I.aliases io.new ≡ I.aliases io.old }
    ensures grows { OnOk result (HasNoFewerPaths walk.old.taken walk.new.taken) }
    ensures keeps { OnOk result (StayTaken walk.old.taken walk.new.taken) }
    ensures cause { CausedBy I.WitxIo NeverComes io.old io.new result }
    ensures well { IsWell walk.old → OnOk result (IsWell walk.new) }
    ensures told { WhereTold (I.files io.old) (I.aliases io.old) (λ w.
        (open_files : List OpenFile) (handed taken : List Path) (declared : List Declared)
        → Tracks walk.old taken declared
        → WalkOutcome w
        (place (open_file path.now.path.now text.now folder.now (Ok (items_of (map noted_item items.now))) ∷ open_files) handed taken declared)
        (place open_files handed) walk.new (I.faults io.old) (I.faults io.new) result) }
{
    let mut progress = FileProgress::new(alloc, text);
    for item in items {
        take_item(alloc, walk, path, folder, &mut progress, item, io)?;
    }
    Ok(())
}

/// Takes in one item of an open file. A path that the file has used before is skipped, and neither
/// joined nor made canonical again.
#[cycle(walk)]
fn take_item<I: WitxIo>(
    alloc: Global,
    walk: &mut Walking,
    path: &SharedPath<'_>,
    folder: &WitxPath,
    progress: &mut FileProgress<'_>,
    item: &Documented<'_, TopLevelSyntax<'_>>,
    io: &mut I,
) -> Result<(), WitxError>
    ensures files { I.files io.new ≡ I.files io.old }
    ensures aliases { I.aliases io.new ≡ I.aliases io.old }
    ensures grows { OnOk result (HasNoFewerPaths walk.old.taken walk.new.taken) }
    ensures keeps { OnOk result (StayTaken walk.old.taken walk.new.taken) }
    ensures uses { AreTakenIn (I.aliases io.old) folder.now progress.old.uses walk.old.taken
        → OnOk result (AreTakenIn (I.aliases io.old) folder.now progress.new.uses walk.new.taken) }
    ensures cause { CausedBy I.WitxIo NeverComes io.old io.new result }
    ensures well { IsWell walk.old → OnOk result (IsWell walk.new) }
    ensures told { WhereTold (I.files io.old) (I.aliases io.old) (λ w.
        (left : List TextItem) (open_files : List OpenFile) (handed taken : List Path) (declared : List Declared)
        → Tracks walk.old taken declared
        → AreTakenIn (I.aliases io.old) folder.now progress.old.uses walk.old.taken
        → WalkOutcome w
        (place (open_file path.now.path.now progress.old.lines.text.now folder.now (Ok (item_of (noted_item item.now) ∷ left)) ∷ open_files)
        handed taken declared)
        (place (open_file path.now.path.now progress.old.lines.text.now folder.now (Ok left) ∷ open_files) handed)
        walk.new (I.faults io.old) (I.faults io.new) result) }
    ensures text { progress.new.lines.text.now ≡ progress.old.lines.text.now }
{
    match &item.item {
        TopLevelSyntax::Decl(declaration) => {
            declare(walk, path, &mut progress.lines, declaration, &item.comments)
        }
        TopLevelSyntax::Use(text) => {
            let used = WitxPath::new(alloc, text.as_str())?;
            if progress.uses.contains(&used) {
                return Ok(());
            }
            progress.uses.insert(&used)?;
            let joined = folder.join(&used)?;
            take_in(alloc, walk, joined, folder, io)
        }
    }
}

/// Takes in the file at a path that was handed over. A path that has a file name is its directory
/// joined with it.
fn take_handed<I: WitxIo>(
    alloc: Global,
    walk: &mut Walking,
    path: &WitxPath,
    io: &mut I,
) -> Result<(), WitxError>
    ensures files { I.files io.new ≡ I.files io.old }
    ensures aliases { I.aliases io.new ≡ I.aliases io.old }
    ensures cause { CausedBy I.WitxIo (λ p. (p ≡ path.now) × (file_name p ≡ None)) io.old io.new result }
    ensures well { IsWell walk.old → OnOk result (IsWell walk.new) }
    ensures told { WhereTold (I.files io.old) (I.aliases io.old) (λ w.
        (left taken : List Path) (declared : List Declared)
        → Tracks walk.old taken declared
        → WalkOutcome w (place [] (path.now ∷ left) taken declared) (place [] left) walk.new (I.faults io.old) (I.faults io.new) result) }
{
    let copy = path.copy()?;
    match path.file_name() {
        None => Err(WitxError::BadPath(copy)),
        Some(_) => match path.parent()? {
            Some(directory) => take_in(alloc, walk, copy, &directory, io),
            None => Err(WitxError::BadPath(copy)),
        },
    }
}

/// Takes in the files at the paths that were handed over, in order.
fn take_all<I: WitxIo>(
    alloc: Global,
    walk: &mut Walking,
    paths: &[WitxPath],
    io: &mut I,
) -> Result<(), WitxError>
    ensures files { I.files io.new ≡ I.files io.old }
    ensures aliases { I.aliases io.new ≡ I.aliases io.old }
    ensures cause { CausedBy I.WitxIo (NamelessIn paths.now) io.old io.new result }
    ensures well { IsWell walk.old → OnOk result (IsWell walk.new) }
    ensures told { WhereTold (I.files io.old) (I.aliases io.old) (λ w.
        (taken : List Path) (declared : List Declared)
        → Tracks walk.old taken declared
        → WalkOutcome w (place [] paths.now taken declared) (place [] []) walk.new (I.faults io.old) (I.faults io.new) result) }
{
    for path in paths {
        take_handed(alloc, walk, path, io)?;
    }
    Ok(())
}

fn new_walk(alloc: Global) -> Result<Walking, WitxError>
    ensures tracks { IfOk result (λ walk. Tracks walk [] []) }
    ensures memory { IfErr result (λ e. e ≡ WitxError.OutOfMemory) }
{
    Ok(Walking {
        validation: DocValidation::new(alloc)?,
        definitions: Definitions::new(alloc),
        taken: PathSet::new(alloc),
    })
}

fn read_all<I: WitxIo>(alloc: Global, paths: &[WitxPath], io: &mut I) -> Result<Document, WitxError>
    ensures files { I.files io.new ≡ I.files io.old }
    ensures aliases { I.aliases io.new ≡ I.aliases io.old }
    ensures cause { CausedBy I.WitxIo (NamelessIn paths.now) io.old io.new result }
    ensures ordered { IfOk result IsOrderedDocument }
    ensures closed { IfOk result IsClosedDocument }
    ensures answer { WalkAnswers I.WitxIo io.old io.new paths.now result }
{
    let mut walk = new_walk(alloc)?;
    take_all(alloc, &mut walk, paths, io)?;
    Ok(walk.validation.into_document(walk.definitions))
}

/// The document that the files at these paths mean, with the files that they use.
///
/// The paths are taken in order. Each has its directory and its file name, or is a `BadPath`. A path
/// is made canonical; its file is read once, at its first mention, and its items are taken in order,
/// a used file at its use, seen from the folder of the file that uses it. A canonical path behind
/// 1,024 others is `TooManyFiles`; a text that is no document is `Parse`, a declaration with a fault
/// `Validation`, whichever comes first. `Io` is the fault of a call of `io`: a file that the told
/// files lack, or a failed call.
pub fn parse_witx_with<I: WitxIo>(
    alloc: Global,
    paths: &[WitxPath],
    io: &mut I,
) -> Result<Document, WitxError>
    ensures files { I.files io.new ≡ I.files io.old }
    ensures aliases { I.aliases io.new ≡ I.aliases io.old }
    ensures cause { CausedBy I.WitxIo (NamelessIn paths.now) io.old io.new result }
    ensures ordered { IfOk result IsOrderedDocument }
    ensures closed { IfOk result IsClosedDocument }
    ensures answer { WalkAnswers I.WitxIo io.old io.new paths.now result }
    ensures verdict { IsVerdictOf (I.files io.old) (I.aliases io.old) paths.now (answer_of result) }
{
    read_all(alloc, paths, io)
}
