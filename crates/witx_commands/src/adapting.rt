//! `adapt`: the document that files mean with its layouts and traces, or the refusal that comes first.

ghost use Rattle.std.specs.Prelude.{◌≡◌, All, Contains, IfErr, IfOk, List, None, Ok, OnOk, Some};
ghost use Rattle.witx_base.specs.{Causes.{Rose}, Paths.{file_name}};
ghost use Rattle.witx_files.specs.Files.{Aliases, Files};
ghost use Rattle.witx_ast.specs.{Closed.{IsClosed}, Definitions.{DefinitionTree}};
ghost use Rattle.witx_adapt.specs.{Adaptable.{IsAdaptable}, Entries.{IsFaithful}};
ghost use Rattle.witx_layout.specs.Layouts.{all_layouts};
ghost use Rattle.witx_commands.specs.Adapting.{AdaptRefuses, HasAdaptCause, HasEntries, IsMeantByFiles, IsParsedDocument, defined, document_error_refusal, unadapted_refusal, text_refusal};

use crate::error::{AdaptError, Unadapted};
use crate::laws::valid_files_are_not_refused;
use crate::parsing::parsed;
use std::alloc::Global;
use witx_adapt::{Adapted, DocumentError, adapt_document};
use witx_base::WitxPath;
use witx_files::WitxIo;
use witx_walk::WitxError;

/// The document that the files at these paths mean, with the layouts of its typenames, and with the
/// signature and the events of both sides of each function, which are faithful to it.
///
/// The paths are read as by [`parse_witx_with`](witx_walk::parse_witx_with); then the first type that doesn't fit its tag is
/// refused, else the first typename that is too large, else the first function that can't be lowered.
pub fn adapt<I: WitxIo>(
    alloc: Global,
    paths: &[WitxPath],
    io: &mut I,
) -> Result<Adapted, AdaptError>
    ensures document { IfOk result (λ a.
        IsParsedDocument (I.files io.old) (I.aliases io.old) paths.now (I.faults io.old) (I.faults io.new) (Ok (defined a))) }
    ensures layouts { IfOk result (λ a. a.layouts ≡ all_layouts (defined a)) }
    ensures functions { IfOk result HasEntries }
    ensures faithful { IfOk result (λ a. All IsFaithful a.functions) }
    ensures closed { IfOk result (λ a. IsClosed (defined a)) }
    ensures adaptable { IfOk result (λ a. IsAdaptable (defined a)) }
    ensures refused { IfErr result
        (AdaptRefuses (I.files io.old) (I.aliases io.old) paths.now (I.faults io.old) (I.faults io.new)) }
    ensures cause { IfErr result
        (HasAdaptCause (λ p. Contains paths.now p × (file_name p ≡ None))
        (I.files io.old) (I.faults io.old) (I.faults io.new)) }
    ensures complete { (files : Files) (aliases : Aliases) (ds : List DefinitionTree)
        → I.files io.old ≡ Some files → I.aliases io.old ≡ Some aliases
        → IsParsedDocument (Some files) (Some aliases) paths.now 0 0 (Ok ds) → IsAdaptable ds
        → (Rose (I.faults io.old) (I.faults io.new) → ⊥) → IfErr result (λ e. e ≡ AdaptError.OutOfMemory) }
    ensures no_fault { OnOk result (I.faults io.new ≡ I.faults io.old) }
    ensures files { I.files io.new ≡ I.files io.old }
    ensures aliases { I.aliases io.new ≡ I.aliases io.old }
{
    valid_files_are_not_refused();
    match adapted(alloc, paths, io) {
        Ok(adapted) => Ok(adapted),
        Err(unadapted) => Err(refusal_of(unadapted)),
    }
}

/// The same as [`adapt`], which hands back the document that is refused.
#[tactic(auto, using(crate::proofs::Refusing::refusing_rules))]
pub fn adapted<I: WitxIo>(
    alloc: Global,
    paths: &[WitxPath],
    io: &mut I,
) -> Result<Adapted, Unadapted>
    ensures document { IfOk result (λ a.
        IsParsedDocument (I.files io.old) (I.aliases io.old) paths.now (I.faults io.old) (I.faults io.new) (Ok (defined a))) }
    ensures layouts { IfOk result (λ a. a.layouts ≡ all_layouts (defined a)) }
    ensures functions { IfOk result HasEntries }
    ensures faithful { IfOk result (λ a. All IsFaithful a.functions) }
    ensures closed { IfOk result (λ a. IsClosed (defined a)) }
    ensures adaptable { IfOk result (λ a. IsAdaptable (defined a)) }
    ensures refused { IfErr result (λ u.
        AdaptRefuses (I.files io.old) (I.aliases io.old) paths.now (I.faults io.old) (I.faults io.new) (unadapted_refusal u)) }
    ensures meant { IfErr result
        (IsMeantByFiles (I.files io.old) (I.aliases io.old) paths.now (I.faults io.old) (I.faults io.new)) }
    ensures cause { IfErr result (λ u. HasAdaptCause (λ p. Contains paths.now p × (file_name p ≡ None))
        (I.files io.old) (I.faults io.old) (I.faults io.new) (unadapted_refusal u)) }
    ensures no_fault { OnOk result (I.faults io.new ≡ I.faults io.old) }
    ensures files { I.files io.new ≡ I.files io.old }
    ensures aliases { I.aliases io.new ≡ I.aliases io.old }
{
    match parsed(alloc, paths, io) {
        Ok(document) => match adapt_document(alloc, document) {
            Ok(adapted) => Ok(adapted),
            Err(refused) => Err(Unadapted::Document(refused)),
        },
        Err(error) => Err(Unadapted::Texts(error)),
    }
}

/// What is told of files that can't be adapted.
fn refusal_of(unadapted: Unadapted) -> AdaptError
    ensures { result ≡ unadapted_refusal unadapted }
{
    match unadapted {
        Unadapted::Texts(error) => text_refusal(error),
        Unadapted::Document(refused) => document_refusal(refused.error),
    }
}

/// A refusal of texts.
fn text_refusal(error: WitxError) -> AdaptError
    ensures { result ≡ text_refusal error }
{
    match error {
        WitxError::OutOfMemory => AdaptError::OutOfMemory,
        refused => AdaptError::Refused(refused),
    }
}

/// A refusal of a document.
fn document_refusal(error: DocumentError) -> AdaptError
    ensures { result ≡ document_error_refusal error }
{
    match error {
        DocumentError::TagTooNarrow(tag) => AdaptError::TagTooNarrow(tag),
        DocumentError::TooLarge { definition } => AdaptError::TooLarge { definition },
        DocumentError::Unlowerable {
            module,
            function,
            place,
        } => AdaptError::Unlowerable {
            module,
            function,
            place,
        },
        DocumentError::OutOfMemory => AdaptError::OutOfMemory,
    }
}
