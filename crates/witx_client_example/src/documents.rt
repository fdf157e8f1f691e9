//! A text, parsed and adapted.

ghost use Rattle.std.specs.Prelude.{IfOk, map};
ghost use Rattle.witx_tools.specs.{Closed.{IsClosed}, Definitions.{definition_tree}, Ordered.{IsOrdered}};
ghost use Rattle.witx_client_example.specs.Whole.{IsWhole};

use crate::error::{ClientError, refused};
use std::alloc::Global;
use witx_tools::{Adapted, Document, RefusedDocument, adapt_document, parse};

/// The document of a text, adapted.
pub fn adapted_text(alloc: Global, source: &str) -> Result<Adapted, ClientError>
    ensures { IfOk result IsWhole }
{
    match parse(alloc, source) {
        Ok(document) => adapted(alloc, document),
        Err(error) => Err(refused(alloc, &error)),
    }
}

fn adapted(alloc: Global, document: Document) -> Result<Adapted, ClientError>
    requires ordered { IsOrdered (map definition_tree document.definitions) }
    requires closed { IsClosed (map definition_tree document.definitions) }
    ensures { IfOk result IsWhole }
{
    match adapt_document(alloc, document) {
        Ok(adapted) => Ok(adapted),
        Err(kept) => Err(refused_document(alloc, kept)),
    }
}

fn refused_document(alloc: Global, kept: RefusedDocument) -> ClientError {
    let told = refused(alloc, &kept.error);
    drop(kept);
    told
}
