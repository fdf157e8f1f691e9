//! The page of a document.
#![tactic(auto, using(crate::proofs::RefusedPages::refusal_rules))]

ghost use Rattle.std.specs.{Prelude.{◌≡◌, ◌⊎◌, ◌++◌, IfErr, IfOk, OnOk, map, string_bytes}, Map.{keys_of}};
ghost use Rattle.witx_ast.specs.{Definitions.{definition_tree}, Closed.{IsClosed}};
ghost use Rattle.witx_docs.specs.declared.error.DocsError.{DocsError};
ghost use Rattle.witx_docs.specs.LaidOut.{JudgedByDefinitions, NothingRefuses, RefusedFor};
ghost use Rattle.witx_docs.specs.Pages.{HasPageText, HasPageLinks, page_answer, page_contents, text_of_contents, missing_of_contents, text_with, missing_with};
ghost use Rattle.witx_markdown.specs.{Contents.{content_text, docs_text}, NamesKnown.{AllNamesKnown}};
ghost use Rattle.witx_markdown.specs.Links.{linked, missing, with_links, missing_in};

use crate::documentation::Documentation;
use crate::documents::put_document;
use crate::error::DocsError;
use crate::kept_layouts::kept_layouts;
use crate::place::Place;
use std::alloc::Global;
use witx_ast::{Definition, Document};
use witx_base::{Duplicate, Id, Items, OutOfMemory, Text};
use witx_layout::LayoutError;
use witx_markdown::{
    Branch, KnownIds, MdContent, MdHeading, MissingLinks, NamedLayouts, known_ids, put,
    put_content, put_func_line, put_linked, put_named_line, unknown_constant_type,
};

/// The page of a document, and the links of its documentation that lead nowhere: the text of the tree that
/// `generate` makes at a root alone, with the links put in last.
///
/// What stands between two backquotes links to the node whose id it is, with `::` as a dot. Where there
/// is none it stays, and is among the missing links, which come in the order of the text.
/// `UnknownConstantType` comes exactly where a constant's type is no typename of the document, for the
/// first such; `TooLarge` exactly where else a number that the page needs exceeds `usize::MAX`.
pub fn document_md(alloc: Global, document: &Document) -> Result<(Text, MissingLinks), DocsError>
    ensures text { IfOk result (HasPageText document.now.definitions) }
    ensures missing { IfOk result (HasPageLinks document.now.definitions) }
    ensures accepted { OnOk result (NothingRefuses document.now.definitions) }
    ensures refusal { IfErr result (RefusedFor document.now.definitions) }
{
    if let Some(name) = unknown_constant_type(document) {
        return Err(unknown_type_refusal(name));
    }
    let page = page_of(alloc, NamedLayouts::LookedThrough, document)?;
    Ok(page)
}

/// The same for a closed document, in which each name is that of a typename that stands before it, as a
/// parsed one is. It is made in one pass: the layout of each typename is kept by its name, so that no type
/// is laid out again where its name stands.
pub fn closed_document_md(
    alloc: Global,
    document: &Document,
) -> Result<(Text, MissingLinks), DocsError>
    requires closed { IsClosed (map definition_tree document.now.definitions) }
    ensures text { IfOk result (HasPageText document.now.definitions) }
    ensures missing { IfOk result (HasPageLinks document.now.definitions) }
    ensures accepted { OnOk result (NothingRefuses document.now.definitions) }
    ensures refusal { IfErr result (RefusedFor document.now.definitions) }
{
    if let Some(name) = unknown_constant_type(document) {
        return Err(unknown_type_refusal(name));
    }
    let layouts = kept_layouts(alloc, document)?;
    let page = page_of(alloc, NamedLayouts::Kept(&layouts), document)?;
    Ok(page)
}

/// The refusal that names the unknown type of a constant.
pub fn unknown_type_refusal(name: &Id) -> DocsError
    ensures { (result ≡ DocsError.OutOfMemory) ⊎ (result ≡ DocsError.UnknownConstantType name.now) }
{
    match name.copy() {
        Ok(name) => DocsError::UnknownConstantType { name },
        Err(OutOfMemory) => DocsError::OutOfMemory,
    }
}

/// The page of a document by what is known of its names, where the types of all constants are typenames.
fn page_of(
    alloc: Global,
    names: NamedLayouts,
    document: &Document,
) -> Result<(Text, MissingLinks), LayoutError>
    requires { AllNamesKnown names document.now.definitions }
    ensures text { IfOk result (HasPageText document.now.definitions) }
    ensures missing { IfOk result (HasPageLinks document.now.definitions) }
    ensures refusal { JudgedByDefinitions document.now.definitions result }
{
    let contents = contents(alloc, names, document.definitions().as_slice())?;
    let page = linked_page(alloc, contents.as_slice())?;
    Ok(page)
}

/// The contents of a document's page, in the order of the text and without links.
fn contents(
    alloc: Global,
    names: NamedLayouts,
    definitions: &[Definition],
) -> Result<Items<MdContent>, LayoutError>
    requires { AllNamesKnown names definitions.now }
    ensures contents { IfOk result (λ contents. contents ≡ page_contents (map definition_tree definitions.now)) }
    ensures refusal { JudgedByDefinitions definitions.now result }
{
    let mut branch = Branch::new(alloc, 1);
    let root = Place {
        node: 0,
        heading: MdHeading::new_header(1),
        id: None,
    };
    put_document(&mut branch, &root, names, definitions)?;
    Ok(branch.contents)
}

/// The text of contents with the links of their documentation, and the links that lead nowhere.
fn linked_page(alloc: Global, contents: &[MdContent]) -> Result<(Text, MissingLinks), OutOfMemory>
    ensures text { IfOk result (λ page. page.0 ≡ text_of_contents contents.now) }
    ensures missing { IfOk result (λ page. page.1 ≡ missing_of_contents contents.now) }
{
    let known = known_ids(alloc, contents)?;
    let mut out = String::new(alloc);
    let mut missing_links = MissingLinks::new(alloc);
    put_contents(&mut out, &mut missing_links, &known, contents)?;
    Ok((Text::from_string(out), missing_links))
}

fn put_contents(
    out: &mut String,
    missing_links: &mut MissingLinks,
    known: &KnownIds,
    contents: &[MdContent],
) -> Result<(), OutOfMemory>
    ensures text { OnOk result (string_bytes out.new ≡ string_bytes out.old ++ text_with (keys_of known.now) contents.now) }
    ensures missing { OnOk result (missing_links.new ≡ missing_links.old ++ missing_with (keys_of known.now) contents.now) }
{
    for content in contents {
        put_linked_content(out, missing_links, known, content)?;
    }
    Ok(())
}

/// Appends the text of a content with the links of its documentation.
fn put_linked_content(
    out: &mut String,
    missing_links: &mut MissingLinks,
    known: &KnownIds,
    content: &MdContent,
) -> Result<(), OutOfMemory>
    ensures text { OnOk result (string_bytes out.new
        ≡ string_bytes out.old ++ content_text (with_links (keys_of known.now) content.now)) }
    ensures missing { OnOk result (missing_links.new ≡ missing_links.old ++ missing_in (keys_of known.now) content.now) }
{
    match content {
        MdContent::Named(named) => {
            put_named_line(out, named)?;
            put_linked_docs(out, missing_links, known, named.docs.as_str())
        }
        MdContent::Func(func) => {
            put_func_line(out, func)?;
            put_linked_docs(out, missing_links, known, func.docs.as_str())
        }
        MdContent::Root | MdContent::Section(_) => put_content(out, content),
    }
}

fn put_linked_docs(
    out: &mut String,
    missing_links: &mut MissingLinks,
    known: &KnownIds,
    docs: &str,
) -> Result<(), OutOfMemory>
    ensures text { OnOk result (string_bytes out.new
        ≡ string_bytes out.old ++ docs_text (linked (keys_of known.now) docs.now)) }
    ensures missing { OnOk result (missing_links.new ≡ missing_links.old ++ missing (keys_of known.now) docs.now) }
{
    put(out, "\n")?;
    put_linked(out, missing_links, known, docs)?;
    put(out, "\n")
}

impl Documentation for Document {
    ghost answer = { λ d. page_answer (map definition_tree d.definitions) };

    /// The page of `document_md`. Refused as that is: `UnknownConstantType` comes exactly where a constant's type
    /// is no typename of the document, for the first such; `TooLarge` exactly where else a number that the page
    /// needs exceeds `usize::MAX`; want of memory may come in place of each.
    fn to_md(&self, alloc: Global) -> Result<Text, DocsError> {
        match document_md(alloc, self) {
            Ok((text, _)) => Ok(text),
            Err(refused) => Err(refused),
        }
    }
}
