//! Pages in Markdown: a refusal that no text has, and the tree of a page node by node.

use std::alloc::Global;
use witx_ast::{Constant, Definition, Definitions, Document, Entries};
use witx_base::{Id, OutOfMemory, Text};
use witx_docs::{
    DocsError, MdContent, MdFunc, MdHeading, MdNamedType, MdSection, MdTree, document_md,
};

fn constant(alloc: Global, ty: &str) -> Result<Constant, OutOfMemory> {
    let ty = Id::new(alloc, ty)?;
    let name = Id::new(alloc, "most")?;
    let docs = Text::new(alloc, "")?;
    Ok(Constant {
        ty,
        name,
        value: 1,
        docs,
    })
}

/// A document of constants alone, which no text means.
fn only_constants(alloc: Global) -> Result<Document, OutOfMemory> {
    let mut definitions = Definitions::new(alloc);
    definitions.push(Definition::Constant(constant(alloc, "size")?))?;
    definitions.push(Definition::Constant(constant(alloc, "time")?))?;
    Ok(Document::new(definitions, Entries::new(alloc)))
}

fn is_of_size(refusal: &DocsError) -> bool {
    match refusal {
        DocsError::UnknownConstantType { name } => name.is("size"),
        _ => false,
    }
}

fn document_is_refused(alloc: Global, document: &Document) -> bool {
    document_md(alloc, document)
        .err()
        .is_some_and(|refusal| is_of_size(&refusal))
}

/// The first type that isn't there is told.
fn is_refused(alloc: Global) -> bool {
    only_constants(alloc).is_ok_and(|document| document_is_refused(alloc, &document))
}

#[test]
fn constants_of_unknown_types(rt: HostRuntime) {
    assert!(rt; is_refused(rt.alloc()));
}

fn is_content(content: &MdContent, id: Option<&str>, docs: Option<&str>) -> bool {
    content.id() == id && content.docs() == docs
}

/// Adds a node below another one that is there.
pub fn add(tree: &mut MdTree, parent: usize, content: MdContent) -> Result<usize, OutOfMemory> {
    if parent < tree.len() {
        tree.new_child(parent, content)
    } else {
        drop(content);
        Err(OutOfMemory)
    }
}

/// The section of a part, with a heading of that level.
pub fn section(alloc: Global, level: usize) -> Result<MdContent, OutOfMemory> {
    let section = MdSection::new(alloc, MdHeading::new_header(level), "Part")?;
    Ok(MdContent::Section(section))
}

/// A named type of this id, name and documentation, in a list.
pub fn named(alloc: Global, id: &str, name: &str, docs: &str) -> Result<MdContent, OutOfMemory> {
    let named = MdNamedType::new(alloc, MdHeading::new_bullet(), id, name, docs)?;
    Ok(MdContent::Named(named))
}

fn func(alloc: Global) -> Result<MdContent, OutOfMemory> {
    let header = MdHeading::new_header(2).new_level_down();
    Ok(MdContent::Func(MdFunc::new(alloc, header, "f", "f", "")?))
}

/// Adds a node of a content that was made.
fn put(
    tree: &mut MdTree,
    parent: usize,
    content: Result<MdContent, OutOfMemory>,
) -> Result<usize, OutOfMemory> {
    add(tree, parent, content?)
}

/// A section below the root, and below it a named type and a function.
fn grown(alloc: Global) -> Result<MdTree, OutOfMemory> {
    let mut tree = MdTree::new(alloc)?;
    let part = put(&mut tree, 0, section(alloc, 2))?;
    put(&mut tree, part, named(alloc, "a.b", "b", "Of a.\n"))?;
    put(&mut tree, part, func(alloc))?;
    Ok(tree)
}

/// The nodes, with the documentation of one.
fn holds_contents(tree: &MdTree, docs: &str) -> bool {
    tree.len() == 4
        && is_content(tree.content(0), None, None)
        && is_content(tree.content(1), None, None)
        && is_content(tree.content(2), Some("a.b"), Some(docs))
        && is_content(tree.content(3), Some("f"), Some(""))
}

fn is_below(tree: &MdTree) -> Result<bool, OutOfMemory> {
    if tree.len() != 4 {
        return Ok(false);
    }
    Ok(tree.ancestors(3)?.as_slice() == [1, 0].as_slice())
}

fn set_docs(alloc: Global, tree: &mut MdTree) -> Result<(), OutOfMemory> {
    let docs = Text::new(alloc, "Of c.\n")?;
    if tree.len() == 4 {
        tree.content_mut(2).set_docs(docs);
    }
    Ok(())
}

fn a_tree_grows(alloc: Global) -> Result<bool, OutOfMemory> {
    let mut tree = grown(alloc)?;
    let was = holds_contents(&tree, "Of a.\n") && is_below(&tree).unwrap_or(false);
    let is_set = set_docs(alloc, &mut tree).is_ok();
    Ok(was && is_set && holds_contents(&tree, "Of c.\n"))
}

fn headings_end() -> bool {
    let deepest = MdHeading::new_header(65_535);
    deepest.new_level_down() == deepest
        && MdHeading::new_header(usize::MAX) == deepest
        && MdHeading::new_bullet().new_level_down() == MdHeading::Bullet
}

#[test]
fn nodes_of_a_page(rt: HostRuntime) {
    assert!(rt; a_tree_grows(rt.alloc()).unwrap_or(false) && headings_end());
}
