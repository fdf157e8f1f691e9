//! What is shown of each type of an interface, added to a tree by hand: the ids of all nodes, in the order
//! of their numbers. Trees whose nodes were added in another order than that of their text.

use crate::tests::pages::{add, named, section};
use std::alloc::{AllocError, Global};
use witx::parse;
use witx_ast::{Datatype, Document, InterfaceFunc, Module, NamedType};
use witx_base::{OutOfMemory, Text};
use witx_docs::{
    Documentation, MdContent, MdFunc, MdHeading, MdSection, MdTree, ToMarkdown, document_md,
};

const TEXT: &str = r#"
(typename $r (record (field $x u8) (field $pair (tuple u8 u8))))
(typename $v (variant (case $a u8) (case $b)))
(typename $h (handle))
(module $m
    (import "memory" (memory))
    (@interface func (export "f")
        ;;; In.
        (param $p $r)
        (result $q u8)))"#;

const OF_RECORD: &str = " - n - n.x n.pair - n.pair.0 n.pair.1";

const OF_VARIANT: &str = " - n - - - - - n.a n.b";

const OF_HANDLE: &str = " - n -";

const OF_IMPORT: &str = " - -";

const OF_FUNC: &str = " - f - f.p - f.q";

const OF_PARAM: &str = " - n";

const OF_MODULE: &str = " - - - - - f - f.p - f.q";

const OF_DOCUMENT: &str =
    " - - - r - r.x r.pair - r.pair.0 r.pair.1 v - - - - - v.a v.b h - - m - - - f - f.p - f.q";

fn bullet(alloc: Global) -> Result<MdContent, OutOfMemory> {
    named(alloc, "n", "n", "Was.\n")
}

fn func(alloc: Global) -> Result<MdContent, OutOfMemory> {
    let func = MdFunc::new(alloc, MdHeading::new_header(1), "f", "f", "")?;
    Ok(MdContent::Func(func))
}

fn put_ids(out: &mut String, tree: &MdTree) -> Result<(), AllocError> {
    for node in 0..tree.len() {
        out.push(' ')?;
        out.push_str(tree.content(node).id().unwrap_or("-"))?;
    }
    Ok(())
}

fn has_ids(alloc: Global, tree: &MdTree, wanted: &str) -> bool {
    let mut out = String::new(alloc);
    put_ids(&mut out, tree).is_ok() && out.as_str() == wanted
}

/// A tree with one node of this content below its root.
fn rooted(alloc: Global, content: MdContent) -> Option<MdTree> {
    let Ok(mut tree) = MdTree::new(alloc) else {
        drop(content);
        return None;
    };
    add(&mut tree, 0, content).ok()?;
    Some(tree)
}

/// A tree of a root and this content, with what is shown of a type.
fn grown<M: ToMarkdown>(alloc: Global, shown: &M, content: MdContent) -> Option<MdTree> {
    let mut tree = rooted(alloc, content)?;
    if tree.len() != 2 {
        return None;
    }
    shown.generate(&mut tree, 1).ok()?;
    Some(tree)
}

fn shows<M: ToMarkdown>(
    alloc: Global,
    shown: &M,
    content: Result<MdContent, OutOfMemory>,
    wanted: &str,
) -> bool {
    let Ok(content) = content else {
        return false;
    };
    match grown(alloc, shown, content) {
        Some(tree) => has_ids(alloc, &tree, wanted),
        None => false,
    }
}

fn parts_show(alloc: Global, datatype: &Datatype, wanted: &str) -> bool {
    match datatype {
        Datatype::Record(record) => shows(alloc, record, bullet(alloc), wanted),
        Datatype::Variant(variant) => shows(alloc, variant, bullet(alloc), wanted),
        Datatype::Handle(handle) => shows(alloc, handle, bullet(alloc), wanted),
        _ => false,
    }
}

fn type_shows(alloc: Global, typename: &NamedType, wanted: &str) -> bool {
    shows(alloc, typename, bullet(alloc), wanted)
        && shows(alloc, &typename.tref, bullet(alloc), wanted)
        && shows(alloc, &**typename.type_(), bullet(alloc), wanted)
        && parts_show(alloc, typename.type_(), wanted)
}

fn types_show(alloc: Global, document: &Document) -> bool {
    let wanted = [OF_RECORD, OF_VARIANT, OF_HANDLE];
    for (typename, wanted) in document.typenames().zip(wanted.iter()) {
        if !type_shows(alloc, typename, wanted) {
            return false;
        }
    }
    true
}

fn func_shows(alloc: Global, function: &InterfaceFunc) -> bool {
    shows(alloc, function, func(alloc), OF_FUNC)
        && function
            .params
            .get(0)
            .is_some_and(|param| shows(alloc, param, bullet(alloc), OF_PARAM))
}

fn import_shows(alloc: Global, module: &Module) -> bool {
    match module.imports().next() {
        Some(import) => shows(alloc, &**import, section(alloc, 1), OF_IMPORT),
        None => false,
    }
}

fn module_shows(alloc: Global, module: &Module) -> bool {
    let func_shows = match module.funcs().next() {
        Some(function) => func_shows(alloc, function),
        None => false,
    };
    func_shows && import_shows(alloc, module) && shows(alloc, module, section(alloc, 1), OF_MODULE)
}

fn document_shows(alloc: Global, document: &Document) -> bool {
    let module_shows = match document.modules().next() {
        Some(module) => module_shows(alloc, module),
        None => false,
    };
    module_shows
        && types_show(alloc, document)
        && shows(alloc, document, section(alloc, 1), OF_DOCUMENT)
}

fn all_show(alloc: Global) -> bool {
    parse(alloc, TEXT).is_ok_and(|document| document_shows(alloc, &document))
}

#[test]
fn what_is_shown_of_each_type(rt: HostRuntime) {
    assert!(rt; all_show(rt.alloc()));
}

/// The parent and the title of each node below the root, which has the number 0.
const NODES: &[(usize, &str)] = &[(0, "a"), (0, "b"), (1, "c"), (2, "d"), (1, "e"), (3, "f")];

const TITLES: &str = "- a\n- c\n- f\n- e\n- b\n- d\n";

/// Nodes, with the children of each, then the children's children, and so on.
const BELOW: &[(usize, &[usize])] = &[
    (0, &[1, 2, 3, 5, 6, 4]),
    (1, &[3, 5, 6]),
    (2, &[4]),
    (3, &[6]),
    (6, &[]),
];

fn titled(alloc: Global, title: &str) -> Result<MdContent, OutOfMemory> {
    let section = MdSection::new(alloc, MdHeading::new_bullet(), title)?;
    Ok(MdContent::Section(section))
}

fn put_title(
    alloc: Global,
    tree: &mut MdTree,
    parent: usize,
    title: &str,
) -> Result<usize, OutOfMemory> {
    add(tree, parent, titled(alloc, title)?)
}

fn titles(alloc: Global) -> Result<MdTree, OutOfMemory> {
    let mut tree = MdTree::new(alloc)?;
    for (parent, title) in NODES {
        put_title(alloc, &mut tree, *parent, title)?;
    }
    Ok(tree)
}

fn has_below(tree: &MdTree, node: usize, wanted: &[usize]) -> bool {
    if node >= tree.len() {
        return false;
    }
    match tree.children(node) {
        Ok(numbers) => numbers.as_slice() == wanted,
        Err(_) => false,
    }
}

fn has_all_below(tree: &MdTree) -> bool {
    BELOW
        .iter()
        .all(|(node, wanted)| has_below(tree, *node, wanted))
}

fn reads(tree: &MdTree, wanted: &str) -> bool {
    match tree.text() {
        Ok(text) => text.as_str() == wanted,
        Err(_) => false,
    }
}

fn titles_are_in_order(alloc: Global) -> bool {
    match titles(alloc) {
        Ok(tree) => reads(&tree, TITLES) && has_all_below(&tree),
        Err(_) => false,
    }
}

#[test]
fn nodes_in_another_order(rt: HostRuntime) {
    assert!(rt; titles_are_in_order(rt.alloc()));
}

/// The text of what a document shows below a root.
fn text_of(alloc: Global, document: &Document) -> Option<Text> {
    let mut tree = MdTree::new(alloc).ok()?;
    if tree.len() != 1 {
        return None;
    }
    document.generate(&mut tree, 0).ok()?;
    tree.text().ok()
}

fn is_page(alloc: Global, document: &Document, text: &Text) -> bool {
    document_md(alloc, document).is_ok_and(|(page, _links)| page == *text)
        && document.to_md(alloc).is_ok_and(|page| page == *text)
}

fn has_its_text(alloc: Global, document: &Document) -> bool {
    text_of(alloc, document).is_some_and(|text| is_page(alloc, document, &text))
}

/// The page of a document whose documentation has no links is that text.
fn page_is_text(alloc: Global) -> bool {
    parse(alloc, TEXT).is_ok_and(|document| has_its_text(alloc, &document))
}

#[test]
fn a_page_is_the_text_of_a_tree(rt: HostRuntime) {
    assert!(rt; page_is_text(rt.alloc()));
}
