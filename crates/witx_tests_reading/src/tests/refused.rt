//! Calls that find no memory leave what they were to change as it was: each is made once more then, and
//! in the end everything stands there once. With memory each is made once; `rt try --test --fail-alloc N`
//! refuses the allocation numbered N.

use crate::tests::check::{no_comments, takes};
use std::alloc::Global;
use std::rc::Rc;
use witx_ast::{Constant, Definition, Definitions, NamedType};
use witx_base::{Id, Items, NameMap, Text, WitxPath};
use witx_bytes::ByteMemory;
use witx_check::DocValidation;
use witx_docs::{MdContent, MdHeading, MdNamedType, MdSection, MdTree, Numbers, ToMarkdown};
use witx_files::{MockFs, WitxIo};
use witx_fixtures_run::typename_of;
use witx_lex::Span;
use witx_syntax::{BuiltinSyntax, DeclSyntax, IdSyntax, TypedefSyntax, TypenameSyntax};

fn id(alloc: Global, text: &str) -> Option<Id> {
    match Id::new(alloc, text) {
        Ok(id) => Some(id),
        Err(_) => Id::new(alloc, text).ok(),
    }
}

fn text(alloc: Global, text: &str) -> Option<Text> {
    match Text::new(alloc, text) {
        Ok(text) => Some(text),
        Err(_) => Text::new(alloc, text).ok(),
    }
}

fn path(alloc: Global, text: &str) -> Option<WitxPath> {
    match WitxPath::new(alloc, text) {
        Ok(path) => Some(path),
        Err(_) => WitxPath::new(alloc, text).ok(),
    }
}

fn push_number(list: &mut Items<usize>, number: usize) -> Option<()> {
    match list.push(number) {
        Ok(()) => Some(()),
        Err(_) => list.push(number).ok(),
    }
}

fn list_is_kept(alloc: Global) -> Option<bool> {
    let mut list = Items::new(alloc);
    for number in 0..20 {
        push_number(&mut list, number)?;
    }
    let mut are_places = list.len() == 20;
    for (place, number) in list.iter().enumerate() {
        are_places = are_places && place == *number;
    }
    Some(are_places)
}

const NAMES: [&str; 6] = ["c", "a", "f", "b", "e", "d"];

fn put_name(alloc: Global, map: &mut NameMap<usize>, name: &str, value: usize) -> Option<()> {
    match map.insert(id(alloc, name)?, value) {
        Ok(()) => Some(()),
        Err(_) => map.insert(id(alloc, name)?, value).ok(),
    }
}

fn map_is_kept(alloc: Global) -> Option<bool> {
    let mut map = NameMap::new(alloc);
    for (place, name) in NAMES.iter().enumerate() {
        put_name(alloc, &mut map, name, place)?;
        put_name(alloc, &mut map, name, place.saturating_add(1))?;
    }
    let mut are_found = map.len() == NAMES.len();
    for (place, name) in NAMES.iter().enumerate() {
        let found = map.get(&id(alloc, name)?).copied();
        are_found = are_found && found == Some(place.saturating_add(1));
    }
    Some(are_found)
}

fn put_file(alloc: Global, files: &mut MockFs, name: &str) -> Option<()> {
    match files.insert(path(alloc, name)?, text(alloc, name)?) {
        Ok(()) => Some(()),
        Err(_) => files.insert(path(alloc, name)?, text(alloc, name)?).ok(),
    }
}

fn file_of(alloc: Global, files: &mut MockFs, path: &WitxPath) -> Option<Text> {
    match files.fgets(alloc, path) {
        Ok(text) => Some(text),
        Err(_) => files.fgets(alloc, path).ok(),
    }
}

fn files_are_kept(alloc: Global) -> Option<bool> {
    let mut files = MockFs::new(alloc);
    for name in NAMES {
        put_file(alloc, &mut files, name)?;
    }
    let mut are_found = true;
    for name in NAMES {
        are_found = are_found && file_of(alloc, &mut files, &path(alloc, name)?)?.as_str() == name;
    }
    Some(are_found)
}

fn section(alloc: Global, title: &str) -> Option<MdContent> {
    match MdSection::new(alloc, MdHeading::new_bullet(), title) {
        Ok(section) => Some(MdContent::Section(section)),
        Err(_) => Some(MdContent::Section(MdSection::new(
            alloc,
            MdHeading::new_bullet(),
            title,
        ).ok()?)),
    }
}

fn new_tree(alloc: Global) -> Option<MdTree> {
    match MdTree::new(alloc) {
        Ok(tree) => Some(tree),
        Err(_) => MdTree::new(alloc).ok(),
    }
}

/// The number of a new node below the last one, or none where it is refused.
fn new_node(alloc: Global, tree: &mut MdTree, title: &str) -> Option<Option<usize>> {
    let len = tree.len();
    if len == 0 {
        return None;
    }
    let content = section(alloc, title)?;
    Some(tree.new_child(len - 1, content).ok())
}

fn grow(alloc: Global, tree: &mut MdTree, title: &str) -> Option<usize> {
    match new_node(alloc, tree, title)? {
        Some(number) => Some(number),
        None => new_node(alloc, tree, title)?,
    }
}

/// The nodes above one, from its parent on.
fn above(tree: &MdTree, node: usize) -> Option<Numbers> {
    if node >= tree.len() {
        return None;
    }
    match tree.ancestors(node) {
        Ok(above) => Some(above),
        Err(_) => tree.ancestors(node).ok(),
    }
}

/// Each node below the one before.
fn tree_is_kept(alloc: Global) -> Option<bool> {
    let mut tree = new_tree(alloc)?;
    let mut are_numbers = true;
    for (place, name) in NAMES.iter().enumerate() {
        are_numbers = are_numbers && grow(alloc, &mut tree, name)? == place.saturating_add(1);
    }
    let above = above(&tree, 6)?;
    Some(are_numbers && tree.len() == 7 && above.as_slice() == [5, 4, 3, 2, 1, 0].as_slice())
}

/// The typename that is shown.
fn record(alloc: Global) -> Option<Rc<NamedType>> {
    let text = "(typename $t (record (field $x u8) (field $pair (tuple u8 u8))))";
    match typename_of(alloc, text) {
        Some(record) => Some(record),
        None => typename_of(alloc, text),
    }
}

fn named(alloc: Global) -> Option<MdContent> {
    let bullet = MdHeading::new_bullet();
    match MdNamedType::new(alloc, bullet, "n", "n", "") {
        Ok(named) => Some(MdContent::Named(named)),
        Err(_) => Some(MdContent::Named(MdNamedType::new(alloc, bullet, "n", "n", "").ok()?)),
    }
}

/// Adds the node of a type below the root, where it isn't refused.
fn is_named(alloc: Global, tree: &mut MdTree) -> Option<bool> {
    if tree.len() != 1 {
        return None;
    }
    let content = named(alloc)?;
    Some(tree.new_child(0, content).is_ok())
}

/// Shows a type at the node numbered 1, where it isn't refused.
fn is_shown(tree: &mut MdTree, record: &NamedType) -> bool {
    if tree.len() < 2 {
        return false;
    }
    record.generate(tree, 1).is_ok()
}

fn show(tree: &mut MdTree, record: &NamedType) -> bool {
    is_shown(tree, record) || is_shown(tree, record)
}

/// The nodes of a record that is shown twice, each with its id and the nodes above it. What stands in a
/// section comes behind it, below the same node.
const SHOWN: &[(usize, &str, &[usize])] = &[
    (0, "-", &[]),
    (1, "n", &[0]),
    (2, "-", &[1, 0]),
    (3, "n.x", &[1, 0]),
    (4, "n.pair", &[1, 0]),
    (5, "-", &[4, 1, 0]),
    (6, "n.pair.0", &[4, 1, 0]),
    (7, "n.pair.1", &[4, 1, 0]),
    (8, "-", &[1, 0]),
    (9, "n.x", &[1, 0]),
    (10, "n.pair", &[1, 0]),
    (11, "-", &[10, 1, 0]),
    (12, "n.pair.0", &[10, 1, 0]),
    (13, "n.pair.1", &[10, 1, 0]),
];

fn has_id(tree: &MdTree, node: usize, id: &str) -> bool {
    if node >= tree.len() {
        return false;
    }
    tree.content(node).id().unwrap_or("-") == id
}

fn is_below(tree: &MdTree, node: usize, numbers: &[usize]) -> bool {
    match above(tree, node) {
        Some(above) => above.as_slice() == numbers,
        None => false,
    }
}

fn are_shown(tree: &MdTree) -> bool {
    for (node, id, numbers) in SHOWN {
        if !has_id(tree, *node, id) || !is_below(tree, *node, numbers) {
            return false;
        }
    }
    tree.len() == SHOWN.len()
}

fn shown_nodes_are_kept(alloc: Global) -> Option<bool> {
    let record = record(alloc)?;
    let mut tree = new_tree(alloc)?;
    let is_named = is_named(alloc, &mut tree)? || is_named(alloc, &mut tree)?;
    let is_shown = show(&mut tree, &record) && show(&mut tree, &record);
    Some(is_named && is_shown && are_shown(&tree))
}

fn constant(alloc: Global, name: &str) -> Option<Definition> {
    let ty = id(alloc, "t")?;
    let name = id(alloc, name)?;
    let docs = text(alloc, "")?;
    Some(Definition::Constant(Constant {
        ty,
        name,
        value: 1,
        docs,
    }))
}

fn define(alloc: Global, definitions: &mut Definitions, name: &str) -> Option<()> {
    match definitions.push(constant(alloc, name)?) {
        Ok(()) => Some(()),
        Err(_) => definitions.push(constant(alloc, name)?).ok(),
    }
}

fn is_constant(definition: &Definition, name: &str) -> bool {
    match definition {
        Definition::Constant(constant) => constant.name.is(name),
        Definition::Typename(_) | Definition::Module(_) => false,
    }
}

fn definitions_are_kept(alloc: Global) -> Option<bool> {
    let mut definitions = Definitions::new(alloc);
    for name in NAMES {
        define(alloc, &mut definitions, name)?;
    }
    let mut are_named = definitions.len() == NAMES.len();
    for (definition, wanted) in definitions.iter().zip(NAMES.iter()) {
        are_named = are_named && is_constant(definition, wanted);
    }
    Some(are_named)
}

/// The typename of a number of two bytes, whose name is the whole text.
fn typename(name: &str) -> DeclSyntax<'_> {
    DeclSyntax::Typename(TypenameSyntax {
        ident: IdSyntax {
            name,
            span: Span { start: 0, end: 1 },
        },
        def: TypedefSyntax::Builtin(BuiltinSyntax::U16),
    })
}

/// Whether a new validator takes a typename in: after a refusal the old one may know its name.
fn is_declared(alloc: Global, path: &WitxPath, definitions: &mut Definitions, name: &str) -> bool {
    let Ok(mut validation) = DocValidation::new(alloc) else {
        return false;
    };
    let mut scope = validation.scope(name, path);
    takes(&mut scope, typename(name), &no_comments(alloc), definitions)
}

fn declare(alloc: Global, path: &WitxPath, definitions: &mut Definitions, name: &str) -> bool {
    is_declared(alloc, path, definitions, name) || is_declared(alloc, path, definitions, name)
}

fn is_typename(definition: &Definition, name: &str) -> bool {
    match definition {
        Definition::Typename(named) => named.name.is(name),
        Definition::Constant(_) | Definition::Module(_) => false,
    }
}

fn declarations_are_kept(alloc: Global) -> Option<bool> {
    let path = path(alloc, "/a")?;
    let mut definitions = Definitions::new(alloc);
    let mut are_named = true;
    for name in NAMES {
        are_named = are_named && declare(alloc, &path, &mut definitions, name);
    }
    are_named = are_named && definitions.len() == NAMES.len();
    for (definition, wanted) in definitions.iter().zip(NAMES.iter()) {
        are_named = are_named && is_typename(definition, wanted);
    }
    Some(are_named)
}

/// A second call for a range of which a byte is held would be refused as taken.
fn place(memory: &mut ByteMemory, at: u32) -> Option<()> {
    if at == 0 || at > 1000 {
        return None;
    }
    match memory.place(at, 12) {
        Ok(()) => Some(()),
        Err(_) => memory.place(at, 12).ok(),
    }
}

fn bytes_are_kept(alloc: Global) -> Option<bool> {
    let mut memory = ByteMemory::new(alloc);
    for at in [16, 100, 50, 28] {
        place(&mut memory, at)?;
    }
    Some(
        memory.holds(16, 24)
            && memory.holds(50, 12)
            && memory.holds(100, 12)
            && memory.byte(40).is_none()
            && memory.byte(99).is_none(),
    )
}

#[test]
fn refused_calls_change_nothing(rt: HostRuntime) {
    let alloc = rt.alloc();
    let lists = list_is_kept(alloc) == Some(true) && map_is_kept(alloc) == Some(true);
    let files = files_are_kept(alloc) == Some(true) && bytes_are_kept(alloc) == Some(true);
    let nodes = tree_is_kept(alloc) == Some(true) && shown_nodes_are_kept(alloc) == Some(true);
    let definitions = definitions_are_kept(alloc) == Some(true)
        && declarations_are_kept(alloc) == Some(true);
    assert!(rt; lists && files && nodes && definitions);
}
