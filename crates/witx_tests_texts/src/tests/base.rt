//! Texts, names, paths, lists and maps where there is memory, and the devices in memory call by call.

use std::alloc::Global;
use witx_base::{
    Bytes, Duplicate, Failed, Id, Items, MemSink, MemSource, NameMap, OutOfMemory, Sink, Source,
    Text, WitxPath,
};
use witx_fixtures::calls_of;

const TEXTS: &[&str] = &["wasi", ""];

fn is_text(alloc: Global, bytes: &str) -> Result<bool, OutOfMemory> {
    let text = Text::new(alloc, bytes)?;
    let is_read = text.as_str() == bytes
        && text.len() == bytes.len()
        && text.is_empty() == bytes.is_empty();
    Ok(is_read && text.copy().is_ok_and(|copy| copy == text))
}

fn are_texts(alloc: Global) -> bool {
    TEXTS
        .iter()
        .all(|bytes| is_text(alloc, bytes).unwrap_or(false))
}

/// Pairs of names, the lesser first.
const NAMES: &[(&str, &str)] = &[
    ("a", "ab"),
    ("ab", "b"),
    ("B", "a"),
    ("a", "a\0"),
    ("abcdefgh", "abcdefghi"),
    ("abcdefghi", "abcdefghj"),
    ("abcdefgz", "abcdefh"),
];

fn is_named(name: &Id, text: &str, other: &str) -> Result<bool, OutOfMemory> {
    let is_named = name.as_str() == text && name.is(text) && !name.is(other);
    Ok(is_named && name.copy()? == *name)
}

fn is_before(alloc: Global, &(first, second): &(&str, &str)) -> Result<bool, OutOfMemory> {
    let low = Id::new(alloc, first)?;
    let high = Id::new(alloc, second)?;
    Ok(low < high && is_named(&low, first, second).unwrap_or(false))
}

fn are_before(alloc: Global) -> bool {
    NAMES
        .iter()
        .all(|row| is_before(alloc, row).unwrap_or(false))
}

#[test]
fn texts_and_names(rt: HostRuntime) {
    assert!(rt; are_texts(rt.alloc()) && are_before(rt.alloc()));
}

fn three_texts(alloc: Global) -> Result<Items<Text>, OutOfMemory> {
    let mut list = Items::new(alloc);
    for text in ["one", "two", "three"] {
        list.push(Text::new(alloc, text)?)?;
    }
    Ok(list)
}

fn begins(list: &Items<Text>) -> bool {
    list.len() == 3
        && !list.is_empty()
        && list.get(1).map(Text::as_str) == Some("two")
        && list.get(3).is_none()
}

/// Whether a copy is equal to its list, and without its end comes before it.
fn comes_before(mut copy: Items<Text>, list: &Items<Text>) -> bool {
    let is_equal = copy == *list;
    copy.truncate(2);
    is_equal && copy.len() == 2 && copy < *list
}

/// A list, its copy, and the copy without its end, which comes before the list.
fn lists_hold(alloc: Global) -> Result<bool, OutOfMemory> {
    let list = three_texts(alloc)?;
    let is_copied = list.copy().is_ok_and(|copy| comes_before(copy, &list));
    Ok(is_copied && begins(&list) && Items::<Text>::new(alloc).is_empty())
}

fn plain_values_are_copied() -> Result<bool, OutOfMemory> {
    let pair = (Some(7u64), true);
    let numbers = (1u8, (2u32, 3usize));
    let are_equal = pair.copy()? == pair && numbers.copy()? == numbers;
    Ok(are_equal && None::<u32>.copy()?.is_none())
}

/// A list of texts that it doesn't own.
fn borrowed(alloc: Global) -> Result<Items<&'static str>, OutOfMemory> {
    let mut list = Items::new(alloc);
    for text in ["one", "two"] {
        list.push(text)?;
    }
    Ok(list)
}

fn borrowed_are_copied(alloc: Global) -> Result<bool, OutOfMemory> {
    let list = borrowed(alloc)?;
    Ok(
        list.copy()
            .is_ok_and(|copy| copy == list && copy.get(1).copied() == Some("two")),
    )
}

#[test]
fn lists(rt: HostRuntime) {
    let lists_hold = lists_hold(rt.alloc()).unwrap_or(false);
    assert!(rt; lists_hold && plain_values_are_copied().unwrap_or(false));
}

#[test]
fn borrowed_texts(rt: HostRuntime) {
    assert!(rt; borrowed_are_copied(rt.alloc()).unwrap_or(false));
}

/// A path, as it is written, its file name and its parent.
static PATHS: &[(&str, &str, Option<&str>, Option<&str>)] = &[
    ("", "", None, None),
    ("/", "/", None, None),
    ("//", "/", None, None),
    ("/.", "/", None, None),
    (".", ".", None, Some("")),
    ("./", ".", None, Some("")),
    ("./.", ".", None, Some("")),
    ("..", "..", None, Some("")),
    ("../.", "..", None, Some("")),
    ("./..", "./..", None, Some(".")),
    ("/..", "/..", None, Some("/")),
    ("a/..", "a/..", None, Some("a")),
    ("a/../b/..", "a/../b/..", None, Some("a/../b")),
    ("a", "a", Some("a"), Some("")),
    ("a/", "a", Some("a"), Some("")),
    ("a//", "a", Some("a"), Some("")),
    ("a/.", "a", Some("a"), Some("")),
    ("/a", "/a", Some("a"), Some("/")),
    ("//a", "/a", Some("a"), Some("/")),
    ("/a/", "/a", Some("a"), Some("/")),
    ("/./a", "/a", Some("a"), Some("/")),
    ("./a", "./a", Some("a"), Some(".")),
    ("././a", "./a", Some("a"), Some(".")),
    ("../a", "../a", Some("a"), Some("..")),
    ("a/b", "a/b", Some("b"), Some("a")),
    ("a//b/", "a/b", Some("b"), Some("a")),
    ("a/./b", "a/b", Some("b"), Some("a")),
    ("a/b/c", "a/b/c", Some("c"), Some("a/b")),
    ("/d/../x", "/d/../x", Some("x"), Some("/d/..")),
    ("/d/a.witx", "/d/a.witx", Some("a.witx"), Some("/d")),
    ("...", "...", Some("..."), Some("")),
    (".a", ".a", Some(".a"), Some("")),
    (" ", " ", Some(" "), Some("")),
    ("ä/b c", "ä/b c", Some("b c"), Some("ä")),
];

fn has_parent(path: &WitxPath, parent: Option<&str>) -> bool {
    path.parent()
        .is_ok_and(|found| found.as_ref().map(WitxPath::as_str) == parent)
}

fn equals_its_copy(path: &WitxPath) -> bool {
    path.copy().is_ok_and(|copy| copy == *path)
}

fn is_read(path: &WitxPath, written: &str, name: Option<&str>) -> bool {
    path.as_str() == written && path.file_name() == name
}

fn is_path(
    alloc: Global,
    &(text, written, name, parent): &(&str, &str, Option<&str>, Option<&str>),
) -> Result<bool, OutOfMemory> {
    let path = WitxPath::new(alloc, text)?;
    Ok(is_read(&path, written, name) && has_parent(&path, parent) && equals_its_copy(&path))
}

/// A path, another, and the other as seen from the path.
const JOINED: &[(&str, &str, &str)] = &[
    ("d", "x", "d/x"),
    ("d", "./x", "d/x"),
    ("", "./x", "./x"),
    (".", "./x", "./x"),
    ("/d", "../x", "/d/../x"),
    ("d", "/x", "/x"),
    ("d", "", "d"),
    ("/", "x", "/x"),
];

fn gives(path: &WitxPath, other: &WitxPath, joined: &str) -> Result<bool, OutOfMemory> {
    Ok(path.join(other)?.as_str() == joined)
}

fn is_joined(
    alloc: Global,
    &(path, other, joined): &(&str, &str, &str),
) -> Result<bool, OutOfMemory> {
    let path = WitxPath::new(alloc, path)?;
    let other = WitxPath::new(alloc, other)?;
    gives(&path, &other, joined)
}

#[test]
fn paths(rt: HostRuntime) {
    let alloc = rt.alloc();
    assert!(rt; PATHS.iter().all(|row| is_path(alloc, row) == Ok(true)));
}

#[test]
fn joined_paths(rt: HostRuntime) {
    let alloc = rt.alloc();
    assert!(rt; JOINED.iter().all(|row| is_joined(alloc, row) == Ok(true)));
}

fn put(alloc: Global, map: &mut NameMap<u64>, name: &str, value: u64) -> Result<(), OutOfMemory> {
    let name = Id::new(alloc, name)?;
    map.insert(name, value)
}

/// A map into which `b` was put twice.
fn map(alloc: Global) -> Result<NameMap<u64>, OutOfMemory> {
    let mut map = NameMap::new(alloc);
    for (name, value) in [("b", 1u64), ("a", 2), ("c", 3), ("b", 4)] {
        put(alloc, &mut map, name, value)?;
    }
    Ok(map)
}

fn goes_in_order(map: &NameMap<u64>) -> bool {
    let mut wanted = [("a", 2), ("b", 4), ("c", 3)].iter();
    for (name, value) in map {
        if wanted.next().map(|pair| (pair.0, pair.1)) != Some((name.as_str(), *value)) {
            return false;
        }
    }
    wanted.next().is_none()
}

fn finds(
    alloc: Global,
    map: &NameMap<u64>,
    name: &str,
    wanted: Option<u64>,
) -> Result<bool, OutOfMemory> {
    let name = Id::new(alloc, name)?;
    Ok(map.get(&name).copied() == wanted && map.get_new(&name).copied() == wanted)
}

fn map_equals_its_copy(map: &NameMap<u64>) -> Result<bool, OutOfMemory> {
    Ok(map.copy()? == *map)
}

fn maps_hold(alloc: Global) -> Result<bool, OutOfMemory> {
    let map = map(alloc)?;
    Ok(
        map.len() == 3
            && goes_in_order(&map)
            && finds(alloc, &map, "b", Some(4)).unwrap_or(false)
            && finds(alloc, &map, "d", None).unwrap_or(false)
            && map_equals_its_copy(&map).unwrap_or(false),
    )
}

#[test]
fn maps(rt: HostRuntime) {
    assert!(rt; maps_hold(rt.alloc()).unwrap_or(false));
}

/// Calls of a source with five bytes that gives two a call, of which the calls 1 and 3 fail: the
/// answer, and what the buffer holds then.
const READS: &[(Result<usize, Failed>, [u8; 3])] = &[
    (Ok(2), [1, 2, 0]),
    (Err(Failed), [0, 0, 0]),
    (Ok(2), [3, 4, 0]),
    (Err(Failed), [0, 0, 0]),
    (Ok(1), [5, 0, 0]),
    (Ok(0), [0, 0, 0]),
];

fn reads(source: &mut MemSource, answer: Result<usize, Failed>, moved: [u8; 3]) -> bool {
    let mut buffer = [0; 3];
    source.read(&mut buffer) == answer && buffer == moved
}

fn gives_each(source: &mut MemSource) -> bool {
    for (answer, moved) in READS {
        if !reads(source, *answer, *moved) {
            return false;
        }
    }
    true
}

fn gives_all(mut source: MemSource) -> bool {
    gives_each(&mut source) && source.faults() == 2
}

fn source(alloc: Global) -> Result<MemSource, OutOfMemory> {
    let bytes = Bytes::from_vec([1, 2, 3, 4, 5].to_vec(alloc)?);
    Ok(MemSource::new(bytes, 2, calls_of(alloc, &[3, 1])?))
}

#[test]
fn a_source_call_by_call(rt: HostRuntime) {
    assert!(rt; source(rt.alloc()).is_ok_and(gives_all));
}

/// Calls of a sink that holds five bytes and takes two a call, of which call 1 fails: what is handed
/// over, and the answer.
const WRITES: &[([u8; 3], Result<usize, Failed>)] = &[
    ([1, 2, 3], Ok(2)),
    ([3, 4, 5], Err(Failed)),
    ([3, 4, 5], Ok(2)),
    ([5, 6, 7], Ok(1)),
    ([6, 7, 8], Err(Failed)),
];

fn takes_each(sink: &mut MemSink) -> bool {
    for (piece, answer) in WRITES {
        if sink.write(piece) != *answer {
            return false;
        }
    }
    true
}

fn takes_all(mut sink: MemSink) -> bool {
    takes_each(&mut sink) && sink.bytes() == [1, 2, 3, 4, 5].as_slice() && sink.faults() == 2
}

fn sink(alloc: Global) -> Result<MemSink, OutOfMemory> {
    MemSink::new(alloc, 5, 2, calls_of(alloc, &[1])?)
}

#[test]
fn a_sink_call_by_call(rt: HostRuntime) {
    assert!(rt; sink(rt.alloc()).is_ok_and(takes_all));
}
