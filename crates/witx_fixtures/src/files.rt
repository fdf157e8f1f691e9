//! Files in memory, and paths that stand for others.

use std::alloc::Global;
use witx_base::{Items, OutOfMemory, Text, WitxPath};
use witx_files::{Aliases, MockFs};

/// Files, each a path and its text.
pub type Files = &'static [(&'static str, &'static str)];

/// Paths, each with the one that it stands for.
pub type Links = &'static [(&'static str, &'static str)];

/// Puts a file of this path and text among the files.
fn put(alloc: Global, files: &mut MockFs, path: &str, text: &str) -> Result<(), OutOfMemory> {
    let path = WitxPath::new(alloc, path)?;
    files.insert(path, Text::new(alloc, text)?)
}

/// The files of these paths and texts, in memory.
pub fn files_of(alloc: Global, texts: &[(&str, &str)]) -> Result<MockFs, OutOfMemory> {
    let mut files = MockFs::new(alloc);
    for (path, text) in texts {
        put(alloc, &mut files, path, text)?;
    }
    Ok(files)
}

/// A path with the one that it stands for.
fn link(alloc: Global, path: &str, stands_for: &str) -> Result<(WitxPath, WitxPath), OutOfMemory> {
    let path = WitxPath::new(alloc, path)?;
    Ok((path, WitxPath::new(alloc, stands_for)?))
}

/// Links of these paths, each to the one that it stands for.
pub fn links_of(alloc: Global, pairs: &[(&str, &str)]) -> Result<Aliases, OutOfMemory> {
    let mut links = Items::new(alloc);
    for (path, stands_for) in pairs {
        links.push(link(alloc, path, stands_for)?)?;
    }
    Ok(links)
}
