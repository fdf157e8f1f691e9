//! Files in memory.

ghost use Rattle.std.specs.Prelude.{◌≡◌, [], Some, None, OnErr, OnOk, if◌then◌else◌};
ghost use Rattle.witx_base.specs.Paths.{Path};
ghost use Rattle.witx_files.specs.{Answers.{IsLineOf}, Files.{text_in, same_path}};

use crate::fault::{IoError, IoFault};
use crate::io::WitxIo;
use std::alloc::Global;
use std::collections::BTreeMap;
use std::marker::Model;
use witx_base::{Duplicate, OutOfMemory, Text, WitxPath};

/// Files in memory. They are told, no path stands for another, and no read fails. What `fgets` answers shares
/// the text that was put in, which isn't copied again.
#[derive(Drop)]
pub struct MockFs {
    files: BTreeMap<WitxPath, Text>,
}

impl Model for MockFs {
    ghost use Rattle.witx_files.specs.Files.{Files};

    ghost Value = { Files };

    ghost view = { λ m. m.files.entries };
}

impl MockFs {
    /// No files; takes no memory.
    pub fn new(alloc: Global) -> MockFs
        ensures { result ≡ [] }
    {
        MockFs {
            files: BTreeMap::new(alloc),
        }
    }

    /// The path has this text from now on, and every other path what it had; a refused insert changes
    /// nothing.
    pub fn insert(&mut self, path: WitxPath, text: Text) -> Result<(), OutOfMemory>
        ensures put { OnOk result ((q : Path)
            → text_in self.new q ≡ (if same_path path q then Some text else text_in self.old q)) }
        ensures kept { OnErr result (self.new ≡ self.old) }
    {
        let shared = text.share()?;
        match self.files.insert(path, shared) {
            Ok(_) => Ok(()),
            Err(_) => Err(OutOfMemory),
        }
    }
}

impl WitxIo for MockFs {
    ghost files = { λ m. Some m };

    ghost aliases = { λ m. Some [] };

    ghost faults = { λ m. 0 };

    fn fgets(&mut self, _alloc: Global, path: &WitxPath) -> Result<Text, IoError> {
        match self.files.get(path) {
            Some(text) => Ok(text.copy()?),
            None => Err(IoError::Fault(IoFault::NotFound)),
        }
    }

    fn fget_line(
        &mut self,
        alloc: Global,
        path: &WitxPath,
        line_num: usize,
    ) -> Result<Text, IoError> {
        match self.files.get(path) {
            Some(text) => line_of(alloc, text, line_num),
            None => Err(IoError::Fault(IoFault::NotFound)),
        }
    }

    fn canonicalize(&mut self, _alloc: Global, path: &WitxPath) -> Result<WitxPath, IoError> {
        Ok(path.copy()?)
    }
}

/// Line `line_num` of a text, counted from 1.
fn line_of(alloc: Global, text: &Text, line_num: usize) -> Result<Text, IoError>
    ensures { IsLineOf text.now line_num result }
{
    if line_num == 0 {
        return Err(IoError::Fault(IoFault::LineNotFound));
    }
    match text.as_str().lines().nth(line_num - 1) {
        Some(line) => Ok(Text::new(alloc, line)?),
        None => Err(IoError::Fault(IoFault::LineNotFound)),
    }
}
