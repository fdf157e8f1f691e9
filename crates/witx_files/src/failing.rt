//! Files in memory with aliases, of which chosen calls fail.

ghost use Rattle.std.specs.Prelude.{◌≡◌, Some};
ghost use Rattle.witx_base.specs.Calls.{fails_next, no_calls};
ghost use Rattle.witx_files.specs.Answers.{IsText, IsLine, IsCanonical};
ghost use Rattle.witx_files.specs.{FailingFiles.{is_failed, after_call}, Files.{canonical}};

use crate::fault::{IoError, IoFault};
use crate::io::WitxIo;
use crate::memory::MockFs;
use std::alloc::Global;
use std::marker::Model;
use witx_base::{CallCounter, Calls, Duplicate, Failed, Items, Text, WitxPath};

/// Paths that stand for others: each pair is a path and the one that it stands for. The first pair of
/// a path holds.
pub type Aliases = Items<(WitxPath, WitxPath)>;

/// Files in memory with aliases, which are told. Calls of all three kinds are numbered together, from
/// 0, and exactly the listed ones fail.
#[derive(Drop)]
pub struct FailingFs {
    files: MockFs,
    aliases: Aliases,
    calls: CallCounter,
}

impl Model for FailingFs {
    ghost use Rattle.witx_files.specs.FailingFiles.{FailingFiles};

    ghost Value = { FailingFiles };

    ghost view = { λ f. record { files = f.files; aliases = f.aliases; calls = f.calls } };
}

impl FailingFs {
    /// The files and the aliases, before the first call; takes no memory.
    pub fn new(files: MockFs, aliases: Aliases, fails: Calls) -> FailingFs
        ensures { result ≡ record { files = files; aliases = aliases; calls = no_calls fails } }
    {
        FailingFs {
            files,
            aliases,
            calls: CallCounter::new(fails),
        }
    }

    /// How many calls have failed.
    pub fn faults(&self) -> u64
        ensures { result ≡ self.now.calls.faults }
    {
        self.calls.faults()
    }
}

impl From<Failed> for IoError {
    ghost use Rattle.std.specs.Prelude.{◌≡◌};
    ghost use Rattle.witx_files.specs.declared.fault.IoError.TheVariants.{Fault};
    ghost use Rattle.witx_files.specs.declared.fault.IoFault.TheVariants.{Failed};

    ghost from_gives = { λ _ e. e ≡ Fault Failed };

    fn from(_failed: Failed) -> IoError {
        IoError::Fault(IoFault::Failed)
    }
}

impl WitxIo for FailingFs {
    ghost files = { λ f. Some f.files };

    ghost aliases = { λ f. Some f.aliases };

    ghost faults = { λ f. f.calls.faults };

    fn fgets(&mut self, alloc: Global, path: &WitxPath) -> Result<Text, IoError>
        ensures files { Some self.new.files ≡ Some self.old.files }
        ensures aliases { Some self.new.aliases ≡ Some self.old.aliases }
        ensures answer { IsText (Some self.old.files) path.now self.old.calls.faults self.new.calls.faults result }
        ensures fails { is_failed result ≡ fails_next self.old.calls }
        ensures after { self.new ≡ after_call self.old }
    {
        self.calls.count()?;
        self.files.fgets(alloc, path)
    }

    fn fget_line(
        &mut self,
        alloc: Global,
        path: &WitxPath,
        line_num: usize,
    ) -> Result<Text, IoError>
        ensures files { Some self.new.files ≡ Some self.old.files }
        ensures aliases { Some self.new.aliases ≡ Some self.old.aliases }
        ensures answer { IsLine (Some self.old.files) path.now line_num self.old.calls.faults self.new.calls.faults result }
        ensures fails { is_failed result ≡ fails_next self.old.calls }
        ensures after { self.new ≡ after_call self.old }
    {
        self.calls.count()?;
        self.files.fget_line(alloc, path, line_num)
    }

    fn canonicalize(&mut self, _alloc: Global, path: &WitxPath) -> Result<WitxPath, IoError>
        ensures files { Some self.new.files ≡ Some self.old.files }
        ensures aliases { Some self.new.aliases ≡ Some self.old.aliases }
        ensures answer { IsCanonical (Some self.old.aliases) path.now self.old.calls.faults self.new.calls.faults result }
        ensures fails { is_failed result ≡ fails_next self.old.calls }
        ensures after { self.new ≡ after_call self.old }
    {
        self.calls.count()?;
        Ok(alias_of(self.aliases.as_slice(), path).copy()?)
    }
}

/// What a path stands for: the first alias of it, or the path itself.
#[tactic(auto, using(crate::proofs::AliasSearch::alias_rules))]
fn alias_of<'a>(aliases: &'a [(WitxPath, WitxPath)], path: &'a WitxPath) -> &'a WitxPath
    ensures { result.now ≡ canonical aliases.now path.now }
{
    for alias in aliases {
        if alias.0 == *path {
            return &alias.1;
        }
    }
    path
}
