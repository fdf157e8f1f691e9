//! The source, read to its end or to one byte more than a bundle may have, and the files of its bundle.

ghost use Rattle.std.specs.Prelude.{◌≡◌, ◌<◌, ◌≤◌, ◌+◌, [], Ok, Err, IfOk, OnOk, IfErr, length};
ghost use Rattle.witx_base.specs.Causes.{one_more};
ghost use Rattle.witx_commands.specs.Streams.{Finished, IsInput, TakesInput, TakesMore, TookAtMost, source_seen};
ghost use Rattle.witx_commands.specs.Causes.{InputCause, ReadCause, IsBundle};
ghost use Rattle.witx_bundle.specs.declared.bundle.TheConstants.{LONGEST_BUNDLE};

use std::alloc::{AllocError, Global};
use witx_base::{Failed, Source};
use witx_bundle::{Bundle, BundleError, LONGEST_BUNDLE};
use witx_files::MockFs;

/// How often a run reads at most: each read but the last gives a byte.
const READS: usize = LONGEST_BUNDLE + 1;

/// How many bytes one read asks for.
const CHUNK: usize = 65_536;

/// Why no bundle was read.
#[derive(Clone, Copy, PartialEq, Eq, Debug)]
pub enum InputError {
    /// The source failed.
    Source,
    /// The bytes are no bundle.
    Bundle(BundleError),
    OutOfMemory,
}

impl From<Failed> for InputError {
    ghost use Rattle.std.specs.Prelude.{◌≡◌};
    ghost use Rattle.witx_commands.specs.declared.input.InputError.TheVariants as input_error;

    ghost from_gives = { λ _ e. e ≡ input_error.Source };

    fn from(_: Failed) -> InputError {
        InputError::Source
    }
}

impl From<AllocError> for InputError {
    ghost use Rattle.std.specs.Prelude.{◌≡◌};
    ghost use Rattle.witx_commands.specs.declared.input.InputError.TheVariants as input_error;

    ghost from_gives = { λ _ e. e ≡ input_error.OutOfMemory };

    fn from(_: AllocError) -> InputError {
        InputError::OutOfMemory
    }
}

/// Reads once, and puts what was read behind the bytes so far; 0 is the end of the input.
#[tactic(auto, using(crate::proofs::ReadThrough::one_read_rules))]
fn read_more<S: Source>(
    source: &mut S,
    buffer: &mut [u8],
    bytes: &mut Vec<u8>,
) -> Result<usize, InputError>
    requires { 0 < length buffer.old }
    ensures more { IfOk result (λ n.
        TakesMore (S.left source.old) (S.left source.new) bytes.old.items bytes.new.items n) }
    ensures bounded { IfOk result (λ n. n ≤ length buffer.old) }
    ensures no_fault { OnOk result (S.faults source.new ≡ S.faults source.old) }
    ensures refused { IfErr result (ReadCause 0 (source_seen S.left S.faults S.reads source.old source.new)) }
    ensures taken { TookAtMost (length buffer.old) (source_seen S.left S.faults S.reads source.old source.new) }
    ensures later { S.faults source.old ≤ S.faults source.new }
    ensures one_read { S.reads source.new ≡ one_more (S.reads source.old) }
{
    let count = source.read(buffer)?;
    match bytes.extend_from_slice(&buffer[..count]) {
        Ok(()) => Ok(count),
        Err(_) => Err(InputError::OutOfMemory),
    }
}

/// An empty buffer for one read.
fn read_buffer(alloc: Global) -> Result<Vec<u8>, AllocError>
    ensures { IfOk result (λ v. 0 < length v.items) }
{
    vec![in alloc; 0; CHUNK]
}

/// Reads until the end, or until there is one byte more than a bundle may have.
#[tactic(auto, using(crate::proofs::ReadThrough::reading_rules))]
fn read_through<S: Source>(
    source: &mut S,
    buffer: &mut [u8],
    bytes: &mut Vec<u8>,
) -> Result<(), InputError>
    requires room { 0 < length buffer.old }
    requires none { bytes.old.items ≡ [] }
    ensures input { OnOk result (IsInput (S.left source.old) (S.left source.new) bytes.new.items) }
    ensures no_fault { OnOk result (S.faults source.new ≡ S.faults source.old) }
    ensures refused { IfErr result
        (ReadCause LONGEST_BUNDLE (source_seen S.left S.faults S.reads source.old source.new)) }
    ensures taken { TakesInput S.left S.faults S.reads source.old source.new }
    ensures later { S.faults source.old ≤ S.faults source.new }
    ensures reads { S.reads source.new ≤ S.reads source.old + 4194305 }
{
    for turn in 0..READS {
        let room = (LONGEST_BUNDLE + 1 - bytes.len()).min(buffer.len());
        let count = read_more(source, &mut buffer[..room], bytes)?;
        if count == 0 || LONGEST_BUNDLE < bytes.len() {
            return Ok(());
        }
    }
    Ok(())
}

/// Reads the source to its end, or until it has given one byte more than a bundle may have.
#[tactic(auto, using(crate::proofs::ReadThrough::buffer_rules))]
fn read_bytes<S: Source>(alloc: Global, source: &mut S) -> Result<Vec<u8>, InputError>
    ensures input { IfOk result (λ v. IsInput (S.left source.old) (S.left source.new) v.items) }
    ensures no_fault { OnOk result (S.faults source.new ≡ S.faults source.old) }
    ensures refused { IfErr result
        (ReadCause LONGEST_BUNDLE (source_seen S.left S.faults S.reads source.old source.new)) }
    ensures taken { TakesInput S.left S.faults S.reads source.old source.new }
    ensures later { S.faults source.old ≤ S.faults source.new }
    ensures reads { S.reads source.new ≤ S.reads source.old + 4194305 }
{
    let mut buffer = read_buffer(alloc)?;
    let mut bytes = Vec::new(alloc);
    read_through(source, buffer.as_mut_slice(), &mut bytes)?;
    Ok(bytes)
}

/// Reads the source to its end, and the files of the bundle that it gives.
///
/// `Source` comes only where the source failed before the reading was over: before its end, with at most
/// `LONGEST_BUNDLE` bytes taken. `Bundle` comes exactly where its bytes are no bundle, unless it failed so.
/// However it ends, at most one byte more than a bundle may have was taken.
#[tactic(auto, using(crate::proofs::ReadThrough::bundle_rules))]
pub fn read_bundle<S: Source>(alloc: Global, source: &mut S) -> Result<MockFs, InputError>
    ensures files { IfOk result (λ files. IsBundle (S.left source.old) (Ok files)) }
    ensures finished { OnOk result (Finished (S.left source.old) (S.left source.new)) }
    ensures no_fault { OnOk result (S.faults source.new ≡ S.faults source.old) }
    ensures refused { IfErr result (InputCause (source_seen S.left S.faults S.reads source.old source.new)) }
    ensures taken { TakesInput S.left S.faults S.reads source.old source.new }
    ensures later { S.faults source.old ≤ S.faults source.new }
    ensures reads { S.reads source.new ≤ S.reads source.old + 4194305 }
{
    let bytes = read_bytes(alloc, source)?;
    match Bundle::read(alloc, bytes.as_slice()) {
        Ok(files) => Ok(files),
        Err(BundleError::OutOfMemory) => Err(InputError::OutOfMemory),
        Err(error) => Err(InputError::Bundle(error)),
    }
}
