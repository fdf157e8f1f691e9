//! A run of the program over devices in memory.

ghost use Rattle.std.specs.Prelude.{◌<◌};

use std::alloc::Global;
use witx_base::{Bytes, Items, MemSink, MemSource, OutOfMemory, Text};
use witx_commands::let_go;
use witx_fixtures::{Devices, calls_of};
use witx_tools::run_all;

/// How devices are made. Of the calls of each only one fails, counted from 0.
#[derive(Clone, Copy)]
pub struct Settings {
    /// How many bytes a sink holds.
    pub room: usize,
    /// How many bytes a call moves at most, not 0.
    pub moves: usize,
    /// The call of the source that fails.
    pub read: u64,
    /// The call of the output that fails.
    pub put: u64,
    /// The call of the sink of refusals that fails.
    pub told: u64,
}

/// Devices on which no call fails, with so much room.
pub fn whole(room: usize) -> Settings
    ensures { 0 < result.moves }
{
    Settings {
        room,
        moves: 4096,
        read: u64::MAX,
        put: u64::MAX,
        told: u64::MAX,
    }
}

/// How a run ended.
#[derive(Drop)]
pub struct Ended {
    /// The status.
    pub status: u8,
    /// Whether the run hands a document back.
    pub has_document: bool,
    /// Its devices.
    pub devices: Devices,
}

/// Runs the words of a line, which has a mark between two, over devices of these settings; no line has no
/// words, and `''` is an empty word.
pub fn run_line(
    alloc: Global,
    line: Option<&str>,
    mark: char,
    settings: Settings,
    bytes: &[u8],
) -> Result<Ended, OutOfMemory>
    requires { 0 < settings.moves }
{
    let words = words_of(alloc, line, mark)?;
    run_words(alloc, words.as_slice(), settings, bytes)
}

fn run_words(
    alloc: Global,
    words: &[Text],
    settings: Settings,
    bytes: &[u8],
) -> Result<Ended, OutOfMemory>
    requires { 0 < settings.moves }
{
    let mut devices = devices_of(alloc, settings, bytes)?;
    let (status, has_document) = run_over(alloc, words, &mut devices);
    Ok(Ended {
        status,
        has_document,
        devices,
    })
}

/// Runs the words over the devices. Answers the status, and whether the run hands a document back.
fn run_over(alloc: Global, words: &[Text], devices: &mut Devices) -> (u8, bool) {
    let ran = run_all(
        alloc,
        words,
        &mut devices.source,
        &mut devices.out,
        &mut devices.err,
    );
    let status = ran.status;
    let has_document = ran.adapted.is_some();
    let_go(ran.adapted);
    (status, has_document)
}

fn words_of(alloc: Global, line: Option<&str>, mark: char) -> Result<Items<Text>, OutOfMemory> {
    let mut words = Items::new(alloc);
    if let Some(line) = line {
        for word in line.split(mark) {
            push_word(alloc, &mut words, word)?;
        }
    }
    Ok(words)
}

fn push_word(alloc: Global, words: &mut Items<Text>, word: &str) -> Result<(), OutOfMemory> {
    let word = Text::new(alloc, if word == "''" { "" } else { word })?;
    words.push(word)?;
    Ok(())
}

/// Devices of these settings, whose source gives these bytes.
fn devices_of(alloc: Global, settings: Settings, bytes: &[u8]) -> Result<Devices, OutOfMemory>
    requires { 0 < settings.moves }
{
    let source = source_of(alloc, settings, bytes)?;
    let (out, err) = sinks_of(alloc, settings)?;
    Ok(Devices { source, out, err })
}

fn source_of(alloc: Global, settings: Settings, bytes: &[u8]) -> Result<MemSource, OutOfMemory>
    requires { 0 < settings.moves }
{
    let fails = calls_of(alloc, &[settings.read])?;
    let bytes = Bytes::from_vec(Vec::from_slice(alloc, bytes)?);
    Ok(MemSource::new(bytes, settings.moves, fails))
}

/// The output, and the sink of refusals.
fn sinks_of(alloc: Global, settings: Settings) -> Result<(MemSink, MemSink), OutOfMemory>
    requires { 0 < settings.moves }
{
    let out = sink_of(alloc, settings, settings.put)?;
    Ok((out, sink_of(alloc, settings, settings.told)?))
}

fn sink_of(alloc: Global, settings: Settings, fails: u64) -> Result<MemSink, OutOfMemory>
    requires { 0 < settings.moves }
{
    MemSink::new(
        alloc,
        settings.room,
        settings.moves,
        calls_of(alloc, &[fails])?,
    )
}
