//! A batch: a row of inputs, each a header line and then as many bytes as it says, which are what the
//! source gives. A process for each input would cost a hundred times the run.
//!
//! The line's fields, with a tab between two, are six numbers and then the words of the command line. The
//! numbers, with a blank between two: how many bytes follow; the room of each sink; the most bytes that a
//! call of a device moves, at least 1; the call that fails, counted from 0, of the source, of the output
//! and of the sink of refusals.
//!
//! For each input a line is written: the status; for the output and then for the sink of refusals how many
//! bytes it holds and their checksum; how many calls of the source, the output and the sink of refusals
//! failed; and what the refusal is, as it begins.

use crate::Stop;
use crate::devices::{Ended, Settings, run_line};
use std::alloc::{AllocError, Global};
use std::fmt::Write;
use std::str::from_utf8;
use witx_base::Items;
use witx_fixtures::Devices;

/// Runs each input of a batch, and writes its line.
pub fn answer_all(alloc: Global, batch: &[u8], answers: &mut String) -> Result<(), Stop> {
    let mut rest = batch;
    for _ in 0..batch.len() {
        if rest.is_empty() {
            return Ok(());
        }
        rest = answer_first(alloc, rest, answers)?;
    }
    Ok(())
}

/// Runs the first input of a batch, and gives those behind it.
fn answer_first<'a>(
    alloc: Global,
    batch: &'a [u8],
    answers: &mut String,
) -> Result<&'a [u8], Stop> {
    let (line, rest) = cut_line(batch)?;
    let Some((numbers, words)) = line.split_once('\t') else {
        return Err(Stop::NoInput);
    };
    let (length, settings) = settings_of(alloc, numbers)?;
    let Some((bytes, more)) = rest.split_at_checked(length) else {
        return Err(Stop::NoInput);
    };
    answer(alloc, settings, words, bytes, answers)?;
    Ok(more)
}

/// The first line, and what follows its line feed.
fn cut_line(batch: &[u8]) -> Result<(&str, &[u8]), Stop> {
    let Some(end) = batch.iter().position(|byte| *byte == b'\n') else {
        return Err(Stop::NoInput);
    };
    match from_utf8(&batch[..end]) {
        Ok(line) => Ok((line, &batch[end + 1..])),
        Err(_) => Err(Stop::NoInput),
    }
}

/// How many bytes follow, and the settings of the devices.
fn settings_of(alloc: Global, text: &str) -> Result<(usize, Settings), Stop> {
    let mut numbers = Items::new(alloc);
    for field in text.split(' ') {
        match field.parse() {
            Ok(number) => numbers.push(number)?,
            Err(_) => return Err(Stop::NoInput),
        }
    }
    match numbers.as_slice() {
        &[length, room, moves, read, put, told] => Ok((
            length,
            Settings {
                room,
                moves,
                read: read as u64,
                put: put as u64,
                told: told as u64,
            },
        )),
        _ => Err(Stop::NoInput),
    }
}

/// Runs the words over devices of the settings, and tells what came of it.
fn answer(
    alloc: Global,
    settings: Settings,
    words: &str,
    bytes: &[u8],
    answers: &mut String,
) -> Result<(), Stop> {
    if settings.moves == 0 {
        return Err(Stop::NoInput);
    }
    let ended = run_line(alloc, Some(words), '\t', settings, bytes)?;
    put_ended(answers, &ended)?;
    Ok(())
}

fn put_ended(answers: &mut String, ended: &Ended) -> Result<(), AllocError> {
    let devices = &ended.devices;
    write!(answers, "{}", ended.status)?;
    put_taken(answers, devices.out.bytes())?;
    put_taken(answers, devices.err.bytes())?;
    put_faults(answers, devices)?;
    writeln!(answers, " {}", kind_of(devices.err.bytes()))
}

/// How many calls of each device failed.
fn put_faults(answers: &mut String, devices: &Devices) -> Result<(), AllocError> {
    let read = devices.source.faults();
    let put = devices.out.faults();
    let told = devices.err.faults();
    write!(answers, " {read} {put} {told}")
}

/// How many bytes these are, and their checksum.
fn put_taken(answers: &mut String, bytes: &[u8]) -> Result<(), AllocError> {
    write!(answers, " {} {}", bytes.len(), checksum(bytes))
}

/// Fowler, Noll and Vo's, of 64 bits.
fn checksum(bytes: &[u8]) -> u64 {
    let mut sum: u64 = 0xcbf2_9ce4_8422_2325;
    for byte in bytes {
        sum = (sum ^ u64::from(*byte)).wrapping_mul(0x100_0000_01b3);
    }
    sum
}

fn kind_of(refusal: &[u8]) -> &'static str {
    if refusal.is_empty() {
        "none"
    } else if refusal.starts_with(b"witx: ") && refusal.ends_with(b"\n") {
        "refusal"
    } else if refusal.starts_with(b"usage: witx ") && refusal.ends_with(b"\n") {
        "usage"
    } else {
        "other"
    }
}
