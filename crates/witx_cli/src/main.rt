//! The program `witx`: it hands the words of the command line and the standard streams to `run_all`.
#![tactic(auto)]

use std::alloc::Global;
use std::env;
use std::io::ErrorKind;
use std::process::ExitCode;
use witx_base::{Items, OutOfMemory, Reading, Text, Writing};
use witx_commands::{NO_MEMORY, leave};
use witx_tools::run_all;

fn main(rt: HostRuntime) -> ExitCode {
    let alloc = rt.alloc();
    let Ok(words) = words(&rt, alloc) else {
        return ExitCode::from(NO_MEMORY);
    };
    let mut source = Reading::new(rt.stdin());
    let mut out = Writing::new(rt.stdout());
    let mut err = Writing::new(rt.stderr());
    let ran = run_all(alloc, words.as_slice(), &mut source, &mut out, &mut err);
    let status = ran.status;
    // The process ends here, and gives all memory back at once.
    leave(ran.adapted);
    ExitCode::from(status)
}

/// The words of the command line after the program's name. Where one isn't UTF-8 there are none, so
/// that the program answers as to words without a form; for anything else that keeps them from being
/// read, there is no memory.
fn words(rt: &HostRuntime, alloc: Global) -> Result<Items<Text>, OutOfMemory> {
    let mut words = Items::new(alloc);
    let arguments = match env::args(rt) {
        Ok(arguments) => arguments,
        Err(error) if error.kind() == ErrorKind::InvalidData => return Ok(words),
        Err(_) => return Err(OutOfMemory),
    };
    let mut is_name = true;
    for argument in arguments {
        if !is_name {
            words.push(Text::from_string(argument))?;
        }
        is_name = false;
    }
    Ok(words)
}
