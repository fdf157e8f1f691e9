//! The program `witx_header_of`: a bundle on standard input, and on standard output the header of C of the document that
//! its files at the paths on the command line mean. It ends with the statuses and the reports of `witx`.
#![tactic(auto)]

mod run;

use run::run;
use std::alloc::Global;
use std::env;
use std::io::ErrorKind;
use std::process::ExitCode;
use witx::{Items, OutOfMemory, Reading, Text, Writing};
use witx_commands::{NO_FORM, NO_MEMORY};

fn main(rt: HostRuntime) -> ExitCode {
    let alloc = rt.alloc();
    let Ok(words) = words(&rt, alloc) else {
        return ExitCode::from(NO_MEMORY);
    };
    let Some(words) = words else {
        return ExitCode::from(NO_FORM);
    };
    let mut source = Reading::new(rt.stdin());
    let mut out = Writing::new(rt.stdout());
    let mut err = Writing::new(rt.stderr());
    let ran = run(alloc, words.as_slice(), &mut source, &mut out, &mut err);
    ExitCode::from(ran.status)
}

/// The words of the command line after the program's name; none where one isn't UTF-8. For anything else that keeps them
/// from being read, there is no memory.
fn words(rt: &HostRuntime, alloc: Global) -> Result<Option<Items<Text>>, OutOfMemory> {
    let mut words = Items::new(alloc);
    let arguments = match env::args(rt) {
        Ok(arguments) => arguments,
        Err(error) if error.kind() == ErrorKind::InvalidData => return Ok(None),
        Err(_) => return Err(OutOfMemory),
    };
    for argument in arguments.skip(1) {
        words.push(Text::from_string(argument))?;
    }
    Ok(Some(words))
}
