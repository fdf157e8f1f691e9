//! The program behind `tools/imports-of`: a WebAssembly module in binary form on standard input, the list of its
//! function imports on standard output, as `read_imports` reads it.
//!
//! Status 0: done; each import that is no function is left out, with a line on standard error. Else one line
//! on standard error says why, and nothing is written: 1, the bytes are no module, or its imports no list;
//! 2, there are words on the command line; 3, 4: input or output failed; 5: no memory.
#![tactic(auto)]

mod report;

use report::{left_out, reason};
use std::alloc::Global;
use std::env;
use std::io::{Read, Write as _};
use std::process::ExitCode;
use witx_base::{MemoryRefused, Text};
use witx_import_list::{ListError, function_imports, import_list_text};
use witx_wasm::{ModuleError, WasmModule, read_module};

/// Why the program ends before its end.
pub enum Stop {
    /// There are words.
    Usage,
    /// What was read is refused, for this reason.
    Refused(Text),
    /// Standard input, or the words, can't be read.
    Unread,
    /// The list can't be written.
    Unwritten,
    OutOfMemory,
}

impl<E: MemoryRefused> From<E> for Stop {
    fn from(_refused: E) -> Stop {
        Stop::OutOfMemory
    }
}

fn main(rt: HostRuntime) -> ExitCode {
    match list(&rt, rt.alloc()) {
        Ok(()) => ExitCode::from(0),
        Err(Stop::Usage) => told(
            &rt,
            2,
            "usage: tools/imports-of FILE.wasm, or with the module on standard input\n",
        ),
        Err(Stop::Refused(why)) => told(&rt, 1, why.as_str()),
        Err(Stop::Unread) => told(&rt, 3, "imports-of: cannot read input\n"),
        Err(Stop::Unwritten) => ExitCode::from(4),
        Err(Stop::OutOfMemory) => told(&rt, 5, "imports-of: out of memory\n"),
    }
}

/// The status, with a line on standard error; 4 where that can't be written.
fn told(rt: &HostRuntime, status: u8, line: &str) -> ExitCode {
    match rt.stderr().write_all(line.as_bytes()) {
        Ok(()) => ExitCode::from(status),
        Err(_) => ExitCode::from(4),
    }
}

/// Reads the module, and writes the list.
fn list(rt: &HostRuntime, alloc: Global) -> Result<(), Stop> {
    let Ok(words) = env::args(rt) else {
        return Err(Stop::Unread);
    };
    if words.skip(1).next().is_some() {
        return Err(Stop::Usage);
    }
    let mut bytes = Vec::new(alloc);
    if rt.stdin().read_to_end(&mut bytes).is_err() {
        return Err(Stop::Unread);
    }
    let module = module_in(alloc, bytes.as_slice())?;
    put(rt, list_of(alloc, &module)?, left_out(alloc, &module)?)
}

/// Writes the list, and the lines for what it leaves out.
fn put(rt: &HostRuntime, list: Text, left_out: Text) -> Result<(), Stop> {
    let written = rt.stdout().write_all(list.as_str().as_bytes()).is_ok()
        && rt.stderr().write_all(left_out.as_str().as_bytes()).is_ok();
    if written {
        Ok(())
    } else {
        Err(Stop::Unwritten)
    }
}

/// The module that the bytes are.
fn module_in(alloc: Global, bytes: &[u8]) -> Result<WasmModule, Stop> {
    match read_module(alloc, bytes) {
        Ok(module) => Ok(module),
        Err(ModuleError::Fault(fault)) => {
            let mut why = String::new(alloc);
            let reason = reason(fault.kind);
            write!(why, "imports-of: {reason}, at byte {}\n", fault.at)?;
            Err(Stop::Refused(Text::from_string(why)))
        }
        Err(ModuleError::OutOfMemory) => Err(Stop::OutOfMemory),
    }
}

/// The list of a module's function imports.
fn list_of(alloc: Global, module: &WasmModule) -> Result<Text, Stop> {
    match function_imports(alloc, module) {
        Ok(imports) => Ok(import_list_text(alloc, &imports)?),
        Err(ListError::NoWords { import }) => {
            let mut why = String::new(alloc);
            write!(
                why,
                "imports-of: import {import} has a parameter or a result that is a reference\n"
            )?;
            Err(Stop::Refused(Text::from_string(why)))
        }
        Err(ListError::TooManyWords) => Err(Stop::Refused(Text::new(
            alloc,
            "imports-of: the imports have more than 4194304 parameters and results\n",
        )?)),
        Err(ListError::OutOfMemory) => Err(Stop::OutOfMemory),
    }
}
