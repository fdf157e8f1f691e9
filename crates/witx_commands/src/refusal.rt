//! Why a run has no output, with its status and what is written of it.

ghost use Rattle.std.specs.Prelude.{◌≡◌, ◌++◌, IfOk, codes};
ghost use Rattle.witx_commands.specs.{Causes.{stop_of}, Stops.{StopsWith}, Texts.{line, status_of, text_of}};

use crate::forms::{Forms, usage_text};
use crate::input::InputError;
use crate::status::{NO_BUNDLE, NO_FORM, NO_MEMORY, REFUSED, UNREAD};
use std::alloc::Global;
use witx_base::{OutOfMemory, Text};
use witx_bundle::BundleError;

/// Why a run ends without its output, where it says so.
#[derive(PartialEq, Eq, Debug, Drop)]
pub enum Refusal {
    /// The words have none of these forms.
    Usage(Forms),
    /// The source failed.
    Source,
    /// The input is no bundle, or there was no memory to tell whether it is one.
    Bundle(BundleError),
    /// The command's call refused the files, with this report.
    Command(Text),
}

impl Refusal {
    /// The status with which the program ends.
    pub fn status(&self) -> u8
        ensures { result ≡ status_of self.now }
    {
        match self {
            Refusal::Command(_) => REFUSED,
            Refusal::Usage(_) => NO_FORM,
            Refusal::Source => UNREAD,
            Refusal::Bundle(BundleError::OutOfMemory) => NO_MEMORY,
            Refusal::Bundle(_) => NO_BUNDLE,
        }
    }

    /// What the program writes about it; there is no text of want of memory.
    pub fn text(&self, alloc: Global) -> Result<Text, OutOfMemory>
        ensures { IfOk result (λ t. t ≡ text_of self.now) }
    {
        match self {
            Refusal::Usage(known) => usage_text(alloc, *known),
            Refusal::Source => Text::new(alloc, "witx: cannot read input\n"),
            Refusal::Bundle(error) => bundle_text(alloc, *error),
            Refusal::Command(report) => command_text(alloc, report.as_str()),
        }
    }
}

/// A report, as the program writes it.
fn command_text(alloc: Global, report: &str) -> Result<Text, OutOfMemory>
    ensures { IfOk result (λ t. t ≡ line (codes "witx: " ++ report.now)) }
{
    Ok(Text::from_string(format!(in alloc; "witx: {report}\n")?))
}

/// What is written of bytes that are no bundle; there is no text of want of memory.
fn bundle_text(alloc: Global, error: BundleError) -> Result<Text, OutOfMemory>
    ensures { IfOk result (λ t. t ≡ text_of (Refusal.Bundle error)) }
{
    match error {
        BundleError::TooLong => Text::new(alloc, "witx: bundle has more than 4194304 bytes\n"),
        BundleError::NotUtf8 { at } => Ok(Text::from_string(format!(in alloc;
            "witx: bundle is not UTF-8 at byte {at}\n"
        )?)),
        BundleError::BeforeFirst { at } => Ok(Text::from_string(format!(in alloc;
            "witx: text before the first file at byte {at}\n"
        )?)),
        BundleError::OutOfMemory => Err(OutOfMemory),
    }
}

/// Why a run has no output.
#[derive(PartialEq, Eq, Drop)]
pub enum Stop {
    Refused(Refusal),
    OutOfMemory,
}

impl From<OutOfMemory> for Stop {
    ghost use Rattle.witx_commands.specs.declared.refusal.Stop.TheVariants as stop;

    ghost from_gives = { λ _ e. e ≡ stop.OutOfMemory };

    fn from(_: OutOfMemory) -> Stop {
        Stop::OutOfMemory
    }
}

/// The end of a run that has no bundle.
pub fn stop_of(error: InputError) -> Stop
    ensures { result ≡ stop_of error }
{
    match error {
        InputError::Source => Stop::Refused(Refusal::Source),
        InputError::Bundle(error) => Stop::Refused(Refusal::Bundle(error)),
        InputError::OutOfMemory => Stop::OutOfMemory,
    }
}

/// The end of a run where a number is too large to be shown.
pub fn too_large(alloc: Global) -> Stop
    ensures { StopsWith (λ report. report ≡ codes "size too large") result }
{
    match Text::new(alloc, "size too large") {
        Ok(report) => Stop::Refused(Refusal::Command(report)),
        Err(_) => Stop::OutOfMemory,
    }
}
