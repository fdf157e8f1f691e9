//! The writing of what is told of a refusal.

ghost use Rattle.std.specs.{Prelude.{◌≡◌, ◌<◌, ◌≤◌, ◌⊎◌, OnErr, OnOk}, Io.KnownBytes.{Appends}};
ghost use Rattle.witx_base.specs.Causes.{Rose};
ghost use Rattle.witx_commands.specs.{Runs.{IsUsage, ToldWhole}, Streams.{TookPrefix}};
ghost use Rattle.witx_commands.specs.Texts.{IsRefused, status_of, text_of, usage_text};

use crate::output::put_text;
use std::alloc::Global;
use witx_base::{Failed, Sink};
use witx_commands::{Forms, NO_FORM, NO_MEMORY, Refusal, UNWRITTEN, command_lines, further_lines};

/// Writes what is to be said of a refusal, and answers the status: that of the refusal, or 4 where the
/// sink failed, or 5 where there was no memory for the text, which that of the forms doesn't take. Of a
/// refusal for want of memory nothing is written.
#[tactic(auto, using(witx_commands::proofs::WrittenWhole::silent_rules))]
pub fn put_refusal<E: Sink>(alloc: Global, refusal: &Refusal, err: &mut E) -> u8
    ensures status { IsRefused (status_of refusal.now) result }
    ensures usage { IsUsage refusal.now → (result ≡ 2) ⊎ (result ≡ 4) }
    ensures told { ToldWhole refusal.now result E.taken err.old err.new }
    ensures unwritten { result ≡ 4
        → Rose (E.faults err.old) (E.faults err.new)
        × TookPrefix (E.taken err.old) (E.taken err.new) (text_of refusal.now) }
    ensures no_memory { result ≡ 5 → err.new ≡ err.old }
    ensures failed { E.faults err.old < E.faults err.new → result ≡ 4 }
    ensures later { E.faults err.old ≤ E.faults err.new }
{
    if let Refusal::Usage(known) = refusal {
        return put_usage(*known, err);
    }
    let text = match refusal.text(alloc) {
        Ok(text) => text,
        Err(_) => return NO_MEMORY,
    };
    match put_text(err, text.as_str()) {
        Ok(()) => refusal.status(),
        Err(_) => UNWRITTEN,
    }
}

/// Writes the lines of the forms that are known, and answers the status.
fn put_usage<E: Sink>(known: Forms, err: &mut E) -> u8
    ensures status { (result ≡ 2) ⊎ (result ≡ 4) }
    ensures told { result ≡ 2 → Appends (E.taken err.old) (E.taken err.new) (usage_text known) }
    ensures unwritten { result ≡ 4
        → Rose (E.faults err.old) (E.faults err.new)
        × TookPrefix (E.taken err.old) (E.taken err.new) (usage_text known) }
    ensures failed { E.faults err.old < E.faults err.new → result ≡ 4 }
    ensures later { E.faults err.old ≤ E.faults err.new }
{
    match put_forms(known, err) {
        Ok(()) => NO_FORM,
        Err(_) => UNWRITTEN,
    }
}

/// Writes the lines of `run`, and then the further ones.
fn put_forms<E: Sink>(known: Forms, err: &mut E) -> Result<(), Failed>
    ensures whole { OnOk result (Appends (E.taken err.old) (E.taken err.new) (usage_text known)) }
    ensures no_fault { OnOk result (E.faults err.new ≡ E.faults err.old) }
    ensures failed { OnErr result (Rose (E.faults err.old) (E.faults err.new)) }
    ensures prefix { TookPrefix (E.taken err.old) (E.taken err.new) (usage_text known) }
    ensures later { E.faults err.old ≤ E.faults err.new }
{
    put_text(err, command_lines())?;
    put_text(err, further_lines(known))
}
