//! The writing of texts on sinks.

ghost use Rattle.std.specs.Prelude.{◌≡◌, ◌<◌, ◌≤◌, ◌-◌, ◌⊎◌, [], OnOk, OnErr, length, drop};
ghost use Rattle.std.specs.Io.KnownBytes.{Appends};
ghost use Rattle.witx_base.specs.Causes.{Rose};
ghost use Rattle.witx_commands.specs.Streams.{TookPrefix};

use witx_base::{Failed, Sink};
use witx_commands::{DONE, UNWRITTEN};

/// The bytes from `at` on.
fn from(bytes: &[u8], at: usize) -> &[u8]
    requires { at ≤ length bytes.now }
    ensures { result.now ≡ drop at bytes.now }
{
    &bytes[at..]
}

/// Writes a whole text, or fails where the sink does; the sink then holds a prefix of the text. A sink
/// for which there is no text isn't touched.
#[tactic(auto, using(witx_commands::proofs::WrittenWhole::writing_rules))]
pub fn put_text<K: Sink>(sink: &mut K, text: &str) -> Result<(), Failed>
    ensures whole { OnOk result (Appends (K.taken sink.old) (K.taken sink.new) text.now) }
    ensures no_fault { OnOk result (K.faults sink.new ≡ K.faults sink.old) }
    ensures failed { OnErr result (Rose (K.faults sink.old) (K.faults sink.new)) }
    ensures prefix { TookPrefix (K.taken sink.old) (K.taken sink.new) text.now }
    ensures later { K.faults sink.old ≤ K.faults sink.new }
    ensures untouched { text.now ≡ [] → sink.new ≡ sink.old }
    ensures some { OnErr result (text.now ≡ [] → ⊥) }
{
    let bytes = text.as_bytes();
    let mut at = 0;
    while at < bytes.len() {
        at += sink.write(from(bytes, at))?;
    }
    Ok(())
}

/// Writes a text on the first sink and then notes on the second, and answers 0, or 4 where a sink
/// failed.
pub fn put_both<O: Sink, E: Sink>(out: &mut O, err: &mut E, text: &str, notes: &str) -> u8
    ensures status { (result ≡ 0) ⊎ (result ≡ 4) }
    ensures done { result ≡ 0
        → Appends (O.taken out.old) (O.taken out.new) text.now × Appends (E.taken err.old) (E.taken err.new) notes.now }
    ensures unwritten { result ≡ 4 →
        (Rose (O.faults out.old) (O.faults out.new)
        × (TookPrefix (O.taken out.old) (O.taken out.new) text.now × (text.now ≡ [] → ⊥)) × (err.new ≡ err.old))
        ⊎ (Rose (E.faults err.old) (E.faults err.new) × TookPrefix (E.taken err.old) (E.taken err.new) notes.now
        × (notes.now ≡ [] → ⊥)
        × Appends (O.taken out.old) (O.taken out.new) text.now) }
    ensures untouched { notes.now ≡ [] → err.new ≡ err.old }
    ensures out_failed { O.faults out.old < O.faults out.new → result ≡ 4 }
    ensures err_failed { E.faults err.old < E.faults err.new → result ≡ 4 }
    ensures out_later { O.faults out.old ≤ O.faults out.new }
    ensures err_later { E.faults err.old ≤ E.faults err.new }
{
    match put_text(out, text) {
        Ok(()) => put_whole(err, notes),
        Err(Failed) => UNWRITTEN,
    }
}

/// Writes a text, and answers 0, or 4 where the sink failed.
pub fn put_whole<K: Sink>(sink: &mut K, text: &str) -> u8
    ensures status { (result ≡ 0) ⊎ (result ≡ 4) }
    ensures done { result ≡ 0
        → Appends (K.taken sink.old) (K.taken sink.new) text.now × (K.faults sink.new ≡ K.faults sink.old) }
    ensures unwritten { result ≡ 4 → Rose (K.faults sink.old) (K.faults sink.new)
        × TookPrefix (K.taken sink.old) (K.taken sink.new) text.now × (text.now ≡ [] → ⊥) }
    ensures untouched { text.now ≡ [] → sink.new ≡ sink.old }
    ensures later { K.faults sink.old ≤ K.faults sink.new }
{
    match put_text(sink, text) {
        Ok(()) => DONE,
        Err(_) => UNWRITTEN,
    }
}
