//! What the summaries of a sample's document are.
#![tactic(auto, using(crate::proofs::Totals::total_rules))]

ghost use Rattle.std.specs.{Prelude.{◌≡◌, ◌<◌, IfOk}, List.{sum_by}};
ghost use Rattle.witx_sample.specs.Summaries.{event_count, size_in_bytes, summary_text};

use std::alloc::Global;
use std::fmt::Write;
use witx_adapt::{Adapted, AdaptedFunc};
use witx_base::{OutOfMemory, Text};
use witx_layout::SizeAlign;

/// The summary of an adapted document: how many typenames it has, how many functions, how many events
/// in all their traces, and how many bytes its typenames have together. An adapted document has one
/// layout for each typename and one entry for each function, which are counted.
#[tactic(auto, unfolding(crate::specs::Summaries::summary_text))]
pub fn summary(alloc: Global, adapted: &Adapted) -> Result<Text, OutOfMemory>
    ensures { IfOk result (λ text. text ≡ summary_text adapted.now) }
{
    let typenames = adapted.layouts.len();
    let functions = adapted.functions.len();
    let events = events_of(adapted.functions.as_slice());
    let bytes = bytes_of(adapted.layouts.as_slice());
    let mut text = String::new(alloc);
    write!(
        text,
        "typenames {typenames}\nfunctions {functions}\nevents {events}\nbytes {bytes}\n"
    )?;
    Ok(Text::from_string(text))
}

/// How many events the traces of some functions have. The sum of 64-bit numbers has 128 bits.
fn events_of(functions: &[AdaptedFunc]) -> u128
    ensures { result ≡ sum_by event_count functions.now }
{
    let mut total = 0;
    for function in functions {
        total += event_count(function);
    }
    total
}

fn event_count(function: &AdaptedFunc) -> u128
    ensures count { result ≡ event_count function.now }
    ensures bounded { result < 36893488147419103232 }
{
    function.caller.events().len() as u128 + function.callee.events().len() as u128
}

/// How many bytes some layouts have together.
fn bytes_of(layouts: &[SizeAlign]) -> u128
    ensures { result ≡ sum_by size_in_bytes layouts.now }
{
    let mut total = 0;
    for layout in layouts {
        total += layout.size as u128;
    }
    total
}
