//! The call of a function with given values, over a memory of bytes.

ghost use Rattle.std.specs.Prelude.{◌≡◌, ◌<◌, ◌≤◌, ◌+◌, ◌/◌, ◌%◌, ◌^◌, ◌++◌, ◌∷◌, [], All, IfErr, IfOk, None, OnOk, Some, codes, map, option_map, position, string_bytes};
ghost use Rattle.std.specs.{Fmt.{decimal}, List.{flat_map}};
ghost use Rattle.witx_machine.specs.Run.{numbers};
ghost use Rattle.witx_adapt.specs.{Entries.{entry_of}, Names.{digit, wasm_word}};
ghost use Rattle.witx_bytes.specs.{Bytes.{held}, Seen.{seen}};
ghost use Rattle.witx_call.specs.{CallSeen.{placed_of, seen_of}, ValueTexts.{value_text as text_of}};
ghost use Rattle.witx_call.specs.WordViews.{word_view};
ghost use Rattle.witx_commands.specs.{Stops.{StopsWith}, Words.{both_names, own_file}};
ghost use Rattle.witx_commands.specs.Words as asked;
ghost use Rattle.witx_tools.specs.Callable.{AreFor, IsCallable, handed_of};
ghost use Rattle.witx_tools.specs.Calls.{CallFails, GivesValues, HandedFails, IsCallText, IsHandedText, IsNamedText, LineFails, NamedFails, absent_report, first_named, has_function_names, line_report};
ghost use Rattle.witx_tools.specs.InvokeTexts.{byte_text, call_text, note_line, range_line, returned_line, word_text, words_line};
ghost use Rattle.witx_tools.specs.{ToolCauses.{ToolRefuses}, ToolRuns.{ToolTells}};

use crate::own::opened_file;
use std::alloc::{AllocError, Global};
use std::fmt::Write;
use witx_adapt::{AdaptedFunc, wasm_word};
use witx_base::{OutOfMemory, Text};
use witx_bytes::{ByteMemory, Value, traces_take_writable};
use witx_commands::{Output, OwnFile, Refusal, Stop, text_alone};
use witx_files::MockFs;
use witx_invoke::{
    GivenValues, InvokeError, Invoked, Placed, ValuesError, Word, invoke, read_values, value_text,
};
use witx_walk::one_reading;

/// The call of the function of the module with these names, in the document of the files behind the
/// file of its values.
#[tactic(auto, using(crate::proofs::Telling::call_rules))]
pub fn call_of_files(
    alloc: Global,
    owner: &Text,
    function: &Text,
    own: &OwnFile<'_>,
    files: &mut MockFs,
) -> Result<Output, Stop>
    ensures output { let names = both_names owner.now function.now in
        IfOk result (λ o. ToolTells (asked.invoke names (own_file own.now)) files.old o.text o.notes o.adapted) }
    ensures stopped { let names = both_names owner.now function.now in
        IfErr result (StopsWith (ToolRefuses (asked.invoke names (own_file own.now)) files.old)) }
{
    one_reading();
    traces_take_writable();
    let opened = opened_file(alloc, own, files)?;
    let text = named_call(
        alloc,
        opened.adapted.functions.as_slice(),
        owner.as_str(),
        function.as_str(),
        opened.text.as_str(),
    )?;
    Ok(text_alone(alloc, text))
}

/// The call of the first function with these names.
fn named_call(
    alloc: Global,
    functions: &[AdaptedFunc],
    owner: &str,
    function: &str,
    values: &str,
) -> Result<Text, Stop>
    requires { All IsCallable functions.now }
    ensures text { IfOk result (IsNamedText (both_names owner.now function.now) (map entry_of functions.now) values.now) }
    ensures stopped { let names = both_names owner.now function.now in
        IfErr result (StopsWith (NamedFails names (first_named names (map entry_of functions.now)) values.now)) }
{
    let Some(number) = number_named(functions, owner, function) else {
        return Err(absent_stop(alloc, owner, function));
    };
    entry_call(alloc, &functions[number], values)
}

/// The number of the first function with these names.
fn number_named(functions: &[AdaptedFunc], owner: &str, function: &str) -> Option<usize>
    ensures { result ≡ position (λ f. has_function_names (both_names owner.now function.now) (entry_of f)) functions.now }
{
    functions
        .iter()
        .position(|entry| has_names(entry, owner, function))
}

fn has_names(entry: &AdaptedFunc, owner: &str, function: &str) -> bool
    ensures { result ≡ has_function_names (both_names owner.now function.now) (entry_of entry.now) }
{
    entry.module.name.is(owner) && entry.func.name.is(function)
}

/// The end of a run whose document has no such function.
fn absent_stop(alloc: Global, owner: &str, function: &str) -> Stop
    ensures { StopsWith (λ report. report ≡ absent_report (both_names owner.now function.now)) result }
{
    match absent_report(alloc, owner, function) {
        Ok(report) => Stop::Refused(Refusal::Command(report)),
        Err(_) => Stop::OutOfMemory,
    }
}

fn absent_report(alloc: Global, owner: &str, function: &str) -> Result<Text, OutOfMemory>
    ensures { IfOk result (λ report. report ≡ absent_report (both_names owner.now function.now)) }
{
    Ok(Text::from_string(format!(in alloc; "no function `{function}` in module `{owner}`")?))
}

/// The call of a function with the values that lines give.
#[tactic(auto, using(crate::proofs::Calling::entry_rules))]
fn entry_call(alloc: Global, entry: &AdaptedFunc, values: &str) -> Result<Text, Stop>
    requires { IsCallable entry.now }
    ensures text { IfOk result (IsCallText (entry_of entry.now) values.now) }
    ensures stopped { IfErr result (StopsWith (CallFails (entry_of entry.now) values.now)) }
{
    let given = given_values(alloc, entry, values)?;
    handed_call(alloc, entry, &given)
}

/// The values that lines give a function, or the end of a run with the first line at fault.
#[tactic(auto, using(crate::proofs::Calling::given_rules))]
fn given_values(alloc: Global, entry: &AdaptedFunc, values: &str) -> Result<GivenValues, Stop>
    requires { IsCallable entry.now }
    ensures given { IfOk result (λ given. GivesValues (entry_of entry.now) values.now (handed_of given)) }
    ensures stopped { IfErr result (StopsWith (LineFails (entry_of entry.now) values.now)) }
{
    match read_values(alloc, &entry.func, values) {
        Ok(given) => Ok(given),
        Err(ValuesError::Line { line }) => Err(line_stop(alloc, line)),
        Err(ValuesError::OutOfMemory) => Err(Stop::OutOfMemory),
    }
}

/// The end of a run whose values have this line at fault.
fn line_stop(alloc: Global, line: usize) -> Stop
    ensures { StopsWith (λ report. report ≡ line_report line) result }
{
    match line_report(alloc, line) {
        Ok(report) => Stop::Refused(Refusal::Command(report)),
        Err(_) => Stop::OutOfMemory,
    }
}

fn line_report(alloc: Global, line: usize) -> Result<Text, OutOfMemory>
    ensures { IfOk result (λ report. report ≡ codes "values: unexpected line " ++ decimal line) }
{
    Ok(Text::from_string(format!(in alloc; "values: unexpected line {line}")?))
}

/// The call of a function with values of its types.
#[tactic(auto, using(crate::proofs::Calling::handed_rules))]
fn handed_call(alloc: Global, entry: &AdaptedFunc, given: &GivenValues) -> Result<Text, Stop>
    requires callable { IsCallable entry.now }
    requires values { AreFor entry.now (handed_of given.now) }
    ensures text { IfOk result (IsHandedText (entry_of entry.now) (handed_of given.now)) }
    ensures stopped { IfErr result (StopsWith (HandedFails (entry_of entry.now) (handed_of given.now))) }
{
    match invoke(alloc, entry, &given.args, given.reply.as_ref()) {
        Ok(invoked) => told_call(alloc, &invoked),
        Err(InvokeError::ZeroError) => Err(refused(alloc, "error word is 0")),
        Err(InvokeError::NoRoom) => Err(refused(alloc, "out of room")),
        Err(InvokeError::OutOfMemory) => Err(Stop::OutOfMemory),
    }
}

/// The end of a run with this report.
fn refused(alloc: Global, report: &str) -> Stop
    ensures { StopsWith (λ told. told ≡ report.now) result }
{
    match Text::new(alloc, report) {
        Ok(report) => Stop::Refused(Refusal::Command(report)),
        Err(_) => Stop::OutOfMemory,
    }
}

/// What is told of a call.
fn told_call(alloc: Global, invoked: &Invoked) -> Result<Text, Stop>
    requires { All (λ p. p.at + p.len ≤ 2 ^ 20) invoked.now.taken }
    ensures text { IfOk result (λ text. text ≡ call_text (seen_of invoked.now)) }
    ensures stopped { IfErr result (StopsWith (λ report. ⊥)) }
{
    Ok(call_text(alloc, invoked)?)
}

#[tactic(auto, unfolding(crate::specs::InvokeTexts::call_text))]
fn call_text(alloc: Global, invoked: &Invoked) -> Result<Text, OutOfMemory>
    requires { All (λ p. p.at + p.len ≤ 2 ^ 20) invoked.now.taken }
    ensures { IfOk result (λ text. text ≡ call_text (seen_of invoked.now)) }
{
    let mut text = String::new(alloc);
    put_call(alloc, &mut text, invoked)?;
    Ok(Text::from_string(text))
}

/// The words, the values and the bytes of a call.
#[tactic(auto, unfolding(crate::specs::InvokeTexts::call_text))]
fn put_call(alloc: Global, text: &mut String, invoked: &Invoked) -> Result<(), OutOfMemory>
    requires { All (λ p. p.at + p.len ≤ 2 ^ 20) invoked.now.taken }
    ensures { OnOk result (string_bytes text.new ≡ string_bytes text.old ++ call_text (seen_of invoked.now)) }
{
    put_words_line(text, "pass", invoked.pass.as_slice())?;
    put_notes(alloc, text, invoked.notes.as_slice())?;
    put_words_line(text, "back", invoked.back.as_slice())?;
    put_returned(alloc, text, &invoked.returned)?;
    Ok(put_ranges(text, invoked.taken.as_slice(), &invoked.memory)?)
}

/// Words behind what they are.
fn put_words_line(text: &mut String, name: &str, words: &[Word]) -> Result<(), AllocError>
    ensures { OnOk result (string_bytes text.new ≡ string_bytes text.old
        ++ words_line name.now (map word_view words.now)) }
{
    text.push_str(name)?;
    put_words(text, words)?;
    text.push_str("\n")
}

#[tactic(auto, using(crate::proofs::Shims::viewed_rules))]
fn put_words(text: &mut String, words: &[Word]) -> Result<(), AllocError>
    ensures { OnOk result (string_bytes text.new ≡ string_bytes text.old
        ++ flat_map word_text (map word_view words.now)) }
{
    for word in words {
        put_word(text, *word)?;
    }
    Ok(())
}

fn put_word(text: &mut String, word: Word) -> Result<(), AllocError>
    ensures { OnOk result (string_bytes text.new ≡ string_bytes text.old ++ word_text (word_view word)) }
{
    text.push_str(" ")?;
    text.push_str(wasm_word(word.ty))?;
    put_bits(text, word.bits)
}

fn put_bits(text: &mut String, bits: u64) -> Result<(), AllocError>
    ensures { OnOk result (string_bytes text.new ≡ string_bytes text.old ++ (codes ":" ++ decimal bits)) }
{
    write!(text, ":{bits}")
}

/// A line for each value that is noted.
#[tactic(auto, using(crate::proofs::Shims::viewed_rules))]
fn put_notes(alloc: Global, text: &mut String, notes: &[Value]) -> Result<(), OutOfMemory>
    ensures { OnOk result (string_bytes text.new ≡ string_bytes text.old ++ flat_map note_line (map seen notes.now)) }
{
    for note in notes {
        put_value_line(alloc, text, "note ", note)?;
    }
    Ok(())
}

fn put_value_line(
    alloc: Global,
    text: &mut String,
    name: &str,
    value: &Value,
) -> Result<(), OutOfMemory>
    ensures { OnOk result (string_bytes text.new ≡ string_bytes text.old
        ++ (name.now ++ text_of (seen value.now) ++ codes "\n")) }
{
    let written = value_text(alloc, value)?;
    text.push_str(name)?;
    text.push_str(written.as_str())?;
    Ok(text.push_str("\n")?)
}

/// A line for the value that is returned, if one is.
fn put_returned(
    alloc: Global,
    text: &mut String,
    returned: &Option<Value>,
) -> Result<(), OutOfMemory>
    ensures { OnOk result (string_bytes text.new ≡ string_bytes text.old
        ++ returned_line (option_map seen returned.now)) }
{
    match returned {
        Some(value) => put_value_line(alloc, text, "return ", value),
        None => Ok(()),
    }
}

/// A line for each range, with the bytes that stand there.
#[tactic(auto, using(crate::proofs::Shims::viewed_rules))]
fn put_ranges(text: &mut String, taken: &[Placed], memory: &ByteMemory) -> Result<(), AllocError>
    requires { All (λ p. p.at + p.len ≤ 2 ^ 20) taken.now }
    ensures { OnOk result (string_bytes text.new ≡ string_bytes text.old
        ++ flat_map (range_line (held memory.now)) (map placed_of taken.now)) }
{
    for range in taken {
        put_range(text, *range, memory)?;
    }
    Ok(())
}

fn put_range(text: &mut String, range: Placed, memory: &ByteMemory) -> Result<(), AllocError>
    requires { range.at + range.len ≤ 2 ^ 20 }
    ensures { OnOk result (string_bytes text.new ≡ string_bytes text.old
        ++ range_line (held memory.now) (placed_of range)) }
{
    put_address(text, range.at)?;
    put_bytes(text, range, memory)?;
    text.push_str("\n")
}

fn put_address(text: &mut String, at: u32) -> Result<(), AllocError>
    ensures { OnOk result (string_bytes text.new ≡ string_bytes text.old ++ (codes "bytes " ++ decimal at)) }
{
    write!(text, "bytes {at}")
}

fn put_bytes(text: &mut String, range: Placed, memory: &ByteMemory) -> Result<(), AllocError>
    requires { range.at + range.len ≤ 2 ^ 20 }
    ensures { OnOk result (string_bytes text.new ≡ string_bytes text.old
        ++ flat_map (λ at. byte_text (held memory.now at)) (numbers range.at range.len)) }
{
    for i in 0..range.len {
        put_byte(text, memory.byte(range.at + i))?;
    }
    Ok(())
}

fn put_byte(text: &mut String, byte: Option<u8>) -> Result<(), AllocError>
    ensures { OnOk result (string_bytes text.new ≡ string_bytes text.old ++ byte_text byte) }
{
    match byte {
        Some(byte) => put_digits(text, byte),
        None => Ok(()),
    }
}

fn put_digits(text: &mut String, byte: u8) -> Result<(), AllocError>
    ensures { OnOk result (string_bytes text.new ≡ string_bytes text.old
        ++ (codes " " ++ digit (byte / 16) ∷ digit (byte % 16) ∷ [])) }
{
    text.push_str(" ")?;
    text.push(hex_digit(byte / 16))?;
    text.push(hex_digit(byte % 16))
}

fn hex_digit(n: u8) -> char
    requires { n < 16 }
    ensures value { result ≡ digit n }
    ensures ascii { result < 128 }
{
    if n < 10 {
        (b'0' + n) as char
    } else {
        (b'a' + (n - 10)) as char
    }
}
