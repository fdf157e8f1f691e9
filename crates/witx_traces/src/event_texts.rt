//! The event that a line says.
#![tactic(auto, using(crate::proofs::EventReading::line_rules))]

ghost use Rattle.std.specs.Prelude.{◌≡◌, ◌∷◌, ◌++◌, IfOk, Some, None, List, ℕ, codes, map, option_map, option_copied, true};
ghost use Rattle.std.specs.Fmt.{decimal};
ghost use Rattle.witx_base.specs.Texts.{same_text};
ghost use Rattle.witx_ast.specs.Views.{tree_of};
ghost use Rattle.witx_instructions.specs.Views.{event_of, param_types};
ghost use Rattle.witx_machine.specs.Events as machine;
ghost use Rattle.witx_traces.specs.LineParts.{SaidBy, SaidByLine, SaidByText, no_blank};
ghost use Rattle.witx_traces.specs.LineReading.{NamesAt, NumberAt, PayloadsAt, names_behind, texts_taken};
ghost use Rattle.witx_traces.specs.{ReadTypes.{PayloadAt, known_in}, Traces.{Types}};
ghost use Rattle.witx_traces.specs.declared.line_words.LineWord.TheVariants as line_word;

use crate::candidates::KnownTypes;
use crate::heads::{behind, cut_word, is_same};
use crate::line_words::{
    LineWord, NamedWord, NumberWord, ShownWord, line_word, named_step, number_step, plain_event,
    shown_step,
};
use crate::quoted_names::read_quoted;
use crate::signature_texts::read_signature;
use std::alloc::Global;
use std::fmt::Write;
use witx_abi::{Event, InterfaceCall, Payloads, Step, WasmCall};
use witx_ast::{InterfaceFuncParam, TypeRef, TypeRefs};
use witx_base::{Id, OutOfMemory};

/// The event that is said, if one is.
type Said = Result<Option<Event>, OutOfMemory>;

/// The event that a line says; none if it says none.
pub(crate) fn read_event(alloc: Global, types: &KnownTypes<'_>, line: &str) -> Said
    ensures { IfOk result (λ o. SaidByLine (known_in types.now) line.now (option_map event_of o)) }
{
    match behind(line, "  ") {
        Some(text) => Ok(read_text(alloc, types, text)?),
        None => Ok(None),
    }
}

/// The event whose text this is.
fn read_text(alloc: Global, types: &KnownTypes<'_>, text: &str) -> Said
    ensures { IfOk result (λ o. SaidByText (known_in types.now) text.now (option_map event_of o)) }
{
    match cut_word(text) {
        Some((word, tail)) => Ok(read_spelled(alloc, types, word, tail)?),
        None => Ok(bare_event(alloc, text)?),
    }
}

/// The event whose text is the word alone.
#[tactic(auto, using(crate::proofs::EventReading::word_rules))]
fn bare_event(alloc: Global, word: &str) -> Said
    requires { no_blank word.now ≡ true }
    ensures { (types : Types) → IfOk result (λ o. SaidByText types word.now (option_map event_of o)) }
{
    match line_word(word) {
        Some(word) => Ok(event_alone(alloc, word)?),
        None => Ok(None),
    }
}

#[tactic(auto, using(crate::proofs::EventReading::alone_rules))]
fn event_alone(alloc: Global, word: LineWord) -> Said
    ensures { (types : Types) → IfOk result (λ o. SaidBy types word None (option_map event_of o)) }
{
    match word {
        LineWord::Plain(word) => Ok(Some(plain_event(word))),
        LineWord::ResultLower => Ok(Some(lowered(alloc, None, None)?)),
        LineWord::Number(_)
        | LineWord::Named(_)
        | LineWord::Shown(_)
        | LineWord::CallWasm
        | LineWord::CallInterface
        | LineWord::Space
        | LineWord::FinishBlock => Ok(None),
    }
}

/// The event whose text is the word and, behind a space, the tail.
#[tactic(auto, using(crate::proofs::EventReading::word_rules))]
fn read_spelled(alloc: Global, types: &KnownTypes<'_>, word: &str, tail: &str) -> Said
    requires { no_blank word.now ≡ true }
    ensures { IfOk result (λ o. SaidByText (known_in types.now) (word.now ++ 32 ∷ tail.now) (option_map event_of o)) }
{
    match line_word(word) {
        Some(word) => Ok(read_fields(alloc, types, word, tail)?),
        None => Ok(None),
    }
}

/// The event of a word and what stands behind the space after it.
#[tactic(auto, using(crate::proofs::EventReading::fields_rules))]
fn read_fields(alloc: Global, types: &KnownTypes<'_>, word: LineWord, tail: &str) -> Said
    ensures { IfOk result (λ o. SaidBy (known_in types.now) word (Some tail.now) (option_map event_of o)) }
{
    match word {
        LineWord::Plain(_) => Ok(None),
        LineWord::Number(word) => read_number_step(alloc, word, tail),
        LineWord::Named(word) => read_named_step(alloc, types, word, tail),
        LineWord::Shown(word) => read_shown_step(alloc, types, word, tail),
        LineWord::CallWasm => read_call_wasm(alloc, tail),
        LineWord::CallInterface => read_call_interface(alloc, types, tail),
        LineWord::ResultLower => read_result_lower(alloc, types, tail),
        LineWord::Space => read_space(alloc, types, tail),
        LineWord::FinishBlock => Ok(finish_event(tail)),
    }
}

/// The number that is printed so.
#[tactic(auto, using(crate::proofs::EventReading::number_rules))]
fn read_number(alloc: Global, text: &str) -> Result<Option<usize>, OutOfMemory>
    ensures { IfOk result (λ o. NumberAt text.now o) }
{
    let Ok(number) = text.parse::<usize>() else {
        return Ok(None);
    };
    if is_printed(alloc, number, text)? {
        return Ok(Some(number));
    }
    Ok(None)
}

/// Whether the text is that of the number.
#[tactic(auto, unfolding(witx_base::specs::Texts::same_text))]
fn is_printed(alloc: Global, number: usize, text: &str) -> Result<bool, OutOfMemory>
    ensures { IfOk result (λ same. same ≡ same_text (decimal number) text.now) }
{
    let mut printed = String::new(alloc);
    write!(printed, "{number}")?;
    Ok(printed.as_str() == text)
}

#[tactic(auto, using(crate::proofs::EventReading::number_rules))]
fn read_number_step(alloc: Global, word: NumberWord, tail: &str) -> Said
    ensures { (types : Types)
        → IfOk result (λ o. SaidBy types (line_word.Number word) (Some tail.now) (option_map event_of o)) }
{
    match read_number(alloc, tail)? {
        Some(number) => Ok(Some(Event::Emit(number_step(word, number)))),
        None => Ok(None),
    }
}

#[tactic(auto, using(crate::proofs::EventReading::named_rules))]
fn read_named_step(alloc: Global, types: &KnownTypes<'_>, word: NamedWord, tail: &str) -> Said
    ensures { IfOk result
        (λ o. SaidBy (known_in types.now) (line_word.Named word) (Some tail.now) (option_map event_of o)) }
{
    let Some(named) = types.typename(alloc, tail)? else {
        return Ok(None);
    };
    Ok(Some(Event::Emit(named_step(word, named.clone()?))))
}

#[tactic(auto, using(crate::proofs::EventReading::shown_rules))]
fn read_shown_step(alloc: Global, types: &KnownTypes<'_>, word: ShownWord, tail: &str) -> Said
    ensures { IfOk result
        (λ o. SaidBy (known_in types.now) (line_word.Shown word) (Some tail.now) (option_map event_of o)) }
{
    match types.shown(alloc, tail)? {
        Some(ty) => Ok(Some(Event::Emit(shown_step(word, ty)))),
        None => Ok(None),
    }
}

#[tactic(auto, using(crate::proofs::EventReading::room_rules))]
fn read_space(alloc: Global, types: &KnownTypes<'_>, tail: &str) -> Said
    ensures { IfOk result (λ o. SaidBy (known_in types.now) line_word.Space (Some tail.now) (option_map event_of o)) }
{
    let Some((number, name)) = cut_word(tail) else {
        return Ok(None);
    };
    let Some(slot) = read_number(alloc, number)? else {
        return Ok(None);
    };
    match types.typename(alloc, name)? {
        Some(named) => Ok(Some(Event::Space {
            slot,
            ty: named.clone()?,
        })),
        None => Ok(None),
    }
}

#[tactic(auto, using(crate::proofs::EventReading::finished_rules))]
fn finish_event(tail: &str) -> Option<Event>
    ensures { (types : Types) → SaidBy types line_word.FinishBlock (Some tail.now) (option_map event_of result) }
{
    if is_same("value", tail) {
        return Some(Event::Finish { value: true });
    }
    if is_same("none", tail) {
        return Some(Event::Finish { value: false });
    }
    None
}

/// Two quoted names with a space between, and what follows them.
#[tactic(auto, using(crate::proofs::EventReading::names_rules))]
fn read_names<'a>(alloc: Global, text: &'a str) -> Result<Option<(Id, Id, &'a str)>, OutOfMemory>
    ensures { IfOk result (λ o. NamesAt text.now (option_map names_behind o)) }
{
    let Some((module, rest)) = read_quoted(alloc, text)? else {
        return Ok(None);
    };
    let Some(start) = behind(rest, " ") else {
        return Ok(None);
    };
    match read_quoted(alloc, start)? {
        Some((name, rest)) => Ok(Some((module, name, rest))),
        None => Ok(None),
    }
}

#[tactic(auto, using(crate::proofs::EventReading::wasm_rules))]
fn read_call_wasm(alloc: Global, tail: &str) -> Said
    ensures { (types : Types) → IfOk result (λ o. SaidBy types line_word.CallWasm (Some tail.now) (option_map event_of o)) }
{
    let Some((module, name, rest)) = read_names(alloc, tail)? else {
        return Ok(None);
    };
    let Some(shown) = behind(rest, " ") else {
        return Ok(None);
    };
    match read_signature(alloc, shown)? {
        Some(signature) => {
            let call = WasmCall {
                module,
                name,
                params: signature.params,
                results: signature.results,
            };
            Ok(Some(Event::Emit(Step::CallWasm(Box::new(alloc, call)?))))
        }
        None => Ok(None),
    }
}

#[tactic(auto, using(crate::proofs::EventReading::interface_rules))]
fn read_call_interface(alloc: Global, types: &KnownTypes<'_>, tail: &str) -> Said
    ensures { IfOk result
        (λ o. SaidBy (known_in types.now) line_word.CallInterface (Some tail.now) (option_map event_of o)) }
{
    let Some((module, name, rest)) = read_names(alloc, tail)? else {
        return Ok(None);
    };
    if !rest.is_empty() {
        return Ok(None);
    }
    let func = types.func();
    let params = types_of(alloc, func.params.as_slice())?;
    let results = types_of(alloc, func.results.as_slice())?;
    let call = InterfaceCall {
        module,
        name,
        params,
        results,
    };
    Ok(Some(asked(alloc, call)?))
}

fn asked(alloc: Global, call: InterfaceCall) -> Result<Event, OutOfMemory>
    ensures { IfOk result (λ event. event_of event ≡ machine.emit (machine.Step.CallInterface
        call.module call.name (map tree_of call.params) (map tree_of call.results))) }
{
    Ok(Event::Emit(Step::CallInterface(Box::new(alloc, call)?)))
}

/// The types of parameters.
fn types_of(alloc: Global, params: &[InterfaceFuncParam]) -> Result<TypeRefs, OutOfMemory>
    ensures { IfOk result (λ types. map tree_of types ≡ param_types params.now) }
{
    let mut types = TypeRefs::new(alloc);
    for param in params {
        types.push(param.tref.clone()?)?;
    }
    Ok(types)
}

/// The texts of the payloads of a result that is lowered. The first ` err ` ends the ok type's.
#[tactic(auto, using(crate::proofs::PayloadTexts::texts_rules))]
fn payload_texts(tail: &str) -> Option<(Option<&str>, Option<&str>)>
    ensures { PayloadsAt tail.now (option_map texts_taken result) }
{
    match behind(tail, "ok ") {
        Some(payloads) => ok_texts(payloads),
        None => match behind(tail, "err ") {
            Some(err) => Some((None, Some(err))),
            None => None,
        },
    }
}

/// The same behind `ok `.
fn ok_texts(payloads: &str) -> Option<(Option<&str>, Option<&str>)>
    ensures { (tail : List ℕ) → tail ≡ codes "ok " ++ payloads.now → PayloadsAt tail (option_map texts_taken result) }
{
    match payloads.split_once(" err ") {
        Some((ok, err)) => Some((Some(ok), Some(err))),
        None => match payloads.strip_suffix(" err") {
            Some(_front) => None,
            None => Some((Some(payloads), None)),
        },
    }
}

#[tactic(auto, using(crate::proofs::EventReading::lower_rules))]
fn read_result_lower(alloc: Global, types: &KnownTypes<'_>, tail: &str) -> Said
    ensures { IfOk result (λ o. SaidBy (known_in types.now) line_word.ResultLower (Some tail.now) (option_map event_of o)) }
{
    let Some((ok, err)) = payload_texts(tail) else {
        return Ok(None);
    };
    let Some(ok) = read_payload(alloc, types, ok)? else {
        return Ok(None);
    };
    match read_payload(alloc, types, err)? {
        Some(err) => Ok(Some(lowered(alloc, ok, err)?)),
        None => Ok(None),
    }
}

fn lowered(alloc: Global, ok: Option<TypeRef>, err: Option<TypeRef>) -> Result<Event, OutOfMemory>
    ensures { IfOk result (λ event. event_of event
        ≡ machine.emit (machine.Step.ResultLower (option_map tree_of ok) (option_map tree_of err))) }
{
    let payloads = Payloads { ok, err };
    Ok(Event::Emit(Step::ResultLower(Box::new(alloc, payloads)?)))
}

/// The payload that a text stands for, if there is a text; none where it stands for none.
#[tactic(auto, using(crate::proofs::EventReading::payload_rules))]
fn read_payload(
    alloc: Global,
    types: &KnownTypes<'_>,
    text: Option<&str>,
) -> Result<Option<Option<TypeRef>>, OutOfMemory>
    ensures { IfOk result (λ o. PayloadAt (known_in types.now) (option_copied text.entry)
        (option_map (λ t. option_map tree_of t) o)) }
{
    match text {
        Some(text) => match types.payload(alloc, text)? {
            Some(ty) => Ok(Some(Some(ty))),
            None => Ok(None),
        },
        None => Ok(Some(None)),
    }
}
