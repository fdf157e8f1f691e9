//! The lines of mapped parameters, results and functions.
#![tactic(auto, using(crate::proofs::FunctionParts::unknown_rules))]

ghost use Rattle.std.specs.Prelude.{◌≡◌, ◌==◌, ◌&&◌, ◌++◌, IfOk, OnOk, codes, length, map, string_bytes};
ghost use Rattle.std.specs.List.{flat_map, list_all};
ghost use Rattle.witx_ast.specs.Functions.{func_tree};
ghost use Rattle.witx_base.specs.SameBytes.{same_bytes};
ghost use Rattle.witx_compat.specs.Conversions.{is_compatible};
ghost use Rattle.witx_compat.specs.Views.{mapped_view, unknown_view, function_view};
ghost use Rattle.witx_docs.specs.PolyfillTexts.{compatible_part, full_line, mapped_function_parts, nothing_found, function_text, mapped_line, mapped_part, mapped_text, part_line, backquoted, related_types, renamed, mapped_types, unknown_part};
ghost use Rattle.witx_docs.specs.Pieces.{behind_colon, compared_part, has_compatible_parts};

use crate::conversion_lines::is_alike;
use crate::written::Written;
use witx_base::{Id, OutOfMemory};
use witx_compat::{FuncPolyfill, ParamPolyfill, ParamUnknown, RepEquality};
use witx_markdown::put;

impl Written for ParamPolyfill {
    ghost written = { λ p. mapped_text (mapped_view p) };

    fn put(&self, out: &mut String) -> Result<(), OutOfMemory> {
        put_mapped(out, self, self.repeq())
    }
}

/// The names and the types of two that are mapped, whose types have that answer.
fn put_mapped(
    out: &mut String,
    mapped: &ParamPolyfill,
    answer: RepEquality,
) -> Result<(), OutOfMemory>
    ensures { OnOk result (string_bytes out.new ≡ string_bytes out.old ++ mapped_line answer (mapped_view mapped.now)) }
{
    put_renamed(out, &mapped.old.name, &mapped.new.name)?;
    out.push_str(": ")?;
    put_types(out, mapped, answer)
}

/// The name, or the old name and then the new one.
fn put_renamed(out: &mut String, old: &Id, new: &Id) -> Result<(), OutOfMemory>
    ensures { OnOk result (string_bytes out.new ≡ string_bytes out.old ++ renamed old.now new.now) }
{
    if new == old {
        return put_name(out, new.as_str());
    }
    put_name(out, old.as_str())?;
    out.push_str(" => ")?;
    put_name(out, new.as_str())
}

/// A name between backquotes.
fn put_name(out: &mut String, name: &str) -> Result<(), OutOfMemory>
    ensures { OnOk result (string_bytes out.new ≡ string_bytes out.old ++ backquoted name.now) }
{
    write!(out, "`{name}`")?;
    Ok(())
}

/// The two types, by their answer.
fn put_types(
    out: &mut String,
    mapped: &ParamPolyfill,
    answer: RepEquality,
) -> Result<(), OutOfMemory>
    ensures { OnOk result (string_bytes out.new ≡ string_bytes out.old
        ++ mapped_types answer (mapped_view mapped.now)) }
{
    match answer {
        RepEquality::Eq => put(out, "compatible types"),
        RepEquality::Superset => put_two_types(out, mapped, "is superset-compatible with"),
        RepEquality::NotEq => put_two_types(out, mapped, "is incompatible with new"),
    }
}

/// The old type, what it is to the new one, and the new one.
fn put_two_types(
    out: &mut String,
    mapped: &ParamPolyfill,
    relation: &str,
) -> Result<(), OutOfMemory>
    ensures { OnOk result (string_bytes out.new ≡ string_bytes out.old
        ++ related_types relation.now (mapped_view mapped.now)) }
{
    let old_name = mapped.old.tref.type_name(*out.allocator())?;
    let new_name = mapped.new.tref.type_name(*out.allocator())?;
    let old = old_name.as_str();
    let new = new_name.as_str();
    write!(out, "`{old}` {relation} `{new}`")?;
    Ok(())
}

impl Written for FuncPolyfill {
    ghost written = { λ f. function_text (function_view f) };

    #[tactic(auto, using(crate::proofs::FunctionParts::function_rules))]
    fn put(&self, out: &mut String) -> Result<(), OutOfMemory> {
        let mut parts = String::new(*out.allocator());
        let compatible = put_parts(&mut parts, self)?;
        if is_full(self, compatible) {
            return put_full(out, self.new.name.as_str());
        }
        out.push_str("* ")?;
        put_renamed(out, &self.old.name, &self.new.name)?;
        put_behind_colon(out, parts.as_str())?;
        Ok(())
    }
}

/// Whether the names are equal, where the parts are compatible or not.
fn is_full(function: &FuncPolyfill, compatible: bool) -> bool
    ensures { result ≡ (same_bytes (func_tree function.now.new.value).name
        (func_tree function.now.old.value).name && compatible) }
{
    function.new.name == function.old.name && compatible
}

fn put_full(out: &mut String, name: &str) -> Result<(), OutOfMemory>
    ensures { OnOk result (string_bytes out.new ≡ string_bytes out.old ++ full_line name.now) }
{
    write!(out, "* `{name}`: full compatibility")?;
    Ok(())
}

/// Appends a colon and the text, unless the text is empty.
#[tactic(auto, using(crate::proofs::FunctionParts::colon_rules))]
fn put_behind_colon(out: &mut String, text: &str) -> Result<(), OutOfMemory>
    ensures { OnOk result (string_bytes out.new ≡ string_bytes out.old ++ behind_colon text.now) }
{
    if text.is_empty() {
        return Ok(());
    }
    write!(out, ":{text}")?;
    Ok(())
}

/// The lines of a function's parts, and whether all that is mapped is compatible and nothing is unknown.
#[tactic(auto, using(crate::proofs::FunctionParts::part_rules))]
fn put_parts(out: &mut String, function: &FuncPolyfill) -> Result<bool, OutOfMemory>
    ensures lines { OnOk result (string_bytes out.new
        ≡ string_bytes out.old ++ flat_map part_line (mapped_function_parts (function_view function.now))) }
    ensures compatible { IfOk result (λ compatible. compatible ≡ has_compatible_parts (function_view function.now)) }
{
    let params = put_all_mapped(out, "param", function.mapped_params.as_slice())?;
    put_all_unknown(out, "param", function.unknown_params.as_slice())?;
    let results = put_all_mapped(out, "result", function.mapped_results.as_slice())?;
    put_all_unknown(out, "result", function.unknown_results.as_slice())?;
    Ok(are_compatible(function, params, results))
}

/// Whether all that is mapped is compatible and nothing is unknown, where the mapped parameters are
/// compatible or not, and the mapped results.
fn are_compatible(function: &FuncPolyfill, params: bool, results: bool) -> bool
    ensures { result ≡ (params && (length function.now.unknown_params
        == 0) && results && (length function.now.unknown_results == 0)) }
{
    params && function.unknown_params.is_empty() && results && function.unknown_results.is_empty()
}

/// The lines of what is mapped, and whether all of it is compatible; each pair of types is compared
/// once.
#[tactic(auto, using(crate::proofs::FunctionParts::mapped_rules))]
fn put_all_mapped(out: &mut String, word: &str, all: &[ParamPolyfill]) -> Result<bool, OutOfMemory>
    ensures lines { OnOk result (string_bytes out.new ≡ string_bytes out.old
        ++ flat_map part_line (map (mapped_part word.now) (map mapped_view all.now))) }
    ensures compatible { IfOk result (λ compatible. compatible ≡ list_all is_compatible (map mapped_view all.now)) }
{
    let mut compatible = true;
    for mapped in all {
        let this = put_mapped_part(out, word, mapped)?;
        compatible = both(compatible, this);
    }
    Ok(compatible)
}

fn both(one: bool, other: bool) -> bool
    ensures { result ≡ (one && other) }
{
    one && other
}

/// The line of one that is mapped, and whether it is compatible.
fn put_mapped_part(
    out: &mut String,
    word: &str,
    mapped: &ParamPolyfill,
) -> Result<bool, OutOfMemory>
    ensures line { OnOk result (string_bytes out.new
        ≡ string_bytes out.old ++ part_line (mapped_part word.now (mapped_view mapped.now))) }
    ensures compatible { IfOk result (λ compatible. compatible ≡ is_compatible (mapped_view mapped.now)) }
{
    let answer = mapped.repeq();
    let compatible = both(mapped.new.name == mapped.old.name, is_alike(answer));
    put_compared(out, word, mapped, answer, compatible)?;
    Ok(compatible)
}

fn put_compared(
    out: &mut String,
    word: &str,
    mapped: &ParamPolyfill,
    answer: RepEquality,
    compatible: bool,
) -> Result<(), OutOfMemory>
    ensures { OnOk result (string_bytes out.new ≡ string_bytes out.old
        ++ part_line (compared_part word.now compatible answer (mapped_view mapped.now))) }
{
    if compatible {
        out.push_str("\n    - ")?;
        return put_compatible(out, word, mapped.new.name.as_str());
    }
    write!(out, "\n    - {word} ")?;
    put_mapped(out, mapped, answer)
}

fn put_compatible(out: &mut String, word: &str, name: &str) -> Result<(), OutOfMemory>
    ensures { OnOk result (string_bytes out.new ≡ string_bytes out.old ++ compatible_part word.now name.now) }
{
    write!(out, "{word} `{name}`: compatible")?;
    Ok(())
}

/// The lines of what is not mapped.
fn put_all_unknown(out: &mut String, word: &str, all: &[ParamUnknown]) -> Result<(), OutOfMemory>
    ensures { OnOk result (string_bytes out.new ≡ string_bytes out.old
        ++ flat_map part_line (map (unknown_part word.now) (map unknown_view all.now))) }
{
    for unknown in all {
        put_unknown(out, word, unknown)?;
    }
    Ok(())
}

fn put_unknown(out: &mut String, word: &str, unknown: &ParamUnknown) -> Result<(), OutOfMemory>
    ensures { OnOk result (string_bytes out.new
        ≡ string_bytes out.old ++ part_line (unknown_part word.now (unknown_view unknown.now))) }
{
    out.push_str("\n    - ")?;
    put_lacking(out, unknown.which(), word, unknown.param().name.as_str())
}

/// Whose part it is, what it is called, and that the other function has none of its name.
fn put_lacking(out: &mut String, owner: &str, word: &str, name: &str) -> Result<(), OutOfMemory>
    ensures { OnOk result (string_bytes out.new
        ≡ string_bytes out.old ++ (owner.now ++ codes " " ++ word.now ++ nothing_found name.now)) }
{
    put_two_words(out, owner, word)?;
    put_nothing_found(out, name)?;
    Ok(())
}

fn put_two_words(out: &mut String, one: &str, other: &str) -> Result<(), OutOfMemory>
    ensures { OnOk result (string_bytes out.new ≡ string_bytes out.old ++ (one.now ++ codes " " ++ other.now)) }
{
    write!(out, "{one} {other}")?;
    Ok(())
}

fn put_nothing_found(out: &mut String, name: &str) -> Result<(), OutOfMemory>
    ensures { OnOk result (string_bytes out.new ≡ string_bytes out.old ++ nothing_found name.now) }
{
    write!(out, " `{name}`: no corresponding result!")?;
    Ok(())
}
