//! The lines of a polyfill's conversions.

ghost use Rattle.std.specs.Prelude.{◌≡◌, ◌++◌, ◌&&◌, IfOk, OnOk, map, string_bytes};
ghost use Rattle.witx_ast.specs.Views.{tree_of};
ghost use Rattle.witx_compat.specs.{Answers.{is_same}, Views.{conversion_view}};
ghost use Rattle.witx_docs.specs.PolyfillTexts.{are_alike, between_others, conversion_line, conversion_mark, conversion_text, directed, lines, owned_type};
ghost use Rattle.witx_docs.specs.Pieces.{unless_alike};

use crate::written::{Written, start_line};
use witx_ast::TypeRef;
use witx_base::OutOfMemory;
use witx_compat::{RepEquality, TypePolyfill};

impl Written for TypePolyfill {
    ghost written = { λ c. conversion_text (conversion_view c) };

    fn put(&self, out: &mut String) -> Result<(), OutOfMemory> {
        put_conversion(out, self, self.repeq())
    }
}

/// A conversion, whose types have that answer.
fn put_conversion(
    out: &mut String,
    conversion: &TypePolyfill,
    answer: RepEquality,
) -> Result<(), OutOfMemory>
    ensures { OnOk result (string_bytes out.new
        ≡ string_bytes out.old ++ conversion_line answer (conversion_view conversion.now)) }
{
    match conversion {
        TypePolyfill::OldToNew(old, new) => put_directed(out, "old", old, "new", new, answer),
        TypePolyfill::NewToOld(new, old) => put_directed(out, "new", new, "old", old, answer),
    }
}

/// The type that gives values, then the one that receives them, and the mark of their answer.
fn put_directed(
    out: &mut String,
    giver: &str,
    from: &TypeRef,
    receiver: &str,
    to: &TypeRef,
    answer: RepEquality,
) -> Result<(), OutOfMemory>
    ensures { OnOk result (string_bytes out.new ≡ string_bytes out.old
        ++ directed giver.now (tree_of from.now) receiver.now (tree_of to.now) (conversion_mark answer)) }
{
    out.push_str("* ")?;
    put_owned_type(out, giver, from)?;
    out.push_str(" => ")?;
    put_owned_type(out, receiver, to)?;
    put_mark(out, answer)?;
    Ok(())
}

/// What is said of types that are alike, or of which one has more values.
fn put_mark(out: &mut String, answer: RepEquality) -> Result<(), OutOfMemory>
    ensures { OnOk result (string_bytes out.new ≡ string_bytes out.old ++ conversion_mark answer) }
{
    match answer {
        RepEquality::Eq => Ok(out.push_str(": compatible")?),
        RepEquality::Superset => Ok(out.push_str(": superset")?),
        RepEquality::NotEq => Ok(()),
    }
}

/// A type, behind the word of the interface that has it.
fn put_owned_type(out: &mut String, owner: &str, tref: &TypeRef) -> Result<(), OutOfMemory>
    ensures { OnOk result (string_bytes out.new ≡ string_bytes out.old ++ owned_type owner.now (tree_of tref.now)) }
{
    let name = tref.type_name(*out.allocator())?;
    let name = name.as_str();
    write!(out, "{owner} `{name}`")?;
    Ok(())
}

/// The lines of the conversions whose types are not alike; each conversion is compared once.
#[tactic(auto, using(crate::proofs::Conversions::conversion_rules))]
pub fn put_conversions(out: &mut String, conversions: &[TypePolyfill]) -> Result<(), OutOfMemory>
    ensures { OnOk result (string_bytes out.new ≡ string_bytes out.old
        ++ lines conversion_text (between_others (map conversion_view conversions.now))) }
{
    let mut first = true;
    for conversion in conversions {
        first = put_unless_alike(out, first, conversion)?;
    }
    Ok(())
}

/// The line of a conversion, unless its types are alike; whether the next line is still the first.
fn put_unless_alike(
    out: &mut String,
    first: bool,
    conversion: &TypePolyfill,
) -> Result<bool, OutOfMemory>
    ensures line { OnOk result (string_bytes out.new
        ≡ string_bytes out.old ++ unless_alike first (conversion_view conversion.now)) }
    ensures still { IfOk result (λ still. still ≡ (are_alike (conversion_view conversion.now) && first)) }
{
    let answer = conversion.repeq();
    if is_alike(answer) {
        return Ok(first);
    }
    start_line(out, first)?;
    put_conversion(out, conversion, answer)?;
    Ok(false)
}

/// Whether the types are alike.
pub fn is_alike(answer: RepEquality) -> bool
    ensures { result ≡ is_same answer }
{
    match answer {
        RepEquality::Eq => true,
        RepEquality::Superset | RepEquality::NotEq => false,
    }
}
