//! The text of a node.
#![tactic(auto, using(crate::proofs::Joined::joined_rules))]

ghost use Rattle.std.specs.Prelude.{◌≡◌, ◌++◌, map, OnOk, string_bytes};
ghost use Rattle.witx_ast.specs.TypeNames.{comma_joined, separator};
ghost use Rattle.witx_markdown.specs.Contents.{anchor, anchor_if, docs_text, type_if, section_text, named_line, func_line, signature_text, input_text, outputs_text, tuple_outputs, content_text as text_of_content};

use crate::content::{MdContent, MdFunc, MdNamedType, MdSection};
use crate::heading::{put, put_heading};
use witx_base::{OutOfMemory, Text};

/// Appends the text of a content.
pub fn put_content(out: &mut String, content: &MdContent) -> Result<(), OutOfMemory>
    ensures { OnOk result (string_bytes out.new ≡ string_bytes out.old ++ text_of_content content.now) }
{
    match content {
        MdContent::Root => Ok(()),
        MdContent::Section(section) => put_section(out, section),
        MdContent::Named(named) => {
            put_named_line(out, named)?;
            put_docs(out, named.docs.as_str())
        }
        MdContent::Func(func) => {
            put_func_line(out, func)?;
            put_docs(out, func.docs.as_str())
        }
    }
}

fn put_section(out: &mut String, section: &MdSection) -> Result<(), OutOfMemory>
    ensures { OnOk result (string_bytes out.new ≡ string_bytes out.old ++ section_text section.now) }
{
    put_heading(out, section.heading)?;
    put(out, " ")?;
    put_anchor_if(out, &section.id)?;
    put(out, section.title.as_str())?;
    put(out, "\n")
}

/// The line of a named content, without its end.
pub fn put_named_line(out: &mut String, named: &MdNamedType) -> Result<(), OutOfMemory>
    ensures { OnOk result (string_bytes out.new ≡ string_bytes out.old ++ named_line named.now) }
{
    let name = named.name.as_str();
    put_heading(out, named.heading)?;
    put(out, " ")?;
    put_anchor(out, named.id.as_str())?;
    write!(out, " `{name}`")?;
    put_type_if(out, &named.ty)
}

/// A ruler and the line of a function, without its end.
pub fn put_func_line(out: &mut String, func: &MdFunc) -> Result<(), OutOfMemory>
    ensures { OnOk result (string_bytes out.new ≡ string_bytes out.old ++ func_line func.now) }
{
    put(out, "\n---\n\n")?;
    put_heading(out, func.heading)?;
    put(out, " ")?;
    put_anchor(out, func.id.as_str())?;
    put(out, " `")?;
    put_signature(out, func)?;
    put(out, "`")
}

fn put_anchor(out: &mut String, id: &str) -> Result<(), OutOfMemory>
    ensures { OnOk result (string_bytes out.new ≡ string_bytes out.old ++ anchor id.now) }
{
    write!(out, "<a href=\"#{id}\" name=\"{id}\"></a>")?;
    Ok(())
}

fn put_anchor_if(out: &mut String, id: &Option<Text>) -> Result<(), OutOfMemory>
    ensures { OnOk result (string_bytes out.new ≡ string_bytes out.old ++ anchor_if id.now) }
{
    match id {
        Some(id) => {
            put_anchor(out, id.as_str())?;
            put(out, " ")
        }
        None => Ok(()),
    }
}

fn put_type_if(out: &mut String, ty: &Option<Text>) -> Result<(), OutOfMemory>
    ensures { OnOk result (string_bytes out.new ≡ string_bytes out.old ++ type_if ty.now) }
{
    match ty {
        Some(ty) => {
            put(out, ": ")?;
            put(out, ty.as_str())
        }
        None => Ok(()),
    }
}

fn put_docs(out: &mut String, docs: &str) -> Result<(), OutOfMemory>
    ensures { OnOk result (string_bytes out.new ≡ string_bytes out.old ++ docs_text docs.now) }
{
    write!(out, "\n{docs}\n")?;
    Ok(())
}

/// What stands between a function's backquotes.
fn put_signature(out: &mut String, func: &MdFunc) -> Result<(), OutOfMemory>
    ensures { OnOk result (string_bytes out.new ≡ string_bytes out.old ++ signature_text func.now) }
{
    put(out, func.name.as_str())?;
    put(out, "(")?;
    put_inputs(out, func.inputs.as_slice())?;
    put(out, ")")?;
    put_outputs(out, func.outputs.as_slice())
}

fn put_inputs(out: &mut String, inputs: &[(Text, Text)]) -> Result<(), OutOfMemory>
    ensures { OnOk result (string_bytes out.new ≡ string_bytes out.old ++ comma_joined (map input_text inputs.now)) }
{
    let mut first = true;
    for input in inputs {
        put_input(out, first, input)?;
        first = false;
    }
    Ok(())
}

fn put_input(out: &mut String, first: bool, input: &(Text, Text)) -> Result<(), OutOfMemory>
    ensures { OnOk result (string_bytes out.new ≡ string_bytes out.old ++ (separator first ++ input_text input.now)) }
{
    put_separator(out, first)?;
    put(out, input.0.as_str())?;
    put(out, ": ")?;
    put(out, input.1.as_str())
}

/// Nothing before the first.
fn put_separator(out: &mut String, first: bool) -> Result<(), OutOfMemory>
    ensures { OnOk result (string_bytes out.new ≡ string_bytes out.old ++ separator first) }
{
    if first {
        return Ok(());
    }
    put(out, ", ")
}

fn put_outputs(out: &mut String, outputs: &[Text]) -> Result<(), OutOfMemory>
    ensures { OnOk result (string_bytes out.new ≡ string_bytes out.old ++ outputs_text outputs.now) }
{
    match outputs {
        [] => Ok(()),
        [output] => {
            put(out, " -> ")?;
            put(out, output.as_str())
        }
        _ => put_tuple(out, outputs),
    }
}

/// All in parentheses.
fn put_tuple(out: &mut String, outputs: &[Text]) -> Result<(), OutOfMemory>
    ensures { OnOk result (string_bytes out.new ≡ string_bytes out.old ++ tuple_outputs outputs.now) }
{
    put(out, " -> (")?;
    put_joined(out, outputs)?;
    put(out, ")")
}

fn put_joined(out: &mut String, texts: &[Text]) -> Result<(), OutOfMemory>
    ensures { OnOk result (string_bytes out.new ≡ string_bytes out.old ++ comma_joined texts.now) }
{
    let mut first = true;
    for text in texts {
        put_next(out, first, text.as_str())?;
        first = false;
    }
    Ok(())
}

fn put_next(out: &mut String, first: bool, text: &str) -> Result<(), OutOfMemory>
    ensures { OnOk result (string_bytes out.new ≡ string_bytes out.old ++ (separator first ++ text.now)) }
{
    put_separator(out, first)?;
    put(out, text)
}
