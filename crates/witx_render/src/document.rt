//! The text of a document.
#![tactic(auto, using(crate::proofs::LinesPut::put_rules))]

ghost use Rattle.std.specs.Prelude.{◌≡◌, ◌++◌, IfOk, OnOk, codes, map, string_bytes};
ghost use Rattle.witx_ast.specs.Definitions.{definition_tree};
ghost use Rattle.witx_render.specs.Expressions.{text_of};
ghost use Rattle.witx_render.specs.DocumentTexts.{document_text, is_typename, is_module};
ghost use Rattle.witx_render.specs.Lists.{lines_where};

use crate::to_sexpr::ToSExpr;
use std::alloc::Global;
use std::fmt::Write;
use witx_ast::{Definition, Document};
use witx_base::{OutOfMemory, Text};

/// The text of the document: each typename and then each module on a line of its own, as `ToSExpr`
/// has it. Constants are not printed.
#[tactic(auto, using(crate::proofs::LinesPut::put_rules), unfolding(crate::specs::DocumentTexts::document_text))]
pub fn document_text(alloc: Global, document: &Document) -> Result<Text, OutOfMemory>
    ensures { IfOk result (λ t. t ≡ document_text (map definition_tree document.now.definitions)) }
{
    let mut text = String::new(alloc);
    put_typenames(alloc, &mut text, document.definitions().as_slice())?;
    put_modules(alloc, &mut text, document.definitions().as_slice())?;
    Ok(Text::from_string(text))
}

/// The value's expression and a line feed.
fn put_line<T: ToSExpr>(alloc: Global, text: &mut String, value: &T) -> Result<(), OutOfMemory>
    ensures { OnOk result (string_bytes text.new
        ≡ string_bytes text.old ++ (text_of (T.expression value.now) ++ codes "\n")) }
{
    let shown = value.to_sexpr(alloc)?;
    write!(text, "{shown}\n")?;
    Ok(())
}

fn put_typenames(
    alloc: Global,
    text: &mut String,
    definitions: &[Definition],
) -> Result<(), OutOfMemory>
    ensures { OnOk result (string_bytes text.new
        ≡ string_bytes text.old ++ lines_where is_typename (map definition_tree definitions.now)) }
{
    for definition in definitions {
        match definition {
            Definition::Typename(named) => {
                put_line(alloc, text, &**named)?;
                continue;
            }
            Definition::Module(_) => continue,
            Definition::Constant(_) => continue,
        }
    }
    Ok(())
}

fn put_modules(
    alloc: Global,
    text: &mut String,
    definitions: &[Definition],
) -> Result<(), OutOfMemory>
    ensures { OnOk result (string_bytes text.new
        ≡ string_bytes text.old ++ lines_where is_module (map definition_tree definitions.now)) }
{
    for definition in definitions {
        match definition {
            Definition::Module(module) => {
                put_line(alloc, text, &**module)?;
                continue;
            }
            Definition::Typename(_) => continue,
            Definition::Constant(_) => continue,
        }
    }
    Ok(())
}
