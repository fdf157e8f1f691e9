//! The shims of the functions of mapped modules.

ghost use Rattle.std.specs.Prelude.{◌≡◌, ◌++◌, All, IfErr, IfOk, IfSome, OnOk, Option, Some, codes, map, string_bytes};
ghost use Rattle.std.specs.List.{flat_map};
ghost use Rattle.witx_compat.specs.Views.{function_view, module_view};
ghost use Rattle.witx_ast.specs.Functions.{func_tree};
ghost use Rattle.witx_shim.specs.Refusals.{ShimRefusal, IsShimRefusal, refusal_of};
ghost use Rattle.witx_commands.specs.{Stops.{StopsWith}, Words.{two_files}};
ghost use Rattle.witx_commands.specs.Words as asked;
ghost use Rattle.witx_tools.specs.ShimTexts.{function_lines, listed_line, module_lines, pass_line, passing_line, refusal_line, shims_text, spaced_number};
ghost use Rattle.witx_tools.specs.{ToolCauses.{ToolRefuses}, MappedBy.{AreMapped, IsMapped}};
ghost use Rattle.witx_tools.specs.ToolRuns.{ToolTells};

use crate::own::adapted_words;
use std::alloc::{AllocError, Global};
use std::fmt::Write;
use std::slice::from_ref;
use witx_abi::{functions_are_read_as_their_trees, words_back, words_in};
use witx_adapt::put_func_line;
use witx_ast::InterfaceFunc;
use witx_base::{OutOfMemory, Text};
use witx_commands::{Output, Stop, TwoFiles, mapped_modules, text_alone};
use witx_compat::{FuncPolyfill, ModulePolyfill, Polyfill};
use witx_files::MockFs;
use witx_shim::{ShimError, shim};

/// The shims of the modules of the old file by those of the new one, by the names behind them.
#[tactic(auto, using(crate::proofs::Telling::shim_rules))]
pub fn shims_of_files(alloc: Global, two: &TwoFiles<'_>, files: &mut MockFs) -> Result<Output, Stop>
    ensures output { IfOk result (λ o. ToolTells (asked.shim (two_files two.now)) files.old o.text o.notes o.adapted) }
    ensures stopped { IfErr result (StopsWith (ToolRefuses (asked.shim (two_files two.now)) files.old)) }
{
    let new = adapted_words(alloc, from_ref(two.new), files)?;
    let old = adapted_words(alloc, from_ref(two.old), files)?;
    let polyfill = mapped_modules(alloc, &new.document, &old.document, two.names)?;
    let text = shims_text(alloc, &polyfill)?;
    Ok(text_alone(alloc, text))
}

/// The shims of mapped modules.
#[tactic(auto, unfolding(crate::specs::ShimTexts::shims_text))]
fn shims_text(alloc: Global, polyfill: &Polyfill) -> Result<Text, OutOfMemory>
    requires { All AreMapped polyfill.now.modules }
    ensures { IfOk result (λ text. text ≡ shims_text (map module_view polyfill.now.modules)) }
{
    let mut text = String::new(alloc);
    put_modules(alloc, &mut text, polyfill.modules.as_slice())?;
    Ok(Text::from_string(text))
}

#[tactic(auto, using(crate::proofs::Shims::viewed_rules))]
fn put_modules(
    alloc: Global,
    text: &mut String,
    modules: &[ModulePolyfill],
) -> Result<(), OutOfMemory>
    requires { All AreMapped modules.now }
    ensures { OnOk result (string_bytes text.new ≡ string_bytes text.old
        ++ flat_map module_lines (map module_view modules.now)) }
{
    for module in modules {
        put_module(alloc, text, module)?;
    }
    Ok(())
}

/// The line of two mapped modules, and those of their functions.
fn put_module(alloc: Global, text: &mut String, mapped: &ModulePolyfill) -> Result<(), OutOfMemory>
    requires { AreMapped mapped.now }
    ensures { OnOk result (string_bytes text.new ≡ string_bytes text.old ++ module_lines (module_view mapped.now)) }
{
    put_module_line(text, mapped.old.name.as_str(), mapped.new.name.as_str())?;
    put_functions(alloc, text, mapped.funcs.as_slice())
}

fn put_module_line(text: &mut String, old: &str, new: &str) -> Result<(), AllocError>
    ensures { OnOk result (string_bytes text.new ≡ string_bytes text.old
        ++ (codes "module " ++ old.now ++ codes " by " ++ new.now ++ codes "\n")) }
{
    write!(text, "module {old} by {new}\n")
}

#[tactic(auto, using(crate::proofs::Shims::viewed_rules))]
fn put_functions(
    alloc: Global,
    text: &mut String,
    functions: &[FuncPolyfill],
) -> Result<(), OutOfMemory>
    requires { All IsMapped functions.now }
    ensures { OnOk result (string_bytes text.new ≡ string_bytes text.old
        ++ flat_map function_lines (map function_view functions.now)) }
{
    for function in functions {
        put_function(alloc, text, function)?;
    }
    Ok(())
}

fn put_function(alloc: Global, text: &mut String, poly: &FuncPolyfill) -> Result<(), OutOfMemory>
    requires { IsMapped poly.now }
    ensures { OnOk result (string_bytes text.new ≡ string_bytes text.old ++ function_lines (function_view poly.now)) }
{
    put_listed(alloc, text, &poly.old)?;
    put_passing(alloc, text, poly)
}

/// The line of a function in the listing.
fn put_listed(alloc: Global, text: &mut String, func: &InterfaceFunc) -> Result<(), OutOfMemory>
    ensures { OnOk result (string_bytes text.new ≡ string_bytes text.old ++ listed_line (func_tree func.now)) }
{
    functions_are_read_as_their_trees();
    let params = words_in(alloc, func)?;
    let results = words_back(alloc, func)?;
    Ok(put_func_line(text, func, params.as_slice(), results.as_slice())?)
}

/// Which of the old function's words go to the new one, or why there is no shim.
fn put_passing(alloc: Global, text: &mut String, poly: &FuncPolyfill) -> Result<(), OutOfMemory>
    requires { IsMapped poly.now }
    ensures { OnOk result (string_bytes text.new ≡ string_bytes text.old
        ++ passing_line (function_view poly.now) (refusal_of (function_view poly.now))) }
{
    match shim(alloc, poly) {
        Ok(shim) => put_pass(text, shim.pass.as_slice()),
        Err(refusal) => put_refusal(text, refusal),
    }
}

fn put_pass(text: &mut String, words: &[usize]) -> Result<(), OutOfMemory>
    ensures { OnOk result (string_bytes text.new ≡ string_bytes text.old ++ pass_line words.now) }
{
    text.push_str("  pass")?;
    put_numbers(text, words)?;
    Ok(text.push_str("\n")?)
}

#[tactic(auto, using(witx_adapt::proofs::Appending::appending_rules))]
fn put_numbers(text: &mut String, numbers: &[usize]) -> Result<(), AllocError>
    ensures { OnOk result (string_bytes text.new ≡ string_bytes text.old ++ flat_map spaced_number numbers.now) }
{
    for number in numbers {
        put_number(text, *number)?;
    }
    Ok(())
}

fn put_number(text: &mut String, number: usize) -> Result<(), AllocError>
    ensures { OnOk result (string_bytes text.new ≡ string_bytes text.old ++ spaced_number number) }
{
    write!(text, " {number}")
}

/// The line that says why there is no shim; there is none for want of memory.
fn refusal_text(refusal: &ShimError) -> Option<&'static str>
    ensures { (why : Option ShimRefusal) → IsShimRefusal why refusal.now → IfSome result (λ line.
        (r : ShimRefusal) × (why ≡ Some r) × (line.now ≡ refusal_line r)) }
{
    match refusal {
        ShimError::OtherAbi => Some("  other abi\n"),
        ShimError::OutOfMemory => None,
        _ => Some("  not compatible\n"),
    }
}

/// Why there is no shim; there is no text of want of memory.
fn put_refusal(text: &mut String, refusal: ShimError) -> Result<(), OutOfMemory>
    ensures { (why : Option ShimRefusal) → IsShimRefusal why refusal → OnOk result ((r : ShimRefusal) × (why ≡ Some r)
        × (string_bytes text.new ≡ string_bytes text.old ++ refusal_line r)) }
{
    let line = refusal_text(&refusal);
    drop(refusal);
    match line {
        Some(line) => Ok(text.push_str(line)?),
        None => Err(OutOfMemory),
    }
}
