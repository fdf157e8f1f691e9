//! The old function's words in the order in which the new function gets them.

ghost use Rattle.std.specs.Prelude.{◌≡◌, ◌++◌, ◌-◌, List, IfOk, OnOk, map};
ghost use Rattle.witx_ast.specs.{Functions.{param_field}, Tree.{Field}};
ghost use Rattle.witx_machine.specs.Run.{numbers};
ghost use Rattle.witx_shim.specs.Numbers.{AreSpans, all_handed, or_none, span_called};

use crate::passed::Places;
use crate::spans::{Span, Spans};
use std::alloc::Global;
use witx_ast::InterfaceFuncParam;
use witx_base::{Items, OutOfMemory};

/// For each new parameter the words of the old one of its name, whose spans these are; then the old return
/// pointers, which are the words behind those of the old parameters, `total` words in all.
pub fn words_passed(
    alloc: Global,
    spans: &Spans,
    params: &[InterfaceFuncParam],
    total: usize,
) -> Result<Places, OutOfMemory>
    ensures { (old : List Field) → AreSpans spans.now.by_name old
        → IfOk result (λ pass. pass ≡ all_handed old (map param_field params.now) ++ numbers spans.now.count (total - spans.now.count)) }
{
    let mut pass = Items::new(alloc);
    put_params(&mut pass, spans, params)?;
    put_numbers(&mut pass, spans.count, total)?;
    Ok(pass)
}

/// Appends the words of each parameter.
fn put_params(
    pass: &mut Places,
    spans: &Spans,
    params: &[InterfaceFuncParam],
) -> Result<(), OutOfMemory>
    ensures { (old : List Field) → AreSpans spans.now.by_name old
        → OnOk result (pass.new ≡ pass.old ++ all_handed old (map param_field params.now)) }
{
    for param in params {
        put_param(pass, spans, param)?;
    }
    Ok(())
}

/// Appends the words of the old parameter of that name.
fn put_param(
    pass: &mut Places,
    spans: &Spans,
    param: &InterfaceFuncParam,
) -> Result<(), OutOfMemory>
    ensures { OnOk result (pass.new ≡ pass.old ++ or_none (span_called spans.now.by_name param.now.name)) }
{
    match spans.by_name.get(&param.name) {
        Some(span) => put_numbers(pass, span.first, span.end),
        None => Ok(()),
    }
}

/// Appends the numbers from the first to before the end.
#[tactic(auto, using(crate::proofs::SpanSteps::number_rules))]
fn put_numbers(pass: &mut Places, first: usize, end: usize) -> Result<(), OutOfMemory>
    ensures { OnOk result (pass.new ≡ pass.old ++ numbers first (end - first)) }
{
    for i in first..end {
        pass.push(i)?;
    }
    Ok(())
}
