//! What holds of every text, as functions that do nothing: each contract is a theorem.

ghost use Rattle.witx_scope.specs.Faults.{Fault};
ghost use Rattle.witx_order.specs.Laws.{FrontVerdict, OneFinalFront};
ghost use Rattle.witx_walk.specs.{Answers.{OneAnswer}, Readings.{OneReading}};

use witx_syntax::{
    a_document_or_a_fault, at_most_one_document, at_most_one_parse_fault, no_fault_where_read,
};

/// There is exactly one reading of texts, text by text.
pub fn one_reading()
    ensures { OneReading }
{
    at_most_one_document();
    no_fault_where_read();
    a_document_or_a_fault();
    at_most_one_parse_fault();
}

/// Over told files and aliases two answers that tell something tell the same: the definitions of
/// the document, or the refusal with its place.
pub fn one_answer()
    ensures { OneAnswer }
{
    one_reading();
}

/// Over any files there is exactly one final front of a walk, where a declaration's fault is that of
/// the checker, and the verdict is that of this front.
pub fn one_final_front()
    ensures front { OneFinalFront Fault }
    ensures verdict { FrontVerdict Fault }
{}
