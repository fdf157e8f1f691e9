//! The words of each parameter of a function, by the parameter's name.
#![tactic(auto, using(crate::proofs::SpanSteps::width_rules))]

ghost use Rattle.std.specs.Prelude.{◌≡◌, ◌+◌, ℕ, List, IfOk, OnOk, None, Some, cond, is_some, length, map, option_map};
ghost use Rattle.witx_ast.specs.{Functions.{param_field}, Plain.{plain}, Views.{tree_of, datatype_tree}};
ghost use Rattle.witx_base.specs.SameBytes.{same_bytes};
ghost use Rattle.witx_machine.specs.{Run.{numbers}, Signature.{param_words}};
ghost use Rattle.witx_shim.specs.Numbers.{AreSpans, span_called, widths};
ghost use Rattle.witx_shim.specs.Refusals.{AnswersRefusal, repeated, repeated_param};

use crate::error::ShimError;
use std::alloc::Global;
use witx_ast::{Datatype, InterfaceFuncParam, TypeRef};
use witx_base::{Duplicate, Id, NameMap};

/// The numbers of one parameter's words, from the first to before the end.
#[derive(Clone, Copy, Debug, Drop)]
pub struct Span {
    pub first: usize,
    pub end: usize,
}

/// The words of a function's parameters.
#[derive(Drop)]
pub struct Spans {
    pub by_name: NameMap<Span>,
    /// How many words all parameters have.
    pub count: usize,
}

/// The words of each parameter; refused for the first whose name an earlier one has.
#[tactic(auto, using(crate::proofs::SpanSteps::span_rules, crate::proofs::Names::name_rules))]
pub fn spans_of(alloc: Global, params: &[InterfaceFuncParam]) -> Result<Spans, ShimError>
    ensures names { AnswersRefusal (option_map repeated (repeated_param (map param_field params.now))) result }
    ensures spans { IfOk result (λ spans. AreSpans spans.by_name (map param_field params.now)) }
    ensures count { IfOk result (λ spans. spans.count ≡ widths (map param_field params.now)) }
{
    let mut spans = Spans {
        by_name: NameMap::new(alloc),
        count: 0,
    };
    for param in params {
        spans.add(param)?;
    }
    Ok(spans)
}

impl Spans {
    /// Whether an earlier parameter has that name.
    fn has(&self, name: &Id) -> bool
        ensures { result ≡ is_some (span_called self.now.by_name name.now) }
    {
        self.by_name.get(name).is_some()
    }

    /// The span of one more parameter, behind those of the others.
    #[tactic(auto, using(crate::proofs::SpanSteps::put_rules, crate::proofs::Names::refusal_rules))]
    fn add(&mut self, param: &InterfaceFuncParam) -> Result<(), ShimError>
        ensures names { AnswersRefusal (cond (is_some (span_called self.old.by_name param.now.name))
            (Some (repeated param.now.name)) None) result }
        ensures spans { (name : List ℕ) → OnOk result (span_called self.new.by_name name
            ≡ cond (same_bytes param.now.name name) (Some (numbers self.old.count (length (param_words (plain (tree_of param.now.tref))))))
            (span_called self.old.by_name name)) }
        ensures count { OnOk result (self.new.count ≡ self.old.count + length (param_words (plain (tree_of param.now.tref)))) }
    {
        if self.has(&param.name) {
            return Err(ShimError::Repeated(param.name.copy()?));
        }
        let Some(end) = self.count.checked_add(word_count(&param.tref)) else {
            return Err(ShimError::OutOfMemory);
        };
        let span = Span {
            first: self.count,
            end,
        };
        self.by_name.insert(param.name.copy()?, span)?;
        self.count = end;
        Ok(())
    }
}

/// How many words a parameter of the type has: a list an address and a length, any other type one word.
fn word_count(tref: &TypeRef) -> usize
    ensures { result ≡ length (param_words (plain (tree_of tref.now))) }
{
    words_of(tref.type_())
}

fn words_of(datatype: &Datatype) -> usize
    ensures { result ≡ length (param_words (plain (datatype_tree datatype.now))) }
{
    match datatype {
        Datatype::List(_) => 2,
        Datatype::Record(_)
        | Datatype::Variant(_)
        | Datatype::Handle(_)
        | Datatype::Pointer(_)
        | Datatype::ConstPointer(_)
        | Datatype::Builtin(_) => 1,
    }
}
