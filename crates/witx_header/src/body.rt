//! The generator of bodies: it numbers what instructions leave, and keeps each call.

ghost use Rattle.std.specs.Prelude.{◌≡◌, ◌≤◌, ◌-◌, [], IfOk, None, OnOk, Some, is_some, map, slice_get};
ghost use Rattle.witx_machine.specs.Events.{finish};
ghost use Rattle.witx_instructions.specs.{Told.{Counts, is_fault, told_after}, Handed.{ended}};
ghost use Rattle.witx_header.specs.{Bodies.{numbered_variables}, Kept.{AreNumbered, call_of}};

use crate::handed::{Handed, Variable, Variables};
use crate::telling::{told_block, told_end, told_instruction, told_space};
use std::alloc::Global;
use std::marker::Model;
use std::rc::Rc;
use witx_ast::NamedType;
use witx_base::{Items, OutOfMemory};
use witx_instructions::{Bindgen, BindgenError, Instruction};

/// The calls so far, which contracts see. It never fails.
#[derive(Drop)]
pub struct Body {
    calls: Items<Handed>,
    /// The number of the next variable.
    next: usize,
}

impl Model for Body {
    ghost use Rattle.std.specs.{Coded.{codes}, Prelude.{◌≡◌, List, map}};
    ghost use Rattle.witx_header.specs.contracts.handed.Handed as h;
    ghost use Rattle.witx_header.specs.declared.handed.Handed.{Handed};
    ghost use Rattle.witx_header.specs.Kept.{AreNumbered, call_of, left_by_all};

    ghost Value = { List Handed };

    ghost coded = { Prim.hlevel (codes, h.the_row.coded) };

    ghost view = { λ b. b.calls };

    ghost invariant = { λ b. AreNumbered 0 (map call_of b.calls) × (b.next ≡ left_by_all (map call_of b.calls)) };
}

impl Body {
    /// A body without calls; takes no memory.
    pub fn new(alloc: Global) -> Body
        ensures { result ≡ [] }
    {
        Body {
            calls: Items::new(alloc),
            next: 0,
        }
    }

    /// The calls, in order.
    pub fn into_calls(self) -> Items<Handed>
        ensures calls { result ≡ self }
        ensures numbered { AreNumbered 0 (map call_of self) }
    {
        self.calls
    }
}

impl Bindgen for Body {
    type Operand = Variable;

    ghost told = { λ _. None };

    ghost calls = { λ body. Some (map call_of body) };

    ghost faults = { λ _. 0 };

    fn emit(
        &mut self,
        inst: &Instruction<'_>,
        operands: &mut Vec<Variable>,
        results: &mut Vec<Variable>,
    ) -> Result<(), BindgenError> {
        let alloc = self.calls.allocator();
        // More variables than numbers have no room.
        let Some(next) = self.next.checked_add(inst.results_len()) else {
            return Err(BindgenError::OutOfMemory);
        };
        push_numbered(results, self.next, next)?;
        let call = Handed {
            told: told_instruction(alloc, inst)?,
            operands: copied(alloc, operands.as_slice())?,
            results: copied(alloc, results.as_slice())?,
        };
        self.calls.push(call)?;
        self.next = next;
        Ok(())
    }

    fn allocate_space(&mut self, slot: usize, ty: &Rc<NamedType>) -> Result<(), BindgenError> {
        let alloc = self.calls.allocator();
        let call = Handed {
            told: told_space(alloc, slot, ty)?,
            operands: Items::new(alloc),
            results: Items::new(alloc),
        };
        self.calls.push(call)?;
        Ok(())
    }

    fn push_block(&mut self) -> Result<(), BindgenError> {
        let alloc = self.calls.allocator();
        let call = Handed {
            told: told_block(alloc)?,
            operands: Items::new(alloc),
            results: Items::new(alloc),
        };
        self.calls.push(call)?;
        Ok(())
    }

    fn finish_block(&mut self, operand: Option<Variable>) -> Result<(), BindgenError>
        ensures event { None ≡ told_after result (finish (is_some operand)) None }
        ensures call { Some (map call_of self.new) ≡ told_after result (ended operand) (Some (map call_of self.old)) }
        ensures cause { Counts (is_fault result) 0 0 }
    {
        let alloc = self.calls.allocator();
        let call = Handed {
            told: told_end(alloc, operand.is_some())?,
            operands: at_most_one(alloc, operand)?,
            results: Items::new(alloc),
        };
        self.calls.push(call)?;
        Ok(())
    }
}

/// Pushes the variables from this number up to that one.
#[tactic(auto, using(crate::proofs::Calls::number_rules))]
fn push_numbered(results: &mut Vec<Variable>, first: usize, next: usize) -> Result<(), OutOfMemory>
    requires ordered { first ≤ next }
    requires empty { results.old.items ≡ [] }
    ensures { OnOk result (results.new.items ≡ numbered_variables first (next - first)) }
{
    for number in first..next {
        results.push(Variable { number })?;
    }
    Ok(())
}

fn copied(alloc: Global, variables: &[Variable]) -> Result<Variables, OutOfMemory>
    ensures { IfOk result (λ copies. copies ≡ variables.now) }
{
    Ok(Items::from_vec(variables.to_vec(alloc)?))
}

fn at_most_one(alloc: Global, operand: Option<Variable>) -> Result<Variables, OutOfMemory>
    ensures { IfOk result (λ variables. slice_get variables 0 ≡ operand) }
{
    match operand {
        Some(variable) => copied(alloc, &[variable]),
        None => Ok(Items::new(alloc)),
    }
}
