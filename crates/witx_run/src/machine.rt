//! The machine's state while a trace is run, and the rows that take it from one event to the next.
#![tactic(auto, using(crate::proofs::MachineLemmas::machine_rules))]

ghost use Rattle.std.specs.Prelude.{◌≡◌, List, true, None, IfOk, option_map};
ghost use Rattle.witx_ast.specs.Views.{named_tree};
ghost use Rattle.witx_machine.specs.{Rows.{returns}, Machine.{payload_in}};
ghost use Rattle.witx_machine.specs.Machine as machine_specs;
ghost use Rattle.witx_run.specs.{Views.{item_of}, RowViews.{row_view, runs_nothing}};
ghost use Rattle.witx_run.specs.MachineViews.{inside_of, Performs, GivesSlot, IsNew};
ghost use Rattle.witx_run.specs.declared.machine.Inside.TheVariants.{Outside};
ghost use Rattle.witx_run.specs.declared.item.Item as declared_item;

use crate::domain::Domain;
use crate::item::Item;
use crate::row::Row;
use crate::slots::Slots;
use crate::stack::{
    addr_of, get_arg, items_off, lifting, list_from_pointer_length, list_pointer_length, load,
    lowering, return_pointer_get, reuse_return, store, tuple_lift, tuple_lower, variant_payload,
};
use std::alloc::Global;
use std::rc::Rc;
use witx_ast::NamedType;
use witx_base::OutOfMemory;

/// Events set aside between a push and its finish, by their numbers.
#[derive(Clone, Copy, Drop)]
pub struct Block {
    /// The first event.
    pub first: usize,
    /// The finish.
    pub end: usize,
    /// Whether the finish has a value.
    pub has_value: bool,
}

/// Where an event stands: in no block, in one that result_lower runs on a payload or none, or in one that
/// result_lift runs.
#[derive(Drop)]
pub enum Inside<V, W> {
    /// In no block.
    Outside,
    /// In a block that result_lower runs.
    Lower(Option<Item<V, W>>),
    /// In a block that result_lift runs.
    Lift,
}

/// The state of a trace that is run. The stack's top, and the block set aside last, come last.
#[derive(Drop)]
pub struct Machine<V, W, M> {
    /// What the steps push and pop.
    pub stack: Vec<Item<V, W>>,
    /// The slots that have an address.
    pub slots: Slots<W>,
    /// What stands at the addresses.
    pub memory: M,
    /// The blocks set aside.
    pub blocks: Vec<Block>,
    /// The one word that the call gave.
    pub returned: Option<W>,
    /// What the return took off.
    pub answer: Option<Vec<Item<V, W>>>,
}

impl<V: Drop, W: Drop, M: Drop> Machine<V, W, M> {
    /// Nothing was run yet; takes no memory.
    pub fn new(alloc: Global, memory: M) -> Machine<V, W, M>
        ensures { IsNew result memory }
    {
        Machine {
            stack: Vec::new(alloc),
            slots: Slots::new(alloc),
            memory,
            blocks: Vec::new(alloc),
            returned: None,
            answer: None,
        }
    }
}

/// The state over a domain.
pub(crate) type MachineOf<D> = Machine<
    <D as Domain>::Value,
    <D as Domain>::Word,
    <D as Domain>::Memory,
>;

/// Runs a step that runs no block and makes no call, so none of `ResultLower`, `ResultLift`, `CallWasm`
/// and `CallInterface`, and answers whether it has a rule.
pub fn perform<D: Domain>(
    alloc: Global,
    domain: &D,
    machine: &mut MachineOf<D>,
    row: Row<'_>,
    arguments: &[Item<D::Value, D::Word>],
    has_called: bool,
    inside: &Inside<D::Value, D::Word>,
) -> Result<bool, OutOfMemory>
    requires { runs_nothing (row_view row) ≡ true }
    ensures performs { IfOk result (λ went. Performs (D.domain domain.now) D.value_of D.word_of D.memory_of
        arguments.now has_called inside.now (row_view row.entry) machine.old machine.new went) }
    ensures blocks { machine.new.blocks ≡ machine.old.blocks }
{
    match row {
        Row::GetArg(nth) => get_arg(domain, &mut machine.stack, arguments, nth),
        Row::AddrOf => addr_of(domain, &mut machine.stack, &mut machine.memory),
        Row::Lowering(conversion) => lowering(domain, &mut machine.stack, conversion),
        Row::Lifting(conversion) => lifting(domain, &mut machine.stack, conversion),
        Row::ListPointerLength => list_pointer_length(domain, &mut machine.stack),
        Row::ListFromPointerLength => list_from_pointer_length(domain, &mut machine.stack),
        Row::ReturnPointerGet(slot) => {
            return_pointer_get(domain, &mut machine.stack, &machine.slots, slot)
        }
        Row::Load(ty) => load(domain, &mut machine.stack, &machine.memory, ty),
        Row::Store(ty) => store(domain, &mut machine.stack, &mut machine.memory, ty),
        Row::TupleLift(count) => tuple_lift(alloc, domain, &mut machine.stack, count),
        Row::TupleLower(count) => tuple_lower(domain, &mut machine.stack, count),
        Row::VariantPayload => variant_payload(domain, &mut machine.stack, payload_in::<D>(inside)),
        Row::ReuseReturn => reuse_return(domain, &mut machine.stack, &machine.returned),
        Row::Return(count) => return_items::<D>(alloc, machine, count, has_called, inside),
        Row::ResultLower { ok: _, err: _ }
        | Row::ResultLift
        | Row::CallWasm { .. }
        | Row::CallInterface { .. } => unreachable!(),
    }
}

/// The payload, in a block that result_lower runs on one.
fn payload_in<D: Domain>(inside: &Inside<D::Value, D::Word>) -> Option<&Item<D::Value, D::Word>>
    ensures { option_map (λ x. item_of D.value_of D.word_of x.now) result
        ≡ payload_in (inside_of D.value_of D.word_of inside.now) }
{
    match inside {
        Inside::Lower(Some(item)) => Some(item),
        Inside::Lower(None) | Inside::Outside | Inside::Lift => None,
    }
}

/// The call was made, the stack has exactly these items, and no block is left.
fn return_items<D: Domain>(
    alloc: Global,
    machine: &mut MachineOf<D>,
    count: usize,
    has_called: bool,
    inside: &Inside<D::Value, D::Word>,
) -> Result<bool, OutOfMemory>
    ensures performs { IfOk result (λ went.
        (domain : machine_specs.Domain D.V D.W D.M) (arguments : List (declared_item.Item D.Value D.Word)) →
        Performs domain D.value_of D.word_of D.memory_of arguments has_called inside.now (returns count)
        machine.old machine.new went) }
    ensures blocks { machine.new.blocks ≡ machine.old.blocks }
{
    match inside {
        Inside::Outside => answer_with::<D>(alloc, machine, count, has_called),
        Inside::Lower(_) | Inside::Lift => Ok(false),
    }
}

fn answer_with<D: Domain>(
    alloc: Global,
    machine: &mut MachineOf<D>,
    count: usize,
    has_called: bool,
) -> Result<bool, OutOfMemory>
    ensures performs { IfOk result (λ went.
        (domain : machine_specs.Domain D.V D.W D.M) (arguments : List (declared_item.Item D.Value D.Word)) →
        Performs domain D.value_of D.word_of D.memory_of arguments has_called Outside (returns count)
        machine.old machine.new went) }
    ensures blocks { machine.new.blocks ≡ machine.old.blocks }
{
    let Some(items) = items_off::<D>(alloc, &mut machine.stack, count)? else {
        return Ok(false);
    };
    if has_called && machine.blocks.is_empty() && machine.stack.is_empty() {
        machine.answer = Some(items);
        Ok(true)
    } else {
        drop(items);
        Ok(false)
    }
}

/// Gives a slot the next address, unless it has one; or the event has no rule.
pub fn give_slot<D: Domain>(
    domain: &D,
    machine: &mut MachineOf<D>,
    slot: usize,
    ty: &Rc<NamedType>,
) -> Result<bool, OutOfMemory>
    ensures gives { IfOk result (λ went. GivesSlot (D.domain domain.now) D.value_of D.word_of D.memory_of
        slot (named_tree ty.now.value) machine.old machine.new went) }
    ensures blocks { machine.new.blocks ≡ machine.old.blocks }
{
    match machine.slots.get(slot) {
        Some(_address) => Ok(false),
        None => match domain.give(&mut machine.memory, ty)? {
            Some(address) => {
                machine.slots.give(slot, address)?;
                Ok(true)
            }
            None => Ok(false),
        },
    }
}
