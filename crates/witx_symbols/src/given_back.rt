//! Whether what the caller gives back is the reply.
#![tactic(auto, using(crate::proofs::JudgeLemmas::judge_rules))]

ghost use Rattle.std.specs.Prelude.{◌≡◌, ◌∷◌, [], option_to_list};
ghost use Rattle.witx_machine.specs.Run.{values_in};
ghost use Rattle.witx_symbols.specs.{Verdicts.{are_values}, OutcomeViews.{symbol_item, symbol_items}};
ghost use Rattle.witx_symbols.specs.{SymbolViews.{symbol_of}, WordViews.{option_of}};

use crate::outcome::Item;
use crate::symbol::{Symbol, same};
use std::rc::Rc;

/// Whether what the caller gave back is the reply alone, or nothing where there is none.
pub fn is_reply(back: &[Item], reply: &Option<Rc<Symbol>>) -> bool
    ensures { result ≡ are_values (values_in (symbol_items back.now)) (option_to_list (option_of reply.now)) }
{
    match reply {
        Some(reply) => is_alone(back, reply),
        None => back.is_empty(),
    }
}

fn is_alone(back: &[Item], reply: &Symbol) -> bool
    ensures { result ≡ are_values (values_in (symbol_items back.now)) (symbol_of reply.now ∷ []) }
{
    match back {
        [item] => is_value(item, reply),
        _ => false,
    }
}

fn is_value(item: &Item, reply: &Symbol) -> bool
    ensures { result ≡ are_values (values_in (symbol_item item.now ∷ [])) (symbol_of reply.now ∷ []) }
{
    match item {
        Item::Value { value, name: _ } => same(value, reply),
        Item::Word(_) => false,
    }
}
