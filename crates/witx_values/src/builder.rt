//! The value of a derivation.
//!
//! A derivation is the list of its steps, each production before what it is written by. It is read
//! from its end: a token puts what it stands for on a stack, and a production takes its parts from
//! there and puts what it stands for. So neither nesting nor length costs the program's stack.

ghost use Rattle.std.specs.Prelude.{◌≡◌, List, [], ◌∷◌, IfOk};
ghost use Rattle.witx_lex.specs.Tokens.{Lexed};
ghost use Rattle.witx_values.specs.{Language.{IsDerived, stands_for}, TextTokens.{AreHeld, HoldsText}};

use crate::actions::Actions;
use crate::marks::TextTokens;
use crate::top;
use std::alloc::Global;
use witx_base::OutOfMemory;
use witx_grammar::Step;

/// The value that a derivation from the nonterminal stands for.
pub fn build<'a, A: Actions<'a>>(
    alloc: Global,
    actions: &A,
    start: A::Nonterminal,
    steps: &[Step<A::Production>],
    tokens: &TextTokens<'a, A::Kind>,
) -> Result<A::Value, OutOfMemory>
    requires tokens { HoldsText A.language tokens.now }
    requires derived { (ls : List Lexed) → AreHeld A.language tokens.now ls
        → IsDerived A.language start steps.now ls }
    ensures { (ls : List Lexed) → AreHeld A.language tokens.now ls
        → IfOk result (λ v. stands_for A.language ls steps.now ≡ A.value_of v ∷ []) }
{
    let mut stack = Vec::new(alloc);
    let mut number = steps.len();
    let mut at = tokens.kinds.len();
    'each: while number > 0 {
        number -= 1;
        let step = steps[number];
        match step {
            Step::Leaf => {
                at -= 1;
                if at < tokens.marks.len() {
                    actions.leaf(tokens, at, &mut stack)?;
                    continue;
                }
                continue;
            }
            Step::Node(production) => {
                actions.perform(production, tokens, at, &mut stack)?;
                continue;
            }
        }
    }
    Ok(top!(stack))
}
