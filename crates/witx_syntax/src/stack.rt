//! The stack of values that a tree is built on.

ghost use Rattle.std.specs.Prelude.{◌≡◌, [], ◌∷◌, IfOk};
ghost use Rattle.witx_values.specs.Language.{IsOnTop, StartWith, stack_of};
ghost use Rattle.witx_language.specs.Sorts.{sort_of};
ghost use Rattle.witx_syntax.specs.Stack.{value_view};

use crate::held::Held;
use crate::value::{Done, Stack, Value};
use witx_values::top;

/// Puts a value on top.
// A value is large; inlined, its parts are written where they stay, and the whole isn't moved twice.
#[inline(always)]
pub fn push<'a>(stack: &mut Stack<'a>, value: Value<'a>) -> Done
    ensures { IfOk result (λ _. IsOnTop value_view (value_view value.entry) stack.old.items stack.new.items) }
{
    Ok(stack.push(value)?)
}

/// Takes the top value off.
pub fn take<'a, A: Held<'a>>(stack: &mut Stack<'a>) -> A
    requires { StartWith sort_of (A.sort ∷ []) (stack_of value_view stack.old.items) }
    ensures { IsOnTop value_view (value_view (A.holding result)) stack.new.items stack.old.items }
{
    A::of(top!(stack))
}

/// Takes two values off, the top one first.
pub fn take_two<'a, A: Held<'a>, B: Held<'a>>(stack: &mut Stack<'a>) -> (A, B)
    requires { StartWith sort_of (A.sort ∷ B.sort ∷ []) (stack_of value_view stack.old.items) }
    ensures { stack_of value_view stack.old.items
        ≡ value_view (A.holding result.0) ∷ value_view (B.holding result.1) ∷ stack_of value_view stack.new.items }
{
    let first = take(stack);
    let second = take(stack);
    (first, second)
}

/// Takes three values off, the top one first.
pub fn take_three<'a, A: Held<'a>, B: Held<'a>, C: Held<'a>>(stack: &mut Stack<'a>) -> (A, B, C)
    requires { StartWith sort_of (A.sort ∷ B.sort ∷ C.sort ∷ []) (stack_of value_view stack.old.items) }
    ensures { stack_of value_view stack.old.items
        ≡ value_view (A.holding result.0) ∷ value_view (B.holding result.1) ∷ value_view (C.holding result.2) ∷ stack_of value_view stack.new.items }
{
    let first = take(stack);
    let (second, third) = take_two(stack);
    (first, second, third)
}
