//! The values of parts of types.

ghost use Rattle.std.specs.Prelude.{IfOk};
ghost use Rattle.witx_values.specs.{Language.{Ready}, TextTokens.{HoldsMarks}};
ghost use Rattle.witx_language.specs.Actions.{the_language};
ghost use Rattle.witx_language.specs.declared.production.ProductionName.TheVariants as production;
ghost use Rattle.witx_syntax.specs.Stack.{Made, MadeAlone, value_view};

use crate::stack::{push, take, take_two};
use crate::value::{Case, Decl, Done, Field, Member, Named, Stack, Tokens, UnionField, Value};
use std::alloc::Global;
use witx_language::{comments_at, constructors};
use witx_syntax_tree::{Documented, TypedefSyntax};
use witx_values::appended;

/// The name of a member, with its comments.
pub fn name<'a>(alloc: Global, tokens: &Tokens<'a>, at: usize, stack: &mut Stack<'a>) -> Done
    requires parts { Ready the_language value_view production.Name stack.old.items }
    requires tokens { HoldsMarks tokens.now }
    ensures { IfOk result (λ _. Made production.Name tokens.now at stack.old.items stack.new.items) }
{
    let comments = comments_at(alloc, tokens, at)?;
    let Named { id: item } = take(stack);
    push(stack, Value::Member(Documented { comments, item }))
}

/// A type of a union, with its comments.
pub fn union_type<'a>(alloc: Global, tokens: &Tokens<'a>, at: usize, stack: &mut Stack<'a>) -> Done
    requires parts { Ready the_language value_view production.UnionField stack.old.items }
    requires tokens { HoldsMarks tokens.now }
    ensures { IfOk result (λ _. Made production.UnionField tokens.now at stack.old.items stack.new.items) }
{
    let comments = comments_at(alloc, tokens, at)?;
    let item: TypedefSyntax<'a> = take(stack);
    push(stack, Value::UnionField(Documented { comments, item }))
}

/// `(field $name TYPE)`, with its comments.
pub fn field<'a>(alloc: Global, tokens: &Tokens<'a>, at: usize, stack: &mut Stack<'a>) -> Done
    requires parts { Ready the_language value_view production.Field stack.old.items }
    requires tokens { HoldsMarks tokens.now }
    ensures { IfOk result (λ _. Made production.Field tokens.now at stack.old.items stack.new.items) }
{
    let comments = comments_at(alloc, tokens, at)?;
    let (name, type_): (Named<'a>, TypedefSyntax<'a>) = take_two(stack);
    let item = constructors::field(name.id, type_);
    push(stack, Value::Field(Documented { comments, item }))
}

/// `(error TYPE)`: the type.
pub fn error<'a>(alloc: Global, stack: &mut Stack<'a>) -> Done
    requires { Ready the_language value_view production.Error stack.old.items }
    ensures { IfOk result (λ _. MadeAlone production.Error stack.old.items stack.new.items) }
{
    let error = take(stack);
    push(stack, Value::Error(Some(Box::new(alloc, error)?)))
}

/// `(error)`: no type.
pub fn bare_error<'a>(stack: &mut Stack<'a>) -> Done
    ensures { IfOk result (λ _. MadeAlone production.BareError stack.old.items stack.new.items) }
{
    push(stack, Value::Error(None))
}

/// `(case $name)`, with its comments.
pub fn bare_case<'a>(alloc: Global, tokens: &Tokens<'a>, at: usize, stack: &mut Stack<'a>) -> Done
    requires parts { Ready the_language value_view production.BareCase stack.old.items }
    requires tokens { HoldsMarks tokens.now }
    ensures { IfOk result (λ _. Made production.BareCase tokens.now at stack.old.items stack.new.items) }
{
    let comments = comments_at(alloc, tokens, at)?;
    let Named { id } = take(stack);
    let item = constructors::case(id, None);
    push(stack, Value::Case(Documented { comments, item }))
}

/// `(case $name TYPE)`, with its comments.
pub fn case<'a>(alloc: Global, tokens: &Tokens<'a>, at: usize, stack: &mut Stack<'a>) -> Done
    requires parts { Ready the_language value_view production.Case stack.old.items }
    requires tokens { HoldsMarks tokens.now }
    ensures { IfOk result (λ _. Made production.Case tokens.now at stack.old.items stack.new.items) }
{
    let comments = comments_at(alloc, tokens, at)?;
    let (name, type_): (Named<'a>, TypedefSyntax<'a>) = take_two(stack);
    let item = constructors::case(name.id, Some(type_));
    push(stack, Value::Case(Documented { comments, item }))
}

/// No members.
pub fn no_names<'a>(alloc: Global, stack: &mut Stack<'a>) -> Done
    ensures { IfOk result (λ _. MadeAlone production.NoNames stack.old.items stack.new.items) }
{
    push(stack, Value::Members(Vec::new(alloc)))
}

/// A member in front of those behind it.
pub fn more_names<'a>(stack: &mut Stack<'a>) -> Done
    requires { Ready the_language value_view production.MoreNames stack.old.items }
    ensures { IfOk result (λ _. MadeAlone production.MoreNames stack.old.items stack.new.items) }
{
    let (first, list): (Member<'a>, Vec<Member<'a>>) = take_two(stack);
    let list = appended(list, first)?;
    push(stack, Value::Members(list))
}

/// No types.
pub fn no_types<'a>(alloc: Global, stack: &mut Stack<'a>) -> Done
    ensures { IfOk result (λ _. MadeAlone production.NoTypes stack.old.items stack.new.items) }
{
    push(stack, Value::Types(Vec::new(alloc)))
}

/// A type in front of those behind it.
pub fn more_types<'a>(stack: &mut Stack<'a>) -> Done
    requires { Ready the_language value_view production.MoreTypes stack.old.items }
    ensures { IfOk result (λ _. MadeAlone production.MoreTypes stack.old.items stack.new.items) }
{
    let (first, list): (TypedefSyntax<'a>, Vec<TypedefSyntax<'a>>) = take_two(stack);
    let list = appended(list, first)?;
    push(stack, Value::Types(list))
}

/// No types of a union.
pub fn no_union_fields<'a>(alloc: Global, stack: &mut Stack<'a>) -> Done
    ensures { IfOk result (λ _. MadeAlone production.NoUnionFields stack.old.items stack.new.items) }
{
    push(stack, Value::UnionFields(Vec::new(alloc)))
}

/// A type of a union in front of those behind it.
pub fn more_union_fields<'a>(stack: &mut Stack<'a>) -> Done
    requires { Ready the_language value_view production.MoreUnionFields stack.old.items }
    ensures { IfOk result (λ _. MadeAlone production.MoreUnionFields stack.old.items stack.new.items) }
{
    let (first, list): (UnionField<'a>, Vec<UnionField<'a>>) = take_two(stack);
    let list = appended(list, first)?;
    push(stack, Value::UnionFields(list))
}

/// No fields.
pub fn no_fields<'a>(alloc: Global, stack: &mut Stack<'a>) -> Done
    ensures { IfOk result (λ _. MadeAlone production.NoFields stack.old.items stack.new.items) }
{
    push(stack, Value::Fields(Vec::new(alloc)))
}

/// A field in front of those behind it.
pub fn more_fields<'a>(stack: &mut Stack<'a>) -> Done
    requires { Ready the_language value_view production.MoreFields stack.old.items }
    ensures { IfOk result (λ _. MadeAlone production.MoreFields stack.old.items stack.new.items) }
{
    let (first, list): (Field<'a>, Vec<Field<'a>>) = take_two(stack);
    let list = appended(list, first)?;
    push(stack, Value::Fields(list))
}

/// No cases.
pub fn no_cases<'a>(alloc: Global, stack: &mut Stack<'a>) -> Done
    ensures { IfOk result (λ _. MadeAlone production.NoCases stack.old.items stack.new.items) }
{
    push(stack, Value::Cases(Vec::new(alloc)))
}

/// A case in front of those behind it.
pub fn more_cases<'a>(stack: &mut Stack<'a>) -> Done
    requires { Ready the_language value_view production.MoreCases stack.old.items }
    ensures { IfOk result (λ _. MadeAlone production.MoreCases stack.old.items stack.new.items) }
{
    let (first, list): (Case<'a>, Vec<Case<'a>>) = take_two(stack);
    let list = appended(list, first)?;
    push(stack, Value::Cases(list))
}

/// No declarations.
pub fn no_decls<'a>(alloc: Global, stack: &mut Stack<'a>) -> Done
    ensures { IfOk result (λ _. MadeAlone production.NoDecls stack.old.items stack.new.items) }
{
    push(stack, Value::Decls(Vec::new(alloc)))
}

/// A declaration in front of those behind it.
pub fn more_decls<'a>(stack: &mut Stack<'a>) -> Done
    requires { Ready the_language value_view production.MoreDecls stack.old.items }
    ensures { IfOk result (λ _. MadeAlone production.MoreDecls stack.old.items stack.new.items) }
{
    let (first, list): (Decl<'a>, Vec<Decl<'a>>) = take_two(stack);
    let list = appended(list, first)?;
    push(stack, Value::Decls(list))
}
