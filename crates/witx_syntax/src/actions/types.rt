//! The values of types.

ghost use Rattle.std.specs.Prelude.{IfOk};
ghost use Rattle.witx_values.specs.Language.{Ready};
ghost use Rattle.witx_language.specs.Actions.{the_language};
ghost use Rattle.witx_language.specs.declared.production.ProductionName.TheVariants as production;
ghost use Rattle.witx_syntax.specs.Stack.{MadeAlone, value_view};

use crate::stack::{push, take, take_three, take_two};
use crate::value::{BuiltinWord, Done, Field, Member, Named, Stack, UnionField, Value};
use std::alloc::Global;
use witx_language::constructors;
use witx_language::constructors::{enumeration, flags, union_of, variant};
use witx_values::appended;

/// `(@witx pointer TYPE)`.
pub fn pointer<'a>(alloc: Global, stack: &mut Stack<'a>) -> Done
    requires { Ready the_language value_view production.Pointer stack.old.items }
    ensures { IfOk result (λ _. MadeAlone production.Pointer stack.old.items stack.new.items) }
{
    let target = Box::new(alloc, take(stack))?;
    push(stack, Value::Type(constructors::pointer(target)))
}

/// `(@witx const_pointer TYPE)`.
pub fn const_pointer<'a>(alloc: Global, stack: &mut Stack<'a>) -> Done
    requires { Ready the_language value_view production.ConstPointer stack.old.items }
    ensures { IfOk result (λ _. MadeAlone production.ConstPointer stack.old.items stack.new.items) }
{
    let target = Box::new(alloc, take(stack))?;
    push(stack, Value::Type(constructors::const_pointer(target)))
}

/// `(list TYPE)`.
pub fn list<'a>(alloc: Global, stack: &mut Stack<'a>) -> Done
    requires { Ready the_language value_view production.List stack.old.items }
    ensures { IfOk result (λ _. MadeAlone production.List stack.old.items stack.new.items) }
{
    let element = Box::new(alloc, take(stack))?;
    push(stack, Value::Type(constructors::list(element)))
}

/// `string`.
pub fn string<'a>(stack: &mut Stack<'a>) -> Done
    ensures { IfOk result (λ _. MadeAlone production.String stack.old.items stack.new.items) }
{
    push(stack, Value::Type(constructors::string()))
}

/// `bool`.
pub fn boolean<'a>(stack: &mut Stack<'a>) -> Done
    ensures { IfOk result (λ _. MadeAlone production.Bool stack.old.items stack.new.items) }
{
    push(stack, Value::Type(constructors::boolean()))
}

/// `(handle)`.
pub fn handle<'a>(stack: &mut Stack<'a>) -> Done
    ensures { IfOk result (λ _. MadeAlone production.Handle stack.old.items stack.new.items) }
{
    push(stack, Value::Type(constructors::handle()))
}

/// `$name`: the type of that name.
pub fn ident<'a>(stack: &mut Stack<'a>) -> Done
    requires { Ready the_language value_view production.Ident stack.old.items }
    ensures { IfOk result (λ _. MadeAlone production.Ident stack.old.items stack.new.items) }
{
    let Named { id } = take(stack);
    push(stack, Value::Type(constructors::ident(id)))
}

/// A builtin word as a type.
pub fn builtin_type<'a>(stack: &mut Stack<'a>) -> Done
    requires { Ready the_language value_view production.BuiltinType stack.old.items }
    ensures { IfOk result (λ _. MadeAlone production.BuiltinType stack.old.items stack.new.items) }
{
    let BuiltinWord { builtin } = take(stack);
    push(stack, Value::Type(constructors::builtin(builtin)))
}

/// `(enum (@witx tag WORD) $name..)`: at least one name.
pub fn tagged_enum<'a>(stack: &mut Stack<'a>) -> Done
    requires { Ready the_language value_view production.TaggedEnum stack.old.items }
    ensures { IfOk result (λ _. MadeAlone production.TaggedEnum stack.old.items stack.new.items) }
{
    let (word, first, members): (BuiltinWord, Member<'a>, Vec<Member<'a>>) = take_three(stack);
    let members = appended(members, first)?;
    push(stack, Value::Type(enumeration(Some(word.builtin), members)))
}

/// `(enum $name..)`, without a tag.
pub fn plain_enum<'a>(stack: &mut Stack<'a>) -> Done
    requires { Ready the_language value_view production.Enum stack.old.items }
    ensures { IfOk result (λ _. MadeAlone production.Enum stack.old.items stack.new.items) }
{
    let (first, members): (Member<'a>, Vec<Member<'a>>) = take_two(stack);
    let members = appended(members, first)?;
    push(stack, Value::Type(enumeration(None, members)))
}

/// `(flags (@witx repr WORD) $name..)`.
pub fn tagged_flags<'a>(stack: &mut Stack<'a>) -> Done
    requires { Ready the_language value_view production.TaggedFlags stack.old.items }
    ensures { IfOk result (λ _. MadeAlone production.TaggedFlags stack.old.items stack.new.items) }
{
    let (word, names): (BuiltinWord, Vec<Member<'a>>) = take_two(stack);
    push(stack, Value::Type(flags(Some(word.builtin), names)))
}

/// `(flags $name..)`, without a representation.
pub fn plain_flags<'a>(stack: &mut Stack<'a>) -> Done
    requires { Ready the_language value_view production.Flags stack.old.items }
    ensures { IfOk result (λ _. MadeAlone production.Flags stack.old.items stack.new.items) }
{
    let names = take(stack);
    push(stack, Value::Type(flags(None, names)))
}

/// `(record FIELD..)`: at least one field.
pub fn record<'a>(stack: &mut Stack<'a>) -> Done
    requires { Ready the_language value_view production.Record stack.old.items }
    ensures { IfOk result (λ _. MadeAlone production.Record stack.old.items stack.new.items) }
{
    let (first, fields): (Field<'a>, Vec<Field<'a>>) = take_two(stack);
    let fields = appended(fields, first)?;
    push(stack, Value::Type(constructors::record(fields)))
}

/// `(tuple TYPE..)`.
pub fn tuple<'a>(stack: &mut Stack<'a>) -> Done
    requires { Ready the_language value_view production.Tuple stack.old.items }
    ensures { IfOk result (λ _. MadeAlone production.Tuple stack.old.items stack.new.items) }
{
    let types = take(stack);
    push(stack, Value::Type(constructors::tuple(types)))
}

/// `(expected ERROR)`, without an ok type.
pub fn expected<'a>(stack: &mut Stack<'a>) -> Done
    requires { Ready the_language value_view production.Expected stack.old.items }
    ensures { IfOk result (λ _. MadeAlone production.Expected stack.old.items stack.new.items) }
{
    let err = take(stack);
    push(stack, Value::Type(constructors::expected(None, err)))
}

/// `(expected TYPE ERROR)`.
pub fn expected_type<'a>(alloc: Global, stack: &mut Stack<'a>) -> Done
    requires { Ready the_language value_view production.ExpectedType stack.old.items }
    ensures { IfOk result (λ _. MadeAlone production.ExpectedType stack.old.items stack.new.items) }
{
    let (ok, err) = take_two(stack);
    let ok = Some(Box::new(alloc, ok)?);
    push(stack, Value::Type(constructors::expected(ok, err)))
}

/// `(union (@witx tag $type) TYPE..)`.
pub fn tagged_union<'a>(alloc: Global, stack: &mut Stack<'a>) -> Done
    requires { Ready the_language value_view production.TaggedUnion stack.old.items }
    ensures { IfOk result (λ _. MadeAlone production.TaggedUnion stack.old.items stack.new.items) }
{
    let (tag, fields) = take_two(stack);
    let tag = Some(Box::new(alloc, tag)?);
    push(stack, Value::Type(union_of(tag, fields)))
}

/// `(union)`: no types.
pub fn empty_union<'a>(alloc: Global, stack: &mut Stack<'a>) -> Done
    ensures { IfOk result (λ _. MadeAlone production.EmptyUnion stack.old.items stack.new.items) }
{
    push(stack, Value::Type(union_of(None, Vec::new(alloc))))
}

/// `(union TYPE..)`, without a tag: at least one type.
pub fn plain_union<'a>(stack: &mut Stack<'a>) -> Done
    requires { Ready the_language value_view production.Union stack.old.items }
    ensures { IfOk result (λ _. MadeAlone production.Union stack.old.items stack.new.items) }
{
    let (first, fields): (UnionField<'a>, Vec<UnionField<'a>>) = take_two(stack);
    let fields = appended(fields, first)?;
    push(stack, Value::Type(union_of(None, fields)))
}

/// `(variant (@witx tag $type) CASE..)`.
pub fn tagged_variant<'a>(alloc: Global, stack: &mut Stack<'a>) -> Done
    requires { Ready the_language value_view production.TaggedVariant stack.old.items }
    ensures { IfOk result (λ _. MadeAlone production.TaggedVariant stack.old.items stack.new.items) }
{
    let (tag, cases) = take_two(stack);
    let tag = Some(Box::new(alloc, tag)?);
    push(stack, Value::Type(variant(tag, cases)))
}

/// `(variant CASE..)`, without a tag.
pub fn plain_variant<'a>(stack: &mut Stack<'a>) -> Done
    requires { Ready the_language value_view production.Variant stack.old.items }
    ensures { IfOk result (λ _. MadeAlone production.Variant stack.old.items stack.new.items) }
{
    let cases = take(stack);
    push(stack, Value::Type(variant(None, cases)))
}
