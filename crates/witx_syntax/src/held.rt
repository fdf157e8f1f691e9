//! What the values of each sort hold.

ghost use Rattle.std.specs.Prelude.{◌≡◌};
ghost use Rattle.witx_language.specs.{declared.sort.Sort.{Sort}, Sorts.{sort_of}};
ghost use Rattle.witx_language.specs.declared.sort.Sort.TheVariants as sorts;
ghost use Rattle.witx_syntax.specs.{declared.value.Value.{Value}, Stack.{value_view}};
ghost use Rattle.witx_syntax.specs.declared.value.Value.TheVariants as values;

use crate::value::{
    BuiltinWord, Case, Decl, Field, Item, Member, Named, Number, Quoted, UnionField, Value,
};
use witx_language::{Entries, Entry};
use witx_syntax_tree::{TopLevelSyntax, TypedefSyntax};
use witx_values::held;

/// What the values of one sort hold.
pub trait Held<'a>: Sized {
    ghost sort: { Sort };

    ghost holding: { Self → Value };

    /// What the value holds.
    fn of(value: Value<'a>) -> Self
        requires { sort_of (value_view value) ≡ sort }
        ensures { value_view value.entry ≡ value_view (holding result) };
}

impl<'a> Held<'a> for Named<'a> {
    ghost sort = { sorts.Name };

    ghost holding = { values.Name };

    fn of(value: Value<'a>) -> Named<'a> {
        held!(value, Value::Name)
    }
}

impl<'a> Held<'a> for Quoted {
    ghost sort = { sorts.Quoted };

    ghost holding = { values.Quoted };

    fn of(value: Value<'a>) -> Quoted {
        held!(value, Value::Quoted)
    }
}

impl<'a> Held<'a> for Number {
    ghost sort = { sorts.Integer };

    ghost holding = { values.Integer };

    fn of(value: Value<'a>) -> Number {
        held!(value, Value::Integer)
    }
}

impl<'a> Held<'a> for BuiltinWord {
    ghost sort = { sorts.Builtin };

    ghost holding = { values.Builtin };

    fn of(value: Value<'a>) -> BuiltinWord {
        held!(value, Value::Builtin)
    }
}

impl<'a> Held<'a> for TypedefSyntax<'a> {
    ghost sort = { sorts.Type };

    ghost holding = { values.Type };

    fn of(value: Value<'a>) -> TypedefSyntax<'a> {
        held!(value, Value::Type)
    }
}

impl<'a> Held<'a> for Vec<TypedefSyntax<'a>> {
    ghost sort = { sorts.Types };

    ghost holding = { values.Types };

    fn of(value: Value<'a>) -> Vec<TypedefSyntax<'a>> {
        held!(value, Value::Types)
    }
}

impl<'a> Held<'a> for Option<Box<TypedefSyntax<'a>>> {
    ghost sort = { sorts.Error };

    ghost holding = { values.Error };

    fn of(value: Value<'a>) -> Option<Box<TypedefSyntax<'a>>> {
        held!(value, Value::Error)
    }
}

impl<'a> Held<'a> for Member<'a> {
    ghost sort = { sorts.Member };

    ghost holding = { values.Member };

    fn of(value: Value<'a>) -> Member<'a> {
        held!(value, Value::Member)
    }
}

impl<'a> Held<'a> for Vec<Member<'a>> {
    ghost sort = { sorts.Members };

    ghost holding = { values.Members };

    fn of(value: Value<'a>) -> Vec<Member<'a>> {
        held!(value, Value::Members)
    }
}

impl<'a> Held<'a> for Field<'a> {
    ghost sort = { sorts.Field };

    ghost holding = { values.Field };

    fn of(value: Value<'a>) -> Field<'a> {
        held!(value, Value::Field)
    }
}

impl<'a> Held<'a> for Vec<Field<'a>> {
    ghost sort = { sorts.Fields };

    ghost holding = { values.Fields };

    fn of(value: Value<'a>) -> Vec<Field<'a>> {
        held!(value, Value::Fields)
    }
}

impl<'a> Held<'a> for UnionField<'a> {
    ghost sort = { sorts.UnionField };

    ghost holding = { values.UnionField };

    fn of(value: Value<'a>) -> UnionField<'a> {
        held!(value, Value::UnionField)
    }
}

impl<'a> Held<'a> for Vec<UnionField<'a>> {
    ghost sort = { sorts.UnionFields };

    ghost holding = { values.UnionFields };

    fn of(value: Value<'a>) -> Vec<UnionField<'a>> {
        held!(value, Value::UnionFields)
    }
}

impl<'a> Held<'a> for Case<'a> {
    ghost sort = { sorts.Case };

    ghost holding = { values.Case };

    fn of(value: Value<'a>) -> Case<'a> {
        held!(value, Value::Case)
    }
}

impl<'a> Held<'a> for Vec<Case<'a>> {
    ghost sort = { sorts.Cases };

    ghost holding = { values.Cases };

    fn of(value: Value<'a>) -> Vec<Case<'a>> {
        held!(value, Value::Cases)
    }
}

impl<'a> Held<'a> for Entry<'a> {
    ghost sort = { sorts.Entry };

    ghost holding = { values.Entry };

    fn of(value: Value<'a>) -> Entry<'a> {
        held!(value, Value::Entry)
    }
}

impl<'a> Held<'a> for Entries<'a> {
    ghost sort = { sorts.Entries };

    ghost holding = { values.Entries };

    fn of(value: Value<'a>) -> Entries<'a> {
        held!(value, Value::Entries)
    }
}

impl<'a> Held<'a> for Decl<'a> {
    ghost sort = { sorts.Decl };

    ghost holding = { values.Decl };

    fn of(value: Value<'a>) -> Decl<'a> {
        held!(value, Value::Decl)
    }
}

impl<'a> Held<'a> for Vec<Decl<'a>> {
    ghost sort = { sorts.Decls };

    ghost holding = { values.Decls };

    fn of(value: Value<'a>) -> Vec<Decl<'a>> {
        held!(value, Value::Decls)
    }
}

impl<'a> Held<'a> for TopLevelSyntax<'a> {
    ghost sort = { sorts.Item };

    ghost holding = { values.Item };

    fn of(value: Value<'a>) -> TopLevelSyntax<'a> {
        held!(value, Value::Item)
    }
}

impl<'a> Held<'a> for Vec<Item<'a>> {
    ghost sort = { sorts.Items };

    ghost holding = { values.Items };

    fn of(value: Value<'a>) -> Vec<Item<'a>> {
        held!(value, Value::Items)
    }
}
