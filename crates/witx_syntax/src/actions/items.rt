//! The values of top-level forms and of declarations of modules.

ghost use Rattle.std.specs.Prelude.{IfOk};
ghost use Rattle.witx_values.specs.{Language.{Ready}, TextTokens.{HoldsMarks}};
ghost use Rattle.witx_language.specs.Actions.{the_language};
ghost use Rattle.witx_language.specs.declared.production.ProductionName.TheVariants as production;
ghost use Rattle.witx_syntax.specs.Stack.{Made, MadeAlone, value_view};

use crate::stack::{push, take, take_three, take_two};
use crate::value::{Decl, Done, Item, Named, Number, Quoted, Stack, Tokens, Value};
use std::alloc::Global;
use witx_base::Items;
use witx_language::constructors::field;
use witx_language::{Entries, Entry, add_entry, comments_at, comments_behind};
use witx_syntax_tree::{
    ConstSyntax, DeclSyntax, Documented, ImportTypeSyntax, InterfaceFuncSyntax, ModuleDeclSyntax,
    ModuleImportSyntax, ModuleSyntax, TopLevelSyntax, TypedefSyntax, TypenameSyntax,
};
use witx_values::{appended, reversed};

/// Many long texts have so many tokens to a top-level form, or more. There is room for a form of each sixteen from the last
/// one on, so that the list isn't copied while it grows.
const FORM_TOKENS: usize = 16;

/// No top-level forms.
pub fn no_items<'a>(alloc: Global, stack: &mut Stack<'a>) -> Done
    ensures { IfOk result (λ _. MadeAlone production.NoItems stack.old.items stack.new.items) }
{
    push(stack, Value::Items(Vec::new(alloc)))
}

/// A top-level form, with its comments, in front of those behind it.
pub fn more_items<'a>(alloc: Global, tokens: &Tokens<'a>, at: usize, stack: &mut Stack<'a>) -> Done
    requires parts { Ready the_language value_view production.MoreItems stack.old.items }
    requires tokens { HoldsMarks tokens.now }
    ensures { IfOk result (λ _. Made production.MoreItems tokens.now at stack.old.items stack.new.items) }
{
    let comments = comments_at(alloc, tokens, at)?;
    let (item, mut items): (TopLevelSyntax<'a>, Vec<Item<'a>>) = take_two(stack);
    if items.is_empty() {
        items.reserve(at / FORM_TOKENS)?;
    }
    let items = appended(items, Documented { comments, item })?;
    push(stack, Value::Items(items))
}

/// `(use "path")`: the path.
pub fn use_of<'a>(stack: &mut Stack<'a>) -> Done
    requires { Ready the_language value_view production.Use stack.old.items }
    ensures { IfOk result (λ _. MadeAlone production.Use stack.old.items stack.new.items) }
{
    let Quoted { text, span: _ } = take(stack);
    push(stack, Value::Item(TopLevelSyntax::Use(text)))
}

/// `(typename $name TYPE)`.
pub fn typename<'a>(stack: &mut Stack<'a>) -> Done
    requires { Ready the_language value_view production.Typename stack.old.items }
    ensures { IfOk result (λ _. MadeAlone production.Typename stack.old.items stack.new.items) }
{
    let (name, def): (Named<'a>, TypedefSyntax<'a>) = take_two(stack);
    let typename = TypenameSyntax {
        ident: name.id,
        def,
    };
    push(
        stack,
        Value::Item(TopLevelSyntax::Decl(DeclSyntax::Typename(typename))),
    )
}

/// `(module $name DECL..)`: its declarations, in the order of the text.
pub fn module<'a>(stack: &mut Stack<'a>) -> Done
    requires { Ready the_language value_view production.Module stack.old.items }
    ensures { IfOk result (λ _. MadeAlone production.Module stack.old.items stack.new.items) }
{
    let (name, decls): (Named<'a>, Vec<Decl<'a>>) = take_two(stack);
    let module = ModuleSyntax {
        name: name.id,
        decls: Items::from_vec(reversed(decls)),
    };
    push(
        stack,
        Value::Item(TopLevelSyntax::Decl(DeclSyntax::Module(module))),
    )
}

/// `(@witx const $type $name NUMBER)`, with the comments behind its parenthesis.
pub fn constant<'a>(alloc: Global, tokens: &Tokens<'a>, at: usize, stack: &mut Stack<'a>) -> Done
    requires parts { Ready the_language value_view production.Const stack.old.items }
    requires tokens { HoldsMarks tokens.now }
    ensures { IfOk result (λ _. Made production.Const tokens.now at stack.old.items stack.new.items) }
{
    let comments = comments_behind(alloc, tokens, at)?;
    let (ty, name, number): (Named<'a>, Named<'a>, Number) = take_three(stack);
    let item = ConstSyntax {
        ty: ty.id,
        name: name.id,
        value: number.value,
    };
    push(
        stack,
        Value::Item(TopLevelSyntax::Decl(DeclSyntax::Const(Documented { comments, item }))),
    )
}

/// `(import "name" (memory))`, with its comments.
pub fn import<'a>(alloc: Global, tokens: &Tokens<'a>, at: usize, stack: &mut Stack<'a>) -> Done
    requires parts { Ready the_language value_view production.Import stack.old.items }
    requires tokens { HoldsMarks tokens.now }
    ensures { IfOk result (λ _. Made production.Import tokens.now at stack.old.items stack.new.items) }
{
    let comments = comments_at(alloc, tokens, at)?;
    let Quoted { text, span } = take(stack);
    let item = ModuleDeclSyntax::Import(ModuleImportSyntax {
        name: text,
        name_loc: span,
        type_: ImportTypeSyntax::Memory,
    });
    push(stack, Value::Decl(Documented { comments, item }))
}

/// `(@interface func (export "name") ENTRY..)`, with its comments: parameters and results in two lists.
pub fn func<'a>(alloc: Global, tokens: &Tokens<'a>, at: usize, stack: &mut Stack<'a>) -> Done
    requires parts { Ready the_language value_view production.Func stack.old.items }
    requires tokens { HoldsMarks tokens.now }
    ensures { IfOk result (λ _. Made production.Func tokens.now at stack.old.items stack.new.items) }
{
    let comments = comments_at(alloc, tokens, at)?;
    let (name, entries): (Quoted, Entries<'a>) = take_two(stack);
    let item = ModuleDeclSyntax::Func(InterfaceFuncSyntax {
        export: name.text,
        export_loc: name.span,
        params: Items::from_vec(reversed(entries.params)),
        results: Items::from_vec(reversed(entries.results)),
        noreturn: entries.noreturn,
        stored: entries.stored,
    });
    push(stack, Value::Decl(Documented { comments, item }))
}

/// `(param $name TYPE)`, with its comments.
pub fn param<'a>(alloc: Global, tokens: &Tokens<'a>, at: usize, stack: &mut Stack<'a>) -> Done
    requires parts { Ready the_language value_view production.Param stack.old.items }
    requires tokens { HoldsMarks tokens.now }
    ensures { IfOk result (λ _. Made production.Param tokens.now at stack.old.items stack.new.items) }
{
    let comments = comments_at(alloc, tokens, at)?;
    let (name, type_): (Named<'a>, TypedefSyntax<'a>) = take_two(stack);
    let item = field(name.id, type_);
    push(
        stack,
        Value::Entry(Entry::Param(Documented { comments, item })),
    )
}

/// `(result $name TYPE)`, with its comments.
pub fn result_of<'a>(alloc: Global, tokens: &Tokens<'a>, at: usize, stack: &mut Stack<'a>) -> Done
    requires parts { Ready the_language value_view production.Result stack.old.items }
    requires tokens { HoldsMarks tokens.now }
    ensures { IfOk result (λ _. Made production.Result tokens.now at stack.old.items stack.new.items) }
{
    let comments = comments_at(alloc, tokens, at)?;
    let (name, type_): (Named<'a>, TypedefSyntax<'a>) = take_two(stack);
    let item = field(name.id, type_);
    push(
        stack,
        Value::Entry(Entry::Result(Documented { comments, item })),
    )
}

/// `(@witx noreturn)`.
pub fn noreturn<'a>(stack: &mut Stack<'a>) -> Done
    ensures { IfOk result (λ _. MadeAlone production.Noreturn stack.old.items stack.new.items) }
{
    push(stack, Value::Entry(Entry::NoReturn))
}

/// `(@witx stored)`.
pub fn stored<'a>(stack: &mut Stack<'a>) -> Done
    ensures { IfOk result (λ _. MadeAlone production.Stored stack.old.items stack.new.items) }
{
    push(stack, Value::Entry(Entry::Stored))
}

/// An entry of a function, added to those behind it.
pub fn more_entries<'a>(stack: &mut Stack<'a>) -> Done
    requires { Ready the_language value_view production.MoreEntries stack.old.items }
    ensures { IfOk result (λ _. MadeAlone production.MoreEntries stack.old.items stack.new.items) }
{
    let (first, mut entries): (Entry<'a>, Entries<'a>) = take_two(stack);
    add_entry(&mut entries, first)?;
    push(stack, Value::Entries(entries))
}

/// A function has no entries.
pub fn no_entries<'a>(alloc: Global, stack: &mut Stack<'a>) -> Done
    ensures { IfOk result (λ _. MadeAlone production.NoEntries stack.old.items stack.new.items) }
{
    let entries = Entries {
        params: Vec::new(alloc),
        results: Vec::new(alloc),
        noreturn: false,
        stored: false,
    };
    push(stack, Value::Entries(entries))
}
