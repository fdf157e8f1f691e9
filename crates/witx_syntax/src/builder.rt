//! The actions of the grammar.

ghost use Rattle.std.specs.Prelude.{◌≡◌, IfOk, map};
ghost use Rattle.witx_values.specs.{Language.{IsOnTop, Ready}, TextTokens.{HoldsMarks}};
ghost use Rattle.witx_language.specs.declared.sort.Sort as sorts;
ghost use Rattle.witx_language.specs.declared.sort.Sort.TheVariants as variants;
ghost use Rattle.witx_language.specs.{Sorts.{sort_of}, Actions.{the_language}};
ghost use Rattle.witx_language.specs.Values.{Val, a_builtin, a_type, some_items};
ghost use Rattle.witx_language.proofs.Lawful.{lawful};
ghost use Rattle.witx_syntax.specs.Stack.{Made, value_view};
ghost use Rattle.witx_syntax_tree.specs.Trees as tree;
ghost use Rattle.witx_syntax_tree.specs.Views.{noted_item};

use crate::actions::{items, parts, types};
use crate::held::Held;
use crate::leaf::leaf;
use crate::stack::push;
use crate::value::{BuiltinWord, Done, Item, Stack, Tokens, Value};
use std::alloc::Global;
use std::marker::PhantomData;
use witx_base::Items;
use witx_language::constructors::builtin;
use witx_language::{Nonterminal, ProductionName as P, TokenKind, kind_of};
use witx_lex::Token;
use witx_syntax_tree::{BuiltinSyntax, TopLevelSyntaxes};
use witx_values::{Actions, reversed};

/// Puts a builtin word on top.
fn push_word<'a>(stack: &mut Stack<'a>, builtin: BuiltinSyntax) -> Done
    ensures { IfOk result (λ _. IsOnTop value_view (a_builtin builtin) stack.old.items stack.new.items) }
{
    push(stack, Value::Builtin(BuiltinWord { builtin }))
}

/// Puts a builtin type on top.
fn push_builtin<'a>(stack: &mut Stack<'a>, word: BuiltinSyntax) -> Done
    ensures { IfOk result (λ _. IsOnTop value_view (a_type (tree.builtin word)) stack.old.items stack.new.items) }
{
    push(stack, Value::Type(builtin(word)))
}

/// Puts the value of a production, whose first token has the number `at`, in place of its parts.
///
/// No arm makes a value itself: a function pays at its entry for the size of all its locals.
fn perform<'a>(
    alloc: Global,
    production: P,
    tokens: &Tokens<'a>,
    at: usize,
    stack: &mut Stack<'a>,
) -> Done
    requires parts { Ready the_language value_view production stack.old.items }
    requires tokens { HoldsMarks tokens.now }
    ensures { IfOk result (λ _. Made production tokens.now at stack.old.items stack.new.items) }
{
    match production {
        P::NoItems => items::no_items(alloc, stack),
        P::MoreItems => items::more_items(alloc, tokens, at, stack),
        P::Use => items::use_of(stack),
        P::Typename => items::typename(stack),
        P::Module => items::module(stack),
        P::Const => items::constant(alloc, tokens, at, stack),
        P::Char => push_word(stack, BuiltinSyntax::Char),
        P::U8 => push_word(stack, BuiltinSyntax::U8 { lang_c_char: false }),
        P::U16 => push_word(stack, BuiltinSyntax::U16),
        P::U32 => push_word(
            stack,
            BuiltinSyntax::U32 {
                lang_ptr_size: false,
            },
        ),
        P::U64 => push_word(stack, BuiltinSyntax::U64),
        P::S8 => push_word(stack, BuiltinSyntax::S8),
        P::S16 => push_word(stack, BuiltinSyntax::S16),
        P::S32 => push_word(stack, BuiltinSyntax::S32),
        P::S64 => push_word(stack, BuiltinSyntax::S64),
        P::F32 => push_word(stack, BuiltinSyntax::F32),
        P::F64 => push_word(stack, BuiltinSyntax::F64),
        P::Pointer => types::pointer(alloc, stack),
        P::ConstPointer => types::const_pointer(alloc, stack),
        P::Usize => push_builtin(
            stack,
            BuiltinSyntax::U32 {
                lang_ptr_size: true,
            },
        ),
        P::Char8 => push_builtin(stack, BuiltinSyntax::U8 { lang_c_char: true }),
        P::PlainType => Ok(()),
        P::Ident => types::ident(stack),
        P::String => types::string(stack),
        P::Bool => types::boolean(stack),
        P::TaggedEnum => types::tagged_enum(stack),
        P::Enum => types::plain_enum(stack),
        P::TaggedFlags => types::tagged_flags(stack),
        P::Flags => types::plain_flags(stack),
        P::Record => types::record(stack),
        P::Tuple => types::tuple(stack),
        P::List => types::list(alloc, stack),
        P::Handle => types::handle(stack),
        P::Expected => types::expected(stack),
        P::ExpectedType => types::expected_type(alloc, stack),
        P::TaggedUnion => types::tagged_union(alloc, stack),
        P::EmptyUnion => types::empty_union(alloc, stack),
        P::Union => types::plain_union(stack),
        P::TaggedVariant => types::tagged_variant(alloc, stack),
        P::Variant => types::plain_variant(stack),
        P::BuiltinType => types::builtin_type(stack),
        P::Name => parts::name(alloc, tokens, at, stack),
        P::NoNames => parts::no_names(alloc, stack),
        P::MoreNames => parts::more_names(stack),
        P::NoTypes => parts::no_types(alloc, stack),
        P::MoreTypes => parts::more_types(stack),
        P::UnionField => parts::union_type(alloc, tokens, at, stack),
        P::FirstUnionField => parts::union_type(alloc, tokens, at, stack),
        P::NoUnionFields => parts::no_union_fields(alloc, stack),
        P::MoreUnionFields => parts::more_union_fields(stack),
        P::Field => parts::field(alloc, tokens, at, stack),
        P::NoFields => parts::no_fields(alloc, stack),
        P::MoreFields => parts::more_fields(stack),
        P::BareError => parts::bare_error(stack),
        P::Error => parts::error(alloc, stack),
        P::BareCase => parts::bare_case(alloc, tokens, at, stack),
        P::Case => parts::case(alloc, tokens, at, stack),
        P::NoCases => parts::no_cases(alloc, stack),
        P::MoreCases => parts::more_cases(stack),
        P::Import => items::import(alloc, tokens, at, stack),
        P::Func => items::func(alloc, tokens, at, stack),
        P::NoDecls => parts::no_decls(alloc, stack),
        P::MoreDecls => parts::more_decls(stack),
        P::Param => items::param(alloc, tokens, at, stack),
        P::Result => items::result_of(alloc, tokens, at, stack),
        P::Noreturn => items::noreturn(stack),
        P::Stored => items::stored(stack),
        P::NoEntries => items::no_entries(alloc, stack),
        P::MoreEntries => items::more_entries(stack),
    }
}

/// The actions of the grammar.
#[derive(Clone, Copy)]
pub struct Building<'a> {
    pub alloc: Global,
    pub texts: PhantomData<&'a str>,
}

impl<'a> Actions<'a> for Building<'a> {
    type Kind = TokenKind;

    type Nonterminal = Nonterminal;

    type Production = P;

    type Value = Value<'a>;

    ghost S = { sorts.Sort };

    ghost V = { Val };

    ghost value_of = { value_view };

    ghost language = { the_language };

    #[inline(always)]
    fn kind(&self, token: &Token<'a>) -> TokenKind {
        kind_of(token)
    }

    fn end(&self) -> TokenKind {
        TokenKind::End
    }

    fn leaf(&self, tokens: &Tokens<'a>, at: usize, stack: &mut Stack<'a>) -> Done {
        leaf(self.alloc, tokens, at, stack)
    }

    fn perform(
        &self,
        production: P,
        tokens: &Tokens<'a>,
        at: usize,
        stack: &mut Stack<'a>,
    ) -> Done {
        perform(self.alloc, production, tokens, at, stack)
    }

    ghost lawful = { lawful };
}

/// The top-level forms that the value of a text is.
pub fn items_in<'a>(value: Value<'a>) -> TopLevelSyntaxes<'a>
    requires { sort_of (value_view value) ≡ variants.Items }
    ensures { value_view value.entry ≡ some_items (map noted_item result) }
{
    let items: Vec<Item<'a>> = Held::of(value);
    Items::from_vec(reversed(items))
}
