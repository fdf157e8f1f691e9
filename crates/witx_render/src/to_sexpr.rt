//! What is printed as an S-expression.

ghost use Rattle.std.specs.Prelude.{◌≡◌, IfOk};
ghost use Rattle.witx_render.specs.Expressions as printed;
ghost use Rattle.witx_render.specs.ExpressionViews.{expr_view};

use crate::expression::SExpr;
use std::alloc::Global;
use witx_base::OutOfMemory;

/// What a document is printed from, item by item.
///
/// | value | expression |
/// |---|---|
/// | name; builtin | `$name`; its word, `(@witx char8)`, `(@witx usize)` |
/// | type by name; typename | `$name`; `(typename $name T)` |
/// | list, pointers, handle | `(list T)`, `(@witx pointer T)`, `(@witx const_pointer T)`, `(handle)` |
/// | tuple; flags | `(tuple T..)`; `(flags (@witx repr R) $n..)` |
/// | record | `(record (field $n T)..)` |
/// | variant | `bool`; without payloads `(enum (@witx tag R) $n..)`; `(variant (@witx tag R) (case $n T)..)` |
/// | import | `(import "n" (memory))` |
/// | function | `(@interface func (export "n") (param $n T).. (result $n T)..)`, then `(@witx noreturn)` if it never returns, then `(@witx stored)` if its result is stored whole |
/// | module | `(module $n ..)`, imports, then functions |
///
/// Items that have documentation carry it before their expression.
pub trait ToSExpr {
    /// The expression that a value is printed as.
    ghost expression: { Self → printed.SExpr };

    /// The expression of the value, or the want of memory.
    fn to_sexpr(&self, alloc: Global) -> Result<SExpr, OutOfMemory>
        ensures { IfOk result (λ e. expr_view e ≡ expression self.now) };
}
