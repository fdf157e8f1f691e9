//! The entries of a function, by kind. The last item of a list stands first.

ghost use Rattle.std.specs.Prelude.{◌≡◌, reverse, IfOk};
ghost use Rattle.witx_language.specs.{Actions.{with_entry}, Entries.{entries_value, entry_view}};
ghost use Rattle.witx_syntax_tree.specs.Views.{fields_view};

use witx_base::OutOfMemory;
use witx_syntax_tree::{Documented, FieldSyntax};

/// A parameter, a result, that a function doesn't return, or that its result is stored.
#[derive(Drop)]
pub enum Entry<'a> {
    Param(Documented<'a, FieldSyntax<'a>>),
    Result(Documented<'a, FieldSyntax<'a>>),
    NoReturn,
    Stored,
}

/// The entries of a function, by kind.
#[derive(Drop)]
pub struct Entries<'a> {
    pub params: Vec<Documented<'a, FieldSyntax<'a>>>,
    pub results: Vec<Documented<'a, FieldSyntax<'a>>>,
    pub noreturn: bool,
    pub stored: bool,
}

/// Puts an entry to those of its kind.
pub fn add_entry<'a>(entries: &mut Entries<'a>, entry: Entry<'a>) -> Result<(), OutOfMemory>
    ensures { IfOk result (λ _. entries_value entries.new
        ≡ with_entry (entry_view entry.entry) (fields_view (reverse entries.old.params.items)) (fields_view (reverse entries.old.results.items)) entries.old.noreturn entries.old.stored) }
{
    match entry {
        Entry::Param(field) => {
            entries.params.push(field)?;
            Ok(())
        }
        Entry::Result(field) => {
            entries.results.push(field)?;
            Ok(())
        }
        Entry::NoReturn => {
            entries.noreturn = true;
            Ok(())
        }
        Entry::Stored => {
            entries.stored = true;
            Ok(())
        }
    }
}
