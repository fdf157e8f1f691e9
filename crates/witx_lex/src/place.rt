//! Lines and columns.

ghost use Rattle.std.specs.Prelude.{◌≡◌};
ghost use Rattle.witx_lex.specs.Places.{line_number_at, column_at};

use crate::line_cursor::LineCursor;

/// The line and the column of the byte at the offset `at`, both counted from 1. The column counts
/// bytes behind the last line feed before `at`; an `at` past the end is the end.
pub fn line_column(text: &str, at: usize) -> (usize, usize)
    ensures line { result.0 ≡ line_number_at text.now at }
    ensures column { result.1 ≡ column_at text.now at }
{
    let mut cursor = LineCursor::new(text);
    cursor.line_column(at)
}
