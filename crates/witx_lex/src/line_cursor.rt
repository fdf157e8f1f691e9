//! A place in a text that moves on, so that lines and columns are counted once.

ghost use Rattle.std.specs.Prelude.{◌≡◌, ◌+◌, ◌-◌, ◌≤◌, length};
ghost use Rattle.witx_lex.specs.Places.{line_number_at, column_at};

/// A text and a place in it, from which the lines and the columns of later places are counted. So
/// places that are asked for in order cost one pass over the text.
#[derive(Clone, Copy)]
pub struct LineCursor<'a> {
    /// The text.
    pub text: &'a str,
    at: usize,
    line: usize,
    column: usize,
    ghost within: { at ≤ length text.now },
    ghost line_here: { line ≡ line_number_at text.now at },
    ghost column_here: { column ≡ column_at text.now at },
}

impl<'a> LineCursor<'a> {
    /// A cursor at the start of the text.
    pub fn new(text: &'a str) -> LineCursor<'a>
        ensures { result.text.now ≡ text.now }
    {
        LineCursor {
            text,
            at: 0,
            line: 1,
            column: 1,
        }
    }

    /// The line and the column of the byte at the offset `at`, both counted from 1. The column counts
    /// bytes behind the last line feed before `at`; an `at` past the end is the end. The cursor moves
    /// to `at`, unless that stands before the cursor: then the line is counted from the start.
    pub fn line_column(&mut self, at: usize) -> (usize, usize)
        ensures line { result.0 ≡ line_number_at self.old.text.now at }
        ensures column { result.1 ≡ column_at self.old.text.now at }
        ensures text { self.new.text.now ≡ self.old.text.now }
    {
        let bytes = self.text.as_bytes();
        let end = at.min(bytes.len());
        if end < self.at {
            return onward(bytes, 0, end, 1, 1);
        }
        let (line, column) = onward(bytes, self.at, end, self.line, self.column);
        self.at = end;
        self.line = line;
        self.column = column;
        (line, column)
    }
}

/// The line and the column of the byte at `end`, from those of the byte at `at`.
fn onward(bytes: &[u8], at: usize, end: usize, line: usize, column: usize) -> (usize, usize)
    requires before { at ≤ end }
    requires within { end ≤ length bytes.now }
    requires line { line ≡ line_number_at bytes.now at }
    requires column { column ≡ column_at bytes.now at }
    ensures line { result.0 ≡ line_number_at bytes.now end }
    ensures column { result.1 ≡ column_at bytes.now end }
{
    let feeds = feeds_between(bytes, at, end);
    if feeds == 0 {
        let columns = column + (end - at);
        (line, columns)
    } else {
        let lines = line + feeds;
        (lines, column_of(bytes, end))
    }
}

/// How many line feeds stand from `at` up to `end`.
fn feeds_between(bytes: &[u8], at: usize, end: usize) -> usize
    requires before { at ≤ end }
    requires within { end ≤ length bytes.now }
    ensures lines { line_number_at bytes.now end ≡ line_number_at bytes.now at + result }
    ensures column { result ≡ 0 → column_at bytes.now end ≡ column_at bytes.now at + (end - at) }
{
    let mut feeds = 0;
    for index in at..end {
        if bytes[index] == b'\n' {
            feeds += 1;
        }
    }
    feeds
}

/// The column of the byte at `end`, counted from there back to the last line feed.
fn column_of(bytes: &[u8], end: usize) -> usize
    requires { end ≤ length bytes.now }
    ensures { result ≡ column_at bytes.now end }
{
    let mut start = end;
    while 0 < start {
        if bytes[start - 1] == b'\n' {
            return end - start + 1;
        }
        start -= 1;
    }
    end + 1
}
