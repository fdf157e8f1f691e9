//! The documentation text of comments: their lines, cut at the margin that they share.

ghost use Rattle.std.specs.Prelude.{◌≡◌, map, option_map, IfOk};
ghost use Rattle.witx_comments.specs.Documentation.{documentation_of, indent_in, indent_of, doc_line, doc_lines, margin_of};

use std::alloc::Global;
use witx_base::{OutOfMemory, Text};

/// The line that a comment gives to the documentation: without trailing white space it begins with
/// a `;`, and the line is what follows. A comment without one gives none.
#[tactic(auto, using(crate::proofs::Lines::stripped))]
fn line(comment: &str) -> Option<&str>
    ensures { option_map (λ line. line.now) result ≡ doc_line comment.now }
{
    comment.trim_end().strip_prefix(';')
}

/// How many bytes of white space the line begins with.
fn indent(line: &str) -> usize
    ensures { result ≡ indent_of line.now }
{
    line.len() - line.trim_start().len()
}

/// The indent of the line that a comment gives, where that is nonempty.
fn line_indent(comment: &str) -> Option<usize>
    ensures { result ≡ indent_in comment.now }
{
    let line = line(comment)?;
    if line.is_empty() {
        None
    } else {
        Some(indent(line))
    }
}

/// The smallest indent of the nonempty lines, 0 if there is none.
fn margin(comments: &[&str]) -> usize
    ensures { result ≡ margin_of (doc_lines (map (λ comment. comment.now) comments.now)) }
{
    comments
        .iter()
        .filter_map(|comment| line_indent(comment))
        .min()
        .unwrap_or(0)
}

/// The documentation text of `comments`, each of them the text behind its `;;`.
///
/// A comment loses its trailing white space (Unicode's), and is kept if it then begins with `;`,
/// without that. From each nonempty line as many bytes are cut as the least indented one begins
/// with in white space, fewer where that falls inside a character (the law
/// `lines_are_cut_between_characters`). Each line ends in a line feed.
// Few items have comments, so this stays out of line.
#[inline(never)]
pub fn documentation(alloc: Global, comments: &[&str]) -> Result<Text, OutOfMemory>
    ensures { IfOk result (λ text. text ≡ documentation_of (map (λ comment. comment.now) comments.now)) }
{
    let margin = margin(comments);
    let mut text = String::new(alloc);
    for comment in comments {
        if let Some(line) = line(comment) {
            text.push_str(&line[line.floor_char_boundary(margin)..])?;
            text.push('\n')?;
        }
    }
    Ok(Text::from_string(text))
}
