//! Documentation as comments.

ghost use Rattle.std.specs.{Prelude.{◌≡◌, ◌++◌, OnOk, string_bytes}, Str.{chars}};
ghost use Rattle.witx_header.specs.CNames.{comment, comment_character, comment_from, kept_apart};

use std::alloc::AllocError;

/// Appends documentation as a comment behind a margin; nothing where there is none.
pub fn put_comment(text: &mut String, margin: &str, docs: &str) -> Result<(), AllocError>
    ensures { OnOk result (string_bytes text.new ≡ string_bytes text.old ++ comment margin.now docs.now) }
{
    if docs.is_empty() {
        return Ok(());
    }
    write!(text, "{margin}/**\n{margin} * ")?;
    put_comment_text(text, margin, docs)?;
    write!(text, "\n{margin} */\n")
}

/// Appends the characters of a comment. Nothing in them ends it, or begins another one.
fn put_comment_text(text: &mut String, margin: &str, docs: &str) -> Result<(), AllocError>
    ensures { OnOk result (string_bytes text.new ≡ string_bytes text.old ++ comment_from margin.now 32 (chars docs.now)) }
{
    let mut before = ' ';
    for character in docs.chars() {
        put_behind(text, margin, before, character)?;
        before = character;
    }
    Ok(())
}

/// Appends a character of a comment behind another one.
fn put_behind(
    text: &mut String,
    margin: &str,
    before: char,
    character: char,
) -> Result<(), AllocError>
    ensures { OnOk result (string_bytes text.new
        ≡ string_bytes text.old ++ (kept_apart before character ++ comment_character margin.now character)) }
{
    text.push_str(between(before, character))?;
    put_character(text, margin, character)
}

fn between(before: char, now: char) -> &'static str
    ensures { result.now ≡ kept_apart before now }
{
    if (before == '*' && now == '/') || (before == '/' && now == '*') {
        return " ";
    }
    ""
}

fn put_character(text: &mut String, margin: &str, character: char) -> Result<(), AllocError>
    ensures { OnOk result (string_bytes text.new ≡ string_bytes text.old ++ comment_character margin.now character) }
{
    if character == '\n' {
        return write!(text, "\n{margin} * ");
    }
    if character < ' ' {
        return text.push(' ');
    }
    text.push(character)
}
