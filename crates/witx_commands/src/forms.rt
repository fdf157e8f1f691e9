//! The forms of a command line, as the usage text tells them: a line for each.

ghost use Rattle.std.specs.Prelude.{◌≡◌, IfOk};
ghost use Rattle.witx_commands.specs.Texts.{command_text, further_text, usage_text};

use std::alloc::Global;
use witx_base::{OutOfMemory, Text};

/// Which forms of words a call of the program knows.
#[derive(Clone, Copy, PartialEq, Eq, Debug)]
pub enum Forms {
    /// Those of `run`.
    Commands,
    /// Those of `run_all`: the same, and behind them those of `shim`, `verify`, `invoke` and `imports`.
    All,
}

/// The lines of the forms of `run`.
#[tactic(auto, unfolding(crate::specs::Texts::command_text))]
pub fn command_lines() -> &'static str
    ensures { result.now ≡ command_text }
{
    "\
usage: witx adapt PATH..
       witx print PATH..
       witx layouts PATH..
       witx docs PATH..
       witx polyfill NEW OLD [NEWMODULE OLDMODULE]..
       witx sample N
"
}

/// The lines of the forms that are known besides.
#[tactic(auto, unfolding(crate::specs::Texts::further_text))]
pub fn further_lines(known: Forms) -> &'static str
    ensures { result.now ≡ further_text known }
{
    match known {
        Forms::Commands => "",
        Forms::All => {
            "       witx shim NEW OLD [NEWMODULE OLDMODULE]..
       witx verify LISTING PATH..
       witx invoke MODULE FUNC VALUES PATH..
       witx imports LIST PATH..
"
        }
    }
}

/// What is told where words have none of these forms.
pub fn usage_text(alloc: Global, known: Forms) -> Result<Text, OutOfMemory>
    ensures { IfOk result (λ text. text ≡ usage_text known) }
{
    let mut text = String::new(alloc);
    text.push_str(command_lines())?;
    text.push_str(further_lines(known))?;
    Ok(Text::from_string(text))
}
