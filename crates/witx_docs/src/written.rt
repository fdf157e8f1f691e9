//! Text that is written behind other text.

ghost use Rattle.std.specs.Prelude.{◌≡◌, ◌++◌, ℕ, List, IfOk, IfErr, OnOk, string_bytes};
ghost use Rattle.witx_docs.specs.{declared.error.DocsError.{DocsError}, Pieces.{line_start}, PolyfillTexts.{lines}};

use crate::error::DocsError;
use std::alloc::Global;
use witx_base::{OutOfMemory, Text};

/// What has a text of its own.
pub trait Written {
    /// The text.
    ghost written: { Self → List ℕ };

    /// Appends the text.
    fn put(&self, out: &mut String) -> Result<(), OutOfMemory>
        ensures { OnOk result (string_bytes out.new ≡ string_bytes out.old ++ written self.now) };
}

/// The text alone.
pub fn text_of<W: Written>(alloc: Global, value: &W) -> Result<Text, DocsError>
    ensures text { IfOk result (λ text. text ≡ W.written value.now) }
    ensures memory { IfErr result (λ refused. refused ≡ DocsError.OutOfMemory) }
{
    let mut out = String::new(alloc);
    value.put(&mut out)?;
    Ok(Text::from_string(out))
}

/// Appends a text on a line below, but for the first.
pub fn put_line<W: Written>(out: &mut String, first: bool, one: &W) -> Result<(), OutOfMemory>
    ensures { OnOk result (string_bytes out.new ≡ string_bytes out.old ++ (line_start first ++ W.written one.now)) }
{
    start_line(out, first)?;
    one.put(out)
}

/// Appends texts, one below the other.
#[tactic(auto, using(crate::proofs::Lines::line_rules))]
pub fn put_lines<W: Written>(out: &mut String, all: &[W]) -> Result<(), OutOfMemory>
    ensures { OnOk result (string_bytes out.new ≡ string_bytes out.old ++ lines W.written all.now) }
{
    let mut first = true;
    for one in all {
        put_line(out, first, one)?;
        first = false;
    }
    Ok(())
}

/// Begins a line below, but for the first.
pub fn start_line(out: &mut String, first: bool) -> Result<(), OutOfMemory>
    ensures { OnOk result (string_bytes out.new ≡ string_bytes out.old ++ line_start first) }
{
    if first {
        return Ok(());
    }
    out.push_str("\n")?;
    Ok(())
}
