//! Documentation in Markdown, of whatever has some.

ghost use Rattle.std.specs.Prelude.{◌≡◌, ◌⊎◌, ℕ, List, Result, Ok, Err, IfOk, IfErr};
ghost use Rattle.witx_docs.specs.declared.error.DocsError.{DocsError};

use crate::error::DocsError;
use std::alloc::Global;
use witx_base::Text;

/// What has documentation in Markdown.
pub trait Documentation {
    /// The answer where memory lasts: the text, or the refusal.
    ghost answer: { Self → Result (List ℕ) DocsError };

    /// The documentation, in Markdown: the text of `answer`, or its refusal. Want of memory may come in place of
    /// either.
    fn to_md(&self, alloc: Global) -> Result<Text, DocsError>
        ensures text { IfOk result (λ text. answer self.now ≡ Ok text) }
        ensures refusal { IfErr result (λ refused. (refused ≡ DocsError.OutOfMemory) ⊎ (answer self.now ≡ Err refused)) };
}
