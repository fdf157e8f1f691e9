//! A validator at one file.

ghost use Rattle.std.specs.Prelude.{◌≡◌};

use crate::validator::DocValidation;
use witx_base::WitxPath;
use witx_lex::LineCursor;

/// A validator at one file.
pub struct DocValidationScope<'a> {
    pub(crate) doc: &'a mut DocValidation,
    pub(crate) text: &'a str,
    pub(crate) path: &'a WitxPath,
    /// Where the lines of the text are counted from.
    pub(crate) lines: LineCursor<'a>,
    ghost same_text: { lines.text.now ≡ text.now },
}

/// Lets the validator go on as the scope left it.
impl<'a> Drop for DocValidationScope<'a> {
    fn drop(self)
        ensures { self.exit.0.now ≡ self.entry.doc.now }
    {
        let DocValidationScope {
            doc: _doc,
            text: _text,
            path: _path,
            lines: _lines,
        } = self;
    }
}
