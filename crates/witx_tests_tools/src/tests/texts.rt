//! Texts that devices fail over: usage, and documents with their pages.

/// What is told of words without a form.
pub const USAGE: &str = "\
usage: witx adapt PATH..
       witx print PATH..
       witx layouts PATH..
       witx docs PATH..
       witx polyfill NEW OLD [NEWMODULE OLDMODULE]..
       witx sample N
";

pub const LINKED: &str = "\
;;;; file /a
;;; A `gone`, an `n` and a `m::x`.
(typename $n u32)";

pub const LINKED_PAGE: &str = r##"# Types
## <a href="#n" name="n"></a> `n`: `u32`
A `gone`, an [`n`](#n) and a `m::x`.

Size: 4

Alignment: 4

# Modules
"##;

pub const LINKED_LINES: &str = "\
witx: link `gone` not found
witx: link `m::x` not found
";

pub const NUMBER: &str = "\
;;;; file /a
(typename $n u32)";

pub const NUMBER_PAGE: &str = r##"# Types
## <a href="#n" name="n"></a> `n`: `u32`

Size: 4

Alignment: 4

# Modules
"##;
