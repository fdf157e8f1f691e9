//! Documentation texts of comments.

use std::alloc::Global;
use witx_syntax_tree::documentation;

/// Comments, without the two signs that begin each, and their documentation.
const DOCUMENTED: &[(&[&str], &str)] = &[
    (&["; hello"], "hello\n"),
    (&["; a", ";\u{3000}b"], "a\n\u{3000}b\n"),
    (&[], ""),
    (&[" no documentation", "", "x ; y"], ""),
    (&[";", "; \t "], "\n\n"),
    (
        &[";  two", "; one", ";", ";   three"],
        " two\none\n\n  three\n",
    ),
    (&[";\u{a0}a\u{2003}", ";\u{85}b"], "a\nb\n"),
    (&[";none", "; one"], "none\n one\n"),
    (&[";; twice"], "; twice\n"),
    (&[";\u{3000}\u{3000}a", ";    b"], "\u{3000}a\nb\n"),
];

fn gives(alloc: Global, &(comments, wanted): &(&[&str], &str)) -> bool {
    documentation(alloc, comments).is_ok_and(|text| text.as_str() == wanted)
}

#[test]
fn documentation_of_comments(rt: HostRuntime) {
    let alloc = rt.alloc();
    assert!(rt; DOCUMENTED.iter().all(|row| gives(alloc, row)));
}
