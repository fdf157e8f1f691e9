//! Where a declaration stands.

use crate::place::SharedPlace;
use witx_base::WitxPath;
use witx_syntax_tree::CommentSyntax;

/// Where a declaration stands: the text and the path of its file, the place of its name, and the
/// comments before it.
#[derive(Drop)]
pub struct Site<'a> {
    pub text: &'a str,
    pub path: &'a WitxPath,
    pub place: SharedPlace,
    pub comments: &'a CommentSyntax<'a>,
}
