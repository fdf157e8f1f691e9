//! Laws of equality, as functions whose result is the comparison.

ghost use Rattle.std.specs.Prelude.{◌≡◌, ◌↔◌, IsTrue};
ghost use Rattle.witx_syntax_tree.specs.Unplaced.{unplaced, unplaced_document};
ghost use Rattle.witx_syntax_tree.specs.Views.{document_view, type_view};

use crate::tree::{IdSyntax, TopLevelDocument, TypedefSyntax};

/// Identifiers are equal exactly where their names are, wherever they stand.
pub fn identifiers_equal_by_name(a: &IdSyntax<'_>, b: &IdSyntax<'_>) -> bool
    ensures { IsTrue result ↔ (a.now.name.now ≡ b.now.name.now) }
{
    a == b
}

/// Types are equal exactly where their trees are, places left out: comments count.
pub fn types_equal_without_places<'a>(a: &TypedefSyntax<'a>, b: &TypedefSyntax<'a>) -> bool
    ensures { IsTrue result ↔ (unplaced (type_view a.now) ≡ unplaced (type_view b.now)) }
{
    a == b
}

/// Documents are equal exactly where their trees are, places left out: comments count.
pub fn documents_equal_without_places<'a>(
    a: &TopLevelDocument<'a>,
    b: &TopLevelDocument<'a>,
) -> bool
    ensures { IsTrue result ↔ (unplaced_document (document_view a.now) ≡ unplaced_document (document_view b.now)) }
{
    a == b
}
