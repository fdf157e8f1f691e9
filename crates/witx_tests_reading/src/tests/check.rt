//! Declarations of one name: the first is taken in, the second is refused with its report. And the
//! document of one declaration, by the calls that a user of the checker makes.

ghost use Rattle.std.specs.Prelude.{◌≡◌, ◌∷◌, [], IfOk, map};
ghost use Rattle.witx_ast.specs.Definitions.{definition_tree};
ghost use Rattle.witx_scope.specs.Validates.{definition_alone, site};

use std::alloc::Global;
use witx_ast::{Definitions, Document};
use witx_base::{Items, OutOfMemory, Text, WitxPath};
use witx_check::{
    CheckError, DocValidation, DocValidationScope, ValidationError, nothing_by_position,
};
use witx_fixtures::files_of;
use witx_lex::Span;
use witx_syntax::{
    BuiltinSyntax, CommentSyntax, ConstSyntax, DeclSyntax, Documented, IdSyntax, TypedefSyntax,
    TypenameSyntax,
};

const FILE: &str = "(typename $a u16) (typename $a u16)";

const REPORT: &str = r#"in "/a":
    1 | (typename $a u16) (typename $a u16)
                                     ^
Redefinition of name `a`
Originally defined at:
in "/a":
    1 | (typename $a u16) (typename $a u16)
                   ^"#;

/// The places of the two names, `$` and all.
const FIRST: Span = Span { start: 10, end: 12 };

const SECOND: Span = Span { start: 28, end: 30 };

/// The typename `a`, whose name stands at a place.
fn typename(span: Span) -> DeclSyntax<'static> {
    DeclSyntax::Typename(TypenameSyntax {
        ident: IdSyntax { name: "a", span },
        def: TypedefSyntax::Builtin(BuiltinSyntax::U16),
    })
}

/// No comments.
pub fn no_comments(alloc: Global) -> CommentSyntax<'static> {
    CommentSyntax {
        comments: Items::new(alloc),
    }
}

/// The report of a fault, over the file itself.
fn report(alloc: Global, error: &CheckError) -> Result<Text, OutOfMemory> {
    let mut files = files_of(alloc, &[("/a", FILE)])?;
    match error {
        CheckError::Validation(fault) => fault.report_with(alloc, &mut files),
        CheckError::OutOfMemory => Err(OutOfMemory),
    }
}

fn is_reported(alloc: Global, error: &CheckError) -> bool {
    match report(alloc, error) {
        Ok(text) => text.as_str() == REPORT,
        Err(_) => false,
    }
}

/// Gives a declaration to the scope; it ends here.
fn validate(
    scope: &mut DocValidationScope<'_>,
    declaration: DeclSyntax<'_>,
    comments: &CommentSyntax<'_>,
    definitions: &mut Definitions,
) -> Result<(), CheckError> {
    let taken = scope.validate_decl(&declaration, comments, definitions);
    drop(declaration);
    taken
}

/// Whether a declaration is taken in.
pub fn takes(
    scope: &mut DocValidationScope<'_>,
    declaration: DeclSyntax<'_>,
    comments: &CommentSyntax<'_>,
    definitions: &mut Definitions,
) -> bool {
    validate(scope, declaration, comments, definitions).is_ok()
}

/// Whether the first declaration is taken in, and the second is refused and takes nothing in.
fn refuses_the_second(alloc: Global) -> Result<bool, CheckError> {
    let path = WitxPath::new(alloc, "/a")?;
    let comments = no_comments(alloc);
    let mut definitions = Definitions::new(alloc);
    let mut validation = DocValidation::new(alloc)?;
    let mut scope = validation.scope(FILE, &path);
    let first = takes(&mut scope, typename(FIRST), &comments, &mut definitions);
    match validate(&mut scope, typename(SECOND), &comments, &mut definitions) {
        Ok(()) => Ok(false),
        Err(error) => Ok(first && definitions.len() == 1 && is_reported(alloc, &error)),
    }
}

#[test]
fn a_repeated_name(rt: HostRuntime) {
    assert!(rt; refuses_the_second(rt.alloc()).unwrap_or(false));
}

/// A constant `most` of the type `a`, whose name stands at the second place.
fn constant(alloc: Global, value: u64) -> DeclSyntax<'static> {
    DeclSyntax::Const(Documented {
        comments: no_comments(alloc),
        item: ConstSyntax {
            ty: IdSyntax {
                name: "a",
                span: SECOND,
            },
            name: IdSyntax {
                name: "most",
                span: SECOND,
            },
            value,
        },
    })
}

/// Whether a constant too large for its type is refused, and one that fits is taken in after it.
fn refuses_for_its_value(alloc: Global) -> Result<bool, CheckError> {
    let path = WitxPath::new(alloc, "/a")?;
    let comments = no_comments(alloc);
    let mut definitions = Definitions::new(alloc);
    let mut validation = DocValidation::new(alloc)?;
    let mut scope = validation.scope(FILE, &path);
    let first = takes(&mut scope, typename(FIRST), &comments, &mut definitions);
    let large = takes(
        &mut scope,
        constant(alloc, 65_536),
        &comments,
        &mut definitions,
    );
    let largest = takes(
        &mut scope,
        constant(alloc, 65_535),
        &comments,
        &mut definitions,
    );
    Ok(first && !large && largest && definitions.len() == 2)
}

#[test]
fn a_constant_after_a_refused_one(rt: HostRuntime) {
    assert!(rt; refuses_for_its_value(rt.alloc()).unwrap_or(false));
}

/// A typename `a` of a name that nothing introduces.
fn unknown_typename() -> DeclSyntax<'static> {
    DeclSyntax::Typename(TypenameSyntax {
        ident: IdSyntax {
            name: "a",
            span: FIRST,
        },
        def: TypedefSyntax::Ident(IdSyntax {
            name: "b",
            span: FIRST,
        }),
    })
}

/// Whether a fault is that the type `a`, named at the second place, isn't finished.
fn is_recursive(error: &CheckError) -> bool {
    match error {
        CheckError::Validation(ValidationError::Recursive { name, location }) => {
            name.as_str() == "a" && location.column == 29
        }
        _ => false,
    }
}

/// Whether a constant of a refused typename is refused as one of a type that isn't finished.
fn refuses_for_its_type(alloc: Global) -> Result<bool, CheckError> {
    let path = WitxPath::new(alloc, "/a")?;
    let comments = no_comments(alloc);
    let mut definitions = Definitions::new(alloc);
    let mut validation = DocValidation::new(alloc)?;
    let mut scope = validation.scope(FILE, &path);
    let first = takes(&mut scope, unknown_typename(), &comments, &mut definitions);
    match validate(&mut scope, constant(alloc, 1), &comments, &mut definitions) {
        Ok(()) => Ok(false),
        Err(error) => Ok(!first && is_recursive(&error)),
    }
}

#[test]
fn a_constant_of_a_refused_typename(rt: HostRuntime) {
    assert!(rt; refuses_for_its_type(rt.alloc()).unwrap_or(false));
}

/// The document of one declaration.
fn document_of_one(
    alloc: Global,
    text: &str,
    path: &WitxPath,
    decl: &DeclSyntax<'_>,
    comments: &CommentSyntax<'_>,
) -> Result<Document, CheckError>
    ensures { IfOk result (λ d. map definition_tree d.definitions
        ≡ definition_alone (site text.now path.now comments.now decl.now) ∷ []) }
{
    nothing_by_position();
    let mut definitions = Definitions::new(alloc);
    let mut validation = DocValidation::new(alloc)?;
    {
        let mut scope = validation.scope(text, path);
        scope.validate_decl(decl, comments, &mut definitions)?;
    }
    Ok(validation.into_document(definitions))
}

fn one_is_taken_in(alloc: Global) -> Result<bool, CheckError> {
    let path = WitxPath::new(alloc, "/a")?;
    let comments = no_comments(alloc);
    let document = document_of_one(alloc, FILE, &path, &typename(FIRST), &comments)?;
    Ok(document.definitions().len() == 1)
}

#[test]
fn one_declaration(rt: HostRuntime) {
    assert!(rt; one_is_taken_in(rt.alloc()).unwrap_or(false));
}
