//! The validator: what it keeps between declarations, and the document that it ends in.

ghost use Rattle.std.specs.Prelude.{◌≡◌, IfOk, map};
ghost use Rattle.witx_ast.specs.{Definitions.{definition_tree, DefinitionsFit}, Ordered.{IsOrdered}};
ghost use Rattle.witx_check.specs.Scopes.{TakesIn, kept_at, site_in, site_of};
ghost use Rattle.witx_check.specs.Validators.{kept_by, nothing_kept};
ghost use Rattle.witx_scope.specs.Validates.{Validates};

use crate::validate::{validate_constant, validate_module, validate_typename};
use crate::validation_scope::DocValidationScope;
use std::alloc::Global;
use std::rc::Rc;
use witx_ast::{Definitions, Document, Entries};
use witx_base::{OutOfMemory, WitxPath};
use witx_lex::LineCursor;
use witx_scope::{
    CheckError, ConstantPlaces, Names, SharedPath, Site, StepsLeft, Tables, Unfinished,
    shared_path, with_shared,
};
use witx_syntax_tree::{CommentSyntax, DeclSyntax};

/// What the checks of declarations keep: each introduced name with its place, the finished
/// typenames and modules, and the accepted constants with their places.
#[derive(Drop)]
pub struct DocValidation {
    tables: Tables,
    /// The path of the file that a scope was last at.
    path: Option<Rc<WitxPath>>,
    alloc: Global,
}

impl DocValidation {
    /// Nothing is introduced; takes no memory.
    pub fn new(alloc: Global) -> Result<DocValidation, OutOfMemory>
        ensures { IfOk result (λ v. kept_by v ≡ nothing_kept) }
    {
        Ok(DocValidation {
            tables: Tables {
                names: Names::new(alloc),
                unfinished: Unfinished::new(alloc),
                entries: Entries::new(alloc),
                constants: ConstantPlaces::new(alloc),
                steps: StepsLeft::new(),
                alloc,
            },
            path: None,
            alloc,
        })
    }

    /// Takes memory for so many names more, at once; what is kept stays.
    pub fn reserve(&mut self, additional: usize) -> Result<(), OutOfMemory>
        ensures { kept_by self.new ≡ kept_by self.old }
    {
        self.tables.names.reserve(additional)
    }

    /// The validator at one file, whose declarations have their spans in `text`.
    pub fn scope<'a>(&'a mut self, text: &'a str, path: &'a WitxPath) -> DocValidationScope<'a>
        ensures same_reference { result.doc.ghost_name ≡ self.entry.ghost_name }
        ensures doc { result.doc.now ≡ self.old }
        ensures text { result.text.now ≡ text.now }
        ensures path { result.path.now ≡ path.now }
    {
        let lines = LineCursor::new(text);
        DocValidationScope {
            doc: self,
            text,
            path,
            lines,
        }
    }

    /// Appends the definition of a declaration of the file at `path`, whose spans lie in the text of
    /// `lines`, or answers the first fault of its checks. The cursor moves on to the declaration.
    ///
    /// After a fault and after want of memory `definitions` is unchanged. A refused typename or
    /// module keeps its name introduced, a refused constant leaves nothing, and want of memory
    /// leaves at most the name.
    #[tactic(auto, using(crate::proofs::Validating::nothing_rules))]
    pub fn validate_decl(
        &mut self,
        lines: &mut LineCursor<'_>,
        path: &SharedPath<'_>,
        decl: &DeclSyntax<'_>,
        comments: &CommentSyntax<'_>,
        definitions: &mut Definitions,
    ) -> Result<(), CheckError>
        ensures validates { TakesIn self.old self.new definitions.old definitions.new
            (site_of lines.old path.now comments.now decl.now) result }
        ensures text { lines.new.text.now ≡ lines.old.text.now }
    {
        let text = lines.text;
        match decl {
            DeclSyntax::Typename(decl) => {
                let place = path.place(lines, decl.ident.span.start)?;
                let site = Site {
                    text,
                    path: path.path,
                    place,
                    comments,
                };
                validate_typename(&mut self.tables, site, decl, definitions)
            }
            DeclSyntax::Module(decl) => {
                let place = path.place(lines, decl.name.span.start)?;
                let site = Site {
                    text,
                    path: path.path,
                    place,
                    comments,
                };
                validate_module(&mut self.tables, site, decl, definitions)
            }
            DeclSyntax::Const(decl) => {
                let place = path.place(lines, decl.item.name.span.start)?;
                let site = Site {
                    text,
                    path: path.path,
                    place,
                    comments,
                };
                validate_constant(&mut self.tables, site, decl, definitions)
            }
        }
    }

    /// The document of `definitions`, which `validate_decl` has made; where they are ordered, as
    /// `validate_decl` keeps them, so is the document.
    pub fn into_document(self, definitions: Definitions) -> Document
        requires { DefinitionsFit definitions (kept_by self).entries }
        ensures definitions { result.definitions ≡ definitions }
        ensures entries { result.entries ≡ (kept_by self).entries }
        ensures ordered { IsOrdered (map definition_tree definitions) → IsOrdered (map definition_tree result.definitions) }
    {
        let tables = self.tables;
        Document::new(definitions, tables.entries)
    }
}

impl<'a> DocValidationScope<'a> {
    /// Appends the definition of a declaration, or answers the first fault of its checks.
    ///
    /// After a fault and after want of memory `definitions` is unchanged. A refused typename or
    /// module keeps its name introduced, a refused constant leaves nothing, and want of memory
    /// leaves at most the name.
    pub fn validate_decl(
        &mut self,
        decl: &DeclSyntax<'_>,
        comments: &CommentSyntax<'_>,
        definitions: &mut Definitions,
    ) -> Result<(), CheckError>
        ensures validates { Validates (kept_at self.old) (kept_at self.new) definitions.old definitions.new
            (site_in self.old comments.now decl.now) result }
        ensures same_reference { self.new.doc.ghost_name ≡ self.old.doc.ghost_name }
        ensures text { self.new.text.now ≡ self.old.text.now }
        ensures path { self.new.path.now ≡ self.old.path.now }
    {
        let alloc = self.doc.alloc;
        let shared = shared_path(&mut self.doc.path, alloc, self.path)?;
        let path = with_shared(self.path, &shared);
        self.doc
            .validate_decl(&mut self.lines, &path, decl, comments, definitions)
    }
}
