//! What is shown of each type of an interface.
#![tactic(auto, using(crate::proofs::DocumentParts::through_rules))]

ghost use Rattle.std.specs.Prelude.{◌≡◌, [], None, codes, map, IfOk};
ghost use Rattle.witx_ast.specs.Functions.{func_tree};
ghost use Rattle.witx_ast.specs.Views.{tree_of, datatype_tree, record_tree, variant_tree};
ghost use Rattle.witx_ast.specs.Definitions.{module_tree, definition_tree};
ghost use Rattle.witx_ast.specs.Tree as tree;
ghost use Rattle.witx_markdown.specs.Contents.{with_type, with_title, with_signature, content_with_docs};
ghost use Rattle.witx_markdown.specs.Forests.{no_nodes};
ghost use Rattle.witx_docs.specs.Parts.{type_parts, type_shown, module_parts, function_parts, inputs_of, outputs_of, document_parts};
ghost use Rattle.witx_docs.specs.LaidOut.{laid_out, number_refusal, items_laid_out, function_laid_out, document_laid_out, document_refusal};

use crate::documents::put_document;
use crate::error::DocsError;
use crate::functions::{inputs, outputs, put_function, put_module};
use crate::generate::ToMarkdown;
use crate::growing::{Parts, grow};
use crate::page::unknown_type_refusal;
use crate::parts::{put_datatype, put_handle, put_record, put_type, put_variant, quoted, shown};
use crate::place::Place;
use crate::setting::{set_signature, set_title, set_type};
use std::alloc::Global;
use std::rc::Rc;
use witx_ast::{
    Datatype, Document, HandleDatatype, InterfaceFunc, InterfaceFuncParam, Module, ModuleImport,
    NamedType, RecordDatatype, TypeRef, Variant,
};
use witx_base::{Duplicate, OutOfMemory, Text};
use witx_layout::LayoutError;
use witx_markdown::{Branch, MdTree, NamedLayouts, allocator_of, unknown_constant_type};

impl Parts for TypeRef {
    ghost nodes_of = { λ t h id. type_parts h id (tree_of t) };

    ghost numbers_of = { λ t. laid_out (tree_of t) };

    fn put_parts(&self, branch: &mut Branch, at: &Place) -> Result<(), LayoutError> {
        put_type(branch, at, NamedLayouts::LookedThrough, self)
    }
}

impl ToMarkdown for TypeRef {
    ghost shown = { λ t c. with_type c (type_shown (tree_of t)) };

    ghost parts = { λ t h id. type_parts h id (tree_of t) };

    ghost refuses = { λ t. number_refusal (laid_out (tree_of t)) };

    fn generate(&self, tree: &mut MdTree, node: usize) -> Result<(), DocsError> {
        let ty = shown(allocator_of(tree), self)?;
        grow(tree, node, self)?;
        set_type(tree.content_mut(node), ty);
        Ok(())
    }
}

impl ToMarkdown for NamedType {
    ghost shown = { λ n c. with_type c (type_shown (tree_of n.tref)) };

    ghost parts = { λ n h id. type_parts h id (tree_of n.tref) };

    ghost refuses = { λ n. number_refusal (laid_out (tree_of n.tref)) };

    fn generate(&self, tree: &mut MdTree, node: usize) -> Result<(), DocsError> {
        self.tref.generate(tree, node)
    }
}

impl Parts for Datatype {
    ghost nodes_of = { λ d h id. type_parts h id (datatype_tree d) };

    ghost numbers_of = { λ d. laid_out (datatype_tree d) };

    fn put_parts(&self, branch: &mut Branch, at: &Place) -> Result<(), LayoutError> {
        put_datatype(branch, at, NamedLayouts::LookedThrough, self)
    }
}

impl ToMarkdown for Datatype {
    ghost shown = { λ d c. with_type c (type_shown (datatype_tree d)) };

    ghost parts = { λ d h id. type_parts h id (datatype_tree d) };

    ghost refuses = { λ d. number_refusal (laid_out (datatype_tree d)) };

    fn generate(&self, tree: &mut MdTree, node: usize) -> Result<(), DocsError> {
        let ty = datatype_shown(allocator_of(tree), self)?;
        grow(tree, node, self)?;
        set_type(tree.content_mut(node), ty);
        Ok(())
    }
}

/// A type that is written out, as it is shown.
fn datatype_shown(alloc: Global, datatype: &Datatype) -> Result<Text, OutOfMemory>
    ensures { IfOk result (λ text. text ≡ type_shown (datatype_tree datatype.now)) }
{
    let value = TypeRef::Value(Rc::new(alloc, datatype.copy()?)?);
    let ty = shown(alloc, &value);
    drop(value);
    ty
}

impl Parts for RecordDatatype {
    ghost nodes_of = { λ r h id. type_parts h id (record_tree r) };

    ghost numbers_of = { λ r. laid_out (record_tree r) };

    fn put_parts(&self, branch: &mut Branch, at: &Place) -> Result<(), LayoutError> {
        put_record(branch, at, NamedLayouts::LookedThrough, self)
    }
}

impl ToMarkdown for RecordDatatype {
    ghost shown = { λ r c. c };

    ghost parts = { λ r h id. type_parts h id (record_tree r) };

    ghost refuses = { λ r. number_refusal (laid_out (record_tree r)) };

    fn generate(&self, tree: &mut MdTree, node: usize) -> Result<(), DocsError> {
        grow(tree, node, self)
    }
}

impl Parts for Variant {
    ghost nodes_of = { λ v h id. type_parts h id (variant_tree v) };

    ghost numbers_of = { λ v. laid_out (variant_tree v) };

    fn put_parts(&self, branch: &mut Branch, at: &Place) -> Result<(), LayoutError> {
        put_variant(branch, at, NamedLayouts::LookedThrough, self)
    }
}

impl ToMarkdown for Variant {
    ghost shown = { λ v c. c };

    ghost parts = { λ v h id. type_parts h id (variant_tree v) };

    ghost refuses = { λ v. number_refusal (laid_out (variant_tree v)) };

    fn generate(&self, tree: &mut MdTree, node: usize) -> Result<(), DocsError> {
        grow(tree, node, self)
    }
}

impl Parts for HandleDatatype {
    ghost nodes_of = { λ d h id. type_parts h id tree.handle };

    ghost numbers_of = { λ d. [] };

    fn put_parts(&self, branch: &mut Branch, at: &Place) -> Result<(), LayoutError> {
        put_handle(branch, at)
    }
}

impl ToMarkdown for HandleDatatype {
    ghost shown = { λ d c. c };

    ghost parts = { λ d h id. type_parts h id tree.handle };

    ghost refuses = { λ d. number_refusal [] };

    fn generate(&self, tree: &mut MdTree, node: usize) -> Result<(), DocsError> {
        grow(tree, node, self)
    }
}

impl Parts for Module {
    ghost nodes_of = { λ m h id. module_parts h (module_tree m) };

    ghost numbers_of = { λ m. items_laid_out (module_tree m).items };

    fn put_parts(&self, branch: &mut Branch, at: &Place) -> Result<(), LayoutError> {
        put_module(branch, at, NamedLayouts::LookedThrough, self)
    }
}

impl ToMarkdown for Module {
    ghost shown = { λ m c. c };

    ghost parts = { λ m h id. module_parts h (module_tree m) };

    ghost refuses = { λ m. number_refusal (items_laid_out (module_tree m).items) };

    fn generate(&self, tree: &mut MdTree, node: usize) -> Result<(), DocsError> {
        grow(tree, node, self)
    }
}

impl ToMarkdown for ModuleImport {
    ghost shown = { λ i c. with_title c (codes "Memory") };

    ghost parts = { λ i h id. no_nodes };

    ghost refuses = { λ i. None };

    fn generate(&self, tree: &mut MdTree, node: usize) -> Result<(), DocsError> {
        let title = Text::new(allocator_of(tree), "Memory")?;
        set_title(tree.content_mut(node), title);
        Ok(())
    }
}

impl Parts for InterfaceFunc {
    ghost nodes_of = { λ f h id. function_parts h id (func_tree f) };

    ghost numbers_of = { λ f. function_laid_out (func_tree f) };

    fn put_parts(&self, branch: &mut Branch, at: &Place) -> Result<(), LayoutError> {
        put_function(branch, at, NamedLayouts::LookedThrough, self)
    }
}

impl ToMarkdown for InterfaceFunc {
    ghost shown = { λ f c. with_signature c (inputs_of (func_tree f).params) (outputs_of (func_tree f).results) };

    ghost parts = { λ f h id. function_parts h id (func_tree f) };

    ghost refuses = { λ f. number_refusal (function_laid_out (func_tree f)) };

    fn generate(&self, tree: &mut MdTree, node: usize) -> Result<(), DocsError> {
        let inputs = inputs(allocator_of(tree), self.params.as_slice())?;
        let outputs = outputs(allocator_of(tree), self.results.as_slice())?;
        grow(tree, node, self)?;
        set_signature(tree.content_mut(node), inputs, outputs);
        Ok(())
    }
}

impl ToMarkdown for InterfaceFuncParam {
    ghost shown = { λ p c. content_with_docs (with_type c (type_shown (tree_of p.tref))) p.docs };

    ghost parts = { λ p h id. type_parts h id (tree_of p.tref) };

    ghost refuses = { λ p. number_refusal (laid_out (tree_of p.tref)) };

    fn generate(&self, tree: &mut MdTree, node: usize) -> Result<(), DocsError> {
        let docs = self.docs.copy()?;
        self.tref.generate(tree, node)?;
        tree.content_mut(node).set_docs(docs);
        Ok(())
    }
}

impl Parts for Document {
    ghost nodes_of = { λ d h id. document_parts h (map definition_tree d.definitions) };

    ghost numbers_of = { λ d. document_laid_out (map definition_tree d.definitions) };

    fn put_parts(&self, branch: &mut Branch, at: &Place) -> Result<(), LayoutError> {
        put_document(
            branch,
            at,
            NamedLayouts::LookedThrough,
            self.definitions().as_slice(),
        )
    }
}

impl ToMarkdown for Document {
    ghost shown = { λ d c. c };

    ghost parts = { λ d h id. document_parts h (map definition_tree d.definitions) };

    ghost refuses = { λ d. document_refusal (map definition_tree d.definitions) };

    #[tactic(auto, using(crate::proofs::RefusedPages::refusal_rules))]
    fn generate(&self, tree: &mut MdTree, node: usize) -> Result<(), DocsError> {
        if let Some(name) = unknown_constant_type(self) {
            return Err(unknown_type_refusal(name));
        }
        grow(tree, node, self)
    }
}
