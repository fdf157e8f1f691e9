//! The first type that has more flags or cases than its tag can tell apart.
#![tactic(auto, using(crate::proofs::Misfitting::misfit_rules))]

ghost use Rattle.std.specs.Prelude.{◌≡◌, ◌∷◌, [], map};
ghost use Rattle.witx_ast.specs.Tree.{fields_of, arms_of};
ghost use Rattle.witx_ast.specs.Views.{tree_of, datatype_tree, record_tree, variant_tree, member_field, case_arm};
ghost use Rattle.witx_ast.specs.{Functions.{param_field}, Items.{item_tree}, Definitions.{definition_tree}};
ghost use Rattle.witx_ast.specs.Tags.{repr_bits};
ghost use Rattle.witx_ast.specs.Misfits.{beyond, most_cases as cases_at_most, misfits, field_misfits, arm_misfits, params_misfits, item_misfits, definition_misfits, first_misfit};
ghost use Rattle.witx_layout.specs.Refusals.{type_refusal, tag_refusal};

use witx_ast::{
    Case, Datatype, Definition, Document, IntRepr, InterfaceFuncParam, ModuleDefinition,
    RecordDatatype, RecordKind, RecordMember, TypeRef, Variant,
};

/// A type that has more flags, or more cases, than its tag can tell apart.
#[derive(Clone, Copy, PartialEq, Eq, Debug)]
pub struct TagTooNarrow {
    /// The number of the definition that has the type, from 0.
    pub definition: usize,
    /// How many flags or cases the type has.
    pub count: usize,
    /// How many it may have at most.
    pub most: u64,
}

/// The same of a type by itself.
#[derive(Clone, Copy)]
struct TooMany {
    count: usize,
    most: u64,
}

/// Whether each type of the document fits its tag: flags the bits of their representation, cases the
/// values of their tag and 2^32.
///
/// The first that doesn't is refused, in the order of the definitions, a function's parameters before
/// its results, a type before its parts. A name isn't looked through.
pub fn fits_tags(document: &Document) -> Result<(), TagTooNarrow>
    ensures { result ≡ tag_refusal (first_misfit (map definition_tree document.now.definitions)) }
{
    definitions_fit(document.definitions().as_slice())
}

#[tactic(auto, using(crate::proofs::Misfitting::document_rules))]
fn definitions_fit(definitions: &[Definition]) -> Result<(), TagTooNarrow>
    ensures { result ≡ tag_refusal (first_misfit (map definition_tree definitions.now)) }
{
    for (number, definition) in definitions.iter().enumerate() {
        if let Err(TooMany { count, most }) = definition_fits(definition) {
            return Err(TagTooNarrow {
                definition: number,
                count,
                most,
            });
        }
    }
    Ok(())
}

fn definition_fits(definition: &Definition) -> Result<(), TooMany>
    ensures { result ≡ type_refusal (definition_misfits (definition_tree definition.now)) }
{
    match definition {
        Definition::Typename(named) => type_fits(&named.tref),
        Definition::Module(module) => items_fit(module.definitions().as_slice()),
        Definition::Constant(_) => Ok(()),
    }
}

fn items_fit(items: &[ModuleDefinition]) -> Result<(), TooMany>
    ensures { result ≡ type_refusal (item_misfits (map item_tree items.now)) }
{
    for item in items {
        item_fits(item)?;
    }
    Ok(())
}

fn item_fits(item: &ModuleDefinition) -> Result<(), TooMany>
    ensures { result ≡ type_refusal (item_misfits (item_tree item.now ∷ [])) }
{
    match item {
        ModuleDefinition::Import(_) => Ok(()),
        ModuleDefinition::Func(func) => {
            params_fit(func.params.as_slice())?;
            params_fit(func.results.as_slice())
        }
    }
}

fn params_fit(params: &[InterfaceFuncParam]) -> Result<(), TooMany>
    ensures { result ≡ type_refusal (params_misfits (map param_field params.now)) }
{
    for param in params {
        type_fits(&param.tref)?;
    }
    Ok(())
}

#[cycle(tags)]
fn type_fits(tref: &TypeRef) -> Result<(), TooMany>
    ensures { result ≡ type_refusal (misfits (tree_of tref.now)) }
{
    match tref {
        TypeRef::Name(_) => Ok(()),
        TypeRef::Value(datatype) => datatype_fits(datatype),
    }
}

#[cycle(tags)]
fn datatype_fits(datatype: &Datatype) -> Result<(), TooMany>
    ensures { result ≡ type_refusal (misfits (datatype_tree datatype.now)) }
{
    match datatype {
        Datatype::Record(record) => record_fits(record),
        Datatype::Variant(variant) => variant_fits(variant),
        Datatype::List(tref) | Datatype::Pointer(tref) | Datatype::ConstPointer(tref) => type_fits(
            tref,
        ),
        Datatype::Handle(_) | Datatype::Builtin(_) => Ok(()),
    }
}

#[cycle(tags)]
fn record_fits(record_type: &RecordDatatype) -> Result<(), TooMany>
    ensures { result ≡ type_refusal (misfits (record_tree record_type.now)) }
{
    if let RecordKind::Bitflags(repr) = record_type.kind {
        fits(record_type.members.len(), bits(repr))?;
    }
    members_fit(record_type.members.as_slice())
}

#[cycle(tags)]
fn variant_fits(variant: &Variant) -> Result<(), TooMany>
    ensures { result ≡ type_refusal (misfits (variant_tree variant.now)) }
{
    fits(variant.cases.len(), most_cases(variant.tag_repr))?;
    cases_fit(variant.cases.as_slice())
}

#[cycle(tags)]
fn members_fit(members: &[RecordMember]) -> Result<(), TooMany>
    ensures { result ≡ type_refusal (field_misfits (fields_of (map member_field members.now))) }
{
    for member in members {
        type_fits(&member.tref)?;
    }
    Ok(())
}

#[cycle(tags)]
fn cases_fit(cases: &[Case]) -> Result<(), TooMany>
    ensures { result ≡ type_refusal (arm_misfits (arms_of (map case_arm cases.now))) }
{
    for case in cases {
        if let Some(tref) = &case.tref {
            type_fits(tref)?;
        }
    }
    Ok(())
}

fn fits(count: usize, most: u64) -> Result<(), TooMany>
    ensures { result ≡ type_refusal (beyond most count) }
{
    if count as u64 <= most {
        Ok(())
    } else {
        Err(TooMany { count, most })
    }
}

fn bits(repr: IntRepr) -> u64
    ensures { result ≡ repr_bits repr }
{
    match repr {
        IntRepr::U8 => 8,
        IntRepr::U16 => 16,
        IntRepr::U32 => 32,
        IntRepr::U64 => 64,
    }
}

fn most_cases(repr: IntRepr) -> u64
    ensures { result ≡ cases_at_most repr }
{
    match repr {
        IntRepr::U8 => 1 << 8,
        IntRepr::U16 => 1 << 16,
        IntRepr::U32 | IntRepr::U64 => 1 << 32,
    }
}
