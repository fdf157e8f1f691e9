//! A document adapted: checks, layouts, signatures and traces.

ghost use Rattle.std.specs.Prelude.{◌≡◌, All, None, Some, IfErr, IfOk, OnOk, map};
ghost use Rattle.witx_ast.specs.{Functions.{func_tree}, Items.{item_tree}};
ghost use Rattle.witx_ast.specs.{Definitions.{definition_tree, module_tree}, Closed.{IsClosed}};
ghost use Rattle.witx_ast.specs.Ordered.{IsOrdered};
ghost use Rattle.witx_machine.specs.Lowerable.{unlowerable};
ghost use Rattle.witx_instructions.specs.Views.{called};
ghost use Rattle.witx_layout.specs.Layouts.{all_layouts};
ghost use Rattle.witx_adapt.specs.Entries.{AdaptsMore, IsFaithful, all_functions, entry_for, entry_of, module_functions, owned_functions, owned_item};
ghost use Rattle.witx_adapt.specs.Adaptable.{IsAdaptable, RefusesDocument, UnlowerableAt, first_unlowered, unlowered};

use crate::adapted::{Adapted, AdaptedFunc, AdaptedFuncs};
use crate::error::{DocumentError, RefusedDocument};
use std::alloc::Global;
use std::rc::Rc;
use witx_abi::{Place, callee_trace, caller_trace, lowerable, words_back, words_in};
use witx_ast::{Definition, Document, InterfaceFunc, Module, ModuleDefinition};
use witx_base::{Duplicate, Items, OutOfMemory};
use witx_extent::check_lowering;
use witx_layout::{SizeAligns, fits_tags, uncounted_layouts};

/// What lowering may go through, in bytes or what takes as long: a million members of tuples that functions give back, or
/// eight million names that are looked through.
const MOST: usize = 1 << 27;

/// What is made of a document.
#[derive(Drop)]
struct Parts {
    functions: AdaptedFuncs,
    layouts: SizeAligns,
}

/// An ordered document with the layouts of its typenames, and with the signature and the events of
/// both sides of each function.
///
/// Refused for the first type that doesn't fit its tag, else for the first typename that is too
/// large, else for the first function that can't be lowered. Want of memory also where lowering goes through too much,
/// since functions share long chains of names or large tuples.
pub fn adapt_document(alloc: Global, document: Document) -> Result<Adapted, RefusedDocument>
    requires ordered { IsOrdered (map definition_tree document.definitions) }
    ensures document { IfOk result (λ adapted. adapted.document ≡ document) }
    ensures layouts { IfOk result (λ adapted. adapted.layouts ≡ all_layouts (map definition_tree document.definitions)) }
    ensures functions { IfOk result (λ adapted. map entry_of adapted.functions
        ≡ map entry_for (all_functions (map definition_tree document.definitions))) }
    ensures faithful { IfOk result (λ adapted. IsClosed (map definition_tree document.definitions)
        → All IsFaithful adapted.functions) }
    ensures adaptable { OnOk result (IsAdaptable (map definition_tree document.definitions)) }
    ensures refused { IfErr result (λ e. RefusesDocument (map definition_tree document.definitions) e.error) }
    ensures handed_back { IfErr result (λ e. e.document ≡ document) }
{
    match document_parts(alloc, &document) {
        Ok(parts) => Ok(Adapted {
            functions: parts.functions,
            layouts: parts.layouts,
            document,
        }),
        Err(error) => Err(RefusedDocument { error, document }),
    }
}

/// The layouts and the functions of an ordered document.
#[tactic(auto, using(crate::proofs::Answered::answer_rules))]
fn document_parts(alloc: Global, document: &Document) -> Result<Parts, DocumentError>
    requires ordered { IsOrdered (map definition_tree document.now.definitions) }
    ensures layouts { IfOk result (λ parts. parts.layouts ≡ all_layouts (map definition_tree document.now.definitions)) }
    ensures functions { IfOk result (λ parts. map entry_of parts.functions
        ≡ map entry_for (all_functions (map definition_tree document.now.definitions))) }
    ensures faithful { IfOk result (λ parts. IsClosed (map definition_tree document.now.definitions)
        → All IsFaithful parts.functions) }
    ensures adaptable { OnOk result (IsAdaptable (map definition_tree document.now.definitions)) }
    ensures refused { IfErr result (RefusesDocument (map definition_tree document.now.definitions)) }
{
    fits_tags(document)?;
    let layouts = uncounted_layouts(alloc, document)?;
    check_lowering(alloc, document, MOST)?;
    let functions = document_functions(alloc, document.definitions().as_slice())?;
    Ok(Parts { functions, layouts })
}

/// An entry for each function of each module, in order; refused for the first that can't be lowered.
#[tactic(auto, using(crate::proofs::Gathering::function_rules))]
fn document_functions(
    alloc: Global,
    definitions: &[Definition],
) -> Result<AdaptedFuncs, DocumentError>
    ensures functions { IfOk result (λ functions. map entry_of functions
        ≡ map entry_for (all_functions (map definition_tree definitions.now))) }
    ensures lowerable { OnOk result (first_unlowered (all_functions (map definition_tree definitions.now)) ≡ None) }
    ensures unlowerable { IfErr result
        (UnlowerableAt (first_unlowered (all_functions (map definition_tree definitions.now)))) }
{
    let mut functions = Items::new(alloc);
    for definition in definitions {
        push_functions(alloc, &mut functions, definition)?;
    }
    Ok(functions)
}

fn push_functions(
    alloc: Global,
    functions: &mut AdaptedFuncs,
    definition: &Definition,
) -> Result<(), DocumentError>
    ensures functions { AdaptsMore result functions.old functions.new
        (owned_functions (definition_tree definition.now)) }
    ensures lowerable { OnOk result (first_unlowered (owned_functions (definition_tree definition.now)) ≡ None) }
    ensures unlowerable { IfErr result
        (UnlowerableAt (first_unlowered (owned_functions (definition_tree definition.now)))) }
{
    match definition {
        Definition::Module(module) => push_module(alloc, functions, module),
        Definition::Typename(_) | Definition::Constant(_) => Ok(()),
    }
}

#[tactic(auto, using(crate::proofs::Gathering::item_rules))]
fn push_module(
    alloc: Global,
    functions: &mut AdaptedFuncs,
    owner: &Rc<Module>,
) -> Result<(), DocumentError>
    ensures functions { AdaptsMore result functions.old functions.new
        (module_functions (module_tree owner.now.value)) }
    ensures lowerable { OnOk result (first_unlowered (module_functions (module_tree owner.now.value)) ≡ None) }
    ensures unlowerable { IfErr result (UnlowerableAt (first_unlowered (module_functions (module_tree owner.now.value)))) }
{
    let items = owner.definitions().as_slice();
    functions.reserve(items.len())?;
    for item in items {
        push_item(alloc, functions, owner, item)?;
    }
    Ok(())
}

fn push_item(
    alloc: Global,
    functions: &mut AdaptedFuncs,
    owner: &Rc<Module>,
    item: &ModuleDefinition,
) -> Result<(), DocumentError>
    ensures functions { AdaptsMore result functions.old functions.new
        (owned_item (module_tree owner.now.value) (item_tree item.now)) }
    ensures lowerable { OnOk result
        (first_unlowered (owned_item (module_tree owner.now.value) (item_tree item.now)) ≡ None) }
    ensures unlowerable { IfErr result
        (UnlowerableAt (first_unlowered (owned_item (module_tree owner.now.value) (item_tree item.now)))) }
{
    match item {
        ModuleDefinition::Import(_) => Ok(()),
        ModuleDefinition::Func(func) => Ok(functions.push(adapt_func(alloc, owner, func)?)?),
    }
}

/// A function with its signature and the events of both sides.
#[tactic(auto, using(crate::proofs::Lowering::lowering_rules))]
fn adapt_func(
    alloc: Global,
    owner: &Rc<Module>,
    func: &Rc<InterfaceFunc>,
) -> Result<AdaptedFunc, DocumentError>
    ensures entry { IfOk result (λ entry. entry_of entry
        ≡ entry_for (record { owner = module_tree owner.now.value; func = func_tree func.now.value })) }
    ensures lowerable { OnOk result (unlowered
        (record { owner = module_tree owner.now.value; func = func_tree func.now.value }) ≡ None) }
    ensures unlowerable { IfErr result (UnlowerableAt
        (unlowered (record { owner = module_tree owner.now.value; func = func_tree func.now.value }))) }
{
    if let Err(place) = lowerable(func) {
        return Err(refusal(owner, func, place));
    }
    Ok(lowered(alloc, owner, func)?)
}

/// The same of a function that can be lowered.
fn lowered(
    alloc: Global,
    owner: &Rc<Module>,
    func: &Rc<InterfaceFunc>,
) -> Result<AdaptedFunc, OutOfMemory>
    requires { unlowerable (called func.now.value) ≡ None }
    ensures { IfOk result (λ entry. entry_of entry
        ≡ entry_for (record { owner = module_tree owner.now.value; func = func_tree func.now.value })) }
{
    let name = &owner.name;
    let function: &InterfaceFunc = func;
    let params = words_in(alloc, function)?;
    let results = words_back(alloc, function)?;
    let caller = caller_trace(alloc, name, function, &params, &results)?;
    let callee = callee_trace(alloc, name, function)?;
    Ok(AdaptedFunc {
        module: owner.clone()?,
        func: func.clone()?,
        params,
        results,
        caller,
        callee,
    })
}

/// The refusal of a function at a place, with the names of its module and its own.
fn refusal(owner: &Module, func: &InterfaceFunc, place: Place) -> DocumentError
    ensures { UnlowerableAt (Some (record { owner = owner.now.name; function = func.now.name; place = place })) result }
{
    match (owner.name.copy(), func.name.copy()) {
        (Ok(module), Ok(function)) => DocumentError::Unlowerable {
            module,
            function,
            place,
        },
        _ => DocumentError::OutOfMemory,
    }
}
