//! Old modules, and whole documents, in terms of new ones.
#![tactic(auto, using(crate::proofs::Gathering::module_rules))]

ghost use Rattle.std.specs.Prelude.{◌≡◌, IfOk, MatchResult, map, Ok};
ghost use Rattle.witx_ast.specs.{Items.{item_tree, funcs_of}, Functions.{func_tree}};
ghost use Rattle.witx_ast.specs.Definitions.{definition_tree, module_tree};
ghost use Rattle.witx_compat.specs.Polyfills.{all_or_refusal, function_answer, module_answer, pair_answer, polyfill_answer};
ghost use Rattle.witx_compat.specs.Gathered.{put_before};
ghost use Rattle.witx_compat.specs.Views.{function_view, module_view, IsPolyfillRefusal};

use crate::error::PolyfillError;
use crate::functions::{FuncPolyfill, FuncPolyfills};
use std::alloc::Global;
use std::rc::Rc;
use witx_ast::{Document, InterfaceFunc, Module, ModuleDefinition};
use witx_base::{Duplicate, Id, Items, NameMap};

/// A new module's name with the name of the old module that it stands in for.
pub type ModuleMap = NameMap<Id>;

/// An old module in terms of a new one.
#[derive(PartialEq, Eq, Hash, Debug, Drop)]
pub struct ModulePolyfill {
    pub new: Rc<Module>,
    pub old: Rc<Module>,
    pub funcs: FuncPolyfills,
}

/// Mapped modules, in the order of the new names.
pub type ModulePolyfills = Items<ModulePolyfill>;

impl ModulePolyfill {
    /// Maps each old function, in order, to the new module's function of its name. `FuncNotPresent`
    /// comes exactly for the first that the new module lacks, with the new module's name.
    pub fn new(
        alloc: Global,
        new: Rc<Module>,
        old: Rc<Module>,
    ) -> Result<ModulePolyfill, PolyfillError>
        ensures modules { IfOk result (λ made. (made.new.value ≡ new.value) × (made.old.value ≡ old.value)) }
        ensures answer { MatchResult result
            (λ made. module_answer (module_tree new.value) (module_tree old.value) ≡ Ok (module_view made))
            (IsPolyfillRefusal (module_answer (module_tree new.value) (module_tree old.value))) }
    {
        let funcs = all_functions(alloc, &new, old.definitions().as_slice())?;
        Ok(ModulePolyfill { new, old, funcs })
    }
}

/// Each function among items, in order.
fn all_functions(
    alloc: Global,
    new: &Module,
    items: &[ModuleDefinition],
) -> Result<FuncPolyfills, PolyfillError>
    ensures { MatchResult result
        (λ made. all_or_refusal (function_answer (module_tree new.now)) (funcs_of (map item_tree items.now)) ≡ Ok (map function_view made))
        (IsPolyfillRefusal (all_or_refusal (function_answer (module_tree new.now)) (funcs_of (map item_tree items.now)))) }
{
    let mut made = Items::new(alloc);
    for item in items {
        if let ModuleDefinition::Func(old) = item {
            put_function(&mut made, alloc, new, old)?;
        }
    }
    Ok(made)
}

/// Appends an old function with its new one.
fn put_function(
    made: &mut FuncPolyfills,
    alloc: Global,
    new: &Module,
    old: &Rc<InterfaceFunc>,
) -> Result<(), PolyfillError>
    ensures { MatchResult result
        (λ _. put_before (map function_view made.old) (function_answer (module_tree new.now) (func_tree old.now.value)) ≡ Ok (map function_view made.new))
        (IsPolyfillRefusal (function_answer (module_tree new.now) (func_tree old.now.value))) }
{
    made.push(one_function(alloc, new, old)?)?;
    Ok(())
}

/// An old function by the new module's function of its name.
fn one_function(
    alloc: Global,
    new: &Module,
    old: &Rc<InterfaceFunc>,
) -> Result<FuncPolyfill, PolyfillError>
    ensures { MatchResult result
        (λ made. function_answer (module_tree new.now) (func_tree old.now.value) ≡ Ok (function_view made))
        (IsPolyfillRefusal (function_answer (module_tree new.now) (func_tree old.now.value))) }
{
    match new.func(&old.name) {
        Some(found) => Ok(FuncPolyfill::new(alloc, found.clone()?, old.clone()?)?),
        None => Err(PolyfillError::FuncNotPresent {
            module: new.name.copy()?,
            name: old.name.copy()?,
        }),
    }
}

/// The modules of an old document in terms of those of a new one.
#[derive(PartialEq, Eq, Hash, Debug, Drop)]
pub struct Polyfill {
    pub modules: ModulePolyfills,
}

impl Polyfill {
    /// Maps the modules of `module_mapping`, in the order of the new names. Of each pair the new module
    /// is looked up first; `ModuleNotPresent` comes exactly where a document has none of that name.
    pub fn new(
        alloc: Global,
        new: &Document,
        old: &Document,
        module_mapping: &ModuleMap,
    ) -> Result<Polyfill, PolyfillError>
        ensures { let answer = polyfill_answer (map definition_tree new.now.definitions)
            (map definition_tree old.now.definitions) module_mapping.now in
            MatchResult result (λ made. answer ≡ Ok (map module_view made.modules)) (IsPolyfillRefusal answer) }
    {
        let mut modules = Items::new(alloc);
        for (new_name, old_name) in module_mapping {
            put_module(&mut modules, alloc, new, old, new_name, old_name)?;
        }
        Ok(Polyfill { modules })
    }
}

/// Appends a pair of modules.
fn put_module(
    made: &mut ModulePolyfills,
    alloc: Global,
    new: &Document,
    old: &Document,
    new_name: &Id,
    old_name: &Id,
) -> Result<(), PolyfillError>
    ensures { let answer = pair_answer (map definition_tree new.now.definitions)
        (map definition_tree old.now.definitions) (new_name.now, old_name.now) in
        MatchResult result (λ _. put_before (map module_view made.old) answer ≡ Ok (map module_view made.new)) (IsPolyfillRefusal answer) }
{
    made.push(one_module(alloc, new, old, new_name, old_name)?)?;
    Ok(())
}

/// One pair of modules.
fn one_module(
    alloc: Global,
    new: &Document,
    old: &Document,
    new_name: &Id,
    old_name: &Id,
) -> Result<ModulePolyfill, PolyfillError>
    ensures { let answer = pair_answer (map definition_tree new.now.definitions)
        (map definition_tree old.now.definitions) (new_name.now, old_name.now) in
        MatchResult result (λ made. answer ≡ Ok (module_view made)) (IsPolyfillRefusal answer) }
{
    let Some(new_module) = new.module(new_name) else {
        return Err(PolyfillError::ModuleNotPresent {
            name: new_name.copy()?,
        });
    };
    let Some(old_module) = old.module(old_name) else {
        return Err(PolyfillError::ModuleNotPresent {
            name: old_name.copy()?,
        });
    };
    let made = ModulePolyfill::new(alloc, new_module.clone()?, old_module.clone()?)?;
    Ok(made)
}
