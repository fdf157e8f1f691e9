//! The fixed text of a listing, cut where the events of its functions stand.
#![tactic(auto, using(crate::proofs::PassageSteps::end_rules))]

ghost use Rattle.std.specs.Prelude.{◌≡◌, ◌++◌, ◌∷◌, [], IfOk, OnOk, codes, drop, map, string_bytes};
ghost use Rattle.witx_ast.specs.{Items.{item_tree}, Definitions.{definition_tree, module_tree}};
ghost use Rattle.witx_adapt.specs.Listings.{func_count, listed_func_line, module_line};
ghost use Rattle.witx_traces.specs.Passages.{draft_of, end_passage, passage_of, passages_of, put, put_definitions, put_func, put_items};
ghost use Rattle.witx_traces.specs.Traces.{listed, offered};

use std::alloc::Global;
use std::mem::replace;
use witx_adapt::{
    Adapted, AdaptedFunc, put_constant, put_func_line, put_import, put_module_line, put_typename,
};
use witx_ast::{Definition, InterfaceFunc, Module, ModuleDefinition};
use witx_base::{OutOfMemory, Text};
use witx_layout::SizeAlign;

/// A function, and the fixed text before the events of its caller.
#[derive(Drop)]
pub(crate) struct Passage<'a> {
    pub(crate) fixed: Text,
    pub(crate) entry: &'a AdaptedFunc,
}

/// Passages, and the fixed text behind the events of the last one.
#[derive(Drop)]
pub(crate) struct Passages<'a> {
    pub(crate) passages: Vec<Passage<'a>>,
    pub(crate) last: Text,
}

/// Passages that are being gathered, and the fixed text so far behind the last one.
#[derive(Drop)]
struct Draft<'a> {
    passages: Vec<Passage<'a>>,
    text: String,
}

/// The passages of the listing of an adapted document.
#[tactic(auto, unfolding(crate::specs::Passages::passages_of))]
pub(crate) fn listing_passages<'a>(
    alloc: Global,
    adapted: &'a Adapted,
) -> Result<Passages<'a>, OutOfMemory>
    ensures passages { IfOk result (λ p. map passage_of p.passages.items ≡ (passages_of (listed adapted.now)).done) }
    ensures last { IfOk result (λ p. p.last ≡ (passages_of (listed adapted.now)).text) }
{
    let mut draft = Draft {
        passages: Vec::new(alloc),
        text: String::new(alloc),
    };
    put_definitions(
        alloc,
        &mut draft,
        adapted.document.definitions().as_slice(),
        adapted.functions.as_slice(),
        adapted.layouts.as_slice(),
    )?;
    Ok(Passages {
        passages: draft.passages,
        last: Text::from_string(draft.text),
    })
}

#[tactic(auto, using(crate::proofs::PassageSteps::definition_rules))]
fn put_definitions<'a>(
    alloc: Global,
    draft: &mut Draft<'a>,
    definitions: &[Definition],
    functions: &'a [AdaptedFunc],
    layouts: &[SizeAlign],
) -> Result<(), OutOfMemory>
    ensures { OnOk result (draft_of draft.new ≡ put_definitions
        (map definition_tree definitions.now) (map offered functions.now) layouts.now (draft_of draft.old)) }
{
    let mut functions = functions;
    let mut layouts = layouts;
    for definition in definitions {
        match definition {
            Definition::Typename(named) => {
                layouts = put_typename(&mut draft.text, named.name.as_str(), layouts)?;
                continue;
            }
            Definition::Module(module) => {
                functions = put_module(alloc, draft, module, functions)?;
                continue;
            }
            Definition::Constant(constant) => {
                put_constant(&mut draft.text, constant)?;
                continue;
            }
        }
    }
    Ok(())
}

/// The lines and the passages of a module with the first of the functions; answers the others.
fn put_module<'a>(
    alloc: Global,
    draft: &mut Draft<'a>,
    owner: &Module,
    functions: &'a [AdaptedFunc],
) -> Result<&'a [AdaptedFunc], OutOfMemory>
    ensures put { IfOk result (λ rest. draft_of draft.new
        ≡ put_items (module_tree owner.now).items (map offered functions.now) (put (module_line owner.now.name) (draft_of draft.old))) }
    ensures rest { IfOk result (λ rest. rest.now ≡ drop (func_count (module_tree owner.now).items) functions.now) }
{
    put_module_line(&mut draft.text, owner.name.as_str())?;
    put_items(alloc, draft, owner.definitions().as_slice(), functions)
}

#[tactic(auto, using(crate::proofs::PassageSteps::item_rules))]
fn put_items<'a>(
    alloc: Global,
    draft: &mut Draft<'a>,
    items: &[ModuleDefinition],
    functions: &'a [AdaptedFunc],
) -> Result<&'a [AdaptedFunc], OutOfMemory>
    ensures put { IfOk result (λ rest. draft_of draft.new
        ≡ put_items (map item_tree items.now) (map offered functions.now) (draft_of draft.old)) }
    ensures rest { IfOk result (λ rest. rest.now ≡ drop (func_count (map item_tree items.now)) functions.now) }
{
    let mut rest = functions;
    for item in items {
        match item {
            ModuleDefinition::Import(import) => {
                put_import(&mut draft.text, import.name.as_str())?;
                continue;
            }
            ModuleDefinition::Func(func) => {
                rest = put_func(alloc, draft, func, rest)?;
                continue;
            }
        }
    }
    Ok(rest)
}

/// The passage of a function with the first of the functions; answers the others.
fn put_func<'a>(
    alloc: Global,
    draft: &mut Draft<'a>,
    func: &InterfaceFunc,
    functions: &'a [AdaptedFunc],
) -> Result<&'a [AdaptedFunc], OutOfMemory>
    ensures put { IfOk result (λ rest. draft_of draft.new
        ≡ put_func func.now.name func.now.abi (map offered functions.now) (draft_of draft.old)) }
    ensures rest { IfOk result (λ rest. rest.now ≡ drop 1 functions.now) }
{
    if functions.is_empty() {
        return Ok(functions);
    }
    put_head(&mut draft.text, func, &functions[0])?;
    end_passage(alloc, draft, &functions[0])?;
    Ok(&functions[1..])
}

/// The line of a function, and the line above the events of its caller.
fn put_head(text: &mut String, func: &InterfaceFunc, entry: &AdaptedFunc) -> Result<(), OutOfMemory>
    ensures { OnOk result (string_bytes text.new ≡ string_bytes text.old
        ++ (listed_func_line func.now.name func.now.abi entry.now.params entry.now.results ++ codes "caller\n")) }
{
    let (params, results) = (entry.params.as_slice(), entry.results.as_slice());
    put_func_line(text, func, params, results)?;
    text.push_str("caller\n")?;
    Ok(())
}

/// Here stand the events of a function.
fn end_passage<'a>(
    alloc: Global,
    draft: &mut Draft<'a>,
    entry: &'a AdaptedFunc,
) -> Result<(), OutOfMemory>
    ensures { OnOk result (draft_of draft.new ≡ end_passage (offered entry.now) (draft_of draft.old)) }
{
    let fixed = take_text(alloc, &mut draft.text);
    push_passage(&mut draft.passages, fixed, entry)
}

/// The text, which is empty then.
fn take_text(alloc: Global, text: &mut String) -> Text
    ensures taken { result ≡ string_bytes text.old }
    ensures empty { string_bytes text.new ≡ [] }
{
    Text::from_string(replace(text, String::new(alloc)))
}

fn push_passage<'a>(
    passages: &mut Vec<Passage<'a>>,
    fixed: Text,
    entry: &'a AdaptedFunc,
) -> Result<(), OutOfMemory>
    ensures { OnOk result (map passage_of passages.new.items ≡ map passage_of passages.old.items
        ++ record { fixed = fixed; function = offered entry.now } ∷ []) }
{
    Ok(passages.push(Passage { fixed, entry })?)
}
