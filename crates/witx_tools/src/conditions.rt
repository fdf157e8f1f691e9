//! What answers of calls meet of the conditions of others, as functions that do nothing: each contract is a theorem
//! on the values that it is called with.

ghost use Rattle.std.specs.Prelude.{◌≡◌, ◌≤◌, [], All, None, Ok, Option, length, map, option_map, true};
ghost use Rattle.std.specs.Borrow.{Bor};
ghost use Rattle.witx_ast.specs.Closed.{IsClosed};
ghost use Rattle.witx_ast.specs.Definitions.{DefinitionsFit, definition_tree, module_tree};
ghost use Rattle.witx_ast.specs.{Functions.{func_tree}, Ordered.{IsOrdered}, Tags.{function_fits}};
ghost use Rattle.witx_machine.specs.Lowerable.{unlowerable};
ghost use Rattle.witx_instructions.specs.Views.{called, event_of};
ghost use Rattle.witx_adapt.specs.{Adaptable.{IsAdaptable}, Entries.{IsFaithful, entry_of}};
ghost use Rattle.witx_bytes.specs.{Seen.{seen}, declared.value.Value.{Value}};
ghost use Rattle.witx_compat.specs.{Polyfills.{module_answer, polyfill_answer}, Views.{module_view}};
ghost use Rattle.witx_check.specs.Validators.{nothing_kept};
ghost use Rattle.witx_commands.specs.Adapting.{HasEntries, defined};
ghost use Rattle.witx_invoke.specs.Invoking.{CanRun};
ghost use Rattle.witx_run.specs.Views.{reply_of};
ghost use Rattle.witx_scope.specs.{Declarations.{nothing_before}, Kept.{Keeps}};
ghost use Rattle.witx_traces.specs.Traces.{HasEachEntry, listed};
ghost use Rattle.witx_tools.specs.{Callable.{IsCallable, handed_of}, Calls.{GivesValues}};
ghost use Rattle.witx_tools.specs.MappedBy.{AreMapped};

use witx_adapt::{Adapted, AdaptedFunc};
use witx_ast::{Document, Module};
use witx_bytes::traces_take_writable;
use witx_compat::{ModuleMap, ModulePolyfill, Polyfill};
use witx_invoke::GivenValues;

/// A validator that keeps nothing: it keeps what no declaration has left, and no definitions fit it.
pub fn new_validator_meets_conditions()
    ensures keeps { Keeps nothing_kept nothing_before }
    ensures fits { DefinitionsFit [] nothing_kept.entries }
{}

/// An adapted document that is closed, as each answer of `adapt` is, and of `adapt_document` to what `parse` answers:
/// its definitions are ordered, it has one entry for each function, and each entry can be lowered, has at most one
/// result, fits its tags, and can be called with any values of its types.
pub fn adapted_meets_conditions(adapted: &Adapted)
    requires closed { IsClosed (defined adapted.now) }
    requires functions { HasEntries adapted.now }
    requires faithful { All IsFaithful adapted.now.functions }
    requires adaptable { IsAdaptable (defined adapted.now) }
    ensures ordered { IsOrdered (defined adapted.now) }
    ensures entries { HasEachEntry (listed adapted.now) }
    ensures lowerable { All (λ f. unlowerable (called f.func.value) ≡ None) adapted.now.functions }
    ensures single { All (λ f. length f.func.value.results ≤ 1) adapted.now.functions }
    ensures fits { All (λ f. function_fits (func_tree f.func.value) ≡ true) adapted.now.functions }
    ensures callable { All IsCallable adapted.now.functions }
{
    traces_take_writable();
}

/// Values that lines give a function that can be called: the call can be made, whichever reference holds the reply.
pub fn given_values_meet_conditions(entry: &AdaptedFunc, lines: &str, given: &GivenValues)
    requires callable { IsCallable entry.now }
    requires given { GivesValues (entry_of entry.now) lines.now (handed_of given.now) }
    ensures { (reply : Option (Bor Value)) → option_map (λ v. v.now) reply ≡ given.now.reply
        → CanRun entry.now.module.value.name (called entry.now.func.value) (map event_of entry.now.caller.events) (map event_of entry.now.callee.events)
        (map seen given.now.args) (reply_of seen reply) }
{}

/// What `Polyfill::new` answers: the lists of each mapped function are those that its two functions give.
pub fn polyfill_meets_conditions(new: &Document, old: &Document, names: &ModuleMap, made: &Polyfill)
    requires { polyfill_answer (map definition_tree new.now.definitions) (map definition_tree old.now.definitions) names.now
        ≡ Ok (map module_view made.now.modules) }
    ensures { All AreMapped made.now.modules }
{}

/// What `ModulePolyfill::new` answers: so it is of each function of the two modules.
pub fn mapped_module_meets_conditions(new: &Module, old: &Module, made: &ModulePolyfill)
    requires { module_answer (module_tree new.now) (module_tree old.now) ≡ Ok (module_view made.now) }
    ensures { AreMapped made.now }
{}
