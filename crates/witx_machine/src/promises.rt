//! The laws of the machine: what is faithful, the rows and their table, outcomes.

ghost use Rattle.std.specs.Prelude.{◌≡◌, ℕ, List, Some, IsTrue};
ghost use Rattle.witx_ast.specs.{Functions.{FunctionTree}, Tags.{function_fits}};
ghost use Rattle.witx_machine.specs.{Functions.{function_of}, Lowerable.{lowerable}};
ghost use Rattle.witx_machine.specs.{Traces.{caller_events, callee_events}, Faithful.{Faithful}};
ghost use Rattle.witx_machine.specs.{Shims.{StandsIn, pass, FaithfulThrough}, Moves.{RowsKeepToTable}};
ghost use Rattle.witx_machine.specs.Outcomes.{AtMostOneOutcome};

/// The two traces of a function that can be lowered, and whose types fit their tags, are faithful:
/// caller against callee passes any arguments and brings any reply back.
pub fn traces_are_faithful()
    ensures { (module_name : List ℕ) (func : FunctionTree) → IsTrue (lowerable (function_of func))
        → IsTrue (function_fits func) →
        Faithful module_name (function_of func) (caller_events module_name (function_of func)) (callee_events module_name (function_of func)) }
{}

/// An old function's caller against a new function's callee is faithful, where the callee gets the old
/// words in the order of its own parameters, then the return pointers, and all types are alike.
pub fn shims_are_faithful()
    ensures { (old_module new_module : List ℕ) (old new : FunctionTree) (order words : List ℕ) →
        IsTrue (lowerable (function_of old)) → IsTrue (lowerable (function_of new)) → IsTrue (function_fits old) → IsTrue (function_fits new) →
        StandsIn order (function_of old) (function_of new) → pass order (function_of old) ≡ Some words →
        FaithfulThrough old_module new_module (function_of old) (function_of new) order words
        (caller_events old_module (function_of old)) (callee_events new_module (function_of new)) }
{}

/// Each row of the machine takes as many operands off the stack, and leaves as many results there, as
/// the table of operands and results says, on both sides of a run.
pub fn rows_keep_to_the_table()
    ensures { RowsKeepToTable }
{}

/// A run has at most one outcome, by definition: it is a function of what it is given.
pub fn a_run_has_at_most_one_outcome()
    ensures { AtMostOneOutcome }
{}
