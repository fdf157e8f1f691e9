//! The law on how a function is read.

ghost use Rattle.std.specs.Prelude.{◌≡◌};
ghost use Rattle.witx_ast.specs.{declared.function.InterfaceFunc.{InterfaceFunc}, Functions.{func_tree}};
ghost use Rattle.witx_machine.specs.Functions.{function_of};
ghost use Rattle.witx_instructions.specs.Views.{called};

/// A function as it is lowered here is the one that its tree says, of which the machine's laws speak.
pub fn functions_are_read_as_their_trees()
    ensures { (func : InterfaceFunc) → function_of (func_tree func) ≡ called func }
{}
