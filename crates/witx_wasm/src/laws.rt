//! What holds of all bytes, as functions that do nothing: each contract is a theorem.

ghost use Rattle.std.specs.Prelude.{◌≡◌, ◌⊎◌, ℕ, List};
ghost use Rattle.witx_wasm.specs.{declared.fault.Fault.{Fault}, declared.module.WasmModule.{WasmModule}};
ghost use Rattle.witx_wasm.specs.{Modules.{IsModule}, Reading.{HasByteFault}};

/// Bytes are at most one module.
pub fn at_most_one_module()
    ensures { (bytes : List ℕ) (m n : WasmModule) → IsModule m bytes → IsModule n bytes → m ≡ n }
{}

/// Bytes that are a module have no fault.
pub fn no_fault_in_a_module()
    ensures { (bytes : List ℕ) (m : WasmModule) (fault : Fault) → IsModule m bytes → HasByteFault fault bytes → ⊥ }
{}

/// Bytes are a module or have a fault.
pub fn a_module_or_a_fault()
    ensures { (bytes : List ℕ) → ((m : WasmModule) × IsModule m bytes) ⊎ ((fault : Fault) × HasByteFault fault bytes) }
{}

/// Bytes have at most one fault: one kind at one offset.
pub fn at_most_one_module_fault()
    ensures { (bytes : List ℕ) (fault other : Fault) → HasByteFault fault bytes → HasByteFault other bytes → fault ≡ other }
{}
