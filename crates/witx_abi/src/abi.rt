//! Signatures, and the events of both sides of a call, handed to any generator.
#![tactic(auto, using(witx_instructions::proofs::Plans::play_rules, witx_instructions::proofs::Handing::hand_rules))]

ghost use Rattle.std.specs.Prelude.{◌≡◌, [], IfOk, OnOk, OnErr};
ghost use Rattle.witx_machine.specs.Functions.{Function};
ghost use Rattle.witx_machine.specs.Signature.{signature_params, signature_results, without_signature};
ghost use Rattle.witx_machine.specs.Traces.{caller_events, callee_events};
ghost use Rattle.witx_instructions.specs.{Views.{called}, Handed.{OperandsInOrder, FrontInOrder}};
ghost use Rattle.witx_instructions.specs.Told.{told_further, TellsFront, CountsPlanFault, signature_place};
ghost use Rattle.witx_abi.specs.Refusing.{RefusesUnlowered, IsUntouchedIfUnlowerable};

use crate::plans::{callee_plan, caller_plan};
use crate::signature::signature;
use std::alloc::Global;
use witx_ast::InterfaceFunc;
use witx_base::Id;
use witx_instructions::{AbiError, Bindgen, SignatureError, WasmTypes, play, words_back};
use witx_lowering::{lowerable, words_in};

/// The binary interface of a function.
pub trait AbiFunc {
    /// The function, as the machine has it.
    ghost function: { Self → Function };

    /// The types of the words that go in and of those that come back; return pointers go in last.
    ///
    /// Refused exactly for the first result, under `Preview1`, that is a list, or a record that isn't flags.
    fn wasm_signature(&self, alloc: Global) -> Result<(WasmTypes, WasmTypes), SignatureError>
        ensures params { IfOk result (λ words. words.0 ≡ signature_params (function self.now)) }
        ensures results { IfOk result (λ words. words.1 ≡ signature_results (function self.now)) }
        ensures unlowerable { signature_place result ≡ without_signature (function self.now) };

    /// Hands the generator the events of the side that calls.
    ///
    /// Each instruction is handed the operands that earlier ones left, in order. Refused as `Unlowerable` exactly
    /// where [`lowerable`](crate::lowerable) refuses, before any event. After another refusal the events so far
    /// are a front of the whole.
    fn call_wasm<B: Bindgen>(
        &self,
        alloc: Global,
        module: &Id,
        bindgen: &mut B,
    ) -> Result<(), AbiError>
        ensures events { OnOk result (B.told bindgen.new
            ≡ told_further (B.told bindgen.old) (caller_events «module».now (function self.now))) }
        ensures front { OnErr result (TellsFront (caller_events «module».now (function self.now))
            (B.told bindgen.old) (B.told bindgen.new)) }
        ensures operands { OnOk result (OperandsInOrder (caller_events «module».now (function self.now))
            (B.calls bindgen.old) (B.calls bindgen.new)) }
        ensures front_operands { OnErr result (FrontInOrder (caller_events «module».now (function self.now))
            (B.calls bindgen.old) (B.calls bindgen.new) []) }
        ensures unlowerable { RefusesUnlowered (function self.now) result }
        ensures untouched { IsUntouchedIfUnlowerable (function self.now) bindgen.old bindgen.new }
        ensures cause { CountsPlanFault B.faults result bindgen.old bindgen.new };

    /// Hands the generator the events of the side that is called; operands and refusals as those of `call_wasm`.
    fn call_interface<B: Bindgen>(
        &self,
        alloc: Global,
        module: &Id,
        bindgen: &mut B,
    ) -> Result<(), AbiError>
        ensures events { OnOk result (B.told bindgen.new
            ≡ told_further (B.told bindgen.old) (callee_events «module».now (function self.now))) }
        ensures front { OnErr result (TellsFront (callee_events «module».now (function self.now))
            (B.told bindgen.old) (B.told bindgen.new)) }
        ensures operands { OnOk result (OperandsInOrder (callee_events «module».now (function self.now))
            (B.calls bindgen.old) (B.calls bindgen.new)) }
        ensures front_operands { OnErr result (FrontInOrder (callee_events «module».now (function self.now))
            (B.calls bindgen.old) (B.calls bindgen.new) []) }
        ensures unlowerable { RefusesUnlowered (function self.now) result }
        ensures untouched { IsUntouchedIfUnlowerable (function self.now) bindgen.old bindgen.new }
        ensures cause { CountsPlanFault B.faults result bindgen.old bindgen.new };
}

impl AbiFunc for InterfaceFunc {
    ghost function = { called };

    fn wasm_signature(&self, alloc: Global) -> Result<(WasmTypes, WasmTypes), SignatureError> {
        signature(alloc, self)
    }

    fn call_wasm<B: Bindgen>(
        &self,
        alloc: Global,
        module: &Id,
        bindgen: &mut B,
    ) -> Result<(), AbiError> {
        if let Err(place) = lowerable(self) {
            return Err(AbiError::Unlowerable(place));
        }
        let params = words_in(alloc, self)?;
        let results = words_back(alloc, self)?;
        let plan = caller_plan(alloc, module, self, &params, &results)?;
        play(alloc, &plan, bindgen)
    }

    fn call_interface<B: Bindgen>(
        &self,
        alloc: Global,
        module: &Id,
        bindgen: &mut B,
    ) -> Result<(), AbiError> {
        if let Err(place) = lowerable(self) {
            return Err(AbiError::Unlowerable(place));
        }
        let plan = callee_plan(alloc, module, self)?;
        play(alloc, &plan, bindgen)
    }
}
