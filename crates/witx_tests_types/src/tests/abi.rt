//! Signatures and events of functions, calls of the generator that fail, the order of operands, and functions
//! that can't be lowered.

ghost use Rattle.std.specs.Prelude.{◌≡◌, [], None, OnOk, is_some, vec_len};
ghost use Rattle.witx_machine.specs.Events.{finish};
ghost use Rattle.witx_instructions.specs.{Handed.{ended}, Told.{Counts, is_fault, told_after}};

use std::alloc::Global;
use std::rc::Rc;
use witx_abi::{
    AbiError, AbiFunc, Bindgen, BindgenError, Event, Events, FailingBindgen, Instruction, Place,
    SignatureError, Step, Trace, WasmType, lowerable,
};
use witx_ast::{Abi, InterfaceFunc, NamedType};
use witx_base::{Duplicate, Id, Items, OutOfMemory, Text};
use witx_fixtures::calls_of;
use witx_fixtures_run::func_of;

const ADDS: &str =
    r#"(module $m (@interface func (export "f") (param $x u32) (param $y u64) (result $r u32)))"#;

fn has_signature(alloc: Global, func: &InterfaceFunc) -> Result<bool, SignatureError> {
    let (params, results) = func.wasm_signature(alloc)?;
    Ok(
        params.as_slice() == [WasmType::I32, WasmType::I64].as_slice()
            && results.as_slice() == [WasmType::I32].as_slice(),
    )
}

fn are_of_caller(events: &Events) -> bool {
    events.len() == 7
        && matches!(events.get(1), Some(Event::Emit(Step::I32FromU32)))
        && matches!(events.get(5), Some(Event::Emit(Step::U32FromI32)))
}

fn are_of_callee(events: &Events) -> bool {
    events.len() == 7
        && matches!(events.get(3), Some(Event::Emit(Step::U64FromI64)))
        && matches!(events.get(6), Some(Event::Emit(Step::Return { amt: 1 })))
}

fn module(alloc: Global) -> Result<Id, AbiError> {
    match Id::new(alloc, "m") {
        Ok(name) => Ok(name),
        Err(_) => Err(AbiError::OutOfMemory),
    }
}

fn has_caller(alloc: Global, func: &InterfaceFunc) -> Result<bool, AbiError> {
    let module = module(alloc)?;
    let mut trace = Trace::new(alloc);
    let is_told = func.call_wasm(alloc, &module, &mut trace).is_ok();
    Ok(is_told && are_of_caller(trace.events()))
}

fn has_callee(alloc: Global, func: &InterfaceFunc) -> Result<bool, AbiError> {
    let module = module(alloc)?;
    let mut trace = Trace::new(alloc);
    let is_told = func.call_interface(alloc, &module, &mut trace).is_ok();
    Ok(is_told && are_of_callee(trace.events()))
}

fn is_lowered(alloc: Global, func: &InterfaceFunc) -> bool {
    lowerable(func).is_ok()
        && has_signature(alloc, func).unwrap_or(false)
        && has_caller(alloc, func).unwrap_or(false)
        && has_callee(alloc, func).unwrap_or(false)
}

#[test]
fn two_numbers_are_lowered_and_lifted(rt: HostRuntime) {
    let alloc = rt.alloc();
    assert!(rt; func_of(alloc, ADDS).is_some_and(|func| is_lowered(alloc, &func)));
}

/// A text in, a number or an error back.
const READS: &str = r#"
(typename $n u32)
(typename $e (enum $a $b))
(module $m
    (@interface func (export "f") (param $x string) (result $r (expected $n (error $e)))))"#;

/// Nothing in, two sizes or an error back.
const GIVES_TWO: &str = r#"
(typename $size u32)
(typename $e (enum $a $b))
(module $m
    (@interface func (export "f") (result $r (expected (tuple $size $size) (error $e)))))"#;

/// Texts, how many calls of the generator their caller makes, and how many their callee.
const CALLS: &[(&str, usize, usize)] = &[(READS, 15, 15), (GIVES_TWO, 18, 15)];

/// The events of the caller, or those of the callee.
fn play<B: Bindgen>(
    alloc: Global,
    func: &InterfaceFunc,
    is_caller: bool,
    bindgen: &mut B,
) -> Result<(), AbiError> {
    let module = module(alloc)?;
    if is_caller {
        func.call_wasm(alloc, &module, bindgen)
    } else {
        func.call_interface(alloc, &module, bindgen)
    }
}

/// What a generator of which this call fails was told, and how it ended.
fn played(
    alloc: Global,
    func: &InterfaceFunc,
    is_caller: bool,
    call: usize,
) -> Result<(FailingBindgen, Result<(), AbiError>), OutOfMemory> {
    let fails = calls_of(alloc, &[call as u64])?;
    let mut bindgen = FailingBindgen::new(Trace::new(alloc), fails);
    let answer = play(alloc, func, is_caller, &mut bindgen);
    Ok((bindgen, answer))
}

/// Whether the events are those before the failing call.
fn stops_at(
    alloc: Global,
    func: &InterfaceFunc,
    is_caller: bool,
    call: usize,
    whole: &Events,
) -> bool {
    played(alloc, func, is_caller, call).is_ok_and(|(bindgen, answer)| answer
        == Err(AbiError::BindgenFailed)
        && whole.as_slice().get(..call) == Some(bindgen.events().as_slice())
        && bindgen.faults() == 1)
}

fn stops_at_each(alloc: Global, func: &InterfaceFunc, is_caller: bool, whole: &Events) -> bool {
    for call in 0..whole.len() {
        if !stops_at(alloc, func, is_caller, call, whole) {
            return false;
        }
    }
    true
}

/// Whether there are so many calls, no further one fails, and each of them failing ends the events.
fn fails_at_each(alloc: Global, func: &InterfaceFunc, is_caller: bool, calls: usize) -> bool {
    played(alloc, func, is_caller, calls).is_ok_and(|(bindgen, answer)| answer.is_ok()
        && bindgen.faults() == 0
        && bindgen.events().len() == calls
        && stops_at_each(alloc, func, is_caller, bindgen.events()))
}

fn text_fails(alloc: Global, &(text, caller, callee): &(&str, usize, usize)) -> bool {
    match func_of(alloc, text) {
        Some(func) => {
            fails_at_each(alloc, &func, true, caller) && fails_at_each(alloc, &func, false, callee)
        }
        None => false,
    }
}

#[test]
fn a_failed_call_stops_the_events(rt: HostRuntime) {
    let alloc = rt.alloc();
    assert!(rt; CALLS.iter().all(|row| text_fails(alloc, row)));
}

/// WASI's function that opens a file: a handle, flags of three widths and a text in.
const OPENS: &str = r#"
(typename $errno (enum $success $badf))
(typename $fd (handle))
(typename $lookupflags (flags (@witx repr u32) $follow))
(typename $oflags (flags (@witx repr u16) $creat))
(typename $rights (flags (@witx repr u64) $read))
(typename $fdflags (flags (@witx repr u16) $append))
(module $m
    (@interface func (export "path_open")
        (param $fd $fd) (param $dirflags $lookupflags) (param $path string) (param $oflags $oflags)
        (param $base $rights) (param $inheriting $rights) (param $fdflags $fdflags)
        (result $r (expected $fd (error $errno)))))"#;

/// Texts, with the operands that each call of a generator is handed where each result gets the next number:
/// of the caller's calls, and of the callee's. A call ends with `;`.
const ORDERS: &[(&str, &str, &str)] = &[
    (
        READS,
        "; 0;;; 1 2 3;;; 5; 6;;; 7; 8; 4; 9;",
        ";; 0 1; 2;;;; 4 5;;;; 6; 7; 3; 8;",
    ),
    (
        GIVES_TWO,
        ";;;; 0 1;;; 3;; 5; 4 6; 7;;; 8; 9; 2; 10;",
        ";;; 1;; 3 4;; 2 5;;;; 6; 7; 0; 8;",
    ),
    (
        OPENS,
        "; 0;; 2;; 4;; 7;; 9;; 11;; 13;;; 1 3 5 6 8 10 12 14 15;;; 17; 18;;; 19; 20; 16; 21;",
        "; 0;; 2;;; 4 5;; 7;; 9;; 11;; 13; 1 3 6 8 10 12 14;;;; 16 17;;;; 18; 19; 15; 20;",
    ),
];

/// A generator whose operands are numbers: each result gets the next one.
#[derive(Drop)]
struct Numbered {
    /// The number of the next result.
    next: usize,
    /// The operands of each call, in order.
    handed: String,
}

impl Numbered {
    fn put(&mut self, operands: &[usize]) -> Result<(), OutOfMemory> {
        for operand in operands {
            let number = *operand;
            write!(self.handed, " {number}")?;
        }
        self.handed.push_str(";")?;
        Ok(())
    }
}

/// Pushes so many numbers, from this one on.
fn push_numbers(results: &mut Vec<usize>, first: usize, count: usize) -> Result<(), OutOfMemory>
    requires { results.old.items ≡ [] }
    ensures { OnOk result (vec_len results.new ≡ count) }
{
    for i in 0..count {
        results.push(first.wrapping_add(i))?;
    }
    Ok(())
}

impl Bindgen for Numbered {
    type Operand = usize;

    ghost told = { λ _. None };

    ghost calls = { λ _. None };

    ghost faults = { λ _. 0 };

    fn emit(
        &mut self,
        inst: &Instruction<'_>,
        operands: &mut Vec<usize>,
        results: &mut Vec<usize>,
    ) -> Result<(), BindgenError> {
        self.put(operands.as_slice())?;
        push_numbers(results, self.next, inst.results_len())?;
        self.next = self.next.wrapping_add(inst.results_len());
        Ok(())
    }

    fn allocate_space(&mut self, _slot: usize, _ty: &Rc<NamedType>) -> Result<(), BindgenError> {
        Ok(self.put(&[])?)
    }

    fn push_block(&mut self) -> Result<(), BindgenError> {
        Ok(self.put(&[])?)
    }

    fn finish_block(&mut self, operand: Option<usize>) -> Result<(), BindgenError>
        ensures event { None ≡ told_after result (finish (is_some operand)) None }
        ensures call { None ≡ told_after result (ended operand) None }
        ensures cause { Counts (is_fault result) 0 0 }
    {
        match operand {
            Some(operand) => Ok(self.put(&[operand])?),
            None => Ok(self.put(&[])?),
        }
    }
}

/// Whether the calls are handed these operands.
fn hands(alloc: Global, func: &InterfaceFunc, is_caller: bool, order: &str) -> bool {
    let mut numbered = Numbered {
        next: 0,
        handed: String::new(alloc),
    };
    let answer = play(alloc, func, is_caller, &mut numbered);
    answer.is_ok() && numbered.handed.as_str() == order
}

fn text_hands(alloc: Global, &(text, caller, callee): &(&str, &str, &str)) -> bool {
    func_of(alloc, text).is_some_and(|func| hands(alloc, &func, true, caller)
        && hands(alloc, &func, false, callee))
}

#[test]
fn operands_are_handed_in_order(rt: HostRuntime) {
    let alloc = rt.alloc();
    assert!(rt; ORDERS.iter().all(|row| text_hands(alloc, row)));
}

/// A pair is no parameter.
const TAKES_A_PAIR: &str = r#"
(typename $size u32)
(module $m
    (@interface func (export "f") (param $x u32) (param $y (tuple $size $size)) (result $r u32)))"#;

/// Whether both sides refuse the second parameter, before any event.
fn refuses_second(alloc: Global, func: &InterfaceFunc) -> Result<bool, AbiError> {
    let module = module(alloc)?;
    let refused = Err(AbiError::Unlowerable(Place::Param(1)));
    let mut trace = Trace::new(alloc);
    Ok(
        func.call_wasm(alloc, &module, &mut trace) == refused
            && func.call_interface(alloc, &module, &mut trace) == refused
            && trace.events().is_empty(),
    )
}

/// A function that has the first parameter of another as its result.
fn turned(alloc: Global, func: &InterfaceFunc) -> Result<InterfaceFunc, OutOfMemory> {
    let name = Id::new(alloc, "f")?;
    let docs = Text::new(alloc, "")?;
    let results = func.params.copy()?;
    Ok(InterfaceFunc {
        abi: Abi::Preview1,
        name,
        params: Items::new(alloc),
        results,
        noreturn: false,
        docs,
    })
}

/// Whether the function that gives the pair has no signature.
fn is_without_signature(alloc: Global, func: &InterfaceFunc) -> Result<bool, OutOfMemory> {
    let turned = turned(alloc, func)?;
    Ok(matches!(
        turned.wasm_signature(alloc),
        Err(SignatureError::Unlowerable(Place::Result(0)))
    ))
}

/// A pair is no result either.
const TAKES_ONE_PAIR: &str = r#"
(typename $size u32)
(module $m (@interface func (export "f") (param $x (tuple $size $size))))"#;

fn gives_no_pair(alloc: Global) -> Option<bool> {
    let func = func_of(alloc, TAKES_ONE_PAIR)?;
    is_without_signature(alloc, &func).ok()
}

fn takes_no_pair(alloc: Global) -> Option<bool> {
    let func = func_of(alloc, TAKES_A_PAIR)?;
    refuses_second(alloc, &func).ok()
}

#[test]
fn what_cannot_be_lowered_is_refused(rt: HostRuntime) {
    let alloc = rt.alloc();
    let takes_no_pair = takes_no_pair(alloc).unwrap_or(false);
    assert!(rt; takes_no_pair && gives_no_pair(alloc).unwrap_or(false));
}
