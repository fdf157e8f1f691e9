//! Whether a mapped function made by hand is as its two functions give it.

ghost use Rattle.std.specs.Prelude.{◌≡◌, IfOk, true};
ghost use Rattle.witx_ast.specs.Functions.{func_tree};
ghost use Rattle.witx_compat.specs.{Polyfills.{function_mapped}, Views.{function_view}};

use std::alloc::Global;
use std::rc::Rc;
use witx_base::OutOfMemory;
use witx_compat::FuncPolyfill;

/// Whether the lists of a mapped function are those that its two functions give, as `shim` asks for.
#[tactic(auto, using(crate::proofs::Mapping::view_rules))]
pub fn is_mapped(alloc: Global, mapped: &FuncPolyfill) -> Result<bool, OutOfMemory>
    ensures mapped { IfOk result (λ same. same ≡ true
        → function_view mapped.now ≡ function_mapped (func_tree mapped.now.new.value) (func_tree mapped.now.old.value)) }
    ensures exact { IfOk result (λ same.
        function_view mapped.now ≡ function_mapped (func_tree mapped.now.new.value) (func_tree mapped.now.old.value) → same ≡ true) }
{
    let made = made_again(alloc, mapped)?;
    Ok(are_same(made, mapped))
}

/// The two functions, mapped to each other.
fn made_again(alloc: Global, mapped: &FuncPolyfill) -> Result<FuncPolyfill, OutOfMemory>
    ensures functions { IfOk result (λ made. (made.new.value ≡ mapped.now.new.value)
        × (made.old.value ≡ mapped.now.old.value)) }
    ensures mapped { IfOk result (λ made. function_view made
        ≡ function_mapped (func_tree mapped.now.new.value) (func_tree mapped.now.old.value)) }
{
    let new = Rc::clone(&mapped.new)?;
    let old = Rc::clone(&mapped.old)?;
    FuncPolyfill::new(alloc, new, old)
}

/// Whether what was made of the same functions says the same.
#[tactic(auto, using(crate::proofs::Mapping::same_rules))]
fn are_same(made: FuncPolyfill, mapped: &FuncPolyfill) -> bool
    requires new { made.new.value ≡ mapped.now.new.value }
    requires old { made.old.value ≡ mapped.now.old.value }
    ensures same { result ≡ true → function_view made ≡ function_view mapped.now }
    ensures exact { function_view made ≡ function_view mapped.now → result ≡ true }
{
    made == *mapped
}
