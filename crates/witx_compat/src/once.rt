//! The conversions of mapped functions, each once.
#![tactic(auto, using(crate::proofs::OnceLaws::once_rules))]

ghost use Rattle.std.specs.{Prelude.{◌≡◌, IfOk, OnOk, map, []}, List.{flat_map}};
ghost use Rattle.witx_compat.specs.Once.{each_once, function_conversions, module_conversions};
ghost use Rattle.witx_compat.specs.Seen.{TellsPairs, with_conversion, with_conversions};
ghost use Rattle.witx_compat.specs.Views.{conversion_view, mapped_view, function_view, module_view};

use crate::conversion::{ParamPolyfill, TypePolyfill, TypePolyfills};
use crate::functions::FuncPolyfill;
use crate::modules::{ModulePolyfill, Polyfill};
use std::alloc::Global;
use std::collections::HashSet;
use witx_base::{Duplicate, Items, OutOfMemory};

impl FuncPolyfill {
    /// The conversions of the mapped parameters, then those of the mapped results, each once.
    pub fn type_polyfills(&self, alloc: Global) -> Result<TypePolyfills, OutOfMemory>
        ensures { IfOk result (λ types. map conversion_view types ≡ each_once (function_conversions (function_view self.now))) }
    {
        let mut found = Found::new(alloc);
        found.add_function(self)?;
        Ok(found.types)
    }
}

impl ModulePolyfill {
    /// The conversions of the mapped functions, in order, each once.
    pub fn type_polyfills(&self, alloc: Global) -> Result<TypePolyfills, OutOfMemory>
        ensures { IfOk result (λ types. map conversion_view types ≡ each_once (module_conversions (module_view self.now))) }
    {
        let mut found = Found::new(alloc);
        found.add_functions(self.funcs.as_slice())?;
        Ok(found.types)
    }
}

impl Polyfill {
    /// The conversions of the mapped modules, in order, each once.
    pub fn type_polyfills(&self, alloc: Global) -> Result<TypePolyfills, OutOfMemory>
        ensures { IfOk result (λ types. map conversion_view types
            ≡ each_once (flat_map module_conversions (map module_view self.now.modules))) }
    {
        let mut found = Found::new(alloc);
        found.add_modules(self.modules.as_slice())?;
        Ok(found.types)
    }
}

/// The conversions found so far, in order and as a set.
#[derive(Drop)]
struct Found {
    types: TypePolyfills,
    seen: HashSet<TypePolyfill>,
}

impl Found {
    fn new(alloc: Global) -> Found
        ensures told { TellsPairs result.seen result.types }
        ensures types { result.types ≡ [] }
    {
        Found {
            types: Items::new(alloc),
            seen: HashSet::new(alloc),
        }
    }

    fn add_modules(&mut self, modules: &[ModulePolyfill]) -> Result<(), OutOfMemory>
        requires { TellsPairs self.old.seen self.old.types }
        ensures { OnOk result (map conversion_view self.new.types
            ≡ with_conversions (map conversion_view self.old.types) (flat_map module_conversions (map module_view modules.now))) }
    {
        for one in modules {
            self.add_functions(one.funcs.as_slice())?;
        }
        Ok(())
    }

    fn add_functions(&mut self, functions: &[FuncPolyfill]) -> Result<(), OutOfMemory>
        requires { TellsPairs self.old.seen self.old.types }
        ensures told { OnOk result (TellsPairs self.new.seen self.new.types) }
        ensures types { OnOk result (map conversion_view self.new.types
            ≡ with_conversions (map conversion_view self.old.types) (flat_map function_conversions (map function_view functions.now))) }
    {
        for function in functions {
            self.add_function(function)?;
        }
        Ok(())
    }

    fn add_function(&mut self, function: &FuncPolyfill) -> Result<(), OutOfMemory>
        requires { TellsPairs self.old.seen self.old.types }
        ensures told { OnOk result (TellsPairs self.new.seen self.new.types) }
        ensures types { OnOk result (map conversion_view self.new.types
            ≡ with_conversions (map conversion_view self.old.types) (function_conversions (function_view function.now))) }
    {
        self.add_mapped(function.mapped_params.as_slice())?;
        self.add_mapped(function.mapped_results.as_slice())?;
        Ok(())
    }

    fn add_mapped(&mut self, mapped: &[ParamPolyfill]) -> Result<(), OutOfMemory>
        requires { TellsPairs self.old.seen self.old.types }
        ensures told { OnOk result (TellsPairs self.new.seen self.new.types) }
        ensures types { OnOk result (map conversion_view self.new.types
            ≡ with_conversions (map conversion_view self.old.types) (map (λ m. m.conversion) (map mapped_view mapped.now))) }
    {
        for one in mapped {
            self.add(&one.type_polyfill)?;
        }
        Ok(())
    }

    fn add(&mut self, conversion: &TypePolyfill) -> Result<(), OutOfMemory>
        requires { TellsPairs self.old.seen self.old.types }
        ensures told { OnOk result (TellsPairs self.new.seen self.new.types) }
        ensures types { OnOk result (map conversion_view self.new.types
            ≡ with_conversion (map conversion_view self.old.types) (conversion_view conversion.now)) }
    {
        if self.seen.insert(conversion.copy()?)? {
            self.types.push(conversion.copy()?)?;
        }
        Ok(())
    }
}
