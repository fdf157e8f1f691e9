//! The Markdown of a polyfill, of its modules, functions, parameters and conversions.

ghost use Rattle.std.specs.Prelude.{◌≡◌, ◌++◌, Ok, IfOk, IfErr, OnOk, map, string_bytes};
ghost use Rattle.witx_compat.specs.Views.{conversion_view, mapped_view, function_view, module_view};
ghost use Rattle.witx_docs.specs.PolyfillTexts.{conversion_text, function_text, lines, mapped_text, module_heading, module_text, polyfill_text, true_conversions};
ghost use Rattle.witx_docs.specs.declared.error.DocsError.{DocsError};

use crate::conversion_lines::put_conversions;
use crate::documentation::Documentation;
use crate::error::DocsError;
use crate::written::{Written, put_lines, text_of};
use std::alloc::Global;
use witx_base::{OutOfMemory, Text};
use witx_compat::{FuncPolyfill, ModulePolyfill, ParamPolyfill, Polyfill, TypePolyfill};

impl Written for ModulePolyfill {
    ghost written = { λ m. module_text (module_view m) };

    fn put(&self, out: &mut String) -> Result<(), OutOfMemory> {
        put_heading(out, self.new.name.as_str(), self.old.name.as_str())?;
        put_lines(out, self.funcs.as_slice())?;
        Ok(())
    }
}

fn put_heading(out: &mut String, new: &str, old: &str) -> Result<(), OutOfMemory>
    ensures { OnOk result (string_bytes out.new ≡ string_bytes out.old ++ module_heading new.now old.now) }
{
    write!(out, "## `{new}` in terms of `{old}`\n")?;
    Ok(())
}

impl Written for Polyfill {
    ghost written = { λ p. polyfill_text (map module_view p.modules) };

    fn put(&self, out: &mut String) -> Result<(), OutOfMemory> {
        out.push_str("# Modules\n")?;
        put_lines(out, self.modules.as_slice())?;
        out.push_str("\n# Type Conversions\n")?;
        put_true_conversions(out, self)?;
        out.push_str("\n")?;
        Ok(())
    }
}

/// The conversions between types that are not alike.
fn put_true_conversions(out: &mut String, polyfill: &Polyfill) -> Result<(), OutOfMemory>
    ensures { OnOk result (string_bytes out.new ≡ string_bytes out.old
        ++ lines conversion_text (true_conversions (map module_view polyfill.now.modules))) }
{
    let conversions = polyfill.type_polyfills(*out.allocator())?;
    put_conversions(out, conversions.as_slice())
}

impl Documentation for Polyfill {
    ghost answer = { λ p. Ok (polyfill_text (map module_view p.modules)) };

    /// The modules, and the conversions between types that are not alike. Refused only for want of memory.
    fn to_md(&self, alloc: Global) -> Result<Text, DocsError>
        ensures text { IfOk result (λ text. text ≡ polyfill_text (map module_view self.now.modules)) }
        ensures memory { IfErr result (λ refused. refused ≡ DocsError.OutOfMemory) }
    {
        text_of(alloc, self)
    }
}

impl Documentation for ModulePolyfill {
    ghost answer = { λ m. Ok (module_text (module_view m)) };

    /// The two modules, and each old function. Refused only for want of memory.
    fn to_md(&self, alloc: Global) -> Result<Text, DocsError>
        ensures text { IfOk result (λ text. text ≡ module_text (module_view self.now)) }
        ensures memory { IfErr result (λ refused. refused ≡ DocsError.OutOfMemory) }
    {
        text_of(alloc, self)
    }
}

impl Documentation for FuncPolyfill {
    ghost answer = { λ f. Ok (function_text (function_view f)) };

    /// The function, in full or with each of its parts. Refused only for want of memory.
    fn to_md(&self, alloc: Global) -> Result<Text, DocsError>
        ensures text { IfOk result (λ text. text ≡ function_text (function_view self.now)) }
        ensures memory { IfErr result (λ refused. refused ≡ DocsError.OutOfMemory) }
    {
        text_of(alloc, self)
    }
}

impl Documentation for ParamPolyfill {
    ghost answer = { λ p. Ok (mapped_text (mapped_view p)) };

    /// The names, and how the types are to each other. Refused only for want of memory.
    fn to_md(&self, alloc: Global) -> Result<Text, DocsError>
        ensures text { IfOk result (λ text. text ≡ mapped_text (mapped_view self.now)) }
        ensures memory { IfErr result (λ refused. refused ≡ DocsError.OutOfMemory) }
    {
        text_of(alloc, self)
    }
}

impl Documentation for TypePolyfill {
    ghost answer = { λ c. Ok (conversion_text (conversion_view c)) };

    /// The two types, and how the one that receives values is represented by the other. Refused only for want
    /// of memory.
    fn to_md(&self, alloc: Global) -> Result<Text, DocsError>
        ensures text { IfOk result (λ text. text ≡ conversion_text (conversion_view self.now)) }
        ensures memory { IfErr result (λ refused. refused ≡ DocsError.OutOfMemory) }
    {
        text_of(alloc, self)
    }
}
