//! What holds of every list, as functions that do nothing: each contract is a theorem.

ghost use Rattle.std.specs.Prelude.{List};
ghost use Rattle.witx_import_list.specs.ListTexts.{AreNames, list_text};
ghost use Rattle.witx_imports.specs.{declared.import.WasmImport.{WasmImport}, Reads.{Lists}};

/// The text of a list of imports whose names are texts, as all names of the code are, reads as these
/// imports, and so `read_imports` gives them back.
pub fn lists_read_back()
    ensures { (imports : List WasmImport) → AreNames imports → Lists (list_text imports) imports }
{}
