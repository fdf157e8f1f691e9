//! The function imports of a module, with the words that their types stand for.

ghost use Rattle.std.specs.Prelude.{◌≡◌, IfOk};
ghost use Rattle.witx_import_list.specs.Functions.{wasm_type_of, wasm_types_of, with_words, left_behind, function_import_at, function_at, functions, GivesAnswer};

use std::alloc::Global;
use witx_base::{Duplicate, Items, OutOfMemory};
use witx_imports::{WasmImport, WasmImports};
use witx_machine::WasmType;
use witx_wasm::{FunctionType, Import, ImportDescription, ValueType, WasmModule};

/// How many words the imports of a list have at most, parameters and results together: more than a bundle
/// has room for.
pub const MOST_WORDS: usize = 4_194_304;

/// Why the function imports of a module are no list.
#[derive(Clone, Copy, PartialEq, Eq)]
pub enum ListError {
    /// The import with this number, from 0 among all imports, is a function with a parameter or a result
    /// that is a reference, or one whose type the module doesn't have.
    NoWords { import: usize },
    /// Up to this import there are more than `MOST_WORDS` words.
    TooManyWords,
    /// Memory was refused.
    OutOfMemory,
}

impl From<OutOfMemory> for ListError {
    ghost use Rattle.std.specs.Prelude.{◌≡◌};
    ghost use Rattle.witx_import_list.specs.declared.functions.ListError.TheVariants as errors;

    ghost from_gives = { λ _ e. e ≡ errors.OutOfMemory };

    fn from(_refused: OutOfMemory) -> ListError {
        ListError::OutOfMemory
    }
}

/// The word that a value is; none for a reference.
fn word_of(value: ValueType) -> Option<WasmType>
    ensures { result ≡ wasm_type_of value }
{
    match value {
        ValueType::I32 => Some(WasmType::I32),
        ValueType::I64 => Some(WasmType::I64),
        ValueType::F32 => Some(WasmType::F32),
        ValueType::F64 => Some(WasmType::F64),
        ValueType::Reference(_reference) => None,
    }
}

/// The words that values are, unless one is a reference.
fn words_of(alloc: Global, values: &[ValueType]) -> Result<Option<Items<WasmType>>, OutOfMemory>
    ensures { IfOk result (λ words. words ≡ wasm_types_of values.now) }
{
    let mut words = Items::new(alloc);
    for value in values {
        match word_of(*value) {
            Some(word) => words.push(word)?,
            None => return Ok(None),
        }
    }
    Ok(Some(words))
}

/// The import of a function with this type, unless a parameter or a result is a reference.
fn with_words(
    alloc: Global,
    import: &Import,
    ty: &FunctionType,
) -> Result<Option<WasmImport>, OutOfMemory>
    ensures { IfOk result (λ o. o ≡ with_words import.now ty.now) }
{
    let Some(params) = words_of(alloc, ty.params.as_slice())? else {
        return Ok(None);
    };
    let Some(results) = words_of(alloc, ty.results.as_slice())? else {
        return Ok(None);
    };
    Ok(Some(WasmImport {
        module: import.module.copy()?,
        name: import.name.copy()?,
        params,
        results,
    }))
}

/// How many words may come behind those of a type, where so many may come.
#[tactic(auto, using(crate::proofs::Walk::room_rules), unfolding(crate::specs::Functions::left_behind))]
fn left_behind(room: usize, ty: &FunctionType) -> Option<usize>
    ensures { result ≡ left_behind room ty.now }
{
    let params = ty.params.len();
    let results = ty.results.len();
    if room < params || room - params < results {
        return None;
    }
    Some(room - params - results)
}

/// The import with this number as one of a function of the type with that number, where so many words more
/// may come; and how many may then come.
fn import_at(
    alloc: Global,
    types: &[FunctionType],
    import: &Import,
    number: usize,
    ty: u32,
    room: usize,
) -> Result<(WasmImport, usize), ListError>
    ensures { GivesAnswer (λ x. x) result (function_import_at types.now import.now number ty room) }
{
    let Some(ty) = types.get(ty as usize) else {
        return Err(ListError::NoWords { import: number });
    };
    let Some(left) = left_behind(room, ty) else {
        return Err(ListError::TooManyWords);
    };
    match with_words(alloc, import, ty)? {
        Some(asked) => Ok((asked, left)),
        None => Err(ListError::NoWords { import: number }),
    }
}

/// The import with this number, if it is a function, where so many words more may come; and how many may
/// then come.
fn function_at(
    alloc: Global,
    types: &[FunctionType],
    import: &Import,
    number: usize,
    room: usize,
) -> Result<(Option<WasmImport>, usize), ListError>
    ensures { GivesAnswer (λ x. x) result (function_at types.now import.now number room) }
{
    match import.description {
        ImportDescription::Function(ty) => {
            let (asked, left) = import_at(alloc, types, import, number, ty, room)?;
            Ok((Some(asked), left))
        }
        ImportDescription::Table(_table) => Ok((None, room)),
        ImportDescription::Memory(_limits) => Ok((None, room)),
        ImportDescription::Global(_global) => Ok((None, room)),
    }
}

/// The function imports of a module, in its order, with the words that their types stand for. Imports of
/// other kinds are left out.
///
/// The first import without words is told, or the first up to which there are too many. So much is copied
/// and no more, however often one type is imported.
pub fn function_imports(alloc: Global, module: &WasmModule) -> Result<WasmImports, ListError>
    ensures { GivesAnswer (λ x. x) result (functions «module».now.types 0 MOST_WORDS «module».now.imports) }
{
    functions(alloc, module.types.as_slice(), module.imports.as_slice())
}

/// The functions among imports.
fn functions(
    alloc: Global,
    types: &[FunctionType],
    imports: &[Import],
) -> Result<WasmImports, ListError>
    ensures { GivesAnswer (λ x. x) result (functions types.now 0 MOST_WORDS imports.now) }
{
    let mut list = Items::new(alloc);
    let mut room = MOST_WORDS;
    for (number, import) in imports.iter().enumerate() {
        let (asked, left) = function_at(alloc, types, import, number, room)?;
        room = left;
        match asked {
            Some(asked) => {
                list.push(asked)?;
                continue;
            }
            None => continue,
        }
    }
    Ok(list)
}
