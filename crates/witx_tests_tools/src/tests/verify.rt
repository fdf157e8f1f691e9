//! Symbols, their words, and the cells and worlds of the machine that runs over them.

use std::alloc::Global;
use std::rc::Rc;
use witx_ast::{Abi, BuiltinType, InterfaceFunc, NamedType, TypeRef};
use witx_base::OutOfMemory;
use witx_fixtures_run::{func_of, typename_of};
use witx_machine::WasmType;
use witx_run::Conversion;
use witx_symbols::{
    Cells, Picked, Source, Symbol, Word, World, arguments_from, is_of, lift, list_of_words,
    list_words, lower, parts_of, same, symbol_from,
};

/// The symbol of what a name stands for, from the argument of this number.
fn argument(alloc: Global, named: &NamedType, number: usize) -> Result<Rc<Symbol>, OutOfMemory> {
    let source = Rc::new(alloc, Source::Argument(number))?;
    symbol_from(alloc, &named.tref, &source)
}

fn is_argument(symbol: &Symbol, number: usize) -> bool {
    match symbol {
        Symbol::Atom { source, ty: _ } => match &**source {
            Source::Argument(own) => *own == number,
            _ => false,
        },
        _ => false,
    }
}

/// Types, and how many parts the symbol of an argument has, where it has parts.
const SYMBOLS: &[(&str, Option<usize>)] = &[
    ("(typename $t u32)", None),
    ("(typename $t string)", None),
    ("(typename $t (record (field $a u8) (field $b u8)))", None),
    ("(typename $t (tuple u8))", Some(1)),
    ("(typename $p (tuple u8 string)) (typename $t $p)", Some(2)),
];

/// Whether it is the part at this place of argument 2.
fn is_part(symbol: &Symbol, place: usize) -> bool {
    match symbol {
        Symbol::Atom { source, ty: _ } => match &**source {
            Source::Part { whole, place: own } => {
                *own == place && matches!(**whole, Source::Argument(2))
            }
            _ => false,
        },
        _ => false,
    }
}

fn are_parts(parts: &[Rc<Symbol>]) -> bool {
    for i in 0..parts.len() {
        if !is_part(&parts[i], i) {
            return false;
        }
    }
    true
}

fn has_parts(alloc: Global, symbol: &Symbol, count: usize) -> bool {
    parts_of(alloc, count, symbol).is_ok_and(|parts| parts.is_some_and(|parts| are_parts(
        parts.as_slice(),
    )))
}

fn is_made(alloc: Global, symbol: &Symbol, count: Option<usize>) -> bool {
    match count {
        Some(count) => has_parts(alloc, symbol, count),
        None => is_argument(symbol, 2),
    }
}

fn is_split(alloc: Global, &(text, count): &(&str, Option<usize>)) -> Option<bool> {
    let named = typename_of(alloc, text)?;
    let symbol = argument(alloc, &named, 2).ok()?;
    Some(is_made(alloc, &symbol, count) && is_of(&symbol, &named.tref))
}

#[test]
fn symbols_of_types(rt: HostRuntime) {
    let alloc = rt.alloc();
    assert!(rt; SYMBOLS.iter().all(|row| is_split(alloc, row) == Some(true)));
}

const TAKES_THREE: &str = r#"
(typename $t (flags (@witx repr u8) $a $b))
(module $m (@interface func (export "f") (param $x u32) (param $s string) (param $f $t)))"#;

fn are_three(arguments: &[Rc<Symbol>]) -> bool {
    for i in 0..arguments.len() {
        if !is_argument(&arguments[i], i) {
            return false;
        }
    }
    arguments.len() == 3
}

fn arguments_are(alloc: Global, func: &InterfaceFunc) -> bool {
    arguments_from(alloc, func.params.as_slice()).is_ok_and(|arguments| are_three(
        arguments.as_slice(),
    ))
}

#[test]
fn symbols_of_arguments(rt: HostRuntime) {
    let alloc = rt.alloc();
    assert!(rt; func_of(alloc, TAKES_THREE).is_some_and(|func| arguments_are(alloc, &func)));
}

/// Types, the numbers that they are, and their words.
const NUMBERS: &[(&str, BuiltinType, WasmType)] = &[
    ("(typename $t char)", BuiltinType::Char, WasmType::I32),
    ("(typename $t s16)", BuiltinType::S16, WasmType::I32),
    ("(typename $t u64)", BuiltinType::U64, WasmType::I64),
    ("(typename $t f32)", BuiltinType::F32, WasmType::F32),
    ("(typename $t f64)", BuiltinType::F64, WasmType::F64),
];

/// A conversion isn't let go by itself.
fn let_go(conversion: Conversion<'_>) {
    match conversion {
        Conversion::Number(_)
        | Conversion::Pointer
        | Conversion::ConstPointer
        | Conversion::Handle(_)
        | Conversion::Flags(_, _)
        | Conversion::Enum(_) => {}
    }
}

fn lifts(
    conversion: &Conversion<'_>,
    word: &Word,
    symbol: &Rc<Symbol>,
) -> Result<bool, OutOfMemory> {
    Ok(lift(conversion, word)?.is_some_and(|back| same(&back, symbol)))
}

/// Whether a symbol has a word of the type by the conversion, and is had back from it.
fn has_word(
    symbol: &Rc<Symbol>,
    conversion: &Conversion<'_>,
    ty: WasmType,
) -> Result<bool, OutOfMemory> {
    let Some(word) = lower(conversion, symbol)? else {
        return Ok(false);
    };
    let lifts = lifts(conversion, &word, symbol);
    let has_type = word.has_type(ty);
    drop(word);
    Ok(lifts? && has_type)
}

/// Whether it has a word by the number's conversion, and none by another.
fn has_one_word(symbol: &Rc<Symbol>, number: BuiltinType, ty: WasmType) -> bool {
    let own = Conversion::Number(number);
    let other = Conversion::Pointer;
    let has_own = has_word(symbol, &own, ty);
    let has_other = has_word(symbol, &other, WasmType::I32);
    let_go(own);
    let_go(other);
    has_own.unwrap_or(false) && !has_other.unwrap_or(true)
}

fn is_word(alloc: Global, &(text, number, ty): &(&str, BuiltinType, WasmType)) -> Option<bool> {
    let named = typename_of(alloc, text)?;
    let symbol = argument(alloc, &named, 0).ok()?;
    Some(has_one_word(&symbol, number, ty))
}

#[test]
fn words_of_symbols(rt: HostRuntime) {
    let alloc = rt.alloc();
    assert!(rt; NUMBERS.iter().all(|row| is_word(alloc, row) == Some(true)));
}

fn is_list_of(list: &Symbol, address: &Word, length: &Word) -> Result<bool, OutOfMemory> {
    Ok(list_of_words(address, length)?.is_some_and(|back| same(&back, list)))
}

/// Whether these are the words of the list, and are none of any list the other way round.
fn are_words_of(list: &Symbol, address: &Word, length: &Word) -> Result<bool, OutOfMemory> {
    Ok(is_list_of(list, address, length)? && list_of_words(length, address)?.is_none())
}

/// Whether a list has two words, and is had back from them in their order alone.
fn has_two_words(alloc: Global, named: &NamedType) -> Result<bool, OutOfMemory> {
    let list = argument(alloc, named, 0)?;
    let Some((address, length)) = list_words(&list)? else {
        return Ok(false);
    };
    Ok(are_words_of(&list, &address, &length).unwrap_or(false))
}

#[test]
fn words_of_lists(rt: HostRuntime) {
    let alloc = rt.alloc();
    assert!(rt;
        typename_of(alloc, "(typename $t (list u8))").is_some_and(|list| has_two_words(
            alloc, &list
        ).unwrap_or(false))
    );
}

fn holds(
    cells: &Cells,
    named: &NamedType,
    word: &Word,
    symbol: &Symbol,
) -> Result<bool, OutOfMemory> {
    Ok(
        cells
            .get(named, word)?
            .is_some_and(|own| same(&own, symbol)),
    )
}

/// Whether nothing stands at the first address, and the symbol once it is put there; at the second
/// it stands.
fn are_cells(
    cells: &mut Cells,
    named: &NamedType,
    (empty, full): (&Word, &Word),
    symbol: &Rc<Symbol>,
) -> Result<bool, OutOfMemory> {
    let is_empty = cells.get(named, empty)?.is_none();
    let is_put = cells.set(named, empty, Rc::clone(symbol)?);
    Ok(
        is_empty
            && is_put
            && holds(cells, named, full, symbol)?
            && holds(cells, named, empty, symbol)?,
    )
}

/// Whether there are two addresses, of which the second is made with the symbol, and no third.
fn gives_two(
    cells: &mut Cells,
    named: &Rc<NamedType>,
    symbol: &Rc<Symbol>,
) -> Result<bool, OutOfMemory> {
    let Some(empty) = cells.give(named, None)? else {
        return Ok(false);
    };
    let Some(full) = cells.give(named, Some(Rc::clone(symbol)?))? else {
        return Ok(false);
    };
    let has_third = cells.give(named, None)?.is_some();
    Ok(!has_third && are_cells(cells, named, (&empty, &full), symbol).unwrap_or(false))
}

/// Two addresses, of which one is given empty: what is put there stands there.
fn cells_hold(alloc: Global, named: &Rc<NamedType>) -> Result<bool, OutOfMemory> {
    let symbol = argument(alloc, named, 0)?;
    let mut cells = Cells::new(alloc, 2);
    Ok(gives_two(&mut cells, named, &symbol).unwrap_or(false))
}

#[test]
fn cells_of_symbols(rt: HostRuntime) {
    let alloc = rt.alloc();
    assert!(rt;
        typename_of(alloc, "(typename $t u32)").is_some_and(|named| cells_hold(
            alloc, &named
        ).unwrap_or(false))
    );
}

/// A reply whose second case carries a number.
fn second_case(alloc: Global, named: &NamedType) -> Result<World, OutOfMemory> {
    let reply = Rc::new(alloc, Source::Reply)?;
    let payload = Rc::new(alloc, Source::Payload)?;
    let whole = symbol_from(alloc, &named.tref, &reply)?;
    let load = symbol_from(alloc, &named.tref, &payload)?;
    Ok(World {
        abi: Abi::Preview1,
        whole: Some(whole),
        error: Some(true),
        load: Some(load),
    })
}

fn is_second(picked: &Picked, load: &Symbol) -> bool {
    match &picked.payload {
        Some((own, name)) => picked.error && name.is_some() && same(own, load),
        None => false,
    }
}

fn picks_second(
    world: &World,
    ty: &TypeRef,
    whole: &Symbol,
    load: &Symbol,
) -> Result<bool, OutOfMemory> {
    Ok(
        world
            .picks(None, Some(ty), whole)?
            .is_some_and(|picked| is_second(&picked, load)),
    )
}

/// Whether the whole reply is picked apart, and its payload isn't.
fn picks_its_case(world: &World, ty: &TypeRef) -> bool {
    let (Some(whole), Some(load)) = (&world.whole, &world.load) else {
        return false;
    };
    picks_second(world, ty, whole, load).unwrap_or(false)
        && world
            .picks(None, Some(ty), load)
            .is_ok_and(|other| other.is_none())
}

/// The result of the first or the second case, with the payload.
fn result_with(
    alloc: Global,
    world: &World,
    error: bool,
    load: &Rc<Symbol>,
) -> Result<Rc<Symbol>, OutOfMemory> {
    world.result(alloc, error, Some(Rc::clone(load)?))
}

fn is_first_case(symbol: &Symbol) -> bool {
    matches!(
        symbol,
        Symbol::Made {
            case: 0,
            payload: _
        }
    )
}

fn is_bare_case(symbol: &Symbol) -> bool {
    matches!(symbol, Symbol::BareMade { case: 1 })
}

/// Whether its own case with the payload is the whole reply again, and others are made.
fn has_results(alloc: Global, world: &World) -> bool {
    let (Some(whole), Some(load)) = (&world.whole, &world.load) else {
        return false;
    };
    result_with(alloc, world, true, load).is_ok_and(|again| same(&again, whole))
        && result_with(alloc, world, false, load).is_ok_and(|made| is_first_case(&made))
        && world
            .result(alloc, true, None)
            .is_ok_and(|bare| is_bare_case(&bare))
}

/// Whether the reply has its second case, and is made again of that case and its payload alone.
fn knows_its_case(alloc: Global, named: Rc<NamedType>) -> Result<bool, OutOfMemory> {
    let world = second_case(alloc, &named)?;
    let ty = TypeRef::Name(named);
    Ok(picks_its_case(&world, &ty) && has_results(alloc, &world))
}

#[test]
fn cases_of_replies(rt: HostRuntime) {
    let alloc = rt.alloc();
    assert!(rt;
        typename_of(alloc, "(typename $t u32)").is_some_and(|named| knows_its_case(
            alloc, named
        ).unwrap_or(false))
    );
}
