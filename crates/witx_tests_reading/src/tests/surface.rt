//! The library by the one crate `witx`: each stage is called and its answer looked at, and nothing else is
//! named.

use std::alloc::Global;
use witx::{
    AbiFunc, Adapted, AdaptedFunc, BuiltinType, Datatype, Document, Duplicate, Id, InterfaceFunc,
    Items, Layout, MockFs, NamedType, Place, SizeAlign, SizeAligns, Step, Text, Token,
    TopLevelSyntax, TypeRef, WasmType, WitxPath, adapt, documentation, fits_tags, layouts_text,
    lex, line_column, listing, lowerable, parse, parse_document,
};

const TEXT: &str = "\
;;; A size.
(typename $size u32)
(module $m (@interface func (export \"f\") (param $x $size) (result $r u64)))";

fn is_cut(alloc: Global) -> bool {
    let Ok(tokens) = lex(alloc, TEXT) else {
        return false;
    };
    match tokens.get(2) {
        Some(third) => {
            third.token == Token::Id("size") && line_column(TEXT, third.span.start) == (2, 11)
        }
        None => false,
    }
}

fn is_read(alloc: Global) -> bool {
    let Ok(document) = parse_document(alloc, TEXT) else {
        return false;
    };
    match document.items.get(0) {
        Some(first) => {
            matches!(&first.item, TopLevelSyntax::Decl(_))
                && documentation(alloc, first.comments.comments.as_slice()).is_ok_and(
                    |docs: Text| docs.as_str() == "A size.\n",
                )
        }
        None => false,
    }
}

fn is_size(named: &NamedType) -> bool {
    named.name.is("size")
        && matches!(&named.tref, TypeRef::Value(_))
        && matches!(&**named.type_(), Datatype::Builtin(BuiltinType::U32 { .. }))
        && named
            .mem_size_align()
            .is_ok_and(|layout: SizeAlign| layout.size == 4)
}

fn has_layouts(alloc: Global, document: &Document) -> bool {
    fits_tags(document).is_ok()
        && layouts_text(alloc, document).is_ok_and(|text: Text| text.as_str()
            == "typename size size 4 align 4\n")
}

fn is_meant(alloc: Global) -> bool {
    let Ok(document) = parse(alloc, TEXT) else {
        return false;
    };
    let Ok(name) = Id::new(alloc, "size") else {
        return false;
    };
    document.typename(&name).is_some_and(|named| is_size(named)) && has_layouts(alloc, &document)
}

fn is_lowered(alloc: Global, func: &InterfaceFunc) -> bool {
    let place: Result<(), Place> = lowerable(func);
    place.is_ok()
        && func.wasm_signature(alloc).is_ok_and(|(params, _results)| params.as_slice()
            == [WasmType::I32].as_slice())
}

fn is_adapted_func(alloc: Global, func: &AdaptedFunc) -> bool {
    is_lowered(alloc, &func.func)
        && matches!(
            func.caller.events().get(0),
            Some(witx::Event::Emit(Step::GetArg { nth: 0 }))
        )
}

fn adapted(alloc: Global) -> Option<Adapted> {
    let path = WitxPath::new(alloc, "/a").ok()?;
    let text = Text::new(alloc, TEXT).ok()?;
    let mut files = MockFs::new(alloc);
    files.insert(path.copy().ok()?, text).ok()?;
    let mut paths: Items<WitxPath> = Items::new(alloc);
    paths.push(path).ok()?;
    adapt(alloc, paths.as_slice(), &mut files).ok()
}

fn is_adapted(alloc: Global) -> bool {
    let Some(adapted) = adapted(alloc) else {
        return false;
    };
    let layouts: &SizeAligns = &adapted.layouts;
    layouts.len() == 1
        && listing(alloc, &adapted).is_ok()
        && adapted
            .functions
            .get(0)
            .is_some_and(|func| is_adapted_func(alloc, func))
}

#[test]
fn each_stage(rt: HostRuntime) {
    let alloc = rt.alloc();
    assert!(rt; is_cut(alloc) && is_read(alloc) && is_meant(alloc) && is_adapted(alloc));
}
