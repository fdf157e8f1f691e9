//! A value made by hand, and its text.

use std::alloc::Global;
use witx_ast::BuiltinType;
use witx_base::Text;
use witx_bytes::Value;
use witx_invoke::value_text;

/// A value made by hand that is none of any type.
fn by_hand(alloc: Global) -> Option<Text> {
    value_text(
        alloc,
        &Value::Num(BuiltinType::U8 { lang_c_char: false }, i128::MIN),
    )
    .ok()
}

fn is_told(alloc: Global) -> bool {
    match by_hand(alloc) {
        Some(text) => text.as_str() == "-170141183460469231731687303715884105728",
        None => false,
    }
}

#[test]
fn a_value_by_hand_has_its_text(rt: HostRuntime) {
    assert!(rt; is_told(rt.alloc()));
}
