//! Documents that are printed and parsed in one call: those that read back as equal documents, and those
//! that don't, since they aren't plain.

use std::alloc::Global;
use witx::{Document, parse};
use witx_fixtures::{Pieces, built_text};
use witx_read_back::print_and_parse;
use witx_render::document_text;

/// An interface of a real size, as it is printed.
const SYSTEM: &str = "\
(typename $size u64)
(typename $instant s64)
(typename $code (enum (@witx tag u16) $done $absent $busy $full $denied $broken $again $ended $unknown))
(typename $stream (handle))
(typename $folder (handle))
(typename $link (handle))
(typename $rights (flags (@witx repr u64) $read $write $seek $watch $rename $remove $share $resize))
(typename $open_flags (flags (@witx repr u8) $create $empty $new))
(typename $whence (enum (@witx tag u8) $begin $here $end))
(typename $kind (enum (@witx tag u8) $plain $folder $pipe $socket $device))
(typename $stamp (record (field $made $instant) (field $changed $instant) (field $seen $instant)))
(typename $stat (record (field $kind $kind) (field $links u32) (field $length $size) (field $stamp $stamp) (field $rights $rights)))
(typename $buffer (record (field $start (@witx pointer u8)) (field $length (@witx usize))))
(typename $const_buffer (record (field $start (@witx const_pointer u8)) (field $length (@witx usize))))
(typename $buffers (list $buffer))
(typename $const_buffers (list $const_buffer))
(typename $name (list char))
(typename $entry (record (field $next $size) (field $kind $kind) (field $name $name)))
(typename $clock (enum (@witx tag u32) $wall $steady $own $thread))
(typename $wake (record (field $clock $clock) (field $at $instant) (field $slack $size)))
(typename $readable (record (field $stream $stream) (field $least $size)))
(typename $source_kind (enum (@witx tag u8) $clock $read $write $closed))
(typename $source (variant (@witx tag u8) (case $clock $wake) (case $read $readable) (case $write $readable) (case $closed)))
(typename $event (record (field $token u64) (field $source $source) (field $result (variant (@witx tag u32) (case $ok $size) \
(case $err $code)))))
(typename $subscription (record (field $token u64) (field $source $source)))
(typename $address4 (tuple u8 u8 u8 u8))
(typename $address6 (tuple u16 u16 u16 u16 u16 u16 u16 u16))
(typename $address (variant (@witx tag u8) (case $four (tuple $address4 u16)) (case $six (tuple $address6 u16))))
(typename $wide bool)
(typename $level (enum (@witx tag u8) $trace $info $warning $error))
(typename $reading (record (field $mean f64) (field $last f32) (field $count u32) (field $raw (list (list s16)))))
(module $store (import \"memory\" (memory)) \
(@interface func (export \"root\") (result $result (variant (@witx tag u32) (case $ok $folder) (case $err $code)))) \
(@interface func (export \"open\") (param $at $folder) (param $name $name) (param $flags $open_flags) (param $rights $rights) \
(result $result (variant (@witx tag u32) (case $ok $stream) (case $err $code)))) \
(@interface func (export \"close\") (param $stream $stream)) \
(@interface func (export \"stat\") (param $stream $stream) (result $result (variant (@witx tag u32) (case $ok $stat) (case $err $code)))) \
(@interface func (export \"read\") (param $stream $stream) (param $into $buffers) \
(result $result (variant (@witx tag u32) (case $ok $size) (case $err $code)))) \
(@interface func (export \"write\") (param $stream $stream) (param $from $const_buffers) \
(result $result (variant (@witx tag u32) (case $ok $size) (case $err $code)))) \
(@interface func (export \"seek\") (param $stream $stream) (param $by s64) (param $whence $whence) \
(result $result (variant (@witx tag u32) (case $ok $size) (case $err $code)))) \
(@interface func (export \"resize\") (param $stream $stream) (param $length $size) \
(result $result (variant (@witx tag u32) (case $ok) (case $err $code)))) \
(@interface func (export \"rename\") (param $at $folder) (param $name $name) (param $to $folder) (param $new_name $name) \
(result $result (variant (@witx tag u32) (case $ok) (case $err $code)))) \
(@interface func (export \"remove\") (param $at $folder) (param $name $name) \
(result $result (variant (@witx tag u32) (case $ok) (case $err $code)))) \
(@interface func (export \"list\") (param $at $folder) (param $from $size) (param $into $buffer) \
(result $result (variant (@witx tag u32) (case $ok (tuple $size $size)) (case $err $code)))))
(module $time \
(@interface func (export \"now\") (param $clock $clock) (result $result (variant (@witx tag u32) (case $ok $instant) (case $err $code)))) \
(@interface func (export \"grain\") (param $clock $clock) (result $grain u64)) \
(@interface func (export \"wait\") (param $for (@witx const_pointer $subscription)) (param $events (@witx pointer $event)) \
(param $count u32) (result $result (variant (@witx tag u32) (case $ok $size) (case $err $code)))) \
(@interface func (export \"next\") (param $for $subscription) (result $event $event) (@witx stored)))
(module $net \
(@interface func (export \"listen\") (param $at $address) (param $queue u32) \
(result $result (variant (@witx tag u32) (case $ok $link) (case $err $code)))) \
(@interface func (export \"accept\") (param $link $link) (result $result (variant (@witx tag u32) (case $ok $stream) (case $err $code)))) \
(@interface func (export \"peer\") (param $stream $stream) (result $peer $address) (@witx stored)) \
(@interface func (export \"send\") (param $stream $stream) (param $from (list u8)) (param $last $wide) \
(result $result (variant (@witx tag u32) (case $ok $size) (case $err $code)))))
(module $process \
(@interface func (export \"arguments\") (param $into (@witx pointer (@witx pointer (@witx char8)))) (param $count (@witx pointer $size)) \
(result $result (variant (@witx tag u32) (case $ok) (case $err $code)))) \
(@interface func (export \"random\") (param $into (@witx pointer u8)) (param $count (@witx usize)) \
(result $result (variant (@witx tag u32) (case $ok) (case $err $code)))) \
(@interface func (export \"log\") (param $level $level) (param $text (list char))) \
(@interface func (export \"exit\") (param $code u32) (@witx noreturn)) \
(@interface func (export \"yield\")))
";

/// Texts that are printed as they stand.
static FIXED: &[Pieces] = &[
    &[(SYSTEM, 1)],
    // Ninety-nine lists, with one parenthesis more around them.
    &[
        ("(typename $t ", 1),
        ("(list ", 99),
        ("u8", 1),
        (")", 100),
        ("\n", 1),
    ],
    &[
        ("(typename $t ", 1),
        ("(tuple u8 ", 98),
        ("(list f32)", 1),
        (")", 98),
        (")\n", 1),
    ],
    // Cases with and without payloads, of which two have one name.
    &[(
        "(typename $t (variant (@witx tag u8) (case $a) (case $b (list char)) (case $a)))\n",
        1,
    )],
    // Variants without payloads, where they may stand.
    &[(
        "(typename $t (enum (@witx tag u8) $a $b))\n(typename $u $t)\n(typename $v (list bool))\n",
        1,
    )],
];

fn prints_as(alloc: Global, document: &Document, text: &str) -> bool {
    document_text(alloc, document).is_ok_and(|printed| printed.as_str() == text)
}

fn reads_back(alloc: Global, document: &Document, text: &str) -> bool {
    print_and_parse(alloc, document).is_ok_and(|again| again == *document
        && prints_as(alloc, &again, text))
}

fn text_is_fixed(alloc: Global, text: &str) -> bool {
    let Ok(document) = parse(alloc, text) else {
        return false;
    };
    prints_as(alloc, &document, text) && reads_back(alloc, &document, text)
}

fn is_fixed(alloc: Global, pieces: Pieces<'_>) -> bool {
    match built_text(alloc, pieces) {
        Ok(text) => text_is_fixed(alloc, text.as_str()),
        Err(_) => false,
    }
}

#[test]
fn printed_texts_are_fixed(rt: HostRuntime) {
    let alloc = rt.alloc();
    assert!(rt; FIXED.iter().all(|pieces| is_fixed(alloc, pieces)));
}

/// Texts whose documents aren't plain, and whether the printed text means a document at all: then it is
/// another one.
static OTHERS: &[(&str, bool)] = &[
    ("(typename $b (enum (@witx tag u8) $false $true))", true),
    (
        "(typename $b (list (variant (@witx tag u64) (case $false) (case $true))))",
        true,
    ),
    // Without a case, with one name twice, and where an enum may not stand.
    ("(typename $t (variant (@witx tag u64)))", false),
    ("(typename $t (variant (case $a) (case $a)))", false),
    ("(typename $t (list (variant (case $a) (case $b))))", false),
    (
        r#"(module $m (@interface func (export "f") (result $r (expected (error)))))"#,
        false,
    ),
    // Names that stand raw between their quotes, and documentation that would end its comment.
    (r#"(module $m (import "a\"b" (memory)))"#, false),
    (r#"(module $m (import "a\\b" (memory)))"#, false),
    (r#"(module $m (import "a\tb" (memory)))"#, false),
    (";;; a ;) b\n(typename $t u8)", false),
];

fn is_other(alloc: Global, document: &Document, is_document: bool) -> bool {
    match print_and_parse(alloc, document).ok() {
        Some(again) => is_document && again != *document,
        None => !is_document,
    }
}

fn reads_otherwise(alloc: Global, &(source, is_document): &(&str, bool)) -> bool {
    parse(alloc, source).is_ok_and(|document| is_other(alloc, &document, is_document))
}

#[test]
fn documents_that_are_not_plain(rt: HostRuntime) {
    let alloc = rt.alloc();
    assert!(rt; OTHERS.iter().all(|row| reads_otherwise(alloc, row)));
}
