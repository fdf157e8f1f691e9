//! Paths as they are written: texts whose parts between the slashes are the components.
#![tactic(auto, using(crate::proofs::Written::written_rules))]

ghost use Rattle.std.specs.Prelude.{◌≡◌, ◌==◌, ◌++◌, ◌∷◌, [], IfOk, length, false, None, Some, if◌then◌else◌, option_copied, option_map, MatchOption, string_bytes, map};
ghost use Rattle.std.specs.{List.{AllByRecursion, flat_map, fold}, Ordering.{nat_cmp}};
ghost use Rattle.std.specs.Cmp.Lexicographic.{slice_cmp};
ghost use Rattle.witx_base.specs.Paths.{behind_slashes, components_of, file_name, is_absolute, is_current_dir, is_kept, is_name, is_root, join, kept_parts, name_among, parent, parts_of, path_of, path_text, root, without_current_dir};
ghost use Rattle.witx_base.specs.PathTexts.{fed_path, HasNoSlash, IsPathText, rank, slash_first};
ghost use Rattle.std.specs.Hash as fed;

use crate::memory::OutOfMemory;
use std::alloc::{AllocError, Global};
use std::cmp::Ordering;
use std::hash::{Hash, Hasher};

/// What stands before the first slash, and behind it.
fn cut_first(text: &str) -> Option<(&str, &str)>
    ensures { MatchOption result (parts_of text.now ≡ text.now ∷ []) (λ x. parts_of text.now ≡ x.0.now ∷ parts_of x.1.now) }
{
    text.split_once('/')
}

/// What stands before the last slash, and behind it.
fn cut_last(text: &str) -> Option<(&str, &str)>
    ensures { MatchOption result (parts_of text.now ≡ text.now ∷ []) (λ x. parts_of text.now
        ≡ parts_of x.0.now ++ x.1.now ∷ []) }
{
    text.rsplit_once('/')
}

fn is_name(component: &str) -> bool
    ensures { result ≡ is_name component.now }
{
    !(component == "/" || (component == "." || component == ".."))
}

/// The last part, where it can name a file.
fn named(last: &str) -> Option<&str>
    ensures { option_copied result ≡ (if length last.now == 0 then None else name_among (Some last.now)) }
{
    if last.is_empty() {
        return None;
    }
    if is_name(last) { Some(last) } else { None }
}

/// The file name of the path that the text is.
#[tactic(auto, using(crate::proofs::Cuts::name_rules))]
pub fn name_in(text: &str) -> Option<&str>
    requires { IsPathText text.now }
    ensures { option_copied result ≡ file_name (path_of text.now) }
{
    match cut_last(text) {
        Some((_, last)) => named(last),
        None => named(text),
    }
}

/// What stands above the last part, as it is written, where `front` stands before the slash.
fn above<'a>(front: &'a str, last: &str) -> Option<&'a str>
    ensures { option_copied result ≡ (if length front.now
        == 0 then (if length last.now == 0 then None else Some (47 ∷ [])) else Some front.now) }
{
    if !front.is_empty() {
        return Some(front);
    }
    if last.is_empty() { None } else { Some("/") }
}

/// What stands above a single part.
fn above_all(part: &str) -> Option<&'static str>
    ensures { option_copied result ≡ (if length part.now == 0 then None else Some []) }
{
    if part.is_empty() { None } else { Some("") }
}

/// The parent of the path that the text is, as it is written.
#[tactic(auto, using(crate::proofs::Cuts::parent_rules))]
pub fn parent_in(text: &str) -> Option<&str>
    requires { IsPathText text.now }
    ensures { option_copied result ≡ option_map path_text (parent (path_of text.now)) }
{
    match cut_last(text) {
        Some((front, last)) => above(front, last),
        None => above_all(text),
    }
}

/// Whether the path that the text is begins at the root.
#[tactic(auto, using(crate::proofs::Joins::absolute_rules))]
pub fn is_absolute_in(text: &str) -> bool
    requires { IsPathText text.now }
    ensures { result ≡ is_absolute (path_of text.now) }
{
    match cut_first(text) {
        Some((first, _)) => first.is_empty(),
        None => false,
    }
}

/// The path that a relative text is, as it is written without a first `.`.
#[tactic(auto, using(crate::proofs::Joins::dir_rules))]
fn behind_current_dir(text: &str) -> &str
    requires path { IsPathText text.now }
    requires relative { is_absolute (path_of text.now) ≡ false }
    ensures { result.now ≡ path_text (without_current_dir (path_of text.now)) }
{
    match cut_first(text) {
        Some((first, rest)) => behind_dot(first, rest, text),
        None => if text == "." { "" } else { text },
    }
}

fn behind_dot<'a>(first: &str, rest: &'a str, text: &'a str) -> &'a str
    ensures { result.now ≡ (if is_current_dir first.now then rest.now else text.now) }
{
    if first == "." { rest } else { text }
}

/// The path that the text is, and the other behind it, as they are written.
#[tactic(auto, using(crate::proofs::Joins::join_rules))]
pub fn joined(alloc: Global, text: &str, other: &str) -> Result<String, AllocError>
    requires path { IsPathText text.now }
    requires other_path { IsPathText other.now }
    requires relative { is_absolute (path_of other.now) ≡ false }
    requires some { (length text.now == 0) ≡ false }
    ensures { IfOk result (λ t. string_bytes t ≡ path_text (join (path_of text.now) (path_of other.now))) }
{
    let rest = behind_current_dir(other);
    if rest.is_empty() {
        return String::from_str(alloc, text);
    }
    put_together(alloc, text, rest)
}

fn put_together(alloc: Global, text: &str, rest: &str) -> Result<String, AllocError>
    ensures { IfOk result (λ t. string_bytes t ≡ (if is_root text.now then [] else text.now) ++ 47 ∷ rest.now) }
{
    let length = text.len().saturating_add(rest.len()).saturating_add(1);
    let mut whole = String::with_capacity(alloc, length)?;
    if text != "/" {
        whole.push_str(text)?;
    }
    whole.push_str("/")?;
    whole.push_str(rest)?;
    Ok(whole)
}

fn pieces(alloc: Global, s: &str) -> Result<Vec<&str>, AllocError>
    ensures { IfOk result (λ v. map (λ x. x.now) v.items ≡ parts_of s.now) }
{
    s.split('/').collect(alloc)
}

fn is_kept_piece(piece: &str) -> bool
    ensures { result ≡ is_kept piece.now }
{
    !(piece.is_empty() || piece == ".")
}

fn put_kept(text: &mut String, pieces: &[&str]) -> Result<(), AllocError>
    ensures { IfOk result (λ _. string_bytes text.new
        ≡ string_bytes text.old ++ behind_slashes (kept_parts (map (λ x. x.now) pieces.now))) }
{
    for piece in pieces {
        if is_kept_piece(piece) {
            text.push_str("/")?;
            text.push_str(piece)?;
        }
    }
    Ok(())
}

fn or_root(text: String) -> Result<String, AllocError>
    ensures { IfOk result (λ t. string_bytes t ≡ (if length (string_bytes text) == 0 then root else string_bytes text)) }
{
    let mut text = text;
    if text.is_empty() {
        text.push_str("/")?;
    }
    Ok(text)
}

fn put_parts(alloc: Global, room: usize, pieces: &[&str]) -> Result<String, AllocError>
    requires { AllByRecursion HasNoSlash (map (λ x. x.now) pieces.now) }
    ensures { IfOk result (λ t. string_bytes t ≡ path_text (components_of (map (λ x. x.now) pieces.now))) }
{
    match pieces.split_first() {
        Some((first, others)) => put_all(alloc, room, first, others),
        None => Ok(String::new(alloc)),
    }
}

fn put_all(alloc: Global, room: usize, first: &str, others: &[&str]) -> Result<String, AllocError>
    requires { HasNoSlash first.now }
    ensures { IfOk result (λ t. string_bytes t ≡ path_text (components_of (first.now ∷ map (λ x. x.now) others.now))) }
{
    if others.is_empty() {
        return String::from_str(alloc, first);
    }
    let whole = put_first(alloc, room, first, others)?;
    Ok(whole)
}

fn put_first(alloc: Global, room: usize, first: &str, others: &[&str]) -> Result<String, AllocError>
    ensures { IfOk result (λ t. let text = first.now ++ behind_slashes (kept_parts (map (λ x. x.now) others.now)) in
        string_bytes t ≡ (if length text == 0 then root else text)) }
{
    let mut text = String::with_capacity(alloc, room)?;
    text.push_str(first)?;
    put_kept(&mut text, others)?;
    let whole = or_root(text)?;
    Ok(whole)
}

/// The path that a text spells, as it is written.
#[tactic(auto, unfolding(crate::specs::Paths::path_of), using(crate::proofs::Written::piece_rules))]
pub fn written(alloc: Global, s: &str) -> Result<String, AllocError>
    ensures { IfOk result (λ t. string_bytes t ≡ path_text (path_of s.now)) }
{
    let pieces = pieces(alloc, s)?;
    put_parts(alloc, s.len(), pieces.as_slice())
}

/// Part by part is byte by byte, where a slash stands before every other byte.
#[tactic(auto, using(crate::proofs::SlashFirst::part_rules))]
fn compare_parts(text: &str, other: &str) -> Ordering
    ensures { result ≡ slice_cmp (slice_cmp nat_cmp) (parts_of text.now) (parts_of other.now) }
{
    compare_bytes(text.as_bytes(), other.as_bytes())
}

#[tactic(auto, using(crate::proofs::SlashFirst::byte_rules))]
fn compare_bytes(bytes: &[u8], others: &[u8]) -> Ordering
    ensures { result ≡ slice_cmp slash_first bytes.now others.now }
{
    for i in 0..bytes.len().min(others.len()) {
        let (byte, other) = (bytes[i], others[i]);
        if byte != other {
            return rank(byte).cmp(&rank(other));
        }
    }
    bytes.len().cmp(&others.len())
}

fn rank(byte: u8) -> u16
    ensures { result ≡ rank byte }
{
    if byte == b'/' { 0 } else { u16::from(byte) + 1 }
}

/// The order of two paths by their components: part by part, but where one of them alone begins at
/// the root, by the first byte, since its first part is empty and its first component is not.
#[tactic(auto, using(crate::proofs::PartsInOrder::order_rules))]
pub fn compare(text: &str, other: &str) -> Ordering
    requires path { IsPathText text.now }
    requires other_path { IsPathText other.now }
    ensures { result ≡ slice_cmp (slice_cmp nat_cmp) (path_of text.now) (path_of other.now) }
{
    if text == other {
        return Ordering::Equal;
    }
    if is_absolute_in(text) {
        if is_absolute_in(other) {
            return compare_parts(text, other);
        }
        return text.cmp(other);
    }
    if is_absolute_in(other) {
        return text.cmp(other);
    }
    compare_parts(text, other)
}

fn count_parts(text: &str) -> usize
    ensures { result ≡ length (parts_of text.now) }
{
    text.split('/').count()
}

/// Hands over the parts of the text, each as its bytes.
#[tactic(auto, using(crate::proofs::PartsHashed::loop_rules))]
fn hash_parts<H: Hasher>(text: &str, state: &mut H)
    ensures { state.new ≡ fold H.write state.old (flat_map fed.str (parts_of text.now)) }
{
    let mut rest = text;
    while let Some((part, more)) = cut_first(rest) {
        part.hash(state);
        rest = more;
    }
    rest.hash(state);
}

#[tactic(auto, using(crate::proofs::PartsHashed::relative_rules))]
fn hash_relative<H: Hasher>(text: &str, state: &mut H)
    requires { parts_of text.now ≡ path_of text.now }
    ensures { state.new ≡ fold H.write state.old (fed_path (path_of text.now)) }
{
    state.write_usize(count_parts(text));
    hash_parts(text, state);
}

#[tactic(auto, using(crate::proofs::PartsHashed::rooted_rules))]
fn hash_rooted<H: Hasher>(count: usize, rest: &str, state: &mut H)
    requires { count ≡ length (root ∷ parts_of rest.now) }
    ensures { state.new ≡ fold H.write state.old (fed_path (root ∷ parts_of rest.now)) }
{
    state.write_usize(count);
    "/".hash(state);
    hash_parts(rest, state);
}

#[tactic(auto, using(crate::proofs::PartsHashed::rooted_rules))]
fn hash_one<H: Hasher>(part: &str, state: &mut H)
    ensures { state.new ≡ fold H.write state.old (fed_path (part.now ∷ [])) }
{
    state.write_usize(1);
    part.hash(state);
}

#[tactic(auto, using(crate::proofs::PartsHashed::single_rules))]
fn hash_single<H: Hasher>(text: &str, state: &mut H)
    requires { parts_of text.now ≡ text.now ∷ [] }
    ensures { state.new ≡ fold H.write state.old (fed_path (path_of text.now)) }
{
    if text.is_empty() {
        state.write_usize(0);
        return;
    }
    hash_one(text, state);
}

/// Hands over the number of components, and each component as its bytes.
#[tactic(auto, using(crate::proofs::PartsHashed::path_rules))]
pub fn hash_path<H: Hasher>(text: &str, state: &mut H)
    requires { IsPathText text.now }
    ensures { state.new ≡ fold H.write state.old (fed_path (path_of text.now)) }
{
    match cut_first(text) {
        Some((first, rest)) => {
            if !first.is_empty() {
                hash_relative(text, state);
                return;
            }
            if rest.is_empty() {
                hash_one("/", state);
                return;
            }
            hash_rooted(count_parts(text), rest, state);
        }
        None => hash_single(text, state),
    }
}
