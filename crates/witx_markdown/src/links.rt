//! The links of documentation.

ghost use Rattle.std.specs.Prelude.{◌≡◌, ◌∷◌, ◌++◌, [], ℕ, List, IfOk, OnOk, MatchOption, string_bytes};
ghost use Rattle.std.specs.{List.{list_any}, Map.{keys_of}};
ghost use Rattle.witx_base.specs.Texts.{same_text};
ghost use Rattle.witx_markdown.specs.Links.{dotted, ids, link as link_text, link_to, linked, missing, missing_if, pieces};

use crate::content::MdContent;
use crate::heading::put;
use std::alloc::Global;
use witx_base::{Id, Items, NameMap, OutOfMemory, Text};

/// The names in links that no node has as its id, in the order of the text.
pub type MissingLinks = Items<Text>;

/// The ids of a page's nodes.
pub type KnownIds = NameMap<()>;

/// The ids of contents.
pub fn known_ids(alloc: Global, contents: &[MdContent]) -> Result<KnownIds, OutOfMemory>
    ensures { IfOk result (λ known. (id : List ℕ)
        → list_any (same_text id) (keys_of known) ≡ list_any (same_text id) (ids contents.now)) }
{
    let mut known = KnownIds::new(alloc);
    for content in contents {
        let Some(id) = content.id() else {
            continue;
        };
        known.insert(Id::new(alloc, id)?, ())?;
    }
    Ok(known)
}

/// Appends documentation with its links, and adds those that lead nowhere to `missing_links`.
pub fn put_linked(
    out: &mut String,
    missing_links: &mut MissingLinks,
    known: &KnownIds,
    docs: &str,
) -> Result<(), OutOfMemory>
    ensures text { OnOk result (string_bytes out.new ≡ string_bytes out.old ++ linked (keys_of known.now) docs.now) }
    ensures missing { OnOk result (missing_links.new ≡ missing_links.old ++ missing (keys_of known.now) docs.now) }
{
    let mut rest = docs;
    while let Some((before, link, behind)) = next_link(rest) {
        put(out, before)?;
        put_link(out, missing_links, known, link)?;
        rest = behind;
    }
    put(out, rest)?;
    Ok(())
}

/// The text before the first two backquotes, between them and behind them; none where no two are left.
fn next_link(text: &str) -> Option<(&str, &str, &str)>
    ensures { MatchOption result
        ((known : List (List ℕ)) → (linked known text.now ≡ text.now) × (missing known text.now ≡ []))
        (λ x. pieces text.now ≡ x.0.now ∷ x.1.now ∷ pieces x.2.now) }
{
    let Some((before, behind)) = cut(text) else {
        return None;
    };
    let Some((link, rest)) = cut(behind) else {
        return None;
    };
    Some((before, link, rest))
}

/// The text before and behind the first backquote; none where there is none.
fn cut(text: &str) -> Option<(&str, &str)>
    ensures { MatchOption result (pieces text.now ≡ text.now ∷ []) (λ x. pieces text.now ≡ x.0.now ∷ pieces x.1.now) }
{
    text.split_once('`')
}

/// Appends a link, or what stands in its place where no node has its id.
#[tactic(auto, using(crate::proofs::Ids::known_rules))]
fn put_link(
    out: &mut String,
    missing_links: &mut MissingLinks,
    known: &KnownIds,
    link: &str,
) -> Result<(), OutOfMemory>
    ensures text { OnOk result (string_bytes out.new ≡ string_bytes out.old ++ link_text (keys_of known.now) link.now) }
    ensures missing { OnOk result (missing_links.new ≡ missing_links.old ++ missing_if (keys_of known.now) link.now) }
{
    let alloc = *out.allocator();
    let id = Id::new(alloc, &with_dots(alloc, link)?)?;
    if known.get(&id).is_some() {
        put_target(out, link, id.as_str())?;
        return Ok(());
    }
    write!(out, "`{link}`")?;
    missing_links.push(Text::new(alloc, link)?)
}

fn put_target(out: &mut String, link: &str, id: &str) -> Result<(), OutOfMemory>
    ensures { OnOk result (string_bytes out.new ≡ string_bytes out.old ++ link_to link.now id.now) }
{
    write!(out, "[`{link}`](#{id})")?;
    Ok(())
}

/// The text with each `::` as a dot.
#[tactic(auto, using(crate::proofs::Dotted::dot_rules))]
fn with_dots(alloc: Global, text: &str) -> Result<String, OutOfMemory>
    ensures { IfOk result (λ out. string_bytes out ≡ dotted text.now) }
{
    Ok(text.replace(alloc, "::", ".")?)
}
