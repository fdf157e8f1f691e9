//! The words of a language, and the kinds of tokens that they are.

ghost use Rattle.std.specs.{Prelude.{◌≡◌, ◌<◌, ◌==◌, length, map}, Cmp.Lexicographic.{pointwise}};
ghost use Rattle.witx_base.specs.Texts.{same_text};
ghost use Rattle.witx_values.specs.Words.{AreApart, kind_among, spelling_view};

use witx_grammar::Kind;

/// A word: the kind of its tokens, its spelling, and what the language notes beside it.
#[derive(Clone, Copy)]
pub struct Word<K, M> {
    /// The kind of its tokens.
    pub kind: K,
    /// Its spelling.
    pub text: &'static str,
    /// What the language notes beside it.
    pub note: M,
}

/// Whether two texts of one length are the same, byte by byte: a word has few bytes, so that comparing
/// many at once takes longer.
fn are_same(word: &[u8], text: &[u8]) -> bool
    requires { length word.now ≡ length text.now }
    ensures { result ≡ pointwise ◌==◌ word.now text.now }
{
    let mut at = 0;
    'bytes: while at < word.len() {
        if word[at] != text[at] {
            return false;
        }
        at += 1;
    }
    true
}

/// Whether the word is spelled so. Most words are told apart by their length.
#[tactic(auto, unfolding(witx_base::specs::Texts::same_text))]
fn is_spelled(word: &str, text: &str) -> bool
    ensures { result ≡ same_text word.now text.now }
{
    word.len() == text.len() && are_same(word.as_bytes(), text.as_bytes())
}

/// The kind of tokens that are spelled so, or `other` where no word is.
pub fn kind_spelled<K: Kind, M>(words: &[Word<K, M>], other: K, text: &str) -> K
    ensures { result ≡ kind_among other words.now text.now }
{
    for word in words {
        if is_spelled(word.text, text) {
            return word.kind;
        }
    }
    other
}

/// What the first and the last byte and the length of a text give.
fn sum_of(text: &str) -> usize
    ensures { result < 128 }
{
    let bytes = text.as_bytes();
    let ends = match (bytes.first(), bytes.last()) {
        (Some(first), Some(last)) => usize::from(*first) * 16 + usize::from(*last) * 20,
        _ => 0,
    };
    (ends + bytes.len() % 128) % 128
}

/// The kind of tokens that are spelled so, or `other` where no word is.
///
/// `numbers` says for each sum, 16 times the first byte and 20 times the last one and the length, which
/// word may have it. That word is looked at first, so that one with its own number is found at once.
pub fn kind_numbered<K: Kind, M>(
    words: &[Word<K, M>],
    numbers: &[u8; 128],
    other: K,
    text: &str,
) -> K
    requires { AreApart (map spelling_view words.now) }
    ensures { result ≡ kind_among other words.now text.now }
{
    let number = usize::from(numbers[sum_of(text)]);
    if number < words.len() && is_spelled(words[number].text, text) {
        return words[number].kind;
    }
    kind_spelled(words, other, text)
}
