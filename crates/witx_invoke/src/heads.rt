//! What stands at the head of a text, and what follows it.
#![tactic(auto, using(crate::proofs::HeadLaws::head_rules))]

ghost use Rattle.std.specs.Prelude.{◌≡◌, ◌<◌, ℕ, MatchOption, option_map, option_copied, length};
ghost use Rattle.witx_invoke.specs.Reading.{past, digits_at, grown, index_at, item_past, signed_at, taken, word_at};

/// What follows a byte, if it stands at the head.
pub(crate) fn after(byte: u8, text: &[u8]) -> Option<&[u8]>
    ensures { option_copied result ≡ past byte text.now }
{
    match text {
        [first, rest @ ..] if *first == byte => Some(rest),
        _ => None,
    }
}

/// What follows the space before an item; nothing stands before the first one.
pub(crate) fn item_start(item: usize, text: &[u8]) -> Option<&[u8]>
    ensures { option_copied result ≡ item_past item text.now }
{
    if item == 0 {
        return Some(text);
    }
    after(b' ', text)
}

/// The digit at the head, if there is one.
fn first_digit(text: &[u8]) -> Option<(u32, &[u8])>
    ensures goes_on { MatchOption result ((n : ℕ) → digits_at n text.now ≡ (n, text.now))
        (λ p. (n : ℕ) → digits_at n text.now ≡ digits_at (grown n p.0) p.1.now) }
    ensures smaller { MatchOption result (length text.now ≡ length text.now) (λ p. length p.1.now < length text.now) }
{
    let [first, rest @ ..] = text else {
        return None;
    };
    let digit = char::from(*first).to_digit(10)?;
    Some((digit, rest))
}

/// A number with one digit more.
fn grown(number: u64, digit: u32) -> u64
    ensures { result ≡ grown number digit }
{
    number.saturating_mul(10).saturating_add(digit as u64)
}

/// The number that the digits at the head write, and what follows them; the greatest where it is too large.
fn read_digits(text: &[u8]) -> (u64, &[u8])
    ensures { taken (λ n. n) result ≡ digits_at 0 text.now }
{
    let mut number = 0;
    let mut rest = text;
    while let Some((digit, more)) = first_digit(rest) {
        number = grown(number, digit);
        rest = more;
    }
    (number, rest)
}

/// A number of 32 bits.
pub(crate) fn read_word(text: &[u8]) -> (u32, &[u8])
    ensures { taken (λ n. n) result ≡ word_at text.now }
{
    let (number, rest) = read_digits(text);
    (number.min(u64::from(u32::MAX)) as u32, rest)
}

/// A number that may be below 0.
pub(crate) fn read_signed(text: &[u8]) -> (i128, &[u8])
    ensures { taken (λ n. n) result ≡ signed_at text.now }
{
    match after(b'-', text) {
        Some(behind) => {
            let (number, rest) = read_digits(behind);
            (-(number as i128), rest)
        }
        None => {
            let (number, rest) = read_digits(text);
            (number as i128, rest)
        }
    }
}

/// The number of a case, behind its `#`.
pub(crate) fn read_index(text: &[u8]) -> Option<(u32, &[u8])>
    ensures { option_map (taken (λ n. n)) result ≡ index_at text.now }
{
    let rest = after(b'#', text)?;
    Some(read_word(rest))
}
