//! What stands at the head of a text.

ghost use Rattle.std.specs.Prelude.{◌≡◌, ◌∷◌, ◌++◌, MatchOption, option_copied, true};
ghost use Rattle.witx_base.specs.Texts.{same_text};
ghost use Rattle.witx_traces.specs.{LineParts.{no_blank}, LineReading.{IsBehind}, Traces.{ended, one_line}};

/// What stands behind a front, if the text begins with it.
pub(crate) fn behind<'a>(text: &'a str, front: &str) -> Option<&'a str>
    ensures { IsBehind front.now text.now (option_copied result) }
{
    text.strip_prefix(front)
}

/// The first line, and what follows its line feed; none where there is no line feed.
pub(crate) fn cut_line(text: &str) -> Option<(&str, &str)>
    ensures { MatchOption result (one_line text.now ≡ true) (λ x. (text.now ≡ ended x.0.now ++ x.1.now)
        × (one_line x.0.now ≡ true)) }
{
    text.split_once('\n')
}

/// What stands before the first space, and behind it; none where there is no space.
pub(crate) fn cut_word(text: &str) -> Option<(&str, &str)>
    ensures { MatchOption result (no_blank text.now ≡ true) (λ x. (text.now ≡ x.0.now ++ 32 ∷ x.1.now)
        × (no_blank x.0.now ≡ true)) }
{
    text.split_once(' ')
}

/// Whether two texts are the same.
#[tactic(auto, unfolding(witx_base::specs::Texts::same_text))]
pub(crate) fn is_same(text: &str, other: &str) -> bool
    ensures { result ≡ same_text text.now other.now }
{
    text == other
}
