//! Offsets that are rounded up, and parts that are placed one behind the other.

ghost use Rattle.std.specs.Prelude.{◌≡◌, ◌≤◌, ◌<◌, ◌+◌, ◌^◌, max, MatchOption, MatchResult};
ghost use Rattle.witx_layout.specs.{Numbers.{align_to as rounded}, Layouts.{Measures}};

use crate::layout::{SizeAlign, TooLarge};

/// The offset, rounded up to a multiple of the alignment; none where that exceeds `usize::MAX`.
pub fn align_to(offset: usize, alignment: usize) -> Option<usize>
    requires { 0 < alignment }
    ensures { MatchOption result (2 ^ 64 ≤ rounded offset alignment) (λ n. n ≡ rounded offset alignment) }
{
    offset.checked_add((alignment - offset % alignment) % alignment)
}

/// A part that is placed.
#[derive(Clone, Copy)]
pub struct Placed {
    /// Where it begins.
    pub begin: usize,
    /// What is reached behind it, and the greatest alignment so far.
    pub reached: SizeAlign,
}

/// A part behind what is reached, at the next multiple of its alignment.
pub fn behind(reached: SizeAlign, part: SizeAlign) -> Result<Placed, TooLarge>
    requires { 0 < part.align }
    ensures { MatchResult result
        (λ p. (p.begin ≡ rounded reached.size part.align)
        × (p.reached.size ≡ rounded reached.size part.align + part.size) × (p.reached.align ≡ max reached.align part.align))
        (λ _. 2 ^ 64 ≤ rounded reached.size part.align + part.size) }
{
    let Some(begin) = align_to(reached.size, part.align) else {
        return Err(TooLarge);
    };
    let Some(size) = begin.checked_add(part.size) else {
        return Err(TooLarge);
    };
    let align = greater(reached.align, part.align);
    Ok(Placed {
        begin,
        reached: SizeAlign { size, align },
    })
}

/// What is reached once a part is placed behind what is reached.
pub fn followed_by(reached: SizeAlign, part: SizeAlign) -> Result<SizeAlign, TooLarge>
    requires { 0 < part.align }
    ensures { Measures (rounded reached.size part.align + part.size) (max reached.align part.align) result }
{
    Ok(behind(reached, part)?.reached)
}

/// The whole, with its size rounded up to its alignment.
pub fn padded(whole: SizeAlign) -> Result<SizeAlign, TooLarge>
    requires { 0 < whole.align }
    ensures { Measures (rounded whole.size whole.align) whole.align result }
{
    match align_to(whole.size, whole.align) {
        Some(size) => Ok(SizeAlign {
            size,
            align: whole.align,
        }),
        None => Err(TooLarge),
    }
}

/// A tag, and behind it the payload of the greatest size and the greatest alignment.
pub fn tagged(tag: SizeAlign, payload: SizeAlign) -> Result<SizeAlign, TooLarge>
    requires tag { 0 < tag.align }
    requires payload { 0 < payload.align }
    ensures { Measures (rounded (rounded tag.size payload.align + payload.size) (max tag.align payload.align)) (max tag.align payload.align) result }
{
    padded(followed_by(tag, payload)?)
}

/// The greater of two numbers.
pub fn greater(a: usize, b: usize) -> usize
    ensures { result ≡ max a b }
{
    a.max(b)
}
