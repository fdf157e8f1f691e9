//! The definitions, or the items, of one kind, as an iterator.

ghost use Rattle.std.specs.{Prelude.{◌≡◌, Option}, Option.{option_copied}, List.{filter_map}};
ghost use Rattle.std.specs.Iterator.{YieldsFirstRef, item_count};

use std::marker::PhantomData;

/// What a list of definitions `D` holds of one kind.
pub trait Kind<D>: Sized {
    /// What a definition holds, where it is of this kind.
    ghost of_kind: { D → Option Self };

    /// What the definition holds, where it is of this kind.
    fn of(definition: &D) -> Option<&Self>
        ensures { option_copied result ≡ of_kind definition.now };
}

/// The definitions of one kind, in order; nothing follows the last.
#[derive(Drop)]
pub struct OfKind<'a, D, K> {
    rest: &'a [D],
    kind: PhantomData<K>,
}

impl<'a, D, K: Kind<D>> OfKind<'a, D, K> {
    /// Those among `definitions`.
    pub(crate) fn among(definitions: &'a [D]) -> OfKind<'a, D, K>
        ensures { result.rest.now ≡ definitions.now }
    {
        OfKind {
            rest: definitions,
            kind: PhantomData,
        }
    }
}

impl<'a, D: 'a, K: Kind<D> + 'a> Iterator for OfKind<'a, D, K> {
    type Item = &'a K;

    ghost next_gives = { YieldsFirstRef (λ it. filter_map K.of_kind it.rest.now) };

    ghost remaining = { item_count (λ it. filter_map K.of_kind it.rest.now) };

    fn next(&mut self) -> Option<&'a K> {
        while let Some((first, rest)) = self.rest.split_first() {
            self.rest = rest;
            if let Some(item) = K::of(first) {
                return Some(item);
            }
        }
        None
    }

    fn size_hint(&self) -> (usize, Option<usize>) {
        (0, Some(self.rest.len()))
    }
}
