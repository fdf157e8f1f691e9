//! Lists that are taken apart and put together by value.

ghost use Rattle.std.specs.Prelude.{◌≡◌, ◌++◌, ◌∷◌, [], MatchOption};

use witx_base::Items;

/// The last item, taken off; takes no memory.
pub(crate) fn without_last<T>(items: Items<T>) -> (Items<T>, Option<T>)
    ensures { MatchOption result.1 (result.0 ≡ []) (λ last. items ≡ result.0 ++ last ∷ []) }
{
    let mut items = items.into_vec();
    let last = items.pop();
    (Items::from_vec(items), last)
}

/// A list with another behind it, and what is left of that one: all of it where memory is refused.
pub(crate) fn joined<T>(items: Items<T>, more: Items<T>) -> (Items<T>, Items<T>)
    ensures { result.0 ++ result.1 ≡ items ++ more }
{
    let mut items = items.into_vec();
    let mut more = more.into_vec();
    if items.append(&mut more).is_err() {}
    (Items::from_vec(items), Items::from_vec(more))
}

/// A list with another item behind it; where memory is refused the list as it was, and the item.
pub(crate) fn with_last<T>(items: Items<T>, item: T) -> (Items<T>, Option<T>)
    ensures { MatchOption result.1 (result.0 ≡ items ++ item ∷ []) (λ left. (result.0 ≡ items) × (left ≡ item)) }
{
    let mut items = items.into_vec();
    let left = match items.push(item) {
        Ok(()) => None,
        Err(refused) => Some(refused.value),
    };
    (Items::from_vec(items), left)
}
