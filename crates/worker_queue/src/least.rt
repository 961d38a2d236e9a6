//! Comparisons of event keys: which of two comes first, and the first key that a moment can have.
ghost use Rattle.std.specs.Prelude.{◌≡◌, ◌⊎◌, ◌<◌, ◌↔◌, Some, None, IsTrue, IfSome, IfNone};
ghost use Rattle.base.specs.declared.key.Key.{Key as AKey};
ghost use Rattle.base.specs.Order.{IsBefore};

use base::{Key, MemberId, Moment};

/// The least of all keys of a moment.
pub(crate) fn first_key(at: Moment) -> Key
    ensures { (q : AKey) → IsBefore q result ↔ (q.at < at) }
{
    Key {
        at,
        to: MemberId(0),
        from: MemberId(0),
        number: 0,
    }
}

/// Whether an event of the one key is handled before that of the other.
pub(crate) fn is_before(key: &Key, other: &Key) -> bool
    ensures { IsTrue result ↔ IsBefore key.now other.now }
{
    key.cmp(other).is_lt()
}

/// The lesser of two keys, either of which may be missing.
pub(crate) fn lesser_key(key: Option<Key>, other: Option<Key>) -> Option<Key>
    ensures one { IfSome result (λ k. (key ≡ Some k) ⊎ (other ≡ Some k)) }
    ensures first { IfSome result (λ k. IfSome key (λ a. ¬ (IsBefore a k))) }
    ensures second { IfSome result (λ k. IfSome other (λ b. ¬ (IsBefore b k))) }
    ensures none { IfNone result ((key ≡ None) × (other ≡ None)) }
{
    let Some(first) = key else {
        return other;
    };
    let Some(second) = other else {
        return Some(first);
    };
    if is_before(&second, &first) {
        Some(second)
    } else {
        Some(first)
    }
}
