//! Sorts a slot's events by falling key, so that the least leaves from the end, and finds the least of unsorted ones.
ghost use Rattle.std.specs.Prelude.{◌≡◌, ◌<◌, length, [], false, All, Any, IfSome, IfNone, IsPermutation};
ghost use Rattle.std.specs.Ordering.{is_lt};
ghost use Rattle.base.specs.Order.{key_cmp};
ghost use Rattle.worker_queue.specs.Slots.{AreFalling, HaveOneMoment, IsLeastPlace, IsRank};

use base::{Key, Keyed};

/// Puts the event with the greatest key first, that with the least last. It takes no memory.
pub(crate) fn sort_falling<E: Keyed>(events: &mut Vec<E>)
    ensures permutation { IsPermutation events.old.items events.new.items }
    ensures falling { AreFalling E.key events.new.items }
{
    events.sort_unstable_by(|a, b| b.key().cmp(&a.key()));
}

/// The least key of the events: `None` where there is none.
#[tactic(auto, unfolding(base::specs::Order::key_cmp))]
pub(crate) fn least_key<E: Keyed>(events: &[E]) -> Option<Key>
    ensures here { IfSome result (λ k. Any (λ e. E.key e ≡ k) events.now) }
    ensures least { IfSome result (λ k. All (λ e. is_lt (key_cmp (E.key e) k) ≡ false) events.now) }
    ensures none { IfNone result (events.now ≡ []) }
{
    events.iter().map(|event| event.key()).min()
}

/// The place of the event with the least key. The events have one moment. The least so far is kept as one
/// number, so that a processor compares without jumps.
#[inline(always)]
pub(crate) fn least_place<E: Keyed>(events: &[E]) -> usize
    requires some { 0 < length events.now }
    requires moment { HaveOneMoment E.key events.now }
    ensures within { result < length events.now }
    ensures least { IsLeastPlace E.key events.now result }
{
    let mut place = 0;
    let mut least = rank(events[0].key());
    for other in 1..events.len() {
        let next = rank(events[other].key());
        if next < least {
            place = other;
            least = next;
        }
    }
    place
}

/// Where a key stands among those of its moment, as one number.
#[inline(always)]
fn rank(key: Key) -> u128
    ensures { IsRank key result }
{
    u128::from(key.to.0) * (1 << 80) + u128::from(key.from.0) * (1 << 64) + u128::from(key.number)
}
