//! A slot of the wheel holds the events of one moment: it scans few of them for the least, and sorts many.
ghost use Rattle.std.specs.Prelude.{◌≡◌, ◌+◌, ◌<◌, length, [], true, false, Some, IsTrue, IsSomeAnd, IfSome, IfNone, IfErr, OnOk, OnErr, slice_get, vec_len, vec_capacity};
ghost use Rattle.std.specs.FinMap.{contains_key, insert, remove, empty};
ghost use Rattle.base.specs.Order.{IsBefore};
ghost use Rattle.base.specs.Run.{IsFirst};
ghost use Rattle.worker_queue.specs.Queue.{IsLeastKey};
ghost use Rattle.worker_queue.specs.Slots.{by_key, AreUnlike, AreFalling, IsOfOneMoment, NoneIsBefore};

use crate::falling::{least_key, least_place, sort_falling};
use crate::least::{first_key, is_before};
use base::{Key, Keyed};
use std::alloc::Global;

/// Of so few events the least is looked for each time, which moves fewer of them than a sort does.
const FEW: usize = 8;

/// The events of one moment. Where they are many, they are sorted when the first of them leaves.
#[derive(Drop)]
pub(crate) struct Slot<E: Keyed> {
    pub(crate) events: Vec<E>,
    is_sorted: bool,
    ghost unlike: { AreUnlike E.key events.items },
    ghost falling: { is_sorted ≡ true → AreFalling E.key events.items },
}

impl<E: Keyed + Drop> Slot<E> {
    /// A slot with no events. It takes no memory.
    pub(crate) fn new(alloc: Global) -> Self
        ensures { result.events.items ≡ [] }
    {
        Slot {
            events: Vec::new(alloc),
            is_sorted: true,
        }
    }

    /// Takes in an event with a new key. Where memory is refused, the event is handed back, and the slot
    /// has the same events.
    #[inline(always)]
    pub(crate) fn push(&mut self, event: E) -> Result<(), E>
        requires { contains_key (by_key E.key self.old.events.items) (E.key event) ≡ false }
        ensures ok { OnOk result (by_key E.key self.new.events.items ≡ insert (by_key E.key self.old.events.items) (E.key event) event) }
        ensures handed_back { IfErr result (λ refused. refused ≡ event) }
        ensures unchanged { OnErr result (by_key E.key self.new.events.items ≡ by_key E.key self.old.events.items) }
    {
        if !make_room(&mut self.events) {
            return Err(event);
        }
        self.is_sorted = false;
        self.events.push_reserved(event);
        Ok(())
    }

    /// The least key of its events: `None` where there is none.
    pub(crate) fn least(&self) -> Option<Key>
        ensures least { IfSome result (IsLeastKey (by_key E.key self.now.events.items)) }
        ensures none { IfNone result (by_key E.key self.now.events.items ≡ empty) }
    {
        least_key(&self.events)
    }

    /// The place of the event with the least key, if that is before the limit: `None` where no event's is.
    /// Where they are many, they are sorted first.
    #[inline(always)]
    pub(crate) fn find(&mut self, limit: &Key) -> Option<usize>
        requires { IsOfOneMoment (by_key E.key self.old.events.items) }
        ensures same { by_key E.key self.new.events.items ≡ by_key E.key self.old.events.items }
        ensures first { IfSome result (λ place. IsSomeAnd (slice_get self.new.events.items place) (λ event. IsFirst (by_key E.key self.new.events.items) (E.key event) event)) }
        ensures before { IfSome result (λ place. IfSome (slice_get self.new.events.items place) (λ event. IsBefore (E.key event) limit.now)) }
        ensures none { IfNone result (NoneIsBefore (by_key E.key self.old.events.items) limit.now) }
    {
        let Some(any) = self.events.last() else {
            return None;
        };
        if !is_before(&first_key(any.key().at), limit) {
            return None;
        }
        let place = self.find_least();
        if is_before(&self.events[place].key(), limit) {
            Some(place)
        } else {
            None
        }
    }

    /// The place of the event with the least key, of a slot that has an event: of few events it is looked
    /// for, and many are sorted, which makes it the last.
    #[inline(always)]
    fn find_least(&mut self) -> usize
        requires some { 0 < length self.old.events.items }
        requires moment { IsOfOneMoment (by_key E.key self.old.events.items) }
        ensures same { by_key E.key self.new.events.items ≡ by_key E.key self.old.events.items }
        ensures within { result < length self.new.events.items }
        ensures first { IsSomeAnd (slice_get self.new.events.items result) (λ event. IsFirst (by_key E.key self.new.events.items) (E.key event) event) }
    {
        if self.is_sorted {
            return self.events.len() - 1;
        }
        if self.events.len() > FEW {
            sort_falling(&mut self.events);
            self.is_sorted = true;
            return self.events.len() - 1;
        }
        least_place(&self.events)
    }

    /// Takes out the event at a place, which is the first of all. The last one takes its place: of sorted
    /// events the first of all is the last, so that they stay sorted.
    #[inline(always)]
    pub(crate) fn take(&mut self, place: usize) -> E
        requires { IsSomeAnd (slice_get self.old.events.items place) (λ event. IsFirst (by_key E.key self.old.events.items) (E.key event) event) }
        ensures here { slice_get self.old.events.items place ≡ Some result }
        ensures fewer { length self.new.events.items + 1 ≡ length self.old.events.items }
        ensures taken { by_key E.key self.new.events.items ≡ remove (by_key E.key self.old.events.items) (E.key result) }
    {
        self.events.swap_remove(place)
    }
}

/// Whether there is room for one event more. It is made if need be: `false` where memory is refused.
#[inline(always)]
fn make_room<E: Drop>(events: &mut Vec<E>) -> bool
    ensures same { events.new.items ≡ events.old.items }
    ensures room { IsTrue result → vec_len events.new < vec_capacity events.new }
{
    if events.len() < events.capacity() {
        return true;
    }
    events.reserve(1).is_ok()
}
