//! A timing wheel: one slot for each of 1,024 moments from a base on, which rises to the moment of each popped event.
ghost use Rattle.std.specs.Prelude.{◌≡◌, ◌↔◌, ◌<◌, ◌≤◌, ◌%◌, ℕ, length, Some, IsTrue, true, false, IsSomeAnd, IfOk, IfSome, IfNone, IfErr, OnOk, OnErr, []};
ghost use Rattle.std.specs.FinMap.{contains_key, insert, remove, empty};
ghost use Rattle.base.specs.declared.key.Key.{Key as AKey};
ghost use Rattle.base.specs.Order.{IsBefore};
ghost use Rattle.base.specs.Run.{IsFirst};
ghost use Rattle.worker_queue.specs.Queue.{IsLeastKey};
ghost use Rattle.worker_queue.specs.Slots.{NoneIsBefore};
ghost use Rattle.worker_queue.specs.Wheel.{lists_of, slot_at, event_at, events_in, Spans, ArePlaced, AreMarked, IsFirstPlace};

use crate::marks::{Marks, PLACES};
use crate::slot::Slot;
use base::{Key, Keyed, Memory, Moment};
use std::alloc::Global;

/// How many moments have slots.
const SPAN: u64 = 1024;

/// Events of the 1,024 moments from a base on, each in the slot of its moment.
#[derive(Drop)]
pub(crate) struct Wheel<E: Keyed> {
    pub(crate) slots: Vec<Slot<E>>,
    marks: Marks,
    base: u64,
    ghost sized: { length slots.items ≡ 1024 },
    ghost placed: { ArePlaced E.key base (lists_of slots.items) },
    ghost marked: { AreMarked marks.words (lists_of slots.items) },
}

/// The place of the slot of a moment.
fn slot_of(at: Moment) -> usize
    ensures { result ≡ at % 1024 }
{
    (at.ticks() % SPAN) as usize
}

/// As many slots as there are places, with no events.
fn empty_slots<E: Keyed + Drop>(alloc: Global) -> Result<Vec<Slot<E>>, Memory>
    ensures sized { IfOk result (λ slots. length slots.items ≡ 1024) }
    ensures empty { IfOk result (λ slots. (place : ℕ) → slot_at (lists_of slots.items) place ≡ []) }
{
    let mut slots = Vec::new(alloc);
    for _ in 0..PLACES {
        slots.push(Slot::new(alloc))?;
    }
    Ok(slots)
}

impl<E: Keyed + Drop> Wheel<E> {
    /// A wheel with no events, from moment 0 on: `Memory` where it was refused.
    pub(crate) fn new(alloc: Global) -> Result<Self, Memory>
        ensures { IfOk result (λ wheel. events_in E.key wheel.slots.items ≡ empty) }
    {
        let slots = empty_slots(alloc)?;
        Ok(Wheel {
            slots,
            marks: Marks::none(),
            base: 0,
        })
    }

    /// Whether it has a slot for that moment.
    #[inline(always)]
    pub(crate) fn spans(&self, at: Moment) -> bool
        ensures { IsTrue result ↔ Spans self.now.base at }
    {
        let ticks = at.ticks();
        self.base <= ticks && ticks - self.base < SPAN
    }

    /// Takes in an event with a new key, in the slot of its moment. Where memory is refused, the event is
    /// handed back, and the wheel has the same events.
    #[inline(always)]
    pub(crate) fn push(&mut self, event: E) -> Result<(), E>
        requires spans { Spans self.old.base (E.key event).at }
        requires new { contains_key (events_in E.key self.old.slots.items) (E.key event) ≡ false }
        ensures ok { OnOk result (events_in E.key self.new.slots.items ≡ insert (events_in E.key self.old.slots.items) (E.key event) event) }
        ensures handed_back { IfErr result (λ refused. refused ≡ event) }
        ensures unchanged { OnErr result (events_in E.key self.new.slots.items ≡ events_in E.key self.old.slots.items) }
    {
        let place = slot_of(event.key().at);
        self.slots[place].push(event)?;
        self.marks.set(place);
        Ok(())
    }

    /// The least key of its events: `None` where there is none.
    pub(crate) fn least(&self) -> Option<Key>
        ensures least { IfSome result (IsLeastKey (events_in E.key self.now.slots.items)) }
        ensures none { IfNone result (events_in E.key self.now.slots.items ≡ empty) }
    {
        let place = self.first_place()?;
        self.slots[place].least()
    }

    /// Finds the event with the least key, if that is before the limit, and gives the place of its slot and
    /// its own place in that: `None` where no event's is.
    #[inline(always)]
    pub(crate) fn find(&mut self, limit: &Key) -> Option<(usize, usize)>
        ensures same { events_in E.key self.new.slots.items ≡ events_in E.key self.old.slots.items }
        ensures within { IfSome result (λ found. found.0 < 1024) }
        ensures first { IfSome result (λ found. IsSomeAnd (event_at self.new.slots.items found.0 found.1) (λ event. IsFirst (events_in E.key self.new.slots.items) (E.key event) event)) }
        ensures before { IfSome result (λ found. IfSome (event_at self.new.slots.items found.0 found.1) (λ event. IsBefore (E.key event) limit.now)) }
        ensures none { IfNone result (NoneIsBefore (events_in E.key self.old.slots.items) limit.now) }
    {
        let slot = self.first_place()?;
        let place = self.slots[slot].find(limit)?;
        Some((slot, place))
    }

    /// Takes out the event at a place of a slot, the first of all. From then on the wheel spans the moments
    /// from that event's on.
    #[inline(always)]
    pub(crate) fn pop_at(&mut self, slot: usize, place: usize) -> E
        requires within { slot < 1024 }
        requires first { IsSomeAnd (event_at self.old.slots.items slot place) (λ event. IsFirst (events_in E.key self.old.slots.items) (E.key event) event) }
        ensures here { event_at self.old.slots.items slot place ≡ Some result }
        ensures taken { events_in E.key self.new.slots.items ≡ remove (events_in E.key self.old.slots.items) (E.key result) }
    {
        let held = &mut self.slots[slot];
        self.base = held.events[place].key().at.ticks();
        self.marks.clear_if(slot, held.events.len() <= 1);
        held.take(place)
    }

    /// Spans the moments from this one on, unless it does so from a later one on. It has no earlier event.
    pub(crate) fn rise(&mut self, at: Moment)
        requires { (q : AKey) → contains_key (events_in E.key self.old.slots.items) q ≡ true → at ≤ q.at }
        ensures { events_in E.key self.new.slots.items ≡ events_in E.key self.old.slots.items }
    {
        if self.base < at.ticks() {
            self.base = at.ticks();
        }
    }

    /// The place of the slot with the least event.
    #[inline(always)]
    fn first_place(&self) -> Option<usize>
        ensures first { IfSome result (IsFirstPlace self.now.base (lists_of self.now.slots.items)) }
        ensures none { IfNone result ((place : ℕ) → place < 1024 → slot_at (lists_of self.now.slots.items) place ≡ []) }
    {
        let from = (self.base % SPAN) as usize;
        match self.marks.next(from) {
            Some(place) => Some(place),
            None => self.marks.next(0),
        }
    }
}
