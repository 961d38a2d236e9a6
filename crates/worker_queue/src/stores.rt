//! Joins the wheel with a tree for events whose moment has no slot, and pops the lesser of their first events.
ghost use Rattle.std.specs.Prelude.{◌≡◌, ◌<◌, false, IsSome, IfOk, IfSome, IfNone, IfErr, OnOk, OnErr};
ghost use Rattle.std.specs.FinMap.{contains_key, insert, remove, empty};
ghost use Rattle.base.specs.declared.key.Key.{Key as AKey};
ghost use Rattle.base.specs.Order.{IsBefore};
ghost use Rattle.base.specs.Run.{IsFirst};
ghost use Rattle.worker_queue.specs.Queue.{IsLeastKey, NoneIsBelow};
ghost use Rattle.worker_queue.specs.Slots.{NoneIsBefore};
ghost use Rattle.worker_queue.specs.Union.{AreApart};
ghost use Rattle.worker_queue.specs.SetOf.{set_of};
ghost use Rattle.worker_queue.specs.Wheel.{events_in};
ghost use Rattle.worker_queue.specs.declared.stores.Place.TheVariants.{Late};

use crate::least::{first_key, is_before, lesser_key};
use crate::queue::EventQueue;
use crate::tree::TreeQueue;
use crate::wheel::Wheel;
use base::{Key, Keyed, Memory, Moment};
use std::alloc::Global;

/// Where the first of all events stands: in a slot, of which this names the place and then that of the event
/// in it, or in the tree.
#[derive(Clone, Copy)]
pub(crate) enum Place {
    Slot(usize, usize),
    Late,
}

/// Events in the slots of a wheel, and in an ordered tree those whose moment had no slot when they came.
/// Nothing moves from the one to the other.
#[derive(Drop)]
pub(crate) struct Stores<E: Keyed> {
    pub(crate) wheel: Wheel<E>,
    pub(crate) late: TreeQueue<E>,
    /// A moment that no late event comes before: where no late event is below the bound, a pop need not look
    /// into the tree.
    late_from: u64,
    ghost apart: { AreApart (events_in E.key wheel.slots.items) (set_of late) },
    ghost not_earlier: { NoneIsBelow (set_of late) late_from },
}

impl<E: Keyed + Drop> Stores<E> {
    ghost use Rattle.worker_queue.specs.Stores.{all_in, IsNextAt};

    /// No events. `Memory` where it was refused.
    pub(crate) fn new(alloc: Global) -> Result<Self, Memory>
        ensures { IfOk result (λ stores. all_in E.key stores ≡ empty) }
    {
        let wheel = Wheel::new(alloc)?;
        Ok(Stores {
            wheel,
            late: TreeQueue::new(alloc),
            late_from: u64::MAX,
        })
    }

    /// Takes in an event with a new key. Where memory is refused, the event is handed back, and all stays
    /// as it is.
    #[inline(always)]
    pub(crate) fn push(&mut self, event: E) -> Result<(), E>
        requires { contains_key (all_in E.key self.old) (E.key event) ≡ false }
        ensures ok { OnOk result (all_in E.key self.new ≡ insert (all_in E.key self.old) (E.key event) event) }
        ensures handed_back { IfErr result (λ refused. refused ≡ event) }
        ensures unchanged { OnErr result (all_in E.key self.new ≡ all_in E.key self.old) }
    {
        let at = event.key().at;
        if self.wheel.spans(at) {
            self.wheel.push(event)
        } else {
            self.late_from = self.late_from.min(at.ticks());
            self.late.push(event)
        }
    }

    /// The least key of the events: `None` where there is none.
    pub(crate) fn least(&self) -> Option<Key>
        ensures least { IfSome result (IsLeastKey (all_in E.key self.now)) }
        ensures none { IfNone result (all_in E.key self.now ≡ empty) }
    {
        lesser_key(self.wheel.least(), self.late.least())
    }

    /// Finds the place of the event with the least key, if its moment is below the bound: `None` where no
    /// event's is.
    #[inline(always)]
    pub(crate) fn find(&mut self, bound: Moment) -> Option<Place>
        ensures same { all_in E.key self.new ≡ all_in E.key self.old }
        ensures next { IfSome result (λ place. IsNextAt E.key self.new bound place) }
        ensures none { IfNone result (NoneIsBelow (all_in E.key self.old) bound) }
    {
        let limit = self.limit(bound);
        if let Some((slot, place)) = self.wheel.find(&limit) {
            return Some(Place::Slot(slot, place));
        }
        if limit.at.ticks() < bound.ticks() {
            Some(Place::Late)
        } else {
            None
        }
    }

    /// Takes out the event at a place, which is the first of all and below the bound. It takes no memory.
    #[inline(always)]
    pub(crate) fn pop_at(&mut self, place: Place, bound: Moment) -> Option<E>
        requires { IsNextAt E.key self.old bound place }
        ensures some { IsSome result }
        ensures first { IfSome result (λ event. IsFirst (all_in E.key self.old) (E.key event) event) }
        ensures below { IfSome result (λ event. (E.key event).at < bound) }
        ensures taken { IfSome result (λ event. all_in E.key self.new ≡ remove (all_in E.key self.old) (E.key event)) }
    {
        match place {
            Place::Slot(slot, place) => Some(self.wheel.pop_at(slot, place)),
            Place::Late => self.pop_late(bound),
        }
    }

    /// Takes out the first of the late events, which is the first of all and below the bound.
    fn pop_late(&mut self, bound: Moment) -> Option<E>
        requires { IsNextAt E.key self.old bound Late }
        ensures some { IsSome result }
        ensures first { IfSome result (λ event. IsFirst (all_in E.key self.old) (E.key event) event) }
        ensures below { IfSome result (λ event. (E.key event).at < bound) }
        ensures taken { IfSome result (λ event. all_in E.key self.new ≡ remove (all_in E.key self.old) (E.key event)) }
    {
        let event = self.late.pop_below(bound)?;
        self.wheel.rise(event.key().at);
        self.late_from = earliest(&self.late);
        Some(event)
    }

    /// The key that an event in a slot has to come before, to be the first of all and below the bound.
    #[inline(always)]
    fn limit(&self, bound: Moment) -> Key
        ensures late { NoneIsBefore (set_of self.now.late) result }
        ensures below { (q : AKey) → IsBefore q result → q.at < bound }
        ensures least { result.at < bound → IsLeastKey (set_of self.now.late) result }
    {
        let first = first_key(bound);
        if bound.ticks() <= self.late_from {
            return first;
        }
        let Some(key) = self.late.least() else {
            return first;
        };
        if is_before(&key, &first) { key } else { first }
    }
}

/// A moment that none of these events comes before, as late as may be.
fn earliest<E: Keyed + Drop>(events: &TreeQueue<E>) -> u64
    ensures { NoneIsBelow (set_of events.now) result }
{
    match events.least() {
        Some(key) => key.at.ticks(),
        None => u64::MAX,
    }
}
