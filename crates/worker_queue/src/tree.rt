//! The event queue on a B-tree map, which can also take out the least event of one receiver.
ghost use Rattle.std.specs.Prelude.{◌≡◌, ◌<◌, Some, IfSome, IfNone};
ghost use Rattle.std.specs.FinMap.{empty, get, remove};
ghost use Rattle.worker_queue.specs.Queue.{IsLeastKeyFor, NoneIsBelowFor};
ghost use Rattle.worker_queue.specs.Tree.{IsKeyed};

use crate::queue::EventQueue;
use base::{Key, Keyed, MemberId, Moment};
use std::alloc::Global;
use std::collections::BTreeMap;

/// A queue that keeps its events in an ordered map.
#[derive(Drop)]
pub struct TreeQueue<E: Keyed> {
    events: BTreeMap<Key, E>,
    ghost keyed: { IsKeyed E.key events },
}

impl<E: Keyed + Drop> TreeQueue<E> {
    ghost use Rattle.worker_queue.specs.SetOf.{set_of};

    /// A queue with no events. It takes no memory.
    pub fn new(alloc: Global) -> Self
        ensures { set_of result ≡ empty }
    {
        TreeQueue {
            events: BTreeMap::new(alloc),
        }
    }

    /// Takes out the event with the least key of those for this receiver, if its moment is below the
    /// bound: `None` where none of them is. It goes over the events below the bound alone, and takes no
    /// memory.
    pub fn take_for(&mut self, receiver: MemberId, bound: Moment) -> Option<E>
        ensures here { IfSome result (λ event. get (set_of self.old) (E.key event) ≡ Some event) }
        ensures first { IfSome result (λ event. IsLeastKeyFor (set_of self.old) receiver (E.key event)) }
        ensures below { IfSome result (λ event. (E.key event).at < bound) }
        ensures taken { IfSome result (λ event. set_of self.new ≡ remove (set_of self.old) (E.key event)) }
        ensures none { IfNone result (NoneIsBelowFor (set_of self.old) receiver bound) }
        ensures unchanged { IfNone result (set_of self.new ≡ set_of self.old) }
    {
        let key = self.least_for(receiver, bound)?;
        self.events.remove(&key)
    }

    /// The least key of the events for this receiver, if its moment is below the bound.
    fn least_for(&self, receiver: MemberId, bound: Moment) -> Option<Key>
        ensures first { IfSome result (IsLeastKeyFor (set_of self.now) receiver) }
        ensures below { IfSome result (λ key. key.at < bound) }
        ensures none { IfNone result (NoneIsBelowFor (set_of self.now) receiver bound) }
    {
        for key in self.events.keys() {
            if bound <= key.at {
                return None;
            }
            if key.to == receiver {
                return Some(*key);
            }
        }
        None
    }
}

impl<E: Keyed + Drop> EventQueue<E> for TreeQueue<E> {
    ghost use Rattle.worker_queue.specs.SetOf.{set_of};

    ghost set = { set_of };

    fn push(&mut self, event: E) -> Result<(), E> {
        match self.events.insert(event.key(), event) {
            Ok(_) => Ok(()),
            Err(refused) => Err(refused.value.1),
        }
    }

    fn least(&self) -> Option<Key> {
        match self.events.first_key_value() {
            Some((key, _)) => Some(*key),
            None => None,
        }
    }

    fn pop_below(&mut self, bound: Moment) -> Option<E> {
        let least = self.least()?;
        if bound <= least.at {
            return None;
        }
        let (_, event) = self.events.pop_first()?;
        Some(event)
    }

    fn len(&self) -> usize {
        self.events.len()
    }
}
