//! The event queue on a timing wheel, with a tree for moments that have no slot, and a count of its events.
ghost use Rattle.std.specs.Prelude.{◌≡◌, IfOk};
ghost use Rattle.std.specs.FinMap.{empty, len};
ghost use Rattle.worker_queue.specs.Stores.{all_in};

use crate::queue::EventQueue;
use crate::stores::Stores;
use base::{Key, Keyed, Memory, Moment};
use std::alloc::Global;

/// A queue that keeps the events of 1,024 moments in slots, one for each moment, and all others in an
/// ordered tree. The moments with slots begin at the latest moment of an event that was popped.
#[derive(Drop)]
pub struct WheelQueue<E: Keyed> {
    stores: Stores<E>,
    count: usize,
    ghost counted: { count ≡ len (all_in E.key stores) },
}

impl<E: Keyed + Drop> WheelQueue<E> {
    ghost use Rattle.worker_queue.specs.WheelView.{wheel_set_of};

    /// A queue with no events, whose slots are for the moments from 0 on. `Memory` where it was refused.
    pub fn new(alloc: Global) -> Result<Self, Memory>
        ensures { IfOk result (λ queue. wheel_set_of E.key queue ≡ empty) }
    {
        let stores = Stores::new(alloc)?;
        Ok(WheelQueue { stores, count: 0 })
    }
}

impl<E: Keyed + Drop> EventQueue<E> for WheelQueue<E> {
    ghost use Rattle.worker_queue.specs.WheelView.{wheel_set_of};

    ghost set = { wheel_set_of E.key };

    #[inline(always)]
    fn push(&mut self, event: E) -> Result<(), E> {
        // (so many events have no room in memory)
        if self.count == usize::MAX {
            return Err(event);
        }
        self.stores.push(event)?;
        self.count += 1;
        Ok(())
    }

    fn least(&self) -> Option<Key> {
        self.stores.least()
    }

    #[inline(always)]
    fn pop_below(&mut self, bound: Moment) -> Option<E> {
        // (the event moves once, from where it stands to the caller)
        let place = self.stores.find(bound)?;
        self.count -= 1;
        self.stores.pop_at(place, bound)
    }

    fn len(&self) -> usize {
        self.count
    }
}
