//! The trait of a priority queue of events: the event with the least key leaves first, if its moment is below a bound.
ghost use Rattle.std.specs.Prelude.{◌≡◌, ◌<◌, ◌↔◌, false, IsTrue, IfSome, IfNone, IfErr, OnOk, OnErr};
ghost use Rattle.std.specs.FinMap.{FinMap, contains_key, insert, remove, empty, len};
ghost use Rattle.base.specs.Order.{key_cmp};
ghost use Rattle.base.specs.Run.{IsFirst};
ghost use Rattle.worker_queue.specs.Queue.{IsLeastKey, NoneIsBelow};

use base::{Key, Keyed, Moment};

/// Events with unique keys, of which the one with the least key leaves first.
pub trait EventQueue<E: Keyed> {
    // its events, by their keys
    ghost set: { Self → FinMap key_cmp E };

    /// Takes in an event, with a key that none of its events has. Where memory is refused, the event
    /// is handed back, and the queue is as it was.
    fn push(&mut self, event: E) -> Result<(), E>
        requires { contains_key (set self.old) (E.key event) ≡ false }
        ensures ok { OnOk result (set self.new ≡ insert (set self.old) (E.key event) event) }
        ensures handed_back { IfErr result (λ refused. refused ≡ event) }
        ensures unchanged { OnErr result (set self.new ≡ set self.old) };

    /// The least key of its events: `None` where there is none.
    fn least(&self) -> Option<Key>
        ensures least { IfSome result (IsLeastKey (set self.now)) }
        ensures none { IfNone result (set self.now ≡ empty) };

    /// Takes out the event with the least key, if its moment is below the bound: `None` where no event's
    /// is. It takes no memory.
    fn pop_below(&mut self, bound: Moment) -> Option<E>
        ensures first { IfSome result (λ event. IsFirst (set self.old) (E.key event) event) }
        ensures below { IfSome result (λ event. (E.key event).at < bound) }
        ensures taken { IfSome result (λ event. set self.new ≡ remove (set self.old) (E.key event)) }
        ensures none { IfNone result (NoneIsBelow (set self.old) bound) }
        ensures unchanged { IfNone result (set self.new ≡ set self.old) };

    /// How many events it has.
    fn len(&self) -> usize
        ensures { result ≡ len (set self.now) };

    /// Whether it has no event.
    fn is_empty(&self) -> bool
        ensures { IsTrue result ↔ (set self.now ≡ empty) }
    {
        self.len() == 0
    }
}
