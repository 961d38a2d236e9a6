//! The two ends of a ring between threads, and how they wait.
ghost use Rattle.std.specs.Prelude.{List, Some, IfSome};

use crate::event_count::EventCount;
use crate::spin_policy::SpinPolicy;
use base::Memory;
use rtrb::{Consumer, Producer, Protocol, RingBuffer};
use std::alloc::Global;
use std::sync::Wait;

/// The end of a ring by which a thread sends to another.
#[derive(Drop)]
pub(crate) struct Sender<'b, T: Drop, P: Protocol<T>> {
    end: Producer<T, Global, P>,
    // of whoever takes
    theirs: &'b EventCount,
}

/// The end of a ring by which a thread takes what another sends.
#[derive(Drop)]
pub(crate) struct Taker<'b, T: Drop, P: Protocol<T>> {
    end: Consumer<T, Global, P>,
    own: &'b EventCount,
}

/// A ring with room for so much, to the thread of that event count.
pub(crate) fn ring_between<'b, T: Drop, P: Protocol<T>>(
    alloc: Global,
    room: usize,
    taker: &'b EventCount,
) -> Result<(Sender<'b, T, P>, Taker<'b, T, P>), Memory> {
    let (producer, consumer) = match RingBuffer::with_protocol::<Global, P>(alloc, room) {
        Ok(ends) => ends,
        Err(_) => return Err(Memory),
    };
    let sends = Sender {
        end: producer,
        theirs: taker,
    };
    let takes = Taker {
        end: consumer,
        own: taker,
    };
    Ok((sends, takes))
}

impl<'b, T: Drop, P: Protocol<T>> Sender<'b, T, P> {
    /// Sends at once. False where there is no room: then it is lost.
    pub(crate) fn send_at_once(&mut self, item: T) -> bool
        requires allowed { (before : List T) → P.allows before item }
    {
        match self.end.push(item) {
            Ok(()) => {
                self.theirs.notify();
                true
            }
            Err(_) => false,
        }
    }
}

impl<'b, T: Drop, P: Protocol<T>> Taker<'b, T, P> {
    /// What comes next. None where nobody sends any more.
    pub(crate) fn take(&mut self, rt: &impl Wait, patience: &mut SpinPolicy) -> Option<T>
        ensures allowed { IfSome result (λ item. (before : List T) × P.allows before item) }
    {
        match self.look(patience.looks()) {
            Some(item) => {
                patience.served();
                Some(item)
            }
            None => {
                patience.looked_in_vain();
                self.await_next(rt, patience)
            }
        }
    }

    /// What is left in the ring.
    fn last(&mut self) -> Option<T>
        ensures allowed { IfSome result (λ item. (before : List T) × P.allows before item) }
    {
        match self.end.pop() {
            Ok(item) => Some(item),
            Err(_) => None,
        }
    }

    /// Looks so many times.
    fn look(&mut self, looks: usize) -> Option<T>
        ensures allowed { IfSome result (λ item. (before : List T) × P.allows before item) }
    {
        for _ in 0..looks {
            match self.end.pop() {
                Ok(item) => return Some(item),
                Err(_) => {}
            }
        }
        None
    }

    /// Sleeps until something comes. None where nobody sends any more.
    fn await_next(&mut self, rt: &impl Wait, patience: &mut SpinPolicy) -> Option<T>
        ensures allowed { IfSome result (λ item. (before : List T) × P.allows before item) }
    {
        for _ in rt.forever() {
            let seen = self.own.prepare_wait();
            match self.end.pop() {
                Ok(item) => {
                    self.own.cancel_wait();
                    return Some(item);
                }
                Err(_) => {}
            }
            if self.end.is_abandoned() {
                self.own.cancel_wait();
                return self.last();
            }
            patience.sleeps();
            self.own.wait(rt, seen);
        }
        unreachable!()
    }
}
