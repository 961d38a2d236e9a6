//! memberlist's queue of broadcasts, with its fault: the ids begin anew whenever the queue is empty.
#![tactic(auto)]

ghost use Rattle.std.specs.Prelude.{◌≡◌, ◌-◌, ◌<◌, ◌^◌, true, nat_lt, IfOk, OnOk, OnErr, IsTrue, ◌↔◌, [], ◌∷◌, map, find, sum_by};
ghost use Rattle.broadcast_queue.specs.Items.{cost, is_about, those_that_fit};
ghost use Rattle.broadcast_queue.specs.Broadcasts.{after_pick, after_put, new_queue};

mod contents;
mod items;
pub mod laws;
mod lengths;
#[cfg(test)]
mod tests;

use base::limits::COUNTER_LIMIT;
use base::{MemberId, Memory};
use contents::Contents;
use incarnation::Update;
pub use items::{Item, Measure};
use items::{picked_of, place_of_subject, room_left, updates_of};
pub use lengths::{Carrier, message_length, room_for, text_length};
use std::alloc::Global;
use std::marker::Model;

/// Updates that are still to be sent, with how often each was sent, its message's length and its id.
#[derive(Debug, Drop)]
pub struct BroadcastQueue {
    contents: Contents,
}

impl Model for BroadcastQueue {
    ghost use Rattle.broadcast_queue.specs.Broadcasts.{Queue, queue_code};
    ghost use Rattle.broadcast_queue.specs.Contents.{held, IsSound};

    ghost Value = { Queue };

    ghost coded = { queue_code };

    ghost view = { λ queue. held queue.contents };

    ghost invariant = { λ queue. IsSound queue.contents };
}

/// The updates that were picked into a message's bytes, and the bytes that are left.
#[derive(Debug, Drop)]
pub struct Packed {
    pub updates: Vec<Update>,
    pub room: u64,
}

impl BroadcastQueue {
    /// A queue without updates. It takes no memory.
    pub fn new(alloc: Global) -> Self
        ensures { result ≡ new_queue }
    {
        Self {
            contents: Contents {
                items: Vec::new(alloc),
                lost: Vec::new(alloc),
                counter: 0,
            },
        }
    }

    /// Whether the counter of ids can rise: it is below 2^63.
    pub fn has_id(&self) -> bool
        ensures { result ≡ nat_lt self.now.counter (2 ^ 63) }
    {
        self.contents.counter < COUNTER_LIMIT
    }

    /// Puts an update whose message has so many bytes. A refusal leaves the queue as it was.
    pub fn put(&mut self, update: Update, size: u64) -> Result<(), Memory>
        requires { self.old.counter < 2 ^ 63 }
        ensures ok { OnOk result (self.new ≡ after_put true update size self.old) }
        ensures err { OnErr result (self.new ≡ self.old) }
    {
        self.contents.make_room(1, 1)?;
        self.contents.put(update, size);
        Ok(())
    }

    /// The updates for one message, at most `carry`: the first ones by key. Those that were then sent
    /// fewer than `limit` times stay in the queue. A refusal leaves the queue as it was.
    pub fn pick(&mut self, carry: usize, limit: u64) -> Result<Vec<Update>, Memory>
        ensures picked { IfOk result (λ updates.
            updates.items ≡ map (λ it. it.update) (those_that_fit Measure.Items carry self.old.items)) }
        ensures ok { OnOk result
            (self.new ≡ after_pick true (those_that_fit Measure.Items carry self.old.items) limit self.old) }
        ensures err { OnErr result (self.new ≡ self.old) }
    {
        let alloc = *self.contents.items.allocator();
        let picked = picked_of(alloc, &self.contents.items, Measure::Items, carry as u64)?;
        let updates = updates_of(alloc, &picked)?;
        self.contents.send(&picked, limit)?;
        Ok(updates)
    }

    /// The updates for one message that has so many bytes for them: by key, each that fits into the
    /// room left with the two bytes that say how long it is. Those that were then sent fewer than
    /// `limit` times stay in the queue. A refusal leaves the queue as it was.
    pub fn pick_by_bytes(&mut self, room: u64, limit: u64) -> Result<Packed, Memory>
        ensures picked { IfOk result (λ packed.
            packed.updates.items ≡ map (λ it. it.update) (those_that_fit Measure.Bytes room self.old.items)) }
        ensures room { IfOk result (λ packed.
            packed.room ≡ room - sum_by (cost Measure.Bytes) (those_that_fit Measure.Bytes room self.old.items)) }
        ensures ok { OnOk result
            (self.new ≡ after_pick true (those_that_fit Measure.Bytes room self.old.items) limit self.old) }
        ensures err { OnErr result (self.new ≡ self.old) }
    {
        let alloc = *self.contents.items.allocator();
        let picked = picked_of(alloc, &self.contents.items, Measure::Bytes, room)?;
        let updates = updates_of(alloc, &picked)?;
        let left = room_left(&picked, room);
        self.contents.send(&picked, limit)?;
        Ok(Packed {
            updates,
            room: left,
        })
    }

    /// Whether it has no updates.
    pub fn is_empty(&self) -> bool
        ensures { IsTrue result ↔ (self.now.items ≡ []) }
    {
        self.contents.items.is_empty()
    }

    /// The item about a member, if there is one.
    pub fn of(&self, subject: MemberId) -> Option<Item>
        ensures { result ≡ find (is_about subject) self.now.items }
    {
        match place_of_subject(&self.contents.items, subject) {
            Some(place) => Some(self.contents.items[place]),
            None => None,
        }
    }
}
