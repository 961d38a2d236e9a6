//! What a life has still to send: intents, and updates in memberlist's queue.
ghost use Rattle.std.specs.Prelude.{◌≡◌, ◌==◌, ◌<◌, ◌≤◌, ◌^◌, ℕ, [], true, nat_lt, None, map, count_by, IfOk, OnOk, IsTrue, ◌↔◌};
ghost use Rattle.std.specs.FinMap.{contains_key, empty, insert};
ghost use Rattle.piggyback.specs.Picked.{left_after, left_by_pick, picked, waiting};
ghost use Rattle.broadcast_queue.specs.Broadcasts.{after_pick, after_put};
ghost use Rattle.broadcast_queue.specs.Items.{is_about, room_after, those_that_fit};
ghost use Rattle.broadcast_queue.specs.declared.items.Measure.TheVariants.{Items, Bytes};
ghost use Rattle.std.specs.List.{list_any};
ghost use Rattle.lives.specs.Lives.{life_of};

use crate::life::Life;
use base::{MemberId, Memory};
use broadcast_queue::Packed;
use incarnation::Update;
use std::alloc::Global;

/// Intents.
impl Life {
    /// Whether there are no intents to be sent.
    pub fn has_no_intents(&self) -> bool
        ensures { IsTrue result ↔ ((life_of self.now).intents ≡ empty) }
    {
        match &self.kept {
            None => true,
            Some(kept) => kept.intents.is_empty(),
        }
    }

    /// Whether an intent about a member is still to be sent.
    pub fn has_intent(&self, subject: MemberId) -> bool
        ensures { result ≡ contains_key (life_of self.now).intents subject }
    {
        match &self.kept {
            None => false,
            Some(kept) => kept.intents.of(subject).is_some(),
        }
    }

    /// Puts an intent, sent no times yet.
    pub fn put_intent(&mut self, alloc: Global, intent: Update) -> Result<(), Memory>
        ensures { OnOk result (life_of self.new ≡ record (life_of self.old) {
          intents = insert (life_of self.old).intents intent.subject (intent, 0);
        }) }
    {
        self.reach(alloc)?;
        match &mut self.kept {
            None => Ok(()),
            Some(kept) => kept.intents.put(intent),
        }
    }

    /// The intents for one message, at most so many.
    pub fn pick_intents(
        &mut self,
        alloc: Global,
        carry: usize,
        limit: u64,
    ) -> Result<Vec<Update>, Memory>
        ensures picked { IfOk result (λ intents. intents.items ≡ picked (life_of self.old).intents carry limit None) }
        ensures left { OnOk result (life_of self.new ≡ record (life_of self.old) {
          intents = left_by_pick (life_of self.old).intents carry limit None;
        }) }
    {
        match &mut self.kept {
            None => Ok(Vec::new(alloc)),
            Some(kept) => kept.intents.pick(carry, limit, None),
        }
    }

    /// The intents that may still be sent, in their order.
    pub fn waiting_intents(&self, alloc: Global, limit: u64) -> Result<Vec<Update>, Memory>
        ensures waiting { IfOk result (λ intents. intents.items ≡ waiting (life_of self.now).intents limit) }
        ensures each_subject_once { IfOk result (λ intents. (subject : ℕ)
            → count_by (λ intent. intent.subject == subject) intents.items ≤ 1) }
    {
        match &self.kept {
            None => Ok(Vec::new(alloc)),
            Some(kept) => kept.intents.waiting(limit),
        }
    }

    /// A message carries these intents.
    pub fn carry_intents(&mut self, intents: &[Update], limit: u64)
        requires once { (subject : ℕ) → count_by (λ intent. intent.subject == subject) intents.now ≤ 1 }
        ensures { life_of self.new ≡ record (life_of self.old) {
          intents = left_after (life_of self.old).intents intents.now limit;
        } }
    {
        if let Some(kept) = &mut self.kept {
            kept.intents.carried(intents, limit);
        }
    }
}

/// Updates in memberlist's queue.
impl Life {
    /// Whether the queue has no updates.
    pub fn has_empty_queue(&self) -> bool
        ensures { IsTrue result ↔ ((life_of self.now).queue.items ≡ []) }
    {
        match &self.kept {
            None => true,
            Some(kept) => kept.queue.is_empty(),
        }
    }

    /// Whether an update about a member is in the queue.
    pub fn is_queued(&self, subject: MemberId) -> bool
        ensures { result ≡ list_any (is_about subject) (life_of self.now).queue.items }
    {
        match &self.kept {
            None => false,
            Some(kept) => kept.queue.of(subject).is_some(),
        }
    }

    /// Whether the queue has an id for one more update.
    pub fn has_id(&self) -> bool
        ensures { result ≡ nat_lt (life_of self.now).queue.counter (2 ^ 63) }
    {
        match &self.kept {
            None => true,
            Some(kept) => kept.queue.has_id(),
        }
    }

    /// Puts an update whose message has so many bytes into the queue.
    pub fn queue(&mut self, alloc: Global, update: Update, size: u64) -> Result<(), Memory>
        requires { (life_of self.old).queue.counter < 2 ^ 63 }
        ensures { OnOk result (life_of self.new ≡ record (life_of self.old) {
          queue = after_put true update size (life_of self.old).queue;
        }) }
    {
        self.reach(alloc)?;
        match &mut self.kept {
            None => Ok(()),
            Some(kept) => kept.queue.put(update, size),
        }
    }

    /// The updates of the queue for one message, at most so many.
    pub fn pick_queued(
        &mut self,
        alloc: Global,
        carry: usize,
        limit: u64,
    ) -> Result<Vec<Update>, Memory>
        ensures picked { IfOk result (λ updates.
            updates.items ≡ map (λ it. it.update) (those_that_fit Items carry (life_of self.old).queue.items)) }
        ensures left { OnOk result (life_of self.new ≡ record (life_of self.old) {
          queue = after_pick true (those_that_fit Items carry (life_of self.old).queue.items) limit
              (life_of self.old).queue;
        }) }
    {
        match &mut self.kept {
            None => Ok(Vec::new(alloc)),
            Some(kept) => kept.queue.pick(carry, limit),
        }
    }

    /// The updates of the queue for one message that has so many bytes for them, and the bytes that are left.
    pub fn pack_queued(&mut self, alloc: Global, room: u64, limit: u64) -> Result<Packed, Memory>
        ensures picked { IfOk result (λ packed. packed.updates.items
            ≡ map (λ it. it.update) (those_that_fit Bytes room (life_of self.old).queue.items)) }
        ensures room { IfOk result (λ packed. packed.room ≡ room_after room (life_of self.old).queue.items) }
        ensures left { OnOk result (life_of self.new ≡ record (life_of self.old) {
          queue = after_pick true (those_that_fit Bytes room (life_of self.old).queue.items) limit
              (life_of self.old).queue;
        }) }
    {
        match &mut self.kept {
            None => Ok(Packed {
                updates: Vec::new(alloc),
                room,
            }),
            Some(kept) => kept.queue.pick_by_bytes(room, limit),
        }
    }
}
