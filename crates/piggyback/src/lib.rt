//! The buffer of updates that messages carry (SWIM, section 4.1), and Lifeguard's Buddy System.
#![tactic(auto)]

ghost use Rattle.std.specs.Prelude.{◌≡◌, ℕ, ◌≤◌, ◌==◌, ◌↔◌, IsTrue, IsSome, IfSome, IsOk, IfOk, OnOk, OnErr, IsOkAnd, vec_len, count_by};
ghost use Rattle.std.specs.FinMap.{empty, get, insert};
ghost use Rattle.piggyback.specs.Picked.{picked, waiting, left_after, left_by_pick};

mod entries;
mod front;
pub mod laws;
mod order;

use base::{MemberId, Memory};
use entries::{count_sent, entry_of, set};
use incarnation::Update;
use order::picked_of;
use std::alloc::Global;
use std::marker::Model;

/// Updates that are still to be sent, at most one about each member, each with the number of picks
/// that carried its subject since it was put.
#[derive(Debug, Drop)]
pub struct Buffer {
    // In the order in which they are sent.
    entries: Vec<(Update, u64)>,
}

impl Model for Buffer {
    ghost use Rattle.std.specs.Prelude.{IsTrue};
    ghost use Rattle.std.specs.FinMap.{from_entries};
    ghost use Rattle.piggyback.specs.Picked.{HeldUpdates};
    ghost use Rattle.piggyback.specs.Keyed.{keyed, is_in_order};
    ghost use Rattle.std.specs.Coded.{coded_ℕ, coded×};
    ghost use Rattle.std.specs.FinMap.{code};
    ghost use Rattle.incarnation.specs.contracts.Update as update;

    ghost Value = { HeldUpdates };

    ghost coded = { code coded_ℕ (coded× update.the_row.coded coded_ℕ) };

    ghost view = { λ buffer. from_entries (keyed buffer.entries.items) };

    ghost invariant = { λ buffer. IsTrue (is_in_order buffer.entries.items) };
}

impl Buffer {
    /// A buffer without updates. It takes no memory.
    pub fn new(alloc: Global) -> Result<Self, Memory>
        ensures { IsOkAnd result (λ buffer. buffer ≡ empty) }
    {
        Ok(Self {
            entries: Vec::new(alloc),
        })
    }

    /// Puts an update in the place of what is there about its subject, sent no times yet. A refusal
    /// leaves the buffer as it was, and comes only where nothing is there about the subject.
    pub fn put(&mut self, update: Update) -> Result<(), Memory>
        ensures ok { OnOk result (self.new ≡ insert self.old update.subject (update, 0)) }
        ensures err { OnErr result (self.new ≡ self.old) }
        ensures replaces { IsSome (get self.old update.subject) → IsOk result }
    {
        set(&mut self.entries, update)
    }

    /// The updates for one message, at most `carry`: the buddy, then those that were sent fewer than
    /// `limit` times, the least sent first. Each of their subjects is then sent once more, and what
    /// was sent `limit` times is dropped. A refusal leaves the buffer as it was.
    pub fn pick(
        &mut self,
        carry: usize,
        limit: u64,
        buddy: Option<Update>,
    ) -> Result<Vec<Update>, Memory>
        ensures answer { IfOk result (λ updates. updates.items ≡ picked self.old carry limit buddy) }
        ensures ok { OnOk result (self.new ≡ left_by_pick self.old carry limit buddy) }
        ensures err { OnErr result (self.new ≡ self.old) }

        // A message carries no more than it may, and no subject twice.
        ensures at_most { IfOk result (λ updates. vec_len updates ≤ carry) }
        ensures each_subject_once { IfOk result (λ updates. (subject : ℕ)
            → count_by (λ update. update.subject == subject) updates.items ≤ 1) }
    {
        let alloc = *self.entries.allocator();
        let updates = picked_of(alloc, &self.entries, carry, limit, buddy)?;
        count_sent(&mut self.entries, &updates, limit);
        Ok(updates)
    }

    /// The updates that were sent fewer than `limit` times, in the order in which they are sent.
    pub fn waiting(&self, limit: u64) -> Result<Vec<Update>, Memory>
        ensures waiting { IfOk result (λ updates. updates.items ≡ waiting self.now limit) }
        ensures each_subject_once { IfOk result (λ updates. (subject : ℕ)
            → count_by (λ update. update.subject == subject) updates.items ≤ 1) }
    {
        let alloc = *self.entries.allocator();
        picked_of(alloc, &self.entries, self.entries.len(), limit, None)
    }

    /// A message carries these updates: what is about the subject of each was sent once more, and what was
    /// sent `limit` times is dropped.
    pub fn carried(&mut self, updates: &[Update], limit: u64)
        requires once { (subject : ℕ) → count_by (λ update. update.subject == subject) updates.now ≤ 1 }
        ensures { self.new ≡ left_after self.old updates.now limit }
    {
        count_sent(&mut self.entries, updates, limit);
    }

    /// Whether it has no updates.
    pub fn is_empty(&self) -> bool
        ensures { IsTrue result ↔ (self.now ≡ empty) }
    {
        self.entries.is_empty()
    }

    /// The update about a member, if there is one, and how often it was sent.
    pub fn of(&self, subject: MemberId) -> Option<(Update, u64)>
        ensures found { result ≡ get self.now subject }
        ensures own { IfSome result (λ it. it.0.subject ≡ subject) }
    {
        entry_of(&self.entries, subject)
    }
}
