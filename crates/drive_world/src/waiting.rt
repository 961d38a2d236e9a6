//! The events of a drive that were sent and wait for their answers, by their keys, in the order of sending.
ghost use Rattle.std.specs.Prelude.{◌≡◌, ◌++◌, ◌∷◌, ◌<◌, [], ℕ, List, false, true, length, OnOk, IfOk, IfSome, IfNone, slice_index_or};
ghost use Rattle.base.specs.declared.key.Key.{Key as AKey};
ghost use Rattle.drive_world.specs.Next.{has_one_for, are_of_different};

use base::{Key, MemberId, Memory};
use std::alloc::Global;
use std::collections::VecDeque;

/// The keys of the events that wait, and which members have one of them.
#[derive(Drop)]
pub(crate) struct Waiting {
    pub(crate) keys: VecDeque<Key>,
    pub(crate) busy: Vec<bool>,
    // A member is busy where it has an event that waits.
    ghost agrees: { (m : ℕ) → slice_index_or busy.items m false ≡ has_one_for m keys.items },
    // No member has two.
    ghost apart: { are_of_different keys.items ≡ true },
}

impl Waiting {
    /// No event waits, of so many members.
    pub(crate) fn new(alloc: Global, members: usize) -> Result<Self, Memory>
        ensures keys { IfOk result (λ waiting. waiting.keys.items ≡ []) }
        ensures members { IfOk result (λ waiting. length waiting.busy.items ≡ members) }
    {
        let mut busy = Vec::new(alloc);
        busy.resize(members, false)?;
        Ok(Waiting {
            keys: VecDeque::new(alloc),
            busy,
        })
    }

    /// Whether an event of the member waits.
    pub(crate) fn has(&self, member: &MemberId) -> bool
        ensures { result ≡ has_one_for member.now self.now.keys.items }
    {
        let place = member.index();
        place < self.busy.len() && self.busy[place]
    }

    /// The event of a key waits too: one of a member that has none so far.
    pub(crate) fn push(&mut self, key: &Key) -> Result<(), Memory>
        requires member { key.now.to < length self.old.busy.items }
        requires free { has_one_for key.now.to self.old.keys.items ≡ false }
        ensures keys { OnOk result (self.new.keys.items ≡ self.old.keys.items ++ key.now ∷ []) }
        ensures members { length self.new.busy.items ≡ length self.old.busy.items }
    {
        self.keys.push_back(*key)?;
        self.busy[key.to.index()] = true;
        Ok(())
    }

    /// The first of them, which takes the next answer.
    pub(crate) fn first(&self) -> Option<Key>
        ensures first { IfSome result (λ key. (others : List AKey) × (self.now.keys.items ≡ key ∷ others)) }
        ensures none { IfNone result (self.now.keys.items ≡ []) }
    {
        match self.keys.front() {
            Some(key) => Some(*key),
            None => None,
        }
    }

    /// The first of them waits no more.
    pub(crate) fn pop(&mut self) -> Option<Key>
        ensures first { IfSome result (λ key. self.old.keys.items ≡ key ∷ self.new.keys.items) }
        ensures none { IfNone result (self.old.keys.items ≡ []) }
        ensures members { length self.new.busy.items ≡ length self.old.busy.items }
    {
        let key = self.keys.pop_front()?;
        let place = key.to.index();
        if place < self.busy.len() {
            self.busy[place] = false;
        }
        Some(key)
    }
}
