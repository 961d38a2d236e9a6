//! The events of a drive that pend, by their keys, with those that wait for their answers.
ghost use Rattle.std.specs.Prelude.{◌≡◌, ◌<◌, ◌≤◌, OnOk, IfSome, IfNone, map};
ghost use Rattle.std.specs.Option.{option_copied};
ghost use Rattle.std.specs.FinMap.{empty, get, insert, remove};
ghost use Rattle.base.specs.World.{with_events};
ghost use Rattle.drive_process.specs.ProcessOf.{pair_of};
ghost use Rattle.worker_queue.specs.Queue.{IsLeastKey};
ghost use Rattle.drive_world.specs.WorldOf.{events_in};
ghost use Rattle.drive_world.specs.Next.{IsFirstFree, IsFreeBelow};

use crate::waiting::Waiting;
use base::{Key, Memory, Moment};
use drive_events::Content;
use drive_process::ProcessEvent;
use std::alloc::Global;
use std::collections::BTreeMap;

/// Events that pend, in the order of their keys.
#[derive(Drop)]
pub(crate) struct Pending {
    pub(crate) contents: BTreeMap<Key, Content>,
}

impl Pending {
    /// No event pends. It takes no memory.
    pub(crate) fn new(alloc: Global) -> Self
        ensures { events_in result ≡ empty }
    {
        Pending {
            contents: BTreeMap::new(alloc),
        }
    }

    /// One more event pends.
    pub(crate) fn push(&mut self, event: ProcessEvent) -> Result<(), Memory>
        ensures { OnOk result (events_in self.new ≡ insert (events_in self.old) event.key event.content) }
    {
        let ProcessEvent { key, content } = event;
        match self.contents.insert(key, content) {
            Ok(_) => Ok(()),
            Err(_) => Err(Memory),
        }
    }

    /// These events pend too.
    pub(crate) fn push_all(&mut self, events: Vec<ProcessEvent>) -> Result<(), Memory>
        ensures { OnOk result (events_in self.new ≡ with_events (events_in self.old) (map pair_of events.items)) }
    {
        for event in events {
            self.push(event)?;
        }
        Ok(())
    }

    /// The least key of all events that pend: `None` where none does.
    pub(crate) fn least(&self) -> Option<Key>
        ensures least { IfSome result (IsLeastKey (events_in self.now)) }
        ensures none { IfNone result (events_in self.now ≡ empty) }
    {
        match self.contents.first_key_value() {
            Some((key, _)) => Some(*key),
            None => None,
        }
    }

    /// The least key of those before a moment whose members have no event that waits.
    pub(crate) fn first_free(&self, bound: Moment, waiting: &Waiting) -> Option<Key>
        ensures first { IfSome result (IsFirstFree bound (events_in self.now) waiting.now.keys.items) }
        ensures none { IfNone result ((k : _) → ¬ (IsFreeBelow bound (events_in self.now) waiting.now.keys.items k)) }
    {
        for key in self.contents.keys() {
            if bound <= key.at {
                return None;
            }
            if !waiting.has(&key.to) {
                return Some(*key);
            }
        }
        None
    }

    /// What the event of a key asks.
    pub(crate) fn content(&self, key: &Key) -> Option<&Content>
        ensures { option_copied result ≡ get (events_in self.now) key.now }
    {
        self.contents.get(key)
    }

    /// The event of a key pends no more.
    pub(crate) fn take(&mut self, key: &Key) -> Option<Content>
        ensures content { result ≡ get (events_in self.old) key.now }
        ensures rest { events_in self.new ≡ remove (events_in self.old) key.now }
    {
        self.contents.remove(key)
    }
}
