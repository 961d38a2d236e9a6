//! An event with the key that orders it, and the effects of steps: new events and rows of the trace.
ghost use Rattle.std.specs.Prelude.{◌≡◌};

use crate::event_kind::EventKind;
use base::{Key, Keyed};
use trace::Row;

/// An event: its key, and what it asks of its receiver.
#[derive(Clone, Debug, Drop)]
pub struct Event {
    pub key: Key,
    pub content: EventKind,
}

impl Keyed for Event {
    ghost key = { λ event. event.key };

    fn key(&self) -> Key {
        self.key
    }
}

/// What steps have made: events, and rows of the trace, each in the order made.
#[derive(Debug, Drop)]
pub struct Effects {
    pub events: Vec<Event>,
    pub rows: Vec<Row>,
}
