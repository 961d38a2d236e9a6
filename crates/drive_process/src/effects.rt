//! An event of a drive with the key that orders it, and what events make: new events and rows of the trace.
use base::{Key, Keyed};
use drive_events::Content;
use trace::Row;

/// An event: its key, and what it asks of its receiver.
#[derive(Debug, Drop)]
pub struct ProcessEvent {
    pub key: Key,
    pub content: Content,
}

impl Keyed for ProcessEvent {
    ghost key = { λ event. event.key };

    fn key(&self) -> Key {
        self.key
    }
}

/// What an event has made: events, and rows of the trace, each in the order made.
#[derive(Debug, Drop)]
pub struct ProcessEffects {
    pub events: Vec<ProcessEvent>,
    pub rows: Vec<Row>,
}
