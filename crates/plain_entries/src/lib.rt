//! The plain entries that a text's crashes, leaves, restarts, slow times, pauses and blocks stand for: one member an
//! entry, whole moments, no chance.
#![tactic(auto)]

mod departures;
mod drawing;
mod entry;
mod listing;
mod plain;
mod restarts;
mod script;
mod spells;
mod timing;
mod turn;
mod who;

pub use departures::{Back, Departure, DepartureTime};
pub use entry::Entry;
pub use plain::Plain;
pub use restarts::{Restart, RestartTime};
pub use script::{PlainScript, Script, plain_script};
pub use spells::SpellTime;
pub use who::Who;
