//! Rules 2 and 9 of the entries of version 4 that are about members: which keys an entry needs, which exclude each
//! other, and what may not be said of the members that it names.
#![tactic(auto)]

mod departures;
mod fault;
mod keys;
mod restarts;
mod script;
mod spells;
mod who;

pub use departures::first_bad_departure;
pub use fault::EntryFault;
pub use keys::{EntryKeys, ScriptList};
pub use restarts::first_bad_restart;
pub use script::check_entries;
pub use spells::first_bad_spell;
