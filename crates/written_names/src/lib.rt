//! The names of a text of version 4: which form they have, and which member or group a name names.
#![tactic(auto)]

mod form;
mod roster;

pub use form::is_written_name;
pub use roster::{Found, NameFault, Roster, WrittenGroup};
