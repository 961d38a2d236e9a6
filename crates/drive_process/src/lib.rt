//! What the world of a drive keeps of a member, and what it makes of an event by the actions that were answered.
#![tactic(auto)]

mod acting;
mod effects;
mod here;
pub mod laws;
mod process;
mod sending;
mod words;

pub use acting::heed;
pub use effects::{ProcessEffects, ProcessEvent};
pub use process::{Process, ProcessPhase};
