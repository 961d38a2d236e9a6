//! The page of a run: one HTML file that shows what happened, without scripts.
#![tactic(auto)]

mod ends;
mod health;
mod kinds;
mod layout;
mod traffic;
mod whole;

pub use member_timelines::Run;
pub use whole::page;
