//! The world of a drive: which event is sent next, which answer is taken, and which rows can be written.
#![tactic(auto)]

mod driving;
mod early;
mod ends;
mod fate;
mod handing;
mod harness;
pub mod laws;
mod opening;
mod pending;
mod processes;
mod setting;
mod turn;
mod waiting;
mod world;

pub use driving::{drive, write_end};
pub use ends::{DriveError, Stop};
pub use harness::{Harness, NoLine, Untold};
pub use setting::Setting;
