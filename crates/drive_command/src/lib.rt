//! The command `drive`: plays a scenario's world for a harness, and writes the trace, the report and the page.
#![tactic(auto)]

mod driving;
mod ends;
mod making;
mod pipe_harness;
mod playing;

pub use driving::drive;
pub use pipe_harness::PipeHarness;
