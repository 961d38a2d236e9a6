//! The command `run`: reads the scenario, makes the run, and writes the trace, the report and the page.
#![tactic(auto)]

mod nowhere;
mod paging;
mod running;
mod simulating;
mod simulator;
mod storing;

pub use page_runs::RunShown;
pub use run_output::Summary;
pub use running::run;
pub use simulator::Simulator;
