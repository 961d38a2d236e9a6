//! The command `sweep`: the runs of a scenario file with several settings, and the file with their table.
#![tactic(auto)]

mod checks;
mod making;
mod paging;
mod progressing;
mod resuming;
mod sweeping;
mod workers;

pub use sweeping::sweep_file;
