//! The command `explain`: all diagnostics of the scenario of a file that is refused, or what one that is accepted
//! means.
#![tactic(auto)]

mod accepting;
mod answer;
mod explaining;
mod telling;

pub use explaining::explain_file;
