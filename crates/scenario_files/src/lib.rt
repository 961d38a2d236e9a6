//! What a scenario's file holds, and the checks of the run that it asks for.
#![tactic(auto)]

mod checks;
mod loading;
mod texts;

pub use checks::{PreparedRun, prepare};
pub use loading::{MarkedDocument, file_failure, load, load_bytes, load_document};
pub use texts::{check, run_result};
