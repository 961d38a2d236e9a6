//! What a run writes into its sinks: the trace, then the report.
#![tactic(auto)]

mod ending;
mod gathering;
mod summary;
mod taking;
mod writing;

pub use ending::end_run;
pub use gathering::{NothingGathered, RowObserver};
pub use summary::Summary;
pub use taking::{RowSink, TalliedAlone, TraceAndGathered, Written, take_on};
pub use writing::{flush, write_run, write_tallied};
