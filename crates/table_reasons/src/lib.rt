//! Why tables aren't joined, and what to do.
#![tactic(auto)]

mod finding;
mod reason;
mod told;
mod torn;

pub use finding::table_reason;
pub use reason::TableReason;
pub use torn::torn_line;
