//! The shards of a sweep put together: the table of the whole, and the lines of its settings.
#![tactic(auto)]

mod behind;
mod fault;
mod first_run;
mod head;
mod joining;
pub mod laws;
mod places;
mod settings_read;

pub use behind::lines_at;
pub use fault::JoinFault;
pub use head::{Head, begins_as, head_of, head_of_any, number_of, read_plan};
pub use joining::{Joined, first_head, flush, join, put_header};
pub use places::text_at;
