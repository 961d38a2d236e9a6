//! What the entries of a text of version 4 stand for: of each how many plain entries, the first and the last of them.
#![tactic(auto)]

mod entries;
mod extent;
mod happening;
mod summary;
mod text;

pub use entries::{EntrySummary, have_several};
pub use extent::Extent;
pub use happening::Happening;
pub use summary::{RestartSummary, ScriptSummary};
pub use text::summary_of;
