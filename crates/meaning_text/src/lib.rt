//! What `explain` prints of an accepted scenario: figures, events and warnings, as lines.
#![tactic(auto)]

mod calls;
mod figures;
mod groups;
mod kinds;
mod numbers;
mod paths;
mod script;
mod summaries;
mod text;
mod times;
mod words;

pub use groups::{name_of_group, size_of_group};
pub use kinds::EntryKind;
pub use text::{message_of, text_of};
pub use words::{kind_of, remedy_of};
