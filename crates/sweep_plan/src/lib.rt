//! The plan of a sweep: its keys, values, settings and seeds, and the document of each setting.
#![tactic(auto)]

mod axes;
mod choice;
mod document;
mod entry_keys;
mod fault;
mod items;
mod keys;
pub mod laws;
mod listed;
mod listed_values;
mod meant;
mod missing;
mod plan;
mod seeds;
mod set_keys;
mod swept_keys;
mod telling;
mod values;

pub use axes::axis_end;
pub use choice::{Choice, choices_text};
pub use document::with_values;
pub use fault::PlanFault;
pub use items::ItemName;
pub use keys::SweptKey;
pub use missing::{items_meant, missing_item};
pub use plan::Plan;
pub use seeds::Seeds;
pub use set_keys::SetKey;
pub use swept_keys::{Swept, sets_again};
pub use telling::{axis_text, names_text, place_count, values_text};
pub use values::SweptValue;
