//! The lines of a plain document: each key's value as the plain text has it, in the document's order.
#![tactic(auto)]

mod departures;
mod document;
mod head;
mod items;
mod keys;
pub mod laws;
mod order;
mod pairs;
mod restarts;
mod spells;
mod values;

pub use document::{PlainParts, plain_lines};
pub use items::{add_item, add_table};
pub use keys::{KeyKind, Way, kind_of};
pub use order::{DocumentOrder, SectionOrder};
pub use pairs::add_pairs;
pub use values::plain_value;
