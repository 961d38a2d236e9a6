//! The six lists of version 4 that are about members, as a document says them: the lowest rule that they break as they are
//! written, and where they break none their entries.
#![tactic(auto)]

mod entries;
mod item;
mod keys;
pub mod laws;
mod lists;
mod names;
mod numbers;
mod repeated;
mod rules;
mod script;
mod times;
mod values;
mod who;

pub use item::{WrittenItem, written_items};
pub use lists::{WrittenList, WrittenScript};
pub use numbers::EntryNumbers;
pub use script::{ScriptFault, read_script};
