//! The tables and keys of a scenario text, as data: kinds, ranges, defaults.
//!
//! What the values mean together is the readers' business.
#![tactic(auto)]

mod schema;
mod shape;
mod tables;
mod values;

pub use schema::{Absence, FormatKey, KeyRule, Kind, Section, Version};
pub use shape::{Check, ShapeFault, TablePlace, check_shape};
pub use values::{items_at, number, switch, switch_set, text, text_if, whole_or};
