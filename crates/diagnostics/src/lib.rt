//! All errors of a scenario text: the broken rule, the cause and the place of each.
#![tactic(auto)]

mod cause;
mod departures;
mod entries;
mod list;
mod members;
mod names;
mod shape;
mod sizes;
mod telling;
mod times;
mod walk;
mod wanted;
mod written;

pub use cause::{Cause, DepartureKind, Home, ValueKind};
pub use list::{Diagnostic, Diagnostics};
pub use members::Known;
pub use telling::{has_rule, of_refused};
pub use wanted::{Wanted, entry_keys};
