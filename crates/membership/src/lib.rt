//! A member's table: the claim and the incarnation number of each member that it knows.
#![tactic(auto)]

mod candidates;
mod claims;
mod deaths;
mod held;
mod numbers;
mod table;

pub use candidates::{Candidate, Fitting};
pub use claims::{does_override, is_confirm, is_intent, is_left, is_suspect};
pub use deaths::Deaths;
pub use table::Table;
