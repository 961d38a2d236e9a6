//! A run's page: how each false death came about, in words.
#![tactic(auto)]

mod accusers;
mod answers;
mod causes;
mod death;
mod troubles;

pub use causes::push_causes;
