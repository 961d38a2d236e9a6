//! The links of a scenario: whether and when a message arrives. What is sent over a link that is cut is lost.
#![tactic(auto)]

pub mod laws;
mod least;
mod links;
mod outages;
mod routes;
mod spans;
mod table;
mod trips;

pub use table::Links;
