//! Warnings about scenarios that are valid but probably not intended, each with its condition.
#![tactic(auto)]

mod about;
mod events;
mod findings;
mod lines;
mod list;
mod members;
mod origins;
mod paths;
mod pauses;
mod placing;
mod run;
mod settings;
mod slows;
mod spans;
mod warning;

pub use about::{About, Place, Placed, about_of};
pub use findings::{Findings, findings_of};
pub use placing::places_of;
pub use warning::Warning;
