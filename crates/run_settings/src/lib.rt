//! A run's page: the scenario's numbers and switches, groups, paths and events.
#![tactic(auto)]

mod events;
mod nearest;
mod settings;
mod values;

pub use settings::push_settings;
