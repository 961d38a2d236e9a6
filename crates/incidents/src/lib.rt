//! False alarms and false deaths of a run as incidents, whether its cluster is whole, and its restarts, from its rows.
#![tactic(auto)]

mod cluster;
mod counts;
mod doubts;
mod incidents;
mod lines;
mod lives;
mod open_places;
mod pairs;
mod returns;
mod rows;
mod wholeness;

pub use cluster::{Cluster, Trouble};
pub use incidents::Incidents;
pub use returns::Return;
pub use rows::reports_nothing;
