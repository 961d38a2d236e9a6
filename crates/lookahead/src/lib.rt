//! The least time that a message needs from each part of a cluster to each other part.
#![tactic(auto)]

mod direct;
mod laws;
mod least;
mod lengths;
mod making;
mod settle;
mod table;
mod twins;

pub use laws::parts_with_members_have_walks;
pub use making::horizons;
pub use table::Horizons;
