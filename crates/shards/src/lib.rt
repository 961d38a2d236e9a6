//! A sweep in shards: which runs a shard has, and the name of its table.
#![tactic(auto)]

mod name;
mod shard;
mod words;

pub use name::head_cell;
pub use shard::Shard;
pub use words::plan_text;
