//! Why a command fails, in one line for users: what is wrong, and what to do.
#![tactic(auto)]

mod files;
mod items;
mod runs;
mod shards;
mod words;

pub use files::{FileReason, NamedFile};
pub use items::ItemReason;
pub use runs::RunReason;
pub use shards::ShardReason;
pub use words::{Clash, OutputFile, WordFault, WordReason, written_name};
