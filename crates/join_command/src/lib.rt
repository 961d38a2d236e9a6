//! The commands `join` and `page`: shards in files become one table, or a page.
#![tactic(auto)]

mod joining;
mod paging;
mod reading;
mod storing;

pub use joining::join_files;
pub use paging::page_files;
