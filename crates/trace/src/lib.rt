//! The trace: its rows, their text, and the sinks that take it.
#![tactic(auto)]

mod lines;
mod row;
mod sink;
pub mod testing;
mod write;

pub use row::{Row, What};
pub use sink::{Put, Sink, Stopped, put_all};
pub use write::{WriteError, texts_join, write_head, write_rows};
