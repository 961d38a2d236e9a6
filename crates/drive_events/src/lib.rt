//! Events of a drive: what each asks of its member, and the JSON line that a harness gets of it.
#![tactic(auto)]

mod content;
mod line;
mod names;
mod payload;
mod start;

pub use content::{Content, Message};
pub use line::{push_end, push_event};
pub use payload::Payload;
