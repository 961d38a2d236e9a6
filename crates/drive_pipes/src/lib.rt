//! A harness behind two pipes: what is sent goes out while answers come in, so two full pipes hold nobody up.
#![tactic(auto)]

mod chunks;
mod ends;
mod incoming;
mod pipes;
pub mod system;
#[cfg(test)]
mod tests;

pub use chunks::Chunks;
pub use ends::{Closed, Ends, SendError};
pub use incoming::NextLine;
pub use pipes::{Pipes, ReceiveError};
