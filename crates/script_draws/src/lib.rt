//! The draws of a scenario's text: which members of a group are chosen, and when what comes again and again
//! begins and ends. They come from one stream of words, which is no member's.
#![tactic(auto)]

mod again;
mod choice;
mod fault;
mod stream;

pub use again::{Lasting, Recurrence, moments, spells};
pub use choice::chosen;
pub use fault::DrawFault;
pub use stream::TextStream;
