//! Why the words of a command line are refused: which word is wrong, and what to write.
#![tactic(auto)]

mod dashes;
mod guesses;
mod options;
mod shares;
mod sweeping;
mod swept_keys;
mod wants;
mod words;

pub use words::{WordsFault, words_fault};
