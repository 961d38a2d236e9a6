//! Answers of a harness: the actions that a line of JSON says, or why it says none.
#![tactic(auto)]

mod action;
mod answer;
mod error;
mod fields;
mod kinds;
mod parsing;
mod pieces;
mod said;
mod standing;

pub use action::{Action, Noted, Send, Timer};
pub use answer::read_answer;
pub use error::AnswerError;
