//! The plain entries of a text's six lists, or the lowest rule for which the text is refused.
#![tactic(auto)]

mod late;
pub mod laws;
mod refusal;
mod script;
mod turns;

pub use refusal::ScriptRefusal;
pub use script::expand_script;
