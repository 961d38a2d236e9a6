//! Laws: what changes when a text of version 1 gets another version number.
#![tactic(auto)]

mod laws;
mod texts;

pub use laws::version_2_keeps_runs;
pub use texts::{a_text_in_version_2_has_a_line_more, version_2_keeps_documents};
