//! What a document of version 4 says of its groups, of their members, and of by how much members are slow.
#![tactic(auto)]

mod extras;
mod groups;
mod members;
mod values;

pub use extras::slow_extras;
pub use groups::written_groups;
pub use members::{member_names, member_starts};
pub use values::number_at;
