//! One turn over the parts of a divided cluster, on one thread.
#![tactic(auto)]

mod bounds;
mod opening;
mod parts;
mod rows;
mod turn_limit;
mod turns;

pub use bounds::{bounded_in_common, first_moment};
pub use opening::{open_parts, open_wheels};
pub use rows::join;
pub use turn_limit::TurnLimit;
pub use turns::{Course, Turned, course_of, exchanged};
