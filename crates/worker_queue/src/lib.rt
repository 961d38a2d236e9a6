//! The pending events of a part: a queue with unique keys that gives the least first.
#![tactic(auto)]

mod falling;
mod least;
mod marks;
mod queue;
mod slot;
mod stores;
mod tree;
mod wheel;
mod wheel_queue;

pub use queue::EventQueue;
pub use tree::TreeQueue;
pub use wheel_queue::WheelQueue;
