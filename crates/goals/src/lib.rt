//! Which settings of a sweep meet its goals, which is best, and which are on the front.
#![tactic(auto)]

mod bounds;
mod choice;
mod front;
mod marks;
mod numbers;
mod reading;
mod statistic;
mod telling;
mod want;

pub use choice::{best_of, may_meet, meets, more_runs};
pub use front::{has_crash, is_on_front};
pub use marks::{push_header, push_marked};
pub use reading::{WantFault, read_wants};
pub use statistic::Statistic;
pub use telling::push_answer;
pub use want::Want;
