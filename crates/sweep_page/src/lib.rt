//! The page of a sweep: one HTML file that answers the goal and shows the trade-off, without scripts.
#![tactic(auto)]

mod best;
mod front;
mod front_points;
mod goal_words;
mod items;
mod layout;
mod marks;
mod others;
mod question;
mod summary;
mod table;
mod whole;

pub use question::Question;
pub use whole::{SweepShown, page};
