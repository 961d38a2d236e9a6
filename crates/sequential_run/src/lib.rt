//! Whole runs on the calling thread, and what holds of every run.
#![tactic(auto)]

mod in_turn;
mod laws;
mod one_queue;
mod sequential;
mod streaming;
mod stretches;
mod tallying;
mod watching;

pub use in_turn::run_in_turn;
pub use laws::{
    a_run_exists, events_are_new, keys_rise, rows_rise, the_first_version_is_kept, the_run_is_one,
    the_window_of_all_is_the_run,
};
pub use one_queue::run_streamed;
pub use sequential::run_one;
pub use tallying::tally_run;
pub use watching::{RunWatch, Unwatched};
