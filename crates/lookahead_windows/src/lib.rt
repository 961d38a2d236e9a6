//! The windows of a parallel run: each part's bound in each round, and why all batches are the run's rows.
//!
//! Besides, what all threads of a run have in common: the hook that sees each window (`Gate`), which of several faults is
//! reported (`first_fault`), and, in `proofs/`, that a part may go from thread to thread.
#![tactic(auto)]

mod bounds;
mod course;
mod faults;
mod firsts;
mod gate;
mod laws;
mod outgoing;
mod own_bounds;
mod window;

pub use bounds::{least_walk, round_bound, ways_into};
pub use course::{Rounds, rounds_of};
pub use faults::first_fault;
pub use firsts::{first_moment_of, lesser_moment};
pub use gate::{Entered, Gate, OpenGate, enter};
pub use laws::{
    a_part_goes_by_its_messages, a_part_reports_its_window, a_run_has_lasted, lots_make_the_run,
    rounds_follow_each_other, schedules_lead_to_the_world_before_their_bound,
    there_is_one_world_before_a_moment,
};
pub use own_bounds::each_part_has_a_bound_of_its_own;
pub use window::{WindowLists, run_window};
