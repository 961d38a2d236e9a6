//! The windows of a cluster's parts: which events a part may handle early, and why the run stays the same.
//!
//! Besides: a part of a cluster, which runs its window, and a whole cluster that runs by any list of choices.
#![tactic(auto)]

mod bounded;
mod choices;
mod cluster;
mod faults;
mod laws;
mod own_members;
mod part;
mod setting;
mod steps;

pub use bounded::Bounded;
pub use choices::{Played, a_play_is_a_schedule, play};
pub use cluster::Cluster;
pub use faults::with_run_fault;
pub use laws::{
    a_part_owns_the_members_of_its_number, a_part_sends_out_late, a_part_writes_in_row_order,
    a_run_is_a_schedule, a_safe_event_may_come_early, a_schedule_meets_the_states_of_the_run,
    a_schedule_to_the_end_writes_the_run, a_schedule_writes_the_rows_of_the_run, events_stay_new,
    parts_may_run_to_their_horizons, rows_are_in_order_of_places, safe_steps_keep_a_cluster_sound,
    the_rows_before_a_bound_are_next, windows_are_safe_steps, windows_write_the_next_rows,
};
pub use part::{Done, Part};
pub use steps::nothing;
