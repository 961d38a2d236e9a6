//! Laws of a member's step, in the words of the protocol.
#![tactic(auto)]

mod laws;

pub use laws::{
    a_beat_ends_a_probe_at_its_deadline, a_confirmed_member_stays_so,
    a_higher_number_alone_revives, a_run_has_rows_only_of_what_is_on, a_run_keeps_moments_in_range,
    a_run_keeps_states_consistent, a_run_lowers_no_incarnation, a_run_names_members,
    a_run_revives_by_higher_numbers_alone, a_run_revives_nobody, a_silent_member_keeps_silent,
    a_waiting_member_is_as_opened, a_whole_table_is_sent_in_ones_own_name,
    an_event_settles_what_a_leave_does, an_incarnation_rises_to_refute_alone,
    health_stays_within_its_ceiling, states_stay_consistent, what_is_off_is_not_done,
    where_nobody_leaves_runs_are_plain,
};
