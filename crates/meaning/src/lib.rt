//! What a scenario means in numbers: suspicion times, growth with bad health, reach of news, costs of a quiet run.
#![tactic(auto)]

mod groups;
mod list;
mod news;
mod paths;
mod pushes;
mod quiet;
mod times;
mod trips;
mod ways;

pub use groups::{first_of_group, group_name, groups_of, member_name, size_of};
pub use list::item_at;
pub use news::message_limit;
pub use paths::is_hidden;
pub use pushes::push_period;
pub use quiet::{Quiet, cost_of_quiet};
pub use times::{
    Pace, least_suspicion, most_accusers, nack_delay, pace_with, suspicion_time, worst_health,
};
pub use trips::greatest_round_trip;
