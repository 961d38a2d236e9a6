//! A run's page: the lane of each member that was accused, and the table of false deaths.
#![tactic(auto)]

mod chosen;
mod claims;
mod counts;
mod lane;
mod lanes;
mod numbers;
mod run;
mod thrown_out;
mod told;

pub use chosen::{Chosen, all_chosen};
pub use claims::times_out;
pub use counts::{axis_height, before, flat, greatest, heights, stacked};
pub use lane::is_cut_of;
pub use lanes::{push_lanes, push_time_axis};
pub use numbers::by_number;
pub use run::Run;
pub use thrown_out::push_thrown_out;
