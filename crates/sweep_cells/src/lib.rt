//! A sweep's page: what its figures share, such as times, shares and settings as words.
//!
//! What appends fails only where memory is refused; the text then has some beginning of what was to come.
#![tactic(auto)]

mod cells;
mod paths;

pub use cells::{
    push_cell, push_count, push_hundredths, push_hundredths_interval, push_interval,
    push_lasting_of, push_number, push_percent, push_rate, push_runs_with, push_swept_keys,
    push_swept_keys_at, push_time, push_time_cell, setting_at, share_of, thousandths,
};
pub use paths::{push_start, push_step};
