//! The arguments of commands by their kinds, and what `clap` found of them.
#![tactic(auto)]

mod numbers;
mod options;
mod values;

pub use numbers::number_within;
pub use options::{new_command, with_file, with_flag, with_option, with_repeated, with_required};
pub use values::{is_given, value_of, values_of};
