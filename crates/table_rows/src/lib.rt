//! The lines of a sweep's table, with checksum and metadata: how they are written and read, and which stay of a table with `--until` that was interrupted.
#![tactic(auto)]

mod begun;
mod by_settings;
mod fault;
pub mod laws;
mod lines;
mod opened;
mod settings_of;

pub use begun::begun_settings_of;
pub use by_settings::{read_setting, read_settings};
pub use fault::LineFault;
pub use lines::{read_line, read_lines};
pub use opened::open_rows;
pub use settings_of::{StandingSettings, are_settings_of, settings_of_runs};
