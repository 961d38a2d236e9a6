//! The figures of one run, and of all runs of a setting.
#![tactic(auto)]

mod by_version;
mod column_set;
mod columns;
mod crashes;
mod deaths;
mod histogram;
mod lines;
mod messages;
mod note_text;
mod note_words;
mod notes;
mod ranks;
mod run;
mod run_cells;
mod setting;
mod shares;
mod summary;
mod table;
mod texts;
mod thrown_out;
mod times;

pub use column_set::ColumnSet;
pub use columns::{push_setting_header, push_setting_line};
pub use crashes::CrashTimes;
pub use histogram::Histogram;
pub use note_words::MetadataFault;
pub use notes::RunMetadata;
pub use run::RunFigures;
pub use run_cells::are_cells_of;
pub use setting::SettingFigures;
pub use summary::SettingSummary;
pub use table::{write_header, write_metadata, write_run};
