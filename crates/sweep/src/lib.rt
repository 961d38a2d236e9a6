//! Runs each setting of a sweep with each seed; writes the table and the settings' lines.
#![tactic(auto)]

mod begun;
mod chunks;
mod columns;
mod first_seeds;
mod gathering;
mod header;
mod judging;
mod making;
mod planned;
mod progress;
mod reading;
mod shares;
mod standing;
mod summing;
mod tables;
mod texts;
mod tick;
mod values;
mod work;
mod writing;

pub use begun::{Begun, BegunFault, begun_of, lines_behind};
pub use columns::columns_of;
pub use first_seeds::first_seed;
pub use gathering::{Gather, Gathering, NothingKept};
pub use header::{front_of, write_front, write_front_behind};
pub use judging::{Refused, judge};
pub use making::{MadeRun, make_side_by_side};
pub use planned::first_run;
pub use progress::{NoProgress, Progress};
pub use reading::read_run;
pub use shares::{Lot, LotSize, Share, next_lot};
pub use standing::{LeadingLines, are_lines_of, is_older, lines_of_runs};
pub use summing::{LineKey, key_of_text, line_key, sweep_key};
pub use tables::{sweep, write_table};
pub use texts::lines_of_settings;
pub use work::{SECOND_OF_WORK, work_of};
pub use writing::write_line;
