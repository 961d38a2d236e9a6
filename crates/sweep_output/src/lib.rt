//! The output of a sweep's settings: lines, JSON objects and the page.
#![tactic(auto)]

mod figures_told;
mod members;
mod objects;
mod paging;
mod telling;

pub use paging::{put_text, settings_page};
pub use sweep_page::SweepShown;
pub use telling::settings_printed;

#[cfg(test)]
mod tests;
