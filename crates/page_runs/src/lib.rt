//! The series of a run's page, gathered as the rows come, and its text.
#![tactic(auto)]

mod page_data;
mod page_series;
mod paging;

pub use page_data::PageData;
pub use page_series::PageSeries;
pub use paging::{RunShown, write_page};
