//! What the page of a run is made of: the counts for its report, and the series for its figures.
use crate::page_series::PageSeries;
use reports::Tallies;

/// What was gathered of a run's rows: their tallies, and the series of its page.
#[derive(Drop)]
pub struct PageData {
    pub tallies: Tallies,
    pub gathered: PageSeries,
}
