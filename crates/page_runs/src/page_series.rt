//! The series of a page, gathered as the rows of a run come.

ghost use Rattle.std.specs.Prelude.{[], IfOk};
ghost use Rattle.series.specs.Series.{AreSeriesOf};

use base::{Fault, Memory};
use run_output::RowObserver;
use scenario::Scenario;
use series::Series;
use std::alloc::Global;
use trace::Row;

/// The series of a run's rows so far.
#[derive(Drop)]
pub struct PageSeries {
    pub series: Series,
}

impl PageSeries {
    /// Those of no rows of a run of the scenario.
    pub fn new(alloc: Global, scenario: &Scenario) -> Result<PageSeries, Memory>
        ensures { IfOk result (λ made. AreSeriesOf scenario.now made.series []) }
    {
        let series = Series::new(alloc, scenario)?;
        Ok(PageSeries { series })
    }
}

impl RowObserver for PageSeries {
    ghost has = { λ gathered s rows. AreSeriesOf s gathered.series rows };

    fn add_all(&mut self, rows: &[Row], scenario: &Scenario) -> Result<(), Fault> {
        for row in rows {
            self.series.add(row, scenario)?;
        }
        Ok(())
    }
}
