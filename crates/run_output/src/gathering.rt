//! What is gathered of the rows of a run as they come, beside their tallies.
ghost use Rattle.std.specs.Prelude.{◌≢◌, ◌++◌, ◌<◌, ◌^◌, length, List, OnOk, IfErr, IsErrOf, All};
ghost use Rattle.scenario.specs.Setup.{Setup};
ghost use Rattle.trace.specs.declared.row.Row.{Row as ARow};
ghost use Rattle.trace.specs.Text.{NamesMembers};

use base::Fault;
use scenario::Scenario;
use trace::Row;

/// Gathers what it keeps of the rows of a run, batch after batch.
pub trait RowObserver {
    // what is kept is what these rows of a run of the scenario report
    ghost has: { Self → Setup → List ARow → Type 0 };

    /// Adds the next rows of a run of the scenario, in their order, up to one that is refused.
    ///
    /// Faults: `Memory`; `CounterOverflow` where there would be more than 2^63 rows.
    fn add_all(&mut self, rows: &[Row], scenario: &Scenario) -> Result<(), Fault>
        requires named { All (NamesMembers scenario.now) rows.now }
        requires so_far { (before : List ARow) × has self.old scenario.now before }
        ensures ok { OnOk result ((before : List ARow) → has self.old scenario.now before → has self.new scenario.now (before ++ rows.now)) }
        ensures overflow { IsErrOf result Fault.CounterOverflow → (before : List ARow) → has self.old scenario.now before → 2 ^ 63 < length (before ++ rows.now) }
        ensures causes { IfErr result (λ fault. (fault ≢ Fault.Write) × (fault ≢ Fault.ThreadLost)) };
}

/// Nothing is gathered of the rows of a run.
#[derive(Drop)]
pub struct NothingGathered;

impl RowObserver for NothingGathered {
    ghost has = { λ _ _ _. Unit {0} };

    fn add_all(&mut self, _rows: &[Row], _scenario: &Scenario) -> Result<(), Fault> {
        Ok(())
    }
}
