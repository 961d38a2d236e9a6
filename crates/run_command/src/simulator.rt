//! What simulates a scenario.
ghost use Rattle.std.specs.Prelude.{◌≡◌, ◌⊎◌, ◌<◌, ◌^◌, [], IfOk, IsErrOf, All, length};
ghost use Rattle.scenario.specs.Setup.{member_count};
ghost use Rattle.trace.specs.Text.{NamesMembers};
ghost use Rattle.member_laws.specs.Runs.{IsRunOf, CounterOverflows};
ghost use Rattle.run_output.specs.Promise.{KeepsPromise, ReportOverflows, summed};

use base::Fault;
use reports::Tallies;
use run_output::{RowObserver, TraceAndGathered};
use scenario::{Division, Scenario, Workers};
use std::alloc::Global;
use trace::Sink;

/// What simulates a scenario.
pub trait Simulator {
    ghost use Rattle.std.specs.Prelude.{ℕ};

    /// What must be known before it simulates anything, as that other threads may use what it goes by.
    ghost ready: { Type 0 };

    /// When a run by so many workers may lose something to threads. Whoever calls a simulator knows nothing of it, and so
    /// reports that fault only where it came.
    ghost loses: { ℕ → Type 0 };

    /// Runs a scenario by the parts of a division of its members and so many workers, writes its trace and then its
    /// report, and returns the tallies of its rows; an observer gathers of them what it does, as they come. After a fault
    /// the sinks have got a beginning of that.
    fn simulate<A: Sink, B: Sink, C: RowObserver>(
        &self,
        alloc: Global,
        scenario: &Scenario,
        division: &Division,
        workers: Workers,
        place: &mut TraceAndGathered<A, C>,
        report: &mut B,
    ) -> Result<Tallies, Fault>
        requires ready { ready }
        requires divided { length division.now.part_of ≡ member_count scenario.now }
        requires countable { A.failed place.old.trace < 2 ^ 63 }
        requires countable_report { B.failed report.old < 2 ^ 63 }
        requires none_gathered { C.has place.old.gathered scenario.now [] }
        ensures promise { KeepsPromise A.held A.failed B.held B.failed scenario.now place.old.trace place.new.trace report.old report.new (summed result) }

        // the rows of the run are tallied, and what was gathered is what they report
        ensures run { IfOk result (IsRunOf scenario.now) }
        ensures named { IfOk result (All (NamesMembers scenario.now)) }
        ensures gathered { IfOk result (C.has place.new.gathered scenario.now) }

        // no fault comes without its cause
        ensures overflow { IsErrOf result Fault.CounterOverflow → CounterOverflows scenario.now ⊎ ReportOverflows scenario.now }
        ensures threads { IsErrOf result Fault.ThreadLost → loses workers }
        ensures relay { IsErrOf result Fault.ThreadLost → A.failed place.new.trace ≡ A.failed place.old.trace };
}
