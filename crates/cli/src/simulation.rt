//! The simulation of a scenario by threads.
ghost use Rattle.std.specs.Prelude.{◌≤◌};
ghost use Rattle.std.specs.Thread.{IsSync};

use crate::processors::fewer;
use base::Fault;
use partitioning::{RunAccount, paying_workers, run_shared};
use reports::Tallies;
use run_command::Simulator;
use run_output::{RowObserver, TraceAndGathered};
use scenario::{Division, Scenario, Workers};
use std::alloc::Global;
use std::sync::Wait;
use std::thread::Threads;
use trace::Sink;

/// What simulates a scenario by threads of the runtime.
#[derive(Drop)]
pub(crate) struct ByThreads<'r, R> {
    /// What starts the threads and lets them wait.
    pub(crate) rt: &'r R,
    /// No more workers than these simulate.
    pub(crate) most: Workers,
}

impl<H: Threads + Wait + Sync> Simulator for ByThreads<'_, H> {
    ghost use Rattle.std.specs.Prelude.{◌≤◌};

    ghost ready = { IsSync H.row };

    ghost loses = { λ workers. 2 ≤ workers };

    fn simulate<A: Sink, B: Sink, C: RowObserver>(
        &self,
        alloc: Global,
        scenario: &Scenario,
        division: &Division,
        workers: Workers,
        place: &mut TraceAndGathered<A, C>,
        report: &mut B,
    ) -> Result<Tallies, Fault> {
        let workers = fewer(workers, self.most);
        let workers = paying_workers(scenario, division, workers);
        let mut account = RunAccount::none(alloc);
        run_shared(
            self.rt,
            alloc,
            scenario,
            division,
            workers,
            place,
            report,
            &mut account,
        )
    }
}
