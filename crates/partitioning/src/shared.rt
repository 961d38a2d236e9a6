//! A run by as many threads as pay.
ghost use Rattle.std.specs.Prelude.{◌≡◌, ◌<◌, ◌≤◌, ◌^◌, ◌⊎◌, [], length, IfOk, OnOk, IsErrOf, All};
ghost use Rattle.scenario.specs.Setup.{member_count};
ghost use Rattle.trace.specs.Text.{NamesMembers};
ghost use Rattle.member_laws.specs.Runs.{IsRunOf, CounterOverflows};
ghost use Rattle.run_output.specs.Promise.{KeepsPromise, ReportOverflows, summed};
ghost use Rattle.partitioning.specs.Closed.{ClosesRelays, SettlesBoard};

use crate::choosing::{Shares, chosen_shares};
use crate::hands::threads_of;
use base::{Fault, Memory};
use lookahead_windows::OpenGate;
use parallel_run::{RunAccount, run_by_rings};
use reports::Tallies;
use run_output::{RowObserver, TraceAndGathered, end_run};
use scenario::{Division, Scenario, Workers};
use sequential_run::run_streamed;
use std::alloc::Global;
use std::marker::Sync;
use std::sync::Wait;
use std::thread::Threads;
use trace::Sink;

/// Runs the scenario by so many workers, in the way that is likely to take the least time. One
/// alone simulates and writes. Of several no more go than there are processors. Where a round of the parts is long,
/// or there are two, all of them simulate, and the calling thread writes beside them; else all but one, which writes.
/// Those that simulate share the parts of the division, where it has more than there are workers, or fewer into which these
/// are joined; else each has a part for itself, as the division has them, or by the cluster's sites, or in turn in the
/// order of their first beats, whichever have the longest rounds.
/// Where no rounds are long enough, one worker runs all members while the calling thread writes.
/// What is written is always the same: the trace, and once that is whole and its sink flushed the
/// report, whose sink is flushed too. After a fault the sinks have got a beginning of that. An observer
/// gathers of the rows what it does, as they come. `account` gets the relays of a run by several
/// workers, as they were closed, and what was dealt and taken on its board. Returns the tallies of the rows.
///
/// Faults: as of `parallel_run::run_by_rings`.
pub fn run_shared<A: Sink, B: Sink, C: RowObserver, R: Threads + Wait + Sync>(
    rt: &R,
    alloc: Global,
    scenario: &Scenario,
    division: &Division,
    workers: Workers,
    place: &mut TraceAndGathered<A, C>,
    report: &mut B,
    account: &mut RunAccount,
) -> Result<Tallies, Fault>
    requires divides { length division.now.part_of ≡ member_count scenario.now }
    requires countable { A.failed place.old.trace < 2 ^ 63 }
    requires countable_report { B.failed report.old < 2 ^ 63 }
    requires none_gathered { C.has place.old.gathered scenario.now [] }

    // The sinks get exactly the trace of the scenario's run, and the report on it; after a fault a beginning of that.
    ensures promise { KeepsPromise A.held A.failed B.held B.failed scenario.now place.old.trace place.new.trace report.old report.new (summed result) }

    // The rows of the run are tallied, and what was gathered is what they report.
    ensures run { IfOk result (IsRunOf scenario.now) }
    ensures named { IfOk result (All (NamesMembers scenario.now)) }
    ensures gathered { IfOk result (C.has place.new.gathered scenario.now) }

    // By several workers each part of a run that succeeds has a relay, made for the run: what was sent over it was received, the
    // part's last rows too.
    ensures relayed { OnOk result (2 ≤ workers → ClosesRelays scenario.now account.new) }

    // On the board of such a run the calling thread dealt each part, and took back each as it had come to the end. What was dealt at
    // all seats is what was taken, as often, so a worker took each part, and a worker dealt it back.
    ensures settled { OnOk result (2 ≤ workers → SettlesBoard scenario.now account.new) }

    // No count of its report passes 2^63, and no fault comes without its cause.
    ensures lasts_report { OnOk result (¬ (ReportOverflows scenario.now)) }
    ensures overflow { IsErrOf result Fault.CounterOverflow → CounterOverflows scenario.now ⊎ ReportOverflows scenario.now }
    ensures others { IsErrOf result Fault.ThreadLost → A.failed place.new.trace ≡ A.failed place.old.trace }

    // One worker alone loses nothing to threads.
    ensures threads { IsErrOf result Fault.ThreadLost → 2 ≤ workers }
{
    let _end = scenario.end();
    if workers.count() == 1 {
        return run_streamed(alloc, scenario, place, report);
    }
    let threads = threads_of(rt, workers);
    match chosen_shares(alloc, scenario, division, workers, threads) {
        Ok(Shares { parts, hands }) => run_by_rings(
            rt, alloc, scenario, &parts, hands, &OpenGate, place, report, account,
        ),
        Err(Memory) => end_run(
            alloc,
            Err(Fault::Memory),
            scenario,
            &mut place.trace,
            report,
        ),
    }
}
