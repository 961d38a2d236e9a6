//! Who writes the rows of a run by rings, on the thread that calls.
ghost use Rattle.std.specs.Prelude.{◌≡◌, ◌<◌, ◌^◌, [], length, Ok, Err, Some, IfOk, IfErr};
ghost use Rattle.run_output.specs.Traced.{KeepsTrace};
ghost use Rattle.lookahead_windows.specs.Basis.{Basis};
ghost use Rattle.parallel_run.specs.Writing.{MayTake, fault_beside};

use crate::batch_receiver::BatchReceiver;
use crate::batches::{drained, next_turn};
use crate::of_run::OfRun;
use base::{Fault, Moment};
use lookahead_windows::first_fault;
use reports::Tallies;
use run_output::{RowSink, take_on};
use scenario::Scenario;
use std::alloc::Global;
use std::sync::Wait;

/// What the writer takes with it.
#[derive(Drop)]
pub(crate) struct Writer<'r, 'b, K: OfRun> {
    pub(crate) scenario: &'r Scenario,
    /// From where the rows come: for each part.
    pub(crate) takers: Vec<BatchReceiver<'b, K>>,
    pub(crate) tallies: Tallies,
}

/// Takes the rows of the run as they come from the relays of its parts. After a fault it goes on
/// receiving, so that no worker waits for it, but takes nothing more.
///
/// Faults: `Memory`; `CounterOverflow` where a counter of the run or a count of the report would pass 2^63;
/// `Write` where the place failed; `ThreadLost` where the rows did not come as they should. Of several
/// the first in this order.
pub(crate) fn write_all<'b, T: RowSink<P>, P, K: OfRun, R: Wait>(
    rt: &R,
    alloc: Global,
    scenario: &Scenario,
    takers: &mut Vec<BatchReceiver<'b, K>>,
    mut tallies: Tallies,
    place: &mut P,
) -> Result<Tallies, Fault>
    requires writes { (basis : Basis) → K.basis ≡ Some basis → MayTake basis scenario.now (length takers.old.items) tallies }
    requires run { (basis : Basis) × (K.basis ≡ Some basis) }
    requires countable { T.failed place.old < 2 ^ 63 }
    requires none_gathered { T.gathered place.old scenario.now [] }
    ensures trace { KeepsTrace scenario.now (T.held place.old) (T.held place.new) (T.failed place.old) (T.failed place.new) result }
    ensures gathered { IfOk result (T.gathered place.new scenario.now) }
{
    let mut so_far = T::begin(place);
    let mut since = Moment(0);
    for _ in rt.forever() {
        let turn = match next_turn(rt, alloc, takers, since) {
            Ok(turn) => turn,
            Err(fault) => {
                let fault = drained(rt, takers, fault);
                return Err(fault_beside(so_far, fault));
            }
        };
        so_far = take_on::<T, P>(so_far, alloc, &turn.rows, scenario, &mut tallies, place);
        if turn.last {
            return ended(so_far, tallies);
        }
        since = turn.until;
    }
    unreachable!()
}

/// Of the writer's own fault, where there is one, and another the first.
fn fault_beside(so_far: Result<(), Fault>, fault: Fault) -> Fault
    ensures { result ≡ fault_beside so_far fault }
{
    match so_far {
        Ok(()) => fault,
        Err(own) => first_fault(own, fault),
    }
}

/// What was tallied, where all went well.
fn ended(so_far: Result<(), Fault>, tallies: Tallies) -> Result<Tallies, Fault>
    ensures ok { IfOk result (λ rows. (so_far ≡ Ok tt) × (rows ≡ tallies)) }
    ensures err { IfErr result (λ fault. so_far ≡ Err fault) }
{
    so_far?;
    Ok(tallies)
}
