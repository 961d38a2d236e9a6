//! Which fault a run reports when several threads fail: the order of the faults decides, not the order of time.
ghost use Rattle.std.specs.Prelude.{◌≡◌};
ghost use Rattle.lookahead_windows.specs.Faults.{rank_of, first_fault};

use base::Fault;

/// Of two faults the one that a run returns, whichever came first: want of memory goes before counter
/// overflow, that before a sink that failed, and that before what threads lost.
pub fn first_fault(one: Fault, other: Fault) -> Fault
    ensures { result ≡ first_fault one other }
{
    if rank(other) < rank(one) { other } else { one }
}

/// The place of a fault in the order in which faults are answered.
fn rank(fault: Fault) -> u8
    ensures { result ≡ rank_of fault }
{
    match fault {
        Fault::Memory => 1,
        Fault::CounterOverflow => 2,
        Fault::Write => 3,
        Fault::ThreadLost => 4,
    }
}
