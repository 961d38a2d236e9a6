//! The relays over which the rows of a run go, from each part to who writes.
ghost use Rattle.std.specs.Prelude.{◌≡◌, length, IfOk};
ghost use Rattle.std.specs.List.{AllByRecursion};
ghost use Rattle.parallel_run.specs.Relaying.{basis_in, basis_by};
ghost use Rattle.parallel_run.specs.Relays.{AreNewSeats, IsMadeFor};

use crate::row_batch::Delivery;
use base::Memory;
use relay::{BatchRule, Relay, SendSeat, TakeSeat};
use scenario::{Division, Scenario};
use std::alloc::Global;
use std::snapshot::Snapshot;

/// What a run goes by, for proofs alone. It has no bytes.
#[derive(Drop)]
pub struct RunBasis {
    scenario: Snapshot<Scenario>,
    division: Snapshot<Division>,
    ways: Snapshot<Vec<u64>>,
}

impl RunBasis {
    /// That of a run of the scenario, by these parts and with these ways into them.
    pub(crate) fn of(scenario: &Scenario, division: &Division, ways: &Vec<u64>) -> Self
        ensures { basis_in result ≡ basis_by scenario.now division.now ways.now.items }
    {
        RunBasis {
            scenario: Snapshot::of(scenario),
            division: Snapshot::of(division),
            ways: Snapshot::of(ways),
        }
    }
}

/// What goes over such a relay belongs to the run, and nothing goes after the last batch of the part, nor
/// after the fault by which it ends.
pub struct RowItems;

impl BatchRule<Delivery, Delivery, RunBasis> for RowItems {
    ghost use Rattle.parallel_run.specs.Relaying.{basis_in, is_end};
    ghost use Rattle.parallel_run.specs.Messages.{IsDelivered};

    ghost stands_for = { λ delivery. delivery };

    ghost is_last = { is_end };

    ghost belongs = { λ run delivery. IsDelivered (basis_in run) delivery };
}

/// A relay from a part to who writes.
pub(crate) type RowRelay = Relay<Delivery, Delivery, RunBasis, RowItems>;

/// The right to send over such a relay.
pub(crate) type RowSendSeat = SendSeat<Delivery, Delivery, RunBasis>;

/// The right to receive from it.
pub(crate) type RowTakeSeat = TakeSeat<Delivery, Delivery, RunBasis>;

/// The two seats of a part's relay, as the run begins.
#[derive(Drop)]
pub(crate) struct RelaySeats {
    pub(crate) number: usize,
    pub(crate) relay: Snapshot<RowRelay>,
    pub(crate) sender: RowSendSeat,
    pub(crate) taker: RowTakeSeat,
}

/// So many relays of that run, and the seats of each.
pub(crate) fn relays_of(
    alloc: Global,
    run: &RunBasis,
    count: usize,
) -> Result<(Vec<RowRelay>, Vec<RelaySeats>), Memory>
    ensures count { IfOk result (λ r. (length r.0.items ≡ count) × (length r.1.items ≡ count)) }
    ensures seats { IfOk result (λ r. AllByRecursion (AreNewSeats r.0.items (basis_in run.now)) r.1.items) }
    ensures given { IfOk result (λ r. AllByRecursion (IsMadeFor (basis_in run.now)) r.0.items) }
{
    let mut relays = Vec::new(alloc);
    let mut all = Vec::new(alloc);
    for number in 0..count {
        let (relay, sender, taker) = RowRelay::new(alloc, run)?;
        all.push(RelaySeats {
            number,
            relay: Snapshot::of(&relay),
            sender,
            taker,
        })?;
        relays.push(relay)?;
    }
    Ok((relays, all))
}
