//! The end of a part's relay by which who writes takes its rows.
ghost use Rattle.std.specs.Prelude.{◌≡◌, true, Some, IfOk, IfErr};
ghost use Rattle.std.specs.List.{slice_get};
ghost use Rattle.relay.specs.Seats.{given_of, taken_by, IsTaker};
ghost use Rattle.lookahead_windows.specs.Basis.{Basis};
ghost use Rattle.parallel_run.specs.Relaying.{basis_in, has_last_batch};
ghost use Rattle.parallel_run.specs.Messages.{MayEndBy, IsLotOfRun};

use crate::of_run::OfRun;
use crate::row_batch::{Delivery, RowBatch};
use crate::row_relay::{RowRelay, RowTakeSeat};
use base::Fault;
use lookahead_windows::first_fault;
use std::marker::PhantomData;
use std::sync::Wait;

/// The right to take the rows of a part, beside its relay, which is the one of that number among those
/// of the run.
#[derive(Drop)]
pub struct BatchReceiver<'b, K: OfRun> {
    pub(crate) relay: &'b RowRelay,
    pub(crate) seat: RowTakeSeat,
    /// The number of the part.
    pub(crate) number: usize,
    // whether something is still to come
    is_open: bool,
    /// Whether the last batch was taken.
    pub(crate) is_whole: bool,
    run: PhantomData<K>,
    ghost is_taker: { IsTaker relay.now seat },
    ghost here: { slice_get K.relays number ≡ Some relay.now },
    ghost of_run: { K.basis ≡ Some (basis_in (given_of relay.now)) },
    ghost whole: { is_whole ≡ true → has_last_batch (taken_by seat) ≡ true },
}

impl<'b, K: OfRun> BatchReceiver<'b, K> {
    /// The end of this relay.
    pub(crate) fn new(relay: &'b RowRelay, seat: RowTakeSeat, number: usize) -> Self
        requires is_taker { IsTaker relay.now seat }
        requires here { slice_get K.relays number ≡ Some relay.now }
        requires of_run { K.basis ≡ Some (basis_in (given_of relay.now)) }
    {
        BatchReceiver {
            relay,
            seat,
            number,
            is_open: true,
            is_whole: false,
            run: PhantomData,
        }
    }

    /// Whether something is still to come.
    pub(crate) fn is_open(&self) -> bool {
        self.is_open
    }

    /// Nothing more is to come: its part has ended, and has reported that in another way.
    pub(crate) fn give_up(&mut self) {
        self.is_open = false;
    }

    /// The next batch. Faults: that by which the part ended, `ThreadLost` where nothing comes.
    pub(crate) fn take(&mut self, rt: &impl Wait) -> Result<RowBatch, Fault>
        ensures lot { IfOk result (λ lot. (basis : Basis) → K.basis ≡ Some basis → IsLotOfRun basis lot) }
        ensures fault { IfErr result (λ fault. (basis : Basis) → K.basis ≡ Some basis → MayEndBy basis fault) }
    {
        if !self.is_open {
            return Err(Fault::ThreadLost);
        }
        match self.relay.receive(rt, &mut self.seat) {
            Some(Delivery::RowBatch(lot)) => {
                self.is_open = !lot.last;
                self.is_whole = self.is_whole || lot.last;
                Ok(lot)
            }
            Some(Delivery::Ended(fault)) => {
                self.is_open = false;
                Err(fault)
            }
            None => {
                self.is_open = false;
                Err(Fault::ThreadLost)
            }
        }
    }

    /// Takes what comes next, where something is still to come, and drops it: of the fault by which the
    /// part ended and this one the first.
    pub(crate) fn skip(&mut self, rt: &impl Wait, so_far: Fault) -> Fault
        requires { (basis : Basis) → K.basis ≡ Some basis → MayEndBy basis so_far }
        ensures { (basis : Basis) → K.basis ≡ Some basis → MayEndBy basis result }
    {
        if !self.is_open {
            return so_far;
        }
        if let Err(fault) = self.take(rt) {
            return first_fault(fault, so_far);
        }
        so_far
    }
}
