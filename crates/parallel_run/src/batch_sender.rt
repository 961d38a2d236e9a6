//! The end of a part's relay by which it sends its rows.
ghost use Rattle.std.specs.Prelude.{◌≡◌, ◌++◌, [], ◌∷◌, true, false, Some};
ghost use Rattle.std.specs.Bool.{OnTrue};
ghost use Rattle.std.specs.List.{slice_get};
ghost use Rattle.relay.specs.Lots.{has_last};
ghost use Rattle.relay.specs.Seats.{given_of, sent_by, IsSender};
ghost use Rattle.lookahead_windows.specs.Basis.{Basis};
ghost use Rattle.parallel_run.specs.Relaying.{basis_in, is_end};
ghost use Rattle.parallel_run.specs.Messages.{IsDelivered};

use crate::of_run::OfRun;
use crate::row_batch::Delivery;
use crate::row_relay::{RowRelay, RowSendSeat};
use std::marker::PhantomData;
use std::sync::Wait;

/// The right to send the rows of a part, beside its relay, which is the one of that number among those
/// of the run.
#[derive(Drop)]
pub struct BatchSender<'b, K: OfRun> {
    pub(crate) relay: &'b RowRelay,
    pub(crate) seat: RowSendSeat,
    /// The number of the part.
    pub(crate) number: usize,
    // whether more may be sent
    is_open: bool,
    run: PhantomData<K>,
    ghost is_sender: { IsSender relay.now seat },
    ghost here: { slice_get K.relays number ≡ Some relay.now },
    ghost of_run: { K.basis ≡ Some (basis_in (given_of relay.now)) },
    ghost not_over: { is_open ≡ true → has_last is_end (sent_by seat) ≡ false },
}

impl<'b, K: OfRun> BatchSender<'b, K> {
    /// The end of this relay, over which nothing was sent.
    pub(crate) fn new(relay: &'b RowRelay, seat: RowSendSeat, number: usize) -> Self
        requires is_sender { IsSender relay.now seat }
        requires here { slice_get K.relays number ≡ Some relay.now }
        requires of_run { K.basis ≡ Some (basis_in (given_of relay.now)) }
        requires none { sent_by seat ≡ [] }
    {
        BatchSender {
            relay,
            seat,
            number,
            is_open: true,
            run: PhantomData,
        }
    }

    /// Sends once there is room. False where nothing more may be sent: then it is lost.
    pub(crate) fn send(&mut self, rt: &impl Wait, delivery: Delivery) -> bool
        requires delivered { (basis : Basis) → K.basis ≡ Some basis → IsDelivered basis delivery }
        ensures sent { OnTrue result (sent_by self.new.seat ≡ sent_by self.old.seat ++ delivery ∷ []) }
        ensures unsent { result ≡ false → sent_by self.new.seat ≡ sent_by self.old.seat }
    {
        if !self.is_open {
            return false;
        }
        let is_end = delivery.is_end();
        match self.relay.send(rt, &mut self.seat, delivery) {
            Ok(()) => {
                self.is_open = !is_end;
                true
            }
            Err(_) => false,
        }
    }
}
