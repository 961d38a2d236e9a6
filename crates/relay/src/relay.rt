//! A bounded channel that carries items in order between two threads, with contracts over what each seat sent and
//! received.
ghost use Rattle.std.specs.Prelude.{◌≡◌, ◌++◌, [], ◌∷◌, false, IfOk, IfErr, OnOk, OnErr, IfSome, IfNone};
ghost use Rattle.crossbeam_channel.specs.Ends.{sends_on, receives_on};

mod closing;

use crate::item::BatchRule;
use crate::roles::part;
use crate::rule::{InOrder, Log, Sent, Taken};
use base::Memory;
use base::limits::BATCHES_OF_A_RELAY;
pub use closing::close;
use crossbeam_channel::{Pass, RuledReceiver, RuledSender, bounded_with};
use std::alloc::Global;
use std::marker::Brand;
use std::snapshot::Snapshot;
use std::sync::Wait;

/// Carries items in order from the one that sends to the one that receives, each in a thread of its own.
#[derive(Drop)]
pub struct Relay<T: Drop, L, G, S: BatchRule<T, L, G>> {
    sender: RuledSender<T, Log<L, G>, InOrder<S>>,
    taker: RuledReceiver<T, Log<L, G>, InOrder<S>>,
    given: Snapshot<G>,
    ghost one: { receives_on taker ≡ sends_on sender },
}

/// The right to send, with the record of what was sent. It has no bytes.
#[derive(Drop)]
pub struct SendSeat<T, L, G> {
    pass: Pass<T, Log<L, G>>,
}

/// The right to receive, with the record of what was received. It has no bytes.
#[derive(Drop)]
pub struct TakeSeat<T, L, G> {
    pass: Pass<T, Log<L, G>>,
}

impl<T: Drop, L, G, S: BatchRule<T, L, G>> Relay<T, L, G, S> {
    ghost use Rattle.relay.specs.Lots.{has_last};
    ghost use Rattle.relay.specs.Seats.{given_of, room_of, sent_by, taken_by, IsSender, IsTaker};

    /// A relay for that value, in which nothing lies, and its two seats, with empty records. It has
    /// room for 8 items. `Memory` where memory was refused.
    pub fn new(
        alloc: Global,
        given: &G,
    ) -> Result<(Relay<T, L, G, S>, SendSeat<T, L, G>, TakeSeat<T, L, G>), Memory>
        ensures given { IfOk result (λ r. given_of r.0 ≡ given.now) }
        ensures room { IfOk result (λ r. room_of r.0 ≡ 8) }
        ensures sender { IfOk result (λ r. IsSender r.0 r.1) }
        ensures taker { IfOk result (λ r. IsTaker r.0 r.2) }
        ensures sent { IfOk result (λ r. sent_by r.1 ≡ []) }
        ensures taken { IfOk result (λ r. taken_by r.2 ≡ []) }
    {
        let Ok((sender, taker, mut pass)) = bounded_with::<T, Log<L, G>, InOrder<S>, Global>(
            alloc,
            BATCHES_OF_A_RELAY,
        ) else {
            return Err(Memory);
        };
        let other = part::<T, L, G, S, Brand>(&sender, &mut pass, given);
        let relay = Relay {
            sender,
            taker,
            given: Snapshot::of(given),
        };
        Ok((relay, SendSeat { pass }, TakeSeat { pass: other }))
    }

    /// Sends an item, once there is room. One is handed back only where the relay no longer takes
    /// any: while both its ends live, none is. None may be sent after the last.
    pub fn send<R: Wait>(&self, rt: &R, seat: &mut SendSeat<T, L, G>, item: T) -> Result<(), T>
        requires seat { IsSender self.now seat.old }
        requires not_over { has_last S.is_last (sent_by seat.old) ≡ false }
        requires belongs { S.belongs (given_of self.now) item }
        ensures seat { IsSender self.now seat.new }
        ensures sent { OnOk result (sent_by seat.new ≡ sent_by seat.old ++ S.stands_for item ∷ []) }
        ensures handed_back { IfErr result (λ refused. refused ≡ item) }
        ensures unchanged { OnErr result (sent_by seat.new ≡ sent_by seat.old) }
    {
        match self.sender.send_as::<Sent<S>, R>(rt, &mut seat.pass, item) {
            Ok(()) => Ok(()),
            Err(refused) => Err(refused.into_inner()),
        }
    }

    /// Receives the oldest item that was not received yet, once there is one. `None` only where none
    /// comes any more: while both ends of the relay live, it waits instead.
    pub fn receive<R: Wait>(&self, rt: &R, seat: &mut TakeSeat<T, L, G>) -> Option<T>
        requires { IsTaker self.now seat.old }
        ensures seat { IsTaker self.now seat.new }
        ensures taken { IfSome result (λ item. taken_by seat.new ≡ taken_by seat.old ++ S.stands_for item ∷ []) }
        ensures belongs { IfSome result (λ item. S.belongs (given_of self.now) item) }
        ensures unchanged { IfNone result (taken_by seat.new ≡ taken_by seat.old) }
    {
        match self.taker.recv_as::<Taken<S>, R>(rt, &mut seat.pass) {
            Ok(item) => Some(item),
            Err(_) => None,
        }
    }
}
