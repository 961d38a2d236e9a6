//! The relays of a run, from the ends of each, as it begins, to their end.
ghost use Rattle.std.specs.Prelude.{◌≡◌, length, map, Some, IfOk, IfErr, IfSome, OnOk};
ghost use Rattle.std.specs.List.{AllByRecursion, slice_get};
ghost use Rattle.run_output.specs.Traced.{IsEarly};
ghost use Rattle.lookahead_windows.specs.Basis.{Basis};
ghost use Rattle.board.specs.Deal.{SameBag};
ghost use Rattle.parallel_run.specs.Closing.{StillKeeps};
ghost use Rattle.parallel_run.specs.Dealt.{all_ended};
ghost use Rattle.parallel_run.specs.Returned.{AreAllBack, TakesOut, ended_entry};
ghost use Rattle.parallel_run.specs.Relays.{AreNewSeats, IsClosed, AreRelayed};

use crate::batch_receiver::BatchReceiver;
use crate::batch_sender::BatchSender;
use crate::closed_relay::ClosedRelay;
use crate::of_run::OfRun;
use crate::row_relay::{RelaySeats, RowRelay};
use base::{Fault, Memory};
use relay::close;
use reports::Tallies;
use std::alloc::Global;
use std::snapshot::Snapshot;

/// The two ends of a part's relay.
#[derive(Drop)]
pub(crate) struct RelayEnds<'b, K: OfRun> {
    pub(crate) sender: BatchSender<'b, K>,
    pub(crate) taker: BatchReceiver<'b, K>,
}

/// The ends of the relays of a run, as they come back.
#[derive(Drop)]
pub(crate) struct ReturnedEnds<'t, 's, K: OfRun> {
    /// Those of who writes, for each part.
    pub(crate) takers: Vec<BatchReceiver<'t, K>>,
    /// Those of the parts that came to the end. `None` where one of the parts has not.
    pub(crate) senders: Result<Option<Vec<BatchSender<'s, K>>>, Memory>,
}

/// The ends of the run's relays: those of the last part first.
pub(crate) fn ends_of<'b, K: OfRun>(
    alloc: Global,
    relays: &'b [RowRelay],
    mut all: Vec<RelaySeats>,
) -> Result<Vec<RelayEnds<'b, K>>, Memory>
    requires relays { K.relays ≡ relays.now }
    requires run { (basis : Basis) × (K.basis ≡ Some basis) × AllByRecursion (AreNewSeats relays.now basis) all.items }
    ensures { IfOk result (λ ends. length ends.items ≡ length all.items) }
{
    let mut ends = Vec::new(alloc);
    while let Some(seats) = all.pop() {
        ends.push(ends_at(relays, seats))?;
    }
    Ok(ends)
}

/// The ends of one of these relays.
fn ends_at<'b, K: OfRun>(relays: &'b [RowRelay], seats: RelaySeats) -> RelayEnds<'b, K>
    requires relays { K.relays ≡ relays.now }
    requires run { (basis : Basis) × (K.basis ≡ Some basis) × AreNewSeats relays.now basis seats }
{
    let RelaySeats {
        number,
        sender,
        taker,
        ..
    } = seats;
    let relay = &relays[number];
    RelayEnds {
        sender: BatchSender::new(relay, sender, number),
        taker: BatchReceiver::new(relay, taker, number),
    }
}

/// Closes the relays of a run that has come to its end: what came, and what went over each of them.
/// Where that is no fault, what was sent over each was received, and the last batch of its part was.
pub(crate) fn relays_closed<'t, 's, K: OfRun>(
    alloc: Global,
    relays: &[RowRelay],
    ends: ReturnedEnds<'t, 's, K>,
    so_far: Result<Tallies, Fault>,
) -> (Result<Tallies, Fault>, Vec<ClosedRelay>)
    requires { K.relays ≡ relays.now }
    ensures keeps { StillKeeps so_far result.0 }
    ensures relayed { OnOk result.0 (AreRelayed relays.now result.1.items) }
    ensures back { OnOk result.0 (AreAllBack (length relays.now) ends.entry.senders) }
    ensures same { OnOk result.0 (result.0 ≡ so_far) }
{
    // a pair is answered, so no `?`
    let tallies = match so_far {
        Ok(tallies) => tallies,
        Err(fault) => return (Err(fault), Vec::new(alloc)),
    };
    match close_all(alloc, relays, ends) {
        Ok(closed) => (Ok(tallies), closed),
        Err(fault) => (Err(fault), Vec::new(alloc)),
    }
}

/// Closes each of these relays, given the ends that came back. `ThreadLost` where one is missing or left over,
/// or the last batch was not received.
fn close_all<'t, 's, K: OfRun>(
    alloc: Global,
    relays: &[RowRelay],
    ends: ReturnedEnds<'t, 's, K>,
) -> Result<Vec<ClosedRelay>, Fault>
    requires { K.relays ≡ relays.now }
    ensures relayed { IfOk result (λ closed. AreRelayed relays.now closed.items) }
    ensures back { OnOk result (AreAllBack (length relays.now) ends.entry.senders) }
    ensures fault { IfErr result IsEarly }
{
    let ReturnedEnds { takers, senders } = ends;
    let Some(senders) = senders? else {
        return Err(Fault::ThreadLost);
    };
    close_each(alloc, relays, takers, senders)
}

/// Closes each of these relays, given an end of each in order and the other ends in any order.
/// `ThreadLost` where one is missing or left over, or the last batch was not received.
fn close_each<'t, 's, K: OfRun>(
    alloc: Global,
    relays: &[RowRelay],
    mut takers: Vec<BatchReceiver<'t, K>>,
    mut senders: Vec<BatchSender<'s, K>>,
) -> Result<Vec<ClosedRelay>, Fault>
    requires { K.relays ≡ relays.now }
    ensures relayed { IfOk result (λ closed. AreRelayed relays.now closed.items) }
    ensures back { OnOk result (SameBag (map ended_entry senders.entry.items) (all_ended (length relays.now))) }
    ensures fault { IfErr result IsEarly }
{
    let mut closed = Vec::new(alloc);
    takers.reverse();
    for number in 0..relays.len() {
        let Some(taker) = takers.pop() else {
            return Err(Fault::ThreadLost);
        };
        let Some(sender) = sender_of(&mut senders, number) else {
            return Err(Fault::ThreadLost);
        };
        let relay = closed_at(number, sender, taker)?;
        match closed.push(relay) {
            Ok(()) => {}
            Err(_) => return Err(Fault::Memory),
        }
    }
    if senders.len() != 0 {
        return Err(Fault::ThreadLost);
    }
    Ok(closed)
}

/// Takes out the end of the part of that number, where it is among these.
fn sender_of<'b, K: OfRun>(
    senders: &mut Vec<BatchSender<'b, K>>,
    number: usize,
) -> Option<BatchSender<'b, K>>
    ensures { IfSome result (λ one. (one.number ≡ number) × TakesOut senders.old.items senders.new.items one) }
{
    for place in 0..senders.len() {
        if senders[place].number == number {
            return Some(senders.swap_remove(place));
        }
    }
    None
}

/// Closes the relay of that number, where these are its ends. `ThreadLost` where they are others, or the
/// last batch was not received.
fn closed_at<'t, 's, K: OfRun>(
    number: usize,
    sender: BatchSender<'s, K>,
    taker: BatchReceiver<'t, K>,
) -> Result<ClosedRelay, Fault>
    ensures closed { IfOk result (IsClosed K.relays number) }
    ensures fault { IfErr result (λ fault. fault ≡ Fault.ThreadLost) }
{
    if sender.number != number || taker.number != number || !taker.is_whole {
        return Err(Fault::ThreadLost);
    }
    let relay = taker.relay;
    let sent = sender.seat;
    let taken = taker.seat;
    let ended = ClosedRelay {
        sent: Snapshot::of(&sent),
        taken: Snapshot::of(&taken),
    };
    close(relay, sent, taken);
    Ok(ended)
}
