//! A process's rings to and from the others.
ghost use Rattle.std.specs.Prelude.{◌≡◌, ◌≢◌, ℕ, ◌+◌, ◌<◌, [], length, map, unwrap_or, Some, IfOk, IfErr};
ghost use Rattle.std.specs.List.{slice_get};
ghost use Rattle.member.specs.StateOf.{pair_of};
ghost use Rattle.lookahead_windows.specs.Messages.{IsMessage};
ghost use Rattle.lookahead_windows.specs.Basis.{Basis, plan_of};
ghost use Rattle.parallel_run.specs.Peers.{AreOthers, AreJoined, numbers_of};
ghost use Rattle.parallel_run.specs.Messages.{MayEndBy, IsWord};

use crate::event_count::EventCount;
use crate::of_run::OfRun;
use crate::protocols::Words;
use crate::ring::{Sender, Taker, ring_between};
use crate::spin_policy::SpinPolicy;
use crate::window_message::{PeerMessage, WindowMessage};
use base::{Fault, Memory, Moment};
use member::Event;
use std::alloc::Global;
use std::mem;
use std::sync::Wait;

/// How many messages a ring has room for. A process is no more than a round ahead of another, so
/// that two words are on their way at most, and that one ended.
const ROOM: usize = 4;

/// The rings between a process and another one.
#[derive(Drop)]
pub(crate) struct Peer<'b, K: OfRun> {
    /// The part of the other.
    pub(crate) number: usize,
    to: Sender<'b, PeerMessage, Words<K>>,
    from: Taker<'b, PeerMessage, Words<K>>,
    // what the other sent last: its memory goes back to the thread that took it
    spent: Vec<Event>,
    // memory that came back: it serves what is sent next
    back: Vec<Event>,
}

/// What a process sends each other one about its round.
#[derive(Drop)]
pub(crate) struct WindowSummary {
    pub(crate) from: usize,
    pub(crate) round: u64,
    pub(crate) least: Option<Moment>,
    pub(crate) rows: u64,
    pub(crate) slept: u64,
}

/// Rings between any two of so many processes, with the event count of each: for each process those to the
/// others, in the order of the processes.
pub(crate) fn peers_of<'b, K: OfRun>(
    alloc: Global,
    event_counts: &'b [EventCount],
) -> Result<Vec<Vec<Peer<'b, K>>>, Memory>
    ensures { IfOk result (λ all. AreJoined (length event_counts.now) (map (λ peers. peers.items) all.items)) }
{
    let mut all = Vec::new(alloc);
    for event_count in event_counts {
        let peers = joined_peers(alloc, &mut all, event_count, event_counts)?;
        all.push(peers)?;
    }
    Ok(all)
}

/// Joins one more process to those before it: its peers.
fn joined_peers<'b, K: OfRun>(
    alloc: Global,
    before: &mut Vec<Vec<Peer<'b, K>>>,
    own: &'b EventCount,
    event_counts: &'b [EventCount],
) -> Result<Vec<Peer<'b, K>>, Memory>
    requires more { length before.old.items < length event_counts.now }
    requires joined { AreJoined (length before.old.items) (map (λ peers. peers.items) before.old.items) }
    ensures count { IfOk result (λ _. length before.new.items ≡ length before.old.items) }
    ensures before { IfOk result (λ _. (i : ℕ) (peers : _) → slice_get before.new.items i ≡ Some peers → AreOthers (length before.old.items + 1) i (numbers_of peers.items)) }
    ensures own { IfOk result (λ peers. AreOthers (length before.old.items + 1) (length before.old.items) (numbers_of peers.items)) }
{
    let number = before.len();
    let mut peers = Vec::new(alloc);
    for (other, others) in before.iter_mut().enumerate() {
        let theirs = &event_counts[other];
        let (to, there) = ring_between(alloc, ROOM, theirs)?;
        let (back, from) = ring_between(alloc, ROOM, own)?;
        peers.push(Peer {
            number: other,
            to,
            from,
            spent: Vec::new(alloc),
            back: Vec::new(alloc),
        })?;
        others.push(Peer {
            number,
            to: back,
            from: there,
            spent: Vec::new(alloc),
            back: Vec::new(alloc),
        })?;
    }
    Ok(peers)
}

impl<'b, K: OfRun> Peer<'b, K> {
    /// Sends the other process its message of a round. False where it can't be sent.
    pub(crate) fn tell(&mut self, telling: &WindowSummary, out: &mut Vec<Vec<Event>>) -> bool
        requires known { (basis : Basis) → K.basis ≡ Some basis → IsMessage (plan_of basis) telling.now.from self.old.number telling.now.round
            (map pair_of (unwrap_or (slice_get (map (λ list. list.items) out.old.items) self.old.number) [])) telling.now.least }
        ensures number { self.new.number ≡ self.old.number }
        ensures others { (i : ℕ) → i ≢ self.old.number → slice_get out.new.items i ≡ slice_get out.old.items i }
    {
        let alloc = *self.spent.allocator();
        let back = mem::replace(&mut self.back, Vec::new(alloc));
        let events = taken_out(alloc, out, self.number, back);
        let word = WindowMessage {
            from: telling.from,
            to: self.number,
            round: telling.round,
            events,
            least: telling.least,
            rows: telling.rows,
            slept: telling.slept,
            spent: mem::replace(&mut self.spent, Vec::new(alloc)),
        };
        self.to.send_at_once(PeerMessage::WindowMessage(word))
    }

    /// Keeps what the other process sent until the next word to it, and the memory that came back with it.
    pub(crate) fn keep(&mut self, spent: Vec<Event>, back: Vec<Event>)
        ensures number { self.new.number ≡ self.old.number }
        ensures kept { self.new.spent.items ≡ spent.items }
        ensures back { self.new.back.items ≡ back.items }
    {
        self.spent = spent;
        self.back = back;
    }

    /// Reports to the other process that this one has ended by the fault.
    pub(crate) fn tell_end(&mut self, fault: Fault)
        requires { (basis : Basis) → K.basis ≡ Some basis → MayEndBy basis fault }
        ensures number { self.new.number ≡ self.old.number }
    {
        let _ = self.to.send_at_once(PeerMessage::Ended(fault));
    }

    /// What the other process sends in the round.
    ///
    /// Faults: that by which it ended, `ThreadLost` where anything else or nothing comes.
    pub(crate) fn hear(
        &mut self,
        rt: &impl Wait,
        patience: &mut SpinPolicy,
        own: usize,
        round: u64,
    ) -> Result<WindowMessage, Fault>
        ensures number { self.new.number ≡ self.old.number }
        ensures word { IfOk result (λ word. (basis : Basis) → K.basis ≡ Some basis → IsWord basis word) }
        ensures place { IfOk result (λ word. (word.from ≡ self.old.number) × (word.to ≡ own) × (word.round ≡ round)) }
        ensures fault { IfErr result (λ fault. (basis : Basis) → K.basis ≡ Some basis → MayEndBy basis fault) }
    {
        match self.from.take(rt, patience) {
            Some(PeerMessage::WindowMessage(word)) => {
                if word.from == self.number && word.to == own && word.round == round {
                    Ok(word)
                } else {
                    Err(Fault::ThreadLost)
                }
            }
            Some(PeerMessage::Ended(fault)) => Err(fault),
            None => Err(Fault::ThreadLost),
        }
    }
}

/// Takes the list at that place, and leaves another one there.
fn taken_out(
    alloc: Global,
    lists: &mut Vec<Vec<Event>>,
    place: usize,
    other: Vec<Event>,
) -> Vec<Event>
    ensures taken { result.items ≡ unwrap_or (slice_get (map (λ list. list.items) lists.old.items) place) [] }
    ensures others { (i : ℕ) → i ≢ place → slice_get lists.new.items i ≡ slice_get lists.old.items i }
{
    match lists.get_mut(place) {
        Some(list) => mem::replace(list, other),
        None => Vec::new(alloc),
    }
}
