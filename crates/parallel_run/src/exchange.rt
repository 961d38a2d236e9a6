//! The exchange at the end of a round.
ghost use Rattle.std.specs.Prelude.{◌≡◌, ◌+◌, ◌<◌, true, map, Some, OnOk, IfOk, IfErr};
ghost use Rattle.windows.specs.WorldOf.{world_of};
ghost use Rattle.windows.specs.Window.{is_own};
ghost use Rattle.base.specs.Rising.{AreNew};
ghost use Rattle.std.specs.List.{AllByRecursion};
ghost use Rattle.member.specs.declared.event.Event.{Event as AnEvent};
ghost use Rattle.member.specs.StateOf.{pair_of};
ghost use Rattle.windows.specs.Parts.{with_arrivals};
ghost use Rattle.lookahead_windows.specs.Basis.{Basis, IsBasis};
ghost use Rattle.parallel_run.specs.Peers.{AreOthers, numbers_of};
ghost use Rattle.parallel_run.specs.Messages.{MayEndBy};
ghost use Rattle.parallel_run.specs.Windows.{AfterWindow, CanTell, Begins};

use crate::of_run::OfRun;
use crate::peers::{Peer, WindowSummary};
use crate::spin_policy::SpinPolicy;
use crate::window_message::WindowMessage;
use base::{Fault, Memory, Moment};
use lookahead_windows::lesser_moment;
use member::Event;
use std::alloc::AllocError;
use std::sync::Wait;
use windows::Part;
use worker_queue::EventQueue;

/// What a process knows once the messages of all others in a round have come.
#[derive(Drop)]
pub(crate) struct WindowResult {
    /// The first moment that pends anywhere.
    pub(crate) first: Option<Moment>,
    /// How many rows all parts wrote.
    pub(crate) rows: u64,
    /// How often all workers slept.
    pub(crate) slept: u64,
}

/// Sends each other process its message of a round.
pub(crate) fn tell_all<'b, K: OfRun>(
    peers: &mut Vec<Peer<'b, K>>,
    telling: &WindowSummary,
    out: &mut Vec<Vec<Event>>,
) -> Result<(), Fault>
    requires others { (basis : Basis) → K.basis ≡ Some basis → AreOthers basis.deal.parts telling.now.from (numbers_of peers.old.items) }
    requires known { (basis : Basis) → K.basis ≡ Some basis → CanTell basis telling.now.from telling.now.round telling.now.least (map (λ list. list.items) out.old.items) }
    ensures numbers { numbers_of peers.new.items ≡ numbers_of peers.old.items }
    ensures fault { IfErr result (λ fault. fault ≡ Fault.ThreadLost) }
{
    for peer in peers.iter_mut() {
        if !peer.tell(telling, out) {
            return Err(Fault::ThreadLost);
        }
    }
    Ok(())
}

/// Hears from each other process of the round, and lets come to the part what they send.
pub(crate) fn hear_all<'b, K: OfRun, Q: EventQueue<Event> + Drop>(
    rt: &impl Wait,
    peers: &mut Vec<Peer<'b, K>>,
    patience: &mut SpinPolicy,
    part: &mut Part<Q>,
    told: WindowSummary,
) -> Result<WindowResult, Fault>
    requires run { (basis : Basis) × (K.basis ≡ Some basis) }
    requires own { (basis : Basis) → K.basis ≡ Some basis → told.from < basis.deal.parts }
    requires others { (basis : Basis) → K.basis ≡ Some basis → AreOthers basis.deal.parts told.from (numbers_of peers.old.items) }
    requires window { (basis : Basis) → K.basis ≡ Some basis → IsBasis basis × AfterWindow Q.set basis told.from told.round told.least part.old }
    ensures numbers { numbers_of peers.new.items ≡ numbers_of peers.old.items }
    ensures next { IfOk result (λ heard. (basis : Basis) → K.basis ≡ Some basis → Begins Q.set basis told.from (told.round + 1) heard.first part.new) }
    ensures number { OnOk result (part.new.number ≡ part.old.number) }
    ensures fault { IfErr result (λ fault. (basis : Basis) → K.basis ≡ Some basis → MayEndBy basis fault) }
{
    let mut first = told.least;
    let mut rows = told.rows;
    let mut slept = told.slept;
    for peer in peers.iter_mut() {
        let word = peer.hear(rt, patience, told.from, told.round)?;
        let WindowMessage {
            events,
            spent,
            least,
            rows: theirs,
            slept: sleeps,
            ..
        } = word;
        receive(part, &events)?;
        peer.keep(events, spent);
        first = lesser_moment(first, least);
        rows = rows.saturating_add(theirs);
        slept = slept.saturating_add(sleeps);
    }
    Ok(WindowResult { first, rows, slept })
}

/// Lets copies of these events come to the part. What a thread frees of another's memory keeps that
/// one waiting, so each frees its own.
fn receive<Q: EventQueue<Event> + Drop>(part: &mut Part<Q>, events: &[Event]) -> Result<(), Memory>
    requires own { AllByRecursion (λ (e : AnEvent). is_own (world_of Q.set part.old) e.key.to ≡ true) events.now }
    requires new { AreNew (world_of Q.set part.old).pending (map pair_of events.now) }
    ensures come { OnOk result (world_of Q.set part.new ≡ with_arrivals (world_of Q.set part.old) (map pair_of events.now)) }
    ensures number { OnOk result (part.new.number ≡ part.old.number) }
{
    for event in events {
        part.receive(copied(event)?)?;
    }
    Ok(())
}

/// The same event in memory of this thread.
fn copied(event: &Event) -> Result<Event, AllocError>
    ensures { IfOk result (λ copy. copy ≡ event.now) }
{
    event.clone()
}
