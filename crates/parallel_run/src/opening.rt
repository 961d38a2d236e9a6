//! The processes of a run, with their rings and relays, as it begins.
ghost use Rattle.std.specs.Prelude.{◌≡◌, [], length, map, Some, IfOk};
ghost use Rattle.std.specs.Box.{box_value};
ghost use Rattle.std.specs.List.{AllByRecursion};
ghost use Rattle.member.specs.Opening.{opening};
ghost use Rattle.turns.specs.Parts.{StandFor};
ghost use Rattle.lookahead_windows.specs.Starts.{IsFirstMoment};
ghost use Rattle.lookahead_windows.specs.Basis.{Basis, IsBasis};
ghost use Rattle.parallel_run.specs.Dealt.{all_begun};
ghost use Rattle.parallel_run.specs.Processes.{IsReady, begun_entry};

use crate::batch_receiver::BatchReceiver;
use crate::connections::Connections;
use crate::event_count::EventCount;
use crate::of_run::OfRun;
use crate::peers::peers_of;
use crate::process::{Process, ProcessState};
use crate::relay_ends::RelayEnds;
use crate::rows::Gathered;
use base::{Memory, Moment};
use lookahead_windows::WindowLists;
use member::Event;
use std::alloc::Global;
use windows::Part;
use worker_queue::EventQueue;

/// So many event counts.
pub(crate) fn event_counts_of(alloc: Global, count: usize) -> Result<Vec<EventCount>, Memory>
    ensures { IfOk result (λ event_counts. length event_counts.items ≡ count) }
{
    let mut event_counts = Vec::new(alloc);
    for _ in 0..count {
        event_counts.push(EventCount::new())?;
    }
    Ok(event_counts)
}

/// The same moment, where there is one.
fn same_moment(moment: &Option<Moment>) -> Option<Moment>
    ensures { result ≡ moment.now }
{
    match moment {
        Some(moment) => Some(*moment),
        None => None,
    }
}

/// The state of a process before its first round.
fn state_of<'b, K: OfRun, Q: EventQueue<Event> + Drop>(
    alloc: Global,
    part: Part<Q>,
    lines: Connections<'b, K>,
) -> Result<Box<ProcessState<'b, K, Q>>, Memory>
    ensures part { IfOk result (λ state. (box_value state).part ≡ part) }
    ensures lines { IfOk result (λ state. (box_value state).lines ≡ lines.entry) }
    ensures since { IfOk result (λ state. (box_value state).gathered.since ≡ 0) }
    ensures none { IfOk result (λ state. (box_value state).gathered.rows.items ≡ []) }
{
    let state = ProcessState {
        part,
        gathered: Gathered::new(alloc),
        lists: WindowLists::new(alloc),
        lines,
    };
    match Box::new(alloc, state) {
        Ok(state) => Ok(state),
        Err(_) => Err(Memory),
    }
}

/// A process for each of the parts, with rings between any two and with its end of a relay, and the
/// other ends of these. The ends of the first part come last.
pub(crate) fn processes_of<'b, K: OfRun, Q: EventQueue<Event> + Drop>(
    alloc: Global,
    parts: Vec<Part<Q>>,
    first: Option<Moment>,
    event_counts: &'b [EventCount],
    mut ends: Vec<RelayEnds<'b, K>>,
) -> Result<(Vec<Process<'b, K, Q>>, Vec<BatchReceiver<'b, K>>), Memory>
    requires run { (basis : Basis) → K.basis ≡ Some basis → IsBasis basis × StandFor Q.set basis.deal parts.items (opening basis.setup)
        × IsFirstMoment (opening basis.setup) first }
    requires event_counts { length event_counts.now ≡ length parts.items }
    requires ends { length ends.items ≡ length parts.items }
    ensures processes { IfOk result (λ r. (basis : Basis) → K.basis ≡ Some basis → AllByRecursion (IsReady Q.set basis) r.0.items) }
    ensures numbers { IfOk result (λ r. map begun_entry r.0.items ≡ all_begun (length r.0.items)) }
    ensures count { IfOk result (λ r. length r.0.items ≡ length parts.items) }
    ensures takers { IfOk result (λ r. length r.1.items ≡ length parts.items) }
{
    let mut peers = peers_of(alloc, event_counts)?;
    let mut processes = Vec::new(alloc);
    let mut takers = Vec::new(alloc);
    for part in parts {
        let number = processes.len();
        let Some(RelayEnds { sender, taker }) = ends.pop() else {
            unreachable!()
        };
        let own = std::mem::replace(&mut peers[number], Vec::new(alloc));
        let lines = Connections {
            number,
            peers: own,
            lots: sender,
        };
        let state = state_of(alloc, part, lines)?;
        processes.push(Process {
            state,
            round: 0,
            first: same_moment(&first),
        })?;
        takers.push(taker)?;
    }
    Ok((processes, takers))
}
