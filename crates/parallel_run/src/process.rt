//! A logical process of a run: a part of the cluster, and its lines to the others.
ghost use Rattle.std.specs.Prelude.{◌≡◌, ◌⊎◌, ◌+◌, ◌<◌, ◌≤◌, Some, IfOk, IfErr, OnOk, IfSome, IfNone};
ghost use Rattle.std.specs.Box.{box_value};
ghost use Rattle.lookahead_windows.specs.Starts.{IsUpTo};
ghost use Rattle.lookahead_windows.specs.Plan.{bound_of};
ghost use Rattle.lookahead_windows.specs.Basis.{basis_of, plan_of, GoBy};
ghost use Rattle.parallel_run.specs.Peers.{AreLines};
ghost use Rattle.parallel_run.specs.Messages.{MayEndBy};
ghost use Rattle.parallel_run.specs.Windows.{AfterWindow, Begins, GathersUpTo, GathersSoFar};
ghost use Rattle.parallel_run.specs.Processes.{IsReady, IsWaiting};

use crate::connections::Connections;
use crate::exchange::{WindowResult, hear_all};
use crate::of_run::OfRun;
use crate::peers::WindowSummary;
use crate::rows::Gathered;
use crate::spin_policy::SpinPolicy;
use base::{Fault, Moment};
use lookahead_windows::{Entered, Rounds, WindowLists, round_bound, run_window};
use member::Event;
use std::alloc::Global;
use std::sync::Wait;
use windows::Part;
use worker_queue::EventQueue;

/// What a process has from round to round. It stays in one place while the process goes from hand to hand.
#[derive(Drop)]
pub struct ProcessState<'b, K: OfRun, Q: EventQueue<Event>> {
    pub(crate) part: Part<Q>,
    pub(crate) gathered: Gathered,
    /// Those of its windows.
    pub(crate) lists: WindowLists,
    pub(crate) lines: Connections<'b, K>,
}

/// A process that begins a round.
#[derive(Drop)]
pub struct Process<'b, K: OfRun, Q: EventQueue<Event>> {
    pub(crate) state: Box<ProcessState<'b, K, Q>>,
    /// The round, from 0.
    pub(crate) round: u64,
    /// The first moment that pends anywhere.
    pub(crate) first: Option<Moment>,
}

/// A process that has run its window of a round and sent the others its messages, and is to hear from them.
#[derive(Drop)]
pub struct Waiting<'b, K: OfRun, Q: EventQueue<Event>> {
    state: Box<ProcessState<'b, K, Q>>,
    told: WindowSummary,
    /// The round after that.
    next: u64,
    /// The moment that all parts have passed then.
    common: Moment,
}

/// What all processes did in a round.
#[derive(Clone, Copy)]
pub(crate) struct Counts {
    /// How many rows they wrote.
    pub(crate) rows: u64,
    /// How often the workers slept while they waited.
    pub(crate) slept: u64,
}

impl<'b, K: OfRun, Q: EventQueue<Event> + Drop> Process<'b, K, Q> {
    /// The first moment that pends, where it is no later than the end.
    pub(crate) fn pending(&self, end: Moment) -> Option<Moment>
        ensures some { IfSome result (λ moment. (self.now.first ≡ Some moment) × (moment ≤ end)) }
        ensures none { IfNone result (IsUpTo self.now.first (end + 1)) }
    {
        match &self.first {
            Some(first) => in_time(*first, end),
            None => None,
        }
    }

    /// Before which moment the window of its part stays in the round, in which this is the first moment
    /// that pends.
    pub(crate) fn bound(&self, from: Moment, rounds: &Rounds) -> Moment
        requires rounds { GoBy rounds.now }
        requires own { (box_value self.now.state).lines.number < rounds.now.division.now.parts }
        ensures { result ≡ bound_of (plan_of (basis_of rounds.now)) (Some from) (box_value self.now.state).lines.number }
    {
        round_bound(from, rounds.end, rounds.ways[self.state.lines.number])
    }

    /// Runs the window of its part in the round, in which this is the first moment that pends, up to the
    /// bound that a gate got. Then it sends the others its messages, with how often its worker has slept.
    ///
    /// Faults: `Memory`; `CounterOverflow` where a counter of the window would pass 2^63; `ThreadLost` where a message
    /// can't be sent. The fault is sent to all others.
    pub(crate) fn run(
        self,
        rt: &impl Wait,
        alloc: Global,
        from: Moment,
        entered: Entered,
        slept: u64,
        rounds: &Rounds,
    ) -> Result<Waiting<'b, K, Q>, Fault>
        requires rounds { GoBy rounds.now }
        requires run { K.basis ≡ Some (basis_of rounds.now) }
        requires ready { IsReady Q.set (basis_of rounds.now) self }
        requires pends { (self.first ≡ Some from) × (from ≤ rounds.now.end) }
        requires entered { (entered.window ≡ self.round + 1) × (entered.part ≡ (box_value self.state).lines.number) }
        requires bound { entered.bound ≡ bound_of (plan_of (basis_of rounds.now)) (Some from) (box_value self.state).lines.number }
        ensures waiting { IfOk result (IsWaiting Q.set (basis_of rounds.now)) }
        ensures fault { IfErr result (MayEndBy (basis_of rounds.now)) }
    {
        let Process {
            mut state,
            round,
            ..
        } = self;
        let window = Window {
            round,
            from,
            bound: entered.bound,
            slept,
        };
        match told(alloc, &mut *state, window, rounds) {
            Ok(told) => Ok(Waiting {
                state,
                told,
                next: round + 1,
                common: round_bound(from, rounds.end, rounds.shortest),
            }),
            Err(fault) => {
                state.lines.tell_end(rt, fault);
                Err(fault)
            }
        }
    }

    /// Sends the last rows, where nothing is left up to the end: its lines.
    ///
    /// Faults: `Memory`; `ThreadLost` where nobody takes the rows. The fault is sent to all others.
    pub(crate) fn end(self, rt: &impl Wait, rounds: &Rounds) -> Result<Connections<'b, K>, Fault>
        requires rounds { GoBy rounds.now }
        requires run { K.basis ≡ Some (basis_of rounds.now) }
        requires ready { IsReady Q.set (basis_of rounds.now) self }
        requires past { IsUpTo self.first (rounds.now.end + 1) }
        ensures fault { IfErr result (MayEndBy (basis_of rounds.now)) }
    {
        let Process { state, round, .. } = self;
        let ProcessState {
            mut gathered,
            mut lines,
            ..
        } = Box::into_inner(state);
        let until = Moment(rounds.end.ticks() + 1);
        match lines.send_lot(rt, &mut gathered, until, round, true) {
            Ok(()) => Ok(lines),
            Err(fault) => {
                lines.tell_end(rt, fault);
                Err(fault)
            }
        }
    }
}

/// The moment, where it is no later than the end.
fn in_time(first: Moment, end: Moment) -> Option<Moment>
    ensures some { IfSome result (λ moment. (first ≡ moment) × (moment ≤ end)) }
    ensures none { IfNone result (end + 1 ≤ first) }
{
    if end.ticks() < first.ticks() {
        return None;
    }
    Some(first)
}

/// The window that a process is to run.
#[derive(Clone, Copy)]
struct Window {
    round: u64,
    /// The first moment that pends anywhere.
    from: Moment,
    bound: Moment,
    slept: u64,
}

/// Runs the window of the part, and sends the others what it gave. Returns what was sent.
fn told<'b, K: OfRun, Q: EventQueue<Event> + Drop>(
    alloc: Global,
    state: &mut ProcessState<'b, K, Q>,
    window: Window,
    rounds: &Rounds,
) -> Result<WindowSummary, Fault>
    requires rounds { GoBy rounds.now }
    requires run { K.basis ≡ Some (basis_of rounds.now) }
    requires begins { Begins Q.set (basis_of rounds.now) state.old.lines.number window.round (Some window.from) state.old.part }
    requires gathered { GathersSoFar (basis_of rounds.now) state.old.lines.number window.round state.old.gathered }
    requires lines { AreLines (basis_of rounds.now) state.old.lines }
    requires bound { window.bound ≡ bound_of (plan_of (basis_of rounds.now)) (Some window.from) state.old.lines.number }
    ensures lines { AreLines (basis_of rounds.now) state.new.lines }
    ensures own { state.new.lines.number ≡ state.old.lines.number }
    ensures told { IfOk result (λ told. (told.from ≡ state.old.lines.number) × (told.round ≡ window.round)) }
    ensures window { IfOk result (λ told. AfterWindow Q.set (basis_of rounds.now) state.old.lines.number window.round told.least state.new.part) }
    ensures gathered { OnOk result (GathersUpTo (basis_of rounds.now) state.old.lines.number (bound_of (plan_of (basis_of rounds.now)) (Some window.from) state.old.lines.number) state.new.gathered) }
    ensures fault { IfErr result (MayEndBy (basis_of rounds.now)) }
{
    let least = run_window(
        alloc,
        &mut state.part,
        window.bound,
        rounds,
        &mut state.lists,
    )?;
    let told = state.lines.tell(
        window.round,
        window.slept,
        least,
        &mut state.lists,
        &mut state.gathered,
    )?;
    Ok(told)
}

impl<'b, K: OfRun, Q: EventQueue<Event> + Drop> Waiting<'b, K, Q> {
    /// Hears from the others, and sends rows where that is due: the process as it begins the next
    /// round, and what all did in this one.
    ///
    /// Faults: `Memory`, those by which others ended, and `ThreadLost` where anything else comes from them or
    /// nobody takes the rows. The fault is sent to all others.
    pub(crate) fn hear(
        self,
        rt: &impl Wait,
        patience: &mut SpinPolicy,
        rounds: &Rounds,
    ) -> Result<(Process<'b, K, Q>, Counts), Fault>
        requires rounds { GoBy rounds.now }
        requires run { K.basis ≡ Some (basis_of rounds.now) }
        requires waiting { IsWaiting Q.set (basis_of rounds.now) self }
        ensures ready { IfOk result (λ r. IsReady Q.set (basis_of rounds.now) r.0) }
        ensures fault { IfErr result (MayEndBy (basis_of rounds.now)) }
    {
        let Waiting {
            mut state,
            told,
            next,
            common,
        } = self;
        let due = Due { next, common };
        match heard(rt, patience, &mut *state, told, due, rounds) {
            Ok(heard) => {
                let WindowResult { first, rows, slept } = heard;
                let process = Process {
                    state,
                    round: next,
                    first,
                };
                Ok((process, Counts { rows, slept }))
            }
            Err(fault) => {
                state.lines.tell_end(rt, fault);
                Err(fault)
            }
        }
    }

    /// Reports to all others that the process has ended by the fault.
    pub(crate) fn tell_end(&mut self, rt: &impl Wait, fault: Fault)
        requires { (basis : _) → K.basis ≡ Some basis → MayEndBy basis fault }
    {
        self.state.lines.tell_end(rt, fault);
    }
}

/// Which lot is due once enough rows are there.
#[derive(Clone, Copy)]
struct Due {
    /// The round before which it is sent.
    next: u64,
    /// The moment that all parts have passed.
    common: Moment,
}

/// Receives the others' messages of the round in which it sent its own, and sends a batch where one is due.
fn heard<'b, K: OfRun, Q: EventQueue<Event> + Drop>(
    rt: &impl Wait,
    patience: &mut SpinPolicy,
    state: &mut ProcessState<'b, K, Q>,
    told: WindowSummary,
    due: Due,
    rounds: &Rounds,
) -> Result<WindowResult, Fault>
    requires rounds { GoBy rounds.now }
    requires run { K.basis ≡ Some (basis_of rounds.now) }
    requires lines { AreLines (basis_of rounds.now) state.old.lines }
    requires told { told.from ≡ state.old.lines.number }
    requires window { AfterWindow Q.set (basis_of rounds.now) state.old.lines.number told.round told.least state.old.part }
    requires gathered { (to : _) × (due.common ≤ to) × GathersUpTo (basis_of rounds.now) state.old.lines.number to state.old.gathered }
    ensures lines { AreLines (basis_of rounds.now) state.new.lines }
    ensures own { state.new.lines.number ≡ state.old.lines.number }
    ensures next { IfOk result (λ heard. Begins Q.set (basis_of rounds.now) state.old.lines.number (told.round + 1) heard.first state.new.part) }
    ensures gathered { OnOk result ((to : _) → due.common ≤ to → GathersUpTo (basis_of rounds.now) state.old.lines.number to state.old.gathered
        → GathersUpTo (basis_of rounds.now) state.old.lines.number to state.new.gathered) }
    ensures fault { IfErr result (MayEndBy (basis_of rounds.now)) }
{
    let _ = rounds;
    let heard = hear_all(rt, &mut state.lines.peers, patience, &mut state.part, told)?;
    send_due(
        rt,
        heard.rows,
        due,
        &mut state.gathered,
        &mut state.lines,
        rounds,
    )?;
    Ok(heard)
}

/// Sends a lot, where all parts together have written enough rows with those of a round.
fn send_due<'b, K: OfRun>(
    rt: &impl Wait,
    rows: u64,
    due: Due,
    gathered: &mut Gathered,
    lines: &mut Connections<'b, K>,
    rounds: &Rounds,
) -> Result<(), Fault>
    requires rounds { GoBy rounds.now }
    requires run { K.basis ≡ Some (basis_of rounds.now) }
    requires gathered { (to : _) × (due.common ≤ to) × GathersUpTo (basis_of rounds.now) lines.old.number to gathered.old }
    ensures own { lines.new.number ≡ lines.old.number }
    ensures peers { lines.new.peers ≡ lines.old.peers }
    ensures gathered { OnOk result ((to : _) → due.common ≤ to → GathersUpTo (basis_of rounds.now) lines.old.number to gathered.old
        → GathersUpTo (basis_of rounds.now) lines.old.number to gathered.new) }
    ensures fault { IfErr result (λ fault. (fault ≡ Fault.Memory) ⊎ (fault ≡ Fault.ThreadLost)) }
{
    let _ = rounds;
    if !gathered.are_enough(rows) {
        return Ok(());
    }
    lines.send_lot(rt, gathered, due.common, due.next, false)
}
