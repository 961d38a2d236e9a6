//! The processes that a worker holds, and a round of them.
ghost use Rattle.std.specs.Prelude.{◌≡◌, ◌∷◌, [], ◌++◌, Some, IfOk, IfErr, IfSome, OnOk, OnErr};
ghost use Rattle.lookahead_windows.specs.Basis.{Basis, basis_of, GoBy};
ghost use Rattle.lookahead_windows.specs.Bounds.{AwaitsRounds};
ghost use Rattle.board.specs.Posts.{dealt_at, taken_at};
ghost use Rattle.parallel_run.specs.Processes.{Belongs, IsReady, IsWaiting, account_entry};
ghost use Rattle.parallel_run.specs.Holding.{Holds};
ghost use Rattle.parallel_run.specs.Messages.{MayEndBy};

use crate::board_item::{BoardItem, RunPost};
use crate::of_run::OfRun;
use crate::process::{Counts, Process, Waiting};
use crate::spin_policy::SpinPolicy;
use base::{Fault, Memory};
use board::Site;
use lookahead_windows::{Gate, Rounds, enter};
use member::Event;
use std::alloc::Global;
use std::sync::Wait;
use worker_queue::EventQueue;

/// The processes that a worker holds: between rounds all are ready.
#[derive(Drop)]
pub(crate) struct Hold<'b, K: OfRun, Q: EventQueue<Event>> {
    ready: Vec<Process<'b, K, Q>>,
    waiting: Vec<Waiting<'b, K, Q>>,
}

impl<'b, K: OfRun, Q: EventQueue<Event> + Drop> Hold<'b, K, Q> {
    /// Holds nothing, with room for so many.
    pub(crate) fn new(alloc: Global, room: usize) -> Result<Self, Memory>
        ensures none { IfOk result (λ hold. (basis : Basis) → Holds Q.set basis hold) }
    {
        let ready = Vec::with_capacity(alloc, room)?;
        let waiting = Vec::with_capacity(alloc, room)?;
        Ok(Hold { ready, waiting })
    }

    /// Whether it holds nothing between rounds.
    pub(crate) fn is_empty(&self) -> bool {
        self.ready.is_empty()
    }

    /// Takes what lies on the board, as long as it holds fewer than so many. False where nothing lies
    /// there.
    ///
    /// Faults: `ThreadLost` where it is no process.
    pub(crate) fn take<'p, J: Site>(
        &mut self,
        rt: &impl Wait,
        post: &mut RunPost<'p, 'b, K, Q, J>,
        many: usize,
        rounds: &Rounds,
    ) -> Result<bool, Fault>
        requires run { K.basis ≡ Some (basis_of rounds.now) }
        requires holds { Holds Q.set (basis_of rounds.now) self.old }
        ensures holds { Holds Q.set (basis_of rounds.now) self.new }
        ensures fault { IfErr result (MayEndBy (basis_of rounds.now)) }
    {
        let _ = rounds;
        while self.ready.len() < many {
            match post.take(rt) {
                Some(BoardItem::Process(process)) => keep(&mut self.ready, process)?,
                Some(BoardItem::Ended(_)) => return Err(Fault::ThreadLost),
                None => return Ok(false),
            }
        }
        Ok(true)
    }

    /// Deals onto the board what it holds beyond so many.
    ///
    /// Faults: `ThreadLost` where one comes back.
    pub(crate) fn deal_back<'p, J: Site>(
        &mut self,
        rt: &impl Wait,
        post: &mut RunPost<'p, 'b, K, Q, J>,
        kept: usize,
        rounds: &Rounds,
    ) -> Result<(), Fault>
        requires run { K.basis ≡ Some (basis_of rounds.now) }
        requires holds { Holds Q.set (basis_of rounds.now) self.old }
        ensures holds { Holds Q.set (basis_of rounds.now) self.new }
        ensures fault { IfErr result (MayEndBy (basis_of rounds.now)) }
    {
        let _ = rounds;
        while self.ready.len() > kept {
            if let Some(process) = self.ready.pop() {
                deal(rt, post, BoardItem::Process(process))?;
            }
        }
        Ok(())
    }

    /// Runs a round of all that it holds: those that come to the end leave. What all did in it.
    ///
    /// Faults: `Memory`; `CounterOverflow` where a counter would pass 2^63; those by which others ended; `ThreadLost`
    /// where something is lost. Who met one has sent it to the others.
    pub(crate) fn run_round<'p, J: Site, G: Gate>(
        &mut self,
        rt: &impl Wait,
        alloc: Global,
        worker: usize,
        patience: &mut SpinPolicy,
        post: &mut RunPost<'p, 'b, K, Q, J>,
        rounds: &Rounds,
        gate: &G,
    ) -> Result<Counts, Fault>
        requires rounds { GoBy rounds.now }
        requires run { K.basis ≡ Some (basis_of rounds.now) }
        requires holds { Holds Q.set (basis_of rounds.now) self.old }
        requires known { G.knows worker }
        requires awaited { AwaitsRounds G.awaits (basis_of rounds.now) }
        ensures holds { Holds Q.set (basis_of rounds.now) self.new }
        ensures fault { IfErr result (MayEndBy (basis_of rounds.now)) }
    {
        let slept = patience.taken_sleeps();
        self.run_windows(rt, alloc, worker, slept, post, rounds, gate)?;
        self.hear(rt, patience, rounds)
    }

    /// Lets each process run its window, and send the others what it gave. One of them also sends how often the
    /// worker has slept.
    fn run_windows<'p, J: Site, G: Gate>(
        &mut self,
        rt: &impl Wait,
        alloc: Global,
        worker: usize,
        slept: u64,
        post: &mut RunPost<'p, 'b, K, Q, J>,
        rounds: &Rounds,
        gate: &G,
    ) -> Result<(), Fault>
        requires rounds { GoBy rounds.now }
        requires run { K.basis ≡ Some (basis_of rounds.now) }
        requires holds { Holds Q.set (basis_of rounds.now) self.old }
        requires known { G.knows worker }
        requires awaited { AwaitsRounds G.awaits (basis_of rounds.now) }
        ensures holds { Holds Q.set (basis_of rounds.now) self.new }
        ensures fault { IfErr result (MayEndBy (basis_of rounds.now)) }
    {
        let mut sleeps = slept;
        while let Some(process) = self.ready.pop() {
            if let Some(waiting) = run_process(
                rt, alloc, process, worker, sleeps, post, rounds, gate,
            )? {
                keep(&mut self.waiting, waiting)?;
            }
            sleeps = 0;
        }
        Ok(())
    }

    /// Lets each process hear from the others.
    fn hear(
        &mut self,
        rt: &impl Wait,
        patience: &mut SpinPolicy,
        rounds: &Rounds,
    ) -> Result<Counts, Fault>
        requires rounds { GoBy rounds.now }
        requires run { K.basis ≡ Some (basis_of rounds.now) }
        requires holds { Holds Q.set (basis_of rounds.now) self.old }
        ensures holds { Holds Q.set (basis_of rounds.now) self.new }
        ensures fault { IfErr result (MayEndBy (basis_of rounds.now)) }
    {
        let mut counts = Counts { rows: 0, slept: 0 };
        while let Some(waiting) = self.waiting.pop() {
            let (process, all) = waiting.hear(rt, patience, rounds)?;
            counts = all;
            keep(&mut self.ready, process)?;
        }
        Ok(counts)
    }

    /// Reports to all others that what it holds has ended by the fault.
    pub(crate) fn tell_end(&mut self, rt: &impl Wait, fault: Fault)
        requires { (basis : Basis) → K.basis ≡ Some basis → MayEndBy basis fault }
    {
        for process in self.ready.iter_mut() {
            process.state.lines.tell_end(rt, fault);
        }
        for process in self.waiting.iter_mut() {
            process.tell_end(rt, fault);
        }
    }
}

/// Calls the gate with the process and how far its window goes, runs that window, and lets it send the
/// others its messages. Where nothing is left up to the end it sends its last rows instead, and its lines go to the
/// board: then nothing waits.
fn run_process<'p, 'b, K: OfRun, Q: EventQueue<Event> + Drop, J: Site, G: Gate>(
    rt: &impl Wait,
    alloc: Global,
    process: Process<'b, K, Q>,
    worker: usize,
    slept: u64,
    post: &mut RunPost<'p, 'b, K, Q, J>,
    rounds: &Rounds,
    gate: &G,
) -> Result<Option<Waiting<'b, K, Q>>, Fault>
    requires rounds { GoBy rounds.now }
    requires run { K.basis ≡ Some (basis_of rounds.now) }
    requires ready { IsReady Q.set (basis_of rounds.now) process }
    requires known { G.knows worker }
    requires awaited { AwaitsRounds G.awaits (basis_of rounds.now) }
    ensures waiting { IfOk result (λ o. IfSome o (IsWaiting Q.set (basis_of rounds.now))) }
    ensures fault { IfErr result (MayEndBy (basis_of rounds.now)) }
{
    let Some(from) = process.pending(rounds.end) else {
        let lines = process.end(rt, rounds)?;
        deal(rt, post, BoardItem::Ended(lines))?;
        return Ok(None);
    };
    let bound = process.bound(from, rounds);
    let number = process.state.lines.number;
    let entered = enter(gate, worker, process.round + 1, number, bound);
    let waiting = process.run(rt, alloc, from, entered, slept, rounds)?;
    Ok(Some(waiting))
}

/// Deals an item onto the board. `ThreadLost` where it comes back; a process then has ended.
pub(crate) fn deal<'p, 'b, K: OfRun, Q: EventQueue<Event> + Drop, J: Site>(
    rt: &impl Wait,
    post: &mut RunPost<'p, 'b, K, Q, J>,
    item: BoardItem<'b, K, Q>,
) -> Result<(), Fault>
    requires belongs { Belongs Q.set K.basis item }
    ensures dealt { OnOk result (dealt_at post.new ≡ dealt_at post.old ++ account_entry item.entry ∷ []) }
    ensures taken { OnOk result (taken_at post.new ≡ taken_at post.old) }
    ensures fault { IfErr result (λ fault. fault ≡ Fault.ThreadLost) }
{
    match post.deal(rt, item) {
        Ok(()) => Ok(()),
        Err(item) => {
            tell_lost(rt, item);
            Err(Fault::ThreadLost)
        }
    }
}

/// Reports to all that a process which could not be dealt has ended.
fn tell_lost<'b, K: OfRun, Q: EventQueue<Event> + Drop>(rt: &impl Wait, item: BoardItem<'b, K, Q>) {
    match item {
        BoardItem::Process(process) => {
            let mut process = process;
            process.state.lines.tell_end(rt, Fault::ThreadLost);
        }
        BoardItem::Ended(_lines) => {}
    }
}

/// Puts one more behind those that are held, for which there is room.
fn keep<T: Drop>(held: &mut Vec<T>, one: T) -> Result<(), Fault>
    ensures held { OnOk result (held.new.items ≡ held.old.items ++ one ∷ []) }
    ensures same { OnErr result (held.new.items ≡ held.old.items) }
    ensures fault { IfErr result (λ fault. fault ≡ Fault.Memory) }
{
    match held.push(one) {
        Ok(()) => Ok(()),
        Err(_) => Err(Fault::Memory),
    }
}
