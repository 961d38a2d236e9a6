//! A worker of a run: it takes its share of the processes from the board, and runs them round after round.
ghost use Rattle.std.specs.Prelude.{◌≡◌, Some, IfErr};
ghost use Rattle.lookahead_windows.specs.Basis.{Basis, basis_of, GoBy};
ghost use Rattle.lookahead_windows.specs.Bounds.{AwaitsRounds};
ghost use Rattle.parallel_run.specs.Holding.{Holds};
ghost use Rattle.parallel_run.specs.Messages.{MayEndBy};

use crate::board_item::{BoardItem, RunPost};
use crate::crew::Crew;
use crate::hold::Hold;
use crate::of_run::OfRun;
use crate::pace::{Pace, Solo};
use crate::spin_policy::SpinPolicy;
use base::Fault;
use board::Site;
use lookahead_windows::{Gate, Rounds};
use member::Event;
use std::alloc::Global;
use std::sync::Wait;
use worker_queue::EventQueue;

/// Which worker of a run it is.
#[derive(Clone, Copy)]
pub(crate) struct Place {
    /// Its number, from 0.
    pub(crate) number: usize,
    /// How many processes it holds while all work.
    pub(crate) share: usize,
    /// How many there are.
    pub(crate) all: usize,
}

/// Takes its share of the run's processes from the board, and runs them up to the end. Where waiting
/// for the others doesn't pay, worker 0 goes on alone with all of them for a while. Once the run has
/// ended, it gives its post back.
pub(crate) fn work<'p, 'b, K: OfRun, Q: EventQueue<Event> + Drop, J: Site, G: Gate>(
    rt: &impl Wait,
    alloc: Global,
    mut post: RunPost<'p, 'b, K, Q, J>,
    place: Place,
    crew: &Crew,
    rounds: &Rounds,
    gate: &G,
) -> RunPost<'p, 'b, K, Q, J>
    requires rounds { GoBy rounds.now }
    requires run { K.basis ≡ Some (basis_of rounds.now) }
    requires known { G.knows place.number }
    requires awaited { AwaitsRounds G.awaits (basis_of rounds.now) }
{
    match run_share(rt, alloc, &mut post, place, crew, rounds, gate) {
        Ok(()) => crew.end(),
        Err(fault) => {
            clear(rt, &mut post, fault, rounds);
            crew.fail();
        }
    }
    if crew.has_failed() {
        clear(rt, &mut post, Fault::ThreadLost, rounds);
    }
    post
}

/// Takes what lies on the board of a run that has failed, and reports to all that it has ended by the fault.
fn clear<'p, 'b, K: OfRun, Q: EventQueue<Event> + Drop, J: Site>(
    rt: &impl Wait,
    post: &mut RunPost<'p, 'b, K, Q, J>,
    fault: Fault,
    rounds: &Rounds,
)
    requires run { K.basis ≡ Some (basis_of rounds.now) }
    requires fault { MayEndBy (basis_of rounds.now) fault }
{
    let _ = rounds;
    for _ in rt.forever() {
        match post.take(rt) {
            Some(BoardItem::Process(process)) => {
                let mut process = process;
                process.state.lines.tell_end(rt, fault);
            }
            Some(BoardItem::Ended(_lines)) => {}
            None => return,
        }
    }
    unreachable!()
}

/// Runs the worker's share up to the end. After a fault, all that it holds has reported it to the others.
fn run_share<'p, 'b, K: OfRun, Q: EventQueue<Event> + Drop, J: Site, G: Gate>(
    rt: &impl Wait,
    alloc: Global,
    post: &mut RunPost<'p, 'b, K, Q, J>,
    place: Place,
    crew: &Crew,
    rounds: &Rounds,
    gate: &G,
) -> Result<(), Fault>
    requires rounds { GoBy rounds.now }
    requires run { K.basis ≡ Some (basis_of rounds.now) }
    requires known { G.knows place.number }
    requires awaited { AwaitsRounds G.awaits (basis_of rounds.now) }
    ensures fault { IfErr result (MayEndBy (basis_of rounds.now)) }
{
    let mut hold = Hold::new(alloc, place.all)?;
    match run_to_end(rt, alloc, &mut hold, post, place, crew, rounds, gate) {
        Ok(()) => Ok(()),
        Err(fault) => {
            hold.tell_end(rt, fault);
            Err(fault)
        }
    }
}

/// Runs the worker's share together with the others, and where that doesn't pay lets worker 0 go on
/// alone for a while, again and again up to the end.
fn run_to_end<'p, 'b, K: OfRun, Q: EventQueue<Event> + Drop, J: Site, G: Gate>(
    rt: &impl Wait,
    alloc: Global,
    hold: &mut Hold<'b, K, Q>,
    post: &mut RunPost<'p, 'b, K, Q, J>,
    place: Place,
    crew: &Crew,
    rounds: &Rounds,
    gate: &G,
) -> Result<(), Fault>
    requires rounds { GoBy rounds.now }
    requires run { K.basis ≡ Some (basis_of rounds.now) }
    requires holds { Holds Q.set (basis_of rounds.now) hold.old }
    requires known { G.knows place.number }
    requires awaited { AwaitsRounds G.awaits (basis_of rounds.now) }
    ensures fault { IfErr result (MayEndBy (basis_of rounds.now)) }
{
    let mut solo = Solo::new();
    let mut dealings = 0;
    for _ in rt.forever() {
        gather(rt, hold, post, place.number, place.share, crew, rounds)?;
        let pace = run_together(rt, alloc, hold, post, place.number, rounds, gate)?;
        if hold.is_empty() {
            return Ok(());
        }
        let goes_on = if place.number == 0 {
            let lasts = solo.next(pace);
            run_alone(rt, alloc, hold, post, place, lasts, crew, rounds, gate)?
        } else {
            step_back(rt, hold, post, place.number, &mut dealings, crew, rounds)?
        };
        if !goes_on {
            return Ok(());
        }
    }
    unreachable!()
}

/// Waits until the worker holds so many processes, which it takes from the board.
fn gather<'p, 'b, K: OfRun, Q: EventQueue<Event> + Drop, J: Site>(
    rt: &impl Wait,
    hold: &mut Hold<'b, K, Q>,
    post: &mut RunPost<'p, 'b, K, Q, J>,
    worker: usize,
    many: usize,
    crew: &Crew,
    rounds: &Rounds,
) -> Result<(), Fault>
    requires run { K.basis ≡ Some (basis_of rounds.now) }
    requires holds { Holds Q.set (basis_of rounds.now) hold.old }
    ensures holds { Holds Q.set (basis_of rounds.now) hold.new }
    ensures fault { IfErr result (MayEndBy (basis_of rounds.now)) }
{
    for _ in rt.forever() {
        let calls = crew.prepare_wait(worker);
        if hold.take(rt, post, many, rounds)? {
            crew.cancel_wait(worker);
            return Ok(());
        }
        if crew.is_over() {
            crew.cancel_wait(worker);
            return Err(Fault::ThreadLost);
        }
        crew.wait(rt, worker, calls);
    }
    unreachable!()
}

/// Runs round after round, up to the end or until that doesn't pay: what all did meanwhile.
fn run_together<'p, 'b, K: OfRun, Q: EventQueue<Event> + Drop, J: Site, G: Gate>(
    rt: &impl Wait,
    alloc: Global,
    hold: &mut Hold<'b, K, Q>,
    post: &mut RunPost<'p, 'b, K, Q, J>,
    worker: usize,
    rounds: &Rounds,
    gate: &G,
) -> Result<Pace, Fault>
    requires rounds { GoBy rounds.now }
    requires run { K.basis ≡ Some (basis_of rounds.now) }
    requires holds { Holds Q.set (basis_of rounds.now) hold.old }
    requires known { G.knows worker }
    requires awaited { AwaitsRounds G.awaits (basis_of rounds.now) }
    ensures holds { Holds Q.set (basis_of rounds.now) hold.new }
    ensures fault { IfErr result (MayEndBy (basis_of rounds.now)) }
{
    let mut patience = SpinPolicy::new();
    let mut pace = Pace::new();
    for _ in rt.forever() {
        let counts = hold.run_round(rt, alloc, worker, &mut patience, post, rounds, gate)?;
        pace.add(counts);
        if hold.is_empty() || pace.is_slow() {
            return Ok(pace);
        }
    }
    unreachable!()
}

/// Takes the processes of all others from the board, runs them so many rounds, and deals them back.
/// False where they have come to the end.
fn run_alone<'p, 'b, K: OfRun, Q: EventQueue<Event> + Drop, J: Site, G: Gate>(
    rt: &impl Wait,
    alloc: Global,
    hold: &mut Hold<'b, K, Q>,
    post: &mut RunPost<'p, 'b, K, Q, J>,
    place: Place,
    lasts: u64,
    crew: &Crew,
    rounds: &Rounds,
    gate: &G,
) -> Result<bool, Fault>
    requires rounds { GoBy rounds.now }
    requires run { K.basis ≡ Some (basis_of rounds.now) }
    requires holds { Holds Q.set (basis_of rounds.now) hold.old }
    requires known { G.knows place.number }
    requires awaited { AwaitsRounds G.awaits (basis_of rounds.now) }
    ensures holds { Holds Q.set (basis_of rounds.now) hold.new }
    ensures fault { IfErr result (MayEndBy (basis_of rounds.now)) }
{
    gather(rt, hold, post, place.number, place.all, crew, rounds)?;
    let mut patience = SpinPolicy::new();
    for _ in 0..lasts {
        hold.run_round(rt, alloc, place.number, &mut patience, post, rounds, gate)?;
        if hold.is_empty() {
            return Ok(false);
        }
    }
    hold.deal_back(rt, post, place.share, rounds)?;
    crew.deal();
    Ok(true)
}

/// Deals all that the worker holds onto the board for worker 0, and sleeps until that one deals it out
/// again. False where the run has ended meanwhile.
fn step_back<'p, 'b, K: OfRun, Q: EventQueue<Event> + Drop, J: Site>(
    rt: &impl Wait,
    hold: &mut Hold<'b, K, Q>,
    post: &mut RunPost<'p, 'b, K, Q, J>,
    worker: usize,
    dealings: &mut u64,
    crew: &Crew,
    rounds: &Rounds,
) -> Result<bool, Fault>
    requires run { K.basis ≡ Some (basis_of rounds.now) }
    requires holds { Holds Q.set (basis_of rounds.now) hold.old }
    ensures holds { Holds Q.set (basis_of rounds.now) hold.new }
    ensures fault { IfErr result (MayEndBy (basis_of rounds.now)) }
{
    hold.deal_back(rt, post, 0, rounds)?;
    crew.call(0);
    match crew.await_dealing(rt, worker, *dealings) {
        Some(now) => {
            *dealings = now;
            Ok(true)
        }
        None => Ok(false),
    }
}
