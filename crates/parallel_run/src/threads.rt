//! The threads of a run, from their start to their end.
ghost use Rattle.std.specs.Prelude.{◌≡◌, ℕ, ◌+◌, ◌<◌, ◌≤◌, ◌^◌, [], map, Some, IfOk, IfErr, length};
ghost use Rattle.std.specs.List.{range_with_len, sum};
ghost use Rattle.std.specs.Thread.{IsSync, IsSend};
ghost use Rattle.lookahead_windows.specs.Gates.{KnowsAll};
ghost use Rattle.run_output.specs.Traced.{IsEarly, KeepsTrace};
ghost use Rattle.lookahead_windows.specs.Basis.{basis_of, GoBy};
ghost use Rattle.lookahead_windows.specs.Bounds.{AwaitsRounds};
ghost use Rattle.parallel_run.specs.Shares.{share_of};
ghost use Rattle.parallel_run.specs.Starting.{MayStart};
ghost use Rattle.board.specs.Posts.{record_at};
ghost use Rattle.parallel_run.specs.Messages.{MayEndBy};
ghost use Rattle.parallel_run.specs.Returned.{TakesBack};

use crate::batch_receiver::BatchReceiver;
use crate::batches::drained;
use crate::board_item::{BoardItem, RunPost};
use crate::closing::take_back;
use crate::crew::Crew;
use crate::of_run::OfRun;
use crate::relay_ends::ReturnedEnds;
use crate::worker::{Place, work};
use crate::writer::{Writer, write_all};
use base::{Fault, Memory};
use board::Site;
use lookahead_windows::{Gate, Rounds};
use member::Event;
use reports::Tallies;
use run_output::RowSink;
use std::alloc::Global;
use std::marker::Sync;
use std::sync::Wait;
use std::thread;
use std::thread::{JoinHandle, Scope, Threads};
use worker_queue::EventQueue;

/// How many workers there are for how many processes.
#[derive(Clone, Copy)]
pub(crate) struct Hands {
    pub(crate) workers: usize,
    pub(crate) all: usize,
}

/// Starts a thread for each worker, at one of the posts each, takes on the calling thread the rows that
/// they send, and returns once all have ended: what came, the calling thread's own post, the others, or
/// `Memory` where there was none for these, and the ends of the relays that came back.
///
/// Faults: as of `write_all`, and before anything is written `ThreadLost` where a thread could not be
/// started, `Memory` where its handle could not be kept.
pub(crate) fn run_threads<
    'r,
    'p,
    'b,
    'a,
    T: RowSink<P>,
    P,
    Q: EventQueue<Event> + Drop + Send,
    G: Gate,
    J: Site + Send,
    K: OfRun + Send + Sync,
    R: Threads + Wait + Sync,
>(
    rt: &R,
    alloc: Global,
    mut own: RunPost<'p, 'b, K, Q, J>,
    mut posts: Vec<RunPost<'p, 'b, K, Q, J>>,
    hands: Hands,
    crew: &Crew,
    rounds: &Rounds<'a>,
    gate: &G,
    writer: Writer<'r, 'b, K>,
    place: &mut P,
) -> (
    Result<Tallies, Fault>,
    RunPost<'p, 'b, K, Q, J>,
    Result<Vec<RunPost<'p, 'b, K, Q, J>>, Memory>,
    ReturnedEnds<'b, 'b, K>,
)
    requires start { MayStart K.basis G.knows G.awaits rounds.now hands.workers writer.scenario.now (length writer.takers.items) writer.tallies }
    requires countable { T.failed place.old < 2 ^ 63 }
    requires none_gathered { T.gathered place.old writer.scenario.now [] }
    ensures trace { KeepsTrace rounds.now.cluster.scenario.now (T.held place.old) (T.held place.new) (T.failed place.old) (T.failed place.new) result.0 }
    ensures gathered { IfOk result.0 (T.gathered place.new rounds.now.cluster.scenario.now) }
    ensures back { TakesBack (record_at own.entry) (record_at result.1) result.3.senders }
{
    let (ended, own, posts, ends, _place) = thread::scope(
        thread::scope_env(),
        rt,
        move |scope| -> (
            Result<Tallies, Fault>,
            RunPost<K, Q, J>,
            Result<Vec<RunPost<K, Q, J>>, Memory>,
            ReturnedEnds<K>,
            &mut P,
        )
            requires { IsSync R.row × IsSync G.row × IsSend Q.row
                × MayStart K.basis G.knows G.awaits rounds.now hands.workers writer.scenario.now (length writer.takers.items) writer.tallies
                × (T.failed place.now < 2 ^ 63) × T.gathered place.now writer.scenario.now [] }
            ensures same { result.4.ghost_name ≡ place.entry.ghost_name }
            ensures trace { KeepsTrace writer.entry.scenario.now (T.held place.entry.now) (T.held result.4.now) (T.failed place.entry.now) (T.failed result.4.now) result.0 }
            ensures gathered { IfOk result.0 (T.gathered result.4.now writer.entry.scenario.now) }
            ensures back { TakesBack (record_at own.entry) (record_at result.1) result.3.senders }
        {
            let Writer {
                scenario,
                mut takers,
                tallies,
            } = writer;
            let threads = match start_workers(
                scope, rt, alloc, &mut posts, hands, crew, rounds, gate,
            ) {
                Ok(threads) => threads,
                Err(fault) => {
                    crew.fail();
                    call_off(rt, &mut own, &mut takers, fault, rounds);
                    let senders = Ok(None);
                    return (
                        Err(fault),
                        own,
                        Ok(posts),
                        ReturnedEnds { takers, senders },
                        place,
                    );
                }
            };
            let written = write_all::<T, P, K, R>(rt, alloc, scenario, &mut takers, tallies, place);
            let posts = joined_threads(rt, threads, posts);
            let senders = take_back(rt, alloc, &mut own);
            (written, own, posts, ReturnedEnds { takers, senders }, place)
        },
    );
    (ended, own, posts, ends)
}

/// Ends a run by the fault where not all of its threads could be started: takes what lies on the
/// board, and what comes from the threads that were, so that none of them waits for room in a relay.
fn call_off<'p, 'b, 'c, K: OfRun, Q: EventQueue<Event> + Drop, J: Site>(
    rt: &impl Wait,
    own: &mut RunPost<'p, 'b, K, Q, J>,
    takers: &mut Vec<BatchReceiver<'c, K>>,
    fault: Fault,
    rounds: &Rounds,
)
    requires run { K.basis ≡ Some (basis_of rounds.now) }
    requires fault { MayEndBy (basis_of rounds.now) fault }
{
    clear_own(rt, own, takers, fault, rounds);
    let _ = drained(rt, takers, fault);
}

/// Takes what lies on the board. The others learn that it has ended by the fault, and nothing more
/// comes from it. Its relay may be full, so nothing is sent over that.
fn clear_own<'p, 'b, 'c, K: OfRun, Q: EventQueue<Event> + Drop, J: Site>(
    rt: &impl Wait,
    own: &mut RunPost<'p, 'b, K, Q, J>,
    takers: &mut Vec<BatchReceiver<'c, K>>,
    fault: Fault,
    rounds: &Rounds,
)
    requires run { K.basis ≡ Some (basis_of rounds.now) }
    requires fault { MayEndBy (basis_of rounds.now) fault }
{
    let _ = rounds;
    for _ in rt.forever() {
        match own.take(rt) {
            Some(BoardItem::Process(process)) => {
                let mut process = process;
                process.state.lines.tell_others(fault);
                give_up(takers, process.state.lines.number);
            }
            Some(BoardItem::Ended(_lines)) => {}
            None => return,
        }
    }
    unreachable!()
}

/// Nothing more comes from the part of that number.
fn give_up<'b, K: OfRun>(takers: &mut Vec<BatchReceiver<'b, K>>, number: usize) {
    if let Some(taker) = takers.get_mut(number) {
        taker.give_up();
    }
}

/// Starts a thread for each of so many workers, each at one of the posts.
fn start_workers<
    's,
    'p: 's,
    'b: 's,
    'a: 's,
    E,
    Q: EventQueue<Event> + Drop + Send + 's,
    G: Gate + 's,
    J: Site + Send + 's,
    K: OfRun + Send + Sync + 's,
    R: Wait + Sync + 's,
>(
    scope: &Scope<'s, E>,
    rt: &'s R,
    alloc: Global,
    posts: &mut Vec<RunPost<'p, 'b, K, Q, J>>,
    hands: Hands,
    crew: &'s Crew,
    rounds: &'s Rounds<'a>,
    gate: &'s G,
) -> Result<Vec<JoinHandle<RunPost<'p, 'b, K, Q, J>>>, Fault>
    requires rounds { GoBy rounds.now }
    requires run { K.basis ≡ Some (basis_of rounds.now) }
    requires known { KnowsAll G.knows hands.workers }
    requires windows { AwaitsRounds G.awaits (basis_of rounds.now) }
    ensures { IfErr result IsEarly }
{
    let Ok(mut threads) = Vec::with_capacity(alloc, hands.workers) else {
        return Err(Fault::Memory);
    };
    for number in 0..hands.workers {
        let Some(post) = posts.pop() else {
            return Err(Fault::ThreadLost);
        };
        let share = share_of(hands, number);
        let all = hands.all;
        let thread = scope.spawn(
            move || -> RunPost<K, Q, J>
                requires { GoBy rounds.now × (K.basis ≡ Some (basis_of rounds.now)) × G.knows number
                    × AwaitsRounds G.awaits (basis_of rounds.now) }
            {
                let place = Place { number, share, all };
                work(rt, alloc, post, place, crew, rounds, gate)
            },
        );
        let Ok(thread) = thread else {
            return Err(Fault::ThreadLost);
        };
        match threads.push(thread) {
            Ok(()) => {}
            Err(_) => return Err(Fault::ThreadLost),
        }
    }
    Ok(threads)
}

/// How many processes that worker holds while all work.
fn share_of(hands: Hands, number: usize) -> usize
    requires { number < hands.workers }
    ensures { result ≡ share_of hands.all hands.workers number }
{
    let even = hands.all / hands.workers;
    if number < hands.all % hands.workers {
        even + 1
    } else {
        even
    }
}

/// The shares of all workers together are all processes, and none is larger than another by more than one.
fn shares_are_even()
    ensures all { (all workers : ℕ) → 1 ≤ workers → sum (map (share_of all workers) (range_with_len 0 workers)) ≡ all }
    ensures near { (all workers one other : ℕ) → share_of all workers one ≤ share_of all workers other + 1 }
{}

/// These posts, and those of the threads once they have ended.
fn joined_threads<'p, 'b, K: OfRun, Q: EventQueue<Event> + Drop, J: Site>(
    rt: &impl Threads,
    mut threads: Vec<JoinHandle<RunPost<'p, 'b, K, Q, J>>>,
    mut posts: Vec<RunPost<'p, 'b, K, Q, J>>,
) -> Result<Vec<RunPost<'p, 'b, K, Q, J>>, Memory> {
    while let Some(thread) = threads.pop() {
        posts.push(thread.join(rt))?;
    }
    Ok(posts)
}
