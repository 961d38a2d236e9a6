//! A run by threads: the parts of the cluster go over a board to the workers, and back.
ghost use Rattle.std.specs.Prelude.{◌≡◌, ◌↔◌, ℕ, ◌<◌, ◌^◌, ◌⊎◌, ◌++◌, [], length, map, Some, IfOk, IfErr, OnOk, OnErr, IsErrOf, All};
ghost use Rattle.std.specs.List.{AllByRecursion};
ghost use Rattle.board.specs.Deal.{whole};
ghost use Rattle.board.specs.Posts.{dealt_at, taken_at};
ghost use Rattle.board.specs.Records.{own_dealt, own_taken};
ghost use Rattle.board.specs.Seats.{AreAllSeats, HasEmptyBags};
ghost use Rattle.board.specs.Sites.{table_of, AreSingleSeats};
ghost use Rattle.scenario.specs.Setup.{IsSound, member_count};
ghost use Rattle.trace.specs.Text.{NamesMembers};
ghost use Rattle.member.specs.Opening.{opening};
ghost use Rattle.member_laws.specs.Runs.{IsRunOf, CounterOverflows};
ghost use Rattle.lookahead_windows.specs.Starts.{IsUpTo};
ghost use Rattle.turns.specs.Parts.{StandFor, NonePendsBefore};
ghost use Rattle.lookahead_windows.specs.Gates.{KnowsAll};
ghost use Rattle.run_output.specs.Promise.{KeepsPromise, ReportOverflows, summed};
ghost use Rattle.run_output.specs.Traced.{IsEarly, KeepsTrace};
ghost use Rattle.lookahead_windows.specs.Basis.{basis_of, GoBy};
ghost use Rattle.lookahead_windows.specs.Bounds.{AwaitsRounds, AwaitsRun};
ghost use Rattle.parallel_run.specs.Closing.{TakesAll};
ghost use Rattle.parallel_run.specs.Dealt.{AreDealt, DealtAll, all_begun};
ghost use Rattle.parallel_run.specs.Relays.{AreNewSeats, AreRelayed, AreClosed};
ghost use Rattle.parallel_run.specs.Processes.{IsReady, begun_entry};
ghost use Rattle.parallel_run.specs.Settled.{IsRecordOf, IsSettled};
ghost use Rattle.parallel_run.specs.Starting.{MayStart};

use crate::board_item::{BoardItem, RunBoard, RunBoardRecord, RunPost, RunSeat};
use crate::closed_relay::{ClosedRelay, RunAccount};
use crate::closing::{SEATS, closed, no_seats};
use crate::crew::Crew;
use crate::hold::deal;
use crate::of_run::OfRun;
use crate::opening::{event_counts_of, processes_of};
use crate::process::Process;
use crate::relay_ends::{ends_of, relays_closed};
use crate::row_relay::{RelaySeats, RowRelay, RunBasis, relays_of};
use crate::threads::{Hands, run_threads};
use crate::writer::Writer;
use base::{Fault, Memory, Moment};
use board::{Board, Site, posts_at, seats_of};
use links::Links;
use lookahead::horizons;
use lookahead_windows::{Gate, Rounds, first_moment_of, lesser_moment, rounds_of, ways_into};
use member::Event;
use reports::Tallies;
use run_output::{RowObserver, RowSink, TraceAndGathered, Written, end_run};
use scenario::{Division, Scenario, Workers};
use std::alloc::Global;
use std::marker::{Brand, Sync};
use std::snapshot::Snapshot;
use std::sync::Wait;
use std::thread::Threads;
use trace::Sink;
use turns::open_wheels;
use windows::{Cluster, Part};
use worker_queue::{EventQueue, WheelQueue};

/// Runs the scenario by the parts of a division of its members, round after round, by as many workers
/// as are asked for, but no more than there are parts. It writes what `run_one` writes, whatever the
/// division and the number of workers are: the trace, and once that is whole and its sink flushed the
/// report, whose sink is flushed too. After a fault the sinks have got a beginning of that. An observer
/// gathers of the rows what it does, as they come. Each worker calls the gate for each of its parts
/// before it runs it in a round, with the bound of its window: its own, no later than the moment before which
/// nothing can come to the part, and no earlier than one that would serve all parts. The sinks and the
/// observer stay on the calling thread. It waits for its threads. `account` gets the relays of the run,
/// as they were closed, and what was dealt and taken on its board. Returns the tallies of the rows.
///
/// Faults: `Memory`; `CounterOverflow` where a counter of the run or of the report would pass 2^63; `Write`
/// where a sink failed; `ThreadLost` where a thread could not be started, or did not hand on what it was
/// given. Of several the first in this order.
pub fn run_by_rings<A: Sink, B: Sink, C: RowObserver, G: Gate, R: Threads + Wait + Sync>(
    rt: &R,
    alloc: Global,
    scenario: &Scenario,
    division: &Division,
    workers: Workers,
    gate: &G,
    place: &mut TraceAndGathered<A, C>,
    report: &mut B,
    account: &mut RunAccount,
) -> Result<Tallies, Fault>
    requires divides { length division.now.part_of ≡ member_count scenario.now }
    requires countable { A.failed place.old.trace < 2 ^ 63 }
    requires countable_report { B.failed report.old < 2 ^ 63 }
    requires none_gathered { C.has place.old.gathered scenario.now [] }

    // The gate allows for each worker, and for each part in each round below its own bound there.
    requires known { KnowsAll G.knows workers }
    requires windows { AwaitsRun G.awaits scenario.now division.now }

    // The sinks get exactly the trace of the scenario's run, and the report on it; after a fault a beginning of that.
    ensures promise { KeepsPromise A.held A.failed B.held B.failed scenario.now place.old.trace place.new.trace report.old report.new (summed result) }

    // The rows of the run are tallied, and what was gathered is what they report.
    ensures run { IfOk result (IsRunOf scenario.now) }
    ensures named { IfOk result (All (NamesMembers scenario.now)) }
    ensures gathered { IfOk result (C.has place.new.gathered scenario.now) }

    // Each part of a run that succeeds has a relay, made for the run: what was sent over it was received, the part's last rows too.
    ensures relayed { OnOk result (AreClosed scenario.now division.now account.new) }

    // On the board of a run that succeeds the calling thread dealt each part, and took back each as it had come to the end. What was
    // dealt at all seats is what was taken, as often, so a worker took each part, and a worker dealt it back.
    ensures settled { OnOk result (IsSettled division.now account.new) }

    // No count of its report passes 2^63, and no fault comes without its cause.
    ensures lasts_report { OnOk result (¬ (ReportOverflows scenario.now)) }
    ensures overflow { IsErrOf result Fault.CounterOverflow → CounterOverflows scenario.now ⊎ ReportOverflows scenario.now }
    ensures others { IsErrOf result Fault.ThreadLost → A.failed place.new.trace ≡ A.failed place.old.trace }
{
    let outcome = run_into::<Written, TraceAndGathered<A, C>, G, R>(
        rt, alloc, scenario, division, workers, gate, place, account,
    );
    end_run(alloc, outcome, scenario, &mut place.trace, report)
}

/// Runs the scenario by threads and takes its rows; nothing is flushed yet.
fn run_into<T: RowSink<P>, P, G: Gate, R: Threads + Wait + Sync>(
    rt: &R,
    alloc: Global,
    scenario: &Scenario,
    division: &Division,
    workers: Workers,
    gate: &G,
    place: &mut P,
    account: &mut RunAccount,
) -> Result<Tallies, Fault>
    requires divides { length division.now.part_of ≡ member_count scenario.now }
    requires countable { T.failed place.old < 2 ^ 63 }
    requires none_gathered { T.gathered place.old scenario.now [] }
    requires known { KnowsAll G.knows workers }
    requires windows { AwaitsRun G.awaits scenario.now division.now }
    ensures trace { KeepsTrace scenario.now (T.held place.old) (T.held place.new) (T.failed place.old) (T.failed place.new) result }
    ensures gathered { IfOk result (T.gathered place.new scenario.now) }
    ensures relayed { OnOk result (AreClosed scenario.now division.now account.new) }
    ensures settled { OnOk result (IsSettled division.now account.new) }
    ensures sound { IsSound scenario.now }
{
    let _end = scenario.end();
    let links = &Links::of(alloc, scenario)?;
    let cluster = Cluster { scenario, links };
    let parts = open_wheels(alloc, scenario, division)?;
    let walks = horizons(alloc, cluster, division)?;
    let ways = ways_into(alloc, scenario, &walks)?;
    let rounds = &rounds_of(cluster, division, &ways);
    let hands = workers.count().min(division.parts());
    let run = RunBasis::of(scenario, division, &ways);
    let (relays, relay_seats) = relays_of(alloc, &run, parts.len())?;
    account.relays = Snapshot::of(&relays);
    by_workers::<T, P, WheelQueue<Event>, G, Brand, R>(
        rt,
        alloc,
        parts,
        rounds,
        &relays,
        relay_seats,
        hands,
        gate,
        place,
        &mut account.closed,
        &mut account.board,
    )
}

/// Runs these parts by so many workers, and takes the rows, which go over these relays. `ended` gets their seats at the
/// end, and `deals` what was dealt and taken on the board.
fn by_workers<
    'a,
    T: RowSink<P>,
    P,
    Q: EventQueue<Event> + Drop + Send,
    G: Gate,
    K: OfRun + Send + Sync,
    R: Threads + Wait + Sync,
>(
    rt: &R,
    alloc: Global,
    parts: Vec<Part<Q>>,
    rounds: &Rounds<'a>,
    relays: &[RowRelay],
    relay_seats: Vec<RelaySeats>,
    workers: usize,
    gate: &G,
    place: &mut P,
    ended: &mut Vec<ClosedRelay>,
    deals: &mut RunBoardRecord,
) -> Result<Tallies, Fault>
    requires rounds { GoBy rounds.now }
    requires run { K.basis ≡ Some (basis_of rounds.now) }
    requires relays { K.relays ≡ relays.now }
    requires relay_seats { AllByRecursion (AreNewSeats relays.now (basis_of rounds.now)) relay_seats.items }
    requires seats_each { length relay_seats.items ≡ length parts.items }
    requires parts_each { length relays.now ≡ length parts.items }
    requires opened { StandFor Q.set rounds.now.division.now parts.items (opening rounds.now.cluster.scenario.now) }
    requires known { KnowsAll G.knows workers }
    requires windows { AwaitsRounds G.awaits (basis_of rounds.now) }
    requires countable { T.failed place.old < 2 ^ 63 }
    requires none_gathered { T.gathered place.old rounds.now.cluster.scenario.now [] }
    ensures trace { KeepsTrace rounds.now.cluster.scenario.now (T.held place.old) (T.held place.new) (T.failed place.old) (T.failed place.new) result }
    ensures gathered { IfOk result (T.gathered place.new rounds.now.cluster.scenario.now) }
    ensures relayed { OnOk result (AreRelayed relays.now ended.new.items) }
    ensures settled { OnOk result (AreDealt (length parts.items) deals.new) }
{
    let event_counts = event_counts_of(alloc, parts.len())?;
    let ends = ends_of::<K>(alloc, relays, relay_seats)?;
    let first = first_pending(&parts);
    let (processes, takers) = processes_of::<K, Q>(alloc, parts, first, &event_counts, ends)?;
    let writer = Writer {
        scenario: rounds.cluster.scenario,
        takers,
        tallies: Tallies::new(alloc, rounds.cluster.scenario),
    };
    let crew = &Crew::new(alloc, workers)?;
    let (board, seats): (RunBoard<K, Q>, Vec<RunSeat<K, Q>>) = Board::new(
        alloc,
        rounds.division.parts(),
        SEATS,
    )?;
    let (outcome, _settled, dealt, relayed) = over_board::<T, P, Q, G, K, R>(
        rt, alloc, board, seats, relays, processes, workers, crew, rounds, gate, writer, place,
    );
    *ended = relayed;
    *deals = dealt;
    outcome
}

/// Runs these processes over this board, and closes it and the relays over which their rows go: what
/// came, the board's seats as they were at the end, what was dealt and taken there, and the seats of the
/// relays. Where all went well every process that was dealt was taken, as often, and no other; and what
/// was sent over each relay was received, the last batch of its part too.
fn over_board<
    'r,
    'b,
    'a,
    T: RowSink<P>,
    P,
    Q: EventQueue<Event> + Drop + Send,
    G: Gate,
    K: OfRun + Send + Sync,
    R: Threads + Wait + Sync,
>(
    rt: &R,
    alloc: Global,
    board: RunBoard<'b, K, Q>,
    seats: Vec<RunSeat<'b, K, Q>>,
    relays: &[RowRelay],
    processes: Vec<Process<'b, K, Q>>,
    workers: usize,
    crew: &Crew,
    rounds: &Rounds<'a>,
    gate: &G,
    writer: Writer<'r, 'b, K>,
    place: &mut P,
) -> (
    Result<Tallies, Fault>,
    Snapshot<Vec<RunSeat<'b, K, Q>>>,
    RunBoardRecord,
    Vec<ClosedRelay>,
)
    requires relays { K.relays ≡ relays.now }
    requires all { AreAllSeats board seats.items × All HasEmptyBags seats.items }
    requires count { length seats.items ≡ whole }
    requires numbers { map begun_entry processes.items ≡ all_begun (length relays.now) }
    requires ready { AllByRecursion (IsReady Q.set (basis_of rounds.now)) processes.items }
    requires start { MayStart K.basis G.knows G.awaits rounds.now workers writer.scenario.now (length writer.takers.items) writer.tallies }
    requires countable { T.failed place.old < 2 ^ 63 }
    requires none_gathered { T.gathered place.old writer.scenario.now [] }
    ensures trace { KeepsTrace rounds.now.cluster.scenario.now (T.held place.old) (T.held place.new) (T.failed place.old) (T.failed place.new) result.0 }
    ensures gathered { IfOk result.0 (T.gathered place.new rounds.now.cluster.scenario.now) }
    ensures settled { OnOk result.0 (TakesAll board.entry result.1.value.items) }
    ensures dealt { OnOk result.0 (AreDealt (length relays.now) result.2) }
    ensures relayed { OnOk result.0 (AreRelayed relays.now result.3.items) }
{
    // four are answered, so no `?`
    let (so_far, back, relayed) = match at_board::<T, P, Q, G, Brand, K, R>(
        rt, alloc, &board, seats, relays, processes, workers, crew, rounds, gate, writer, place,
    ) {
        Ok(ended) => ended,
        Err(fault) => {
            return (
                Err(fault),
                no_seats(alloc),
                RunBoardRecord::none(alloc),
                Vec::new(alloc),
            );
        }
    };
    let (outcome, settled, record) = closed(rt, alloc, board, back, so_far);
    (outcome, settled, record, relayed)
}

/// The same over this board, with a post at each of its seats: what came of the rows, the seats and what
/// was dealt and taken there, or `Memory` where there was none for these, and the seats of the relays,
/// which it closes. A fault where nothing was begun.
fn at_board<
    'r,
    'b,
    'a,
    T: RowSink<P>,
    P,
    Q: EventQueue<Event> + Drop + Send,
    G: Gate,
    J: Site + Send,
    K: OfRun + Send + Sync,
    R: Threads + Wait + Sync,
>(
    rt: &R,
    alloc: Global,
    board: &RunBoard<'b, K, Q>,
    seats: Vec<RunSeat<'b, K, Q>>,
    relays: &[RowRelay],
    processes: Vec<Process<'b, K, Q>>,
    workers: usize,
    crew: &Crew,
    rounds: &Rounds<'a>,
    gate: &G,
    writer: Writer<'r, 'b, K>,
    place: &mut P,
) -> Result<
    (
        Result<Tallies, Fault>,
        Result<(Vec<RunSeat<'b, K, Q>>, RunBoardRecord), Memory>,
        Vec<ClosedRelay>,
    ),
    Fault,
>
    requires relays { K.relays ≡ relays.now }
    requires here { table_of board.now ≡ J.table }
    requires all { AreAllSeats board.now seats.items × All HasEmptyBags seats.items }
    requires count { length seats.items ≡ whole }
    requires numbers { map begun_entry processes.items ≡ all_begun (length relays.now) }
    requires ready { AllByRecursion (IsReady Q.set (basis_of rounds.now)) processes.items }
    requires start { MayStart K.basis G.knows G.awaits rounds.now workers writer.scenario.now (length writer.takers.items) writer.tallies }
    requires countable { T.failed place.old < 2 ^ 63 }
    requires none_gathered { T.gathered place.old writer.scenario.now [] }
    ensures seats { IfOk result (λ r. IfOk r.1 (λ back. AreSingleSeats board.now back.0.items)) }
    ensures record { IfOk result (λ r. IfOk r.1 (λ back. IsRecordOf back.0.items back.1)) }
    ensures own { IfOk result (λ r. OnOk r.0 (IfOk r.1 (λ back. DealtAll (length relays.now) back.1))) }
    ensures trace { IfOk result (λ r. KeepsTrace rounds.now.cluster.scenario.now (T.held place.old) (T.held place.new) (T.failed place.old) (T.failed place.new) r.0) }
    ensures gathered { IfOk result (λ r. IfOk r.0 (T.gathered place.new rounds.now.cluster.scenario.now)) }
    ensures relayed { IfOk result (λ r. OnOk r.0 (AreRelayed relays.now r.2.items)) }
    ensures unwritten { OnErr result (place.new ≡ place.old) }
    ensures fault { IfErr result IsEarly }
{
    let mut posts: Vec<RunPost<K, Q, J>> = posts_at(alloc, board, seats)?;
    let Some(mut own) = posts.pop() else {
        return Err(Fault::ThreadLost);
    };
    let all = processes.len();
    deal_all(rt, &mut own, processes, rounds)?;
    let hands = Hands { workers, all };
    let (ended, own, others, ends) = run_threads::<T, P, Q, G, J, K, R>(
        rt, alloc, own, posts, hands, crew, rounds, gate, writer, place,
    );
    let (ended, relayed) = relays_closed(alloc, relays, ends, ended);
    Ok((ended, seats_back(alloc, board, own, others), relayed))
}

/// Deals the processes onto the board. `ThreadLost` where one comes back.
fn deal_all<'p, 'b, K: OfRun, Q: EventQueue<Event> + Drop, J: Site>(
    rt: &impl Wait,
    post: &mut RunPost<'p, 'b, K, Q, J>,
    processes: Vec<Process<'b, K, Q>>,
    rounds: &Rounds,
) -> Result<(), Fault>
    requires run { K.basis ≡ Some (basis_of rounds.now) }
    requires ready { AllByRecursion (IsReady Q.set (basis_of rounds.now)) processes.items }
    ensures dealt { OnOk result (dealt_at post.new ≡ dealt_at post.old ++ map begun_entry processes.entry.items) }
    ensures taken { OnOk result (taken_at post.new ≡ taken_at post.old) }
    ensures fault { IfErr result (λ fault. fault ≡ Fault.ThreadLost) }
{
    let _ = rounds;
    for process in processes {
        deal(rt, post, BoardItem::Process(process))?;
    }
    Ok(())
}

/// The seats of these posts and of one more, and what was dealt and taken there.
fn seats_back<'p, 'b, Q: EventQueue<Event> + Drop, J: Site, K: OfRun>(
    alloc: Global,
    board: &RunBoard<'b, K, Q>,
    one: RunPost<'p, 'b, K, Q, J>,
    others: Result<Vec<RunPost<'p, 'b, K, Q, J>>, Memory>,
) -> Result<(Vec<RunSeat<'b, K, Q>>, RunBoardRecord), Memory>
    requires { table_of board.now ≡ J.table }
    ensures seats { IfOk result (λ back. AreSingleSeats board.now back.0.items) }
    ensures record { IfOk result (λ back. IsRecordOf back.0.items back.1) }
    ensures own { IfOk result (λ back. (own_dealt back.1 ≡ dealt_at one.entry) × (own_taken back.1 ≡ taken_at one.entry)) }
{
    seats_of(alloc, board, one, others?)
}

/// The first moment that pends in any of these parts, also one past the end.
fn first_pending<Q: EventQueue<Event> + Drop>(parts: &[Part<Q>]) -> Option<Moment>
    ensures { (t : ℕ) → NonePendsBefore Q.set parts.now t ↔ IsUpTo result t }
{
    let mut first = None;
    for part in parts {
        first = lesser_moment(first, first_moment_of(part));
    }
    first
}
