//! The end of a run by threads: its board is closed.
ghost use Rattle.std.specs.Prelude.{◌≡◌, IfOk, IfErr, OnOk, OnErr};
ghost use Rattle.std.specs.List.{flat_map};
ghost use Rattle.board.specs.Deal.{SameBag};
ghost use Rattle.board.specs.Seats.{AreAllSeats, dealt, taken};
ghost use Rattle.board.specs.Sites.{AreSingleSeats};
ghost use Rattle.board.specs.Posts.{record_at};
ghost use Rattle.parallel_run.specs.Closing.{IsUnsettled, TakesAll, StillKeeps};
ghost use Rattle.parallel_run.specs.Returned.{TakesBack};
ghost use Rattle.parallel_run.specs.Settled.{IsRecordOf, IsSettledFrom};

use crate::batch_sender::BatchSender;
use crate::board_item::{BoardItem, RunBoard, RunBoardRecord, RunPost, RunSeat};
use crate::connections::Connections;
use crate::of_run::OfRun;
use base::limits::MOST_WORKERS;
use base::{Fault, Memory};
use board::{BoardRecord, Site, settle};
use member::Event;
use reports::Tallies;
use std::alloc::Global;
use std::snapshot::Snapshot;
use std::sync::Wait;
use worker_queue::EventQueue;

/// How many seats the board of a run has: as many as a board may have, one more than there may be workers.
pub(crate) const SEATS: usize = MOST_WORKERS + 1;

/// Takes from the board of a run what its workers have dealt back: the ends by which parts have sent
/// their rows. `None` where a process still lay there.
pub(crate) fn take_back<'p, 'b, K: OfRun, Q: EventQueue<Event> + Drop, J: Site>(
    rt: &impl Wait,
    alloc: Global,
    post: &mut RunPost<'p, 'b, K, Q, J>,
) -> Result<Option<Vec<BatchSender<'b, K>>>, Memory>
    ensures { TakesBack (record_at post.old) (record_at post.new) result }
{
    let mut senders = Vec::new(alloc);
    for _ in rt.forever() {
        match post.take(rt) {
            Some(BoardItem::Ended(lines)) => {
                let Connections { lots, .. } = lines;
                senders.push(lots)?;
            }
            Some(BoardItem::Process(_process)) => return Ok(None),
            None => return Ok(Some(senders)),
        }
    }
    unreachable!()
}

/// What is known of the seats where they did not come back.
pub(crate) fn no_seats<T: Drop>(alloc: Global) -> Snapshot<Vec<T>> {
    let none = Vec::new(alloc);
    Snapshot::of(&none)
}

/// Closes the board, where all came to its end and the seats are back: what came, the seats as they were then,
/// and what was dealt and taken there. Where that is no fault, every process that was dealt was taken, as often,
/// and no other.
pub(crate) fn closed<'b, K: OfRun, Q: EventQueue<Event> + Drop>(
    rt: &impl Wait,
    alloc: Global,
    board: RunBoard<'b, K, Q>,
    back: Result<(Vec<RunSeat<'b, K, Q>>, RunBoardRecord), Memory>,
    so_far: Result<Tallies, Fault>,
) -> (
    Result<Tallies, Fault>,
    Snapshot<Vec<RunSeat<'b, K, Q>>>,
    RunBoardRecord,
)
    requires single { IfOk back (λ b. AreSingleSeats board b.0.items) }
    requires kept { IfOk back (λ b. IsRecordOf b.0.items b.1) }
    ensures keeps { StillKeeps so_far result.0 }
    ensures same { OnOk result.0 (result.0 ≡ so_far) }
    ensures settled { OnOk result.0 (TakesAll board.entry result.1.value.items) }
    ensures balance { OnOk result.0 (IsSettledFrom back.entry result.2) }
{
    let Ok((seats, record)) = back else {
        return (
            Err(Fault::Memory),
            no_seats(alloc),
            BoardRecord::none(alloc),
        );
    };
    let ended = Snapshot::of(&seats);
    // three are answered, so no `?`
    let tallies = match so_far {
        Ok(tallies) => tallies,
        Err(fault) => return (Err(fault), ended, record),
    };
    match close_board(rt, board, seats) {
        Ok(()) => (Ok(tallies), ended, record),
        Err(_) => (Err(Fault::ThreadLost), ended, record),
    }
}

/// Closes the board of a run, given the seats that came back. `ThreadLost` where one is missing or a process still lies
/// on the board: else every one that was dealt was taken, as often, and no other.
fn close_board<'b, K: OfRun, Q: EventQueue<Event> + Drop>(
    rt: &impl Wait,
    board: RunBoard<'b, K, Q>,
    seats: Vec<RunSeat<'b, K, Q>>,
) -> Result<(), Fault>
    requires { AreSingleSeats board seats.items }
    ensures all { OnOk result (AreAllSeats board.entry seats.entry.items) }
    ensures taken { OnOk result (SameBag (flat_map dealt seats.entry.items) (flat_map taken seats.entry.items)) }
    ensures relay { IfErr result (λ fault. fault ≡ Fault.ThreadLost) }
    ensures cause { OnErr result (IsUnsettled seats.entry.items) }
{
    if seats.len() != SEATS {
        return Err(Fault::ThreadLost);
    }
    if settle(rt, board, seats) != 0 {
        return Err(Fault::ThreadLost);
    }
    Ok(())
}
