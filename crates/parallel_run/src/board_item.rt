//! What lies on the board of a run.
use crate::connections::Connections;
use crate::of_run::OfRun;
use crate::process::Process;
use board::{Board, BoardRecord, ItemRule, Post, Seat};
use member::Event;
use std::marker::PhantomData;
use worker_queue::EventQueue;

/// What a worker deals and takes.
#[derive(Drop)]
pub enum BoardItem<'b, K: OfRun, Q: EventQueue<Event>> {
    /// A process, as it begins a round.
    Process(Process<'b, K, Q>),
    /// The lines of one that has come to the end.
    Ended(Connections<'b, K>),
}

/// What an item stands for in the accounts of the board's seats.
#[derive(Drop)]
pub enum BoardEntry {
    /// The process of the part of that number.
    Process(usize),
    /// The end of that part's relay, once the part has come to the end.
    Ended(usize),
}

/// An item stands for its part, as it begins a round or once it has come to the end. A process belongs to the
/// board where it is the run's, as the round begins.
pub struct RunItems<K>(PhantomData<K>);

impl<'b, K: OfRun, Q: EventQueue<Event>> ItemRule<BoardItem<'b, K, Q>, BoardEntry> for RunItems<K> {
    ghost use Rattle.parallel_run.specs.Processes.{account_entry, Belongs};

    ghost stands_for = { account_entry };

    ghost belongs = { Belongs Q.set K.basis };

    fn entry_of(item: &BoardItem<'b, K, Q>) -> BoardEntry {
        match item {
            BoardItem::Process(process) => BoardEntry::Process(process.state.lines.number),
            BoardItem::Ended(lines) => BoardEntry::Ended(lines.lots.number),
        }
    }
}

/// The board over which the processes of a run go to its workers and back.
pub(crate) type RunBoard<'b, K, Q> = Board<BoardItem<'b, K, Q>, BoardEntry, RunItems<K>>;

/// A seat at such a board.
pub(crate) type RunSeat<'b, K, Q> = Seat<BoardItem<'b, K, Q>, BoardEntry>;

/// A post at such a board: a seat that goes to a thread and comes back.
pub(crate) type RunPost<'p, 'b, K, Q, J> = Post<
    'p,
    BoardItem<'b, K, Q>,
    BoardEntry,
    RunItems<K>,
    J,
>;

/// What was dealt and taken at the seats of such a board, once they have come together.
pub(crate) type RunBoardRecord = BoardRecord<BoardEntry>;
