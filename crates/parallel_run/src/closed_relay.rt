//! What is left of the relays and the board of a run once they are closed, for proofs alone.
use crate::board_item::RunBoardRecord;
use crate::row_relay::{RowRelay, RowSendSeat, RowTakeSeat};
use std::alloc::Global;
use std::snapshot::Snapshot;

/// The seats of a part's relay as it was closed, for proofs alone: what was sent over it, and what was
/// received. It has no bytes.
#[derive(Drop)]
pub struct ClosedRelay {
    pub(crate) sent: Snapshot<RowSendSeat>,
    pub(crate) taken: Snapshot<RowTakeSeat>,
}

/// The account of a run by threads, for proofs alone: its relays and their seats as they were closed, and what was
/// dealt and taken at the seats of its board. It has no bytes to speak of.
#[derive(Drop)]
pub struct RunAccount {
    pub(crate) relays: Snapshot<Vec<RowRelay>>,
    pub(crate) closed: Vec<ClosedRelay>,
    pub(crate) board: RunBoardRecord,
}

impl RunAccount {
    /// That of no run.
    pub fn none(alloc: Global) -> Self {
        let relays = Vec::new(alloc);
        RunAccount {
            relays: Snapshot::of(&relays),
            closed: Vec::new(alloc),
            board: RunBoardRecord::none(alloc),
        }
    }
}
