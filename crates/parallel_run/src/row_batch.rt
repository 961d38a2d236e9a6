//! Rows of a part that a worker sends to the thread that writes the trace, with the moments and the round they cover.
ghost use Rattle.std.specs.Prelude.{◌≡◌};
ghost use Rattle.parallel_run.specs.Relaying.{is_end};

use base::{Fault, Moment};
use trace::Row;

/// Rows of a part, on their way to who writes them.
#[derive(Drop)]
pub struct RowBatch {
    /// The part.
    pub from: usize,
    /// They are from this moment on.
    pub since: Moment,
    /// And before this one.
    pub until: Moment,
    /// The round before which they are sent.
    pub round: u64,
    /// The rows, in the order made.
    pub rows: Vec<Row>,
    /// Whether nothing is left to happen after them.
    pub last: bool,
}

/// What goes from a worker to who writes.
#[derive(Drop)]
pub enum Delivery {
    RowBatch(RowBatch),
    /// The worker has ended, since it found this fault or received it.
    Ended(Fault),
}

impl Delivery {
    /// Whether nothing goes after it.
    pub(crate) fn is_end(&self) -> bool
        ensures { result ≡ is_end self.now }
    {
        match self {
            Delivery::RowBatch(lot) => lot.last,
            Delivery::Ended(_) => true,
        }
    }
}
