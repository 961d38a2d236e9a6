//! What is left of the seats of a board once they have come together, for proofs alone.
ghost use Rattle.std.specs.Prelude.{◌≡◌, []};

use crate::past::Past;
use std::alloc::Global;
use std::snapshot::Snapshot;

/// What was dealt from a seat, and what it has taken, oldest first. It has no bytes.
#[derive(Drop)]
pub struct SeatRecord<V> {
    pub(crate) dealt: Snapshot<Past<V>>,
    pub(crate) taken: Snapshot<Past<V>>,
}

/// What was dealt and taken at the seats of a board: at one of them, and at the others.
#[derive(Drop)]
pub struct BoardRecord<V> {
    pub(crate) own: SeatRecord<V>,
    pub(crate) others: Vec<SeatRecord<V>>,
}

impl<V> SeatRecord<V> {
    /// Nothing was dealt or taken yet.
    pub(crate) fn new() -> Self
        ensures { (result.dealt.value ≡ []) × (result.taken.value ≡ []) }
    {
        SeatRecord {
            dealt: Past::none(),
            taken: Past::none(),
        }
    }
}

impl<V> BoardRecord<V> {
    /// That of no board.
    pub fn none(alloc: Global) -> Self {
        BoardRecord {
            own: SeatRecord::new(),
            others: Vec::new(alloc),
        }
    }
}
