//! A seat that goes to a thread together with its board, and comes back.
ghost use Rattle.std.specs.Prelude.{◌≡◌, []};
ghost use Rattle.board.specs.Deal.{hand};
ghost use Rattle.board.specs.Seats.{IsSeatOf, record_of};
ghost use Rattle.board.specs.Sites.{table_of};

mod dealing;

use crate::record::SeatRecord;
use crate::rule::ItemRule;
use crate::seats::{Board, Seat};
use crate::site::Site;
use std::marker::PhantomData;

/// A seat with one share, beside its board, which is the one that `J` stands for. Whatever a thread does at its
/// post, what it gives back is such a post again, so that all posts together are all seats of the board. What
/// was dealt and taken there is kept as a value that contracts alone see.
#[derive(Drop)]
pub struct Post<'b, T, V, S: ItemRule<T, V>, J: Site> {
    board: &'b Board<T, V, S>,
    seat: Seat<T, V>,
    log: SeatRecord<V>,
    site: PhantomData<J>,
    ghost is_seat: { IsSeatOf board.now seat },
    ghost here: { table_of board.now ≡ J.table },
    ghost kept: { record_of seat ≡ hand 1 log.dealt.value log.taken.value },
}

impl<'b, T: Drop, V: Drop, S: ItemRule<T, V>, J: Site> Post<'b, T, V, S, J> {
    /// The post of this seat.
    pub(crate) fn new(board: &'b Board<T, V, S>, seat: Seat<T, V>) -> Self
        requires is_seat { IsSeatOf board.now seat }
        requires here { table_of board.now ≡ J.table }
        requires none { record_of seat ≡ hand 1 [] [] }
        ensures { record_of result.seat ≡ hand 1 [] [] }
    {
        Post {
            board,
            seat,
            log: SeatRecord::new(),
            site: PhantomData,
        }
    }

    /// The seat alone, which is a seat of the board that `J` stands for, and what was dealt and taken there.
    pub(crate) fn leave(self, board: &Board<T, V, S>) -> (Seat<T, V>, SeatRecord<V>)
        requires { table_of board.now ≡ J.table }
        ensures is_seat { IsSeatOf board.now result.0 }
        ensures kept { record_of result.0 ≡ hand 1 result.1.dealt.value result.1.taken.value }
        ensures same { record_of result.0 ≡ record_of self.entry.seat }
    {
        let Post { seat, log, .. } = self;
        (seat, log)
    }
}
