//! A board, and its seats.
ghost use Rattle.std.specs.Prelude.{◌≡◌, ◌≤◌, List, [], ◌∷◌, ◌++◌, length, IfOk, IfNone, IfErr, MatchOption, MatchResult};
ghost use Rattle.std.specs.List.{All, flat_map};
ghost use Rattle.board.specs.Deal.{DealBalance, SameBag, hand, whole};
ghost use Rattle.board.specs.Seats.{IsSeatOf, IsSameSeat, AreAllSeats, HasEmptyBags, record_of, room, dealt, taken, share};

use crate::rule::{Balanced, Cut, Deals, Hand, ItemRule, Takes, Together};
use base::Memory;
use crossbeam_queue::{Pass, RuledArrayQueue};
use std::alloc::Global;
use std::sync::Wait;

/// A shared object on which items `T` lie until somebody takes them. Threads share it by reference.
#[derive(Drop)]
pub struct Board<T, V, S: ItemRule<T, V>> {
    queue: RuledArrayQueue<T, Hand<V>, Balanced<S>>,
}

/// A seat at a board, for one thread. It keeps account, in proofs alone, of what was dealt from it and of what it
/// has taken: two bags of what the items stand for (`dealt` and `taken`). It has no bytes.
#[derive(Drop)]
pub struct Seat<T, V> {
    pass: Pass<T, Hand<V>>,
}

impl<T: Drop, V, S: ItemRule<T, V>> Board<T, V, S> {
    /// A board on which nothing lies, with room for so many items (1 to 64), and all its seats, as many as are
    /// asked for (1 to 65), with empty bags. `Err` where memory is refused.
    pub fn new(
        alloc: Global,
        items: usize,
        seats: usize,
    ) -> Result<(Board<T, V, S>, Vec<Seat<T, V>>), Memory>
        requires items { (1 ≤ items) × (items ≤ 64) }
        requires seats { (1 ≤ seats) × (seats ≤ 65) }
        ensures room { IfOk result (λ made. room made.0 ≡ items) }
        ensures count { IfOk result (λ made. length made.1.items ≡ seats) }
        ensures seats { IfOk result (λ made. AreAllSeats made.0 made.1.items × All HasEmptyBags made.1.items) }
    {
        let Ok((queue, pass)) = RuledArrayQueue::ruled(alloc, items) else {
            return Err(Memory);
        };
        let board = Board { queue };
        let seats = board.seats(alloc, Seat { pass }, seats)?;
        Ok((board, seats))
    }

    // So many seats, made of one that has every share.
    fn seats(
        &self,
        alloc: Global,
        mut first: Seat<T, V>,
        seats: usize,
    ) -> Result<Vec<Seat<T, V>>, Memory>
        requires first { IsSeatOf self.now first × (share first ≡ whole) × HasEmptyBags first }
        requires seats { (1 ≤ seats) × (seats ≤ 65) }
        ensures count { IfOk result (λ made. length made.items ≡ seats) }
        ensures seats { IfOk result (λ made. AreAllSeats self.now made.items × All HasEmptyBags made.items) }
    {
        let mut made = Vec::new(alloc);
        for _ in 1..seats {
            let pass = self.queue.another::<Cut>(&mut first.pass);
            match made.push(Seat { pass }) {
                Ok(()) => {}
                Err(_) => return Err(Memory),
            }
        }
        match made.push(first) {
            Ok(()) => Ok(made),
            Err(_) => Err(Memory),
        }
    }

    /// Puts an item that belongs to the board there, behind all that lie there: `Ok` adds what it stands for to
    /// what was dealt from the seat. `Err` hands that very item back and changes nothing: the board was full at
    /// one moment of the call, which is known for sure where the board has no other seat.
    pub fn deal<R: Wait>(&self, rt: &R, seat: &mut Seat<T, V>, item: T) -> Result<(), T>
        requires seat { IsSeatOf self.now seat.old }
        requires belongs { S.belongs item }
        ensures seat { IsSameSeat seat.old seat.new }
        ensures full { IfErr result (λ _. share seat.old ≡ whole → (lying : List V) × (length lying ≡ room self.now) × DealBalance (dealt seat.old) (taken seat.old) lying) }
        ensures item { MatchResult result (λ _. record_of seat.new ≡ hand (share seat.old) (dealt seat.old ++ S.stands_for item ∷ []) (taken seat.old)) (λ back. (back ≡ item) × (record_of seat.new ≡ record_of seat.old)) }
    {
        self.queue.push_as::<Deals<S>, R>(rt, &mut seat.pass, item)
    }

    /// Takes the item that has lain on the board longest: `Some` adds what it stands for to what the seat has
    /// taken, and the item belongs to the board. `None` changes nothing: nothing lay there at one moment of the
    /// call, which is known for sure where the board has no other seat.
    pub fn take<R: Wait>(&self, rt: &R, seat: &mut Seat<T, V>) -> Option<T>
        requires seat { IsSeatOf self.now seat.old }
        ensures seat { IsSameSeat seat.old seat.new }
        ensures empty { IfNone result (share seat.old ≡ whole → DealBalance (dealt seat.old) (taken seat.old) []) }
        ensures item { MatchOption result (record_of seat.new ≡ record_of seat.old) (λ item. (record_of seat.new ≡ hand (share seat.old) (dealt seat.old) (taken seat.old ++ S.stands_for item ∷ [])) × S.belongs item) }
    {
        self.queue.pop_as::<Takes<S>, R>(rt, &mut seat.pass)
    }
}

/// Settles a board, given all its seats: how many items still lie there, which go with the board. Over all seats
/// each item was dealt as often as it was taken or lies there (`DealBalance`): with 0, every item that was dealt
/// was taken, as often, and no other.
pub fn settle<T: Drop, V, S: ItemRule<T, V>, R: Wait>(
    rt: &R,
    board: Board<T, V, S>,
    seats: Vec<Seat<T, V>>,
) -> usize
    requires { AreAllSeats board seats.items }
    ensures balance { (lying : List V) × (length lying ≡ result) × DealBalance (flat_map dealt seats.items) (flat_map taken seats.items) lying }
    ensures all_taken { result ≡ 0 → SameBag (flat_map dealt seats.items) (flat_map taken seats.items) }
{
    let mut gathered = gather(&board, seats);
    board.queue.len_as::<Takes<S>, R>(rt, &mut gathered.pass)
}

// The seat that knows what all seats did.
fn gather<T: Drop, V, S: ItemRule<T, V>>(
    board: &Board<T, V, S>,
    mut seats: Vec<Seat<T, V>>,
) -> Seat<T, V>
    requires { AreAllSeats board.now seats.items }
    ensures seat { IsSeatOf board.now result × (share result ≡ whole) }
    ensures dealt { SameBag (dealt result) (flat_map dealt seats.items) }
    ensures taken { SameBag (taken result) (flat_map taken seats.items) }
{
    let Some(mut gathered) = seats.pop() else {
        unreachable!()
    };
    while let Some(seat) = seats.pop() {
        let Seat { pass } = seat;
        board.queue.absorb::<Together>(&mut gathered.pass, pass);
    }
    gathered
}
