//! The rule of a board: what a seat knows, and what each step at it changes. These types are for proofs alone.

use crossbeam_queue::protocol::{Join, Lesson, Outcome, Protocol, Split};
use std::collections::LinkedList;
use std::marker::PhantomData;

/// What the items `T` of a board are: what each stands for, and which belong to the board. A type stands for it
/// of which no value is made.
pub trait ItemRule<T, V> {
    ghost use Rattle.std.specs.Prelude.{◌≡◌};

    /// What an item stands for in the accounts of the seats.
    ghost stands_for: { T → V };

    /// Whether an item belongs to the board: asked of whoever deals one, and known to whoever takes one.
    ghost belongs: { T → Type 0 };

    /// What the item stands for.
    fn entry_of(item: &T) -> V
        ensures { result ≡ stands_for item.now };
}

/// What a seat knows: its share of the right to see the whole board, what was dealt from it and what it has
/// taken.
pub struct Hand<V> {
    pub share: u64,
    pub dealt: LinkedList<V>,
    pub taken: LinkedList<V>,
}

/// The rule that each item dealt is taken once or lies on the board, and that what lies there belongs to it.
pub(crate) struct Balanced<S> {
    setting: PhantomData<S>,
}

impl<T, V, S: ItemRule<T, V>> Protocol<T, Hand<V>> for Balanced<S> {
    ghost use Rattle.std.specs.Prelude.{[]};
    ghost use Rattle.board.specs.Deal.{whole, hand, IsBalanced};

    ghost holds = { IsBalanced S.stands_for S.belongs };

    ghost first = { hand whole [] [] };
}

/// One part of a seat's share becomes the share of a new seat.
pub(crate) struct Cut;

impl<V> Split<Hand<V>> for Cut {
    ghost use Rattle.std.specs.Prelude.{◌-◌, []};
    ghost use Rattle.board.specs.Deal.{hand};

    ghost left = { λ v. hand (v.share - 1) v.dealt v.taken };

    ghost right = { λ v. hand 1 [] [] };
}

/// Two seats become one.
pub(crate) struct Together;

impl<V> Join<Hand<V>> for Together {
    ghost use Rattle.std.specs.Prelude.{◌+◌, [], ◌++◌};
    ghost use Rattle.board.specs.Deal.{hand};

    ghost both = { λ v w. hand (v.share + w.share) (v.dealt ++ w.dealt) (v.taken ++ w.taken) };

    ghost spent = { hand 0 [] [] };
}

/// A push adds to what was dealt.
pub(crate) struct Deals<S> {
    setting: PhantomData<S>,
}

impl<T, V, S: ItemRule<T, V>> Outcome<T, Hand<V>> for Deals<S> {
    ghost use Rattle.std.specs.Prelude.{◌≡◌, ◌∷◌, [], ◌++◌};
    ghost use Rattle.board.specs.Deal.{hand};

    ghost then = { λ v x w. w ≡ hand v.share (v.dealt ++ S.stands_for x ∷ []) v.taken };
}

/// A pop adds to what was taken, and the item belongs to the board.
pub(crate) struct Takes<S> {
    setting: PhantomData<S>,
}

impl<T, V, S: ItemRule<T, V>> Outcome<T, Hand<V>> for Takes<S> {
    ghost use Rattle.std.specs.Prelude.{◌≡◌, ◌∷◌, [], ◌++◌};
    ghost use Rattle.board.specs.Deal.{hand};

    ghost then = { λ v x w. (w ≡ hand v.share v.dealt (v.taken ++ S.stands_for x ∷ [])) × S.belongs x };
}

impl<T, V, S: ItemRule<T, V>> Lesson<T, Hand<V>> for Deals<S> {
    ghost use Rattle.board.specs.Deal.{Sees};

    ghost fact = { Sees S.stands_for S.belongs };
}

impl<T, V, S: ItemRule<T, V>> Lesson<T, Hand<V>> for Takes<S> {
    ghost use Rattle.board.specs.Deal.{Sees};

    ghost fact = { Sees S.stands_for S.belongs };
}
