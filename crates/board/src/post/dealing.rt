//! What is dealt and taken at a post.
ghost use Rattle.std.specs.Prelude.{◌≡◌, ◌∷◌, [], ◌++◌, MatchOption, MatchResult};
ghost use Rattle.board.specs.Deal.{hand};
ghost use Rattle.board.specs.Posts.{dealt_at, record_at, taken_at};

use crate::past::Past;
use crate::post::Post;
use crate::rule::ItemRule;
use crate::site::Site;
use std::sync::Wait;

impl<'b, T: Drop, V: Drop, S: ItemRule<T, V>, J: Site> Post<'b, T, V, S, J> {
    /// Puts an item that belongs to the board there, behind all that lie there: `Ok` adds what it stands for to
    /// what was dealt from the seat. `Err` hands that very item back and changes nothing: the board was full.
    pub fn deal<R: Wait>(&mut self, rt: &R, item: T) -> Result<(), T>
        requires belongs { S.belongs item }
        ensures item { MatchResult result (λ _. record_at self.new ≡ hand 1 (dealt_at self.old ++ S.stands_for item ∷ []) (taken_at self.old)) (λ back. (back ≡ item) × (record_at self.new ≡ record_at self.old)) }
    {
        let entry = S::entry_of(&item);
        match self.board.deal(rt, &mut self.seat, item) {
            Ok(()) => {
                Past::append(&mut self.log.dealt, &entry);
                Ok(())
            }
            Err(item) => Err(item),
        }
    }

    /// Takes the item that has lain on the board longest: `Some` adds what it stands for to what the seat has
    /// taken, and the item belongs to the board. `None` changes nothing: nothing lay there.
    pub fn take<R: Wait>(&mut self, rt: &R) -> Option<T>
        ensures item { MatchOption result (record_at self.new ≡ record_at self.old) (λ item. (record_at self.new ≡ hand 1 (dealt_at self.old) (taken_at self.old ++ S.stands_for item ∷ [])) × S.belongs item) }
    {
        match self.board.take(rt, &mut self.seat) {
            Some(item) => {
                let entry = S::entry_of(&item);
                Past::append(&mut self.log.taken, &entry);
                Some(item)
            }
            None => None,
        }
    }
}
