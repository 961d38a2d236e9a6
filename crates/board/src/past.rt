//! A list that contracts alone see.
ghost use Rattle.std.specs.Prelude.{◌≡◌, ◌++◌, ◌∷◌, []};

use std::marker::Model;
use std::mem;
use std::snapshot::Snapshot;

/// A list of values, oldest first. Only snapshots of it are kept, which have no bytes: contracts alone see it.
#[derive(Drop)]
#[cycle(past)]
pub struct Past<V> {
    link: Link<V>,
}

#[derive(Drop)]
#[cycle(past)]
enum Link<V> {
    /// Nothing was added yet.
    Start,
    /// What was added before the last value, and that one.
    After(Snapshot<Past<V>>, Snapshot<V>),
}

impl<V> Model for Past<V> {
    ghost use Rattle.std.specs.Prelude.{List, length};

    ghost Value = { List V };

    ghost use Rattle.board.specs.Past.{linked_values};
    ghost use Rattle.std.proofs.Common.{arith, length-append};

    ghost view = { λ past. linked_values past.link };

    ghost size = { length };

    ghost size_decreases = { λ a h. Prim.grind (arith, length-append) };
}

impl<V> Past<V> {
    /// Nothing.
    pub(crate) fn none() -> Snapshot<Past<V>>
        ensures { result.value ≡ [] }
    {
        Snapshot::of(&Past { link: Link::Start })
    }

    /// Adds the next value to what was added before.
    pub(crate) fn append(before: &mut Snapshot<Past<V>>, value: &V)
        ensures { before.new.value ≡ before.old.value ++ value.now ∷ [] }
    {
        let so_far = mem::replace(before, Past::none());
        let all = Past {
            link: Link::After(so_far, Snapshot::of(value)),
        };
        *before = Snapshot::of(&all);
    }
}
