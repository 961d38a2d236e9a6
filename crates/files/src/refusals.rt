//! How many writes of closed files were refused, as contracts see it.
ghost use Rattle.std.specs.Prelude.{◌≡◌, ◌∷◌, []};

use std::marker::Model;
use std::snapshot::Snapshot;

/// How many writes and flushes of each closed file were refused, the last first. Contracts alone see them: they take no
/// memory, and have no limit.
#[derive(Drop)]
#[cycle(refusals)]
pub(crate) struct Refusals {
    link: Link,
}

#[derive(Drop)]
#[cycle(refusals)]
enum Link {
    /// No file was closed yet.
    Start,
    /// Those of the files that were closed before the last one, and those of that one.
    After(Snapshot<Refusals>, Snapshot<u64>),
}

impl Model for Refusals {
    ghost use Rattle.std.specs.Prelude.{List, ℕ, length};

    ghost Value = { List ℕ };

    ghost use Rattle.files.specs.Refusals.{linked_refusals};
    ghost use Rattle.std.proofs.Common.{arith};

    ghost view = { λ refusals. linked_refusals refusals.link };

    ghost size = { length };

    ghost size_decreases = { λ a h. Prim.grind (arith) };
}

impl Refusals {
    /// Those of no file.
    pub(crate) fn new() -> Refusals
        ensures { result ≡ [] }
    {
        Refusals { link: Link::Start }
    }

    /// Adds those of the next file that is closed.
    pub(crate) fn add(&mut self, count: u64)
        ensures { self.new ≡ count ∷ self.old }
    {
        let link = Link::After(Snapshot::of(self), Snapshot::of(&count));
        self.link = link;
    }
}
