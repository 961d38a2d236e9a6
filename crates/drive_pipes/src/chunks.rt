//! Lists of bytes that contracts alone see.
ghost use Rattle.std.specs.Prelude.{◌≡◌, ◌++◌, ◌∷◌, []};

use std::marker::Model;
use std::snapshot::Snapshot;

/// Lists of bytes, one behind another. Contracts alone see them: however many they are, they take no memory.
#[derive(Drop)]
#[cycle(chunks)]
pub struct Chunks {
    link: Link,
}

#[derive(Drop)]
#[cycle(chunks)]
enum Link {
    /// There is none yet.
    Start,
    /// Those before the last one, and that one.
    After(Snapshot<Chunks>, Snapshot<Vec<u8>>),
}

impl Model for Chunks {
    ghost use Rattle.std.specs.Prelude.{List, ℕ, length};

    ghost Value = { List (List ℕ) };

    ghost use Rattle.drive_pipes.specs.Chunks.{linked_chunks};
    ghost use Rattle.std.proofs.Common.{arith, length-append};

    ghost view = { λ chunks. linked_chunks chunks.link };

    ghost size = { length };

    ghost size_decreases = { λ a h. Prim.grind (arith, length-append) };
}

impl Chunks {
    /// None.
    pub fn new() -> Chunks
        ensures { result ≡ [] }
    {
        Chunks { link: Link::Start }
    }

    /// Adds the next one.
    pub fn append(&mut self, bytes: &Vec<u8>)
        ensures { self.new ≡ self.old ++ bytes.now.items ∷ [] }
    {
        let link = Link::After(Snapshot::of(self), Snapshot::of(bytes));
        self.link = link;
    }
}
