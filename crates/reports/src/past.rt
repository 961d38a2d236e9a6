//! The rows of a run so far, as contracts see them.
ghost use Rattle.std.specs.Prelude.{◌≡◌, ◌++◌, ◌∷◌, []};

use std::marker::Model;
use std::snapshot::Snapshot;
use trace::Row;

/// The rows of a run so far. Contracts alone see them: however many they are, they take no memory.
#[derive(Drop)]
#[cycle(past)]
pub(crate) struct Past {
    link: Link,
}

#[derive(Drop)]
#[cycle(past)]
enum Link {
    /// No row came yet.
    Start,
    /// The rows before the last one, and that one.
    After(Snapshot<Past>, Snapshot<Row>),
}

impl Model for Past {
    ghost use Rattle.std.specs.Prelude.{List, length};
    ghost use Rattle.trace.specs.declared.row.Row.{Row};

    ghost Value = { List Row };

    ghost use Rattle.reports.specs.Past.{linked_rows};
    ghost use Rattle.std.proofs.Common.{arith, length-append};

    ghost view = { λ past. linked_rows past.link };

    ghost size = { length };

    ghost size_decreases = { λ a h. Prim.grind (arith, length-append) };
}

impl Past {
    /// No rows.
    pub(crate) fn new() -> Past
        ensures { result ≡ [] }
    {
        Past { link: Link::Start }
    }

    /// Adds the next row.
    pub(crate) fn append(&mut self, row: &Row)
        ensures { self.new ≡ self.old ++ row.now ∷ [] }
    {
        let link = Link::After(Snapshot::of(self), Snapshot::of(row));
        self.link = link;
    }
}
