//! How many rows came, how many of each kind, and how bad a member's health got.
ghost use Rattle.std.specs.Prelude.{◌≡◌, ◌<◌, ◌+◌, ◌^◌, ◌++◌, ◌∷◌, [], List, length, slice_index, slice_set, max, if◌then◌else◌};
ghost use Rattle.trace.specs.declared.row.Row.{Row as AnyRow};
ghost use Rattle.trace_rows.specs.Rows.{has_kind};
ghost use Rattle.reports.specs.Counts.{count_place, AreCountsOf};

use trace::{Row, What};
use trace_rows::has_kind;

/// How many kinds of row there are.
const KINDS: usize = 29;

/// The counts of the rows so far.
#[derive(Drop)]
pub(crate) struct Counts {
    /// How many rows there are.
    pub(crate) rows: u64,
    /// How many rows there are of each kind.
    pub(crate) told: [u64; KINDS],
    /// How many of these are about a message that was lost.
    pub(crate) lost: [u64; KINDS],
    /// The highest local health counter that any member reached (Lifeguard's LHA-Probe).
    pub(crate) worst_health: u64,
}

impl Counts {
    /// The counts of no rows.
    pub(crate) fn new() -> Counts
        ensures { AreCountsOf result [] }
    {
        Counts {
            rows: 0,
            told: [0; KINDS],
            lost: [0; KINDS],
            worst_health: 0,
        }
    }

    /// Counts the next row.
    pub(crate) fn count(&mut self, row: &Row)
        requires by_one { self.old.rows < 2 ^ 63 }
        requires counted { (rows : List AnyRow) × AreCountsOf self.old rows }
        ensures { (rows : List AnyRow) → AreCountsOf self.old rows → AreCountsOf self.new (rows ++ row.now ∷ []) }
    {
        let place = count_place(row.what);
        self.rows += 1;
        raise(&mut self.told, place, true);
        raise(&mut self.lost, place, row.lost);
        self.worst_health = worse(self.worst_health, row);
    }

    /// How many rows are of this kind.
    pub(crate) fn rows_of(&self, kind: What) -> u64
        ensures { result ≡ slice_index self.now.told (count_place kind) }
    {
        self.told[count_place(kind)]
    }

    /// How many rows are of this kind and about a message that was lost.
    pub(crate) fn lost(&self, kind: What) -> u64
        ensures { result ≡ slice_index self.now.lost (count_place kind) }
    {
        self.lost[count_place(kind)]
    }
}

/// Raises the count at a place by one, if it counts.
fn raise(counts: &mut [u64; KINDS], place: usize, does_count: bool)
    requires place { place < 29 }
    requires by_one { slice_index counts.old place < 2 ^ 63 }
    ensures long { length counts.old ≡ 29 }
    ensures raised { counts.new ≡ (if does_count then slice_set counts.old place (slice_index counts.old place + 1) else counts.old) }
{
    if does_count {
        counts[place] += 1;
    }
}

/// The worse of a health counter and that of a row, where the row reports one.
fn worse(health: u64, row: &Row) -> u64
    ensures { result ≡ (if has_kind What.Health row.now then max health row.now.value else health) }
{
    if has_kind(row, What::Health) {
        health.max(row.value)
    } else {
        health
    }
}

/// The place of a kind of row among the counts.
fn count_place(kind: What) -> usize
    ensures place { result ≡ count_place kind }
    ensures within { result < 29 }
{
    match kind {
        What::Start => 0,
        What::Crash => 1,
        What::Joined => 2,
        What::Join => 3,
        What::Welcome => 4,
        What::Ping => 5,
        What::PingReq => 6,
        What::Ack => 7,
        What::Nack => 8,
        What::Fail => 9,
        What::Health => 10,
        What::Alive => 11,
        What::Suspect => 12,
        What::Confirm => 13,
        What::Accuse => 14,
        What::Refute => 15,
        What::Dead => 16,
        What::Leave => 17,
        What::Bye => 18,
        What::Gossip => 19,
        What::Call => 20,
        What::Answer => 21,
        What::Push => 22,
        What::Pull => 23,
        What::Restart => 24,
        What::Exit => 25,
        What::Left => 26,
        What::Forget => 27,
        What::Reconnect => 28,
    }
}
