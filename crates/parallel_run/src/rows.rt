//! The rows of a part that wait to be sent to who writes.
ghost use Rattle.std.specs.Prelude.{◌≡◌, ◌<◌, ◌≤◌, [], ◌++◌, length, take, drop, max, OnOk, IfOk};
ghost use Rattle.std.specs.List.{AllByRecursion};
ghost use Rattle.base.specs.Rising.{IsRising};
ghost use Rattle.trace.specs.declared.row.Row.{Row as ARow};

use crate::row_batch::RowBatch;
use base::{Memory, Moment};
use std::alloc::Global;
use std::mem;
use trace::Row;

/// Once all parts have written so many rows since their last lots, each sends one. With the rest of the round's
/// rows they are mostly fewer than 512, where the memory of a merged lot would double.
const ROWS_OF_LOTS: u64 = 480;

/// Rows of a part that were in no lot yet.
#[derive(Drop)]
pub(crate) struct Gathered {
    /// They are from this moment on.
    since: Moment,
    rows: Vec<Row>,
    /// How many rows all parts have written since their last lots.
    count: u64,
}

impl Gathered {
    /// No rows yet.
    pub(crate) fn new(alloc: Global) -> Self
        ensures since { result.since ≡ 0 }
        ensures none { result.rows.items ≡ [] }
    {
        Gathered {
            since: Moment(0),
            rows: Vec::new(alloc),
            count: 0,
        }
    }

    /// Adds the rows of the part's window in a round. They leave their list.
    pub(crate) fn add(&mut self, rows: &mut Vec<Row>) -> Result<(), Memory>
        ensures since { self.new.since ≡ self.old.since }
        ensures more { OnOk result (self.new.rows.items ≡ self.old.rows.items ++ rows.old.items) }
    {
        if self.rows.is_empty() {
            mem::swap(&mut self.rows, rows);
            return Ok(());
        }
        self.rows.append(rows)?;
        Ok(())
    }

    /// All parts wrote so many rows in the round. Whether it is time for a lot.
    pub(crate) fn are_enough(&mut self, rows: u64) -> bool
        ensures since { self.new.since ≡ self.old.since }
        ensures same { self.new.rows ≡ self.old.rows }
    {
        self.count = self.count.saturating_add(rows);
        self.count >= ROWS_OF_LOTS
    }

    /// The lot of the rows before a moment, sent before that round. They leave, the later ones stay. No
    /// lot goes back behind the one before it.
    pub(crate) fn lot(
        &mut self,
        from: usize,
        until: Moment,
        round: u64,
        last: bool,
    ) -> Result<RowBatch, Memory>
        requires rising { IsRising (λ (a b : ARow). a.at ≤ b.at) self.old.rows.items }
        ensures from { IfOk result (λ lot. lot.from ≡ from) }
        ensures moments { IfOk result (λ lot. (lot.since ≡ self.old.since) × (lot.until ≡ max until self.old.since)) }
        ensures round { IfOk result (λ lot. lot.round ≡ round) }
        ensures last { IfOk result (λ lot. lot.last ≡ last) }
        ensures rows { IfOk result (λ lot. lot.rows.items ++ self.new.rows.items ≡ self.old.rows.items) }
        ensures before { IfOk result (λ lot. AllByRecursion (λ (row : ARow). row.at < lot.until) lot.rows.items) }
        ensures later { IfOk result (λ lot. AllByRecursion (λ (row : ARow). lot.until ≤ row.at) self.new.rows.items) }
        ensures since { IfOk result (λ lot. self.new.since ≡ lot.until) }
    {
        let until = until.max(self.since);
        let later = self.rows.split_off(count_before(&self.rows, until))?;
        let rows = mem::replace(&mut self.rows, later);
        let since = mem::replace(&mut self.since, until);
        self.count = 0;
        Ok(RowBatch {
            from,
            since,
            until,
            round,
            rows,
            last,
        })
    }
}

/// How many of these rows are before the moment.
fn count_before(rows: &[Row], until: Moment) -> usize
    requires rising { IsRising (λ (a b : ARow). a.at ≤ b.at) rows.now }
    ensures few { result ≤ length rows.now }
    ensures before { AllByRecursion (λ (row : ARow). row.at < until) (take result rows.now) }
    ensures later { AllByRecursion (λ (row : ARow). until ≤ row.at) (drop result rows.now) }
{
    rows.partition_point(|row| row.at.ticks() < until.ticks())
}
