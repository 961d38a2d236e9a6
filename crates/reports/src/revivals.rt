//! Members that are taken for alive again after they were held to have failed.
ghost use Rattle.std.specs.Prelude.{◌≡◌, ◌+◌, ◌<◌, ◌^◌, ◌++◌, ◌∷◌, [], ℕ, List, true, false, OnOk, IfSome, length, if◌then◌else◌};
ghost use Rattle.std.specs.Option.{option_map_or};
ghost use Rattle.trace.specs.declared.row.Row.{Row as AnyRow};
ghost use Rattle.trace_rows.specs.Rows.{has_kind};
ghost use Rattle.reports.specs.Revivals.{is_view, is_back};
ghost use Rattle.reports.specs.Held.{are_marked, HasPlace, failed_of, failed_with, HasPlaceFor, AreRevivalsOf};

use crate::pairs::Pairs;
use base::Memory;
use std::alloc::Global;
use trace::{Row, What};
use trace_rows::has_kind;

/// How many of the rows so far report a recovery, and who holds whom to have failed.
#[derive(Drop)]
pub(crate) struct Revivals {
    /// How many such rows there are.
    pub(crate) count: u64,
    failed: Pairs,
}

impl Revivals {
    /// Those of no rows. It takes no memory.
    pub(crate) fn new(alloc: Global) -> Revivals
        ensures { AreRevivalsOf result [] }
    {
        Revivals {
            count: 0,
            failed: Pairs::new(alloc),
        }
    }

    /// Makes room for what a row reports. What is kept stays, also after a refusal.
    pub(crate) fn make_room_for_row(&mut self, row: &Row) -> Result<(), Memory>
        ensures room { OnOk result (HasPlaceFor self.new row.now) }
        ensures same { (rows : List AnyRow) → AreRevivalsOf self.old rows → AreRevivalsOf self.new rows }
    {
        if !has_kind(row, What::Confirm) {
            return Ok(());
        }
        match row.about {
            Some(subject) => self.failed.grow_to_pair(row.member, subject),
            None => Ok(()),
        }
    }

    /// Takes in what the next row reports, for which there is room.
    pub(crate) fn follow(&mut self, row: &Row)
        requires by_one { self.old.count < 2 ^ 63 }
        requires room { HasPlaceFor self.old row.now }
        ensures { (rows : List AnyRow) → AreRevivalsOf self.old rows → AreRevivalsOf self.new (rows ++ row.now ∷ []) }
    {
        self.count += u64::from(self.is_back(row));
        see(&mut self.failed, row);
    }

    /// Whether a row takes one for alive whom its member holds to have failed.
    fn is_back(&self, row: &Row) -> bool
        ensures { result ≡ is_back (failed_of self.now) row.now }
    {
        has_kind(row, What::Alive) && self.is_held_failed(row)
    }

    /// Whether the member of a row holds whom it is about to have failed.
    fn is_held_failed(&self, row: &Row) -> bool
        ensures { result ≡ option_map_or (failed_of self.now row.now.member) row.now.about false }
    {
        match row.about {
            Some(subject) => self.failed.has(row.member, subject),
            None => false,
        }
    }
}

/// Takes in what a row reports that its member holds.
fn see(failed: &mut Pairs, row: &Row)
    requires { has_kind What.Confirm row.now ≡ true → IfSome row.now.about (HasPlace failed.old row.now.member) }
    ensures { (a b : ℕ) → are_marked failed.new a b ≡ failed_with row.now (are_marked failed.old) a b }
{
    if !is_view(row) {
        return;
    }
    if let Some(subject) = row.about {
        failed.set(row.member, subject, has_kind(row, What::Confirm));
    }
}

/// Whether a row reports what its member holds of another from now on.
fn is_view(row: &Row) -> bool
    ensures { result ≡ is_view row.now }
{
    matches!(row.what, What::Alive | What::Suspect | What::Confirm)
}
