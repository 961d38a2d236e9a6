//! How many false alarms and false deaths the rows so far have.
ghost use Rattle.std.specs.Prelude.{◌≡◌, ◌<◌, ◌≤◌, ◌^◌, ◌+◌, ◌&&◌, ◌||◌, ℕ, false, IfOk, IfSome, [], length, slice_index_or, count_by};
ghost use Rattle.std.specs.List.{list_any};
ghost use Rattle.trace_rows.specs.Rows.{is_about};
ghost use Rattle.incidents.specs.Lives.{weight};
ghost use Rattle.incidents.specs.Incidents.{is_well, meets};
ghost use Rattle.incidents.specs.Kept.{AreCountsOf};

use crate::cluster::{Cluster, Trouble};
use crate::lives::nobody;
use crate::rows::weight;
use base::{MemberId, Memory, Moment};
use std::alloc::Global;
use trace::Row;

/// The counts of the rows so far.
#[derive(Drop)]
pub(crate) struct Counts {
    /// How many rows there are.
    pub(crate) rows: u64,
    /// How many false alarms.
    pub(crate) alarms: u64,
    /// How many false deaths.
    pub(crate) deaths: u64,
    /// How many of them of members that were well.
    pub(crate) well: u64,
    /// Whether each member had one.
    pub(crate) died: Vec<bool>,
}

impl Counts {
    /// Those of no rows.
    pub(crate) fn new(alloc: Global, cluster: &Cluster) -> Result<Counts, Memory>
        ensures { IfOk result (λ counts. AreCountsOf counts cluster.now []) }
    {
        let died = nobody(alloc, cluster.founders.len())?;
        Ok(Counts {
            rows: 0,
            alarms: 0,
            deaths: 0,
            well: 0,
            died,
        })
    }

    /// Counts the next row, given what it is.
    pub(crate) fn count(&mut self, told: Told, row: &Row)
        requires rows { self.old.rows < 2 ^ 63 }
        requires alarms { self.old.alarms < 2 ^ 63 }
        requires deaths { self.old.deaths < 2 ^ 63 }
        requires well { self.old.well < 2 ^ 63 }
        requires about { IfSome row.now.about (λ j. j < length self.old.died.items) }
        ensures rows { self.new.rows ≡ self.old.rows + 1 }
        ensures alarms { self.new.alarms ≡ self.old.alarms + weight told.is_alarm }
        ensures deaths { self.new.deaths ≡ self.old.deaths + weight told.is_death }
        ensures well { self.new.well ≡ self.old.well + weight told.is_well }
        ensures died { (m : ℕ) → slice_index_or self.new.died.items m false
            ≡ (slice_index_or self.old.died.items m false || (told.is_death && is_about m row.now)) }
        ensures members { length self.new.died.items ≡ length self.old.died.items }
    {
        self.rows += 1;
        self.alarms += weight(told.is_alarm);
        self.deaths += weight(told.is_death);
        self.well += weight(told.is_well);
        if told.is_death {
            self.mark(row);
        }
    }

    /// Marks the member that a row is about as one that had a false death.
    fn mark(&mut self, row: &Row)
        requires { IfSome row.now.about (λ j. j < length self.old.died.items) }
        ensures died { (m : ℕ) → slice_index_or self.new.died.items m false ≡ (slice_index_or self.old.died.items m false || is_about m row.now) }
        ensures same { self.new ≡ record self.old { died = self.new.died } }
        ensures members { length self.new.died.items ≡ length self.old.died.items }
    {
        if let Some(subject) = row.about {
            self.died[subject.index()] = true;
        }
    }

    /// How many members had a false death.
    pub(crate) fn members(&self) -> usize
        ensures { result ≡ count_by (λ died. died) self.now.died.items }
    {
        self.died.iter().filter(|died| **died).count()
    }
}

/// What a row is: a false alarm, a false death, and one of a member that was well.
#[derive(Clone, Copy)]
pub(crate) struct Told {
    pub(crate) is_alarm: bool,
    pub(crate) is_death: bool,
    pub(crate) is_well: bool,
}

/// Whether a row is a false death of a member that was well, where it is one at all. Troubles are
/// looked through only there.
pub(crate) fn dies_well(is_death: bool, cluster: &Cluster, row: &Row) -> bool
    ensures { result ≡ (is_death && is_well cluster.now.troubles.items cluster.now.reach row.now) }
{
    is_death && is_well(cluster, row)
}

/// Whether whom a row is about had no trouble at its moment, nor shortly before.
fn is_well(cluster: &Cluster, row: &Row) -> bool
    ensures { result ≡ is_well cluster.now.troubles.items cluster.now.reach row.now }
{
    match row.about {
        Some(subject) => {
            let least = row.at.ticks().saturating_sub(cluster.reach);
            !has_trouble(cluster.troubles.as_slice(), subject, least, row.at)
        }
        None => false,
    }
}

/// Whether a member has a trouble between two moments.
fn has_trouble(troubles: &[Trouble], member: MemberId, least: u64, last: Moment) -> bool
    ensures { result ≡ list_any (meets member least last) troubles.now }
{
    troubles
        .iter()
        .any(|trouble| trouble.meets(member, least, last))
}

impl Trouble {
    /// Whether the trouble is a member's, and between two moments.
    fn meets(&self, member: MemberId, least: u64, last: Moment) -> bool
        ensures { result ≡ meets member least last self.now }
    {
        self.member == member && (self.from <= last && least < self.until.ticks())
    }
}
