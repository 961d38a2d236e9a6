//! What version 4 of the format asks of a run besides: members that start again, and incidents.
ghost use Rattle.std.specs.Prelude.{◌≡◌, true, ◌<◌, ◌^◌, ◌++◌, ◌∷◌, [], List, length, Some, IfOk, IfSome, OnOk};
ghost use Rattle.incidents.specs.Cluster.{IsSameCluster};
ghost use Rattle.incidents.specs.Kept.{count_of};
ghost use Rattle.trace.specs.declared.row.Row.{Row as AnyRow};
ghost use Rattle.reports.specs.Held.{AreRevivalsOf};
ghost use Rattle.reports.specs.Absences.{as_confirm, with_left, with_others_left};
ghost use Rattle.reports.specs.Watched.{IsWatchOf};

use crate::absences::Absences;
use crate::revivals::Revivals;
use base::{Fault, Memory};
use incidents::{Cluster, Incidents, reports_nothing};
use scenario::{Scenario, Version};
use std::alloc::Global;
use trace::{Row, What};
use trace_rows::{has_kind, is_about};

/// What version 4 of the format asks of a run besides.
#[derive(Drop)]
pub(crate) struct Watch {
    /// Who is away, where somebody who left counts as one who failed.
    pub(crate) absences: Absences,
    /// Who is taken for alive again, likewise.
    pub(crate) revivals: Revivals,
    pub(crate) incidents: Incidents,
}

impl Watch {
    /// That of no rows, for a scenario.
    fn new(alloc: Global, scenario: &Scenario) -> Result<Watch, Memory>
        ensures { IfOk result (λ watch. IsWatchOf watch []) }
    {
        let cluster = Cluster::of(alloc, scenario)?;
        let incidents = Incidents::new(alloc, cluster)?;
        Ok(Watch {
            absences: Absences::new(alloc),
            revivals: Revivals::new(alloc),
            incidents,
        })
    }

    /// Takes in the next row. After a refusal nothing is known of it. Nearly all rows tell nothing: they
    /// are only counted.
    #[inline(always)]
    fn follow(&mut self, row: &Row) -> Result<(), Fault>
        requires kept { (rows : List AnyRow) × IsWatchOf self.old rows × (length rows < 2 ^ 63) }
        ensures { OnOk result ((rows : List AnyRow) → IsWatchOf self.old rows → IsWatchOf self.new (rows ++ row.now ∷ [])) }
    {
        if !self.incidents.has_members_of(row) {
            return Err(Fault::Memory);
        }
        if reports_nothing(row) {
            return self.incidents.add(row);
        }
        self.hear(row)
    }

    /// The same of a row that tells something.
    fn hear(&mut self, row: &Row) -> Result<(), Fault>
        requires kept { (rows : List AnyRow) × IsWatchOf self.old rows × (length rows < 2 ^ 63) }
        requires member { row.now.member < count_of self.old.incidents.cluster }
        requires about { IfSome row.now.about (λ j. j < count_of self.old.incidents.cluster) }
        ensures { OnOk result ((rows : List AnyRow) → IsWatchOf self.old rows → IsWatchOf self.new (rows ++ row.now ∷ [])) }
    {
        let of_others = with_others_left(row);
        let of_all = with_left(row);
        self.absences.follow(&of_others)?;
        follow_revival(&mut self.revivals, &of_all)?;
        self.incidents.add(row)
    }
}

/// Takes in what a row reports that its member holds of another.
fn follow_revival(revivals: &mut Revivals, row: &Row) -> Result<(), Memory>
    requires { (rows : List AnyRow) × AreRevivalsOf revivals.old rows × (length rows < 2 ^ 63) }
    ensures { OnOk result ((rows : List AnyRow) → AreRevivalsOf revivals.old rows → AreRevivalsOf revivals.new (rows ++ row.now ∷ [])) }
{
    revivals.make_room_for_row(row)?;
    revivals.follow(row);
    Ok(())
}

/// What is kept of a run of a scenario, where its version asks for it and there is memory.
pub(crate) fn watch_of(alloc: Global, scenario: &Scenario) -> Option<Watch>
    ensures { IfSome result (λ watch. IsWatchOf watch []) }
{
    match scenario.version() {
        Version::One | Version::Two | Version::Three => None,
        Version::Four => new_watch(alloc, scenario),
    }
}

/// What is kept of no rows, where there is memory.
fn new_watch(alloc: Global, scenario: &Scenario) -> Option<Watch>
    ensures { IfSome result (λ watch. IsWatchOf watch []) }
{
    match Watch::new(alloc, scenario) {
        Ok(watch) => Some(watch),
        Err(_) => None,
    }
}

/// Takes in the next row, as long as there is memory for that.
#[inline(always)]
pub(crate) fn see(watch: &mut Option<Watch>, row: &Row)
    requires { (rows : List AnyRow) × IfSome watch.old (λ w. IsWatchOf w rows) × (length rows < 2 ^ 63) }
    ensures { (rows : List AnyRow) → IfSome watch.old (λ w. IsWatchOf w rows) → IfSome watch.new (λ w. IsWatchOf w (rows ++ row.now ∷ [])) }
{
    match take_in(watch, row) {
        Ok(()) => {}
        Err(_) => *watch = None,
    }
}

/// Takes in the next row. After a refusal nothing is known of what is kept.
#[inline(always)]
fn take_in(watch: &mut Option<Watch>, row: &Row) -> Result<(), Fault>
    requires { (rows : List AnyRow) × IfSome watch.old (λ w. IsWatchOf w rows) × (length rows < 2 ^ 63) }
    ensures { OnOk result ((rows : List AnyRow) → IfSome watch.old (λ w. IsWatchOf w rows) → IfSome watch.new (λ w. IsWatchOf w (rows ++ row.now ∷ []))) }
{
    match watch {
        Some(kept) => kept.follow(row),
        None => Ok(()),
    }
}

/// What is kept, if it is that of this cluster.
pub(crate) fn kept_of<'a>(watch: &'a Option<Watch>, cluster: &Cluster) -> Result<&'a Watch, Memory>
    ensures kept { IfOk result (λ kept. watch.now ≡ Some kept.now) }
    ensures cluster { IfOk result (λ kept. IsSameCluster kept.now.incidents.cluster cluster.now) }
{
    match watch {
        Some(kept) => kept_if(kept, kept.incidents.is_of(cluster)),
        None => Err(Memory),
    }
}

/// What is kept, if it is asked for.
fn kept_if(watch: &Watch, is_asked: bool) -> Result<&Watch, Memory>
    ensures kept { IfOk result (λ kept. kept.now ≡ watch.now) }
    ensures asked { OnOk result (is_asked ≡ true) }
{
    if is_asked { Ok(watch) } else { Err(Memory) }
}

/// The row, as one that confirms a failure.
fn as_confirm(row: &Row) -> Row
    ensures { result ≡ as_confirm row.now }
{
    Row {
        what: What::Confirm,
        ..*row
    }
}

/// The row, where one that says that a member left confirms that it failed.
fn with_left(row: &Row) -> Row
    ensures { result ≡ with_left row.now }
{
    if has_kind(row, What::Left) {
        as_confirm(row)
    } else {
        *row
    }
}

/// The same, but for what a member says of itself.
fn with_others_left(row: &Row) -> Row
    ensures { result ≡ with_others_left row.now }
{
    if is_about(row, row.member) {
        *row
    } else {
        with_left(row)
    }
}
