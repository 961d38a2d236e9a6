//! When members learned of a crash.
ghost use Rattle.std.specs.Prelude.{◌≡◌, ℕ, ◌<◌, ◌==◌, ◌||◌, ◌++◌, ◌∷◌, [], true, false, if◌then◌else◌, List, None, IfOk, length, slice_index_or};
ghost use Rattle.reports.specs.Revivals.{is_view};
ghost use Rattle.series.specs.Stories.{told_at, with_row};

use base::{Memory, Moment};
use std::alloc::Global;
use trace::{Row, What};

/// When members learned of the crash of a member, where that is watched: when they suspected it, and
/// when they confirmed that it failed. It takes no memory where it isn't.
#[derive(Drop)]
pub struct Spread {
    /// When the member crashes.
    since: Option<Moment>,
    /// Whether the row of its crash came.
    crashed: bool,
    /// Whether the row came behind that with which it started again.
    back: bool,
    /// Since when each member suspects it, until it crashes; from then on, when each suspected it that
    /// did so when it crashed, or first did so later, before it started again.
    suspected: Vec<Option<Moment>>,
    /// The same of those who confirm that it failed.
    confirmed: Vec<Option<Moment>>,
}

impl Spread {
    ghost use Rattle.scenario.specs.Setup.{Setup, member_count};
    ghost use Rattle.series.specs.Stories.{IsSpreadOf, is_crash_of};
    ghost use Rattle.series.specs.Watched.{watched};
    ghost use Rattle.trace.specs.declared.row.Row.{Row as AnyRow};
    ghost use Rattle.reports.specs.Rows.{is_about};
    ghost use Rattle.incidents.specs.Lives.{restarts};

    /// What is known, before any row, of a member whose crash is watched from that moment on, or isn't, where there
    /// are so many members.
    pub(crate) fn new(
        alloc: Global,
        since: Option<Moment>,
        members: usize,
    ) -> Result<Spread, Memory>
        ensures { IfOk result (λ spread. (s : Setup) (subject : ℕ) → since ≡ watched s subject → members ≡ member_count s → IsSpreadOf s subject spread []) }
    {
        let places = if since.is_some() { members } else { 0 };
        Ok(Spread {
            since,
            crashed: false,
            back: false,
            suspected: no_moments(alloc, places)?,
            confirmed: no_moments(alloc, places)?,
        })
    }

    /// Takes in a row that is about the member, and is neither that of its crash nor that with which it
    /// starts again.
    pub(crate) fn follow(&mut self, row: &Row)
        ensures { (s : Setup) (subject : ℕ) (rows : List AnyRow) → is_about subject row.now ≡ true → is_crash_of subject row.now ≡ false → restarts subject row.now ≡ false
            → IsSpreadOf s subject self.old rows → IsSpreadOf s subject self.new (rows ++ row.now ∷ []) }
    {
        if self.back {
            return;
        }
        note(&mut self.suspected, self.crashed, What::Suspect, row);
        note(&mut self.confirmed, self.crashed, What::Confirm, row);
    }

    /// Takes in that the member crashes.
    pub(crate) fn crash(&mut self)
        ensures { self.new ≡ record self.old { crashed = true } }
    {
        self.crashed = true;
    }

    /// Takes in that the member starts again.
    pub(crate) fn restart(&mut self)
        ensures { self.new ≡ record self.old { back = self.old.back || self.old.crashed } }
    {
        self.back = is_back(self.back, self.crashed);
    }

    /// When the member crashes, where that is watched.
    pub fn since(&self) -> Option<Moment>
        ensures { result ≡ self.now.since }
    {
        self.since
    }

    /// When each member suspected it that did so when it crashed, or first did so later and before it
    /// started again, at that member's number; empty where its crash isn't watched.
    pub fn suspected(&self) -> &[Option<Moment>]
        ensures { result.now ≡ self.now.suspected.items }
    {
        self.suspected.as_slice()
    }

    /// When each confirmed that it failed, likewise.
    pub fn confirmed(&self) -> &[Option<Moment>]
        ensures { result.now ≡ self.now.confirmed.items }
    {
        self.confirmed.as_slice()
    }
}

/// Whether a member that starts again is back behind its crash, or was already.
fn is_back(back: bool, crashed: bool) -> bool
    ensures { result ≡ (back || crashed) }
{
    back || crashed
}

/// A place for each of so many members, with no moment yet.
fn no_moments(alloc: Global, members: usize) -> Result<Vec<Option<Moment>>, Memory>
    ensures all { IfOk result (λ moments. length moments.items ≡ members) }
    ensures none { IfOk result (λ moments. (member : ℕ) → slice_index_or moments.items member None ≡ None) }
{
    let mut moments = Vec::new(alloc);
    moments.resize(members, None)?;
    Ok(moments)
}

/// Updates, by a row about a member that crashes, when the row's own member learned of the crash.
fn note(moments: &mut Vec<Option<Moment>>, crashed: bool, kind: What, row: &Row)
    ensures all { length moments.new.items ≡ length moments.old.items }
    ensures noted { (m : ℕ) → m < length moments.old.items → slice_index_or moments.new.items m None
        ≡ (if row.now.member == m then with_row crashed kind row.now (slice_index_or moments.old.items m None) else slice_index_or moments.old.items m None) }
{
    let place = row.member.index();
    if place < moments.len() {
        moments[place] = with_row(moments[place], crashed, kind, row);
    }
}

/// When a member learned of a crash, with one row of its own more about whom crashes. Before the crash
/// the last row counts, from then on the first that says so.
fn with_row(moment: Option<Moment>, crashed: bool, kind: What, row: &Row) -> Option<Moment>
    ensures { result ≡ with_row crashed kind row.now moment }
{
    let told = told_at(kind, row);
    if crashed {
        moment.or(told)
    } else if is_view(row) {
        told
    } else {
        moment
    }
}

/// The moment of a row, where it is of this kind.
fn told_at(kind: What, row: &Row) -> Option<Moment>
    ensures { result ≡ told_at kind row.now }
{
    if row.what == kind { Some(row.at) } else { None }
}

/// Whether a row reports what its member holds from now on.
fn is_view(row: &Row) -> bool
    ensures { result ≡ is_view row.now }
{
    row.what == What::Alive || row.what == What::Suspect || row.what == What::Confirm
}
