//! A member's departure, as long as it is away.
ghost use Rattle.std.specs.Prelude.{◌≡◌, ◌<◌, ◌^◌, ◌&&◌, ◌++◌, ◌∷◌, [], not, map, All, OnOk, IfOk};
ghost use Rattle.std.specs.List.{list_any};
ghost use Rattle.incidents.specs.Lives.{restarts};
ghost use Rattle.reports.specs.Away.{absence_with, absence_at, keeps_away, is_about_away};

use crate::departure::{DepartureReport, departure_at};
use base::{MemberId, Memory};
use std::alloc::{AllocError, Global};
use trace::{Row, What};
use trace_rows::has_kind;

/// A crash or a leave, and whether its member has started again since.
#[derive(Clone, Copy)]
pub(crate) struct Absence {
    /// What was told of it while the member was away.
    pub(crate) told: DepartureReport,
    /// Whether the member has started again.
    pub(crate) is_over: bool,
}

impl Absence {
    /// Takes in what one row more tells of it.
    fn see(&mut self, row: &Row)
        requires { self.old.told.detection.confirmers < 2 ^ 63 }
        ensures { self.new ≡ absence_with row.now self.old }
    {
        if self.is_over {
            return;
        }
        if restarts(row, self.told.member) {
            self.is_over = true;
            return;
        }
        self.told.see(row);
    }

    /// Whether it is a member's, and goes on.
    fn keeps_away(&self, member: MemberId) -> bool
        ensures { result ≡ keeps_away member self.now }
    {
        self.told.member == member && !self.is_over
    }
}

/// Whether a row starts a member again.
fn restarts(row: &Row, member: MemberId) -> bool
    ensures { result ≡ restarts member row.now }
{
    row.member == member && has_kind(row, What::Restart)
}

/// Adds the departure that a row reports.
pub(crate) fn add_absence(absences: &mut Vec<Absence>, row: &Row) -> Result<(), Memory>
    ensures { OnOk result (absences.new.items ≡ absences.old.items ++ absence_at row.now ∷ []) }
{
    let told = departure_at(row);
    absences.push(Absence {
        told,
        is_over: false,
    })?;
    Ok(())
}

/// Takes in what one row more tells of each.
pub(crate) fn see_each(absences: &mut [Absence], row: &Row)
    requires { All (λ absence. absence.told.detection.confirmers < 2 ^ 63) absences.old }
    ensures { absences.new ≡ map (absence_with row.now) absences.old }
{
    for absence in absences.iter_mut() {
        absence.see(row);
    }
}

/// Whether a row is about a member that is away.
pub(crate) fn is_about_away(row: &Row, absences: &[Absence]) -> bool
    ensures { result ≡ is_about_away absences.now row.now }
{
    match row.about {
        Some(about) => is_away(about, absences),
        None => false,
    }
}

fn is_away(member: MemberId, absences: &[Absence]) -> bool
    ensures { result ≡ list_any (keeps_away member) absences.now }
{
    absences.iter().any(|absence| absence.keeps_away(member))
}

/// What was told of each.
pub(crate) fn told_of(
    alloc: Global,
    absences: &[Absence],
) -> Result<Vec<DepartureReport>, AllocError>
    ensures { IfOk result (λ told. told.items ≡ map (λ absence. absence.told) absences.now) }
{
    absences.iter().map(|absence| absence.told).collect(alloc)
}
