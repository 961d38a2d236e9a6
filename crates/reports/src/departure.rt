//! The members that depart in a trace: they crash or leave.
ghost use Rattle.std.specs.Prelude.{◌≡◌, ◌+◌, ◌<◌, ◌==◌, ◌^◌, ◌++◌, ◌∷◌, Some, None, [], map, All, OnOk, OnErr};
ghost use Rattle.std.specs.Option.{option_or};
ghost use Rattle.std.specs.List.{list_any};
ghost use Rattle.reports.specs.Departures.{latency_of};
ghost use Rattle.reports.specs.Failures.{detection_with, departure_with, departure_at, is_about_departed};

use base::{MemberId, Memory, Moment};
use trace::{Row, What};
use trace_rows::is_about;

/// What the rows after a member's departure report of it.
#[derive(Clone, Copy)]
pub struct Detection {
    /// When the member was first suspected.
    pub suspect: Option<Moment>,
    /// When it was first confirmed to have failed.
    pub confirm: Option<Moment>,
    /// When it was last confirmed to have failed.
    pub last: Option<Moment>,
    /// How often it was confirmed to have failed.
    pub confirmers: u64,
}

impl Detection {
    /// Takes in what one row more reports of the member.
    fn see(&mut self, row: &Row, member: MemberId)
        requires { self.old.confirmers < 2 ^ 63 }
        ensures { self.new ≡ detection_with member row.now self.old }
    {
        if !is_about(row, member) {
            return;
        }
        match row.what {
            What::Suspect => self.suspect_at(row.at),
            What::Confirm => self.confirm_at(row.at),
            _ => {}
        }
    }

    fn suspect_at(&mut self, at: Moment)
        ensures { self.new ≡ record self.old { suspect = option_or self.old.suspect (Some at) } }
    {
        self.suspect = self.suspect.or(Some(at));
    }

    fn confirm_at(&mut self, at: Moment)
        requires { self.old.confirmers < 2 ^ 63 }
        ensures { self.new ≡ record self.old {
          confirm = option_or self.old.confirm (Some at);
          last = Some at;
          confirmers = self.old.confirmers + 1;
        } }
    {
        self.confirm = self.confirm.or(Some(at));
        self.last = Some(at);
        self.confirmers += 1;
    }
}

/// A crash or a leave, and how it was detected.
#[derive(Clone, Copy)]
pub struct DepartureReport {
    /// Who departed.
    pub member: MemberId,
    /// When it departed.
    pub at: Moment,
    /// What later rows report of it.
    pub detection: Detection,
}

impl DepartureReport {
    /// Takes in what one row more reports of the departure.
    pub(crate) fn see(&mut self, row: &Row)
        requires { self.old.detection.confirmers < 2 ^ 63 }
        ensures { self.new ≡ departure_with row.now self.old }
    {
        self.detection.see(row, self.member);
    }

    /// How many ticks it took until a first member confirmed the departure, where one did.
    pub fn latency(&self) -> Option<u64>
        ensures { result ≡ latency_of self.now }
    {
        let confirm = self.detection.confirm?;
        Some(confirm.ticks().saturating_sub(self.at.ticks()))
    }
}

/// Adds the departure that a row reports. Only later rows report how it was detected.
pub(crate) fn add_departure(departures: &mut Vec<DepartureReport>, row: &Row) -> Result<(), Memory>
    ensures ok { OnOk result (departures.new.items ≡ departures.old.items ++ departure_at row.now ∷ []) }
    ensures err { OnErr result (departures.new.items ≡ departures.old.items) }
{
    let detection = Detection {
        suspect: None,
        confirm: None,
        last: None,
        confirmers: 0,
    };
    departures.push(DepartureReport {
        member: row.member,
        at: row.at,
        detection,
    })?;
    Ok(())
}

/// No moment yet.
fn never() -> Option<Moment>
    ensures { result ≡ None }
{
    None
}

/// The departure that a row reports, before any other row reports of it.
pub(crate) fn departure_at(row: &Row) -> DepartureReport
    ensures { result ≡ departure_at row.now }
{
    let detection = Detection {
        suspect: never(),
        confirm: never(),
        last: never(),
        confirmers: 0,
    };
    DepartureReport {
        member: row.member,
        at: row.at,
        detection,
    }
}

/// Takes in what one row more reports of each departure.
pub(crate) fn see_each(departures: &mut [DepartureReport], row: &Row)
    requires { All (λ departure. departure.detection.confirmers < 2 ^ 63) departures.old }
    ensures { departures.new ≡ map (departure_with row.now) departures.old }
{
    for departure in departures.iter_mut() {
        departure.see(row);
    }
}

/// Whether a row is about a member that departed.
pub(crate) fn is_about_departed(row: &Row, departures: &[DepartureReport]) -> bool
    ensures { result ≡ is_about_departed departures.now row.now }
{
    match row.about {
        Some(about) => has_departed(about, departures),
        None => false,
    }
}

fn has_departed(member: MemberId, departures: &[DepartureReport]) -> bool
    ensures { result ≡ list_any (λ departure. departure.member == member) departures.now }
{
    departures
        .iter()
        .any(|departure| departure.member == member)
}
