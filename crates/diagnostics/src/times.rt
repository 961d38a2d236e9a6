//! Rule 9: each moment comes after that before which it may not be.
use crate::cause::{Cause, DepartureKind};
use crate::members::{Named, Roster};
use crate::walk::Walk;
use base::Memory;
use schema::{FormatKey, Section};
use toml_places::Places;

/// Judges the moments and lengths of time of a text.
pub(crate) fn judge_times(walk: &mut Walk<'_>, roster: &Roster) -> Result<(), Memory> {
    judge_timeout(walk)?;
    judge_contacts(walk, roster)?;
    judge_ends(
        walk,
        Section::Slow,
        FormatKey::From,
        walk.items(FormatKey::Slow),
    )?;
    judge_ends(
        walk,
        Section::Cut,
        FormatKey::At,
        walk.added_items(FormatKey::Cut),
    )?;
    judge_ends(walk, Section::Pause, FormatKey::From, walk.pauses())?;
    judge_ends(
        walk,
        Section::Pause,
        FormatKey::From,
        walk.fourth_items(FormatKey::Block),
    )?;
    judge_departures(
        walk,
        roster,
        DepartureKind::Crash,
        walk.items(FormatKey::Crash),
    )?;
    judge_departures(
        walk,
        roster,
        DepartureKind::Leave,
        walk.added_items(FormatKey::Leave),
    )?;
    judge_fourth(walk, roster)
}

/// Judges the moments of restarts, and the times in which members go again and again.
fn judge_fourth(walk: &mut Walk<'_>, roster: &Roster) -> Result<(), Memory> {
    judge_departures(
        walk,
        roster,
        DepartureKind::Restart,
        walk.fourth_items(FormatKey::Restart),
    )?;
    let crashes = walk.fourth_items(FormatKey::Crash);
    judge_ends(walk, Section::Pause, FormatKey::From, crashes)?;
    let leaves = walk.fourth_items(FormatKey::Leave);
    judge_ends(walk, Section::Pause, FormatKey::From, leaves)
}

/// Judges the contacts of groups.
fn judge_contacts(walk: &mut Walk<'_>, roster: &Roster) -> Result<(), Memory> {
    for item in walk.items(FormatKey::Group) {
        judge_contact(walk, roster, *item)?;
    }
    Ok(())
}

/// Judges that none of these times is over when it begins.
fn judge_ends(
    walk: &mut Walk<'_>,
    section: Section,
    key: FormatKey,
    items: &[usize],
) -> Result<(), Memory> {
    for item in items {
        judge_end(walk, section, key, *item)?;
    }
    Ok(())
}

/// Judges that each of these members goes, or comes again, after its start.
fn judge_departures(
    walk: &mut Walk<'_>,
    roster: &Roster,
    departure: DepartureKind,
    items: &[usize],
) -> Result<(), Memory> {
    for item in items {
        judge_departure(walk, roster, departure, *item)?;
    }
    Ok(())
}

/// Judges that the timeout is below the period.
fn judge_timeout(walk: &mut Walk<'_>) -> Result<(), Memory> {
    let Some(table) = walk.places.child(Places::TOP, FormatKey::Swim.text()) else {
        return Ok(());
    };
    if let Some(timeout) = walk.number(Section::Swim, table, FormatKey::Timeout)
        && let Some(period) = walk.number(Section::Swim, table, FormatKey::Period)
        && timeout >= period
    {
        let cause = Cause::LongTimeout {
            timeout,
            period,
            other: walk.value_of(table, FormatKey::Period),
        };
        walk.add(9, cause, walk.value_of(table, FormatKey::Timeout))?;
    }
    Ok(())
}

/// Judges the contact of a group, whomever it names.
fn judge_contact(walk: &mut Walk<'_>, roster: &Roster, group: usize) -> Result<(), Memory> {
    let Some((name, place)) = walk.text(group, FormatKey::Contact) else {
        return Ok(());
    };
    let span = walk.places.value(place);
    if walk.number(Section::Group, group, FormatKey::Start) == Some(0) {
        return walk.add(9, Cause::NeedlessContact, span);
    }
    if let Named::Member(seat) = roster.find(name)
        && let Some(start) = seat.start
        && start > 0
    {
        walk.add(9, Cause::LateContact { start }, span)?;
    }
    Ok(())
}

/// Judges that a time isn't over when it begins.
fn judge_end(
    walk: &mut Walk<'_>,
    section: Section,
    key: FormatKey,
    item: usize,
) -> Result<(), Memory> {
    if let Some(begins) = walk.number(section, item, key)
        && let Some(until) = walk.number(section, item, FormatKey::Until)
        && until <= begins
    {
        let cause = Cause::EndsTooSoon { key, begins, until };
        walk.add(9, cause, walk.value_of(item, FormatKey::Until))?;
    }
    Ok(())
}

/// Judges that a member goes, or comes again, after its start.
fn judge_departure(
    walk: &mut Walk<'_>,
    roster: &Roster,
    departure: DepartureKind,
    item: usize,
) -> Result<(), Memory> {
    if let Some((name, _)) = walk.text(item, FormatKey::Member)
        && let Named::Member(seat) = roster.find(name)
        && let Some(start) = seat.start
        && let Some(at) = walk.number(Section::Departure, item, FormatKey::At)
        && at <= start
    {
        let cause = Cause::EarlyDeparture {
            departure,
            at,
            start,
        };
        walk.add(9, cause, walk.value_of(item, FormatKey::At))?;
    }
    Ok(())
}
