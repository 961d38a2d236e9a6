//! Rule 8: members that go twice, and slow times, or pauses, of one member that overlap.
use crate::cause::{Cause, DepartureKind};
use crate::members::{Named, Roster, Seat};
use crate::walk::Walk;
use base::Memory;
use schema::{FormatKey, Section, Version};
use toml_places::Span;

/// A crash or a leave of a member.
#[derive(Clone, Copy)]
struct Gone {
    seat: Seat,
    departure: DepartureKind,
    /// Where its member is named.
    span: Span,
}

/// A time in which a member is slow, or paused.
#[derive(Clone, Copy)]
struct Stretch {
    seat: Seat,
    from: u64,
    until: u64,
    /// Where its member is named.
    span: Span,
}

/// Judges crashes, leaves, slow times and pauses by pairs. In version 4 members may go several times, and their times may
/// overlap.
pub(crate) fn judge_departures(walk: &mut Walk<'_>, roster: &Roster) -> Result<(), Memory> {
    if walk.version == Version::Four {
        return Ok(());
    }
    judge_gone(walk, roster)?;
    judge_stretches(walk, roster, Section::Slow, FormatKey::Slow)?;
    if walk.version == Version::Three {
        judge_stretches(walk, roster, Section::Pause, FormatKey::Pause)?;
    }
    Ok(())
}

/// Judges that no member goes twice.
fn judge_gone(walk: &mut Walk<'_>, roster: &Roster) -> Result<(), Memory> {
    let mut list = Vec::new(walk.alloc);
    add_all_gone(
        walk,
        roster,
        DepartureKind::Crash,
        walk.items(FormatKey::Crash),
        &mut list,
    )?;
    add_all_gone(
        walk,
        roster,
        DepartureKind::Leave,
        walk.added_items(FormatKey::Leave),
        &mut list,
    )?;
    list.sort_by_key(|gone| (gone.seat.group, gone.seat.index, gone.span.start))?;
    tell_gone(walk, list.as_slice())
}

/// Reports the members that go twice in a list by members and places.
fn tell_gone(walk: &mut Walk<'_>, list: &[Gone]) -> Result<(), Memory> {
    let mut before: Option<Gone> = None;
    for gone in list {
        if let Some(first) = before
            && is_same(first.seat, gone.seat)
        {
            let cause = Cause::GoneTwice {
                now: gone.departure,
                before: first.departure,
                other: first.span,
            };
            walk.add(8, cause, gone.span)?;
        } else {
            before = Some(*gone);
        }
    }
    Ok(())
}

/// Adds the crashes or the leaves of items, where their members are known.
fn add_all_gone(
    walk: &Walk<'_>,
    roster: &Roster,
    departure: DepartureKind,
    items: &[usize],
    list: &mut Vec<Gone>,
) -> Result<(), Memory> {
    for item in items {
        add_gone(walk, roster, *item, departure, list)?;
    }
    Ok(())
}

/// Adds the crash or the leave of an item, where its member is known.
fn add_gone(
    walk: &Walk<'_>,
    roster: &Roster,
    item: usize,
    departure: DepartureKind,
    list: &mut Vec<Gone>,
) -> Result<(), Memory> {
    if let Some((name, place)) = walk.text(item, FormatKey::Member)
        && let Named::Member(seat) = roster.find(name)
    {
        list.push(Gone {
            seat,
            departure,
            span: walk.places.value(place),
        })?;
    }
    Ok(())
}

/// Whether two seats are those of one member.
fn is_same(a: Seat, b: Seat) -> bool {
    a.group == b.group && a.index == b.index
}

/// Judges that of the items of a list no two of one member overlap.
fn judge_stretches(
    walk: &mut Walk<'_>,
    roster: &Roster,
    section: Section,
    key: FormatKey,
) -> Result<(), Memory> {
    let mut list = Vec::new(walk.alloc);
    for item in walk.items(key) {
        add_stretch(walk, roster, section, *item, &mut list)?;
    }
    list.sort_by_key(|stretch| (stretch.seat.group, stretch.seat.index, stretch.from))?;
    tell_overlaps(walk, key, list.as_slice())
}

/// Reports the items that overlap in a list by members and beginnings: each is compared with the one that
/// lasts longest of those before it.
fn tell_overlaps(walk: &mut Walk<'_>, key: FormatKey, list: &[Stretch]) -> Result<(), Memory> {
    let mut longest: Option<Stretch> = None;
    for stretch in list {
        if let Some(before) = longest
            && is_same(before.seat, stretch.seat)
        {
            if before.from < stretch.until && stretch.from < before.until {
                tell_overlap(walk, key, before.span, stretch.span)?;
            }
            if before.until < stretch.until {
                longest = Some(*stretch);
            }
        } else {
            longest = Some(*stretch);
        }
    }
    Ok(())
}

/// Reports two items of a list that overlap, at the later one in the text.
fn tell_overlap(walk: &mut Walk<'_>, key: FormatKey, a: Span, b: Span) -> Result<(), Memory> {
    if a.start < b.start {
        walk.add(8, Cause::Overlap { key, other: a }, b)
    } else {
        walk.add(8, Cause::Overlap { key, other: b }, a)
    }
}

/// Adds the time of an item, where all of it is known.
fn add_stretch(
    walk: &Walk<'_>,
    roster: &Roster,
    section: Section,
    item: usize,
    list: &mut Vec<Stretch>,
) -> Result<(), Memory> {
    if let Some((name, place)) = walk.text(item, FormatKey::Member)
        && let Named::Member(seat) = roster.find(name)
        && let Some(from) = walk.number(section, item, FormatKey::From)
        && let Some(until) = walk.number(section, item, FormatKey::Until)
    {
        list.push(Stretch {
            seat,
            from,
            until,
            span: walk.places.value(place),
        })?;
    }
    Ok(())
}
