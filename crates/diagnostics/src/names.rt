//! Rules 6 and 7: the names of groups, and the names that name a member or a group.
use crate::cause::{Cause, ValueKind};
use crate::entries::judge_scripts;
use crate::members::{Known, Named, Roster};
use crate::walk::{Walk, found_at};
use base::Memory;
use schema::{FormatKey, Section, Version};
use toml_places::{Places, Span};

/// Judges all names. What comes out are the groups.
pub(crate) fn judge_names(walk: &mut Walk<'_>) -> Result<Roster, Memory> {
    let roster = read_groups(walk)?;
    judge_contacts(walk, &roster)?;
    if walk.version == Version::Four {
        judge_scripts(walk, &roster)?;
    } else {
        judge_each_member(walk, &roster)?;
    }
    judge_ends(walk, &roster, walk.items(FormatKey::Path))?;
    judge_ends(walk, &roster, walk.added_items(FormatKey::Cut))?;
    Ok(roster)
}

/// The groups, whose names are judged.
fn read_groups(walk: &mut Walk<'_>) -> Result<Roster, Memory> {
    let items = walk.items(FormatKey::Group);
    let mut roster = Roster::new(walk.alloc, !items.is_empty());
    for item in items {
        read_group(walk, &mut roster, *item)?;
    }
    Ok(roster)
}

/// Adds a group, and judges its name.
fn read_group(walk: &mut Walk<'_>, roster: &mut Roster, item: usize) -> Result<(), Memory> {
    let Some((name, place)) = walk.text(item, FormatKey::Name) else {
        roster.is_complete = false;
        return Ok(());
    };
    let group = known_at(walk, item, place);
    judge_form(walk, name, group.name)?;
    match roster.add(walk.alloc, name, group)? {
        Some(other) => walk.add(6, Cause::RepeatedName { other }, group.name),
        None => Ok(()),
    }
}

/// What is known of a group whose name stands at a place.
fn known_at(walk: &Walk<'_>, item: usize, place: usize) -> Known {
    Known {
        count: walk.number(Section::Group, item, FormatKey::Count),
        start: walk.number(Section::Group, item, FormatKey::Start),
        name: walk.places.value(place),
    }
}

/// Judges the form of a group's name.
fn judge_form(walk: &mut Walk<'_>, name: &str, span: Span) -> Result<(), Memory> {
    if is_name_of(walk.version, name.as_bytes()) {
        Ok(())
    } else {
        walk.add(6, Cause::BadName, span)
    }
}

/// Whether a group's name has the form that it has in the version.
fn is_name_of(version: Version, name: &[u8]) -> bool {
    match version {
        Version::One | Version::Two | Version::Three => is_group_name(name),
        Version::Four => is_wide_name(name),
    }
}

/// Whether a name is 1 to 32 letters, digits, `-` and `_`, the first a letter and the last not `-`.
pub(crate) fn is_wide_name(name: &[u8]) -> bool {
    match (name.first(), name.last()) {
        (Some(first), Some(last)) => {
            first.is_ascii_alphabetic()
                && *last != b'-'
                && name.len() <= 32
                && name.iter().all(|byte| is_wide_byte(*byte))
        }
        _ => false,
    }
}

/// Whether a byte is a letter, a digit, `-` or `_`.
fn is_wide_byte(byte: u8) -> bool {
    byte.is_ascii_alphanumeric() || byte == b'-' || byte == b'_'
}

/// Whether a name is 1 to 16 bytes of `a` to `z` and `0` to `9`, the first a letter.
fn is_group_name(name: &[u8]) -> bool {
    match name.first() {
        Some(first) => {
            first.is_ascii_lowercase()
                && name.len() <= 16
                && name
                    .iter()
                    .all(|byte| byte.is_ascii_lowercase() || byte.is_ascii_digit())
        }
        None => false,
    }
}

/// Judges the contacts of groups.
fn judge_contacts(walk: &mut Walk<'_>, roster: &Roster) -> Result<(), Memory> {
    for item in walk.items(FormatKey::Group) {
        judge_member(walk, roster, *item, FormatKey::Contact)?;
    }
    Ok(())
}

/// Judges whom the entries of lists name before version 4.
fn judge_each_member(walk: &mut Walk<'_>, roster: &Roster) -> Result<(), Memory> {
    judge_members(walk, roster, walk.items(FormatKey::Slow))?;
    judge_members(walk, roster, walk.items(FormatKey::Crash))?;
    judge_members(walk, roster, walk.added_items(FormatKey::Leave))?;
    judge_members(walk, roster, walk.pauses())
}

/// Judges the members of slow times, crashes, leaves or pauses.
fn judge_members(walk: &mut Walk<'_>, roster: &Roster, items: &[usize]) -> Result<(), Memory> {
    for item in items {
        judge_member(walk, roster, *item, FormatKey::Member)?;
    }
    Ok(())
}

/// Judges whether a key names a member.
fn judge_member(
    walk: &mut Walk<'_>,
    roster: &Roster,
    item: usize,
    key: FormatKey,
) -> Result<(), Memory> {
    match walk.text(item, key) {
        Some((name, place)) => match roster.find(name) {
            Named::Nobody => walk.add(7, Cause::NoMember, walk.places.value(place)),
            Named::Member(_) | Named::Hidden => Ok(()),
        },
        None => Ok(()),
    }
}

/// Judges the groups of paths or cuts.
fn judge_ends(walk: &mut Walk<'_>, roster: &Roster, items: &[usize]) -> Result<(), Memory> {
    for item in items {
        judge_group(walk, roster, *item, FormatKey::From)?;
        judge_group(walk, roster, *item, FormatKey::To)?;
    }
    Ok(())
}

/// Judges whether a key names a group.
fn judge_group(
    walk: &mut Walk<'_>,
    roster: &Roster,
    item: usize,
    key: FormatKey,
) -> Result<(), Memory> {
    match walk.text(item, key) {
        Some((name, place)) if roster.lacks(name) => {
            walk.add(7, Cause::NoGroup, walk.places.value(place))
        }
        _ => Ok(()),
    }
}
