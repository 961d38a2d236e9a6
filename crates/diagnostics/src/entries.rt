//! Rules 6, 7 and 9 of entries on members, as version 4 writes them.
use crate::cause::Cause;
use crate::members::{Named, Roster};
use crate::names::is_wide_name;
use crate::walk::{Walk, items_of};
use crate::wanted::{is_departure, is_spell};
use crate::written::has;
use base::Memory;
use indexmap::IndexMap;
use schema::FormatKey;
use toml_places::{NodeContent, Span};

/// The lists of entries on members.
const LISTS: [FormatKey; 6] = [
    FormatKey::Crash,
    FormatKey::Leave,
    FormatKey::Restart,
    FormatKey::Slow,
    FormatKey::Pause,
    FormatKey::Block,
];

/// Judges whom entries name, how they are called, and which of their keys exclude each other.
pub(crate) fn judge_scripts(walk: &mut Walk<'_>, roster: &Roster) -> Result<(), Memory> {
    for list in &LISTS {
        judge_script(walk, roster, *list)?;
    }
    Ok(())
}

/// Judges the entries of a list.
fn judge_script(walk: &mut Walk<'_>, roster: &Roster, list: FormatKey) -> Result<(), Memory> {
    let mut names = IndexMap::new(walk.alloc);
    for item in walk.items(list) {
        judge_entry_name(walk, &mut names, *item)?;
        judge_who(walk, roster, *item)?;
        judge_exclusions(walk, list, *item)?;
        judge_most(walk, *item)?;
        judge_count(walk, roster, *item)?;
        judge_twice(walk, *item)?;
        judge_asked(walk, *item)?;
    }
    Ok(())
}

/// Judges the name of an entry: its form, and that no earlier one of the list has it.
fn judge_entry_name(
    walk: &mut Walk<'_>,
    names: &mut IndexMap<String, Span>,
    item: usize,
) -> Result<(), Memory> {
    let Some((name, place)) = walk.text(item, FormatKey::Name) else {
        return Ok(());
    };
    let span = walk.places.value(place);
    if !is_wide_name(name.as_bytes()) {
        return walk.add(6, Cause::BadName, span);
    }
    if let Some(other) = names.get(name).copied() {
        return walk.add(6, Cause::RepeatedEntry { other }, span);
    }
    let name = String::from_str(walk.alloc, name)?;
    names.insert(name, span)?;
    Ok(())
}

/// Judges whom an entry names: its group, its members, and whom they ask.
fn judge_who(walk: &mut Walk<'_>, roster: &Roster, item: usize) -> Result<(), Memory> {
    if let Some((name, place)) = walk.text(item, FormatKey::Group)
        && roster.lacks(name)
    {
        walk.add(7, Cause::NoGroup, walk.places.value(place))?;
    }
    judge_one(
        walk,
        roster,
        walk.places.child(item, FormatKey::Member.text()),
    )?;
    judge_one(
        walk,
        roster,
        walk.places.child(item, FormatKey::Contact.text()),
    )?;
    if let Some(list) = walk.places.child(item, "members") {
        for member in items_of(walk.places, list) {
            judge_one(walk, roster, Some(*member))?;
        }
    }
    Ok(())
}

/// Judges that the text at a place names a member.
fn judge_one(walk: &mut Walk<'_>, roster: &Roster, place: Option<usize>) -> Result<(), Memory> {
    let Some(place) = place else {
        return Ok(());
    };
    match walk.places.content(place) {
        Some(NodeContent::Text(name)) => match roster.find(name.as_str()) {
            Named::Nobody => walk.add(7, Cause::NoMember, walk.places.value(place)),
            Named::Member(_) | Named::Hidden => Ok(()),
        },
        _ => Ok(()),
    }
}

/// Judges which keys of an entry stand beside each other.
fn judge_exclusions(walk: &mut Walk<'_>, list: FormatKey, item: usize) -> Result<(), Memory> {
    judge_beside(walk, item, "members", "member")?;
    judge_beside(walk, item, "group", "member")?;
    judge_beside(walk, item, "group", "members")?;
    judge_without(walk, item, "count", "group")?;
    if is_spell(list) {
        judge_without(walk, item, "lasts", "every")?;
        return judge_without(walk, item, "lasts_most", "every");
    }
    judge_beside(walk, item, "each", "member")?;
    if is_departure(list) {
        judge_beside(walk, item, "each", "every")?;
        judge_beside(walk, item, "at", "every")?;
        judge_without(walk, item, "from", "every")?;
        judge_without(walk, item, "until", "every")?;
        judge_without(walk, item, "contact", "back")?;
    }
    Ok(())
}

/// Judges that a key doesn't stand beside another one.
fn judge_beside(
    walk: &mut Walk<'_>,
    item: usize,
    key: &'static str,
    other: &'static str,
) -> Result<(), Memory> {
    match walk.places.child(item, key) {
        Some(place) if has(walk, item, other) => {
            walk.add(9, Cause::BesideKey { key, other }, walk.places.key(place))
        }
        _ => Ok(()),
    }
}

/// Judges that a key doesn't stand without another one.
fn judge_without(
    walk: &mut Walk<'_>,
    item: usize,
    key: &'static str,
    other: &'static str,
) -> Result<(), Memory> {
    match walk.places.child(item, key) {
        Some(place) if !has(walk, item, other) => {
            walk.add(9, Cause::WithoutKey { key, other }, walk.places.key(place))
        }
        _ => Ok(()),
    }
}

/// Judges that no more members are to be chosen than a group has.
fn judge_count(walk: &mut Walk<'_>, roster: &Roster, item: usize) -> Result<(), Memory> {
    if let Some((name, _)) = walk.text(item, FormatKey::Group)
        && let Some(group) = roster.groups.get(name).copied()
        && let Some(members) = group.count
        && let Some(place) = walk.places.child(item, FormatKey::Count.text())
        && let Some(NodeContent::Whole(number)) = walk.places.content(place)
        && let Ok(count) = u64::try_from(*number)
        && members < count
    {
        let cause = Cause::CountOverGroup { count, members };
        walk.add(9, cause, walk.places.value(place))?;
    }
    Ok(())
}

/// Judges that no member is named twice.
fn judge_twice(walk: &mut Walk<'_>, item: usize) -> Result<(), Memory> {
    let Some(list) = walk.places.child(item, "members") else {
        return Ok(());
    };
    let mut seen = IndexMap::new(walk.alloc);
    for place in items_of(walk.places, list) {
        judge_seen(walk, &mut seen, *place)?;
    }
    Ok(())
}

/// Judges that a member's name isn't among those that were seen, and adds it.
fn judge_seen(
    walk: &mut Walk<'_>,
    seen: &mut IndexMap<String, Span>,
    place: usize,
) -> Result<(), Memory> {
    let Some(NodeContent::Text(name)) = walk.places.content(place) else {
        return Ok(());
    };
    let span = walk.places.value(place);
    if let Some(other) = seen.get(name.as_str()).copied() {
        return walk.add(9, Cause::NamedTwice { other }, span);
    }
    let name = String::from_str(walk.alloc, name.as_str())?;
    seen.insert(name, span)?;
    Ok(())
}

/// Judges that no member that is named by itself or in a list is to ask itself.
fn judge_asked(walk: &mut Walk<'_>, item: usize) -> Result<(), Memory> {
    let Some((contact, place)) = walk.text(item, FormatKey::Contact) else {
        return Ok(());
    };
    let alone = match walk.text(item, FormatKey::Member) {
        Some((member, _)) => member == contact,
        None => false,
    };
    if alone || is_listed(walk, item, contact) {
        return walk.add(9, Cause::AsksItself, walk.places.value(place));
    }
    Ok(())
}

/// Whether `members` has a name.
fn is_listed(walk: &Walk<'_>, item: usize, name: &str) -> bool {
    let Some(list) = walk.places.child(item, "members") else {
        return false;
    };
    for place in items_of(walk.places, list) {
        if let Some(NodeContent::Text(member)) = walk.places.content(*place)
            && member.as_str() == name
        {
            return true;
        }
    }
    false
}

/// Judges that a time doesn't last less at the most than at least.
fn judge_most(walk: &mut Walk<'_>, item: usize) -> Result<(), Memory> {
    if let Some(least) = walk.ticks(item, "lasts")
        && let Some(most) = walk.ticks(item, "lasts_most")
        && most < least
        && let Some(place) = walk.places.child(item, "lasts_most")
    {
        walk.add(
            9,
            Cause::LastsLess { least, most },
            walk.places.value(place),
        )?;
    }
    Ok(())
}
