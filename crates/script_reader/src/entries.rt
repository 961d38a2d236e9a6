//! The items of the six lists as entries.
ghost use Rattle.std.specs.Prelude.{◌≡◌, ◌≤◌, All, map, sum_by, IfOk};
ghost use Rattle.plain_entries.specs.Departures.{IsDepartureTime};
ghost use Rattle.plain_entries.specs.Entries.{IsEntry};
ghost use Rattle.plain_entries.specs.Restarts.{IsRestartTime};
ghost use Rattle.plain_entries.specs.Who.{IsWho};
ghost use Rattle.written_entries.specs.Ranges.{IsSpellRange};
ghost use Rattle.script_reader.specs.Entries.{count_of, count_said, departure_said, restart_said, said, spell_said, HasNumbers};
ghost use Rattle.script_reader.specs.Rules.{item_of};
ghost use Rattle.script_reader.specs.Who.{member_total, members_in};

use crate::item::WrittenItem;
use crate::times::{departure_of, restart_of, spell_of};
use crate::values::count_at;
use crate::who::members_in;
use base::Memory;
use plain_entries::{DepartureTime, Entry, RestartTime, SpellTime, Who};
use std::alloc::Global;
use written_names::{Roster, WrittenGroup};
use written_values::ValueFault;

/// The crashes, or leaves, of a list.
pub(crate) fn departures(
    alloc: Global,
    roster: &Roster,
    groups: &[WrittenGroup],
    items: &[WrittenItem],
) -> Result<Vec<Entry<DepartureTime>>, Memory>
    requires few { member_total groups.now ≤ 16384 }
    requires same { sum_by (λ g. g.count) roster.now ≡ member_total groups.now }
    requires numbers { All HasNumbers items.now }
    ensures said { IfOk result (λ made. map said made.items ≡ map (departure_said roster.now groups.now) items.now) }
    ensures sound { IfOk result (λ made. All (IsEntry IsDepartureTime (member_total groups.now)) made.items) }
{
    let mut made = Vec::new(alloc);
    for it in items {
        made.push(departure(alloc, roster, groups, it)?)?;
    }
    Ok(made)
}

/// One crash or leave.
fn departure(
    alloc: Global,
    roster: &Roster,
    groups: &[WrittenGroup],
    it: &WrittenItem,
) -> Result<Entry<DepartureTime>, Memory>
    requires few { member_total groups.now ≤ 16384 }
    requires same { sum_by (λ g. g.count) roster.now ≡ member_total groups.now }
    requires numbers { HasNumbers it.now }
    ensures said { IfOk result (λ made. said made ≡ departure_said roster.now groups.now it.now) }
    ensures sound { IfOk result (IsEntry IsDepartureTime (member_total groups.now)) }
{
    Ok(Entry {
        who: who(alloc, roster, groups, it)?,
        when: departure_of(roster, it),
    })
}

/// The text's own restarts.
pub(crate) fn restarts(
    alloc: Global,
    roster: &Roster,
    groups: &[WrittenGroup],
    items: &[WrittenItem],
) -> Result<Vec<Entry<RestartTime>>, Memory>
    requires few { member_total groups.now ≤ 16384 }
    requires same { sum_by (λ g. g.count) roster.now ≡ member_total groups.now }
    requires numbers { All HasNumbers items.now }
    ensures said { IfOk result (λ made. map said made.items ≡ map (restart_said roster.now groups.now) items.now) }
    ensures sound { IfOk result (λ made. All (IsEntry IsRestartTime (member_total groups.now)) made.items) }
{
    let mut made = Vec::new(alloc);
    for it in items {
        made.push(restart(alloc, roster, groups, it)?)?;
    }
    Ok(made)
}

/// One restart.
fn restart(
    alloc: Global,
    roster: &Roster,
    groups: &[WrittenGroup],
    it: &WrittenItem,
) -> Result<Entry<RestartTime>, Memory>
    requires few { member_total groups.now ≤ 16384 }
    requires same { sum_by (λ g. g.count) roster.now ≡ member_total groups.now }
    requires numbers { HasNumbers it.now }
    ensures said { IfOk result (λ made. said made ≡ restart_said roster.now groups.now it.now) }
    ensures sound { IfOk result (IsEntry IsRestartTime (member_total groups.now)) }
{
    Ok(Entry {
        who: who(alloc, roster, groups, it)?,
        when: restart_of(roster, it),
    })
}

/// The slow times, pauses or blocks of a list.
pub(crate) fn spells(
    alloc: Global,
    roster: &Roster,
    groups: &[WrittenGroup],
    items: &[WrittenItem],
) -> Result<Vec<Entry<SpellTime>>, Memory>
    requires few { member_total groups.now ≤ 16384 }
    requires same { sum_by (λ g. g.count) roster.now ≡ member_total groups.now }
    requires numbers { All HasNumbers items.now }
    ensures said { IfOk result (λ made. map said made.items ≡ map (spell_said roster.now groups.now) items.now) }
    ensures sound { IfOk result (λ made. All (IsEntry IsSpellRange (member_total groups.now)) made.items) }
{
    let mut made = Vec::new(alloc);
    for it in items {
        made.push(spell(alloc, roster, groups, it)?)?;
    }
    Ok(made)
}

/// One slow time, pause or block.
fn spell(
    alloc: Global,
    roster: &Roster,
    groups: &[WrittenGroup],
    it: &WrittenItem,
) -> Result<Entry<SpellTime>, Memory>
    requires few { member_total groups.now ≤ 16384 }
    requires same { sum_by (λ g. g.count) roster.now ≡ member_total groups.now }
    requires numbers { HasNumbers it.now }
    ensures said { IfOk result (λ made. said made ≡ spell_said roster.now groups.now it.now) }
    ensures sound { IfOk result (IsEntry IsSpellRange (member_total groups.now)) }
{
    Ok(Entry {
        who: who(alloc, roster, groups, it)?,
        when: spell_of(it.numbers),
    })
}

/// Whom an item is about.
fn who(
    alloc: Global,
    roster: &Roster,
    groups: &[WrittenGroup],
    it: &WrittenItem,
) -> Result<Who, Memory>
    requires few { member_total groups.now ≤ 16384 }
    requires same { sum_by (λ g. g.count) roster.now ≡ member_total groups.now }
    ensures members { IfOk result (λ made. made.members.items ≡ members_in roster.now groups.now (item_of it.now)) }
    ensures count { IfOk result (λ made. made.count ≡ count_of (item_of it.now)) }
    ensures known { IfOk result (IsWho (member_total groups.now)) }
{
    Ok(Who {
        members: members_in(alloc, roster, groups, it.item)?,
        count: count_said(count_at(it.item)),
    })
}

/// How many are chosen, if that is said.
fn count_said(reading: Option<Result<u64, ValueFault>>) -> Option<u64>
    ensures { result ≡ count_said reading }
{
    match reading {
        Some(Ok(count)) => Some(count),
        Some(Err(_)) => None,
        None => None,
    }
}
