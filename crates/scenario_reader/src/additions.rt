//! What versions 2 and 3 add to the rules on the values of a text: leaves, cuts and pauses. And where what version 4 adds
//! stands.
ghost use Rattle.std.specs.Prelude.{◌≡◌, ◌≢◌, ◌||◌, ℕ, true, false, is_some, nat_eq, map, option_map, IfOk, OnOk, IfErr};
ghost use Rattle.std.specs.List.{list_any};
ghost use Rattle.toml.specs.View.{view};
ghost use Rattle.scenario_reader.specs.Reading.{version_of, version_numbered, added_items, pause_items, fourth_items, fourth_table, member_at, plain_groups, crashes_in, leaves_in, pauses_in, setup_of_tree};
ghost use Rattle.scenario_reader.specs.Rules.{breaks_added_references, breaks_departures, breaks_pauses, breaks_added_times};
ghost use Rattle.scenario_reader.specs.Times.{is_cut_over_in};

use crate::pairs::{check_crashes, check_spans, member};
use crate::references::{first_lost_path, first_stranger};
use crate::refusal::Refusal;
use crate::roster::Roster;
use crate::times::{first_early, first_over};
use base::Memory;
use indexmap::IndexSet;
use schema::{FormatKey, Section, Version, items_at, number, whole_or};
use std::alloc::Global;
use toml::Value;

/// The version of a document's format: 2, 3 or 4 where it says so, else 1.
#[tactic(auto, unfolding(crate::specs::Reading::version_of))]
pub fn version_of(tree: &Value) -> Version
    ensures { result ≡ version_of (view tree.now) }
{
    version_numbered(whole_or(0, tree.get(FormatKey::Version.text())))
}

/// The version of that number, 2 to 4, else version 1.
fn version_numbered(number: u64) -> Version
    ensures { result ≡ version_numbered number }
{
    if number == 2 {
        Version::Two
    } else if number == 3 {
        Version::Three
    } else if number == 4 {
        Version::Four
    } else {
        Version::One
    }
}

/// The items of a list that version 2 adds.
pub(crate) fn added_items(version: Version, key: FormatKey, tree: &Value) -> &[Value]
    ensures { map view result.now ≡ added_items version key (view tree.now) }
{
    match version {
        Version::One => &[],
        Version::Two | Version::Three | Version::Four => items_at(key, tree),
    }
}

/// The pauses, which version 3 adds.
pub(crate) fn pause_items(version: Version, tree: &Value) -> &[Value]
    ensures { map view result.now ≡ pause_items version (view tree.now) }
{
    match version {
        Version::One | Version::Two => &[],
        Version::Three | Version::Four => items_at(FormatKey::Pause, tree),
    }
}

/// The items of a list that version 4 adds.
pub(crate) fn fourth_items(version: Version, key: FormatKey, tree: &Value) -> &[Value]
    ensures { map view result.now ≡ fourth_items version key (view tree.now) }
{
    match version {
        Version::One | Version::Two | Version::Three => &[],
        Version::Four => items_at(key, tree),
    }
}

/// A table that version 4 adds, or that has more keys in it.
pub(crate) fn fourth_table(version: Version, key: FormatKey, tree: &Value) -> Option<&Value>
    ensures { option_map (λ v. view v.now) result ≡ fourth_table version key (view tree.now) }
{
    match version {
        Version::One | Version::Two | Version::Three => None,
        Version::Four => tree.get(key.text()),
    }
}

/// Refuses a leave, a cut or a pause that names no member or no group.
pub(crate) fn check_added_references(
    version: Version,
    roster: &Roster,
    tree: &Value,
) -> Result<(), Refusal>
    ensures ok { OnOk result (breaks_added_references version (view tree.now) roster.now ≡ false) }
    ensures err { IfErr result (λ r. (r.rule ≡ 7) × (breaks_added_references version (view tree.now) roster.now ≡ true)) }
{
    if let Some(i) = first_stranger(roster, added_items(version, FormatKey::Leave, tree)) {
        return Err(Refusal::in_item(7, i));
    }
    if let Some(i) = first_lost_path(roster, added_items(version, FormatKey::Cut, tree)) {
        return Err(Refusal::in_item(7, i));
    }
    match first_stranger(roster, pause_items(version, tree)) {
        Some(i) => Err(Refusal::in_item(7, i)),
        None => Ok(()),
    }
}

/// Refuses two leaves of one member, and a leave of a member that crashes.
pub(crate) fn check_departures(
    alloc: Global,
    version: Version,
    roster: &Roster,
    tree: &Value,
) -> Result<(), Refusal>
    ensures ok { OnOk result (breaks_departures (crashes_in roster.now (view tree.now)) (leaves_in version roster.now (view tree.now)) ≡ false) }
    ensures err { IfErr result (λ r. r.rule ≢ 11 → (r.rule ≡ 8) × (breaks_departures (crashes_in roster.now (view tree.now)) (leaves_in version roster.now (view tree.now)) ≡ true)) }
{
    let leaves = added_items(version, FormatKey::Leave, tree);
    if let Err(refusal) = check_crashes(alloc, roster, leaves) {
        return Err(refusal);
    }
    let Ok(crashing) = list_members(alloc, roster, items_at(FormatKey::Crash, tree)) else {
        return Err(Refusal::memory());
    };
    match first_among(&crashing, roster, leaves) {
        Some(i) => Err(Refusal::in_item(8, i)),
        None => Ok(()),
    }
}

/// The members of which the items of a list speak.
fn list_members(alloc: Global, roster: &Roster, list: &[Value]) -> Result<IndexSet<u128>, Memory>
    ensures { IfOk result (λ members. (k : ℕ) → list_any (nat_eq k) members.keys ≡ list_any (λ n. nat_eq n k) (map (λ v. member_at roster.now FormatKey.Member (view v)) list.now)) }
{
    let mut members = IndexSet::new(alloc);
    for item in list {
        match members.insert(member(roster, item)) {
            Ok(_) => {}
            Err(_) => return Err(Memory),
        }
    }
    Ok(members)
}

/// The index of the first item that speaks of one of these members.
fn first_among(members: &IndexSet<u128>, roster: &Roster, list: &[Value]) -> Option<usize>
    ensures { is_some result ≡ list_any (λ v. list_any (nat_eq (member_at roster.now FormatKey.Member (view v))) members.now.keys) list.now }
{
    for (i, item) in list.iter().enumerate() {
        if is_among(members, member(roster, item)) {
            return Some(i);
        }
    }
    None
}

/// Whether a member is one of these.
fn is_among(members: &IndexSet<u128>, member: u128) -> bool
    ensures { result ≡ list_any (nat_eq member) members.now.keys }
{
    members.contains(&member)
}

/// Refuses two pauses of one member that overlap.
pub(crate) fn check_pauses(
    alloc: Global,
    version: Version,
    roster: &Roster,
    tree: &Value,
) -> Result<(), Refusal>
    ensures ok { OnOk result (breaks_pauses (pauses_in version roster.now (view tree.now)) ≡ false) }
    ensures err { IfErr result (λ r. r.rule ≢ 11 → (r.rule ≡ 8) × (breaks_pauses (pauses_in version roster.now (view tree.now)) ≡ true)) }
{
    check_spans(alloc, Section::Pause, roster, pause_items(version, tree))
}

/// Refuses a leave that isn't after its member's start, and a cut or a pause that is over when it begins.
pub(crate) fn check_added_times(
    version: Version,
    roster: &Roster,
    tree: &Value,
) -> Result<(), Refusal>
    requires groups { roster.now ≡ plain_groups (view tree.now) }
    requires version { version ≡ version_of (view tree.now) }
    requires known { breaks_added_references version (view tree.now) roster.now ≡ false }
    ensures ok { OnOk result (breaks_added_times (setup_of_tree (view tree.now)) ≡ false) }
    ensures err { IfErr result (λ r. (r.rule ≡ 9) × (breaks_added_times (setup_of_tree (view tree.now)) ≡ true)) }
{
    if let Some(i) = first_early(roster, added_items(version, FormatKey::Leave, tree)) {
        return Err(Refusal::in_item(9, i));
    }
    if let Some(i) = first_cut_over(added_items(version, FormatKey::Cut, tree)) {
        return Err(Refusal::in_item(9, i));
    }
    match first_over(Section::Pause, pause_items(version, tree)) {
        Some(i) => Err(Refusal::in_item(9, i)),
        None => Ok(()),
    }
}

/// The index of the first cut that is over when it begins.
fn first_cut_over(list: &[Value]) -> Option<usize>
    ensures { is_some result ≡ list_any (λ v. is_cut_over_in (view v)) list.now }
{
    for (i, item) in list.iter().enumerate() {
        if is_cut_over(item) {
            return Some(i);
        }
    }
    None
}

/// Whether a cut is over when it begins.
fn is_cut_over(cut: &Value) -> bool
    ensures { result ≡ is_cut_over_in (view cut.now) }
{
    number(Section::Cut, FormatKey::Until, Some(cut))
        <= number(Section::Cut, FormatKey::At, Some(cut))
}
