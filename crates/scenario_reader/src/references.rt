//! The names in a text: each names a member or a group.
ghost use Rattle.std.specs.Prelude.{◌≡◌, true, false, is_some, OnOk, IfErr};
ghost use Rattle.std.specs.List.{list_any};
ghost use Rattle.toml.specs.View.{view};
ghost use Rattle.scenario_reader.specs.Rules.{has_lost_contact, names_no_member, names_no_group, breaks_references, fourth_breaks_references};

use crate::refusal::Refusal;
use crate::roster::Roster;
use schema::{FormatKey, items_at, text, text_if};
use toml::Value;

/// Refuses a contact, a slow member, a crash or a path that names no member or no group.
pub(crate) fn check_references(roster: &Roster, tree: &Value) -> Result<(), Refusal>
    ensures ok { OnOk result (breaks_references (view tree.now) roster.now ≡ false) }
    ensures err { IfErr result (λ r. (r.rule ≡ 7) × (breaks_references (view tree.now) roster.now ≡ true)) }
{
    if let Some(i) = first_lost_contact(roster, items_at(FormatKey::Group, tree)) {
        return Err(Refusal::in_item(7, i));
    }
    if let Some(i) = first_stranger(roster, items_at(FormatKey::Slow, tree)) {
        return Err(Refusal::in_item(7, i));
    }
    if let Some(i) = first_stranger(roster, items_at(FormatKey::Crash, tree)) {
        return Err(Refusal::in_item(7, i));
    }
    match first_lost_path(roster, items_at(FormatKey::Path, tree)) {
        Some(i) => Err(Refusal::in_item(7, i)),
        None => Ok(()),
    }
}

/// Refuses a restart or a block that names no member, and a restart whose contact is no member.
pub(crate) fn check_fourth_references(roster: &Roster, tree: &Value) -> Result<(), Refusal>
    ensures ok { OnOk result (fourth_breaks_references (view tree.now) roster.now ≡ false) }
    ensures err { IfErr result (λ r. (r.rule ≡ 7) × (fourth_breaks_references (view tree.now) roster.now ≡ true)) }
{
    if let Some(i) = first_stranger(roster, items_at(FormatKey::Restart, tree)) {
        return Err(Refusal::in_item(7, i));
    }
    if let Some(i) = first_lost_contact(roster, items_at(FormatKey::Restart, tree)) {
        return Err(Refusal::in_item(7, i));
    }
    match first_stranger(roster, items_at(FormatKey::Block, tree)) {
        Some(i) => Err(Refusal::in_item(7, i)),
        None => Ok(()),
    }
}

/// The index of the first group or restart whose contact is no member.
fn first_lost_contact(roster: &Roster, list: &[Value]) -> Option<usize>
    ensures { is_some result ≡ list_any (λ v. has_lost_contact roster.now (view v)) list.now }
{
    for (i, item) in list.iter().enumerate() {
        if has_lost_contact(roster, item) {
            return Some(i);
        }
    }
    None
}

/// Whether a group or a restart has a contact that is no member.
fn has_lost_contact(roster: &Roster, group: &Value) -> bool
    ensures { result ≡ has_lost_contact roster.now (view group.now) }
{
    match text_if(FormatKey::Contact, group) {
        Some(name) => roster.find(name).is_none(),
        None => false,
    }
}

/// The index of the first slow time, crash, leave, restart, pause or block of nobody.
pub(crate) fn first_stranger(roster: &Roster, list: &[Value]) -> Option<usize>
    ensures { is_some result ≡ list_any (λ v. names_no_member roster.now (view v)) list.now }
{
    for (i, item) in list.iter().enumerate() {
        if names_no_member(roster, item) {
            return Some(i);
        }
    }
    None
}

/// Whether a slow time, a crash, a leave, a restart, a pause or a block is of nobody.
fn names_no_member(roster: &Roster, item: &Value) -> bool
    ensures { result ≡ names_no_member roster.now (view item.now) }
{
    roster.find(text(FormatKey::Member, item)).is_none()
}

/// The index of the first path or cut from or to a group that isn't there.
pub(crate) fn first_lost_path(roster: &Roster, list: &[Value]) -> Option<usize>
    ensures { is_some result ≡ list_any (λ v. names_no_group roster.now (view v)) list.now }
{
    for (i, item) in list.iter().enumerate() {
        if names_no_group(roster, item) {
            return Some(i);
        }
    }
    None
}

/// Whether a path or a cut is from or to a group that isn't there.
fn names_no_group(roster: &Roster, path: &Value) -> bool
    ensures { result ≡ names_no_group roster.now (view path.now) }
{
    roster.group(text(FormatKey::From, path)).is_none()
        || roster.group(text(FormatKey::To, path)).is_none()
}
