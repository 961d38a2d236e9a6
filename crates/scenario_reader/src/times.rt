//! The moments of a text: each comes after that before which it may not be.
ghost use Rattle.std.specs.Prelude.{◌≡◌, true, false, is_some, nat_le, nat_eq, nat_lt, ◌||◌, option_map, option_and_then, OnOk, IfErr, IfSome};
ghost use Rattle.std.specs.List.{list_any};
ghost use Rattle.toml.specs.View.{view};
ghost use Rattle.schema.specs.Values.{text_if};
ghost use Rattle.scenario_reader.specs.Reading.{member_named, version_of, plain_groups, setup_of_tree};
ghost use Rattle.schema.specs.declared.schema.Version.TheVariants.{Four};
ghost use Rattle.scenario_reader.specs.Rules.{breaks_references, breaks_times, fourth_breaks_references, fourth_breaks_times};
ghost use Rattle.scenario_reader.specs.Roster.{start_in};
ghost use Rattle.scenario_reader.specs.Times.{asks_itself_in, is_bad_contact_in, is_early_in, is_early_restart_in, is_over_in};

use crate::pairs::member;
use crate::refusal::Refusal;
use crate::roster::{Found, Roster};
use crate::tables::read_swim;
use schema::{FormatKey, Section, items_at, number, text, text_if};
use toml::Value;

/// Refuses a timeout that isn't below the period, a contact of a group that starts at moment 0 or that
/// itself starts later, a slow time that is over when it begins, and a crash that isn't after its
/// member's start.
pub(crate) fn check_times(roster: &Roster, tree: &Value) -> Result<(), Refusal>
    requires groups { roster.now ≡ plain_groups (view tree.now) }
    requires known { breaks_references (view tree.now) roster.now ≡ false }
    ensures ok { OnOk result (breaks_times (setup_of_tree (view tree.now)) ≡ false) }
    ensures err { IfErr result (λ r. (r.rule ≡ 9) × (breaks_times (setup_of_tree (view tree.now)) ≡ true)) }
{
    let swim = read_swim(tree);
    if swim.timeout >= swim.period {
        return Err(Refusal { rule: 9, place: 0 });
    }
    if let Some(i) = first_bad_contact(roster, items_at(FormatKey::Group, tree)) {
        return Err(Refusal::in_item(9, i));
    }
    if let Some(i) = first_over(Section::Slow, items_at(FormatKey::Slow, tree)) {
        return Err(Refusal::in_item(9, i));
    }
    match first_early(roster, items_at(FormatKey::Crash, tree)) {
        Some(i) => Err(Refusal::in_item(9, i)),
        None => Ok(()),
    }
}

/// Refuses a restart that isn't after its member's start or whose contact is its member, and a block that is over when it
/// begins.
pub(crate) fn check_fourth_times(roster: &Roster, tree: &Value) -> Result<(), Refusal>
    requires groups { roster.now ≡ plain_groups (view tree.now) }
    requires version { version_of (view tree.now) ≡ Four }
    requires known { fourth_breaks_references (view tree.now) roster.now ≡ false }
    ensures ok { OnOk result (fourth_breaks_times (setup_of_tree (view tree.now)) ≡ false) }
    ensures err { IfErr result (λ r. (r.rule ≡ 9) × (fourth_breaks_times (setup_of_tree (view tree.now)) ≡ true)) }
{
    let restarts = items_at(FormatKey::Restart, tree);
    if let Some(i) = first_early_restart(roster, restarts) {
        return Err(Refusal::in_item(9, i));
    }
    if let Some(i) = first_asking_itself(roster, restarts) {
        return Err(Refusal::in_item(9, i));
    }
    match first_over(Section::Pause, items_at(FormatKey::Block, tree)) {
        Some(i) => Err(Refusal::in_item(9, i)),
        None => Ok(()),
    }
}

/// The index of the first restart that isn't after its member's start.
fn first_early_restart(roster: &Roster, list: &[Value]) -> Option<usize>
    ensures { is_some result ≡ list_any (λ v. is_early_restart_in roster.now (view v)) list.now }
{
    for (i, item) in list.iter().enumerate() {
        if is_early_restart(roster, item) {
            return Some(i);
        }
    }
    None
}

/// Whether a restart isn't after its member's start.
fn is_early_restart(roster: &Roster, item: &Value) -> bool
    ensures { result ≡ is_early_restart_in roster.now (view item.now) }
{
    match roster.find(text(FormatKey::Member, item)) {
        Some(found) => number(Section::Restart, FormatKey::At, Some(item)) <= found.start.ticks(),
        None => false,
    }
}

/// The index of the first restart whose contact is its member.
fn first_asking_itself(roster: &Roster, list: &[Value]) -> Option<usize>
    ensures { is_some result ≡ list_any (λ v. asks_itself_in roster.now (view v)) list.now }
{
    for (i, item) in list.iter().enumerate() {
        if asks_itself(roster, item) {
            return Some(i);
        }
    }
    None
}

/// Whether the contact of a restart is its member.
fn asks_itself(roster: &Roster, item: &Value) -> bool
    ensures { result ≡ asks_itself_in roster.now (view item.now) }
{
    match contact(roster, item) {
        Some(found) => found.number == member(roster, item),
        None => false,
    }
}

/// The index of the first group whose contact may not be.
fn first_bad_contact(roster: &Roster, list: &[Value]) -> Option<usize>
    ensures { is_some result ≡ list_any (λ v. is_bad_contact_in roster.now (view v)) list.now }
{
    for (i, item) in list.iter().enumerate() {
        if is_bad_contact(roster, item) {
            return Some(i);
        }
    }
    None
}

/// Whether a group that starts at moment 0 has a contact, or one whose contact starts later.
fn is_bad_contact(roster: &Roster, group: &Value) -> bool
    ensures { result ≡ is_bad_contact_in roster.now (view group.now) }
{
    let start = number(Section::Group, FormatKey::Start, Some(group));
    match contact(roster, group) {
        Some(found) => start == 0 || found.start.ticks() > 0,
        None => false,
    }
}

/// The contact of a group or of a restart.
fn contact(roster: &Roster, group: &Value) -> Option<Found>
    ensures number { option_map (λ f. f.number) result ≡ option_and_then (member_named roster.now) (text_if FormatKey.Contact (view group.now)) }
    ensures start { IfSome result (λ f. f.start ≡ start_in roster.now f.number) }
{
    match text_if(FormatKey::Contact, group) {
        Some(name) => roster.find(name),
        None => None,
    }
}

/// The index of the first slow time, pause or block that is over when it begins.
pub(crate) fn first_over(section: Section, list: &[Value]) -> Option<usize>
    ensures { is_some result ≡ list_any (λ v. is_over_in section (view v)) list.now }
{
    for (i, item) in list.iter().enumerate() {
        if is_over(section, item) {
            return Some(i);
        }
    }
    None
}

/// Whether a slow time, a pause or a block is over when it begins.
fn is_over(section: Section, item: &Value) -> bool
    ensures { result ≡ is_over_in section (view item.now) }
{
    number(section, FormatKey::Until, Some(item)) <= number(section, FormatKey::From, Some(item))
}

/// The index of the first crash or leave that isn't after its member's start.
pub(crate) fn first_early(roster: &Roster, list: &[Value]) -> Option<usize>
    ensures { is_some result ≡ list_any (λ v. is_early_in roster.now (view v)) list.now }
{
    for (i, item) in list.iter().enumerate() {
        if is_early(roster, item) {
            return Some(i);
        }
    }
    None
}

/// Whether a crash or a leave isn't after its member's start.
fn is_early(roster: &Roster, item: &Value) -> bool
    ensures { result ≡ is_early_in roster.now (view item.now) }
{
    match roster.find(text(FormatKey::Member, item)) {
        Some(found) => number(Section::Departure, FormatKey::At, Some(item)) <= found.start.ticks(),
        None => false,
    }
}
