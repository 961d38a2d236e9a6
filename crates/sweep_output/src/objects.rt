//! The objects, one a line.
ghost use Rattle.std.specs.Prelude.{◌≡◌, ◌<◌, ◌++◌, ◌∷◌, ◌==◌, [], if◌then◌else◌, All, List, OnOk, IfOk, Some, codes, length, map, slice_get, string_bytes};
ghost use Rattle.std.specs.List.{join_with_byte};
ghost use Rattle.sweep_plan.specs.Sweep.{setting_count};
ghost use Rattle.sweep_plan.specs.Settings.{settings_of};
ghost use Rattle.sweep_plan.specs.declared.choice.Choice.{Choice as AnyChoice};
ghost use Rattle.goals.specs.Wants.{HasFewRuns, IsBounded};
ghost use Rattle.goals.specs.Front.{is_on_front};
ghost use Rattle.sweep_output.specs.Objects.{TellsObjects, answer_word, setting_object, choice_member, is_at, member, members_of, object_line, truth, wanted_members};

use crate::figures_told::push_figures;
use crate::members::{push_member, push_truth};
use base::Memory;
use figures::{ColumnSet, SettingSummary};
use goals::{Want, best_of, is_on_front, may_meet, meets};
use std::alloc::Global;
use sweep_plan::{Choice, Plan};

/// The settings of a sweep as JSON objects, each on a line of its own that ends in a line feed. An object has first the keys that
/// are set, by their names, with numbers or `true` and `false`; then the figures of its setting, by the names of the columns of its
/// line, which are given: times in ticks, shares in percent, rates with two digits behind the point, `null` where the line has a
/// dash. Then come `front`, whether no other setting beats it, and, where something is wanted,
/// `meets`, which is `"yes"` where the setting shows that it meets all, `"may"` where it may and `"no"` else, and `best`, whether
/// it is the first that is best. There must be a summary for each setting, in their order.
pub fn setting_objects(
    alloc: Global,
    columns: ColumnSet,
    plan: &Plan,
    wants: &[Want],
    settings: &[SettingSummary],
) -> Result<String, Memory>
    requires bounded { All IsBounded wants.now }
    requires few { All HasFewRuns settings.now }
    requires all { length settings.now ≡ setting_count plan.now.swept_keys }
    ensures { IfOk result (λ text. TellsObjects columns plan.now.swept_keys wants.now settings.now (string_bytes text)) }
{
    let best = best_of(wants, settings);
    let mut text = String::new(alloc);
    for (place, setting) in settings.iter().enumerate() {
        let is_best = is_at(best, place);
        push_setting(
            alloc, &mut text, columns, plan, wants, settings, is_best, place, setting,
        )?;
    }
    Ok(text)
}

/// Whether the best setting stands at a place.
fn is_at(best: Option<usize>, place: usize) -> bool
    ensures { result ≡ is_at best place }
{
    match best {
        Some(best) => best == place,
        None => false,
    }
}

/// Adds the line of the setting at a place among all.
fn push_setting(
    alloc: Global,
    text: &mut String,
    columns: ColumnSet,
    plan: &Plan,
    wants: &[Want],
    all: &[SettingSummary],
    is_best: bool,
    place: usize,
    setting: &SettingSummary,
) -> Result<(), Memory>
    requires bounded { All IsBounded wants.now }
    requires few { HasFewRuns setting.now }
    requires within { place < setting_count plan.now.swept_keys }
    ensures { OnOk result ((chosen : List AnyChoice) → slice_get (settings_of plan.now.swept_keys) place ≡ Some chosen
        → string_bytes text.new ≡ string_bytes text.old ++ object_line (members_of columns wants.now all.now is_best chosen setting.now)) }
{
    let chosen = plan.setting_at(alloc, place)?;
    let members = members_of(alloc, columns, wants, all, is_best, &chosen, setting)?;
    push_line(text, &members)
}

/// The members of a setting.
fn members_of(
    alloc: Global,
    columns: ColumnSet,
    wants: &[Want],
    all: &[SettingSummary],
    is_best: bool,
    chosen: &[Choice],
    setting: &SettingSummary,
) -> Result<Vec<String>, Memory>
    requires bounded { All IsBounded wants.now }
    requires few { HasFewRuns setting.now }
    ensures { IfOk result (λ members. map string_bytes members.items ≡ members_of columns wants.now all.now is_best chosen.now setting.now) }
{
    let mut members = Vec::new(alloc);
    push_choices(alloc, &mut members, chosen)?;
    push_figures(alloc, &mut members, columns, setting)?;
    push_truth(alloc, &mut members, "front", is_on_front(setting, all))?;
    push_wanted(alloc, &mut members, wants, is_best, setting)?;
    Ok(members)
}

/// Adds the keys that are set, with their values.
fn push_choices(alloc: Global, members: &mut Vec<String>, chosen: &[Choice]) -> Result<(), Memory>
    ensures { OnOk result (map string_bytes members.new.items ≡ map string_bytes members.old.items ++ map choice_member chosen.now) }
{
    for choice in chosen {
        push_choice(alloc, members, choice)?;
    }
    Ok(())
}

/// Adds a key with its value.
fn push_choice(alloc: Global, members: &mut Vec<String>, choice: &Choice) -> Result<(), Memory>
    ensures { OnOk result (map string_bytes members.new.items ≡ map string_bytes members.old.items ++ choice_member choice.now ∷ []) }
{
    let name = choice.key.name(alloc)?;
    let value = choice.value.text(alloc)?;
    push_member(alloc, members, name.as_str(), value.as_str())
}

/// Adds what a setting answers to what is wanted, and whether it is the best; nothing where nothing is wanted.
fn push_wanted(
    alloc: Global,
    members: &mut Vec<String>,
    wants: &[Want],
    is_best: bool,
    setting: &SettingSummary,
) -> Result<(), Memory>
    requires bounded { All IsBounded wants.now }
    requires few { HasFewRuns setting.now }
    ensures { OnOk result (map string_bytes members.new.items ≡ map string_bytes members.old.items ++ wanted_members wants.now is_best setting.now) }
{
    if wants.is_empty() {
        return Ok(());
    }
    push_member(alloc, members, "meets", answer_word(wants, setting))?;
    push_truth(alloc, members, "best", is_best)
}

/// What a setting answers to what is wanted.
fn answer_word(wants: &[Want], setting: &SettingSummary) -> &'static str
    requires bounded { All IsBounded wants.now }
    requires few { HasFewRuns setting.now }
    ensures { result.now ≡ answer_word wants.now setting.now }
{
    if meets(wants, setting) {
        return "\"yes\"";
    }
    if may_meet(wants, setting) {
        return "\"may\"";
    }
    "\"no\""
}

/// Adds a line: members with commas between them, in braces.
#[tactic(auto, unfolding(crate::specs::Objects::object_line))]
fn push_line(text: &mut String, members: &[String]) -> Result<(), Memory>
    ensures { OnOk result (string_bytes text.new ≡ string_bytes text.old ++ object_line (map string_bytes members.now)) }
{
    text.push_str("{")?;
    push_joined(text, members)?;
    text.push_str("}\n")?;
    Ok(())
}

/// Adds members with commas between them.
fn push_joined(text: &mut String, members: &[String]) -> Result<(), Memory>
    ensures { OnOk result (string_bytes text.new ≡ string_bytes text.old ++ join_with_byte 44 (map string_bytes members.now)) }
{
    for (place, member) in members.iter().enumerate() {
        push_comma(text, place)?;
        text.push_str(member.as_str())?;
    }
    Ok(())
}

/// Adds the comma before the member at a place, where it isn't the first.
fn push_comma(text: &mut String, place: usize) -> Result<(), Memory>
    ensures { OnOk result (string_bytes text.new ≡ string_bytes text.old ++ (if place == 0 then [] else codes ",")) }
{
    if place == 0 {
        return Ok(());
    }
    text.push_str(",")?;
    Ok(())
}
