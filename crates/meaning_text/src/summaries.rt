//! The lines on what happens in a scenario of version 4: one for each entry of its text.
ghost use Rattle.std.specs.Prelude.{◌≡◌, ◌++◌, OnOk, flat_map, option_map};
ghost use Rattle.std.specs.String.{string_bytes};
ghost use Rattle.meaning.specs.Groups.{groups_of};
ghost use Rattle.script_summary.specs.Entries.{name_of as entry_name};
ghost use Rattle.meaning_text.specs.Summaries.{again_text, begun_line, count_text, crash_part, entry_line, entry_lines, extent_line, extra_text, gone_lines, happening_text, lasting_lines, moment_text, name_text, return_lines, several_line, single_line, slowed_text, span_text, summary_lines};

use crate::groups::push_contact;
use crate::kinds::{EntryKind, word_of, words_of};
use crate::script::{push_crashes, push_cuts};
use meaning::member_name;
use scenario::Scenario;
use script_summary::{
    EntrySummary, Extent, Happening, RestartSummary, ScriptSummary, have_several,
};
use std::alloc::AllocError;

/// Appends what happens in a scenario of version 4, entry by entry of its text.
#[tactic(auto, unfolding(crate::specs::Summaries::summary_lines))]
pub(crate) fn push_summary(
    text: &mut String,
    scenario: &Scenario,
    groups: &[usize],
    script: &ScriptSummary,
) -> Result<(), AllocError>
    requires { groups.now ≡ groups_of scenario.now }
    ensures { OnOk result (string_bytes text.new ≡ string_bytes text.old ++ summary_lines scenario.now script.now) }
{
    push_gone(text, scenario, script)?;
    push_lasting(text, scenario, groups, script)
}

/// Appends who crashes, leaves and starts again.
#[tactic(auto, unfolding(crate::specs::Summaries::gone_lines))]
fn push_gone(
    text: &mut String,
    scenario: &Scenario,
    script: &ScriptSummary,
) -> Result<(), AllocError>
    ensures { OnOk result (string_bytes text.new ≡ string_bytes text.old ++ gone_lines scenario.now script.now) }
{
    push_crash_part(text, scenario, script.crashes.as_slice())?;
    push_entries(text, scenario, EntryKind::Leave, script.leaves.as_slice())?;
    push_returns(text, scenario, &script.restarts)
}

/// Appends who is slow, which links are cut, who is paused and blocked.
#[tactic(auto, unfolding(crate::specs::Summaries::lasting_lines))]
fn push_lasting(
    text: &mut String,
    scenario: &Scenario,
    groups: &[usize],
    script: &ScriptSummary,
) -> Result<(), AllocError>
    requires { groups.now ≡ groups_of scenario.now }
    ensures { OnOk result (string_bytes text.new ≡ string_bytes text.old ++ lasting_lines scenario.now script.now) }
{
    push_entries(text, scenario, EntryKind::Slow, script.slows.as_slice())?;
    push_cuts(text, scenario, groups, scenario.cuts())?;
    push_entries(text, scenario, EntryKind::Pause, script.pauses.as_slice())?;
    push_entries(text, scenario, EntryKind::Block, script.blocks.as_slice())
}

/// Appends the crashes: entry by entry where one of them stands for several.
fn push_crash_part(
    text: &mut String,
    scenario: &Scenario,
    entries: &[EntrySummary],
) -> Result<(), AllocError>
    ensures { OnOk result (string_bytes text.new ≡ string_bytes text.old ++ crash_part scenario.now entries.now) }
{
    if have_several(entries) {
        push_entries(text, scenario, EntryKind::Crash, entries)
    } else {
        push_crashes(text, scenario)
    }
}

/// Appends the restarts: the text's own, then those of crashes and of leaves that are back.
#[tactic(auto, unfolding(crate::specs::Summaries::return_lines))]
fn push_returns(
    text: &mut String,
    scenario: &Scenario,
    restarts: &RestartSummary,
) -> Result<(), AllocError>
    ensures { OnOk result (string_bytes text.new ≡ string_bytes text.old ++ return_lines scenario.now restarts.now) }
{
    push_entries(text, scenario, EntryKind::Restart, restarts.own.as_slice())?;
    push_entries(
        text,
        scenario,
        EntryKind::CrashReturn,
        restarts.of_crashes.as_slice(),
    )?;
    push_entries(
        text,
        scenario,
        EntryKind::LeaveReturn,
        restarts.of_leaves.as_slice(),
    )
}

/// Appends the entries of a list.
fn push_entries(
    text: &mut String,
    scenario: &Scenario,
    kind: EntryKind,
    entries: &[EntrySummary],
) -> Result<(), AllocError>
    ensures { OnOk result (string_bytes text.new ≡ string_bytes text.old ++ entry_lines kind scenario.now entries.now) }
{
    for entry in entries {
        push_entry(text, scenario, kind, entry)?;
    }
    Ok(())
}

/// Appends an entry, if it stands for something.
fn push_entry(
    text: &mut String,
    scenario: &Scenario,
    kind: EntryKind,
    entry: &EntrySummary,
) -> Result<(), AllocError>
    ensures { OnOk result (string_bytes text.new ≡ string_bytes text.old ++ entry_line kind scenario.now entry.now) }
{
    match &entry.extent {
        Some(extent) => push_begun(text, scenario, kind, &entry.name, extent),
        None => Ok(()),
    }
}

/// Appends an entry with this name, if it begins by the end.
fn push_begun(
    text: &mut String,
    scenario: &Scenario,
    kind: EntryKind,
    name: &Option<String>,
    extent: &Extent,
) -> Result<(), AllocError>
    ensures { OnOk result (string_bytes text.new
        ≡ string_bytes text.old ++ begun_line kind scenario.now (option_map string_bytes name.now) extent.now) }
{
    if extent.first.from <= scenario.end().ticks() {
        push_extent(text, scenario, kind, name, extent)
    } else {
        Ok(())
    }
}

/// Appends an entry with this name.
fn push_extent(
    text: &mut String,
    scenario: &Scenario,
    kind: EntryKind,
    name: &Option<String>,
    extent: &Extent,
) -> Result<(), AllocError>
    ensures { OnOk result (string_bytes text.new
        ≡ string_bytes text.old ++ extent_line kind scenario.now (option_map string_bytes name.now) extent.now) }
{
    if extent.count == 1 {
        push_single(text, scenario, kind, &extent.first)
    } else {
        push_several(text, scenario, kind, name, extent)
    }
}

/// Appends an entry that stands for one plain entry.
#[tactic(auto, unfolding(crate::specs::Summaries::single_line))]
fn push_single(
    text: &mut String,
    scenario: &Scenario,
    kind: EntryKind,
    it: &Happening,
) -> Result<(), AllocError>
    ensures { OnOk result (string_bytes text.new ≡ string_bytes text.old ++ single_line kind scenario.now it.now) }
{
    text.push_str(word_of(kind))?;
    text.push_str(" ")?;
    push_happening(text, scenario, kind, it)?;
    text.push_str("\n")
}

/// Appends an entry that stands for several.
#[tactic(auto, unfolding(crate::specs::Summaries::several_line))]
fn push_several(
    text: &mut String,
    scenario: &Scenario,
    kind: EntryKind,
    name: &Option<String>,
    extent: &Extent,
) -> Result<(), AllocError>
    ensures { OnOk result (string_bytes text.new
        ≡ string_bytes text.old ++ several_line kind scenario.now (option_map string_bytes name.now) extent.now) }
{
    text.push_str(words_of(kind))?;
    push_name(text, name)?;
    push_entry_count(text, extent.count)?;
    text.push_str(" first ")?;
    push_happening(text, scenario, kind, &extent.first)?;
    text.push_str(" last ")?;
    push_happening(text, scenario, kind, &extent.last)?;
    text.push_str("\n")
}

/// Appends the name of an entry, where it has one.
#[tactic(auto, unfolding(crate::specs::Summaries::name_text))]
fn push_name(text: &mut String, name: &Option<String>) -> Result<(), AllocError>
    ensures { OnOk result (string_bytes text.new ≡ string_bytes text.old ++ name_text (option_map string_bytes name.now)) }
{
    match name {
        Some(name) => {
            text.push_str(" ")?;
            text.push_str(name.as_str())
        }
        None => Ok(()),
    }
}

/// Appends how many plain entries an entry stands for.
#[tactic(auto, unfolding(crate::specs::Summaries::count_text))]
fn push_entry_count(text: &mut String, count: u64) -> Result<(), AllocError>
    ensures { OnOk result (string_bytes text.new ≡ string_bytes text.old ++ count_text count) }
{
    write!(text, " entries {count}")
}

/// Appends a plain entry.
fn push_happening(
    text: &mut String,
    scenario: &Scenario,
    kind: EntryKind,
    it: &Happening,
) -> Result<(), AllocError>
    ensures { OnOk result (string_bytes text.new ≡ string_bytes text.old ++ happening_text kind scenario.now it.now) }
{
    match kind {
        EntryKind::Crash | EntryKind::Leave => push_moment(text, scenario, it),
        EntryKind::Restart | EntryKind::CrashReturn | EntryKind::LeaveReturn => {
            push_again(text, scenario, it)
        }
        EntryKind::Slow => push_slowed(text, scenario, it),
        EntryKind::Pause | EntryKind::Block => push_span(text, scenario, it),
    }
}

/// Appends who, and when.
#[tactic(auto, unfolding(crate::specs::Summaries::moment_text))]
fn push_moment(text: &mut String, scenario: &Scenario, it: &Happening) -> Result<(), AllocError>
    ensures { OnOk result (string_bytes text.new ≡ string_bytes text.old ++ moment_text scenario.now it.now) }
{
    let name = member_name(scenario, it.member.index());
    let from = it.from;
    write!(text, "{name} {from}")
}

/// Appends who starts again, when, and whom it asks to let it join.
#[tactic(auto, unfolding(crate::specs::Summaries::again_text))]
fn push_again(text: &mut String, scenario: &Scenario, it: &Happening) -> Result<(), AllocError>
    ensures { OnOk result (string_bytes text.new ≡ string_bytes text.old ++ again_text scenario.now it.now) }
{
    push_moment(text, scenario, it)?;
    push_contact(text, scenario, it.contact)
}

/// Appends who, from when until when.
#[tactic(auto, unfolding(crate::specs::Summaries::span_text))]
fn push_span(text: &mut String, scenario: &Scenario, it: &Happening) -> Result<(), AllocError>
    ensures { OnOk result (string_bytes text.new ≡ string_bytes text.old ++ span_text scenario.now it.now) }
{
    let name = member_name(scenario, it.member.index());
    let from = it.from;
    let until = it.until;
    write!(text, "{name} from {from} until {until}")
}

/// Appends who is slow, from when until when, and by how much.
#[tactic(auto, unfolding(crate::specs::Summaries::slowed_text))]
fn push_slowed(text: &mut String, scenario: &Scenario, it: &Happening) -> Result<(), AllocError>
    ensures { OnOk result (string_bytes text.new ≡ string_bytes text.old ++ slowed_text scenario.now it.now) }
{
    push_span(text, scenario, it)?;
    push_extra(text, it.extra)
}

/// Appends by how much a member is slow.
#[tactic(auto, unfolding(crate::specs::Summaries::extra_text))]
fn push_extra(text: &mut String, extra: u64) -> Result<(), AllocError>
    ensures { OnOk result (string_bytes text.new ≡ string_bytes text.old ++ extra_text extra) }
{
    write!(text, " extra {extra}")
}
