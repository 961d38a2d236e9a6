//! What happens in a scenario of version 4 as a JSON value: one for each entry of its text.
ghost use Rattle.std.specs.Prelude.{◌≡◌, ◌++◌, IfOk, OnOk, map, option_map};
ghost use Rattle.std.specs.String.{string_bytes};
ghost use Rattle.serde_json.specs.View.{view};
ghost use Rattle.meaning.specs.Groups.{groups_of};
ghost use Rattle.meaning_json.specs.Summaries.{again_data, begun_item, crash_part, entries_data, entry_item, entry_items, extent_data, happening_data, moment_data, name_data, returned_with, returns_data, several_by, several_data, several_with, slowed_data, span_data, summary_data};

use crate::lists::{list_of, push_value};
use crate::members::{put_number, put_text};
use crate::script::{
    crashes_value, cuts_value, departure_value, pause_value, restart_value, restarted_with,
    slow_value,
};
use base::Moment;
use meaning_text::EntryKind;
use scenario::{Pause, Restart, Scenario, Slow};
use script_summary::{
    EntrySummary, Extent, Happening, RestartSummary, ScriptSummary, have_several,
};
use serde_json::{Map, Value, put};
use std::alloc::{AllocError, Global};

/// What happens in a scenario of version 4, entry by entry of its text.
pub(crate) fn summary_value(
    alloc: Global,
    scenario: &Scenario,
    groups: &[usize],
    script: &ScriptSummary,
) -> Result<Value, AllocError>
    requires { groups.now ≡ groups_of scenario.now }
    ensures { IfOk result (λ v. view v ≡ summary_data scenario.now script.now) }
{
    let crashes = crash_part(alloc, scenario, script.crashes.as_slice())?;
    let leaves = entries_value(alloc, scenario, EntryKind::Leave, script.leaves.as_slice())?;
    let restarts = returns_value(alloc, scenario, &script.restarts)?;
    let slows = entries_value(alloc, scenario, EntryKind::Slow, script.slows.as_slice())?;
    let cuts = cuts_value(alloc, scenario, groups, scenario.cuts())?;
    let pauses = entries_value(alloc, scenario, EntryKind::Pause, script.pauses.as_slice())?;
    let blocks = entries_value(alloc, scenario, EntryKind::Block, script.blocks.as_slice())?;
    restarted_with(
        alloc, crashes, leaves, restarts, slows, cuts, pauses, blocks,
    )
}

/// The crashes: entry by entry where one of them stands for several.
fn crash_part(
    alloc: Global,
    scenario: &Scenario,
    entries: &[EntrySummary],
) -> Result<Value, AllocError>
    ensures { IfOk result (λ v. view v ≡ crash_part scenario.now entries.now) }
{
    if have_several(entries) {
        entries_value(alloc, scenario, EntryKind::Crash, entries)
    } else {
        crashes_value(alloc, scenario)
    }
}

/// The restarts: the text's own, then those of crashes and of leaves that are back.
fn returns_value(
    alloc: Global,
    scenario: &Scenario,
    restarts: &RestartSummary,
) -> Result<Value, AllocError>
    ensures { IfOk result (λ v. view v ≡ returns_data scenario.now restarts.now) }
{
    let mut values = Vec::new(alloc);
    let own = restarts.own.as_slice();
    push_entries(alloc, &mut values, scenario, EntryKind::Restart, own)?;
    let of_crashes = restarts.of_crashes.as_slice();
    push_entries(
        alloc,
        &mut values,
        scenario,
        EntryKind::CrashReturn,
        of_crashes,
    )?;
    let of_leaves = restarts.of_leaves.as_slice();
    push_entries(
        alloc,
        &mut values,
        scenario,
        EntryKind::LeaveReturn,
        of_leaves,
    )?;
    Ok(list_of(values))
}

/// The entries of a list.
fn entries_value(
    alloc: Global,
    scenario: &Scenario,
    kind: EntryKind,
    entries: &[EntrySummary],
) -> Result<Value, AllocError>
    ensures { IfOk result (λ v. view v ≡ entries_data kind scenario.now entries.now) }
{
    let mut values = Vec::new(alloc);
    push_entries(alloc, &mut values, scenario, kind, entries)?;
    Ok(list_of(values))
}

/// Appends the entries of a list.
fn push_entries(
    alloc: Global,
    values: &mut Vec<Value>,
    scenario: &Scenario,
    kind: EntryKind,
    entries: &[EntrySummary],
) -> Result<(), AllocError>
    ensures { OnOk result (map view values.new.items ≡ map view values.old.items ++ entry_items kind scenario.now entries.now) }
{
    for entry in entries {
        push_entry(alloc, values, scenario, kind, entry)?;
    }
    Ok(())
}

/// Appends an entry, if it stands for something.
fn push_entry(
    alloc: Global,
    values: &mut Vec<Value>,
    scenario: &Scenario,
    kind: EntryKind,
    entry: &EntrySummary,
) -> Result<(), AllocError>
    ensures { OnOk result (map view values.new.items ≡ map view values.old.items ++ entry_item kind scenario.now entry.now) }
{
    match &entry.extent {
        Some(extent) => push_begun(alloc, values, scenario, kind, &entry.name, extent),
        None => Ok(()),
    }
}

/// Appends an entry with this name, if it begins by the end.
fn push_begun(
    alloc: Global,
    values: &mut Vec<Value>,
    scenario: &Scenario,
    kind: EntryKind,
    name: &Option<String>,
    extent: &Extent,
) -> Result<(), AllocError>
    ensures { OnOk result (map view values.new.items
        ≡ map view values.old.items ++ begun_item kind scenario.now (option_map string_bytes name.now) extent.now) }
{
    if extent.first.from <= scenario.end().ticks() {
        push_value(values, extent_value(alloc, scenario, kind, name, extent)?)
    } else {
        Ok(())
    }
}

/// An entry with this name.
fn extent_value(
    alloc: Global,
    scenario: &Scenario,
    kind: EntryKind,
    name: &Option<String>,
    extent: &Extent,
) -> Result<Value, AllocError>
    ensures { IfOk result (λ v. view v ≡ extent_data kind scenario.now (option_map string_bytes name.now) extent.now) }
{
    if extent.count == 1 {
        happening_value(alloc, scenario, kind, &extent.first)
    } else {
        several_value(alloc, scenario, kind, name, extent)
    }
}

/// An entry with this name that stands for several plain ones.
fn several_value(
    alloc: Global,
    scenario: &Scenario,
    kind: EntryKind,
    name: &Option<String>,
    extent: &Extent,
) -> Result<Value, AllocError>
    ensures { IfOk result (λ v. view v ≡ several_data kind scenario.now (option_map string_bytes name.now) extent.now) }
{
    let first = happening_value(alloc, scenario, kind, &extent.first)?;
    let last = happening_value(alloc, scenario, kind, &extent.last)?;
    let name = name_value(alloc, name)?;
    several_by(alloc, kind, extent.count, name, first, last)
}

/// The name of an entry; null where it has none.
fn name_value(alloc: Global, name: &Option<String>) -> Result<Value, AllocError>
    ensures { IfOk result (λ v. view v ≡ name_data (option_map string_bytes name.now)) }
{
    match name {
        Some(name) => Value::try_from_str(alloc, name.as_str()),
        None => Ok(Value::Null),
    }
}

/// So many plain entries of an entry.
fn several_by(
    alloc: Global,
    kind: EntryKind,
    count: u64,
    name: Value,
    first: Value,
    last: Value,
) -> Result<Value, AllocError>
    ensures { IfOk result (λ v. view v ≡ several_by kind count (view name) (view first) (view last)) }
{
    match kind {
        EntryKind::CrashReturn => returned_with(alloc, "crash", count, name, first, last),
        EntryKind::LeaveReturn => returned_with(alloc, "leave", count, name, first, last),
        EntryKind::Crash
        | EntryKind::Leave
        | EntryKind::Restart
        | EntryKind::Slow
        | EntryKind::Pause
        | EntryKind::Block => several_with(alloc, count, name, first, last),
    }
}

/// So many plain entries, the first and the last of them.
#[tactic(auto, unfolding(crate::specs::Summaries::several_with))]
fn several_with(
    alloc: Global,
    count: u64,
    name: Value,
    first: Value,
    last: Value,
) -> Result<Value, AllocError>
    ensures { IfOk result (λ v. view v ≡ several_with count (view name) (view first) (view last)) }
{
    let mut members = Map::new(alloc);
    put(&mut members, alloc, "first", first)?;
    put(&mut members, alloc, "last", last)?;
    put(&mut members, alloc, "name", name)?;
    put_number(&mut members, alloc, "entries", count)?;
    Ok(Value::Object(members))
}

/// The same of restarts for which the entry of this list stands.
#[tactic(auto, unfolding(crate::specs::Summaries::returned_with))]
fn returned_with(
    alloc: Global,
    list: &str,
    count: u64,
    name: Value,
    first: Value,
    last: Value,
) -> Result<Value, AllocError>
    ensures { IfOk result (λ v. view v ≡ returned_with list.now count (view name) (view first) (view last)) }
{
    let mut members = Map::new(alloc);
    put(&mut members, alloc, "first", first)?;
    put(&mut members, alloc, "last", last)?;
    put(&mut members, alloc, "name", name)?;
    put_number(&mut members, alloc, "entries", count)?;
    put_text(&mut members, alloc, "of", list)?;
    Ok(Value::Object(members))
}

/// A plain entry.
fn happening_value(
    alloc: Global,
    scenario: &Scenario,
    kind: EntryKind,
    it: &Happening,
) -> Result<Value, AllocError>
    ensures { IfOk result (λ v. view v ≡ happening_data kind scenario.now it.now) }
{
    match kind {
        EntryKind::Crash | EntryKind::Leave => moment_value(alloc, scenario, it),
        EntryKind::Restart | EntryKind::CrashReturn | EntryKind::LeaveReturn => {
            again_value(alloc, scenario, it)
        }
        EntryKind::Slow => slowed_value(alloc, scenario, it),
        EntryKind::Pause | EntryKind::Block => span_value(alloc, scenario, it),
    }
}

/// A crash or leave.
fn moment_value(alloc: Global, scenario: &Scenario, it: &Happening) -> Result<Value, AllocError>
    ensures { IfOk result (λ v. view v ≡ moment_data scenario.now it.now) }
{
    departure_value(alloc, scenario, it.member.index(), Moment(it.from))
}

/// A restart.
fn again_value(alloc: Global, scenario: &Scenario, it: &Happening) -> Result<Value, AllocError>
    ensures { IfOk result (λ v. view v ≡ again_data scenario.now it.now) }
{
    let restart = Restart {
        member: it.member,
        at: Moment(it.from),
        contact: it.contact,
    };
    restart_value(alloc, scenario, &restart)
}

/// A slow time.
fn slowed_value(alloc: Global, scenario: &Scenario, it: &Happening) -> Result<Value, AllocError>
    ensures { IfOk result (λ v. view v ≡ slowed_data scenario.now it.now) }
{
    let slow = Slow {
        member: it.member,
        from: Moment(it.from),
        until: Moment(it.until),
        extra: it.extra,
    };
    slow_value(alloc, scenario, &slow)
}

/// A pause or a block.
fn span_value(alloc: Global, scenario: &Scenario, it: &Happening) -> Result<Value, AllocError>
    ensures { IfOk result (λ v. view v ≡ span_data scenario.now it.now) }
{
    let pause = Pause {
        member: it.member,
        from: Moment(it.from),
        until: Moment(it.until),
    };
    pause_value(alloc, scenario, &pause)
}
