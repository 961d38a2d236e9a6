//! The script up to the end of the run as a JSON value: crashes, leaves, restarts, slow times, cuts, pauses and blocks.
ghost use Rattle.std.specs.Prelude.{◌≡◌, ◌++◌, ◌<◌, IfOk, OnOk, flat_map, map};
ghost use Rattle.serde_json.specs.View.{view};
ghost use Rattle.scenario.specs.Setup.{member_count};
ghost use Rattle.meaning.specs.Groups.{groups_of};
ghost use Rattle.meaning_json.specs.Figures.{list_of};
ghost use Rattle.meaning_json.specs.Script.{departure_data, departure_item, crash_item, crash_items, crashes_data, leave_item, restart_data, restart_item, slow_data, slow_item, cut_data, cut_item, pause_data, pause_item, pauses_data, blocks_data, restarts_data, script_with, paused_with, restarted_with, script_data};
ghost use Rattle.meaning_json.specs.Summaries.{script_data_by};

use crate::figures::contact_value;
use crate::lists::{list_of, push_value};
use crate::members::{put_number, put_text};
use crate::summaries::summary_value;
use base::{MemberId, Moment, Profile};
use meaning::{group_name, member_name};
use scenario::{Cut, Leave, Pause, Restart, Scenario, ScriptEvent, ScriptKind, Slow};
use script_summary::ScriptSummary;
use serde_json::{Map, Value, put};
use std::alloc::{AllocError, Global};

/// What of the script happens up to the end: of version 4 entry by entry of the text, which is summed up; else crashes by
/// the members' numbers, the rest in the order of the text.
pub(crate) fn script_value(
    alloc: Global,
    scenario: &Scenario,
    groups: &[usize],
    script: &Option<ScriptSummary>,
) -> Result<Value, AllocError>
    requires { groups.now ≡ groups_of scenario.now }
    ensures { IfOk result (λ v. view v ≡ script_data_by scenario.now script.now) }
{
    match script {
        Some(script) => summary_value(alloc, scenario, groups, script),
        None => plain_value(alloc, scenario, groups),
    }
}

/// The same of a text whose entries are plain.
fn plain_value(alloc: Global, scenario: &Scenario, groups: &[usize]) -> Result<Value, AllocError>
    requires { groups.now ≡ groups_of scenario.now }
    ensures { IfOk result (λ v. view v ≡ script_data scenario.now) }
{
    let crashes = crashes_value(alloc, scenario)?;
    let leaves = leaves_value(alloc, scenario, scenario.leaves())?;
    let slows = slows_value(alloc, scenario, scenario.slows())?;
    let cuts = cuts_value(alloc, scenario, groups, scenario.cuts())?;
    match scenario.profile() {
        Profile::Papers => script_with(alloc, crashes, leaves, slows, cuts),
        Profile::Memberlist => {
            let pauses = pauses_value(alloc, scenario, scenario.pauses())?;
            paused_with(alloc, crashes, leaves, slows, cuts, pauses)
        }
        Profile::Hashicorp => restarted_value(alloc, scenario, crashes, leaves, slows, cuts),
    }
}

/// The script with its restarts, pauses and blocks, where the rest of it is given.
fn restarted_value(
    alloc: Global,
    scenario: &Scenario,
    crashes: Value,
    leaves: Value,
    slows: Value,
    cuts: Value,
) -> Result<Value, AllocError>
    ensures { IfOk result (λ v. view v
        ≡ restarted_with (view crashes) (view leaves) (restarts_data scenario.now) (view slows) (view cuts) (pauses_data scenario.now) (blocks_data scenario.now)) }
{
    let restarts = restarts_value(alloc, scenario, scenario.restarts())?;
    let pauses = pauses_value(alloc, scenario, scenario.pauses())?;
    let blocks = pauses_value(alloc, scenario, scenario.blocks())?;
    restarted_with(
        alloc, crashes, leaves, restarts, slows, cuts, pauses, blocks,
    )
}

/// Crashes, leaves, slow times and cuts.
#[tactic(auto, unfolding(crate::specs::Script::script_with))]
fn script_with(
    alloc: Global,
    crashes: Value,
    leaves: Value,
    slows: Value,
    cuts: Value,
) -> Result<Value, AllocError>
    ensures { IfOk result (λ v. view v ≡ script_with (view crashes) (view leaves) (view slows) (view cuts)) }
{
    let mut members = Map::new(alloc);
    put(&mut members, alloc, "crashes", crashes)?;
    put(&mut members, alloc, "leaves", leaves)?;
    put(&mut members, alloc, "slows", slows)?;
    put(&mut members, alloc, "cuts", cuts)?;
    Ok(Value::Object(members))
}

/// The same, and pauses.
#[tactic(auto, unfolding(crate::specs::Script::paused_with))]
fn paused_with(
    alloc: Global,
    crashes: Value,
    leaves: Value,
    slows: Value,
    cuts: Value,
    pauses: Value,
) -> Result<Value, AllocError>
    ensures { IfOk result (λ v. view v ≡ paused_with (view crashes) (view leaves) (view slows) (view cuts) (view pauses)) }
{
    let mut members = Map::new(alloc);
    put(&mut members, alloc, "crashes", crashes)?;
    put(&mut members, alloc, "leaves", leaves)?;
    put(&mut members, alloc, "slows", slows)?;
    put(&mut members, alloc, "cuts", cuts)?;
    put(&mut members, alloc, "pauses", pauses)?;
    Ok(Value::Object(members))
}

/// The same, restarts and blocks.
#[tactic(auto, unfolding(crate::specs::Script::restarted_with))]
pub(crate) fn restarted_with(
    alloc: Global,
    crashes: Value,
    leaves: Value,
    restarts: Value,
    slows: Value,
    cuts: Value,
    pauses: Value,
    blocks: Value,
) -> Result<Value, AllocError>
    ensures { IfOk result (λ v. view v
        ≡ restarted_with (view crashes) (view leaves) (view restarts) (view slows) (view cuts) (view pauses) (view blocks)) }
{
    let mut members = Map::new(alloc);
    put(&mut members, alloc, "crashes", crashes)?;
    put(&mut members, alloc, "leaves", leaves)?;
    put(&mut members, alloc, "restarts", restarts)?;
    put(&mut members, alloc, "slows", slows)?;
    put(&mut members, alloc, "cuts", cuts)?;
    put(&mut members, alloc, "pauses", pauses)?;
    put(&mut members, alloc, "blocks", blocks)?;
    Ok(Value::Object(members))
}

/// The crashes.
pub(crate) fn crashes_value(alloc: Global, scenario: &Scenario) -> Result<Value, AllocError>
    ensures { IfOk result (λ v. view v ≡ crashes_data scenario.now) }
{
    let mut values = Vec::new(alloc);
    for member in 0..scenario.members() {
        push_crashes_of(alloc, &mut values, scenario, member)?;
    }
    Ok(list_of(values))
}

/// Appends the crashes of a member.
fn push_crashes_of(
    alloc: Global,
    values: &mut Vec<Value>,
    scenario: &Scenario,
    member: usize,
) -> Result<(), AllocError>
    requires { member < member_count scenario.now }
    ensures { OnOk result (map view values.new.items ≡ map view values.old.items ++ crash_items scenario.now member) }
{
    let _few = scenario.members();
    push_crashes_among(
        alloc,
        values,
        scenario,
        scenario.script(MemberId(member as u16)),
    )
}

/// Appends the crashes among what happens to a member.
fn push_crashes_among(
    alloc: Global,
    values: &mut Vec<Value>,
    scenario: &Scenario,
    events: &[ScriptEvent],
) -> Result<(), AllocError>
    ensures { OnOk result (map view values.new.items ≡ map view values.old.items ++ flat_map (crash_item scenario.now) events.now) }
{
    for event in events {
        push_crash(alloc, values, scenario, event)?;
    }
    Ok(())
}

/// Appends what happens to a member, if it is a crash by the end.
fn push_crash(
    alloc: Global,
    values: &mut Vec<Value>,
    scenario: &Scenario,
    event: &ScriptEvent,
) -> Result<(), AllocError>
    ensures { OnOk result (map view values.new.items ≡ map view values.old.items ++ crash_item scenario.now event.now) }
{
    match event.kind {
        ScriptKind::Crash => {
            push_departure(alloc, values, scenario, event.member.index(), event.at)
        }
        ScriptKind::Leave | ScriptKind::Restart(_) => Ok(()),
    }
}

/// The leaves.
fn leaves_value(alloc: Global, scenario: &Scenario, leaves: &[Leave]) -> Result<Value, AllocError>
    ensures { IfOk result (λ v. view v ≡ list_of (flat_map (leave_item scenario.now) leaves.now)) }
{
    let mut values = Vec::new(alloc);
    for leave in leaves {
        push_departure(alloc, &mut values, scenario, leave.member.index(), leave.at)?;
    }
    Ok(list_of(values))
}

/// Appends who goes when, unless it is after the end.
fn push_departure(
    alloc: Global,
    values: &mut Vec<Value>,
    scenario: &Scenario,
    member: usize,
    at: Moment,
) -> Result<(), AllocError>
    ensures { OnOk result (map view values.new.items ≡ map view values.old.items ++ departure_item scenario.now member at) }
{
    if at.ticks() <= scenario.end().ticks() {
        push_value(values, departure_value(alloc, scenario, member, at)?)
    } else {
        Ok(())
    }
}

/// Who goes when.
#[tactic(auto, unfolding(crate::specs::Script::departure_data))]
pub(crate) fn departure_value(
    alloc: Global,
    scenario: &Scenario,
    member: usize,
    at: Moment,
) -> Result<Value, AllocError>
    ensures { IfOk result (λ v. view v ≡ departure_data scenario.now member at) }
{
    let name = member_name(scenario, member);
    let mut members = Map::new(alloc);
    put_text(&mut members, alloc, "member", name)?;
    put_number(&mut members, alloc, "at", at.ticks())?;
    Ok(Value::Object(members))
}

/// The restarts.
fn restarts_value(
    alloc: Global,
    scenario: &Scenario,
    restarts: &[Restart],
) -> Result<Value, AllocError>
    ensures { IfOk result (λ v. view v ≡ list_of (flat_map (restart_item scenario.now) restarts.now)) }
{
    let mut values = Vec::new(alloc);
    for restart in restarts {
        push_restart(alloc, &mut values, scenario, restart)?;
    }
    Ok(list_of(values))
}

/// Appends a restart, if it is by the end.
fn push_restart(
    alloc: Global,
    values: &mut Vec<Value>,
    scenario: &Scenario,
    restart: &Restart,
) -> Result<(), AllocError>
    ensures { OnOk result (map view values.new.items ≡ map view values.old.items ++ restart_item scenario.now restart.now) }
{
    if restart.at.ticks() <= scenario.end().ticks() {
        push_value(values, restart_value(alloc, scenario, restart)?)
    } else {
        Ok(())
    }
}

/// Who starts again when, and whom it asks to let it join.
#[tactic(auto, unfolding(crate::specs::Script::restart_data))]
pub(crate) fn restart_value(
    alloc: Global,
    scenario: &Scenario,
    restart: &Restart,
) -> Result<Value, AllocError>
    ensures { IfOk result (λ v. view v ≡ restart_data scenario.now restart.now) }
{
    let name = member_name(scenario, restart.member.index());
    let contact = contact_value(alloc, scenario, restart.contact)?;
    let mut members = Map::new(alloc);
    put_text(&mut members, alloc, "member", name)?;
    put_number(&mut members, alloc, "at", restart.at.ticks())?;
    put(&mut members, alloc, "contact", contact)?;
    Ok(Value::Object(members))
}

/// The slow times.
fn slows_value(alloc: Global, scenario: &Scenario, slows: &[Slow]) -> Result<Value, AllocError>
    ensures { IfOk result (λ v. view v ≡ list_of (flat_map (slow_item scenario.now) slows.now)) }
{
    let mut values = Vec::new(alloc);
    for slow in slows {
        push_slow(alloc, &mut values, scenario, slow)?;
    }
    Ok(list_of(values))
}

/// Appends a slow time, if it begins by the end.
fn push_slow(
    alloc: Global,
    values: &mut Vec<Value>,
    scenario: &Scenario,
    slow: &Slow,
) -> Result<(), AllocError>
    ensures { OnOk result (map view values.new.items ≡ map view values.old.items ++ slow_item scenario.now slow.now) }
{
    if slow.from.ticks() <= scenario.end().ticks() {
        push_value(values, slow_value(alloc, scenario, slow)?)
    } else {
        Ok(())
    }
}

/// Who is slow when, and by how much.
#[tactic(auto, unfolding(crate::specs::Script::slow_data))]
pub(crate) fn slow_value(
    alloc: Global,
    scenario: &Scenario,
    slow: &Slow,
) -> Result<Value, AllocError>
    ensures { IfOk result (λ v. view v ≡ slow_data scenario.now slow.now) }
{
    let name = member_name(scenario, slow.member.index());
    let from = slow.from.ticks();
    let until = slow.until.ticks();
    let mut members = Map::new(alloc);
    put_text(&mut members, alloc, "member", name)?;
    put_number(&mut members, alloc, "from", from)?;
    put_number(&mut members, alloc, "until", until)?;
    put_number(&mut members, alloc, "extra", slow.extra)?;
    Ok(Value::Object(members))
}

/// The cuts.
pub(crate) fn cuts_value(
    alloc: Global,
    scenario: &Scenario,
    groups: &[usize],
    cuts: &[Cut],
) -> Result<Value, AllocError>
    requires { groups.now ≡ groups_of scenario.now }
    ensures { IfOk result (λ v. view v ≡ list_of (flat_map (cut_item scenario.now) cuts.now)) }
{
    let mut values = Vec::new(alloc);
    for cut in cuts {
        push_cut(alloc, &mut values, scenario, groups, cut)?;
    }
    Ok(list_of(values))
}

/// Appends a cut, if it begins by the end.
fn push_cut(
    alloc: Global,
    values: &mut Vec<Value>,
    scenario: &Scenario,
    groups: &[usize],
    cut: &Cut,
) -> Result<(), AllocError>
    requires { groups.now ≡ groups_of scenario.now }
    ensures { OnOk result (map view values.new.items ≡ map view values.old.items ++ cut_item scenario.now cut.now) }
{
    if cut.at.ticks() <= scenario.end().ticks() {
        push_value(values, cut_value(alloc, scenario, groups, cut)?)
    } else {
        Ok(())
    }
}

/// Between which groups the link is cut, and when.
#[tactic(auto, unfolding(crate::specs::Script::cut_data))]
fn cut_value(
    alloc: Global,
    scenario: &Scenario,
    groups: &[usize],
    cut: &Cut,
) -> Result<Value, AllocError>
    requires { groups.now ≡ groups_of scenario.now }
    ensures { IfOk result (λ v. view v ≡ cut_data scenario.now cut.now) }
{
    let from = group_name(scenario, groups, cut.from);
    let to = group_name(scenario, groups, cut.to);
    let at = cut.at.ticks();
    let until = cut.until.ticks();
    let mut members = Map::new(alloc);
    put_text(&mut members, alloc, "from", from)?;
    put_text(&mut members, alloc, "to", to)?;
    put_number(&mut members, alloc, "at", at)?;
    put_number(&mut members, alloc, "until", until)?;
    Ok(Value::Object(members))
}

/// The pauses, or the blocks.
fn pauses_value(alloc: Global, scenario: &Scenario, pauses: &[Pause]) -> Result<Value, AllocError>
    ensures { IfOk result (λ v. view v ≡ list_of (flat_map (pause_item scenario.now) pauses.now)) }
{
    let mut values = Vec::new(alloc);
    for pause in pauses {
        push_pause(alloc, &mut values, scenario, pause)?;
    }
    Ok(list_of(values))
}

/// Appends a pause, or a block, if it begins by the end.
fn push_pause(
    alloc: Global,
    values: &mut Vec<Value>,
    scenario: &Scenario,
    pause: &Pause,
) -> Result<(), AllocError>
    ensures { OnOk result (map view values.new.items ≡ map view values.old.items ++ pause_item scenario.now pause.now) }
{
    if pause.from.ticks() <= scenario.end().ticks() {
        push_value(values, pause_value(alloc, scenario, pause)?)
    } else {
        Ok(())
    }
}

/// Who is paused, or blocked, when.
#[tactic(auto, unfolding(crate::specs::Script::pause_data))]
pub(crate) fn pause_value(
    alloc: Global,
    scenario: &Scenario,
    pause: &Pause,
) -> Result<Value, AllocError>
    ensures { IfOk result (λ v. view v ≡ pause_data scenario.now pause.now) }
{
    let name = member_name(scenario, pause.member.index());
    let from = pause.from.ticks();
    let until = pause.until.ticks();
    let mut members = Map::new(alloc);
    put_text(&mut members, alloc, "member", name)?;
    put_number(&mut members, alloc, "from", from)?;
    put_number(&mut members, alloc, "until", until)?;
    Ok(Value::Object(members))
}
