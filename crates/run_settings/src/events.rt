//! What the scenario has happen: crashes, leaves, restarts, slow times, pauses and blocks of members, and cuts.
ghost use Rattle.std.specs.Prelude.{◌≡◌, ◌<◌, ◌++◌, OnOk, flat_map};
ghost use Rattle.std.specs.String.{string_bytes};
ghost use Rattle.std.specs.List.{range_with_len};
ghost use Rattle.scenario.specs.Setup.{member_count};
ghost use Rattle.run_settings.specs.Events.{time_words, entry_opening, asked_words, contact_name, contact_words, kind_words, script_words, slow_words, slow_entry, pause_words, pause_entry, block_words, block_entry, member_entries, member_events, cut_entry, events};

use crate::settings::group_name;
use base::{MemberId, Moment};
use drawing::{push_escaped, push_grouped};
use scenario::{Cut, Pause, Scenario, ScriptEvent, ScriptKind, Slow};
use std::alloc::AllocError;

/// Appends what the scenario has happen to its members, in the order of their numbers, and its cuts.
#[tactic(auto, unfolding(crate::specs::Events::events))]
pub(crate) fn push_events(text: &mut String, scenario: &Scenario) -> Result<(), AllocError>
    ensures { OnOk result (string_bytes text.new ≡ string_bytes text.old ++ events scenario.now) }
{
    push_members(text, scenario)?;
    push_cuts(text, scenario, scenario.cuts())
}

/// Appends what happens to each member.
fn push_members(text: &mut String, scenario: &Scenario) -> Result<(), AllocError>
    ensures { OnOk result (string_bytes text.new ≡ string_bytes text.old
        ++ flat_map (member_events scenario.now) (range_with_len 0 (member_count scenario.now))) }
{
    for number in 0..scenario.members() {
        push_member_of(text, scenario, MemberId(number as u16))?;
    }
    Ok(())
}

/// Appends what happens to a member.
fn push_member_of(
    text: &mut String,
    scenario: &Scenario,
    member: MemberId,
) -> Result<(), AllocError>
    requires { member < member_count scenario.now }
    ensures { OnOk result (string_bytes text.new ≡ string_bytes text.old ++ member_events scenario.now member) }
{
    push_member(
        text,
        scenario,
        member,
        scenario.name(member),
        scenario.script(member),
    )
}

/// Appends what happens to a member of that name with this script.
#[tactic(auto, unfolding(crate::specs::Events::member_entries))]
fn push_member(
    text: &mut String,
    scenario: &Scenario,
    member: MemberId,
    name: &str,
    script: &[ScriptEvent],
) -> Result<(), AllocError>
    ensures { OnOk result (string_bytes text.new ≡ string_bytes text.old ++ member_entries scenario.now member name.now script.now) }
{
    push_script(text, scenario, name, script)?;
    push_slows(text, name, member, scenario.slows())?;
    push_pauses(text, name, member, scenario.pauses())?;
    push_blocks(text, name, member, scenario.blocks())
}

/// Appends how and when a member goes and starts again.
fn push_script(
    text: &mut String,
    scenario: &Scenario,
    name: &str,
    script: &[ScriptEvent],
) -> Result<(), AllocError>
    ensures { OnOk result (string_bytes text.new ≡ string_bytes text.old ++ flat_map (script_words scenario.now name.now) script.now) }
{
    for event in script {
        push_event(text, scenario, name, event)?;
    }
    Ok(())
}

/// Appends an event of a member's script.
#[tactic(auto, unfolding(crate::specs::Events::script_words))]
fn push_event(
    text: &mut String,
    scenario: &Scenario,
    name: &str,
    event: &ScriptEvent,
) -> Result<(), AllocError>
    ensures { OnOk result (string_bytes text.new ≡ string_bytes text.old ++ script_words scenario.now name.now event.now) }
{
    open_entry(text, name)?;
    text.push_str(kind_words(event.kind))?;
    push_grouped(text, event.at.ticks())?;
    push_asked(text, scenario, event.kind)?;
    text.push_str("</li>")
}

/// What happens to a member.
fn kind_words(kind: ScriptKind) -> &'static str
    ensures { result.now ≡ kind_words kind }
{
    match kind {
        ScriptKind::Crash => ": crash at ",
        ScriptKind::Leave => ": leave at ",
        ScriptKind::Restart(_) => ": restart at ",
    }
}

/// Appends whom a member asks that starts again.
fn push_asked(text: &mut String, scenario: &Scenario, kind: ScriptKind) -> Result<(), AllocError>
    ensures { OnOk result (string_bytes text.new ≡ string_bytes text.old ++ asked_words scenario.now kind) }
{
    match kind {
        ScriptKind::Crash | ScriptKind::Leave => Ok(()),
        ScriptKind::Restart(contact) => push_contact(text, scenario, contact),
    }
}

/// Appends whom members ask to let them join, where they ask somebody.
#[tactic(auto, unfolding(crate::specs::Events::contact_words))]
pub(crate) fn push_contact(
    text: &mut String,
    scenario: &Scenario,
    contact: Option<MemberId>,
) -> Result<(), AllocError>
    ensures { OnOk result (string_bytes text.new ≡ string_bytes text.old ++ contact_words scenario.now contact) }
{
    if let Some(contact) = contact {
        text.push_str(", contact ")?;
        return push_escaped(text, contact_name(scenario, contact));
    }
    Ok(())
}

/// The name of a contact: one of the members.
fn contact_name(scenario: &Scenario, contact: MemberId) -> &str
    ensures { result.now ≡ contact_name scenario.now contact }
{
    if contact.index() < scenario.members() {
        return scenario.name(contact);
    }
    ""
}

/// Begins the entry of a member of that name.
#[tactic(auto, unfolding(crate::specs::Events::entry_opening))]
fn open_entry(text: &mut String, name: &str) -> Result<(), AllocError>
    ensures { OnOk result (string_bytes text.new ≡ string_bytes text.old ++ entry_opening name.now) }
{
    text.push_str("<li>")?;
    push_escaped(text, name)
}

/// Appends when a member is slow.
fn push_slows(
    text: &mut String,
    name: &str,
    member: MemberId,
    slows: &[Slow],
) -> Result<(), AllocError>
    ensures { OnOk result (string_bytes text.new ≡ string_bytes text.old ++ flat_map (slow_entry name.now member) slows.now) }
{
    for slow in slows {
        push_slow_of(text, name, member, slow)?;
    }
    Ok(())
}

/// Appends a slow time, where it is the member's.
fn push_slow_of(
    text: &mut String,
    name: &str,
    member: MemberId,
    slow: &Slow,
) -> Result<(), AllocError>
    ensures { OnOk result (string_bytes text.new ≡ string_bytes text.old ++ slow_entry name.now member slow.now) }
{
    if slow.member == member {
        return push_slow(text, name, slow);
    }
    Ok(())
}

/// Appends a slow time.
#[tactic(auto, unfolding(crate::specs::Events::slow_words))]
fn push_slow(text: &mut String, name: &str, slow: &Slow) -> Result<(), AllocError>
    ensures { OnOk result (string_bytes text.new ≡ string_bytes text.old ++ slow_words name.now slow.now) }
{
    open_entry(text, name)?;
    text.push_str(": slow by ")?;
    push_grouped(text, slow.extra)?;
    push_time(text, slow.from, slow.until)
}

/// Appends when a member is paused.
fn push_pauses(
    text: &mut String,
    name: &str,
    member: MemberId,
    pauses: &[Pause],
) -> Result<(), AllocError>
    ensures { OnOk result (string_bytes text.new ≡ string_bytes text.old ++ flat_map (pause_entry name.now member) pauses.now) }
{
    for pause in pauses {
        push_pause_of(text, name, member, pause)?;
    }
    Ok(())
}

/// Appends a pause, where it is the member's.
fn push_pause_of(
    text: &mut String,
    name: &str,
    member: MemberId,
    pause: &Pause,
) -> Result<(), AllocError>
    ensures { OnOk result (string_bytes text.new ≡ string_bytes text.old ++ pause_entry name.now member pause.now) }
{
    if pause.member == member {
        return push_pause(text, name, pause);
    }
    Ok(())
}

/// Appends a pause.
#[tactic(auto, unfolding(crate::specs::Events::pause_words))]
fn push_pause(text: &mut String, name: &str, pause: &Pause) -> Result<(), AllocError>
    ensures { OnOk result (string_bytes text.new ≡ string_bytes text.old ++ pause_words name.now pause.now) }
{
    open_entry(text, name)?;
    text.push_str(": paused")?;
    push_time(text, pause.from, pause.until)
}

/// Appends when a member is blocked.
fn push_blocks(
    text: &mut String,
    name: &str,
    member: MemberId,
    blocks: &[Pause],
) -> Result<(), AllocError>
    ensures { OnOk result (string_bytes text.new ≡ string_bytes text.old ++ flat_map (block_entry name.now member) blocks.now) }
{
    for block in blocks {
        push_block_of(text, name, member, block)?;
    }
    Ok(())
}

/// Appends a block, where it is the member's.
fn push_block_of(
    text: &mut String,
    name: &str,
    member: MemberId,
    block: &Pause,
) -> Result<(), AllocError>
    ensures { OnOk result (string_bytes text.new ≡ string_bytes text.old ++ block_entry name.now member block.now) }
{
    if block.member == member {
        return push_block(text, name, block);
    }
    Ok(())
}

/// Appends a block.
#[tactic(auto, unfolding(crate::specs::Events::block_words))]
fn push_block(text: &mut String, name: &str, block: &Pause) -> Result<(), AllocError>
    ensures { OnOk result (string_bytes text.new ≡ string_bytes text.old ++ block_words name.now block.now) }
{
    open_entry(text, name)?;
    text.push_str(": blocked")?;
    push_time(text, block.from, block.until)
}

/// Ends an entry by its time.
#[tactic(auto, unfolding(crate::specs::Events::time_words))]
fn push_time(text: &mut String, from: Moment, until: Moment) -> Result<(), AllocError>
    ensures { OnOk result (string_bytes text.new ≡ string_bytes text.old ++ time_words from until) }
{
    text.push_str(" from ")?;
    push_grouped(text, from.ticks())?;
    text.push_str(" until ")?;
    push_grouped(text, until.ticks())?;
    text.push_str("</li>")
}

/// Appends these cuts.
fn push_cuts(text: &mut String, scenario: &Scenario, cuts: &[Cut]) -> Result<(), AllocError>
    ensures { OnOk result (string_bytes text.new ≡ string_bytes text.old ++ flat_map (cut_entry scenario.now) cuts.now) }
{
    for cut in cuts {
        push_cut(text, scenario, cut)?;
    }
    Ok(())
}

/// Appends a cut.
#[tactic(auto, unfolding(crate::specs::Events::cut_entry))]
fn push_cut(text: &mut String, scenario: &Scenario, cut: &Cut) -> Result<(), AllocError>
    ensures { OnOk result (string_bytes text.new ≡ string_bytes text.old ++ cut_entry scenario.now cut.now) }
{
    text.push_str("<li>cut ")?;
    push_escaped(text, group_name(scenario.groups(), cut.from))?;
    text.push_str(" to ")?;
    push_escaped(text, group_name(scenario.groups(), cut.to))?;
    push_time(text, cut.at, cut.until)
}
