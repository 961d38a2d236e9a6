//! The lines on what happens up to the end of the run: crashes, leaves, restarts, slow times, cuts, pauses and blocks.
ghost use Rattle.std.specs.Prelude.{◌≡◌, ◌++◌, ◌<◌, OnOk, flat_map};
ghost use Rattle.std.specs.String.{string_bytes};
ghost use Rattle.scenario.specs.Setup.{member_count};
ghost use Rattle.meaning.specs.Groups.{groups_of};
ghost use Rattle.meaning_text.specs.Lines.{all_crash_lines, departure_text, departure_line, crash_line, crash_lines, leave_line, restart_words, restart_text, restart_line, slow_text, slow_line, cut_text, cut_line, pause_text, pause_line, script_lines};
ghost use Rattle.meaning_text.specs.Figures.{script_lines_by};

use crate::groups::push_contact;
use crate::summaries::push_summary;
use base::{MemberId, Moment};
use meaning::{group_name, member_name};
use scenario::{Cut, Leave, Pause, Restart, Scenario, ScriptEvent, ScriptKind, Slow};
use script_summary::ScriptSummary;
use std::alloc::AllocError;

/// Appends what of the script happens up to the end: of version 4 entry by entry of the text, which is summed up; else
/// crashes by the members' numbers, the rest in the order of the text.
pub(crate) fn push_script(
    text: &mut String,
    scenario: &Scenario,
    groups: &[usize],
    script: &Option<ScriptSummary>,
) -> Result<(), AllocError>
    requires { groups.now ≡ groups_of scenario.now }
    ensures { OnOk result (string_bytes text.new ≡ string_bytes text.old ++ script_lines_by scenario.now script.now) }
{
    match script {
        Some(script) => push_summary(text, scenario, groups, script),
        None => push_plain(text, scenario, groups),
    }
}

/// Appends the entries of a text whose entries are plain.
#[tactic(auto, unfolding(crate::specs::Lines::script_lines))]
fn push_plain(text: &mut String, scenario: &Scenario, groups: &[usize]) -> Result<(), AllocError>
    requires { groups.now ≡ groups_of scenario.now }
    ensures { OnOk result (string_bytes text.new ≡ string_bytes text.old ++ script_lines scenario.now) }
{
    push_crashes(text, scenario)?;
    push_leaves(text, scenario, scenario.leaves())?;
    push_restarts(text, scenario, scenario.restarts())?;
    push_slows(text, scenario, scenario.slows())?;
    push_cuts(text, scenario, groups, scenario.cuts())?;
    push_pauses(text, scenario, "pause", scenario.pauses())?;
    push_pauses(text, scenario, "block", scenario.blocks())
}

/// Appends the crashes.
pub(crate) fn push_crashes(text: &mut String, scenario: &Scenario) -> Result<(), AllocError>
    ensures { OnOk result (string_bytes text.new ≡ string_bytes text.old ++ all_crash_lines scenario.now) }
{
    for member in 0..scenario.members() {
        push_crashes_of(text, scenario, member)?;
    }
    Ok(())
}

/// Appends the crashes of a member.
fn push_crashes_of(text: &mut String, scenario: &Scenario, member: usize) -> Result<(), AllocError>
    requires { member < member_count scenario.now }
    ensures { OnOk result (string_bytes text.new ≡ string_bytes text.old ++ crash_lines scenario.now member) }
{
    let _few = scenario.members();
    push_crashes_among(text, scenario, scenario.script(MemberId(member as u16)))
}

/// Appends the crashes among what happens to a member.
fn push_crashes_among(
    text: &mut String,
    scenario: &Scenario,
    events: &[ScriptEvent],
) -> Result<(), AllocError>
    ensures { OnOk result (string_bytes text.new ≡ string_bytes text.old ++ flat_map (crash_line scenario.now) events.now) }
{
    for event in events {
        push_crash(text, scenario, event)?;
    }
    Ok(())
}

/// Appends what happens to a member, if it is a crash by the end.
fn push_crash(text: &mut String, scenario: &Scenario, event: &ScriptEvent) -> Result<(), AllocError>
    ensures { OnOk result (string_bytes text.new ≡ string_bytes text.old ++ crash_line scenario.now event.now) }
{
    match event.kind {
        ScriptKind::Crash => {
            push_departure(text, scenario, "crash", event.member.index(), event.at)
        }
        ScriptKind::Leave | ScriptKind::Restart(_) => Ok(()),
    }
}

/// Appends the leaves.
fn push_leaves(text: &mut String, scenario: &Scenario, leaves: &[Leave]) -> Result<(), AllocError>
    ensures { OnOk result (string_bytes text.new ≡ string_bytes text.old ++ flat_map (leave_line scenario.now) leaves.now) }
{
    for leave in leaves {
        push_leave(text, scenario, leave)?;
    }
    Ok(())
}

/// Appends a leave, if it is by the end.
fn push_leave(text: &mut String, scenario: &Scenario, leave: &Leave) -> Result<(), AllocError>
    ensures { OnOk result (string_bytes text.new ≡ string_bytes text.old ++ leave_line scenario.now leave.now) }
{
    push_departure(text, scenario, "leave", leave.member.index(), leave.at)
}

/// Appends who goes and when, unless it is after the end.
fn push_departure(
    text: &mut String,
    scenario: &Scenario,
    word: &str,
    member: usize,
    at: Moment,
) -> Result<(), AllocError>
    ensures { OnOk result (string_bytes text.new ≡ string_bytes text.old ++ departure_line scenario.now word.now member at) }
{
    if at.ticks() <= scenario.end().ticks() {
        push_departure_text(text, scenario, word, member, at)
    } else {
        Ok(())
    }
}

/// Appends who goes and when.
#[tactic(auto, unfolding(crate::specs::Lines::departure_text))]
fn push_departure_text(
    text: &mut String,
    scenario: &Scenario,
    word: &str,
    member: usize,
    at: Moment,
) -> Result<(), AllocError>
    ensures { OnOk result (string_bytes text.new ≡ string_bytes text.old ++ departure_text scenario.now word.now member at) }
{
    let name = member_name(scenario, member);
    let ticks = at.ticks();
    writeln!(text, "{word} {name} {ticks}")
}

/// Appends the restarts.
fn push_restarts(
    text: &mut String,
    scenario: &Scenario,
    restarts: &[Restart],
) -> Result<(), AllocError>
    ensures { OnOk result (string_bytes text.new ≡ string_bytes text.old ++ flat_map (restart_line scenario.now) restarts.now) }
{
    for restart in restarts {
        push_restart(text, scenario, restart)?;
    }
    Ok(())
}

/// Appends a restart, if it is by the end.
fn push_restart(text: &mut String, scenario: &Scenario, restart: &Restart) -> Result<(), AllocError>
    ensures { OnOk result (string_bytes text.new ≡ string_bytes text.old ++ restart_line scenario.now restart.now) }
{
    if restart.at.ticks() <= scenario.end().ticks() {
        push_restart_text(text, scenario, restart)
    } else {
        Ok(())
    }
}

/// Appends who starts again and when, and whom it asks to let it join.
#[tactic(auto, unfolding(crate::specs::Lines::restart_text))]
fn push_restart_text(
    text: &mut String,
    scenario: &Scenario,
    restart: &Restart,
) -> Result<(), AllocError>
    ensures { OnOk result (string_bytes text.new ≡ string_bytes text.old ++ restart_text scenario.now restart.now) }
{
    push_restart_words(text, scenario, restart)?;
    push_contact(text, scenario, restart.contact)?;
    text.push_str("\n")
}

/// Appends who starts again and when.
#[tactic(auto, unfolding(crate::specs::Lines::restart_words))]
fn push_restart_words(
    text: &mut String,
    scenario: &Scenario,
    restart: &Restart,
) -> Result<(), AllocError>
    ensures { OnOk result (string_bytes text.new ≡ string_bytes text.old ++ restart_words scenario.now restart.now) }
{
    let name = member_name(scenario, restart.member.index());
    let at = restart.at.ticks();
    write!(text, "restart {name} {at}")
}

/// Appends the slow times.
fn push_slows(text: &mut String, scenario: &Scenario, slows: &[Slow]) -> Result<(), AllocError>
    ensures { OnOk result (string_bytes text.new ≡ string_bytes text.old ++ flat_map (slow_line scenario.now) slows.now) }
{
    for slow in slows {
        push_slow(text, scenario, slow)?;
    }
    Ok(())
}

/// Appends a slow time, if it begins by the end.
fn push_slow(text: &mut String, scenario: &Scenario, slow: &Slow) -> Result<(), AllocError>
    ensures { OnOk result (string_bytes text.new ≡ string_bytes text.old ++ slow_line scenario.now slow.now) }
{
    if slow.from.ticks() <= scenario.end().ticks() {
        push_slow_text(text, scenario, slow)
    } else {
        Ok(())
    }
}

/// Appends who is slow when, and by how much.
#[tactic(auto, unfolding(crate::specs::Lines::slow_text))]
fn push_slow_text(text: &mut String, scenario: &Scenario, slow: &Slow) -> Result<(), AllocError>
    ensures { OnOk result (string_bytes text.new ≡ string_bytes text.old ++ slow_text scenario.now slow.now) }
{
    let name = member_name(scenario, slow.member.index());
    let from = slow.from.ticks();
    let until = slow.until.ticks();
    let extra = slow.extra;
    writeln!(text, "slow {name} from {from} until {until} extra {extra}")
}

/// Appends the cuts.
pub(crate) fn push_cuts(
    text: &mut String,
    scenario: &Scenario,
    groups: &[usize],
    cuts: &[Cut],
) -> Result<(), AllocError>
    requires { groups.now ≡ groups_of scenario.now }
    ensures { OnOk result (string_bytes text.new ≡ string_bytes text.old ++ flat_map (cut_line scenario.now) cuts.now) }
{
    for cut in cuts {
        push_cut(text, scenario, groups, cut)?;
    }
    Ok(())
}

/// Appends a cut, if it begins by the end.
fn push_cut(
    text: &mut String,
    scenario: &Scenario,
    groups: &[usize],
    cut: &Cut,
) -> Result<(), AllocError>
    requires { groups.now ≡ groups_of scenario.now }
    ensures { OnOk result (string_bytes text.new ≡ string_bytes text.old ++ cut_line scenario.now cut.now) }
{
    if cut.at.ticks() <= scenario.end().ticks() {
        push_cut_text(text, scenario, groups, cut)
    } else {
        Ok(())
    }
}

/// Appends between which groups the link is cut, and when.
#[tactic(auto, unfolding(crate::specs::Lines::cut_text))]
fn push_cut_text(
    text: &mut String,
    scenario: &Scenario,
    groups: &[usize],
    cut: &Cut,
) -> Result<(), AllocError>
    requires { groups.now ≡ groups_of scenario.now }
    ensures { OnOk result (string_bytes text.new ≡ string_bytes text.old ++ cut_text scenario.now cut.now) }
{
    let from = group_name(scenario, groups, cut.from);
    let to = group_name(scenario, groups, cut.to);
    let at = cut.at.ticks();
    let until = cut.until.ticks();
    writeln!(text, "cut {from} {to} from {at} until {until}")
}

/// Appends the pauses, or the blocks, each with this word.
fn push_pauses(
    text: &mut String,
    scenario: &Scenario,
    word: &str,
    pauses: &[Pause],
) -> Result<(), AllocError>
    ensures { OnOk result (string_bytes text.new ≡ string_bytes text.old ++ flat_map (pause_line scenario.now word.now) pauses.now) }
{
    for pause in pauses {
        push_pause(text, scenario, word, pause)?;
    }
    Ok(())
}

/// Appends a pause, or a block, if it begins by the end.
fn push_pause(
    text: &mut String,
    scenario: &Scenario,
    word: &str,
    pause: &Pause,
) -> Result<(), AllocError>
    ensures { OnOk result (string_bytes text.new ≡ string_bytes text.old ++ pause_line scenario.now word.now pause.now) }
{
    if pause.from.ticks() <= scenario.end().ticks() {
        push_pause_text(text, scenario, word, pause)
    } else {
        Ok(())
    }
}

/// Appends who is paused, or blocked, when.
#[tactic(auto, unfolding(crate::specs::Lines::pause_text))]
fn push_pause_text(
    text: &mut String,
    scenario: &Scenario,
    word: &str,
    pause: &Pause,
) -> Result<(), AllocError>
    ensures { OnOk result (string_bytes text.new ≡ string_bytes text.old ++ pause_text scenario.now word.now pause.now) }
{
    let name = member_name(scenario, pause.member.index());
    let from = pause.from.ticks();
    let until = pause.until.ticks();
    writeln!(text, "{word} {name} from {from} until {until}")
}
