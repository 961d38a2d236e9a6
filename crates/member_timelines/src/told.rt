//! What happened to a member, in words.
ghost use Rattle.std.specs.Prelude.{◌≡◌, ◌<◌, ◌≤◌, ◌++◌, OnOk, codes, count_by, flat_map, find, option_map};
ghost use Rattle.std.specs.String.{string_bytes};
ghost use Rattle.std.specs.List.{list_any};
ghost use Rattle.scenario.specs.Setup.{member_count};
ghost use Rattle.reports.specs.Rows.{rows_in_place};
ghost use Rattle.series.specs.Stories.{revives_in};
ghost use Rattle.drawing.specs.Numbers.{grouped};
ghost use Rattle.member_timelines.specs.Numbers.{by_number};
ghost use Rattle.member_timelines.specs.Run.{IsTold};
ghost use Rattle.member_timelines.specs.Told.{story_words, times_back, out_words, departed_words, from_first, back_words, again_words, death_words, wrongly_words, departure_words, found_at, found_words, unharmed_words, event_words, is_departure, departs_by, is_crash, crashes_at, departing_words, is_told, later_words};

use crate::numbers::by_number;
use crate::run::Run;
use base::{MemberId, Moment};
use drawing::{push_grouped, push_timed};
use scenario::{ScriptEvent, ScriptKind};
use series::TraceLine;
use std::alloc::AllocError;
use ticks::Tick;

/// Appends what happened to the member, which has so many false deaths.
#[tactic(auto, unfolding(crate::specs::Told::story_words))]
pub(crate) fn push_told(
    text: &mut String,
    run: &Run,
    member: MemberId,
    wrongly: u64,
) -> Result<(), AllocError>
    requires told { IsTold run.now }
    requires within { member < member_count run.now.scenario.now }
    ensures { OnOk result (string_bytes text.new ≡ string_bytes text.old ++ story_words run.now.tick run.now.scenario.now run.now.tallies.now member wrongly) }
{
    let back = times_back(run, member);
    push_out(text, run.tick, wrongly, back, run.first_confirm(member))?;
    let departure = run.first_departure(member);
    push_departed(
        text,
        run.tick,
        wrongly > 0,
        run.first_confirm(member),
        run.last_refute(member),
        run.scenario.script(member),
        &departure,
    )?;
    push_script(
        text,
        run.tick,
        run.end(),
        &departure,
        run.scenario.script(member),
    )?;
    Ok(())
}

/// How often others declared a member alive again, as far as 64 bits hold it.
pub(crate) fn times_back(run: &Run, member: MemberId) -> u64
    requires told { IsTold run.now }
    requires within { member < member_count run.now.scenario.now }
    ensures { result ≡ times_back run.now.scenario.now run.now.tallies.now member }
{
    let mut times: u64 = 0;
    for span in 0..run.spans() {
        times = times.saturating_add(revived_in(run, member, span));
    }
    times
}

/// How often they did so in a span.
fn revived_in(run: &Run, member: MemberId, span: usize) -> u64
    requires told { IsTold run.now }
    requires within { member < member_count run.now.scenario.now }
    requires few { span < 120 }
    ensures { result ≡ count_by (revives_in run.now.scenario.now member span) (rows_in_place run.now.tallies.now) }
{
    run.story(member).revived(span)
}

/// Appends the false deaths of a member, where it has some.
fn push_out(
    text: &mut String,
    time: Option<Tick>,
    times: u64,
    back: u64,
    first: Option<TraceLine>,
) -> Result<(), AllocError>
    ensures { OnOk result (string_bytes text.new ≡ string_bytes text.old ++ out_words time times back first) }
{
    if times > 0 {
        return push_wrongly(text, time, times, back, first);
    }
    Ok(())
}

/// Appends how and when the member first departed and when others declared it dead, after other words or alone;
/// or what became of it where it didn't depart.
#[tactic(auto, unfolding(crate::specs::Told::departed_words))]
fn push_departed(
    text: &mut String,
    time: Option<Tick>,
    is_out: bool,
    first: Option<TraceLine>,
    last: Option<TraceLine>,
    script: &[ScriptEvent],
    departure: &Option<Moment>,
) -> Result<(), AllocError>
    ensures { OnOk result (string_bytes text.new ≡ string_bytes text.old ++ departed_words time is_out first last script.now departure.now) }
{
    if let Some(at) = departure {
        push_departure(text, time, is_out, departing_words(script, *at), *at)?;
        return push_found(text, time, first);
    }
    if is_out {
        return Ok(());
    }
    push_unharmed(text, last)
}

/// Appends how often others declared the member dead while it was up, when they first did, and how
/// often they declared it alive again.
#[tactic(auto, unfolding(crate::specs::Told::wrongly_words))]
fn push_wrongly(
    text: &mut String,
    time: Option<Tick>,
    times: u64,
    back: u64,
    first: Option<TraceLine>,
) -> Result<(), AllocError>
    ensures { OnOk result (string_bytes text.new ≡ string_bytes text.old ++ wrongly_words time times back first) }
{
    push_deaths(text, times)?;
    push_first(text, time, first)?;
    push_back(text, back)
}

/// Appends how many false deaths a member has.
#[tactic(auto, unfolding(crate::specs::Told::death_words))]
fn push_deaths(text: &mut String, times: u64) -> Result<(), AllocError>
    ensures { OnOk result (string_bytes text.new ≡ string_bytes text.old ++ death_words times) }
{
    text.push_str("<b>")?;
    push_grouped(text, times)?;
    text.push_str(by_number(times, " false death</b>", " false deaths</b>"))?;
    Ok(())
}

/// Appends when the member was first declared dead, where it was.
fn push_first(
    text: &mut String,
    time: Option<Tick>,
    first: Option<TraceLine>,
) -> Result<(), AllocError>
    ensures { OnOk result (string_bytes text.new ≡ string_bytes text.old ++ from_first time (codes ", first at ") first) }
{
    match first {
        Some(line) => {
            text.push_str(", first at ")?;
            push_timed(text, time, line.at.ticks())
        }
        None => Ok(()),
    }
}

/// Appends how often the member was declared alive again, where it was.
fn push_back(text: &mut String, times: u64) -> Result<(), AllocError>
    ensures { OnOk result (string_bytes text.new ≡ string_bytes text.old ++ back_words times) }
{
    if times > 0 {
        return push_times_back(text, times);
    }
    Ok(())
}

/// Appends that the member was declared alive again so often.
#[tactic(auto, unfolding(crate::specs::Told::again_words))]
fn push_times_back(text: &mut String, times: u64) -> Result<(), AllocError>
    ensures { OnOk result (string_bytes text.new ≡ string_bytes text.old ++ again_words times) }
{
    text.push_str(", declared alive again ")?;
    push_grouped(text, times)?;
    text.push_str(by_number(times, " time", " times"))?;
    Ok(())
}

/// Appends how and when the member departed, after other words or alone.
#[tactic(auto, unfolding(crate::specs::Told::departure_words))]
fn push_departure(
    text: &mut String,
    time: Option<Tick>,
    is_more: bool,
    words: &str,
    at: Moment,
) -> Result<(), AllocError>
    ensures { OnOk result (string_bytes text.new ≡ string_bytes text.old ++ departure_words time is_more words.now at) }
{
    if is_more {
        text.push_str("; ")?;
    }
    text.push_str(words)?;
    push_timed(text, time, at.ticks())
}

/// Appends when others first declared a member dead that crashed or left.
fn push_found(
    text: &mut String,
    time: Option<Tick>,
    first: Option<TraceLine>,
) -> Result<(), AllocError>
    ensures { OnOk result (string_bytes text.new ≡ string_bytes text.old ++ found_words time first) }
{
    match first {
        Some(line) => push_found_at(text, time, line.at.ticks()),
        None => text.push_str(", never declared dead"),
    }
}

/// Appends that others first declared it dead then.
#[tactic(auto, unfolding(crate::specs::Told::found_at))]
fn push_found_at(text: &mut String, time: Option<Tick>, at: u64) -> Result<(), AllocError>
    ensures { OnOk result (string_bytes text.new ≡ string_bytes text.old ++ found_at time at) }
{
    text.push_str(", first declared dead at ")?;
    push_timed(text, time, at)?;
    Ok(())
}

/// Appends what else happened to a member with this script by the end, behind its first departure.
fn push_script(
    text: &mut String,
    time: Option<Tick>,
    end: u64,
    departure: &Option<Moment>,
    script: &[ScriptEvent],
) -> Result<(), AllocError>
    ensures { OnOk result (string_bytes text.new ≡ string_bytes text.old ++ flat_map (later_words time end departure.now) script.now) }
{
    for event in script {
        push_later(text, time, end, departure, event)?;
    }
    Ok(())
}

/// Appends an event of the script, where it is by the end and isn't that departure.
fn push_later(
    text: &mut String,
    time: Option<Tick>,
    end: u64,
    departure: &Option<Moment>,
    event: &ScriptEvent,
) -> Result<(), AllocError>
    ensures { OnOk result (string_bytes text.new ≡ string_bytes text.old ++ later_words time end departure.now event.now) }
{
    if is_told(departure, event) {
        return Ok(());
    }
    if event.at.ticks() <= end {
        return push_departure(text, time, true, event_words(event.kind), event.at);
    }
    Ok(())
}

/// Whether the event is that departure, or another at its moment.
fn is_told(departure: &Option<Moment>, event: &ScriptEvent) -> bool
    ensures { result ≡ is_told departure.now event.now }
{
    match departure {
        Some(at) => is_departure(event.kind) && *at == event.at,
        None => false,
    }
}

/// When the member of a script first departs, where it does by a moment.
pub(crate) fn first_of(script: &[ScriptEvent], end: u64) -> Option<Moment>
    ensures { result ≡ option_map (λ event. event.at) (find (departs_by end) script.now) }
{
    script
        .iter()
        .find(|event| departs_by(end, event))
        .map(|event| event.at)
}

/// Whether a member departs with the event, by a moment.
fn departs_by(end: u64, event: &ScriptEvent) -> bool
    ensures { result ≡ departs_by end event.now }
{
    is_departure(event.kind) && event.at.ticks() <= end
}

/// How the member of a script departs then: at one moment a crash comes before a leave.
fn departing_words(script: &[ScriptEvent], at: Moment) -> &'static str
    ensures { result.now ≡ departing_words script.now at }
{
    if has_crash(script, at) {
        return "crashed at ";
    }
    "left at "
}

/// Whether the member of a script crashes then.
fn has_crash(script: &[ScriptEvent], at: Moment) -> bool
    ensures { result ≡ list_any (crashes_at at) script.now }
{
    script.iter().any(|event| crashes_at(at, event))
}

/// Whether a member crashes by the event, then.
fn crashes_at(at: Moment, event: &ScriptEvent) -> bool
    ensures { result ≡ crashes_at at event.now }
{
    is_crash(event.kind) && event.at == at
}

/// Whether it is a crash.
fn is_crash(kind: ScriptKind) -> bool
    ensures { result ≡ is_crash kind }
{
    match kind {
        ScriptKind::Crash => true,
        ScriptKind::Leave | ScriptKind::Restart(_) => false,
    }
}

/// Whether a member departs so: it doesn't start again.
fn is_departure(kind: ScriptKind) -> bool
    ensures { result ≡ is_departure kind }
{
    match kind {
        ScriptKind::Crash | ScriptKind::Leave => true,
        ScriptKind::Restart(_) => false,
    }
}

/// What happened to a member by its script.
fn event_words(kind: ScriptKind) -> &'static str
    ensures { result.now ≡ event_words kind }
{
    match kind {
        ScriptKind::Crash => "crashed at ",
        ScriptKind::Leave => "left at ",
        ScriptKind::Restart(_) => "restarted at ",
    }
}

/// Appends what became of a member that neither departed nor has a false death.
#[tactic(auto, unfolding(crate::specs::Told::unharmed_words))]
fn push_unharmed(text: &mut String, last: Option<TraceLine>) -> Result<(), AllocError>
    ensures { OnOk result (string_bytes text.new ≡ string_bytes text.old ++ unharmed_words last) }
{
    match last {
        Some(_) => text.push_str("suspected, and refuted it"),
        None => text.push_str("never declared dead"),
    }
}
