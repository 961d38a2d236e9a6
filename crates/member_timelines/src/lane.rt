//! One lane.
ghost use Rattle.std.specs.Prelude.{◌≡◌, ◌<◌, ◌≤◌, ◌++◌, OnOk, codes, flat_map};
ghost use Rattle.std.specs.String.{string_bytes};
ghost use Rattle.std.specs.List.{range_with_len};
ghost use Rattle.scenario.specs.Setup.{member_count, name_of, script_of, start_of};
ghost use Rattle.series.specs.Spans.{span_count};
ghost use Rattle.drawing.specs.Shapes.{plot_opening};
ghost use Rattle.member_timelines.specs.Run.{IsTold};
ghost use Rattle.member_timelines.specs.Lanes.{others, moments, lane_description, lane_opening, lane_plot, lane, bands, slow_band, pause_band, cut_band, is_cut_of, time_band, areas, stacked_areas, marks, start_rule, event_class, event_rule, back_rule, refute_dot};

use crate::counts::{flat, stacked};
use crate::run::Run;
use crate::told::push_told;
use base::{MemberId, Memory, Moment};
use drawing::{close_plot, open_plot, push_area, push_band, push_dot, push_escaped, push_rule};
use scenario::{Cut, Pause, ScriptEvent, ScriptKind, Slow};
use std::alloc::{AllocError, Global};

/// Appends the lane of a member with so many false deaths.
#[tactic(auto, unfolding(crate::specs::Lanes::lane))]
pub(crate) fn push_lane(
    alloc: Global,
    text: &mut String,
    run: &Run,
    member: MemberId,
    wrongly: u64,
) -> Result<(), Memory>
    requires told { IsTold run.now }
    requires within { member < member_count run.now.scenario.now }
    ensures { OnOk result (string_bytes text.new ≡ string_bytes text.old ++ lane run.now.tick run.now.scenario.now run.now.tallies.now member wrongly) }
{
    push_plot(alloc, text, run, member)?;
    text.push_str("<div class=\"told\">")?;
    push_told(text, run, member, wrongly)?;
    text.push_str("</div></div>\n")?;
    Ok(())
}

/// Appends what is drawn of a member.
#[tactic(auto, unfolding(crate::specs::Lanes::lane_plot))]
fn push_plot(alloc: Global, text: &mut String, run: &Run, member: MemberId) -> Result<(), Memory>
    requires told { IsTold run.now }
    requires within { member < member_count run.now.scenario.now }
    ensures { OnOk result (string_bytes text.new ≡ string_bytes text.old ++ lane_plot run.now.scenario.now run.now.tallies.now member) }
{
    open_lane_of(text, run, member)?;
    push_bands(text, run, member)?;
    push_areas(alloc, text, run, member)?;
    push_marks(text, run, member)?;
    close_plot(text)?;
    Ok(())
}

/// Begins the lane of a member.
fn open_lane_of(text: &mut String, run: &Run, member: MemberId) -> Result<(), AllocError>
    requires told { IsTold run.now }
    requires within { member < member_count run.now.scenario.now }
    ensures { OnOk result (string_bytes text.new ≡ string_bytes text.old ++ lane_opening run.now.scenario.now (name_of run.now.scenario.now member)) }
{
    open_lane(text, run, run.scenario.name(member))
}

/// Begins the lane of a member of that name.
#[tactic(auto, unfolding(crate::specs::Lanes::lane_opening))]
fn open_lane(text: &mut String, run: &Run, name: &str) -> Result<(), AllocError>
    requires { IsTold run.now }
    ensures { OnOk result (string_bytes text.new ≡ string_bytes text.old ++ lane_opening run.now.scenario.now name.now) }
{
    text.push_str("<div class=\"lane\"><div class=\"name\">")?;
    push_escaped(text, name)?;
    text.push_str("</div>")?;
    open_lane_plot(text, run, name)?;
    Ok(())
}

/// Begins its plot.
fn open_lane_plot(text: &mut String, run: &Run, name: &str) -> Result<(), AllocError>
    requires { IsTold run.now }
    ensures { OnOk result (string_bytes text.new ≡ string_bytes text.old
        ++ plot_opening (codes "") (moments run.now.scenario.now) (others run.now.scenario.now) name.now lane_description) }
{
    open_plot(
        text,
        "",
        run.end() + 1,
        run.others(),
        name,
        "Over time, how many other members suspect it and how many have declared it dead.",
    )
}

/// Appends when the member was slow, paused, blocked and cut off.
#[tactic(auto, unfolding(crate::specs::Lanes::bands))]
fn push_bands(text: &mut String, run: &Run, member: MemberId) -> Result<(), AllocError>
    requires told { IsTold run.now }
    requires within { member < member_count run.now.scenario.now }
    ensures { OnOk result (string_bytes text.new ≡ string_bytes text.old ++ bands run.now.scenario.now member) }
{
    push_slows(text, run, run.scenario.slows(), member)?;
    push_pauses(text, run, run.scenario.pauses(), member)?;
    push_pauses(text, run, run.scenario.blocks(), member)?;
    push_cuts(
        text,
        run,
        run.scenario.cuts(),
        run.scenario.group_number(member),
    )
}

/// Appends when the member was slow.
fn push_slows(
    text: &mut String,
    run: &Run,
    slows: &[Slow],
    member: MemberId,
) -> Result<(), AllocError>
    requires { IsTold run.now }
    ensures { OnOk result (string_bytes text.new ≡ string_bytes text.old ++ flat_map (slow_band run.now.scenario.now member) slows.now) }
{
    for slow in slows {
        push_slow(text, run, slow, member)?;
    }
    Ok(())
}

/// Appends a time in which a member is slow, where it is this one.
fn push_slow(text: &mut String, run: &Run, slow: &Slow, member: MemberId) -> Result<(), AllocError>
    requires { IsTold run.now }
    ensures { OnOk result (string_bytes text.new ≡ string_bytes text.old ++ slow_band run.now.scenario.now member slow.now) }
{
    if slow.member == member {
        return push_time(text, run, "slow", slow.from, slow.until);
    }
    Ok(())
}

/// Appends when its process was paused, or blocked.
fn push_pauses(
    text: &mut String,
    run: &Run,
    pauses: &[Pause],
    member: MemberId,
) -> Result<(), AllocError>
    requires { IsTold run.now }
    ensures { OnOk result (string_bytes text.new ≡ string_bytes text.old ++ flat_map (pause_band run.now.scenario.now member) pauses.now) }
{
    for pause in pauses {
        push_pause(text, run, pause, member)?;
    }
    Ok(())
}

/// Appends a time in which a member's process is paused or blocked, where it is this one's.
fn push_pause(
    text: &mut String,
    run: &Run,
    pause: &Pause,
    member: MemberId,
) -> Result<(), AllocError>
    requires { IsTold run.now }
    ensures { OnOk result (string_bytes text.new ≡ string_bytes text.old ++ pause_band run.now.scenario.now member pause.now) }
{
    if pause.member == member {
        return push_time(text, run, "pause", pause.from, pause.until);
    }
    Ok(())
}

/// Appends when a group was cut off.
fn push_cuts(text: &mut String, run: &Run, cuts: &[Cut], group: usize) -> Result<(), AllocError>
    requires { IsTold run.now }
    ensures { OnOk result (string_bytes text.new ≡ string_bytes text.old ++ flat_map (cut_band run.now.scenario.now group) cuts.now) }
{
    for cut in cuts {
        push_cut(text, run, cut, group)?;
    }
    Ok(())
}

/// Appends the time of a cut, where it is one of the group's.
fn push_cut(text: &mut String, run: &Run, cut: &Cut, group: usize) -> Result<(), AllocError>
    requires { IsTold run.now }
    ensures { OnOk result (string_bytes text.new ≡ string_bytes text.old ++ cut_band run.now.scenario.now group cut.now) }
{
    if is_cut_of(cut, group) {
        return push_time(text, run, "cut", cut.at, cut.until);
    }
    Ok(())
}

/// Whether a cut is one of a group's: of what its members send, or of what is sent to them.
pub fn is_cut_of(cut: &Cut, group: usize) -> bool
    ensures { result ≡ is_cut_of group cut.now }
{
    cut.from == group || cut.to == group
}

/// Appends a band over a time, as far as the run goes.
fn push_time(
    text: &mut String,
    run: &Run,
    class: &str,
    from: Moment,
    until: Moment,
) -> Result<(), AllocError>
    requires { IsTold run.now }
    ensures { OnOk result (string_bytes text.new ≡ string_bytes text.old ++ time_band class.now run.now.scenario.now from until) }
{
    let past = run.end() + 1;
    push_band(
        text,
        class,
        from.ticks().min(past),
        until.ticks().min(past),
        run.others(),
    )
}

/// Appends how many have declared the member dead and, on top of that, how many suspect it.
#[tactic(auto, unfolding(crate::specs::Lanes::areas))]
fn push_areas(alloc: Global, text: &mut String, run: &Run, member: MemberId) -> Result<(), Memory>
    requires told { IsTold run.now }
    requires within { member < member_count run.now.scenario.now }
    ensures { OnOk result (string_bytes text.new ≡ string_bytes text.old ++ areas run.now.scenario.now run.now.tallies.now member) }
{
    let dead = run.held(alloc, member, 2)?;
    let suspected = run.held(alloc, member, 1)?;
    push_stacked(alloc, text, run, dead.as_slice(), suspected.as_slice())
}

/// Appends two areas, the one on top of the other.
fn push_stacked(
    alloc: Global,
    text: &mut String,
    run: &Run,
    dead: &[u64],
    suspected: &[u64],
) -> Result<(), Memory>
    requires { IsTold run.now }
    ensures { OnOk result (string_bytes text.new ≡ string_bytes text.old ++ stacked_areas run.now.scenario.now dead.now suspected.now) }
{
    let most = run.others();
    let past = run.end() + 1;
    let none = flat(alloc, run.spans())?;
    let tops = stacked(alloc, dead, suspected, most)?;
    push_area(
        text,
        "suspect",
        dead,
        tops.as_slice(),
        run.width(),
        past,
        most,
    )?;
    push_area(text, "dead", none.as_slice(), dead, run.width(), past, most)?;
    Ok(())
}

/// Appends what happened to the member and what it did.
#[tactic(auto, unfolding(crate::specs::Lanes::marks))]
fn push_marks(text: &mut String, run: &Run, member: MemberId) -> Result<(), AllocError>
    requires told { IsTold run.now }
    requires within { member < member_count run.now.scenario.now }
    ensures { OnOk result (string_bytes text.new ≡ string_bytes text.old ++ marks run.now.scenario.now run.now.tallies.now member) }
{
    push_start(text, run, run.scenario.start(member))?;
    push_script(text, run, run.scenario.script(member))?;
    push_backs(text, run, member)?;
    push_refutes(text, run, member)
}

/// Appends that a member starts then, where it does so within the run.
fn push_start(text: &mut String, run: &Run, at: Moment) -> Result<(), AllocError>
    requires { IsTold run.now }
    ensures { OnOk result (string_bytes text.new ≡ string_bytes text.old ++ start_rule run.now.scenario.now at) }
{
    let start = at.ticks();
    if start > 0 && start <= run.end() {
        return push_rule(text, "start", start, run.others());
    }
    Ok(())
}

/// Appends when a member with this script crashes, leaves and starts again.
fn push_script(text: &mut String, run: &Run, script: &[ScriptEvent]) -> Result<(), AllocError>
    requires { IsTold run.now }
    ensures { OnOk result (string_bytes text.new ≡ string_bytes text.old ++ flat_map (event_rule run.now.scenario.now) script.now) }
{
    for event in script {
        push_event(text, run, event)?;
    }
    Ok(())
}

/// Appends an event of a member's script, where it is by the end.
fn push_event(text: &mut String, run: &Run, event: &ScriptEvent) -> Result<(), AllocError>
    requires { IsTold run.now }
    ensures { OnOk result (string_bytes text.new ≡ string_bytes text.old ++ event_rule run.now.scenario.now event.now) }
{
    let at = event.at.ticks();
    if at <= run.end() {
        return push_rule(text, event_class(event.kind), at, run.others());
    }
    Ok(())
}

/// By what class of rule such an event is drawn.
fn event_class(kind: ScriptKind) -> &'static str
    ensures { result.now ≡ event_class kind }
{
    match kind {
        ScriptKind::Crash => "crash",
        ScriptKind::Leave => "leave",
        ScriptKind::Restart(_) => "start",
    }
}

/// Appends when others declared the member alive again.
#[tactic(auto, using(crate::proofs::Steps::each_more))]
fn push_backs(text: &mut String, run: &Run, member: MemberId) -> Result<(), AllocError>
    requires told { IsTold run.now }
    requires within { member < member_count run.now.scenario.now }
    ensures { OnOk result (string_bytes text.new ≡ string_bytes text.old
        ++ flat_map (back_rule run.now.scenario.now run.now.tallies.now member) (range_with_len 0 (span_count run.now.scenario.now))) }
{
    for span in 0..run.spans() {
        push_back(text, run, member, span)?;
    }
    Ok(())
}

/// Appends that others did so in a span, where they did.
fn push_back(text: &mut String, run: &Run, member: MemberId, span: usize) -> Result<(), AllocError>
    requires told { IsTold run.now }
    requires within { member < member_count run.now.scenario.now }
    requires few { span < 120 }
    ensures { OnOk result (string_bytes text.new ≡ string_bytes text.old ++ back_rule run.now.scenario.now run.now.tallies.now member span) }
{
    if run.story(member).revived(span) > 0 {
        return push_rule(text, "back", run.middle(span), run.others());
    }
    Ok(())
}

/// Appends when it refuted what was said of it.
#[tactic(auto, using(crate::proofs::Steps::each_more))]
fn push_refutes(text: &mut String, run: &Run, member: MemberId) -> Result<(), AllocError>
    requires told { IsTold run.now }
    requires within { member < member_count run.now.scenario.now }
    ensures { OnOk result (string_bytes text.new ≡ string_bytes text.old
        ++ flat_map (refute_dot run.now.scenario.now run.now.tallies.now member) (range_with_len 0 (span_count run.now.scenario.now))) }
{
    for span in 0..run.spans() {
        push_refute(text, run, member, span)?;
    }
    Ok(())
}

/// Appends that it did so in a span, where it did.
fn push_refute(
    text: &mut String,
    run: &Run,
    member: MemberId,
    span: usize,
) -> Result<(), AllocError>
    requires told { IsTold run.now }
    requires within { member < member_count run.now.scenario.now }
    requires few { span < 120 }
    ensures { OnOk result (string_bytes text.new ≡ string_bytes text.old ++ refute_dot run.now.scenario.now run.now.tallies.now member span) }
{
    if run.story(member).refuted(span) > 0 {
        return push_dot(text, "refute", run.middle(span), run.others());
    }
    Ok(())
}
