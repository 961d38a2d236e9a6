//! Lanes: one for each member that was accused, or that the scenario has something happen to.
ghost use Rattle.std.specs.Prelude.{◌≡◌, ◌<◌, ◌≤◌, ◌^◌, ◌++◌, ◌||◌, OnOk, All, codes, flat_map, take, length, not, nat_eq, if◌then◌else◌};
ghost use Rattle.std.specs.String.{string_bytes};
ghost use Rattle.scenario.specs.Setup.{member_count};
ghost use Rattle.member_timelines.specs.Run.{IsTold};
ghost use Rattle.member_timelines.specs.LaneTable.{entry_where, pause_words, lane_legend, column_words, lane_words, time_axis, lane_axis, more_words, lane_rest, table_row, span_row, span_rows, member_rows, lane_table, lane_at, lanes_of, lanes_text};

use crate::chosen::{Chosen, first_lanes};
use crate::counts::before;
use crate::lane::push_lane;
use crate::numbers::by_number;
use crate::run::Run;
use base::{MemberId, Memory};
use drawing::{
    close_figure, open_figure, push_entry, push_escaped, push_grouped, push_lasting,
    push_moment_alone, push_time_across,
};
use std::alloc::{AllocError, Global};
use ticks::Tick;

/// The most lanes.
const LANES: usize = 60;

/// Appends the lanes of these members, which are all that get one, in their order.
#[tactic(auto, unfolding(crate::specs::LaneTable::lanes_text))]
pub fn push_lanes(alloc: Global, text: &mut String, run: &Run, all: &[Chosen]) -> Result<(), Memory>
    requires told { IsTold run.now }
    requires within { All (λ lane. lane.member < member_count run.now.scenario.now) all.now }
    ensures { OnOk result (string_bytes text.new ≡ string_bytes text.old ++ lanes_text run.now.tick run.now.scenario.now run.now.tallies.now all.now) }
{
    open_figure(
        text,
        "lanes",
        "Who was suspected, and who was declared dead",
    )?;
    push_body(alloc, text, run, all)?;
    close_figure(text)?;
    Ok(())
}

/// Appends what stands in the figure.
fn push_body(alloc: Global, text: &mut String, run: &Run, all: &[Chosen]) -> Result<(), Memory>
    requires told { IsTold run.now }
    requires within { All (λ lane. lane.member < member_count run.now.scenario.now) all.now }
    ensures { OnOk result (string_bytes text.new ≡ string_bytes text.old
        ++ (if nat_eq (length all.now) 0 then codes "<p>No member was suspected, crashed, left, was slow or was paused.</p>" else lanes_of run.now.tick run.now.scenario.now run.now.tallies.now all.now)) }
{
    if all.is_empty() {
        text.push_str("<p>No member was suspected, crashed, left, was slow or was paused.</p>")?;
        return Ok(());
    }
    push_all(alloc, text, run, all)
}

/// Appends the lanes of these members, as many as there is room for.
#[tactic(auto, unfolding(crate::specs::LaneTable::lanes_of))]
fn push_all(alloc: Global, text: &mut String, run: &Run, all: &[Chosen]) -> Result<(), Memory>
    requires told { IsTold run.now }
    requires within { All (λ lane. lane.member < member_count run.now.scenario.now) all.now }
    ensures { OnOk result (string_bytes text.new ≡ string_bytes text.old ++ lanes_of run.now.tick run.now.scenario.now run.now.tallies.now all.now) }
{
    push_words(text, run)?;
    push_each(alloc, text, run, first_lanes(all, LANES))?;
    push_axis(text, run)?;
    push_rest(text, all.len())?;
    push_table(alloc, text, run, first_lanes(all, LANES))
}

/// Appends a lane for each of these members.
fn push_each(alloc: Global, text: &mut String, run: &Run, lanes: &[Chosen]) -> Result<(), Memory>
    requires told { IsTold run.now }
    requires within { All (λ lane. lane.member < member_count run.now.scenario.now) lanes.now }
    ensures { OnOk result (string_bytes text.new ≡ string_bytes text.old ++ flat_map (lane_at run.now.tick run.now.scenario.now run.now.tallies.now) lanes.now) }
{
    for lane in lanes {
        push_lane(alloc, text, run, MemberId(lane.member), lane.wrongly())?;
    }
    Ok(())
}

/// Appends what the lanes show.
#[tactic(auto, unfolding(crate::specs::LaneTable::lane_words))]
fn push_words(text: &mut String, run: &Run) -> Result<(), AllocError>
    requires told { IsTold run.now }
    ensures { OnOk result (string_bytes text.new ≡ string_bytes text.old ++ lane_words run.now.tick run.now.scenario.now) }
{
    text.push_str(
        "<p class=\"soft\">One lane per member. Its height stands for all other members: how many of them suspect it, and how many have declared it dead.</p><ul class=\"legend\">",
    )?;
    push_legend_of(text, run)?;
    text.push_str(
        "</ul><p class=\"soft\">Solid vertical line: the member crashes; dashed: it leaves or starts; dotted: others declare it alive again; dot: it refutes a claim.</p>",
    )?;
    push_column(text, run.tick, run.width())?;
    Ok(())
}

/// Appends how long a column of a lane is, for nothing is drawn narrower.
#[tactic(auto, unfolding(crate::specs::LaneTable::column_words))]
fn push_column(text: &mut String, time: Option<Tick>, width: u64) -> Result<(), AllocError>
    ensures { OnOk result (string_bytes text.new ≡ string_bytes text.old ++ column_words time width) }
{
    text.push_str("<p class=\"soft\">Each column is ")?;
    push_grouped(text, width)?;
    text.push_str(by_number(width, " tick", " ticks"))?;
    push_lasting(text, time, width)?;
    text.push_str(" wide: a shorter suspicion is drawn as wide.</p>")?;
    Ok(())
}

/// Appends what the colours of the lanes of a run stand for.
fn push_legend_of(text: &mut String, run: &Run) -> Result<(), AllocError>
    ensures { OnOk result (string_bytes text.new ≡ string_bytes text.old
        ++ lane_legend (not (nat_eq (length run.now.scenario.now.slows) 0)) (not (nat_eq (length run.now.scenario.now.pauses) 0)) (not (nat_eq (length run.now.scenario.now.blocks) 0)) (not (nat_eq (length run.now.scenario.now.cuts) 0))) }
{
    let is_slow = !run.scenario.slows().is_empty();
    let is_paused = !run.scenario.pauses().is_empty();
    let is_blocked = !run.scenario.blocks().is_empty();
    let is_cut = !run.scenario.cuts().is_empty();
    push_legend(text, is_slow, is_paused, is_blocked, is_cut)
}

/// Appends what the colours of the lanes stand for, where some member is slow, paused, blocked or cut
/// off.
#[tactic(auto, unfolding(crate::specs::LaneTable::lane_legend))]
fn push_legend(
    text: &mut String,
    is_slow: bool,
    is_paused: bool,
    is_blocked: bool,
    is_cut: bool,
) -> Result<(), AllocError>
    ensures { OnOk result (string_bytes text.new ≡ string_bytes text.old ++ lane_legend is_slow is_paused is_blocked is_cut) }
{
    push_entry(text, "suspect", "suspect it")?;
    push_entry(text, "dead", "have declared it dead")?;
    push_entry_where(text, is_slow, "slow", "it is slow")?;
    push_pause_entry(text, is_paused, is_blocked)?;
    push_entry_where(text, is_cut, "cut", "it is cut off")?;
    Ok(())
}

/// Appends what the colour of a pause stands for, where some member is paused or blocked.
fn push_pause_entry(text: &mut String, is_paused: bool, is_blocked: bool) -> Result<(), AllocError>
    ensures { OnOk result (string_bytes text.new ≡ string_bytes text.old ++ entry_where (is_paused || is_blocked) (codes "pause") (pause_words is_blocked)) }
{
    let is_there = is_paused || is_blocked;
    push_entry_where(text, is_there, "pause", pause_words(is_blocked))
}

/// What the colour of a pause stands for, where some member is blocked.
fn pause_words(is_blocked: bool) -> &'static str
    ensures { result.now ≡ pause_words is_blocked }
{
    if is_blocked {
        "it is paused or blocked"
    } else {
        "it is paused"
    }
}

/// Appends an entry of a legend, where what it stands for is there.
fn push_entry_where(
    text: &mut String,
    is_there: bool,
    class: &str,
    words: &str,
) -> Result<(), AllocError>
    ensures { OnOk result (string_bytes text.new ≡ string_bytes text.old ++ entry_where is_there class.now words.now) }
{
    if is_there {
        return push_entry(text, class, words);
    }
    Ok(())
}

/// Appends how many more members would have a lane.
fn push_rest(text: &mut String, all: usize) -> Result<(), AllocError>
    ensures { OnOk result (string_bytes text.new ≡ string_bytes text.old ++ lane_rest all) }
{
    if all <= LANES {
        return Ok(());
    }
    push_more(text, (all - LANES) as u64)
}

/// Appends that so many more members would have a lane.
#[tactic(auto, unfolding(crate::specs::LaneTable::more_words))]
fn push_more(text: &mut String, more: u64) -> Result<(), AllocError>
    ensures { OnOk result (string_bytes text.new ≡ string_bytes text.old ++ more_words more) }
{
    write!(text, "<p class=\"soft\">{more}")?;
    text.push_str(by_number(
        more,
        " more member isn't shown.</p>",
        " more members aren't shown.</p>",
    ))
}

/// Appends the axis below the lanes.
#[tactic(auto, unfolding(crate::specs::LaneTable::lane_axis))]
fn push_axis(text: &mut String, run: &Run) -> Result<(), AllocError>
    ensures { OnOk result (string_bytes text.new ≡ string_bytes text.old ++ lane_axis run.now.tick run.now.scenario.now) }
{
    text.push_str("<div class=\"lane\">")?;
    push_time_axis(text, run)?;
    text.push_str("</div>")?;
    Ok(())
}

/// Appends the axis of time.
pub fn push_time_axis(text: &mut String, run: &Run) -> Result<(), AllocError>
    ensures { OnOk result (string_bytes text.new ≡ string_bytes text.old ++ time_axis run.now.tick run.now.scenario.now) }
{
    push_time_across(
        text,
        run.end().max(1),
        "moment, in ticks",
        "moment",
        run.tick,
    )
}

/// Appends the lanes as a table: for each the spans in which something changes.
#[tactic(auto, unfolding(crate::specs::LaneTable::lane_table))]
fn push_table(alloc: Global, text: &mut String, run: &Run, lanes: &[Chosen]) -> Result<(), Memory>
    requires told { IsTold run.now }
    requires within { All (λ lane. lane.member < member_count run.now.scenario.now) lanes.now }
    ensures { OnOk result (string_bytes text.new ≡ string_bytes text.old ++ lane_table run.now.tick run.now.scenario.now run.now.tallies.now lanes.now) }
{
    text.push_str(
        "<details><summary>The lanes as a table</summary><div class=\"wide\"><table><caption>\
         How many members suspect each member, and how many have declared it dead, \
         from each moment at which that changes</caption>",
    )?;
    text.push_str(
        "<thead><tr><th scope=\"col\">member</th><th scope=\"col\">from moment</th>\
         <th scope=\"col\">suspect it</th><th scope=\"col\">have declared it dead</th></tr></thead><tbody>\n",
    )?;
    push_each_rows(alloc, text, run, lanes)?;
    text.push_str("</table></div></details>")?;
    Ok(())
}

/// Appends the rows of each of these lanes.
fn push_each_rows(
    alloc: Global,
    text: &mut String,
    run: &Run,
    lanes: &[Chosen],
) -> Result<(), Memory>
    requires told { IsTold run.now }
    requires within { All (λ lane. lane.member < member_count run.now.scenario.now) lanes.now }
    ensures { OnOk result (string_bytes text.new ≡ string_bytes text.old
        ++ flat_map (λ lane. member_rows run.now.tick run.now.scenario.now run.now.tallies.now lane.member) lanes.now) }
{
    for lane in lanes {
        push_member(alloc, text, run, MemberId(lane.member))?;
    }
    Ok(())
}

/// Appends a member's rows.
fn push_member(alloc: Global, text: &mut String, run: &Run, member: MemberId) -> Result<(), Memory>
    requires told { IsTold run.now }
    requires within { member < member_count run.now.scenario.now }
    ensures { OnOk result (string_bytes text.new ≡ string_bytes text.old ++ member_rows run.now.tick run.now.scenario.now run.now.tallies.now member) }
{
    let suspected = run.held(alloc, member, 1)?;
    let dead = run.held(alloc, member, 2)?;
    push_spans(
        text,
        run.tick,
        run.scenario.name(member),
        run.width(),
        run.spans(),
        suspected.as_slice(),
        dead.as_slice(),
    )?;
    Ok(())
}

/// Appends the rows of so many spans.
fn push_spans(
    text: &mut String,
    time: Option<Tick>,
    name: &str,
    width: u64,
    spans: usize,
    suspected: &[u64],
    dead: &[u64],
) -> Result<(), AllocError>
    requires suspected { spans ≤ length suspected.now }
    requires dead { spans ≤ length dead.now }
    requires small { width ≤ 2 ^ 40 }
    requires few { spans ≤ 120 }
    ensures { OnOk result (string_bytes text.new ≡ string_bytes text.old ++ span_rows time name.now width spans suspected.now dead.now) }
{
    for span in 0..spans {
        push_span(text, time, name, width, suspected, dead, span)?;
    }
    Ok(())
}

/// Appends the row of a span, where something changes in it.
fn push_span(
    text: &mut String,
    time: Option<Tick>,
    name: &str,
    width: u64,
    suspected: &[u64],
    dead: &[u64],
    span: usize,
) -> Result<(), AllocError>
    requires suspected { span < length suspected.now }
    requires dead { span < length dead.now }
    requires small { width ≤ 2 ^ 40 }
    requires few { span < 120 }
    ensures { OnOk result (string_bytes text.new ≡ string_bytes text.old ++ span_row time name.now width suspected.now dead.now span) }
{
    if suspected[span] == before(suspected, span) && dead[span] == before(dead, span) {
        return Ok(());
    }
    push_row(
        text,
        time,
        name,
        span as u64 * width,
        suspected[span],
        dead[span],
    )
}

/// Appends one row: how many suspect a member from a moment on, and how many have declared it dead.
#[tactic(auto, unfolding(crate::specs::LaneTable::table_row))]
fn push_row(
    text: &mut String,
    time: Option<Tick>,
    name: &str,
    from: u64,
    suspected: u64,
    dead: u64,
) -> Result<(), AllocError>
    ensures { OnOk result (string_bytes text.new ≡ string_bytes text.old ++ table_row time name.now from suspected dead) }
{
    text.push_str("<tr><th scope=\"row\">")?;
    push_escaped(text, name)?;
    text.push_str("</th><td>")?;
    push_moment_alone(text, time, from)?;
    write!(text, "<td>{suspected}<td>{dead}")?;
    Ok(())
}
