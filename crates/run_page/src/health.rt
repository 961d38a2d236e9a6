//! The members' health scores, over time.
ghost use Rattle.std.specs.Prelude.{◌≡◌, ◌<◌, ◌≤◌, ◌^◌, ◌++◌, OnOk, IfOk, true, nat_le, flat_map, length};
ghost use Rattle.std.specs.String.{string_bytes};
ghost use Rattle.std.specs.List.{list_all};
ghost use Rattle.series.specs.Spans.{span_count};
ghost use Rattle.member_timelines.specs.Run.{IsTold};
ghost use Rattle.run_page.specs.Stacks.{greatest};
ghost use Rattle.run_page.specs.Health.{values, class_of_value, at_value, unwell, health_areas, health_words, health_plot, health_row, health_span, health_rows, value_rows, health_table, health_figure, health_text};

use crate::ends::ends;
use crate::kinds::{layer_tops, open_time_plot, push_layer};
use base::Memory;
use drawing::{close_figure, close_plot, open_figure, push_entry, push_moment_alone, push_up};
use member_timelines::{Run, axis_height, before, flat, greatest, push_time_axis};
use std::alloc::{AllocError, Global};
use ticks::Tick;

/// The values from 1 on: a counter never passes 16.
const VALUES: [usize; 16] = [1, 2, 3, 4, 5, 6, 7, 8, 9, 10, 11, 12, 13, 14, 15, 16];

/// Appends how many members have each health score, where somebody was in bad health.
pub(crate) fn push_health(alloc: Global, text: &mut String, run: &Run) -> Result<(), Memory>
    requires { IsTold run.now }
    ensures { OnOk result (string_bytes text.new ≡ string_bytes text.old ++ health_text run.now.tick run.now.scenario.now run.now.tallies.now) }
{
    if run.tallies.worst_health() == 0 {
        return Ok(());
    }
    let most = most_unwell(alloc, run)?;
    push_figure(alloc, text, run, axis_height(most))
}

/// Appends the figure, its plot as high as so many members.
#[tactic(auto, unfolding(crate::specs::Health::health_figure))]
fn push_figure(alloc: Global, text: &mut String, run: &Run, most: u64) -> Result<(), Memory>
    requires told { IsTold run.now }
    requires small { most < 2 ^ 63 }
    ensures { OnOk result (string_bytes text.new ≡ string_bytes text.old ++ health_figure run.now.tick run.now.scenario.now run.now.tallies.now most) }
{
    open_figure(text, "health", "Members in bad health")?;
    push_words(text)?;
    push_plot(alloc, text, run, most)?;
    push_table(alloc, text, run)?;
    close_figure(text)?;
    Ok(())
}

/// Appends the plot, as high as so many members.
#[tactic(auto, unfolding(crate::specs::Health::health_plot))]
fn push_plot(alloc: Global, text: &mut String, run: &Run, most: u64) -> Result<(), Memory>
    requires told { IsTold run.now }
    requires small { most < 2 ^ 63 }
    ensures { OnOk result (string_bytes text.new ≡ string_bytes text.old ++ health_plot run.now.tick run.now.scenario.now run.now.tallies.now most) }
{
    text.push_str("<div class=\"chart low\">")?;
    push_up(text, most)?;
    open_time_plot(
        text,
        run,
        most,
        "Health scores",
        "How many members have each health score.",
    )?;
    push_areas(alloc, text, run, most)?;
    close_plot(text)?;
    push_time_axis(text, run)?;
    text.push_str("</div>")?;
    Ok(())
}

/// Appends an area for each value from 1 on, each on top of those before it.
fn push_areas(alloc: Global, text: &mut String, run: &Run, most: u64) -> Result<(), Memory>
    requires { IsTold run.now }
    ensures { OnOk result (string_bytes text.new ≡ string_bytes text.old ++ health_areas run.now.scenario.now run.now.tallies.now most) }
{
    let mut bases = flat(alloc, run.spans())?;
    let values = values();
    for value in values {
        let counts = at_value(alloc, run, most, *value)?;
        let class = class_of_value(*value);
        let tops = push_layer(alloc, text, run, class, bases, counts, most)?;
        bases = tops;
    }
    Ok(())
}

/// The values that are drawn.
#[tactic(auto, unfolding(crate::specs::Health::values))]
fn values() -> &'static [usize]
    ensures value { result.now ≡ values }
    ensures few { list_all (λ value. nat_le value 16) result.now ≡ true }
{
    &VALUES
}

/// The class of a value.
fn class_of_value(value: usize) -> &'static str
    ensures { result.now ≡ class_of_value value }
{
    match value {
        1 => "two",
        2 => "one",
        3 => "six",
        _ => "dead",
    }
}

/// How many members stand at a value at the end of each span, none more than `most`.
fn at_value(alloc: Global, run: &Run, most: u64, value: usize) -> Result<Vec<u64>, Memory>
    requires told { IsTold run.now }
    requires few { value ≤ 16 }
    ensures value { IfOk result (λ list. list.items ≡ at_value run.now.scenario.now run.now.tallies.now most value) }
    ensures all { IfOk result (λ list. length list.items ≡ span_count run.now.scenario.now) }
{
    ends(alloc, run.series.health(), value, run.spans(), most)
}

/// Appends what the plot shows.
#[tactic(auto, unfolding(crate::specs::Health::health_words))]
fn push_words(text: &mut String) -> Result<(), AllocError>
    ensures { OnOk result (string_bytes text.new ≡ string_bytes text.old ++ health_words) }
{
    text.push_str(
        "<p class=\"soft\">A member's health score (Lifeguard) rises as its own probes fail and as it \
         refutes; answered probes lower it. ",
    )?;
    text.push_str(
        "The score at the end of each span counts. Members at 0 aren't drawn.</p>\
         <ul class=\"legend\">",
    )?;
    push_entry(text, "two", "at 1")?;
    push_entry(text, "one", "at 2")?;
    push_entry(text, "six", "at 3")?;
    push_entry(text, "dead", "at 4 and more")?;
    text.push_str("</ul>")?;
    Ok(())
}

/// The most members that are at a value over 0 in one span.
fn most_unwell(alloc: Global, run: &Run) -> Result<u64, Memory>
    requires { IsTold run.now }
    ensures { IfOk result (λ most. most ≡ greatest (unwell run.now.scenario.now run.now.tallies.now)) }
{
    let tops = unwell(alloc, run)?;
    Ok(greatest(tops.as_slice()))
}

/// How many members are at a value over 0 in each span, as far as 64 bits hold it.
fn unwell(alloc: Global, run: &Run) -> Result<Vec<u64>, Memory>
    requires { IsTold run.now }
    ensures { IfOk result (λ list. list.items ≡ unwell run.now.scenario.now run.now.tallies.now) }
{
    let mut tops = flat(alloc, run.spans())?;
    let values = values();
    for value in values {
        let counts = at_value(alloc, run, u64::MAX, *value)?;
        let reached = layer_tops(alloc, tops, counts)?;
        tops = reached;
    }
    Ok(tops)
}

/// Appends the health as a table: the spans in which the number at a value changes.
#[tactic(auto, unfolding(crate::specs::Health::health_table))]
fn push_table(alloc: Global, text: &mut String, run: &Run) -> Result<(), Memory>
    requires { IsTold run.now }
    ensures { OnOk result (string_bytes text.new ≡ string_bytes text.old ++ health_table run.now.tick run.now.scenario.now run.now.tallies.now) }
{
    text.push_str(
        "<details><summary>Health scores as a table</summary><div class=\"wide\"><table><caption>\
         How many members have each health score, from each moment at which that changes</caption>",
    )?;
    text.push_str(
        "<thead><tr><th scope=\"col\">health score</th><th scope=\"col\">from moment</th>\
         <th scope=\"col\">members</th></tr></thead><tbody>\n",
    )?;
    push_values(alloc, text, run)?;
    text.push_str("</table></div></details>")?;
    Ok(())
}

/// Appends the rows of all values from 1 on.
fn push_values(alloc: Global, text: &mut String, run: &Run) -> Result<(), Memory>
    requires { IsTold run.now }
    ensures { OnOk result (string_bytes text.new ≡ string_bytes text.old ++ flat_map (value_rows run.now.tick run.now.scenario.now run.now.tallies.now) values) }
{
    let values = values();
    for value in values {
        push_value(alloc, text, run, *value)?;
    }
    Ok(())
}

/// Appends the rows of a value.
fn push_value(alloc: Global, text: &mut String, run: &Run, value: usize) -> Result<(), Memory>
    requires told { IsTold run.now }
    requires few { value ≤ 16 }
    ensures { OnOk result (string_bytes text.new ≡ string_bytes text.old ++ value_rows run.now.tick run.now.scenario.now run.now.tallies.now value) }
{
    let counts = at_value(alloc, run, u64::MAX, value)?;
    push_spans(
        text,
        run.tick,
        value,
        run.width(),
        run.spans(),
        counts.as_slice(),
    )?;
    Ok(())
}

/// Appends the rows of so many spans.
fn push_spans(
    text: &mut String,
    time: Option<Tick>,
    value: usize,
    width: u64,
    spans: usize,
    counts: &[u64],
) -> Result<(), AllocError>
    requires within { spans ≤ length counts.now }
    requires small { width ≤ 2 ^ 40 }
    requires few { spans ≤ 120 }
    ensures { OnOk result (string_bytes text.new ≡ string_bytes text.old ++ health_rows time value width spans counts.now) }
{
    for span in 0..spans {
        push_span(text, time, value, width, counts, span)?;
    }
    Ok(())
}

/// Appends the row of a span, where the number changes in it.
fn push_span(
    text: &mut String,
    time: Option<Tick>,
    value: usize,
    width: u64,
    counts: &[u64],
    span: usize,
) -> Result<(), AllocError>
    requires within { span < length counts.now }
    requires small { width ≤ 2 ^ 40 }
    requires few { span < 120 }
    ensures { OnOk result (string_bytes text.new ≡ string_bytes text.old ++ health_span time value width counts.now span) }
{
    if counts[span] == before(counts, span) {
        return Ok(());
    }
    push_row(text, time, value, span as u64 * width, counts[span])
}

/// Appends a row: how many members stand at a value from a moment on.
fn push_row(
    text: &mut String,
    time: Option<Tick>,
    value: usize,
    from: u64,
    count: u64,
) -> Result<(), AllocError>
    ensures { OnOk result (string_bytes text.new ≡ string_bytes text.old ++ health_row time value from count) }
{
    write!(text, "<tr><th scope=\"row\">{value}</th><td>")?;
    push_moment_alone(text, time, from)?;
    write!(text, "<td>{count}")?;
    Ok(())
}
