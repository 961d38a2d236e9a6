//! Messages by kind, over time.
ghost use Rattle.std.specs.Prelude.{◌≡◌, ◌<◌, ◌^◌, ◌++◌, true, OnOk, flat_map, decimal};
ghost use Rattle.std.specs.String.{string_bytes};
ghost use Rattle.std.specs.List.{list_all, range_with_len};
ghost use Rattle.reports.specs.Text.{message_kinds};
ghost use Rattle.series.specs.Spans.{span_width, span_count};
ghost use Rattle.member_timelines.specs.Numbers.{by_number};
ghost use Rattle.member_timelines.specs.Run.{IsTold};
ghost use Rattle.run_page.specs.Traffic.{is_counted, sent, lost, hundredths, two_places, rate_words, is_sent, kind_entry, lost_entry, kinds_legend, width_words, below_plot, sent_plot, lost_area, lost_plot, lost_tops, lost_part, column, columns, heads, row_head, from_cell, counts, cells, span_cells, traffic_table, traffic_body, traffic_text};

use crate::kinds::{
    all_lost_by_span, class_of, kinds, lost_in, most_in_a_span, open_time_plot, push_areas,
    push_time_area, sent_in,
};
use base::Memory;
use drawing::{
    close_figure, close_plot, open_figure, push_counted, push_entry, push_grouped, push_lasting,
    push_moment_alone, push_up,
};
use member_timelines::{Run, axis_height, by_number, flat, greatest, push_time_axis};
use std::alloc::{AllocError, Global};
use ticks::Tick;
use trace::What;

/// Appends the messages.
#[tactic(auto, unfolding(crate::specs::Traffic::traffic_text))]
pub(crate) fn push_traffic(alloc: Global, text: &mut String, run: &Run) -> Result<(), Memory>
    requires { IsTold run.now }
    ensures { OnOk result (string_bytes text.new ≡ string_bytes text.old ++ traffic_text run.now.tick run.now.scenario.now run.now.tallies.now) }
{
    let most = most_in_a_span(alloc, run)?;
    open_figure(text, "traffic", "Messages")?;
    push_rate(text, run, sent(run), lost(run))?;
    push_kinds(text, run, lost(run))?;
    push_body(alloc, text, run, most)?;
    close_figure(text)?;
    Ok(())
}

/// Appends plots and table, where so many were sent in a span at most.
#[tactic(auto, unfolding(crate::specs::Traffic::traffic_body))]
fn push_body(alloc: Global, text: &mut String, run: &Run, most: u64) -> Result<(), Memory>
    requires { IsTold run.now }
    ensures { OnOk result (string_bytes text.new ≡ string_bytes text.old ++ traffic_body run.now.tick run.now.scenario.now run.now.tallies.now most) }
{
    if most > 0 {
        push_sent(alloc, text, run, axis_height(most))?;
        push_lost(alloc, text, run)?;
        push_table(text, run)?;
    }
    Ok(())
}

/// How many messages of all kinds were sent, as far as 64 bits hold it.
fn sent(run: &Run) -> u64
    ensures { result ≡ sent run.now.scenario.now run.now.tallies.now }
{
    let mut all: u64 = 0;
    let kinds = kinds(run);
    for kind in kinds {
        all = all.saturating_add(run.tallies.rows_of(*kind));
    }
    all
}

/// How many of them were lost.
fn lost(run: &Run) -> u64
    ensures { result ≡ lost run.now.scenario.now run.now.tallies.now }
{
    let mut all: u64 = 0;
    let kinds = kinds(run);
    for kind in kinds {
        all = all.saturating_add(run.tallies.lost(*kind));
    }
    all
}

/// Appends how many messages there were.
#[tactic(auto, unfolding(crate::specs::Traffic::rate_words))]
fn push_rate(text: &mut String, run: &Run, sent: u64, lost: u64) -> Result<(), AllocError>
    requires { IsTold run.now }
    ensures { OnOk result (string_bytes text.new ≡ string_bytes text.old ++ rate_words run.now.scenario.now sent lost) }
{
    text.push_str("<p class=\"soft\">Messages sent: ")?;
    push_grouped(text, sent)?;
    text.push_str("; lost: ")?;
    push_grouped(text, lost)?;
    text.push_str("; sent per member per 1,000 ticks: ")?;
    push_hundredths(text, run, sent)?;
    text.push_str(".</p>")?;
    Ok(())
}

/// Appends how many messages per member per 1,000 ticks that is.
fn push_hundredths(text: &mut String, run: &Run, sent: u64) -> Result<(), AllocError>
    requires { IsTold run.now }
    ensures { OnOk result (string_bytes text.new ≡ string_bytes text.old ++ two_places (hundredths run.now.scenario.now sent)) }
{
    push_two_places(text, hundredths(run, sent))
}

/// Messages per member per 1,000 ticks, in hundredths.
fn hundredths(run: &Run, sent: u64) -> u128
    requires { IsTold run.now }
    ensures { result ≡ hundredths run.now.scenario.now sent }
{
    let member_ticks = u128::from(run.end().max(1)) * run.members() as u128;
    u128::from(sent) * 100_000 / member_ticks.max(1)
}

/// Appends a number of hundredths with two places.
#[tactic(auto, unfolding(crate::specs::Traffic::two_places))]
fn push_two_places(text: &mut String, hundredths: u128) -> Result<(), AllocError>
    ensures { OnOk result (string_bytes text.new ≡ string_bytes text.old ++ two_places hundredths) }
{
    let whole = hundredths / 100;
    let tens = hundredths / 10 % 10;
    let ones = hundredths % 10;
    write!(text, "{whole}.{tens}{ones}")
}

/// Appends which kinds there are, and whether some were lost.
#[tactic(auto, unfolding(crate::specs::Traffic::kinds_legend))]
fn push_kinds(text: &mut String, run: &Run, lost: u64) -> Result<(), AllocError>
    ensures { OnOk result (string_bytes text.new ≡ string_bytes text.old ++ kinds_legend run.now.scenario.now run.now.tallies.now lost) }
{
    text.push_str("<ul class=\"legend\">")?;
    push_all_entries(text, run)?;
    push_lost_entry(text, lost)?;
    text.push_str("</ul>")?;
    Ok(())
}

/// Appends the entries of all kinds.
fn push_all_entries(text: &mut String, run: &Run) -> Result<(), AllocError>
    ensures { OnOk result (string_bytes text.new ≡ string_bytes text.old ++ flat_map (kind_entry run.now.tallies.now) (message_kinds run.now.scenario.now.version)) }
{
    push_entries(text, run, kinds(run))
}

/// Appends the entry of what was lost, where some was.
fn push_lost_entry(text: &mut String, lost: u64) -> Result<(), AllocError>
    ensures { OnOk result (string_bytes text.new ≡ string_bytes text.old ++ lost_entry lost) }
{
    if lost > 0 {
        return push_entry(text, "lost", "lost, of all kinds");
    }
    Ok(())
}

/// Appends the entries of these kinds.
fn push_entries(text: &mut String, run: &Run, kinds: &[What]) -> Result<(), AllocError>
    ensures { OnOk result (string_bytes text.new ≡ string_bytes text.old ++ flat_map (kind_entry run.now.tallies.now) kinds.now) }
{
    for kind in kinds {
        push_kind(text, run, *kind)?;
    }
    Ok(())
}

/// Appends a kind's entry, where there are some of it.
fn push_kind(text: &mut String, run: &Run, kind: What) -> Result<(), AllocError>
    ensures { OnOk result (string_bytes text.new ≡ string_bytes text.old ++ kind_entry run.now.tallies.now kind) }
{
    let told = run.tallies.rows_of(kind);
    if told > 0 {
        return push_counted(text, class_of(kind), kind.word(), told);
    }
    Ok(())
}

/// Appends the messages that were sent, in a plot of that height.
#[tactic(auto, unfolding(crate::specs::Traffic::sent_plot))]
fn push_sent(alloc: Global, text: &mut String, run: &Run, most: u64) -> Result<(), Memory>
    requires told { IsTold run.now }
    requires small { most < 2 ^ 63 }
    ensures { OnOk result (string_bytes text.new ≡ string_bytes text.old ++ sent_plot run.now.tick run.now.scenario.now run.now.tallies.now most) }
{
    text.push_str("<div class=\"chart\">")?;
    push_up(text, most)?;
    open_time_plot(
        text,
        run,
        most,
        "Messages sent",
        "How many messages of each kind were sent in each span of time.",
    )?;
    push_areas(alloc, text, run, most)?;
    push_below(text, run, "</div><p class=\"soft\">Sent in each span of ")?;
    Ok(())
}

/// Ends a plot, and appends the axis of time below it and how long its spans are, behind some words.
#[tactic(auto, unfolding(crate::specs::Traffic::below_plot))]
fn push_below(text: &mut String, run: &Run, words: &str) -> Result<(), AllocError>
    requires { IsTold run.now }
    ensures { OnOk result (string_bytes text.new ≡ string_bytes text.old ++ below_plot run.now.tick run.now.scenario.now words.now) }
{
    close_plot(text)?;
    push_time_axis(text, run)?;
    push_width(text, run, words)?;
    Ok(())
}

/// Appends how long a span is, behind some words.
fn push_width(text: &mut String, run: &Run, words: &str) -> Result<(), AllocError>
    requires { IsTold run.now }
    ensures { OnOk result (string_bytes text.new ≡ string_bytes text.old ++ width_words run.now.tick words.now (span_width run.now.scenario.now)) }
{
    push_words(text, run.tick, words, run.width())
}

/// Appends a number of ticks, behind some words.
#[tactic(auto, unfolding(crate::specs::Traffic::width_words))]
fn push_words(
    text: &mut String,
    time: Option<Tick>,
    words: &str,
    width: u64,
) -> Result<(), AllocError>
    ensures { OnOk result (string_bytes text.new ≡ string_bytes text.old ++ width_words time words.now width) }
{
    text.push_str(words)?;
    push_grouped(text, width)?;
    text.push_str(by_number(width, " tick", " ticks"))?;
    push_lasting(text, time, width)?;
    text.push_str(".</p>")?;
    Ok(())
}

/// Appends the messages that were lost, where some were.
fn push_lost(alloc: Global, text: &mut String, run: &Run) -> Result<(), Memory>
    requires { IsTold run.now }
    ensures { OnOk result (string_bytes text.new ≡ string_bytes text.old ++ lost_part run.now.tick run.now.scenario.now (lost_tops run.now.scenario.now run.now.tallies.now)) }
{
    let counts = all_lost_by_span(alloc, run)?;
    push_lost_part(alloc, text, run, counts.as_slice())
}

/// Appends so many lost messages in each span, where there are some.
fn push_lost_part(alloc: Global, text: &mut String, run: &Run, counts: &[u64]) -> Result<(), Memory>
    requires { IsTold run.now }
    ensures { OnOk result (string_bytes text.new ≡ string_bytes text.old ++ lost_part run.now.tick run.now.scenario.now counts.now) }
{
    let most = greatest(counts);
    if most == 0 {
        return Ok(());
    }
    push_lost_plot(alloc, text, run, counts, axis_height(most))
}

/// Appends the plot of so many lost messages.
#[tactic(auto, unfolding(crate::specs::Traffic::lost_plot))]
fn push_lost_plot(
    alloc: Global,
    text: &mut String,
    run: &Run,
    counts: &[u64],
    most: u64,
) -> Result<(), Memory>
    requires told { IsTold run.now }
    requires small { most < 2 ^ 63 }
    ensures { OnOk result (string_bytes text.new ≡ string_bytes text.old ++ lost_plot run.now.tick run.now.scenario.now counts.now most) }
{
    text.push_str("<div class=\"chart low\">")?;
    push_up(text, most)?;
    open_time_plot(
        text,
        run,
        most,
        "Messages lost",
        "How many messages were lost in each span of time.",
    )?;
    push_lost_area(alloc, text, run, counts, most)?;
    push_below(text, run, "</div><p class=\"soft\">Lost in each span of ")?;
    Ok(())
}

/// Appends the area of so many lost messages.
#[tactic(auto, unfolding(crate::specs::Traffic::lost_area))]
fn push_lost_area(
    alloc: Global,
    text: &mut String,
    run: &Run,
    counts: &[u64],
    most: u64,
) -> Result<(), Memory>
    requires { IsTold run.now }
    ensures { OnOk result (string_bytes text.new ≡ string_bytes text.old ++ lost_area run.now.scenario.now counts.now most) }
{
    let none = flat(alloc, run.spans())?;
    push_time_area(text, run, "lost", none.as_slice(), counts, most)?;
    Ok(())
}

/// Appends the messages as a table.
#[tactic(auto, unfolding(crate::specs::Traffic::traffic_table))]
fn push_table(text: &mut String, run: &Run) -> Result<(), AllocError>
    requires { IsTold run.now }
    ensures { OnOk result (string_bytes text.new ≡ string_bytes text.old ++ traffic_table run.now.tick run.now.scenario.now run.now.tallies.now) }
{
    text.push_str("<details><summary>The messages as a table</summary><div class=\"wide\">")?;
    push_all_columns(text, run)?;
    push_spans(text, run)?;
    text.push_str("</table></div></details>")?;
    Ok(())
}

/// Appends the heads of all columns, below what the table shows.
#[tactic(auto, unfolding(crate::specs::Traffic::columns))]
fn push_all_columns(text: &mut String, run: &Run) -> Result<(), AllocError>
    ensures { OnOk result (string_bytes text.new ≡ string_bytes text.old
        ++ columns run.now.tallies.now (message_kinds run.now.scenario.now.version)) }
{
    text.push_str(
        "<table><caption>How many messages of each kind were sent in each span of time, \
         and how many of them were lost</caption><thead><tr><th scope=\"col\">from moment</th>",
    )?;
    push_columns(text, run, kinds(run))?;
    text.push_str("</tr></thead><tbody>\n")?;
    Ok(())
}

/// Appends the heads of these kinds' columns.
fn push_columns(text: &mut String, run: &Run, kinds: &[What]) -> Result<(), AllocError>
    ensures { OnOk result (string_bytes text.new ≡ string_bytes text.old ++ flat_map (column run.now.tallies.now) kinds.now) }
{
    for kind in kinds {
        push_column(text, run, *kind)?;
    }
    Ok(())
}

/// Appends the heads of a kind's columns, where some messages of it were sent.
fn push_column(text: &mut String, run: &Run, kind: What) -> Result<(), AllocError>
    ensures { OnOk result (string_bytes text.new ≡ string_bytes text.old ++ column run.now.tallies.now kind) }
{
    if !is_sent(run, kind) {
        return Ok(());
    }
    push_heads(text, kind.word())
}

/// Whether some messages of a kind were sent.
fn is_sent(run: &Run, kind: What) -> bool
    ensures { result ≡ is_sent run.now.tallies.now kind }
{
    run.tallies.rows_of(kind) > 0
}

/// Appends the heads of a kind's columns.
#[tactic(auto, unfolding(crate::specs::Traffic::heads))]
fn push_heads(text: &mut String, word: &str) -> Result<(), AllocError>
    ensures { OnOk result (string_bytes text.new ≡ string_bytes text.old ++ heads word.now) }
{
    text.push_str("<th scope=\"col\">")?;
    text.push_str(word)?;
    text.push_str("</th><th scope=\"col\">")?;
    text.push_str(word)?;
    text.push_str(" lost</th>")?;
    Ok(())
}

/// Appends the rows of all spans.
fn push_spans(text: &mut String, run: &Run) -> Result<(), AllocError>
    requires { IsTold run.now }
    ensures { OnOk result (string_bytes text.new ≡ string_bytes text.old
        ++ flat_map (span_cells run.now.tick run.now.scenario.now run.now.tallies.now) (range_with_len 0 (span_count run.now.scenario.now))) }
{
    for span in 0..run.spans() {
        push_span(text, run, span)?;
    }
    Ok(())
}

/// Appends the row of a span.
#[tactic(auto, unfolding(crate::specs::Traffic::span_cells))]
fn push_span(text: &mut String, run: &Run, span: usize) -> Result<(), AllocError>
    requires told { IsTold run.now }
    requires few { span < 120 }
    ensures { OnOk result (string_bytes text.new ≡ string_bytes text.old ++ span_cells run.now.tick run.now.scenario.now run.now.tallies.now span) }
{
    push_from(text, run, span)?;
    push_all_cells(text, run, span)?;
    Ok(())
}

/// Appends the head of the row of a span.
fn push_from(text: &mut String, run: &Run, span: usize) -> Result<(), AllocError>
    requires told { IsTold run.now }
    requires few { span < 120 }
    ensures { OnOk result (string_bytes text.new ≡ string_bytes text.old ++ from_cell run.now.tick run.now.scenario.now span) }
{
    let from = span as u64 * run.width();
    push_row_head(text, run.tick, from)
}

/// Begins a row with the moment from which it counts.
#[tactic(auto, unfolding(crate::specs::Traffic::row_head))]
fn push_row_head(text: &mut String, time: Option<Tick>, from: u64) -> Result<(), AllocError>
    ensures { OnOk result (string_bytes text.new ≡ string_bytes text.old ++ row_head time from) }
{
    text.push_str("<tr><th scope=\"row\">")?;
    push_moment_alone(text, time, from)?;
    text.push_str("</th>")?;
    Ok(())
}

/// Appends the cells of all kinds in a span.
fn push_all_cells(text: &mut String, run: &Run, span: usize) -> Result<(), AllocError>
    requires told { IsTold run.now }
    requires few { span < 120 }
    ensures { OnOk result (string_bytes text.new ≡ string_bytes text.old
        ++ flat_map (cells run.now.scenario.now run.now.tallies.now span) (message_kinds run.now.scenario.now.version)) }
{
    push_cells(text, run, span, kinds(run))
}

/// Appends a number behind some words.
fn push_number(text: &mut String, words: &str, number: u64) -> Result<(), AllocError>
    ensures { OnOk result (string_bytes text.new ≡ string_bytes text.old ++ (words.now ++ decimal number)) }
{
    text.push_str(words)?;
    write!(text, "{number}")
}

/// Appends how many messages of each of these kinds were sent in a span, and how many of them were
/// lost.
fn push_cells(text: &mut String, run: &Run, span: usize, kinds: &[What]) -> Result<(), AllocError>
    requires told { IsTold run.now }
    requires few { span < 120 }
    requires counted { list_all is_counted kinds.now ≡ true }
    ensures { OnOk result (string_bytes text.new ≡ string_bytes text.old ++ flat_map (cells run.now.scenario.now run.now.tallies.now span) kinds.now) }
{
    for kind in kinds {
        push_cell(text, run, span, *kind)?;
    }
    Ok(())
}

/// Appends the cells of a kind in a span, where some messages of it were sent in the run.
fn push_cell(text: &mut String, run: &Run, span: usize, kind: What) -> Result<(), AllocError>
    requires told { IsTold run.now }
    requires few { span < 120 }
    requires counted { is_counted kind ≡ true }
    ensures { OnOk result (string_bytes text.new ≡ string_bytes text.old ++ cells run.now.scenario.now run.now.tallies.now span kind) }
{
    if !is_sent(run, kind) {
        return Ok(());
    }
    push_counts(text, run, span, kind)
}

/// Appends how many messages of a kind were sent in a span, and how many of them were lost.
fn push_counts(text: &mut String, run: &Run, span: usize, kind: What) -> Result<(), AllocError>
    requires told { IsTold run.now }
    requires few { span < 120 }
    requires counted { is_counted kind ≡ true }
    ensures { OnOk result (string_bytes text.new ≡ string_bytes text.old ++ counts run.now.scenario.now run.now.tallies.now span kind) }
{
    push_number(text, "<td>", sent_in(run, kind, span))?;
    push_number(text, "<td>", lost_in(run, kind, span))
}
