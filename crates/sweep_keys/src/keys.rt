//! What each key that is set changes, or keys that go together.
ghost use Rattle.std.specs.Prelude.{◌≡◌, ◌++◌, IfOk, OnOk};
ghost use Rattle.std.specs.String.{string_bytes};
ghost use Rattle.sweep_keys.specs.Keys.{key_id, key_heading, counted_word, marks_words, key_opening, key_charts, key_figure, key_figure_of, figures_from, key_figures, lines_of};
ghost use Rattle.sweep_plan.specs.Axes.{axes_of};

use crate::charts::push_chart;
use crate::legend::push_legend;
use crate::lines::{KeyLines, shared_out};
use crate::rows::push_rows;
use crate::statistic::Statistic;
use base::Memory;
use drawing::{close_figure, open_figure, push_markup};
use figures::SettingSummary;
use std::alloc::{AllocError, Global};
use sweep_plan::{Plan, Swept, axis_end, names_text, place_count};
use ticks::Tick;

/// Appends a figure for each key that has more values than one, and one for keys that go together. It takes the summary of each setting
/// of the plan, in their order, and fails only where memory is refused.
#[tactic(auto, unfolding(crate::specs::Keys::key_figures))]
pub fn push_keys(
    alloc: Global,
    text: &mut String,
    time: Option<Tick>,
    plan: &Plan,
    settings: &[SettingSummary],
) -> Result<(), Memory>
    ensures { OnOk result (string_bytes text.new ≡ string_bytes text.old ++ key_figures time plan.now.swept_keys settings.now) }
{
    push_axes(alloc, text, time, plan, settings, plan.swept_keys())
}

/// Appends the figures of the axes of swept keys.
fn push_axes(
    alloc: Global,
    text: &mut String,
    time: Option<Tick>,
    plan: &Plan,
    settings: &[SettingSummary],
    swept_keys: &[Swept],
) -> Result<(), Memory>
    ensures { OnOk result (string_bytes text.new ≡ string_bytes text.old ++ figures_from time plan.now.swept_keys settings.now 0 (axes_of swept_keys.now)) }
{
    let mut from = 0;
    while from < swept_keys.len() {
        let end = axis_end(swept_keys, from);
        push_key(
            alloc,
            text,
            time,
            plan,
            settings,
            from,
            &swept_keys[from..end],
        )?;
        from = end;
    }
    Ok(())
}

/// Appends the figure of an axis, where it has more values than one.
#[tactic(auto, unfolding(crate::specs::Keys::key_figure_of))]
fn push_key(
    alloc: Global,
    text: &mut String,
    time: Option<Tick>,
    plan: &Plan,
    settings: &[SettingSummary],
    key: usize,
    axis: &[Swept],
) -> Result<(), Memory>
    ensures { OnOk result (string_bytes text.new ≡ string_bytes text.old
        ++ key_figure_of time plan.now.swept_keys settings.now key axis.now) }
{
    if place_count(axis) < 2 {
        return Ok(());
    }
    let lines = lines_of(plan.swept_keys(), settings, key, axis);
    push_figure(alloc, text, time, plan, settings, key, axis, &lines)
}

/// The lines over an axis.
fn lines_of(
    swept_keys: &[Swept],
    settings: &[SettingSummary],
    key: usize,
    axis: &[Swept],
) -> KeyLines
    ensures { result ≡ lines_of swept_keys.now settings.now key axis.now }
{
    let keys_before = &swept_keys[..key.min(swept_keys.len())];
    let values = place_count(axis);
    let after = shared_out(settings.len(), keys_before) / values.max(1);
    KeyLines::new(axis.len(), values, after, settings.len())
}

/// Appends the figure of an axis.
#[tactic(auto, unfolding(crate::specs::Keys::key_figure))]
fn push_figure(
    alloc: Global,
    text: &mut String,
    time: Option<Tick>,
    plan: &Plan,
    settings: &[SettingSummary],
    key: usize,
    axis: &[Swept],
    lines: &KeyLines,
) -> Result<(), Memory>
    ensures { OnOk result (string_bytes text.new ≡ string_bytes text.old
        ++ key_figure time plan.now.swept_keys settings.now lines.now key axis.now) }
{
    push_opening(alloc, text, time, key, axis)?;
    push_legend(alloc, text, plan, key, lines)?;
    push_charts(alloc, text, time, settings, axis, lines)?;
    push_rows(alloc, text, time, plan, settings, key, axis, lines)?;
    close_figure(text)?;
    Ok(())
}

/// Begins the figure of an axis by its name, and by what its plots show.
#[tactic(auto, unfolding(crate::specs::Keys::key_opening))]
fn push_opening(
    alloc: Global,
    text: &mut String,
    time: Option<Tick>,
    key: usize,
    axis: &[Swept],
) -> Result<(), Memory>
    ensures { OnOk result (string_bytes text.new ≡ string_bytes text.old ++ key_opening time key axis.now) }
{
    let id = key_id(alloc, key)?;
    let heading = key_heading(alloc, axis)?;
    open_figure(text, id.as_str(), heading.as_str())?;
    push_marks_words(text, time)?;
    Ok(())
}

/// Appends what the plots show, in words.
#[tactic(auto, unfolding(crate::specs::Keys::marks_words))]
fn push_marks_words(text: &mut String, time: Option<Tick>) -> Result<(), AllocError>
    ensures { OnOk result (string_bytes text.new ≡ string_bytes text.old ++ marks_words time) }
{
    let counted = counted_word(time);
    push_markup(text, "<p class=\"soft\">Up: ")?;
    push_markup(text, counted)?;
    push_markup(
        text,
        " since the crash. Each dot is a median over all crashes of all \
         runs, and its bar goes from the 5th to the 95th percentile. A crash that wasn't detected \
         counts as later than any: where more than 5&nbsp;% weren't, the bar goes to the top of \
         the plot; where more than half weren't, there is no dot.</p>",
    )
}

/// What an axis of time counts.
fn counted_word(time: Option<Tick>) -> &'static str
    ensures { result.now ≡ counted_word time }
{
    match time {
        Some(_) => "time",
        None => "ticks",
    }
}

/// The name of the figure of the key at a place.
fn key_id(alloc: Global, key: usize) -> Result<String, Memory>
    ensures { IfOk result (λ id. string_bytes id ≡ key_id key) }
{
    Ok(format!(in alloc; "key-{key}")?)
}

/// What the figure of an axis is called.
fn key_heading(alloc: Global, axis: &[Swept]) -> Result<String, Memory>
    ensures { IfOk result (λ heading. string_bytes heading ≡ key_heading axis.now) }
{
    let name = names_text(alloc, axis)?;
    Ok(format!(in alloc; "What {name} changes")?)
}

/// Appends the plot of each statistic.
#[tactic(auto, unfolding(crate::specs::Keys::key_charts))]
fn push_charts(
    alloc: Global,
    text: &mut String,
    time: Option<Tick>,
    settings: &[SettingSummary],
    axis: &[Swept],
    lines: &KeyLines,
) -> Result<(), Memory>
    ensures { OnOk result (string_bytes text.new ≡ string_bytes text.old ++ key_charts time settings.now lines.now axis.now) }
{
    push_markup(text, "<div class=\"many\">")?;
    push_chart(
        alloc,
        text,
        time,
        settings,
        axis,
        lines,
        Statistic::Suspected,
    )?;
    push_chart(
        alloc,
        text,
        time,
        settings,
        axis,
        lines,
        Statistic::Confirmed,
    )?;
    push_chart(alloc, text, time, settings, axis, lines, Statistic::Last)?;
    push_markup(text, "</div>")?;
    Ok(())
}
