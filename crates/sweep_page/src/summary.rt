//! The trade-off in words: the settings on the front.
ghost use Rattle.std.specs.Prelude.{◌≡◌, ◌-◌, ◌++◌, OnOk, length, min};
ghost use Rattle.std.specs.List.{flat_map, range_with_len};
ghost use Rattle.std.specs.String.{string_bytes};
ghost use Rattle.sweep_page.specs.Summary.{at_most, front_opening, front_words_of, listed_words, messages_opening, momentless_words, more_words, none_words, safety_words, size_words, speed_opening, summary, told_at, told_words, unconfirmed_words, untold_words};

use crate::front_points::FrontPoint;
use crate::items::push_item_at;
use base::Memory;
use drawing::{close_figure, open_figure, push_grouped, push_markup};
use figures::SettingSummary;
use std::alloc::{AllocError, Global};
use sweep_cells::push_count;
use sweep_plan::Plan;
use ticks::Tick;

/// How many settings on the front are described in words.
const MOST_TOLD: usize = 12;

/// Appends how large the sweep is, and its trade-off. `crashed` is whether a run of it has a crash.
#[tactic(auto, unfolding(crate::specs::Summary::summary))]
pub(crate) fn push_summary(
    alloc: Global,
    text: &mut String,
    time: Option<Tick>,
    plan: &Plan,
    settings: &[SettingSummary],
    crashed: bool,
    points: &[FrontPoint],
) -> Result<(), Memory>
    ensures { OnOk result (string_bytes text.new ≡ string_bytes text.old ++ summary time crashed plan.now settings.now points.now) }
{
    open_figure(text, "trade-off", "The trade-off")?;
    push_size(text, plan)?;
    push_front_of(alloc, text, time, plan, settings, crashed, points)?;
    close_figure(text)?;
    Ok(())
}

/// Appends how many settings there are, and how often each ran.
#[tactic(auto, unfolding(crate::specs::Summary::size_words))]
fn push_size(text: &mut String, plan: &Plan) -> Result<(), AllocError>
    ensures { OnOk result (string_bytes text.new ≡ string_bytes text.old ++ size_words plan.now) }
{
    push_markup(text, "<p class=\"soft\">Settings tried: ")?;
    push_grouped(text, plan.settings() as u64)?;
    push_markup(text, ". Seeds for each: ")?;
    push_at_most(text, plan)?;
    push_grouped(text, plan.runs_of_setting() as u64)?;
    push_markup(text, ".</p>\n")
}

/// Appends that a setting may have fewer seeds, where its runs end once its interval is narrow enough.
#[tactic(auto, unfolding(crate::specs::Summary::at_most))]
fn push_at_most(text: &mut String, plan: &Plan) -> Result<(), AllocError>
    ensures { OnOk result (string_bytes text.new ≡ string_bytes text.old ++ at_most plan.now.until) }
{
    match plan.until() {
        Some(_) => push_markup(text, "at most "),
        None => Ok(()),
    }
}

/// Appends the settings on the front, or that there are none.
#[tactic(auto, unfolding(crate::specs::Summary::front_words_of))]
fn push_front_of(
    alloc: Global,
    text: &mut String,
    time: Option<Tick>,
    plan: &Plan,
    settings: &[SettingSummary],
    crashed: bool,
    points: &[FrontPoint],
) -> Result<(), Memory>
    ensures { OnOk result (string_bytes text.new ≡ string_bytes text.old ++ front_words_of time crashed plan.now.swept_keys settings.now points.now) }
{
    if points.is_empty() {
        push_none(text, crashed)?;
        return Ok(());
    }
    push_told(alloc, text, time, plan, settings, crashed, points)
}

/// Appends that no setting is on the front.
#[tactic(auto, unfolding(crate::specs::Summary::none_words))]
fn push_none(text: &mut String, crashed: bool) -> Result<(), AllocError>
    ensures { OnOk result (string_bytes text.new ≡ string_bytes text.old ++ none_words crashed) }
{
    if crashed {
        push_unconfirmed(text)
    } else {
        push_momentless(text)
    }
}

/// Appends that no setting confirms half of its crashes.
#[tactic(auto, unfolding(crate::specs::Summary::unconfirmed_words))]
fn push_unconfirmed(text: &mut String) -> Result<(), AllocError>
    ensures { OnOk result (string_bytes text.new ≡ string_bytes text.old ++ unconfirmed_words) }
{
    text.push_str(
        "<p class=\"lead\">No setting confirms half of its crashes, so none is listed or plotted by its \
         speed.</p>\n",
    )
}

/// Appends that runs have no moments.
#[tactic(auto, unfolding(crate::specs::Summary::momentless_words))]
fn push_momentless(text: &mut String) -> Result<(), AllocError>
    ensures { OnOk result (string_bytes text.new ≡ string_bytes text.old ++ momentless_words) }
{
    text.push_str(
        "<p class=\"lead\">Each run ends at moment 0, so there is nothing to compare or to plot.</p>\n",
    )
}

/// Appends the settings on the front, the first of them.
#[tactic(auto, unfolding(crate::specs::Summary::told_words))]
fn push_told(
    alloc: Global,
    text: &mut String,
    time: Option<Tick>,
    plan: &Plan,
    settings: &[SettingSummary],
    crashed: bool,
    points: &[FrontPoint],
) -> Result<(), Memory>
    ensures { OnOk result (string_bytes text.new ≡ string_bytes text.old ++ told_words time crashed plan.now.swept_keys settings.now points.now) }
{
    push_front_opening(text, crashed)?;
    push_safety_words(text)?;
    push_first(alloc, text, time, plan, settings, crashed, points)?;
    push_markup(text, "</ol>\n")?;
    push_rest(text, crashed, points.len())?;
    Ok(())
}

/// Appends what the list of them is.
#[tactic(auto, unfolding(crate::specs::Summary::front_opening))]
fn push_front_opening(text: &mut String, crashed: bool) -> Result<(), AllocError>
    ensures { OnOk result (string_bytes text.new ≡ string_bytes text.old ++ front_opening crashed) }
{
    if crashed {
        push_speed_opening(text)
    } else {
        push_messages_opening(text)
    }
}

/// Appends what the list is, where runs have crashes.
#[tactic(auto, unfolding(crate::specs::Summary::speed_opening))]
fn push_speed_opening(text: &mut String) -> Result<(), AllocError>
    ensures { OnOk result (string_bytes text.new ≡ string_bytes text.old ++ speed_opening) }
{
    text.push_str(
        "<p class=\"lead\">These settings confirm half of their crashes, and no other setting beats \
         them: none is at least as fast and at least as safe, and better in one of the two. The \
         further down, the slower and the safer; some may be equal in both.</p>",
    )
}

/// Appends what the list is, where no run has a crash.
#[tactic(auto, unfolding(crate::specs::Summary::messages_opening))]
fn push_messages_opening(text: &mut String) -> Result<(), AllocError>
    ensures { OnOk result (string_bytes text.new ≡ string_bytes text.old ++ messages_opening) }
{
    text.push_str(
        "<p class=\"lead\">No run has a crash, so settings are compared by their false deaths and \
         their messages. No other setting beats these: none sends at most as many messages and is \
         at least as safe, and is better in one of the two. The further down, the more messages \
         and the safer; some may be equal in both.</p>",
    )
}

/// Appends what the words for how safe a setting is mean, and begins the list.
#[tactic(auto, unfolding(crate::specs::Summary::safety_words))]
fn push_safety_words(text: &mut String) -> Result<(), AllocError>
    ensures { OnOk result (string_bytes text.new ≡ string_bytes text.old ++ safety_words) }
{
    text.push_str(
        "<p class=\"soft\">A false death: a member that has neither crashed nor left is declared \
         dead. Safe: the whole 95&nbsp;% interval of the share of runs with a false death is at \
         most 5&nbsp;%. Unsafe: the whole interval is above 5&nbsp;%. Unknown: only a part of it \
         is, so more runs would decide. A range in parentheses: the 95&nbsp;% interval.</p>\
         <ol class=\"answers\">",
    )
}

/// Appends the first of these settings.
fn push_first(
    alloc: Global,
    text: &mut String,
    time: Option<Tick>,
    plan: &Plan,
    settings: &[SettingSummary],
    crashed: bool,
    points: &[FrontPoint],
) -> Result<(), Memory>
    ensures { OnOk result (string_bytes text.new ≡ string_bytes text.old ++ flat_map (told_at time crashed plan.now.swept_keys settings.now points.now) (range_with_len 0 (min (length points.now) 12))) }
{
    for place in 0..points.len().min(MOST_TOLD) {
        push_told_at(alloc, text, time, plan, settings, crashed, points, place)?;
    }
    Ok(())
}

/// Appends the setting at a place among them.
#[tactic(auto, unfolding(crate::specs::Summary::told_at))]
fn push_told_at(
    alloc: Global,
    text: &mut String,
    time: Option<Tick>,
    plan: &Plan,
    settings: &[SettingSummary],
    crashed: bool,
    points: &[FrontPoint],
    place: usize,
) -> Result<(), Memory>
    ensures { OnOk result (string_bytes text.new ≡ string_bytes text.old ++ told_at time crashed plan.now.swept_keys settings.now points.now place) }
{
    match points.get(place) {
        Some(point) => push_item_at(alloc, text, time, plan, settings, crashed, point.place),
        None => Ok(()),
    }
}

/// Appends how many of so many settings on the front aren't listed.
fn push_rest(text: &mut String, crashed: bool, count: usize) -> Result<(), AllocError>
    ensures { OnOk result (string_bytes text.new ≡ string_bytes text.old ++ untold_words crashed (count - 12)) }
{
    push_untold(text, crashed, count.saturating_sub(MOST_TOLD))
}

/// Appends that so many aren't listed.
#[tactic(auto, unfolding(crate::specs::Summary::untold_words))]
fn push_untold(text: &mut String, crashed: bool, more: usize) -> Result<(), AllocError>
    ensures { OnOk result (string_bytes text.new ≡ string_bytes text.old ++ untold_words crashed more) }
{
    if more == 0 {
        return Ok(());
    }
    push_more(text, crashed, more)
}

/// Appends which are listed, and that there are so many more.
#[tactic(auto, unfolding(crate::specs::Summary::more_words))]
fn push_more(text: &mut String, crashed: bool, more: usize) -> Result<(), AllocError>
    ensures { OnOk result (string_bytes text.new ≡ string_bytes text.old ++ more_words crashed more) }
{
    let listed = listed_words(crashed);
    push_markup(text, listed)?;
    push_count(text, more as u64, " more is", " more are")?;
    push_markup(
        text,
        " on it: all have a star in the table of all settings.</p>\n",
    )
}

/// Which settings of more on the front are listed.
#[tactic(auto, unfolding(crate::specs::Summary::listed_words))]
fn listed_words(crashed: bool) -> &'static str
    ensures { result.now ≡ listed_words crashed }
{
    if crashed {
        "<p class=\"soft\">These are the first 12 settings on the front, fastest first. "
    } else {
        "<p class=\"soft\">These are the first 12 settings on the front, fewest messages first. "
    }
}
