//! Axes: round ticks, as words beside the shapes.
ghost use Rattle.std.specs.Prelude.{◌≡◌, ◌++◌, ◌<◌, ◌^◌, OnOk};
ghost use Rattle.std.specs.String.{string_bytes};
ghost use Rattle.drawing.specs.Rounds.{round_step, time_step};
ghost use Rattle.drawing.specs.Axes.{at_ticks, axis_across, axis_up, length_across, length_up, lengths_across, tick_across, tick_opening, tick_up, time_across, time_up, up_of};

use crate::escape::{push_escaped, push_markup};
use crate::length::{length_of, push_length};
use crate::number::{push_grouped, push_place, push_place_of};
use crate::round::{round_step, time_step};
use std::alloc::AllocError;
use ticks::Tick;

/// Appends the ticks of an axis across, from 0 to `most`, with a word for what they count.
#[tactic(auto, unfolding(crate::specs::Axes::across_of))]
pub fn push_across(text: &mut String, most: u64, unit: &str) -> Result<(), AllocError>
    requires { most < 2 ^ 63 }
    ensures { OnOk result (string_bytes text.new ≡ string_bytes text.old ++ axis_across most unit.now) }
{
    push_markup(text, "<div class=\"across\" aria-hidden=\"true\">")?;
    push_ticks(text, most)?;
    push_markup(text, "</div><p class=\"unit\">")?;
    push_escaped(text, unit)?;
    push_markup(text, "</p>")
}

/// Appends an axis of time across, from 0 to `most` ticks of the simulation: where it isn't known how long such a
/// tick lasts, in ticks, which `counted` names; else in units of time, and `lasting` names what they are.
pub fn push_time_across(
    text: &mut String,
    most: u64,
    counted: &str,
    lasting: &str,
    time: Option<Tick>,
) -> Result<(), AllocError>
    requires { most < 2 ^ 63 }
    ensures { OnOk result (string_bytes text.new ≡ string_bytes text.old ++ time_across time most counted.now lasting.now) }
{
    match time {
        Some(tick) => push_lengths_across(text, length_of(tick, most), lasting),
        None => push_across(text, most, counted),
    }
}

/// Appends an axis across from 0 to a length of time, in microseconds.
#[tactic(auto, unfolding(crate::specs::Axes::across_of))]
fn push_lengths_across(text: &mut String, most: u128, unit: &str) -> Result<(), AllocError>
    requires { most < 2 ^ 95 }
    ensures { OnOk result (string_bytes text.new ≡ string_bytes text.old ++ lengths_across most unit.now) }
{
    push_markup(text, "<div class=\"across\" aria-hidden=\"true\">")?;
    push_lengths(text, most)?;
    push_markup(text, "</div><p class=\"unit\">")?;
    push_escaped(text, unit)?;
    push_markup(text, "</p>")
}

/// Appends the ticks of an axis across.
fn push_ticks(text: &mut String, most: u64) -> Result<(), AllocError>
    requires { most < 2 ^ 63 }
    ensures { OnOk result (string_bytes text.new ≡ string_bytes text.old ++ at_ticks (tick_across most) most (round_step most 5)) }
{
    let step = round_step(most, 5);
    for tick in 0..most / step + 1 {
        push_tick(text, tick * step, most)?;
    }
    Ok(())
}

/// Appends a tick of an axis across; one near its end stands before its place.
#[tactic(auto, unfolding(crate::specs::Axes::tick_across))]
fn push_tick(text: &mut String, at: u64, most: u64) -> Result<(), AllocError>
    ensures { OnOk result (string_bytes text.new ≡ string_bytes text.old ++ tick_across most at) }
{
    push_tick_opening(text, at > most - most / 16)?;
    push_place(text, at, most)?;
    push_markup(text, "\">")?;
    push_grouped(text, at)?;
    push_markup(text, "</span>")
}

/// Appends the ticks of an axis of lengths of time across.
fn push_lengths(text: &mut String, most: u128) -> Result<(), AllocError>
    requires { most < 2 ^ 95 }
    ensures { OnOk result (string_bytes text.new ≡ string_bytes text.old ++ at_ticks (length_across most) most (time_step most 4)) }
{
    let step = time_step(most, 4);
    for tick in 0..(most / step) as u64 + 1 {
        push_length_across(text, u128::from(tick) * step, most)?;
    }
    Ok(())
}

/// Appends a tick of such an axis.
#[tactic(auto, unfolding(crate::specs::Axes::length_across))]
fn push_length_across(text: &mut String, at: u128, most: u128) -> Result<(), AllocError>
    requires { most < 2 ^ 95 }
    ensures { OnOk result (string_bytes text.new ≡ string_bytes text.old ++ length_across most at) }
{
    push_tick_opening(text, at > most - most / 16)?;
    push_place_of(text, at, most)?;
    push_markup(text, "\">")?;
    push_length(text, at)?;
    push_markup(text, "</span>")
}

/// Begins a tick of an axis across.
fn push_tick_opening(text: &mut String, last: bool) -> Result<(), AllocError>
    ensures { OnOk result (string_bytes text.new ≡ string_bytes text.old ++ tick_opening last) }
{
    if last {
        text.push_str("<span class=\"last\" style=\"left:")
    } else {
        text.push_str("<span style=\"left:")
    }
}

/// Appends the ticks of an axis up, from 0 to `most`.
#[tactic(auto, unfolding(crate::specs::Axes::up_of))]
pub fn push_up(text: &mut String, most: u64) -> Result<(), AllocError>
    requires { most < 2 ^ 63 }
    ensures { OnOk result (string_bytes text.new ≡ string_bytes text.old ++ axis_up most) }
{
    push_markup(text, "<div class=\"up\" aria-hidden=\"true\">")?;
    push_ticks_up(text, most)?;
    push_markup(text, "</div>")
}

/// Appends the ticks of an axis of time up, from 0 to `most` ticks of the simulation: in units of time where it is known
/// how long such a tick lasts, else in ticks.
pub fn push_time_up(text: &mut String, most: u64, time: Option<Tick>) -> Result<(), AllocError>
    requires { most < 2 ^ 63 }
    ensures { OnOk result (string_bytes text.new ≡ string_bytes text.old ++ time_up time most) }
{
    match time {
        Some(tick) => push_lengths_up(text, length_of(tick, most)),
        None => push_up(text, most),
    }
}

/// Appends an axis up from 0 to a length of time, in microseconds.
#[tactic(auto, unfolding(crate::specs::Axes::up_of))]
fn push_lengths_up(text: &mut String, most: u128) -> Result<(), AllocError>
    requires { most < 2 ^ 95 }
    ensures { OnOk result (string_bytes text.new ≡ string_bytes text.old ++ up_of (at_ticks (length_up most) most (time_step most 4))) }
{
    push_markup(text, "<div class=\"up\" aria-hidden=\"true\">")?;
    push_steps_up(text, most)?;
    push_markup(text, "</div>")
}

/// Appends the ticks of an axis up.
fn push_ticks_up(text: &mut String, most: u64) -> Result<(), AllocError>
    requires { most < 2 ^ 63 }
    ensures { OnOk result (string_bytes text.new ≡ string_bytes text.old ++ at_ticks (tick_up most) most (round_step most 4)) }
{
    let step = round_step(most, 4);
    for tick in 0..most / step + 1 {
        push_tick_up(text, tick * step, most)?;
    }
    Ok(())
}

/// Appends a tick of an axis up.
#[tactic(auto, unfolding(crate::specs::Axes::tick_up))]
fn push_tick_up(text: &mut String, at: u64, most: u64) -> Result<(), AllocError>
    ensures { OnOk result (string_bytes text.new ≡ string_bytes text.old ++ tick_up most at) }
{
    push_markup(text, "<span style=\"bottom:")?;
    push_place(text, at, most)?;
    push_markup(text, "\">")?;
    push_grouped(text, at)?;
    push_markup(text, "</span>")
}

/// Appends the ticks of an axis of lengths of time up.
fn push_steps_up(text: &mut String, most: u128) -> Result<(), AllocError>
    requires { most < 2 ^ 95 }
    ensures { OnOk result (string_bytes text.new ≡ string_bytes text.old ++ at_ticks (length_up most) most (time_step most 4)) }
{
    let step = time_step(most, 4);
    for tick in 0..(most / step) as u64 + 1 {
        push_length_up(text, u128::from(tick) * step, most)?;
    }
    Ok(())
}

/// Appends a tick of such an axis.
#[tactic(auto, unfolding(crate::specs::Axes::length_up))]
fn push_length_up(text: &mut String, at: u128, most: u128) -> Result<(), AllocError>
    requires { most < 2 ^ 95 }
    ensures { OnOk result (string_bytes text.new ≡ string_bytes text.old ++ length_up most at) }
{
    push_markup(text, "<span style=\"bottom:")?;
    push_place_of(text, at, most)?;
    push_markup(text, "\">")?;
    push_length(text, at)?;
    push_markup(text, "</span>")
}
