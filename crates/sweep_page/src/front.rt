//! Each setting by how fast and how safe it is.
ghost use Rattle.std.specs.Prelude.{◌≡◌, ◌≤◌, ◌<◌, ◌^◌, ◌++◌, OnOk, length};
ghost use Rattle.std.specs.List.{flat_map, range_with_len};
ghost use Rattle.std.specs.String.{string_bytes};
ghost use Rattle.drawing.specs.Axes.{at_ticks};
ghost use Rattle.drawing.specs.Rounds.{round_step};
ghost use Rattle.sweep_page.specs.Front.{axis_of, time_where, farthest, front_heading, highest, messages_words, most_messages, plane_title, plane_words, reach_of, speed_words, unit_words, share_tick, shares_up, plane, plane_opening, confirm_cell, confirm_head, front_row, front_row_of, heads_end, heads_opening, front_table, front_words, front_chart, front_figure, front_where};

use crate::front_points::{FrontPoint, across_of};
use crate::marks::{push_joined, push_marks, push_numbers};
use crate::table::push_shares;
use base::Memory;
use drawing::{
    close_figure, close_plot, open_figure, open_plot, push_markup, push_place, push_time_across,
    round_step,
};
use figures::SettingSummary;
use std::alloc::{AllocError, Global};
use sweep_cells::{
    push_number, push_percent, push_rate, push_swept_keys_at, push_time_cell, setting_at,
    thousandths,
};
use sweep_plan::Plan;
use ticks::Tick;

/// The greatest number that an axis reaches.
const MOST: u64 = 1_000_000_000_000_000_000;

/// How far the plot reaches.
#[derive(Clone, Copy)]
pub struct Reach {
    /// Ticks across, or messages in hundredths; past the farthest setting.
    pub across: u64,
    /// Thousandths up: the greatest upper end of an interval.
    pub up: u64,
    /// The greatest number of messages, in hundredths.
    pub messages: u128,
    /// Whether a run of the sweep has a crash.
    pub crashed: bool,
}

/// How far a plot of these settings reaches.
#[tactic(auto, unfolding(crate::specs::Front::reach_of))]
fn reach_of(crashed: bool, settings: &[SettingSummary]) -> Reach
    ensures is { result ≡ reach_of crashed settings.now }
    ensures across { result.across < 2 ^ 63 }
    ensures up { result.up < 2 ^ 63 }
{
    let farthest = farthest(crashed, settings).min(MOST);
    let across = farthest + farthest / 16;
    let up = highest(settings);
    let messages = most_messages(settings);
    Reach {
        across,
        up,
        messages,
        crashed,
    }
}

/// How far across the farthest setting stands; 1 at least.
fn farthest(crashed: bool, settings: &[SettingSummary]) -> u64
    ensures { result ≡ farthest crashed settings.now }
{
    let mut most = 1;
    for setting in settings {
        most = most.max(across_of(crashed, setting).unwrap_or(0));
    }
    most
}

/// The greatest upper end of an interval, in thousandths; a percent at least.
fn highest(settings: &[SettingSummary]) -> u64
    ensures is { result ≡ highest settings.now }
    ensures low { result < 2 ^ 63 }
{
    let mut most = 10;
    for setting in settings {
        most = most.max(thousandths(setting.share_high));
    }
    most
}

/// The greatest number of messages, in hundredths; 1 at least.
fn most_messages(settings: &[SettingSummary]) -> u128
    ensures { result ≡ most_messages settings.now }
{
    let mut most = 1;
    for setting in settings {
        most = most.max(setting.messages.unwrap_or(0));
    }
    most
}

/// Appends the figure of all settings; nothing where no setting is on the front, since none has a place
/// in the plot then.
#[tactic(auto, unfolding(crate::specs::Front::front_where))]
pub(crate) fn push_front_where(
    alloc: Global,
    text: &mut String,
    time: Option<Tick>,
    plan: &Plan,
    settings: &[SettingSummary],
    front: &[bool],
    points: &[FrontPoint],
    crashed: bool,
) -> Result<(), Memory>
    ensures { OnOk result (string_bytes text.new ≡ string_bytes text.old ++ front_where time crashed plan.now.swept_keys settings.now front.now points.now) }
{
    if points.is_empty() {
        return Ok(());
    }
    push_front(alloc, text, time, plan, settings, front, points, crashed)
}

/// Appends the plot of all settings, those on the front joined and named, and their figures in a
/// table.
#[tactic(auto, unfolding(crate::specs::Front::front_figure))]
fn push_front(
    alloc: Global,
    text: &mut String,
    time: Option<Tick>,
    plan: &Plan,
    settings: &[SettingSummary],
    front: &[bool],
    points: &[FrontPoint],
    crashed: bool,
) -> Result<(), Memory>
    ensures { OnOk result (string_bytes text.new ≡ string_bytes text.old ++ front_figure time crashed plan.now.swept_keys settings.now front.now points.now) }
{
    let reach = reach_of(crashed, settings);
    open_figure(text, "front", front_heading(crashed))?;
    push_words(text, crashed)?;
    push_chart(text, time, settings, front, points, &reach)?;
    push_rows(alloc, text, time, plan, settings, points, crashed)?;
    close_figure(text)?;
    Ok(())
}

/// Appends what the plot shows.
#[tactic(auto, unfolding(crate::specs::Front::front_words))]
fn push_words(text: &mut String, crashed: bool) -> Result<(), AllocError>
    ensures { OnOk result (string_bytes text.new ≡ string_bytes text.old ++ front_words crashed) }
{
    if crashed {
        push_speed_words(text)
    } else {
        push_messages_words(text)
    }
}

/// Appends what the plot shows, where runs have crashes.
#[tactic(auto, unfolding(crate::specs::Front::speed_words))]
fn push_speed_words(text: &mut String) -> Result<(), AllocError>
    ensures { OnOk result (string_bytes text.new ≡ string_bytes text.old ++ speed_words) }
{
    text.push_str(
        "<p class=\"soft\">Each dot is a setting: the further left, the faster; the lower, the \
         safer. Up: the share of runs with a false death, with its 95&nbsp;% interval as a bar. A \
         larger dot sends more messages. The numbered dots, joined by a line, are on the front: no \
         other setting is as good in both and better in one.</p>",
    )
}

/// Appends what the plot shows, where no run has a crash.
#[tactic(auto, unfolding(crate::specs::Front::messages_words))]
fn push_messages_words(text: &mut String) -> Result<(), AllocError>
    ensures { OnOk result (string_bytes text.new ≡ string_bytes text.old ++ messages_words) }
{
    text.push_str(
        "<p class=\"soft\">Each dot is a setting: the further left, the fewer messages; the lower, \
         the safer. Up: the share of runs with a false death, with its 95&nbsp;% interval as a bar. \
         The numbered dots, joined by a line, are on the front: no other setting is as good in both \
         and better in one.</p>",
    )
}

/// Appends the plot with its axes.
#[tactic(auto, unfolding(crate::specs::Front::front_chart))]
fn push_chart(
    text: &mut String,
    time: Option<Tick>,
    settings: &[SettingSummary],
    front: &[bool],
    points: &[FrontPoint],
    reach: &Reach,
) -> Result<(), AllocError>
    requires across { reach.now.across < 2 ^ 63 }
    requires up { reach.now.up < 2 ^ 63 }
    ensures { OnOk result (string_bytes text.new ≡ string_bytes text.old ++ front_chart time reach.now settings.now front.now points.now) }
{
    push_markup(text, "<div class=\"chart\">")?;
    push_shares_up(text, reach.up)?;
    push_plane(text, settings, front, points, reach)?;
    push_axis(text, time, reach)?;
    push_markup(text, "</div>")
}

/// Appends the axis across.
#[tactic(auto, unfolding(crate::specs::Front::axis_of))]
fn push_axis(text: &mut String, time: Option<Tick>, reach: &Reach) -> Result<(), AllocError>
    requires { reach.now.across < 2 ^ 63 }
    ensures { OnOk result (string_bytes text.new ≡ string_bytes text.old ++ axis_of time reach.now) }
{
    push_time_across(
        text,
        reach.across,
        unit_words(reach.crashed),
        "time until a crash is first confirmed, median",
        time_where(time, reach.crashed),
    )
}

/// How long a tick lasts, where time is across.
fn time_where(time: Option<Tick>, crashed: bool) -> Option<Tick>
    ensures { result ≡ time_where time crashed }
{
    if crashed { time } else { None }
}

/// Appends the axis of shares.
#[tactic(auto, unfolding(crate::specs::Front::shares_up))]
fn push_shares_up(text: &mut String, up: u64) -> Result<(), AllocError>
    requires { up < 2 ^ 63 }
    ensures { OnOk result (string_bytes text.new ≡ string_bytes text.old ++ shares_up up) }
{
    push_markup(text, "<div class=\"up\" aria-hidden=\"true\">")?;
    push_share_ticks(text, up)?;
    push_markup(text, "</div>")
}

/// Appends its ticks.
fn push_share_ticks(text: &mut String, up: u64) -> Result<(), AllocError>
    requires { up < 2 ^ 63 }
    ensures { OnOk result (string_bytes text.new ≡ string_bytes text.old ++ at_ticks (share_tick up) up (round_step up 4)) }
{
    let step = round_step(up, 4);
    for tick in 0..up / step + 1 {
        push_share_tick(text, tick * step, up)?;
    }
    Ok(())
}

/// Appends a tick of that axis.
#[tactic(auto, unfolding(crate::specs::Front::share_tick))]
fn push_share_tick(text: &mut String, share: u64, up: u64) -> Result<(), AllocError>
    ensures { OnOk result (string_bytes text.new ≡ string_bytes text.old ++ share_tick up share) }
{
    push_markup(text, "<span style=\"bottom:")?;
    push_place(text, share, up)?;
    push_markup(text, "\">")?;
    push_percent(text, share)?;
    push_markup(text, "</span>")
}

/// Appends the dots, their bars, the line and the numbers.
#[tactic(auto, unfolding(crate::specs::Front::plane))]
fn push_plane(
    text: &mut String,
    settings: &[SettingSummary],
    front: &[bool],
    points: &[FrontPoint],
    reach: &Reach,
) -> Result<(), AllocError>
    ensures { OnOk result (string_bytes text.new ≡ string_bytes text.old ++ plane reach.now settings.now front.now points.now) }
{
    push_markup(text, "<div class=\"plane\">")?;
    open_plane(text, reach)?;
    push_marks(text, settings, front, false, reach)?;
    push_joined(text, points, reach)?;
    push_marks(text, settings, front, true, reach)?;
    close_plot(text)?;
    push_numbers(text, points, reach)?;
    push_markup(text, "</div>")
}

/// Begins the plot.
#[tactic(auto, unfolding(crate::specs::Front::plane_opening))]
fn open_plane(text: &mut String, reach: &Reach) -> Result<(), AllocError>
    ensures { OnOk result (string_bytes text.new ≡ string_bytes text.old ++ plane_opening reach.now) }
{
    let title = plane_title(reach.crashed);
    let words = plane_words(reach.crashed);
    open_plot(text, "cases", reach.across, reach.up, title, words)
}

/// What the plot is called.
#[tactic(auto, unfolding(crate::specs::Front::plane_title))]
fn plane_title(crashed: bool) -> &'static str
    ensures { result.now ≡ plane_title crashed }
{
    if crashed {
        "Every setting by its speed and its safety"
    } else {
        "Every setting by its messages and its safety"
    }
}

/// What a screen reader says of it.
#[tactic(auto, unfolding(crate::specs::Front::plane_words))]
fn plane_words(crashed: bool) -> &'static str
    ensures { result.now ≡ plane_words crashed }
{
    if crashed {
        "Across: the median time until a crash is first confirmed. Up: the share of runs with a \
         false death. The table beneath has the settings on the front."
    } else {
        "Across: messages per member. Up: the share of runs with a false death. The table beneath \
         has the settings on the front."
    }
}

/// What is across.
#[tactic(auto, unfolding(crate::specs::Front::unit_words))]
fn unit_words(crashed: bool) -> &'static str
    ensures { result.now ≡ unit_words crashed }
{
    if crashed {
        "ticks until a crash is first confirmed, median"
    } else {
        "messages per member per 100,000 ticks"
    }
}

/// What the figure is called.
#[tactic(auto, unfolding(crate::specs::Front::front_heading))]
fn front_heading(crashed: bool) -> &'static str
    ensures { result.now ≡ front_heading crashed }
{
    if crashed {
        "Fast or safe: every setting"
    } else {
        "Few messages or safe: every setting"
    }
}

/// Appends the figures of the settings on the front, folded.
#[tactic(auto, unfolding(crate::specs::Front::front_table))]
fn push_rows(
    alloc: Global,
    text: &mut String,
    time: Option<Tick>,
    plan: &Plan,
    settings: &[SettingSummary],
    points: &[FrontPoint],
    crashed: bool,
) -> Result<(), Memory>
    ensures { OnOk result (string_bytes text.new ≡ string_bytes text.old ++ front_table time crashed plan.now.swept_keys settings.now points.now) }
{
    push_heads_opening(text)?;
    push_confirm_head(text, crashed)?;
    push_heads_end(text)?;
    push_rows_of(alloc, text, time, plan, settings, points, crashed)?;
    push_markup(text, "</tbody></table></div></details>")?;
    Ok(())
}

/// Appends what their columns are, up to their times.
#[tactic(auto, unfolding(crate::specs::Front::heads_opening))]
fn push_heads_opening(text: &mut String) -> Result<(), AllocError>
    ensures { OnOk result (string_bytes text.new ≡ string_bytes text.old ++ heads_opening) }
{
    text.push_str(
        "<details><summary>The front in numbers</summary><div class=\"wide\"><table>\
         <caption>The settings on the front</caption><thead><tr><th scope=\"col\">number</th>\
         <th scope=\"col\">setting</th>",
    )
}

/// Appends the head of their times, where runs have crashes.
#[tactic(auto, unfolding(crate::specs::Front::confirm_head))]
fn push_confirm_head(text: &mut String, crashed: bool) -> Result<(), AllocError>
    ensures { OnOk result (string_bytes text.new ≡ string_bytes text.old ++ confirm_head crashed) }
{
    if !crashed {
        return Ok(());
    }
    text.push_str("<th scope=\"col\">confirmed, median</th>")
}

/// Appends what the other columns are.
#[tactic(auto, unfolding(crate::specs::Front::heads_end))]
fn push_heads_end(text: &mut String) -> Result<(), AllocError>
    ensures { OnOk result (string_bytes text.new ≡ string_bytes text.old ++ heads_end) }
{
    text.push_str(
        "<th scope=\"col\">runs with a false death</th><th scope=\"col\">their share</th>\
         <th scope=\"col\">95&nbsp;% interval</th><th scope=\"col\">members with a false death per run</th>\
         <th scope=\"col\">their 95&nbsp;% interval</th>\
         <th scope=\"col\">messages per member per 1,000 ticks</th></tr></thead><tbody>",
    )
}

/// Appends the rows of these settings.
fn push_rows_of(
    alloc: Global,
    text: &mut String,
    time: Option<Tick>,
    plan: &Plan,
    settings: &[SettingSummary],
    points: &[FrontPoint],
    crashed: bool,
) -> Result<(), Memory>
    ensures { OnOk result (string_bytes text.new ≡ string_bytes text.old ++ flat_map (front_row_of time crashed plan.now.swept_keys settings.now) points.now) }
{
    for point in points {
        push_row_of(alloc, text, time, plan, settings, point, crashed)?;
    }
    Ok(())
}

/// Appends the row of a setting on the front.
#[tactic(auto, unfolding(crate::specs::Front::front_row_of))]
fn push_row_of(
    alloc: Global,
    text: &mut String,
    time: Option<Tick>,
    plan: &Plan,
    settings: &[SettingSummary],
    point: &FrontPoint,
    crashed: bool,
) -> Result<(), Memory>
    ensures { OnOk result (string_bytes text.new ≡ string_bytes text.old ++ front_row_of time crashed plan.now.swept_keys settings.now point.now) }
{
    match setting_at(settings, point.place) {
        Some(setting) => push_row(alloc, text, time, plan, crashed, point.place, &setting),
        None => Ok(()),
    }
}

/// Appends the row of the setting at a place, with its summary.
#[tactic(auto, unfolding(crate::specs::Front::front_row))]
fn push_row(
    alloc: Global,
    text: &mut String,
    time: Option<Tick>,
    plan: &Plan,
    crashed: bool,
    place: usize,
    setting: &SettingSummary,
) -> Result<(), Memory>
    ensures { OnOk result (string_bytes text.new ≡ string_bytes text.old ++ front_row time crashed plan.now.swept_keys place setting.now) }
{
    push_markup(text, "<tr><th scope=\"row\">")?;
    push_number(text, place)?;
    push_markup(text, "</th><td>")?;
    push_swept_keys_at(alloc, text, plan, place)?;
    push_markup(text, "</td>")?;
    push_confirm_cell(text, time, crashed, setting)?;
    push_shares(text, setting)?;
    push_markup(text, "<td>")?;
    push_rate(text, setting.messages)?;
    push_markup(text, "</td></tr>")?;
    Ok(())
}

/// Appends the median time until a crash was confirmed, where runs have crashes.
#[tactic(auto, unfolding(crate::specs::Front::confirm_cell))]
fn push_confirm_cell(
    text: &mut String,
    time: Option<Tick>,
    crashed: bool,
    setting: &SettingSummary,
) -> Result<(), AllocError>
    ensures { OnOk result (string_bytes text.new ≡ string_bytes text.old ++ confirm_cell time crashed setting.now) }
{
    if !crashed {
        return Ok(());
    }
    push_time_cell(text, time, setting.confirm_p50)
}
