//! How the news of a crash spread.
ghost use Rattle.std.specs.Prelude.{◌≡◌, ◌<◌, ◌^◌, ◌++◌, OnOk, codes, flat_map};
ghost use Rattle.std.specs.String.{string_bytes};
ghost use Rattle.std.specs.List.{range_with_len};
ghost use Rattle.scenario.specs.Setup.{member_count};
ghost use Rattle.series.specs.Watched.{crashed};
ghost use Rattle.drawing.specs.Shapes.{line, plot_opening, step_start};
ghost use Rattle.member_timelines.specs.Heights.{axis_height};
ghost use Rattle.member_timelines.specs.Run.{IsTold};
ghost use Rattle.run_spread.specs.Spread.{learned, staying, chart_opening, spread_chart, time_cell, share_cells, share_row, share_heads, share_table, crash_part, crash_text, watched_crash, spread_legend, unwatched_words, spread_figure, spread_text};

use crate::news::{Heard, STEPS, ShareTimes, crashed, longest, news, staying};
use base::{MemberId, Memory, Moment};
use drawing::{
    close_figure, close_plot, open_figure, open_plot, push_entry, push_escaped, push_line,
    push_time_across, push_time_alone, push_up,
};
use member_timelines::{Run, axis_height};
use series::Spread;
use std::alloc::{AllocError, Global};
use ticks::Tick;

/// The most crashes that are watched.
const WATCHED: u64 = 12;

/// Appends how the news of each crash spread that is watched, where somebody crashes.
pub fn push_spread(alloc: Global, text: &mut String, run: &Run) -> Result<(), Memory>
    requires { IsTold run.now }
    ensures { OnOk result (string_bytes text.new ≡ string_bytes text.old ++ spread_text run.now.tick run.now.scenario.now run.now.tallies.now) }
{
    if crashed(run) == 0 {
        return Ok(());
    }
    push_figure(alloc, text, run, longest(run) / STEPS + 1)
}

/// Appends the figure, in steps so long.
#[tactic(auto, unfolding(crate::specs::Spread::spread_figure))]
fn push_figure(alloc: Global, text: &mut String, run: &Run, step: u64) -> Result<(), Memory>
    requires { IsTold run.now }
    ensures { OnOk result (string_bytes text.new ≡ string_bytes text.old ++ spread_figure run.now.tick run.now.scenario.now run.now.tallies.now step) }
{
    open_figure(text, "spread", "How the news of a crash spread")?;
    push_legend(text)?;
    push_unwatched(text, run)?;
    text.push_str("<div class=\"many\">")?;
    push_crashes(alloc, text, run, step)?;
    text.push_str("</div>")?;
    close_figure(text)?;
    Ok(())
}

/// Appends what the colours stand for, and what is counted.
#[tactic(auto, unfolding(crate::specs::Spread::spread_legend))]
fn push_legend(text: &mut String) -> Result<(), AllocError>
    ensures { OnOk result (string_bytes text.new ≡ string_bytes text.old ++ spread_legend) }
{
    text.push_str("<ul class=\"legend\">")?;
    push_entry(text, "suspect", "have suspected it")?;
    push_entry(text, "dead", "have declared it dead")?;
    text.push_str(
        "</ul><p class=\"soft\">A member that suspected it, or held it dead, when it crashed counts as having heard at once.</p>",
    )?;
    Ok(())
}

/// Appends how many crashes aren't watched.
fn push_unwatched(text: &mut String, run: &Run) -> Result<(), AllocError>
    requires { IsTold run.now }
    ensures { OnOk result (string_bytes text.new ≡ string_bytes text.old ++ unwatched_words (crashed run.now.scenario.now (member_count run.now.scenario.now))) }
{
    push_unwatched_of(text, crashed(run))
}

/// Appends how many of so many crashes aren't watched, where there are too many.
#[tactic(auto, unfolding(crate::specs::Spread::unwatched_words))]
fn push_unwatched_of(text: &mut String, crashed: u64) -> Result<(), AllocError>
    ensures { OnOk result (string_bytes text.new ≡ string_bytes text.old ++ unwatched_words crashed) }
{
    if crashed <= WATCHED {
        return Ok(());
    }
    let more = crashed - WATCHED;
    write!(
        text,
        "<p class=\"soft\">{more} more crashed; these are the first 12 by number.</p>"
    )
}

/// Appends what is shown of each crash that is watched.
fn push_crashes(alloc: Global, text: &mut String, run: &Run, step: u64) -> Result<(), Memory>
    requires { IsTold run.now }
    ensures { OnOk result (string_bytes text.new ≡ string_bytes text.old
        ++ flat_map (watched_crash run.now.tick run.now.scenario.now run.now.tallies.now step) (range_with_len 0 (member_count run.now.scenario.now))) }
{
    for number in 0..run.members() {
        push_watched(alloc, text, run, MemberId(number as u16), step)?;
    }
    Ok(())
}

/// Appends what is shown of a member's crash, where that is watched.
fn push_watched(
    alloc: Global,
    text: &mut String,
    run: &Run,
    member: MemberId,
    step: u64,
) -> Result<(), Memory>
    requires told { IsTold run.now }
    requires within { member < member_count run.now.scenario.now }
    ensures { OnOk result (string_bytes text.new ≡ string_bytes text.old ++ watched_crash run.now.tick run.now.scenario.now run.now.tallies.now step member) }
{
    let spread = run.story(member).spread();
    match spread.since() {
        Some(from) => push_crash(
            alloc,
            text,
            run,
            run.scenario.name(member),
            spread,
            from,
            step,
        ),
        None => Ok(()),
    }
}

/// Appends what is shown of the crash, at a moment, of a member of that name.
fn push_crash(
    alloc: Global,
    text: &mut String,
    run: &Run,
    name: &str,
    spread: &Spread,
    from: Moment,
    step: u64,
) -> Result<(), Memory>
    requires { IsTold run.now }
    ensures { OnOk result (string_bytes text.new ≡ string_bytes text.old
        ++ crash_text run.now.tick run.now.scenario.now name.now step (learned spread.now.suspected.items from) (learned spread.now.confirmed.items from)) }
{
    let staying = staying(run);
    let suspected = news(alloc, run, spread.suspected(), from, staying, step)?;
    let dead = news(alloc, run, spread.confirmed(), from, staying, step)?;
    push_part(text, run.tick, name, staying, step, &suspected, &dead)?;
    Ok(())
}

/// Appends the same, where so many stay, by how they suspected the member and declared it dead.
#[tactic(auto, unfolding(crate::specs::Spread::crash_part))]
fn push_part(
    text: &mut String,
    time: Option<Tick>,
    name: &str,
    staying: u64,
    step: u64,
    suspected: &Heard,
    dead: &Heard,
) -> Result<(), AllocError>
    ensures { OnOk result (string_bytes text.new ≡ string_bytes text.old
        ++ crash_part time name.now staying step suspected.now.reached.items suspected.now.shares dead.now.reached.items dead.now.shares) }
{
    text.push_str("<div><h3>")?;
    push_escaped(text, name)?;
    text.push_str("</h3>")?;
    push_scaled(text, time, name, staying, step, suspected, dead)?;
    push_shares(text, time, suspected.shares, dead.shares)?;
    text.push_str("</div>\n")?;
    Ok(())
}

/// Appends its plot, as wide as all steps and as high as those who stay.
fn push_scaled(
    text: &mut String,
    time: Option<Tick>,
    name: &str,
    staying: u64,
    step: u64,
    suspected: &Heard,
    dead: &Heard,
) -> Result<(), AllocError>
    ensures { OnOk result (string_bytes text.new ≡ string_bytes text.old
        ++ spread_chart time name.now (axis_height (step_start step 120)) (axis_height staying) step suspected.now.reached.items dead.now.reached.items) }
{
    let width = axis_height(STEPS.saturating_mul(step));
    push_chart(
        text,
        time,
        name,
        width,
        axis_height(staying),
        step,
        suspected,
        dead,
    )
}

/// Appends the plot, so wide and so high.
#[tactic(auto, unfolding(crate::specs::Spread::spread_chart))]
fn push_chart(
    text: &mut String,
    time: Option<Tick>,
    name: &str,
    width: u64,
    most: u64,
    step: u64,
    suspected: &Heard,
    dead: &Heard,
) -> Result<(), AllocError>
    requires width { width < 2 ^ 63 }
    requires most { most < 2 ^ 63 }
    ensures { OnOk result (string_bytes text.new ≡ string_bytes text.old
        ++ spread_chart time name.now width most step suspected.now.reached.items dead.now.reached.items) }
{
    open_chart(text, name, width, most)?;
    push_reached(text, "suspect", suspected, step, most)?;
    push_reached(text, "dead", dead, step, most)?;
    close_plot(text)?;
    push_time_across(
        text,
        width,
        "ticks since the crash",
        "time since the crash",
        time,
    )?;
    text.push_str("</div>")?;
    Ok(())
}

/// Begins the plot, with its axis up.
#[tactic(auto, unfolding(crate::specs::Spread::chart_opening))]
fn open_chart(text: &mut String, name: &str, width: u64, most: u64) -> Result<(), AllocError>
    requires { most < 2 ^ 63 }
    ensures { OnOk result (string_bytes text.new ≡ string_bytes text.old ++ chart_opening name.now width most) }
{
    text.push_str("<div class=\"chart\">")?;
    push_up(text, most)?;
    open_shapes(text, name, width, most)?;
    Ok(())
}

/// Begins its shapes.
fn open_shapes(text: &mut String, name: &str, width: u64, most: u64) -> Result<(), AllocError>
    ensures { OnOk result (string_bytes text.new ≡ string_bytes text.old
        ++ plot_opening (codes "") width most name.now (codes "How many members had suspected it, and how many had declared it dead, by the time since its crash.")) }
{
    open_plot(
        text,
        "",
        width,
        most,
        name,
        "How many members had suspected it, and how many had declared it dead, by the time since its crash.",
    )
}

/// Appends how many had learned of it by the end of each step.
fn push_reached(
    text: &mut String,
    class: &str,
    news: &Heard,
    step: u64,
    most: u64,
) -> Result<(), AllocError>
    ensures { OnOk result (string_bytes text.new ≡ string_bytes text.old ++ line class.now news.now.reached.items step most) }
{
    push_line(text, class, news.reached.as_slice(), step, most)
}

/// Appends after which times shares of those who stay had suspected the member and declared it dead.
#[tactic(auto, unfolding(crate::specs::Spread::share_table))]
fn push_shares(
    text: &mut String,
    time: Option<Tick>,
    suspected: ShareTimes,
    dead: ShareTimes,
) -> Result<(), AllocError>
    ensures { OnOk result (string_bytes text.new ≡ string_bytes text.old ++ share_table time suspected dead) }
{
    push_heads(text)?;
    push_row(text, time, "suspected it after", suspected)?;
    push_row(text, time, "declared it dead after", dead)?;
    text.push_str("</table></div>")?;
    Ok(())
}

/// Appends what the table shows, and what its columns are.
#[tactic(auto, unfolding(crate::specs::Spread::share_heads))]
fn push_heads(text: &mut String) -> Result<(), AllocError>
    ensures { OnOk result (string_bytes text.new ≡ string_bytes text.old ++ share_heads) }
{
    text.push_str(
        "<div class=\"wide\"><table><caption>How long after the crash these shares of the members up had heard of it</caption>\
         <thead><tr><th scope=\"col\">of those up</th>",
    )?;
    text.push_str(
        "<th scope=\"col\">first</th><th scope=\"col\">50 %</th><th scope=\"col\">90 %</th>\
         <th scope=\"col\">99 %</th><th scope=\"col\">all</th></tr></thead><tbody>",
    )?;
    Ok(())
}

/// Appends the times of shares, behind some words.
#[tactic(auto, unfolding(crate::specs::Spread::share_row))]
fn push_row(
    text: &mut String,
    time: Option<Tick>,
    words: &str,
    shares: ShareTimes,
) -> Result<(), AllocError>
    ensures { OnOk result (string_bytes text.new ≡ string_bytes text.old ++ share_row time words.now shares) }
{
    text.push_str("<tr><th scope=\"row\">")?;
    text.push_str(words)?;
    text.push_str("</th>")?;
    push_times(text, time, shares)?;
    Ok(())
}

/// Appends the times of shares.
#[tactic(auto, unfolding(crate::specs::Spread::share_cells))]
fn push_times(text: &mut String, time: Option<Tick>, shares: ShareTimes) -> Result<(), AllocError>
    ensures { OnOk result (string_bytes text.new ≡ string_bytes text.old ++ share_cells time shares) }
{
    push_time(text, time, shares.first)?;
    push_time(text, time, shares.half)?;
    push_time(text, time, shares.nine_tenths)?;
    push_time(text, time, shares.nearly_all)?;
    push_time(text, time, shares.all)?;
    Ok(())
}

/// Appends a time, in units alone where it is known how long a tick lasts; a dash where there is none.
fn push_time(text: &mut String, time: Option<Tick>, after: Option<u64>) -> Result<(), AllocError>
    ensures { OnOk result (string_bytes text.new ≡ string_bytes text.old ++ time_cell time after) }
{
    text.push_str("<td>")?;
    match after {
        Some(after) => push_time_alone(text, time, after),
        None => text.push_str("-"),
    }
}
