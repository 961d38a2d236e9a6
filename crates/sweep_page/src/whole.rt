//! The page, from its head to its end.
ghost use Rattle.std.specs.Prelude.{◌≡◌, ◌++◌, All, IfOk, OnOk, length};
ghost use Rattle.std.specs.String.{string_bytes};
ghost use Rattle.goals.specs.Wants.{HasFewRuns, IsBounded};
ghost use Rattle.sweep_plan.specs.Sweep.{setting_count};
ghost use Rattle.sweep_page.specs.Page.{page_head, page_end, page_over, page_text, time_figures, times_where};
ghost use Rattle.sweep_page.specs.Points.{places_of};
ghost use Rattle.sweep_times.specs.Times.{times_figure};

use crate::front::push_front_where;
use crate::front_points::{FrontPoint, front_points, places_of};
use crate::layout::page_style;
use crate::question::{Question, push_question};
use crate::summary::push_summary;
use crate::table::push_table;
use base::Memory;
use drawing::{open_page, push_escaped, push_markup};
use figures::SettingSummary;
use goals::has_crash;
use std::alloc::{AllocError, Global};
use sweep_keys::push_keys;
use sweep_plan::Plan;
use sweep_times::push_times;
use ticks::Tick;

/// What the page shows next to the figures.
#[derive(Clone, Copy)]
pub struct SweepShown<'a> {
    /// The name of the scenario.
    pub name: &'a str,
    /// The release of the program.
    pub release: &'a str,
    /// How long a tick lasts, where that is known.
    pub tick: Option<Tick>,
}

/// The page of a sweep, whole. It takes the summary of each setting of the plan, in their order, for each
/// whether it is on the front, and what is wanted of a setting with the place of the best that meets
/// it. It fails where memory is refused, and then there is none.
pub fn page(
    alloc: Global,
    shown: &SweepShown,
    plan: &Plan,
    question: &Question<'_>,
    settings: &[SettingSummary],
    front: &[bool],
) -> Result<String, Memory>
    requires all { length settings.now ≡ setting_count plan.now.swept_keys }
    requires bounded { All IsBounded question.now.wants.now }
    requires few { All HasFewRuns settings.now }
    ensures { IfOk result (λ text. string_bytes text
        ≡ page_text shown.now.tick shown.now.name.now shown.now.release.now plan.now question.now.wants.now question.now.best settings.now front.now) }
{
    let crashed = has_crash(settings);
    let points = front_points(alloc, settings, front, crashed)?;
    let mut text = String::new(alloc);
    push_page(
        alloc, &mut text, shown, plan, question, settings, front, crashed, &points,
    )?;
    Ok(text)
}

/// Appends the page, with the settings on the front in their order.
#[tactic(auto, unfolding(crate::specs::Page::page_over))]
fn push_page(
    alloc: Global,
    text: &mut String,
    shown: &SweepShown,
    plan: &Plan,
    question: &Question<'_>,
    settings: &[SettingSummary],
    front: &[bool],
    crashed: bool,
    points: &[FrontPoint],
) -> Result<(), Memory>
    requires all { length settings.now ≡ setting_count plan.now.swept_keys }
    requires bounded { All IsBounded question.now.wants.now }
    requires few { All HasFewRuns settings.now }
    ensures { OnOk result (string_bytes text.new ≡ string_bytes text.old
        ++ page_over shown.now.tick shown.now.name.now shown.now.release.now plan.now question.now.wants.now question.now.best settings.now front.now crashed points.now) }
{
    push_head(text, shown.name)?;
    push_question(
        alloc, text, shown.tick, plan, question, settings, front, points, crashed,
    )?;
    push_summary(alloc, text, shown.tick, plan, settings, crashed, points)?;
    push_front_where(
        alloc, text, shown.tick, plan, settings, front, points, crashed,
    )?;
    push_times_where(alloc, text, shown.tick, plan, settings, crashed, points)?;
    push_table(alloc, text, shown.tick, plan, settings, front, crashed)?;
    push_end(text, shown.release)?;
    Ok(())
}

/// Appends what times there are, where some run has a crash.
#[tactic(auto, unfolding(crate::specs::Page::times_where))]
fn push_times_where(
    alloc: Global,
    text: &mut String,
    time: Option<Tick>,
    plan: &Plan,
    settings: &[SettingSummary],
    crashed: bool,
    points: &[FrontPoint],
) -> Result<(), Memory>
    ensures { OnOk result (string_bytes text.new ≡ string_bytes text.old ++ times_where time crashed plan.now settings.now points.now) }
{
    if !crashed {
        return Ok(());
    }
    push_time_figures(alloc, text, time, plan, settings, points)
}

/// Appends how times spread, and what each key changes.
#[tactic(auto, unfolding(crate::specs::Page::time_figures))]
fn push_time_figures(
    alloc: Global,
    text: &mut String,
    time: Option<Tick>,
    plan: &Plan,
    settings: &[SettingSummary],
    points: &[FrontPoint],
) -> Result<(), Memory>
    ensures { OnOk result (string_bytes text.new ≡ string_bytes text.old ++ time_figures time plan.now settings.now points.now) }
{
    push_times_of(alloc, text, time, plan, settings, points)?;
    push_keys(alloc, text, time, plan, settings)?;
    Ok(())
}

/// Appends how the times to confirm of the settings on the front spread.
fn push_times_of(
    alloc: Global,
    text: &mut String,
    time: Option<Tick>,
    plan: &Plan,
    settings: &[SettingSummary],
    points: &[FrontPoint],
) -> Result<(), Memory>
    ensures { OnOk result (string_bytes text.new ≡ string_bytes text.old
        ++ times_figure time plan.now.swept_keys settings.now (places_of points.now)) }
{
    let places = places_of(alloc, points)?;
    push_times(alloc, text, time, plan, settings, &places)?;
    Ok(())
}

/// Appends what stands before the figures.
#[tactic(auto, unfolding(crate::specs::Page::page_head))]
fn push_head(text: &mut String, name: &str) -> Result<(), AllocError>
    ensures { OnOk result (string_bytes text.new ≡ string_bytes text.old ++ page_head name.now) }
{
    open_page(text, name, " - swimsim sweep", page_style())?;
    push_markup(text, "Which setting of ")?;
    push_escaped(text, name)?;
    push_markup(text, "?</h1></header>\n")
}

/// Appends what stands after them.
#[tactic(auto, unfolding(crate::specs::Page::page_end))]
fn push_end(text: &mut String, release: &str) -> Result<(), AllocError>
    ensures { OnOk result (string_bytes text.new ≡ string_bytes text.old ++ page_end release.now) }
{
    push_markup(text, "<footer class=\"soft\">swimsim ")?;
    push_escaped(text, release)?;
    push_markup(text, "</footer></main></body></html>\n")
}
