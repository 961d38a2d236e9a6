//! What is wanted of a setting, and the answer.
ghost use Rattle.std.specs.Prelude.{◌≡◌, ◌++◌, All, OnOk, decimal, length};
ghost use Rattle.std.specs.List.{flat_map, range_with_len};
ghost use Rattle.std.specs.String.{string_bytes};
ghost use Rattle.goals.specs.Wants.{HasFewRuns, IsBounded};
ghost use Rattle.sweep_page.specs.Goals.{goal_item};
ghost use Rattle.sweep_page.specs.Question.{answer, best_answer, day_needed, goals_words, is_day, is_of_day, is_open, more_needed, needed_words, no_answer, open_answer, open_item, open_item_at, open_item_of, question, question_figure, runs_needed, share_needed, unmet_answer};

use crate::best::push_best_more_at;
use crate::front_points::FrontPoint;
use crate::goal_words::push_goal;
use crate::items::{push_caution_at, push_item_at};
use base::Memory;
use drawing::{close_figure, open_figure, push_markup};
use figures::SettingSummary;
use goals::{Statistic, Want, may_meet, meets, more_runs};
use std::alloc::{AllocError, Global};
use std::slice;
use sweep_cells::{push_number, push_swept_keys_at};
use sweep_plan::Plan;
use ticks::Tick;

/// What is wanted of a setting, and the best that meets it.
#[derive(Clone, Copy)]
pub struct Question<'a> {
    /// What is wanted.
    pub wants: &'a [Want<'a>],
    /// The place of the best setting, where one meets all.
    pub best: Option<usize>,
}

/// Appends what is wanted, and the answer; nothing where nothing is wanted. `crashed` is whether a run
/// of the sweep has a crash.
#[tactic(auto, unfolding(crate::specs::Question::question))]
pub(crate) fn push_question(
    alloc: Global,
    text: &mut String,
    time: Option<Tick>,
    plan: &Plan,
    asked: &Question<'_>,
    settings: &[SettingSummary],
    front: &[bool],
    points: &[FrontPoint],
    crashed: bool,
) -> Result<(), Memory>
    requires bounded { All IsBounded asked.now.wants.now }
    requires few { All HasFewRuns settings.now }
    ensures { OnOk result (string_bytes text.new ≡ string_bytes text.old
        ++ question time crashed plan.now.swept_keys asked.now.wants.now settings.now front.now points.now asked.now.best) }
{
    if asked.wants.is_empty() {
        return Ok(());
    }
    push_question_figure(
        alloc, text, time, plan, asked, settings, front, points, crashed,
    )
}

/// Appends the section.
#[tactic(auto, unfolding(crate::specs::Question::question_figure))]
fn push_question_figure(
    alloc: Global,
    text: &mut String,
    time: Option<Tick>,
    plan: &Plan,
    asked: &Question<'_>,
    settings: &[SettingSummary],
    front: &[bool],
    points: &[FrontPoint],
    crashed: bool,
) -> Result<(), Memory>
    requires bounded { All IsBounded asked.now.wants.now }
    requires few { All HasFewRuns settings.now }
    ensures { OnOk result (string_bytes text.new ≡ string_bytes text.old
        ++ question_figure time crashed plan.now.swept_keys asked.now.wants.now settings.now front.now points.now asked.now.best) }
{
    open_figure(text, "answer", "The question and its answer")?;
    push_goals(text, asked.wants)?;
    push_answer(
        alloc, text, time, plan, asked, settings, front, points, crashed,
    )?;
    close_figure(text)?;
    Ok(())
}

/// Appends what is wanted, in words.
#[tactic(auto, unfolding(crate::specs::Question::goals_words))]
fn push_goals(text: &mut String, wants: &[Want<'_>]) -> Result<(), AllocError>
    requires { All IsBounded wants.now }
    ensures { OnOk result (string_bytes text.new ≡ string_bytes text.old ++ goals_words wants.now) }
{
    push_markup(
        text,
        "<p class=\"lead\">Is there a setting that meets all of these goals?</p><ul class=\"goals\">",
    )?;
    push_each_goal(text, wants)?;
    push_markup(text, "</ul>\n")
}

/// Appends each that is wanted.
fn push_each_goal(text: &mut String, wants: &[Want<'_>]) -> Result<(), AllocError>
    requires { All IsBounded wants.now }
    ensures { OnOk result (string_bytes text.new ≡ string_bytes text.old ++ flat_map goal_item wants.now) }
{
    for want in wants {
        push_goal(text, want)?;
    }
    Ok(())
}

/// Appends the answer.
fn push_answer(
    alloc: Global,
    text: &mut String,
    time: Option<Tick>,
    plan: &Plan,
    asked: &Question<'_>,
    settings: &[SettingSummary],
    front: &[bool],
    points: &[FrontPoint],
    crashed: bool,
) -> Result<(), Memory>
    requires bounded { All IsBounded asked.now.wants.now }
    requires few { All HasFewRuns settings.now }
    ensures { OnOk result (string_bytes text.new ≡ string_bytes text.old
        ++ answer time crashed plan.now.swept_keys asked.now.wants.now settings.now front.now points.now asked.now.best) }
{
    match asked.best {
        Some(place) => push_best(
            alloc,
            text,
            time,
            plan,
            asked.wants,
            settings,
            front,
            points,
            crashed,
            place,
        ),
        None => push_unmet(alloc, text, plan, asked.wants, settings),
    }
}

/// Appends the best setting, and what is said of it.
#[tactic(auto, unfolding(crate::specs::Question::best_answer))]
fn push_best(
    alloc: Global,
    text: &mut String,
    time: Option<Tick>,
    plan: &Plan,
    wants: &[Want<'_>],
    settings: &[SettingSummary],
    front: &[bool],
    points: &[FrontPoint],
    crashed: bool,
    place: usize,
) -> Result<(), Memory>
    requires bounded { All IsBounded wants.now }
    requires few { All HasFewRuns settings.now }
    ensures { OnOk result (string_bytes text.new ≡ string_bytes text.old
        ++ best_answer time crashed plan.now.swept_keys wants.now settings.now front.now points.now place) }
{
    push_markup(
        text,
        "<p class=\"lead\">Yes. Of the settings that are shown to meet all of this, the best \
         is</p><ol class=\"answers\">",
    )?;
    push_item_at(alloc, text, time, plan, settings, crashed, place)?;
    push_markup(text, "</ol>\n")?;
    push_caution_at(text, settings, place)?;
    push_best_more_at(
        alloc, text, plan, wants, settings, front, points, crashed, place,
    )?;
    Ok(())
}

/// Appends which settings may meet all, or that none can.
#[tactic(auto, unfolding(crate::specs::Question::unmet_answer))]
fn push_unmet(
    alloc: Global,
    text: &mut String,
    plan: &Plan,
    wants: &[Want<'_>],
    settings: &[SettingSummary],
) -> Result<(), Memory>
    requires bounded { All IsBounded wants.now }
    requires few { All HasFewRuns settings.now }
    ensures { OnOk result (string_bytes text.new ≡ string_bytes text.old ++ unmet_answer plan.now.swept_keys wants.now settings.now) }
{
    if is_open(wants, settings) {
        return push_open(alloc, text, plan, wants, settings);
    }
    push_no_answer(text)?;
    Ok(())
}

/// Whether some setting may meet all.
fn is_open(wants: &[Want<'_>], settings: &[SettingSummary]) -> bool
    requires bounded { All IsBounded wants.now }
    requires few { All HasFewRuns settings.now }
    ensures { result ≡ is_open wants.now settings.now }
{
    for setting in settings {
        if may_meet(wants, setting) {
            return true;
        }
    }
    false
}

/// Appends that no setting can.
#[tactic(auto, unfolding(crate::specs::Question::no_answer))]
fn push_no_answer(text: &mut String) -> Result<(), AllocError>
    ensures { OnOk result (string_bytes text.new ≡ string_bytes text.old ++ no_answer) }
{
    text.push_str(
        "<p class=\"lead\">No. Each setting that was tried is shown to miss one of these goals.</p>\n",
    )
}

/// Appends which settings may meet all.
#[tactic(auto, unfolding(crate::specs::Question::open_answer))]
fn push_open(
    alloc: Global,
    text: &mut String,
    plan: &Plan,
    wants: &[Want<'_>],
    settings: &[SettingSummary],
) -> Result<(), Memory>
    requires bounded { All IsBounded wants.now }
    requires few { All HasFewRuns settings.now }
    ensures { OnOk result (string_bytes text.new ≡ string_bytes text.old ++ open_answer plan.now.swept_keys wants.now settings.now) }
{
    push_markup(
        text,
        "<p class=\"lead\">No setting is shown to meet all of this yet. These may; so many more runs \
         of each would decide, if its share of runs with a false death stays as it is:</p>\
         <ol class=\"answers\">",
    )?;
    push_each_open(alloc, text, plan, wants, settings)?;
    push_markup(text, "</ol>\n")?;
    Ok(())
}

/// Appends each of them.
fn push_each_open(
    alloc: Global,
    text: &mut String,
    plan: &Plan,
    wants: &[Want<'_>],
    settings: &[SettingSummary],
) -> Result<(), Memory>
    requires bounded { All IsBounded wants.now }
    requires few { All HasFewRuns settings.now }
    ensures { OnOk result (string_bytes text.new ≡ string_bytes text.old
        ++ flat_map (open_item_at plan.now.swept_keys wants.now settings.now) (range_with_len 0 (length settings.now))) }
{
    for place in 0..settings.len() {
        push_open_at(alloc, text, plan, wants, settings, place)?;
    }
    Ok(())
}

/// Appends the setting at a place, where it may meet all.
#[tactic(auto, unfolding(crate::specs::Question::open_item_at))]
fn push_open_at(
    alloc: Global,
    text: &mut String,
    plan: &Plan,
    wants: &[Want<'_>],
    settings: &[SettingSummary],
    place: usize,
) -> Result<(), Memory>
    requires bounded { All IsBounded wants.now }
    requires few { All HasFewRuns settings.now }
    ensures { OnOk result (string_bytes text.new ≡ string_bytes text.old ++ open_item_at plan.now.swept_keys wants.now settings.now place) }
{
    match settings.get(place) {
        Some(setting) => push_open_setting(alloc, text, plan, wants, place, setting),
        None => Ok(()),
    }
}

/// Appends a setting, where it may meet all.
#[tactic(auto, unfolding(crate::specs::Question::open_item_of))]
fn push_open_setting(
    alloc: Global,
    text: &mut String,
    plan: &Plan,
    wants: &[Want<'_>],
    place: usize,
    setting: &SettingSummary,
) -> Result<(), Memory>
    requires bounded { All IsBounded wants.now }
    requires few { HasFewRuns setting.now }
    ensures { OnOk result (string_bytes text.new ≡ string_bytes text.old ++ open_item_of plan.now.swept_keys wants.now place setting.now) }
{
    if !may_meet(wants, setting) {
        return Ok(());
    }
    let of_day = is_of_day(wants, setting);
    let more = more_runs(wants, setting);
    push_open_item(alloc, text, plan, place, of_day, more)
}

/// Whether the first goal that a setting doesn't show is of its fatal incidents in a day.
fn is_of_day(wants: &[Want<'_>], setting: &SettingSummary) -> bool
    requires bounded { All IsBounded wants.now }
    requires few { HasFewRuns setting.now }
    ensures { result ≡ is_of_day wants.now setting.now }
{
    for want in wants {
        if !meets(slice::from_ref(want), setting) {
            return is_day(want.statistic);
        }
    }
    false
}

/// Whether a statistic is the fatal incidents in a day.
fn is_day(statistic: Statistic) -> bool
    ensures { result ≡ is_day statistic }
{
    match statistic {
        Statistic::DeathsDay => true,
        _ => false,
    }
}

/// Appends a setting that may meet all, with how many more runs would decide.
#[tactic(auto, unfolding(crate::specs::Question::open_item))]
fn push_open_item(
    alloc: Global,
    text: &mut String,
    plan: &Plan,
    place: usize,
    of_day: bool,
    more: Option<u128>,
) -> Result<(), Memory>
    ensures { OnOk result (string_bytes text.new ≡ string_bytes text.old ++ open_item plan.now.swept_keys place of_day more) }
{
    push_markup(text, "<li class=\"unknown\"><span class=\"number\">")?;
    push_number(text, place)?;
    push_markup(text, "</span><code>")?;
    push_swept_keys_at(alloc, text, plan, place)?;
    push_markup(text, "</code><span>")?;
    push_more_needed(text, of_day, more)?;
    push_markup(text, "</span></li>")?;
    Ok(())
}

/// Appends how many more runs would decide. `of_day` is whether they decide about fatal incidents in
/// a day.
#[tactic(auto, unfolding(crate::specs::Question::more_needed))]
fn push_more_needed(text: &mut String, of_day: bool, more: Option<u128>) -> Result<(), AllocError>
    ensures { OnOk result (string_bytes text.new ≡ string_bytes text.old ++ more_needed of_day more) }
{
    if of_day {
        push_day_needed(text)
    } else {
        push_share_needed(text, more)
    }
}

/// Appends that it isn't known how many more runs would decide about fatal incidents in a day.
#[tactic(auto, unfolding(crate::specs::Question::day_needed))]
fn push_day_needed(text: &mut String) -> Result<(), AllocError>
    ensures { OnOk result (string_bytes text.new ≡ string_bytes text.old ++ day_needed) }
{
    text.push_str(
        "the interval of its fatal incidents in a day isn't narrow enough yet; how many more runs would \
         decide isn't known",
    )
}

/// Appends how many more runs would decide about the share of runs with a false death, or that no
/// number would.
#[tactic(auto, unfolding(crate::specs::Question::share_needed))]
fn push_share_needed(text: &mut String, more: Option<u128>) -> Result<(), AllocError>
    ensures { OnOk result (string_bytes text.new ≡ string_bytes text.old ++ share_needed more) }
{
    match more {
        Some(runs) => push_runs_needed(text, runs),
        None => text.push_str(
            "no number of runs would decide: its share of runs with a false death is the goal itself",
        ),
    }
}

/// Appends how many more runs would decide.
#[tactic(auto, unfolding(crate::specs::Question::runs_needed))]
fn push_runs_needed(text: &mut String, more: u128) -> Result<(), AllocError>
    ensures { OnOk result (string_bytes text.new ≡ string_bytes text.old ++ runs_needed more) }
{
    push_markup(text, "<b>")?;
    push_runs(text, more)?;
    push_markup(text, needed_words(more))
}

/// The words behind a number of runs.
#[tactic(auto, unfolding(crate::specs::Question::needed_words))]
fn needed_words(more: u128) -> &'static str
    ensures { result.now ≡ needed_words more }
{
    if more == 1 {
        "</b> more run would decide"
    } else {
        "</b> more runs would decide"
    }
}

/// Appends a number of runs.
fn push_runs(text: &mut String, runs: u128) -> Result<(), AllocError>
    ensures { OnOk result (string_bytes text.new ≡ string_bytes text.old ++ decimal runs) }
{
    write!(text, "{runs}")
}
