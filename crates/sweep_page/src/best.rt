//! What is said of the best setting behind its figures: which settings are as good, and why the
//! trade-off doesn't list it, where it doesn't.
ghost use Rattle.std.specs.Prelude.{◌≡◌, ◌==◌, ◌++◌, All, OnOk, take};
ghost use Rattle.std.specs.List.{list_any};
ghost use Rattle.std.specs.String.{string_bytes};
ghost use Rattle.drawing.specs.Escaped.{markup};
ghost use Rattle.goals.specs.Wants.{HasFewRuns, IsBounded};
ghost use Rattle.sweep_page.specs.Best.{absence, absence_of, beaten, beaten_words, behind_words, best_more, best_more_at, has_place, is_listed, one_beats, several_beat, ties, ties_words, unplaced_words};
ghost use Rattle.sweep_page.specs.Others.{as_good, beating};

use crate::front_points::{FrontPoint, across_of, is_marked};
use crate::others::{as_good, beating, push_others};
use base::Memory;
use drawing::push_markup;
use figures::SettingSummary;
use goals::Want;
use std::alloc::Global;
use sweep_cells::push_count;
use sweep_plan::Plan;

/// How many settings the trade-off lists.
const MOST_LISTED: usize = 12;

/// Appends what is said of the best setting, which stands at this place: which others are as good, and why
/// it isn't listed, where it isn't. `crashed` is whether a run of the sweep has a crash.
#[tactic(auto, unfolding(crate::specs::Best::best_more_at))]
pub(crate) fn push_best_more_at(
    alloc: Global,
    text: &mut String,
    plan: &Plan,
    wants: &[Want<'_>],
    settings: &[SettingSummary],
    front: &[bool],
    points: &[FrontPoint],
    crashed: bool,
    place: usize,
) -> Result<(), Memory>
    requires bounded { All IsBounded wants.now }
    requires few { All HasFewRuns settings.now }
    ensures { OnOk result (string_bytes text.new ≡ string_bytes text.old
        ++ best_more_at crashed plan.now.swept_keys wants.now settings.now front.now points.now place) }
{
    match settings.get(place) {
        Some(best) => push_best_more(
            alloc, text, plan, wants, settings, front, points, crashed, place, best,
        ),
        None => Ok(()),
    }
}

/// Appends both.
#[tactic(auto, unfolding(crate::specs::Best::best_more))]
fn push_best_more(
    alloc: Global,
    text: &mut String,
    plan: &Plan,
    wants: &[Want<'_>],
    settings: &[SettingSummary],
    front: &[bool],
    points: &[FrontPoint],
    crashed: bool,
    place: usize,
    best: &SettingSummary,
) -> Result<(), Memory>
    requires bounded { All IsBounded wants.now }
    requires few { All HasFewRuns settings.now }
    ensures { OnOk result (string_bytes text.new ≡ string_bytes text.old
        ++ best_more crashed plan.now.swept_keys wants.now settings.now front.now points.now place best.now) }
{
    push_ties_of(alloc, text, plan, wants, settings, crashed, place, best)?;
    push_absence(
        alloc, text, plan, settings, front, points, crashed, place, best,
    )?;
    Ok(())
}

/// Appends which settings are as good.
fn push_ties_of(
    alloc: Global,
    text: &mut String,
    plan: &Plan,
    wants: &[Want<'_>],
    settings: &[SettingSummary],
    crashed: bool,
    place: usize,
    best: &SettingSummary,
) -> Result<(), Memory>
    requires bounded { All IsBounded wants.now }
    requires few { All HasFewRuns settings.now }
    ensures { OnOk result (string_bytes text.new ≡ string_bytes text.old
        ++ ties plan.now.swept_keys (as_good crashed wants.now settings.now best.now place)) }
{
    let places = as_good(alloc, wants, settings, crashed, best, place)?;
    push_ties(alloc, text, plan, &places)?;
    Ok(())
}

/// Appends that the settings at these places are, where there are any.
#[tactic(auto, unfolding(crate::specs::Best::ties))]
fn push_ties(alloc: Global, text: &mut String, plan: &Plan, places: &[usize]) -> Result<(), Memory>
    ensures { OnOk result (string_bytes text.new ≡ string_bytes text.old ++ ties plan.now.swept_keys places.now) }
{
    if places.is_empty() {
        return Ok(());
    }
    push_ties_words(alloc, text, plan, places)
}

/// Appends that they are.
#[tactic(auto, unfolding(crate::specs::Best::ties_words))]
fn push_ties_words(
    alloc: Global,
    text: &mut String,
    plan: &Plan,
    places: &[usize],
) -> Result<(), Memory>
    ensures { OnOk result (string_bytes text.new ≡ string_bytes text.old ++ ties_words plan.now.swept_keys places.now) }
{
    push_markup(text, "<p class=\"ties\">Equally good by these figures: ")?;
    push_count(
        text,
        places.len() as u64,
        " more setting:",
        " more settings:",
    )?;
    push_others(alloc, text, plan, places)?;
    push_markup(text, ".</p>\n")?;
    Ok(())
}

/// Appends why the best setting isn't listed, where it isn't.
#[tactic(auto, unfolding(crate::specs::Best::absence))]
fn push_absence(
    alloc: Global,
    text: &mut String,
    plan: &Plan,
    settings: &[SettingSummary],
    front: &[bool],
    points: &[FrontPoint],
    crashed: bool,
    place: usize,
    best: &SettingSummary,
) -> Result<(), Memory>
    ensures { OnOk result (string_bytes text.new ≡ string_bytes text.old
        ++ absence crashed plan.now.swept_keys settings.now front.now points.now best.now place) }
{
    if is_listed(points, place) {
        return Ok(());
    }
    match across_of(crashed, best) {
        Some(_) => push_absence_of(alloc, text, plan, settings, front, crashed, place, best),
        None => push_unplaced(text, crashed),
    }
}

/// Whether one of the settings that are listed stands at this place.
fn is_listed(points: &[FrontPoint], place: usize) -> bool
    ensures { result ≡ is_listed points.now place }
{
    let listed = beginning(points, MOST_LISTED);
    has_place(listed, place)
}

/// The first of these, at most so many.
fn beginning(points: &[FrontPoint], most: usize) -> &[FrontPoint]
    ensures { result.now ≡ take most points.now }
{
    if points.len() <= most {
        return points;
    }
    &points[..most]
}

/// Whether one of them stands at this place.
fn has_place(points: &[FrontPoint], place: usize) -> bool
    ensures { result ≡ list_any (has_place place) points.now }
{
    for point in points {
        if point.place == place {
            return true;
        }
    }
    false
}

/// Appends why it isn't, where it stands somewhere across.
#[tactic(auto, unfolding(crate::specs::Best::absence_of))]
fn push_absence_of(
    alloc: Global,
    text: &mut String,
    plan: &Plan,
    settings: &[SettingSummary],
    front: &[bool],
    crashed: bool,
    place: usize,
    best: &SettingSummary,
) -> Result<(), Memory>
    ensures { OnOk result (string_bytes text.new ≡ string_bytes text.old
        ++ absence_of crashed plan.now.swept_keys settings.now front.now best.now place) }
{
    if is_marked(front, place) {
        return push_behind(text, crashed);
    }
    push_beaten_of(alloc, text, plan, settings, crashed, best)
}

/// Appends that it is on the front behind those that are listed.
fn push_behind(text: &mut String, crashed: bool) -> Result<(), Memory>
    ensures { OnOk result (string_bytes text.new ≡ string_bytes text.old ++ markup (behind_words crashed)) }
{
    let words = behind_words(crashed);
    push_markup(text, words)?;
    Ok(())
}

/// What is said where it is.
#[tactic(auto, unfolding(crate::specs::Best::behind_words))]
fn behind_words(crashed: bool) -> &'static str
    ensures { result.now ≡ behind_words crashed }
{
    if crashed {
        "<p class=\"ties\">It is on the front, but the trade-off lists the first 12 settings there, fastest \
         first.</p>\n"
    } else {
        "<p class=\"ties\">It is on the front, but the trade-off lists the first 12 settings there, fewest \
         messages first.</p>\n"
    }
}

/// Appends that it stands nowhere across.
fn push_unplaced(text: &mut String, crashed: bool) -> Result<(), Memory>
    ensures { OnOk result (string_bytes text.new ≡ string_bytes text.old ++ markup (unplaced_words crashed)) }
{
    let words = unplaced_words(crashed);
    push_markup(text, words)?;
    Ok(())
}

/// What is said where it stands nowhere across.
#[tactic(auto, unfolding(crate::specs::Best::unplaced_words))]
fn unplaced_words(crashed: bool) -> &'static str
    ensures { result.now ≡ unplaced_words crashed }
{
    if crashed {
        "<p class=\"ties\">The trade-off doesn't list it, since it confirms fewer than half of its \
         crashes.</p>\n"
    } else {
        "<p class=\"ties\">The trade-off doesn't list it, since its runs end at moment 0.</p>\n"
    }
}

/// Appends that others beat it.
fn push_beaten_of(
    alloc: Global,
    text: &mut String,
    plan: &Plan,
    settings: &[SettingSummary],
    crashed: bool,
    best: &SettingSummary,
) -> Result<(), Memory>
    ensures { OnOk result (string_bytes text.new ≡ string_bytes text.old
        ++ beaten crashed plan.now.swept_keys (beating crashed settings.now best.now)) }
{
    let places = beating(alloc, settings, crashed, best)?;
    push_beaten(alloc, text, plan, crashed, &places)?;
    Ok(())
}

/// Appends that the settings at these places do, where there are any.
#[tactic(auto, unfolding(crate::specs::Best::beaten))]
fn push_beaten(
    alloc: Global,
    text: &mut String,
    plan: &Plan,
    crashed: bool,
    places: &[usize],
) -> Result<(), Memory>
    ensures { OnOk result (string_bytes text.new ≡ string_bytes text.old ++ beaten crashed plan.now.swept_keys places.now) }
{
    if places.is_empty() {
        return Ok(());
    }
    push_beaten_words(alloc, text, plan, crashed, places)
}

/// Appends that they do.
#[tactic(auto, unfolding(crate::specs::Best::beaten_words))]
fn push_beaten_words(
    alloc: Global,
    text: &mut String,
    plan: &Plan,
    crashed: bool,
    places: &[usize],
) -> Result<(), Memory>
    ensures { OnOk result (string_bytes text.new ≡ string_bytes text.old ++ beaten_words crashed plan.now.swept_keys places.now) }
{
    let one = one_beats(crashed);
    let several = several_beat(crashed);
    push_markup(
        text,
        "<p class=\"ties\">The trade-off doesn't list it, since ",
    )?;
    push_count(text, places.len() as u64, one, several)?;
    push_others(alloc, text, plan, places)?;
    push_markup(text, ".</p>\n")?;
    Ok(())
}

/// What is said where one setting does.
#[tactic(auto, unfolding(crate::specs::Best::one_beats))]
fn one_beats(crashed: bool) -> &'static str
    ensures { result.now ≡ one_beats crashed }
{
    if crashed {
        " other setting is at least as fast and at least as safe, and better in one of the two. It isn't \
         shown to meet all of this, or it is as fast and sends no fewer messages:"
    } else {
        " other setting sends at most as many messages and is at least as safe, and is better in one of \
         the two. It isn't shown to meet all of this:"
    }
}

/// What is said where several do.
#[tactic(auto, unfolding(crate::specs::Best::several_beat))]
fn several_beat(crashed: bool) -> &'static str
    ensures { result.now ≡ several_beat crashed }
{
    if crashed {
        " other settings are at least as fast and at least as safe, and better in one of the two. Each \
         isn't shown to meet all of this, or it is as fast and sends no fewer messages:"
    } else {
        " other settings send at most as many messages and are at least as safe, and are better in one of \
         the two. None of them is shown to meet all of this:"
    }
}
