//! Other settings than one: those that beat it, and those of equal figures behind it.
ghost use Rattle.std.specs.Prelude.{◌≡◌, ◌-◌, ◌++◌, All, IfOk, OnOk, length, min};
ghost use Rattle.std.specs.List.{flat_map, range_with_len};
ghost use Rattle.std.specs.String.{string_bytes};
ghost use Rattle.goals.specs.Front.{beats, cost, costs_no_more, is_no_more_often, no_later};
ghost use Rattle.goals.specs.Wants.{HasFewRuns, IsBounded};
ghost use Rattle.sweep_page.specs.Others.{are_as_fast, are_equal, as_good, as_good_at, beating, beating_at, beats_at, is_as_good, is_as_good_at, is_same, other_at, other_item, others, unnamed, unnamed_words};

use base::Memory;
use drawing::{push_grouped, push_markup};
use figures::SettingSummary;
use goals::{Want, meets};
use std::alloc::{AllocError, Global};
use sweep_cells::{push_number, push_swept_keys_at, setting_at};
use sweep_plan::Plan;

/// How many other settings are named.
const MOST_NAMED: usize = 3;

/// Where the settings stand that beat this one. `crashed` is whether a run of the sweep has a crash.
pub(crate) fn beating(
    alloc: Global,
    settings: &[SettingSummary],
    crashed: bool,
    one: &SettingSummary,
) -> Result<Vec<usize>, Memory>
    ensures { IfOk result (λ places. places.items ≡ beating crashed settings.now one.now) }
{
    let mut places = Vec::new(alloc);
    for place in 0..settings.len() {
        push_beating(&mut places, settings, crashed, one, place)?;
    }
    Ok(places)
}

/// Adds a place, where the setting there does.
fn push_beating(
    places: &mut Vec<usize>,
    settings: &[SettingSummary],
    crashed: bool,
    one: &SettingSummary,
    place: usize,
) -> Result<(), Memory>
    ensures { OnOk result (places.new.items ≡ places.old.items ++ beating_at crashed settings.now one.now place) }
{
    if beats_at(settings, crashed, one, place) {
        places.push(place)?;
    }
    Ok(())
}

/// Whether the setting at a place does.
fn beats_at(settings: &[SettingSummary], crashed: bool, one: &SettingSummary, place: usize) -> bool
    ensures { result ≡ beats_at crashed settings.now one.now place }
{
    match setting_at(settings, place) {
        Some(other) => beats(crashed, &other, one),
        None => false,
    }
}

/// Whether the first beats the second: none of both is at least as fast and at least as safe, and better
/// in one of the two.
fn beats(crashed: bool, first: &SettingSummary, second: &SettingSummary) -> bool
    ensures { result ≡ beats crashed first.now second.now }
{
    costs_no_more(crashed, first, second)
        && is_no_more_often(first, second)
        && (!costs_no_more(crashed, second, first) || !is_no_more_often(second, first))
}

/// Whether the first costs no more than the second: time until a crash was confirmed, or messages where no
/// run has one.
fn costs_no_more(crashed: bool, first: &SettingSummary, second: &SettingSummary) -> bool
    ensures { result ≡ costs_no_more crashed first.now second.now }
{
    no_later(cost(crashed, first), cost(crashed, second))
}

/// What a setting costs.
fn cost(crashed: bool, setting: &SettingSummary) -> Option<u128>
    ensures { result ≡ cost crashed setting.now }
{
    if crashed {
        wide(setting.confirm_p50)
    } else {
        setting.messages
    }
}

/// A number, or none, in 128 bits.
fn wide(number: Option<u64>) -> Option<u128>
    ensures { result ≡ number }
{
    match number {
        Some(ticks) => Some(u128::from(ticks)),
        None => None,
    }
}

/// Whether a number is no greater than another; none is greater than any.
fn no_later(first: Option<u128>, second: Option<u128>) -> bool
    ensures { result ≡ no_later first second }
{
    match first {
        Some(time) => match second {
            Some(other) => time <= other,
            None => true,
        },
        None => second.is_none(),
    }
}

/// Whether no greater a share of the runs of the first has a false death.
fn is_no_more_often(first: &SettingSummary, second: &SettingSummary) -> bool
    ensures { result ≡ is_no_more_often first.now second.now }
{
    u128::from(first.runs_with) * u128::from(second.runs)
        <= u128::from(second.runs_with) * u128::from(first.runs)
}

/// Where the settings behind this one stand that are as good: they have equal figures, and meet all that
/// is wanted.
pub(crate) fn as_good(
    alloc: Global,
    wants: &[Want<'_>],
    settings: &[SettingSummary],
    crashed: bool,
    one: &SettingSummary,
    own: usize,
) -> Result<Vec<usize>, Memory>
    requires bounded { All IsBounded wants.now }
    requires few { All HasFewRuns settings.now }
    ensures { IfOk result (λ places. places.items ≡ as_good crashed wants.now settings.now one.now own) }
{
    let mut places = Vec::new(alloc);
    for place in 0..settings.len() {
        push_as_good(&mut places, wants, settings, crashed, one, own, place)?;
    }
    Ok(places)
}

/// Adds a place, where the setting there is.
fn push_as_good(
    places: &mut Vec<usize>,
    wants: &[Want<'_>],
    settings: &[SettingSummary],
    crashed: bool,
    one: &SettingSummary,
    own: usize,
    place: usize,
) -> Result<(), Memory>
    requires bounded { All IsBounded wants.now }
    requires few { All HasFewRuns settings.now }
    ensures { OnOk result (places.new.items ≡ places.old.items ++ as_good_at crashed wants.now settings.now one.now own place) }
{
    if is_as_good_at(wants, settings, crashed, one, own, place) {
        places.push(place)?;
    }
    Ok(())
}

/// Whether the setting at a place is.
fn is_as_good_at(
    wants: &[Want<'_>],
    settings: &[SettingSummary],
    crashed: bool,
    one: &SettingSummary,
    own: usize,
    place: usize,
) -> bool
    requires bounded { All IsBounded wants.now }
    requires few { All HasFewRuns settings.now }
    ensures { result ≡ is_as_good_at crashed wants.now settings.now one.now own place }
{
    match settings.get(place) {
        Some(other) => own < place && is_as_good(wants, crashed, one, other),
        None => false,
    }
}

/// Whether another setting has equal figures, and meets all that is wanted.
fn is_as_good(
    wants: &[Want<'_>],
    crashed: bool,
    one: &SettingSummary,
    other: &SettingSummary,
) -> bool
    requires bounded { All IsBounded wants.now }
    requires few { HasFewRuns other.now }
    ensures { result ≡ is_as_good crashed wants.now one.now other.now }
{
    meets(wants, other) && are_equal(crashed, one, other)
}

/// Whether all figures of two settings' items are equal.
fn are_equal(crashed: bool, first: &SettingSummary, second: &SettingSummary) -> bool
    ensures { result ≡ are_equal crashed first.now second.now }
{
    are_as_fast(crashed, first, second)
        && (first.runs_with == second.runs_with
            && (first.runs == second.runs && is_same(first.messages, second.messages)))
}

/// Whether they are as fast, or have as many false deaths where no run has a crash.
fn are_as_fast(crashed: bool, first: &SettingSummary, second: &SettingSummary) -> bool
    ensures { result ≡ are_as_fast crashed first.now second.now }
{
    if crashed {
        is_same(wide(first.confirm_p50), wide(second.confirm_p50))
    } else {
        first.deaths == second.deaths
            && (first.deaths_low == second.deaths_low && first.deaths_high == second.deaths_high)
    }
}

/// Whether two numbers are the same, or there is none of either.
fn is_same(first: Option<u128>, second: Option<u128>) -> bool
    ensures { result ≡ is_same first second }
{
    match first {
        Some(number) => match second {
            Some(other) => number == other,
            None => false,
        },
        None => second.is_none(),
    }
}

/// Appends the settings at these places, the first of them, and how many more there are.
#[tactic(auto, unfolding(crate::specs::Others::others))]
pub(crate) fn push_others(
    alloc: Global,
    text: &mut String,
    plan: &Plan,
    places: &[usize],
) -> Result<(), Memory>
    ensures { OnOk result (string_bytes text.new ≡ string_bytes text.old ++ others plan.now.swept_keys places.now) }
{
    push_named(alloc, text, plan, places)?;
    push_unnamed_of(text, places.len())?;
    Ok(())
}

/// Appends the first of them.
fn push_named(alloc: Global, text: &mut String, plan: &Plan, places: &[usize]) -> Result<(), Memory>
    ensures { OnOk result (string_bytes text.new ≡ string_bytes text.old
        ++ flat_map (other_at plan.now.swept_keys places.now) (range_with_len 0 (min (length places.now) 3))) }
{
    for place in 0..places.len().min(MOST_NAMED) {
        push_other_at(alloc, text, plan, places, place)?;
    }
    Ok(())
}

/// Appends the setting at one of these places.
#[tactic(auto, unfolding(crate::specs::Others::other_at))]
fn push_other_at(
    alloc: Global,
    text: &mut String,
    plan: &Plan,
    places: &[usize],
    nth: usize,
) -> Result<(), Memory>
    ensures { OnOk result (string_bytes text.new ≡ string_bytes text.old ++ other_at plan.now.swept_keys places.now nth) }
{
    match places.get(nth) {
        Some(place) => push_other(alloc, text, plan, *place),
        None => Ok(()),
    }
}

/// Appends a setting by its number and its values.
#[tactic(auto, unfolding(crate::specs::Others::other_item))]
fn push_other(alloc: Global, text: &mut String, plan: &Plan, place: usize) -> Result<(), Memory>
    ensures { OnOk result (string_bytes text.new ≡ string_bytes text.old ++ other_item plan.now.swept_keys place) }
{
    push_markup(text, " <span class=\"number\">")?;
    push_number(text, place)?;
    push_markup(text, "</span> <code>")?;
    push_swept_keys_at(alloc, text, plan, place)?;
    push_markup(text, "</code>")?;
    Ok(())
}

/// Appends how many of so many settings aren't named.
fn push_unnamed_of(text: &mut String, count: usize) -> Result<(), AllocError>
    ensures { OnOk result (string_bytes text.new ≡ string_bytes text.old ++ unnamed (count - 3)) }
{
    push_unnamed(text, count.saturating_sub(MOST_NAMED))
}

/// Appends that so many aren't named.
#[tactic(auto, unfolding(crate::specs::Others::unnamed))]
fn push_unnamed(text: &mut String, more: usize) -> Result<(), AllocError>
    ensures { OnOk result (string_bytes text.new ≡ string_bytes text.old ++ unnamed more) }
{
    if more == 0 {
        return Ok(());
    }
    push_unnamed_words(text, more)
}

/// Appends that there are so many more.
#[tactic(auto, unfolding(crate::specs::Others::unnamed_words))]
fn push_unnamed_words(text: &mut String, more: usize) -> Result<(), AllocError>
    ensures { OnOk result (string_bytes text.new ≡ string_bytes text.old ++ unnamed_words more) }
{
    push_markup(text, " and ")?;
    push_grouped(text, more as u64)?;
    push_markup(text, " more")
}
