//! How false deaths came about: the first of them.
ghost use Rattle.std.specs.Prelude.{◌≡◌, ◌≤◌, ◌++◌, [], IfSome, OnOk, Option, None, List, flat_map, take, length, slice_index_or};
ghost use Rattle.std.specs.String.{string_bytes};
ghost use Rattle.std.specs.Option.{option_map_or};
ghost use Rattle.series.specs.Deaths.{Reached, AreToldOf, IsToldOf, deaths_of};
ghost use Rattle.member_timelines.specs.Numbers.{by_number};
ghost use Rattle.member_timelines.specs.Run.{IsTold};
ghost use Rattle.false_deaths.specs.Causes.{cause, causes_figure, causes_where, causes_text, intro, more_told, more_words, CanTell};

use crate::death::push_death;
use drawing::{close_figure, open_figure, push_grouped};
use member_timelines::{Run, by_number};
use scenario::Scenario;
use series::Death;
use std::alloc::AllocError;
use ticks::Tick;

/// The most deaths that are shown.
const TOLD: usize = 20;

/// Appends how the first false deaths of the run came about; nothing where there are none.
pub fn push_causes(text: &mut String, run: &Run) -> Result<(), AllocError>
    requires told { IsTold run.now }
    ensures { OnOk result (string_bytes text.new ≡ string_bytes text.old ++ causes_text run.now.tick run.now.scenario.now run.now.tallies.now) }
{
    let deaths = run.series.deaths();
    let count = deaths.count();
    let firsts = deaths.firsts();
    push_where(text, run, firsts, count)
}

/// Appends the figure of these deaths, where there are any.
fn push_where(
    text: &mut String,
    run: &Run,
    told: &[Option<Death>],
    count: u64,
) -> Result<(), AllocError>
    requires told { IsTold run.now }
    requires those { AreToldOf told.now count run.now.tallies.now }
    ensures { OnOk result (string_bytes text.new ≡ string_bytes text.old ++ causes_where run.now.tick run.now.scenario.now (deaths_of run.now.tallies.now) count) }
{
    if count == 0 {
        return Ok(());
    }
    push_figure(text, run, told, count)
}

/// Appends the figure of these deaths.
#[tactic(auto, unfolding(crate::specs::Causes::causes_figure))]
fn push_figure(
    text: &mut String,
    run: &Run,
    told: &[Option<Death>],
    count: u64,
) -> Result<(), AllocError>
    requires told { IsTold run.now }
    requires those { AreToldOf told.now count run.now.tallies.now }
    ensures { OnOk result (string_bytes text.new ≡ string_bytes text.old ++ causes_figure run.now.tick run.now.scenario.now (deaths_of run.now.tallies.now)) }
{
    open_figure(text, "causes", "How false deaths came about")?;
    push_intro(text)?;
    push_each(text, run, told, count)?;
    push_more(text, count)?;
    close_figure(text)?;
    Ok(())
}

/// Appends which deaths are shown.
#[tactic(auto, unfolding(crate::specs::Causes::intro))]
fn push_intro(text: &mut String) -> Result<(), AllocError>
    ensures { OnOk result (string_bytes text.new ≡ string_bytes text.old ++ intro) }
{
    text.push_str(
        "<p class=\"soft\">Each false death that is the first under its member's incarnation number: the later ones under that number follow from it, or have the same cause.</p>",
    )
}

/// Appends how each came about.
fn push_each(
    text: &mut String,
    run: &Run,
    told: &[Option<Death>],
    _count: u64,
) -> Result<(), AllocError>
    requires told { IsTold run.now }
    requires those { AreToldOf told.now _count run.now.tallies.now }
    ensures { OnOk result (string_bytes text.new ≡ string_bytes text.old ++ flat_map (cause run.now.tick run.now.scenario.now) (take 20 (deaths_of run.now.tallies.now))) }
{
    for place in 0..TOLD {
        let slot = slot_at(told, place);
        push_slot(text, run.tick, run.scenario, slot)?;
    }
    Ok(())
}

/// The death at a place, where there is one.
fn slot_at(told: &[Option<Death>], place: usize) -> Option<Death>
    ensures { result ≡ slice_index_or told.now place None }
{
    match told.get(place) {
        Some(slot) => *slot,
        None => None,
    }
}

/// Appends how a death came about, where there is one.
fn push_slot(
    text: &mut String,
    time: Option<Tick>,
    scenario: &Scenario,
    slot: Option<Death>,
) -> Result<(), AllocError>
    requires { IfSome slot (CanTell scenario.now) }
    ensures { OnOk result ((r : Option Reached) → IsToldOf slot r → string_bytes text.new ≡ string_bytes text.old ++ option_map_or (cause time scenario.now) r []) }
{
    match slot {
        Some(death) => push_death(text, time, scenario, &death),
        None => Ok(()),
    }
}

/// Appends how many more there are, where there are.
fn push_more(text: &mut String, count: u64) -> Result<(), AllocError>
    ensures { OnOk result (string_bytes text.new ≡ string_bytes text.old ++ more_told count) }
{
    if count > 20 {
        return push_more_than(text, count - 20);
    }
    Ok(())
}

/// Appends how many more there are.
#[tactic(auto, unfolding(crate::specs::Causes::more_words))]
fn push_more_than(text: &mut String, more: u64) -> Result<(), AllocError>
    ensures { OnOk result (string_bytes text.new ≡ string_bytes text.old ++ more_words more) }
{
    text.push_str("<p class=\"soft\">")?;
    push_grouped(text, more)?;
    text.push_str(by_number(more, " more isn't shown.</p>", " more aren't shown.</p>"))
}
