//! The page of a run put together: its head and summary, the members' lanes, false deaths and their causes, the spread
//! of crashes, the messages, the health scores and the settings.
ghost use Rattle.std.specs.Prelude.{◌≡◌, ◌<◌, ◌++◌, List, IfOk, OnOk, All};
ghost use Rattle.std.specs.String.{string_bytes};
ghost use Rattle.std.specs.List.Sorted.{IsPermutation, IsSorted};
ghost use Rattle.scenario.specs.Setup.{member_count};
ghost use Rattle.member_timelines.specs.declared.chosen.Chosen.{Chosen as AChosen};
ghost use Rattle.member_timelines.specs.Run.{IsTold};
ghost use Rattle.member_timelines.specs.Choice.{choices};
ghost use Rattle.run_page.specs.Page.{head_text, page_front, page_back, page_text};

use crate::health::push_health;
use crate::layout::layout_style;
use crate::traffic::push_traffic;
use base::Memory;
use drawing::{open_page, push_escaped, push_markup};
use false_deaths::push_causes;
use member_timelines::{Chosen, Run, all_chosen, push_lanes, push_thrown_out};
use run_settings::push_settings;
use run_spread::push_spread;
use run_summary::push_summary;
use std::alloc::{AllocError, Global};

/// The page of a run, whole. It fails where memory is refused, and then there is none.
pub fn page(alloc: Global, run: &Run) -> Result<String, Memory>
    requires { IsTold run.now }
    ensures { IfOk result (λ text. (all : List AChosen)
        × IsPermutation (choices run.now.scenario.now run.now.tallies.now) all × IsSorted ⟦<Chosen as Ord>⟧.cmp all
        × (string_bytes text ≡ page_text run.now.tick run.now.name.now run.now.scenario.now run.now.tallies.now all run.now.release.now)) }
{
    let all = all_chosen(alloc, run)?;
    whole(alloc, run, all.as_slice())
}

/// The page of a run, where these are all members with a lane in their order.
fn whole(alloc: Global, run: &Run, all: &[Chosen]) -> Result<String, Memory>
    requires told { IsTold run.now }
    requires within { All (λ lane. lane.member < member_count run.now.scenario.now) all.now }
    ensures { IfOk result (λ text. string_bytes text
        ≡ page_text run.now.tick run.now.name.now run.now.scenario.now run.now.tallies.now all.now run.now.release.now) }
{
    let mut text = String::new(alloc);
    push_page(alloc, &mut text, run, all)?;
    Ok(text)
}

/// Appends the page.
#[tactic(auto, unfolding(crate::specs::Page::page_text))]
fn push_page(alloc: Global, text: &mut String, run: &Run, all: &[Chosen]) -> Result<(), Memory>
    requires told { IsTold run.now }
    requires within { All (λ lane. lane.member < member_count run.now.scenario.now) all.now }
    ensures { OnOk result (string_bytes text.new ≡ string_bytes text.old
        ++ page_text run.now.tick run.now.name.now run.now.scenario.now run.now.tallies.now all.now run.now.release.now) }
{
    push_head(text, run.name)?;
    push_front(alloc, text, run, all)?;
    push_back(alloc, text, run)?;
    Ok(())
}

/// Appends what happened, the lanes, the table of false deaths and how they came about.
#[tactic(auto, unfolding(crate::specs::Page::page_front))]
fn push_front(alloc: Global, text: &mut String, run: &Run, all: &[Chosen]) -> Result<(), Memory>
    requires told { IsTold run.now }
    requires within { All (λ lane. lane.member < member_count run.now.scenario.now) all.now }
    ensures { OnOk result (string_bytes text.new ≡ string_bytes text.old ++ page_front run.now.tick run.now.scenario.now run.now.tallies.now all.now) }
{
    push_summary(alloc, text, run)?;
    push_lanes(alloc, text, run, all)?;
    push_thrown_out(text, run, all)?;
    push_causes(text, run)?;
    Ok(())
}

/// Appends how the news of crashes spread, the messages, the members' health and what was run.
#[tactic(auto, unfolding(crate::specs::Page::page_back))]
fn push_back(alloc: Global, text: &mut String, run: &Run) -> Result<(), Memory>
    requires { IsTold run.now }
    ensures { OnOk result (string_bytes text.new ≡ string_bytes text.old ++ page_back run.now.tick run.now.scenario.now run.now.tallies.now run.now.release.now) }
{
    push_spread(alloc, text, run)?;
    push_traffic(alloc, text, run)?;
    push_health(alloc, text, run)?;
    push_settings(text, run.scenario, run.release)?;
    text.push_str("</main></body></html>\n")?;
    Ok(())
}

/// Appends what stands before the figures.
#[tactic(auto, unfolding(crate::specs::Page::head_text))]
fn push_head(text: &mut String, name: &str) -> Result<(), AllocError>
    ensures { OnOk result (string_bytes text.new ≡ string_bytes text.old ++ head_text name.now) }
{
    open_page(text, name, " - swimsim", layout_style())?;
    push_escaped(text, name)?;
    push_markup(text, "</h1></header>\n")
}
