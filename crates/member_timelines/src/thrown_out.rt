//! False deaths: who declared members dead that were up.
ghost use Rattle.std.specs.Prelude.{◌≡◌, ◌<◌, ◌≤◌, ◌++◌, OnOk, IfSome, All, count_by, flat_map, take, min};
ghost use Rattle.std.specs.String.{string_bytes};
ghost use Rattle.scenario.specs.Setup.{member_count};
ghost use Rattle.member_timelines.specs.Run.{IsTold};
ghost use Rattle.member_timelines.specs.ThrownOut.{is_out, thrown_out_text, thrown_out_figure, columns, row_of, row, first_cells, cell, claim_cells};

use crate::chosen::{Chosen, first_lanes};
use crate::run::Run;
use crate::told::times_back;
use base::MemberId;
use drawing::{close_figure, open_figure, push_escaped, push_grouped, push_time_alone};
use series::TraceLine;
use std::alloc::AllocError;
use ticks::Tick;

/// The most rows of the table.
const ROWS: usize = 200;

/// Appends the table of those of these members that have a false death: they come first.
pub fn push_thrown_out(text: &mut String, run: &Run, all: &[Chosen]) -> Result<(), AllocError>
    requires told { IsTold run.now }
    requires within { All (λ lane. lane.member < member_count run.now.scenario.now) all.now }
    ensures { OnOk result (string_bytes text.new ≡ string_bytes text.old ++ thrown_out_text run.now.tick run.now.scenario.now run.now.tallies.now all.now) }
{
    let out = count_out(all);
    if out == 0 {
        return Ok(());
    }
    push_figure(text, run, first_lanes(all, out.min(ROWS)))
}

/// How many of these have a false death.
fn count_out(all: &[Chosen]) -> usize
    ensures value { result ≡ count_by is_out all.now }
{
    all.iter().filter(|lane| lane.wrongly() > 0).count()
}

/// Appends the table of these.
#[tactic(auto, unfolding(crate::specs::ThrownOut::thrown_out_figure))]
fn push_figure(text: &mut String, run: &Run, lanes: &[Chosen]) -> Result<(), AllocError>
    requires told { IsTold run.now }
    requires within { All (λ lane. lane.member < member_count run.now.scenario.now) lanes.now }
    ensures { OnOk result (string_bytes text.new ≡ string_bytes text.old ++ thrown_out_figure run.now.tick run.now.scenario.now run.now.tallies.now lanes.now) }
{
    open_figure(text, "false-deaths", "False deaths")?;
    push_head(text)?;
    push_rows(text, run, lanes)?;
    text.push_str("</table></div>")?;
    close_figure(text)?;
    Ok(())
}

/// Appends what the table shows, and what the columns are.
#[tactic(auto, unfolding(crate::specs::ThrownOut::columns))]
fn push_head(text: &mut String) -> Result<(), AllocError>
    ensures { OnOk result (string_bytes text.new ≡ string_bytes text.old ++ columns) }
{
    text.push_str(
        "<div class=\"wide\"><table><caption>Members that were declared dead although they were up</caption>\
         <thead><tr><th scope=\"col\">member</th>",
    )?;
    text.push_str(
        "<th scope=\"col\">first declared dead</th><th scope=\"col\">by</th>\
         <th scope=\"col\">line of the trace</th><th scope=\"col\">false deaths</th>",
    )?;
    text.push_str(
        "<th scope=\"col\">declared alive again</th><th scope=\"col\">failed probes of it</th></tr></thead><tbody>\n",
    )?;
    Ok(())
}

/// Appends the rows of these.
fn push_rows(text: &mut String, run: &Run, lanes: &[Chosen]) -> Result<(), AllocError>
    requires told { IsTold run.now }
    requires within { All (λ lane. lane.member < member_count run.now.scenario.now) lanes.now }
    ensures { OnOk result (string_bytes text.new ≡ string_bytes text.old ++ flat_map (row_of run.now.tick run.now.scenario.now run.now.tallies.now) lanes.now) }
{
    for lane in lanes {
        push_row(text, run, MemberId(lane.member), lane.wrongly())?;
    }
    Ok(())
}

/// Appends one row.
#[tactic(auto, unfolding(crate::specs::ThrownOut::row))]
fn push_row(text: &mut String, run: &Run, member: MemberId, times: u64) -> Result<(), AllocError>
    requires told { IsTold run.now }
    requires within { member < member_count run.now.scenario.now }
    ensures { OnOk result (string_bytes text.new ≡ string_bytes text.old ++ row run.now.tick run.now.scenario.now run.now.tallies.now member times) }
{
    push_first_cells(text, run, member, run.first_confirm(member))?;
    push_cell(text, times)?;
    push_cell(text, times_back(run, member))?;
    push_cell(text, run.story(member).fails())?;
    text.push_str("\n")?;
    Ok(())
}

/// Appends the first cells of a row: of whom it is, and who first declared it dead.
#[tactic(auto, unfolding(crate::specs::ThrownOut::first_cells))]
fn push_first_cells(
    text: &mut String,
    run: &Run,
    member: MemberId,
    first: Option<TraceLine>,
) -> Result<(), AllocError>
    requires within { member < member_count run.now.scenario.now }
    requires named { IfSome first (λ line. line.member < member_count run.now.scenario.now) }
    ensures { OnOk result (string_bytes text.new ≡ string_bytes text.old ++ first_cells run.now.tick run.now.scenario.now member first) }
{
    text.push_str("<tr><th scope=\"row\">")?;
    push_escaped(text, run.scenario.name(member))?;
    text.push_str("</th>")?;
    push_claim(text, run, first)?;
    Ok(())
}

/// Appends a cell with a number.
fn push_cell(text: &mut String, number: u64) -> Result<(), AllocError>
    ensures { OnOk result (string_bytes text.new ≡ string_bytes text.old ++ cell number) }
{
    text.push_str("<td>")?;
    push_grouped(text, number)
}

/// Appends when a claim was made, by whom, and where it stands.
#[tactic(auto, unfolding(crate::specs::ThrownOut::claim_cells))]
fn push_claim(text: &mut String, run: &Run, claim: Option<TraceLine>) -> Result<(), AllocError>
    requires { IfSome claim (λ line. line.member < member_count run.now.scenario.now) }
    ensures { OnOk result (string_bytes text.new ≡ string_bytes text.old ++ claim_cells run.now.tick run.now.scenario.now claim) }
{
    let Some(line) = claim else {
        return text.push_str("<td>-<td>-<td>-");
    };
    text.push_str("<td>")?;
    push_time_alone(text, run.tick, line.at.ticks())?;
    text.push_str("<td>")?;
    push_escaped(text, run.scenario.name(line.member))?;
    let number = line.number;
    write!(text, "<td>{number}")
}
