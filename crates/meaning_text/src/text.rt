//! The whole text on an accepted scenario: its figures, then each warning with its reason, its place
//! and what mends it.
ghost use Rattle.std.specs.Prelude.{◌≡◌, ◌++◌, IfOk, OnOk, flat_map};
ghost use Rattle.std.specs.String.{string_bytes};
ghost use Rattle.meaning_text.specs.Text.{text_of, warning_text, warning_head, warning_end, message_of, numbers_text};

use crate::figures::push_figures;
use crate::groups::push_count;
use crate::numbers::{Pair, numbers_of};
use crate::words::{kind_of, reason_of, remedy_of};
use base::Memory;
use meaning::groups_of;
use scenario::Scenario;
use script_summary::ScriptSummary;
use std::alloc::{AllocError, Global};
use warnings::{Findings, Placed, Warning};

/// What the scenario in the file of this name means, in lines: its figures, what of its script happens, which `script`
/// sums up if it is of version 4, what it is warned of, and how many warnings there are; or `Memory` where it was refused.
pub fn text_of(
    alloc: Global,
    file: &str,
    scenario: &Scenario,
    script: &Option<ScriptSummary>,
    findings: &Findings,
    placed: &[Placed],
) -> Result<String, Memory>
    ensures { IfOk result (λ text. string_bytes text ≡ text_of file.now scenario.now script.now findings.now placed.now) }
{
    let groups = groups_of(alloc, scenario)?;
    let trip = findings.round_trip;
    let mut text = String::new(alloc);
    push_figures(
        &mut text,
        scenario,
        groups.as_slice(),
        script,
        findings.window,
        trip,
    )?;
    push_warnings(&mut text, file, scenario, trip, placed)?;
    push_count(&mut text, "warnings", placed.len() as u64)?;
    Ok(text)
}

/// Appends the lines of each warning.
fn push_warnings(
    text: &mut String,
    file: &str,
    scenario: &Scenario,
    trip: u64,
    placed: &[Placed],
) -> Result<(), AllocError>
    ensures { OnOk result (string_bytes text.new
        ≡ string_bytes text.old ++ flat_map (warning_text file.now scenario.now trip) placed.now) }
{
    for warning in placed {
        push_warning(text, file, scenario, trip, warning)?;
    }
    Ok(())
}

/// Appends the lines of a warning: its kind and its reason, where it is, and what mends it.
#[tactic(auto, unfolding(crate::specs::Text::warning_text))]
fn push_warning(
    text: &mut String,
    file: &str,
    scenario: &Scenario,
    trip: u64,
    placed: &Placed,
) -> Result<(), AllocError>
    ensures { OnOk result (string_bytes text.new
        ≡ string_bytes text.old ++ warning_text file.now scenario.now trip placed.now) }
{
    push_head(text, placed.warning)?;
    push_message(text, placed.warning, scenario, trip)?;
    push_end(text, file, placed)
}

/// Appends the word for a warning.
#[tactic(auto, unfolding(crate::specs::Text::warning_head))]
fn push_head(text: &mut String, warning: Warning) -> Result<(), AllocError>
    ensures { OnOk result (string_bytes text.new ≡ string_bytes text.old ++ warning_head warning) }
{
    let kind = kind_of(warning);
    write!(text, "warning[{kind}]: ")
}

/// Appends where a warning is, and what mends it.
#[tactic(auto, unfolding(crate::specs::Text::warning_end))]
fn push_end(text: &mut String, file: &str, placed: &Placed) -> Result<(), AllocError>
    ensures { OnOk result (string_bytes text.new ≡ string_bytes text.old ++ warning_end file.now placed.now) }
{
    let remedy = remedy_of(placed.warning);
    let line = placed.place.line;
    let column = placed.place.column;
    writeln!(text, "\n  --> {file}:{line}:{column}\n   = {remedy}")
}

/// Appends the reason of a warning, with the two numbers that it compares.
#[tactic(auto, unfolding(crate::specs::Text::message_of))]
fn push_message(
    text: &mut String,
    warning: Warning,
    scenario: &Scenario,
    trip: u64,
) -> Result<(), AllocError>
    ensures { OnOk result (string_bytes text.new ≡ string_bytes text.old ++ message_of scenario.now trip warning) }
{
    text.push_str(reason_of(warning))?;
    push_numbers(text, numbers_of(warning, scenario, trip))
}

/// Appends two numbers that are compared, if there are.
fn push_numbers(text: &mut String, numbers: Option<Pair>) -> Result<(), AllocError>
    ensures { OnOk result (string_bytes text.new ≡ string_bytes text.old ++ numbers_text numbers) }
{
    match numbers {
        Some(pair) => {
            let left = pair.left;
            let right = pair.right;
            write!(text, " ({left} against {right})")
        }
        None => Ok(()),
    }
}

/// The reason of a warning, with the two numbers that it compares; or `Memory` where it was refused.
pub fn message_of(
    alloc: Global,
    warning: Warning,
    scenario: &Scenario,
    trip: u64,
) -> Result<String, Memory>
    ensures { IfOk result (λ text. string_bytes text ≡ message_of scenario.now trip warning) }
{
    let mut text = String::new(alloc);
    push_message(&mut text, warning, scenario, trip)?;
    Ok(text)
}
