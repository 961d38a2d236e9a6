//! The JSON document of an accepted scenario: its figures, its script, and its warnings with reason, remedy and place.
ghost use Rattle.std.specs.Prelude.{◌≡◌, IfOk};
ghost use Rattle.serde_json.specs.View.{view};
ghost use Rattle.meaning.specs.Groups.{groups_of};
ghost use Rattle.meaning_json.specs.Document.{document, document_with, figures_data, cluster_data, warnings_data, warning_data, warning_with};

use crate::figures::{
    groups_value, link_value, news_value, paths_value, quiet_value, times_value, whole_or_null,
};
use crate::lists::{list_of, push_value};
use crate::members::{put_number, put_text};
use crate::script::script_value;
use base::Memory;
use meaning::groups_of;
use meaning_text::{kind_of, message_of, remedy_of};
use scenario::Scenario;
use script_summary::ScriptSummary;
use serde_json::{Map, Value, put};
use std::alloc::{AllocError, Global};
use warnings::{Findings, Place, Placed};

/// What the scenario in the file of this name means, as a JSON value: that it is accepted, its figures, with
/// what happens, which `script` sums up if it is of version 4, and its warnings; or `Memory` where it was refused.
pub fn json_of(
    alloc: Global,
    file: &str,
    scenario: &Scenario,
    script: &Option<ScriptSummary>,
    findings: &Findings,
    placed: &[Placed],
) -> Result<Value, Memory>
    ensures { IfOk result (λ v. view v ≡ document file.now scenario.now script.now findings.now placed.now) }
{
    let trip = findings.round_trip;
    let groups = groups_of(alloc, scenario)?;
    let figures = figures_value(
        alloc,
        scenario,
        groups.as_slice(),
        script,
        findings.window,
        trip,
    )?;
    let warnings = warnings_value(alloc, scenario, trip, placed)?;
    Ok(document_value(alloc, file, figures, warnings)?)
}

/// The document of a file's scenario with these figures and warnings.
#[tactic(auto, unfolding(crate::specs::Document::document_with))]
fn document_value(
    alloc: Global,
    file: &str,
    figures: Value,
    warnings: Value,
) -> Result<Value, AllocError>
    ensures { IfOk result (λ v. view v ≡ document_with file.now (view figures) (view warnings)) }
{
    let mut members = Map::new(alloc);
    put(&mut members, alloc, "figures", figures)?;
    put(&mut members, alloc, "warnings", warnings)?;
    put(&mut members, alloc, "accepted", Value::Bool(true))?;
    put_text(&mut members, alloc, "file", file)?;
    Ok(Value::Object(members))
}

/// The figures.
#[tactic(auto, unfolding(crate::specs::Document::figures_data))]
fn figures_value(
    alloc: Global,
    scenario: &Scenario,
    groups: &[usize],
    script: &Option<ScriptSummary>,
    window: Option<u64>,
    trip: u64,
) -> Result<Value, AllocError>
    requires { groups.now ≡ groups_of scenario.now }
    ensures { IfOk result (λ v. view v ≡ figures_data scenario.now script.now window trip) }
{
    let mut members = Map::new(alloc);
    let cluster = cluster_value(alloc, scenario, groups, window, trip)?;
    put(&mut members, alloc, "cluster", cluster)?;
    let times = times_value(alloc, scenario)?;
    put(&mut members, alloc, "times", times)?;
    let news = news_value(alloc, scenario)?;
    put(&mut members, alloc, "news", news)?;
    let script = script_value(alloc, scenario, groups, script)?;
    put(&mut members, alloc, "script", script)?;
    let quiet = quiet_value(alloc, scenario)?;
    put(&mut members, alloc, "quiet", quiet)?;
    Ok(Value::Object(members))
}

/// The members, their links, and how long answers take.
#[tactic(auto, unfolding(crate::specs::Document::cluster_data))]
fn cluster_value(
    alloc: Global,
    scenario: &Scenario,
    groups: &[usize],
    window: Option<u64>,
    trip: u64,
) -> Result<Value, AllocError>
    requires { groups.now ≡ groups_of scenario.now }
    ensures { IfOk result (λ v. view v ≡ cluster_data scenario.now window trip) }
{
    let mut members = Map::new(alloc);
    put_number(&mut members, alloc, "members", scenario.members() as u64)?;
    let list = groups_value(alloc, scenario, groups)?;
    put(&mut members, alloc, "groups", list)?;
    let link = link_value(alloc, scenario.link())?;
    put(&mut members, alloc, "link", link)?;
    let paths = paths_value(alloc, scenario, groups)?;
    put(&mut members, alloc, "paths", paths)?;
    put(&mut members, alloc, "window", whole_or_null(window))?;
    put_number(&mut members, alloc, "round_trip", trip)?;
    Ok(Value::Object(members))
}

/// The warnings.
fn warnings_value(
    alloc: Global,
    scenario: &Scenario,
    trip: u64,
    placed: &[Placed],
) -> Result<Value, Memory>
    ensures { IfOk result (λ v. view v ≡ warnings_data scenario.now trip placed.now) }
{
    let mut values = Vec::new(alloc);
    for warning in placed {
        push_value(&mut values, warning_value(alloc, scenario, trip, warning)?)?;
    }
    Ok(list_of(values))
}

/// A warning: its kind, its reason, what mends it, and where it is.
fn warning_value(
    alloc: Global,
    scenario: &Scenario,
    trip: u64,
    placed: &Placed,
) -> Result<Value, Memory>
    ensures { IfOk result (λ v. view v ≡ warning_data scenario.now trip placed.now) }
{
    let message = message_of(alloc, placed.warning, scenario, trip)?;
    let kind = kind_of(placed.warning);
    let remedy = remedy_of(placed.warning);
    Ok(warning_object(alloc, kind, message.as_str(), remedy, placed.place)?)
}

/// The object that says this of a warning.
#[tactic(auto, unfolding(crate::specs::Document::warning_with))]
fn warning_object(
    alloc: Global,
    kind: &str,
    message: &str,
    remedy: &str,
    place: Place,
) -> Result<Value, AllocError>
    ensures { IfOk result (λ v. view v ≡ warning_with kind.now message.now remedy.now place) }
{
    let mut members = Map::new(alloc);
    put_text(&mut members, alloc, "kind", kind)?;
    put_text(&mut members, alloc, "message", message)?;
    put_text(&mut members, alloc, "remedy", remedy)?;
    put_number(&mut members, alloc, "line", place.line)?;
    put_number(&mut members, alloc, "column", place.column)?;
    put_number(&mut members, alloc, "length", place.length)?;
    Ok(Value::Object(members))
}
