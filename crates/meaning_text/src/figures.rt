//! The lines of all figures in their order: the cluster, the protocol's times, the script, and a quiet run's cost.
ghost use Rattle.std.specs.Prelude.{◌≡◌, ◌++◌, OnOk};
ghost use Rattle.std.specs.String.{string_bytes};
ghost use Rattle.meaning.specs.Groups.{groups_of};
ghost use Rattle.meaning_text.specs.Figures.{figure_lines};
ghost use Rattle.meaning_text.specs.Lines.{cluster_lines, time_lines, quiet_lines, rate_line, cost_line};

use crate::calls::push_calls;
use crate::groups::push_members;
use crate::paths::{push_link, push_paths, push_trips};
use crate::script::push_script;
use crate::times::{
    push_accusers, push_gossip, push_health, push_nack, push_news, push_queue, push_suspicion,
};
use meaning::{Quiet, cost_of_quiet};
use scenario::Scenario;
use script_summary::ScriptSummary;
use std::alloc::AllocError;

/// Appends all figures, with the length of a window and the greatest round trip that are given.
#[tactic(auto, unfolding(crate::specs::Figures::figure_lines))]
pub(crate) fn push_figures(
    text: &mut String,
    scenario: &Scenario,
    groups: &[usize],
    script: &Option<ScriptSummary>,
    window: Option<u64>,
    trip: u64,
) -> Result<(), AllocError>
    requires { groups.now ≡ groups_of scenario.now }
    ensures { OnOk result (string_bytes text.new ≡ string_bytes text.old ++ figure_lines scenario.now script.now window trip) }
{
    push_cluster(text, scenario, groups, window, trip)?;
    push_times(text, scenario)?;
    push_script(text, scenario, groups, script)?;
    push_quiet(text, scenario)
}

/// Appends the members, their links, and how long answers take.
#[tactic(auto, unfolding(crate::specs::Lines::cluster_lines))]
fn push_cluster(
    text: &mut String,
    scenario: &Scenario,
    groups: &[usize],
    window: Option<u64>,
    trip: u64,
) -> Result<(), AllocError>
    requires { groups.now ≡ groups_of scenario.now }
    ensures { OnOk result (string_bytes text.new ≡ string_bytes text.old ++ cluster_lines scenario.now window trip) }
{
    push_members(text, scenario, groups)?;
    push_link(text, scenario)?;
    push_paths(text, scenario, groups)?;
    push_trips(text, window, trip)
}

/// Appends the times of the protocol among all members.
#[tactic(auto, unfolding(crate::specs::Lines::time_lines))]
fn push_times(text: &mut String, scenario: &Scenario) -> Result<(), AllocError>
    ensures { OnOk result (string_bytes text.new ≡ string_bytes text.old ++ time_lines scenario.now) }
{
    push_suspicion(text, scenario)?;
    push_accusers(text, scenario)?;
    push_health(text, scenario)?;
    push_nack(text, scenario)?;
    push_news(text, scenario)?;
    push_gossip(text, scenario)?;
    push_queue(text, scenario)?;
    push_calls(text, scenario)
}

/// Appends what a quiet run costs.
#[tactic(auto, unfolding(crate::specs::Lines::quiet_lines))]
fn push_quiet(text: &mut String, scenario: &Scenario) -> Result<(), AllocError>
    ensures { OnOk result (string_bytes text.new ≡ string_bytes text.old ++ quiet_lines scenario.now) }
{
    let quiet = cost_of_quiet(scenario);
    push_rate(text, &quiet)?;
    push_cost(text, &quiet)
}

/// Appends how many messages a quiet cluster sends in a period, and in a thousand ticks.
#[tactic(auto, unfolding(crate::specs::Lines::rate_line))]
fn push_rate(text: &mut String, quiet: &Quiet) -> Result<(), AllocError>
    ensures { OnOk result (string_bytes text.new ≡ string_bytes text.old ++ rate_line quiet.now) }
{
    let period = quiet.messages_a_period;
    let second = quiet.messages_a_second;
    writeln!(text, "quiet period {period} second {second}")
}

/// Appends how many messages it sends up to the end, and how large its trace is.
#[tactic(auto, unfolding(crate::specs::Lines::cost_line))]
fn push_cost(text: &mut String, quiet: &Quiet) -> Result<(), AllocError>
    ensures { OnOk result (string_bytes text.new ≡ string_bytes text.old ++ cost_line quiet.now) }
{
    let messages = quiet.messages;
    let rows = quiet.rows;
    let bytes = quiet.bytes;
    writeln!(text, "quiet messages {messages} rows {rows} bytes {bytes}")
}
