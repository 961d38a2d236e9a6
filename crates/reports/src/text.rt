//! The lines of the report.
ghost use Rattle.std.specs.Prelude.{◌≡◌, ◌++◌, ◌<◌, ◌⊎◌, OnOk, Some, All, flat_map, min, max};
ghost use Rattle.std.specs.List.{reduce};
ghost use Rattle.std.specs.String.{string_bytes};
ghost use Rattle.scenario.specs.Setup.{member_count};
ghost use Rattle.trace.specs.Text.{NamesMembers};
ghost use Rattle.reports.specs.Departures.{latencies_of};
ghost use Rattle.reports.specs.FalsePositives.{ways_to_depart};
ghost use Rattle.reports.specs.Text.{figure, count_line, size_lines, crash_line, leave_line, leave_lines, latency_line, latencies_line, false_line, false_claim_line, sent_line, message_line, protocol_lines, revived_lines};

use crate::departure::DepartureReport;
use crate::false_positives::{false_positive_count, healthy_false_positive_count};
use crate::tallies::Tallies;
use base::Moment;
use scenario::{Scenario, Version};
use std::alloc::AllocError;
use std::fmt;
use trace::What;

/// A figure, or a dash where there is none.
#[derive(Clone, Copy)]
pub(crate) struct Figure(pub(crate) Option<u64>);

impl fmt::Display for Figure {
    ghost output = { λ shown. Some (figure shown.0) };

    fn fmt<W: fmt::Write>(&self, f: &mut fmt::Formatter<W>) -> fmt::Result {
        match self.0 {
            Some(number) => write!(f, "{number}"),
            None => f.write_str("-"),
        }
    }
}

/// The ticks of a moment that may be there.
pub(crate) fn ticks(moment: Option<Moment>) -> Figure
    ensures { result.0 ≡ moment }
{
    match moment {
        Some(at) => Figure(Some(at.ticks())),
        None => Figure(None),
    }
}

/// Appends a line of a word and a number.
#[tactic(auto, unfolding(crate::specs::Text::count_line))]
pub(crate) fn push_count(text: &mut String, word: &str, number: u64) -> Result<(), AllocError>
    ensures { OnOk result (string_bytes text.new ≡ string_bytes text.old ++ count_line word.now number) }
{
    writeln!(text, "{word} {number}")
}

/// Appends how large the cluster is, how long it ran, and how many rows it wrote.
pub(crate) fn push_sizes(
    text: &mut String,
    tallies: &Tallies,
    scenario: &Scenario,
) -> Result<(), AllocError>
    ensures { OnOk result (string_bytes text.new ≡ string_bytes text.old ++ size_lines scenario.now tallies.now) }
{
    push_count(text, "members", scenario.members() as u64)?;
    push_count(text, "end", scenario.end().ticks())?;
    push_count(text, "rows", tallies.rows())
}

/// Appends the line of a crash.
#[tactic(auto, unfolding(crate::specs::Text::crash_line))]
fn push_crash(
    text: &mut String,
    crash: &DepartureReport,
    scenario: &Scenario,
) -> Result<(), AllocError>
    requires { crash.now.member < member_count scenario.now }
    ensures { OnOk result (string_bytes text.new ≡ string_bytes text.old ++ crash_line scenario.now crash.now) }
{
    let name = scenario.name(crash.member);
    let at = crash.at.ticks();
    let suspect = ticks(crash.detection.suspect);
    let confirm = ticks(crash.detection.confirm);
    let last = ticks(crash.detection.last);
    let confirmers = crash.detection.confirmers;
    let latency = Figure(crash.latency());
    write!(
        text,
        "crash {name} {at} suspect {suspect} confirm {confirm} last {last} "
    )?;
    writeln!(text, "confirmers {confirmers} latency {latency}")
}

/// Appends a line for each crash.
pub(crate) fn push_crashes(
    text: &mut String,
    crashes: &[DepartureReport],
    scenario: &Scenario,
) -> Result<(), AllocError>
    requires { All (λ crash. crash.member < member_count scenario.now) crashes.now }
    ensures { OnOk result (string_bytes text.new
        ≡ string_bytes text.old ++ flat_map (crash_line scenario.now) crashes.now) }
{
    for crash in crashes {
        push_crash(text, crash, scenario)?;
    }
    Ok(())
}

/// Appends a line for each leave, where the scenario's version has leaves.
pub(crate) fn push_leaves(
    text: &mut String,
    leaves: &[DepartureReport],
    scenario: &Scenario,
) -> Result<(), AllocError>
    requires { All (λ leave. leave.member < member_count scenario.now) leaves.now }
    ensures { OnOk result (string_bytes text.new
        ≡ string_bytes text.old ++ leave_lines scenario.now.version scenario.now leaves.now) }
{
    match scenario.version() {
        Version::One => Ok(()),
        Version::Two | Version::Three | Version::Four => push_each_leave(text, leaves, scenario),
    }
}

/// Appends a line for each of these leaves.
pub(crate) fn push_each_leave(
    text: &mut String,
    leaves: &[DepartureReport],
    scenario: &Scenario,
) -> Result<(), AllocError>
    requires { All (λ leave. leave.member < member_count scenario.now) leaves.now }
    ensures { OnOk result (string_bytes text.new
        ≡ string_bytes text.old ++ flat_map (leave_line scenario.now) leaves.now) }
{
    for leave in leaves {
        push_leave(text, leave, scenario)?;
    }
    Ok(())
}

/// Appends the line of a leave.
#[tactic(auto, unfolding(crate::specs::Text::leave_line))]
fn push_leave(
    text: &mut String,
    leave: &DepartureReport,
    scenario: &Scenario,
) -> Result<(), AllocError>
    requires { leave.now.member < member_count scenario.now }
    ensures { OnOk result (string_bytes text.new ≡ string_bytes text.old ++ leave_line scenario.now leave.now) }
{
    let name = scenario.name(leave.member);
    let at = leave.at.ticks();
    let confirm = ticks(leave.detection.confirm);
    let last = ticks(leave.detection.last);
    let confirmers = leave.detection.confirmers;
    write!(text, "leave {name} {at} confirm {confirm} last {last} ")?;
    writeln!(text, "confirmers {confirmers}")
}

/// Appends the line of the latencies of crashes.
pub(crate) fn push_latencies(
    text: &mut String,
    crashes: &[DepartureReport],
) -> Result<(), AllocError>
    ensures { OnOk result (string_bytes text.new
        ≡ string_bytes text.old ++ latencies_line crashes.now) }
{
    push_latency(text, least_latency(crashes), greatest_latency(crashes))
}

/// Appends the line of a least and a greatest latency.
fn push_latency(
    text: &mut String,
    least: Option<u64>,
    greatest: Option<u64>,
) -> Result<(), AllocError>
    ensures { OnOk result (string_bytes text.new
        ≡ string_bytes text.old ++ latency_line least greatest) }
{
    let least = Figure(least);
    let greatest = Figure(greatest);
    writeln!(text, "latency least {least} greatest {greatest}")
}

fn least_latency(crashes: &[DepartureReport]) -> Option<u64>
    ensures { result ≡ reduce min (latencies_of crashes.now) }
{
    crashes.iter().filter_map(|crash| crash.latency()).min()
}

fn greatest_latency(crashes: &[DepartureReport]) -> Option<u64>
    ensures { result ≡ reduce max (latencies_of crashes.now) }
{
    crashes.iter().filter_map(|crash| crash.latency()).max()
}

/// Appends the line of the false positives of one claim, a suspicion or a confirmation.
#[tactic(auto, unfolding(crate::specs::Text::false_line))]
pub(crate) fn push_false_positives(
    text: &mut String,
    claim: What,
    tallies: &Tallies,
    scenario: &Scenario,
) -> Result<(), AllocError>
    requires claim { (claim ≡ What.Suspect) ⊎ (claim ≡ What.Confirm) }
    requires named { All (NamesMembers scenario.now) tallies.now }
    ensures { OnOk result (string_bytes text.new
        ≡ string_bytes text.old ++ false_claim_line scenario.now ways_to_depart tallies.now claim) }
{
    let word = claim.word();
    let all = false_positive_count(tallies, claim);
    let healthy = healthy_false_positive_count(tallies, claim, scenario);
    writeln!(text, "false {word} {all} healthy {healthy}")
}

/// Appends how often members were taken for alive again, where the version has that.
pub(crate) fn push_revived(
    text: &mut String,
    tallies: &Tallies,
    version: Version,
) -> Result<(), AllocError>
    ensures { OnOk result (string_bytes text.new ≡ string_bytes text.old ++ revived_lines version tallies.now) }
{
    match version {
        Version::One | Version::Two => Ok(()),
        Version::Three | Version::Four => push_count(text, "revived", tallies.revivals()),
    }
}

/// Appends how often members accused and refuted, how often probes failed, and how bad the health
/// of a member got.
pub(crate) fn push_protocol(text: &mut String, tallies: &Tallies) -> Result<(), AllocError>
    ensures { OnOk result (string_bytes text.new ≡ string_bytes text.old ++ protocol_lines tallies.now) }
{
    push_count(text, "accuse", tallies.rows_of(What::Accuse))?;
    push_count(text, "refute", tallies.rows_of(What::Refute))?;
    push_count(text, "fail", tallies.rows_of(What::Fail))?;
    push_count(text, "health", tallies.worst_health())
}

/// Appends how many messages of a kind were sent, and how many of them were lost.
#[tactic(auto, unfolding(crate::specs::Text::sent_line))]
fn push_message(text: &mut String, kind: What, tallies: &Tallies) -> Result<(), AllocError>
    ensures { OnOk result (string_bytes text.new ≡ string_bytes text.old ++ message_line tallies.now kind) }
{
    let word = kind.word();
    let sent = tallies.rows_of(kind);
    let lost = tallies.lost(kind);
    writeln!(text, "sent {word} {sent} lost {lost}")
}

/// Appends a line for each of these kinds of message.
pub(crate) fn push_messages(
    text: &mut String,
    kinds: &[What],
    tallies: &Tallies,
) -> Result<(), AllocError>
    ensures { OnOk result (string_bytes text.new
        ≡ string_bytes text.old ++ flat_map (message_line tallies.now) kinds.now) }
{
    for kind in kinds {
        push_message(text, *kind, tallies)?;
    }
    Ok(())
}
