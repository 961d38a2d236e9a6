//! The lines that the report of version 4 has besides.
ghost use Rattle.std.specs.Prelude.{◌≡◌, ◌++◌, ◌<◌, OnOk, All, flat_map};
ghost use Rattle.std.specs.String.{string_bytes};
ghost use Rattle.scenario.specs.Setup.{member_count};
ghost use Rattle.trace.specs.Text.{word_of};
ghost use Rattle.reports.specs.Text.{false_line, return_line, whole_line, incident_line};

use crate::account::Account;
use crate::text::ticks;
use base::Moment;
use incidents::Return;
use scenario::Scenario;
use std::alloc::AllocError;
use trace::What;

/// Appends a line for each restart.
pub(crate) fn push_returns(
    text: &mut String,
    returns: &[Return],
    scenario: &Scenario,
) -> Result<(), AllocError>
    requires { All (λ r. r.member < member_count scenario.now) returns.now }
    ensures { OnOk result (string_bytes text.new
        ≡ string_bytes text.old ++ flat_map (return_line scenario.now) returns.now) }
{
    for told in returns {
        push_return(text, told, scenario)?;
    }
    Ok(())
}

/// Appends the line of a restart.
#[tactic(auto, unfolding(crate::specs::Text::return_line))]
fn push_return(text: &mut String, told: &Return, scenario: &Scenario) -> Result<(), AllocError>
    requires { told.now.member < member_count scenario.now }
    ensures { OnOk result (string_bytes text.new ≡ string_bytes text.old ++ return_line scenario.now told.now) }
{
    let name = scenario.name(told.member);
    let at = told.at.ticks();
    let joined = ticks(told.joined);
    let back = ticks(told.back);
    let holders = told.holders;
    write!(text, "restart {name} {at} joined {joined} back {back} ")?;
    writeln!(text, "holders {holders}")
}

/// Appends how many claims were false, and how many of them healthy members made.
#[tactic(auto, unfolding(crate::specs::Text::false_line))]
pub(crate) fn push_claims(
    text: &mut String,
    claim: What,
    all: usize,
    healthy: usize,
) -> Result<(), AllocError>
    ensures { OnOk result (string_bytes text.new ≡ string_bytes text.old ++ false_line (word_of claim) all healthy) }
{
    let word = claim.word();
    writeln!(text, "false {word} {all} healthy {healthy}")
}

/// Appends since when the cluster is whole.
#[tactic(auto, unfolding(crate::specs::Text::whole_line))]
pub(crate) fn push_whole(text: &mut String, since: Option<Moment>) -> Result<(), AllocError>
    ensures { OnOk result (string_bytes text.new ≡ string_bytes text.old ++ whole_line since) }
{
    let since = ticks(since);
    writeln!(text, "whole {since}")
}

/// Appends the incidents.
#[tactic(auto, unfolding(crate::specs::Text::incident_line))]
pub(crate) fn push_incidents(text: &mut String, account: &Account) -> Result<(), AllocError>
    ensures { OnOk result (string_bytes text.new
        ≡ string_bytes text.old ++ incident_line account.now.alarms account.now.deaths account.now.members account.now.well) }
{
    let alarms = account.alarms;
    let deaths = account.deaths;
    let members = account.members;
    let well = account.well;
    write!(text, "alarms {alarms} deaths {deaths} ")?;
    writeln!(text, "members {members} well {well}")
}
