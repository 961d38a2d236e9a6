//! The report of a run.
ghost use Rattle.std.specs.Prelude.{◌≡◌, ◌≢◌, ◌++◌, ◌<◌, true, false, map, IfOk, OnOk, All};
ghost use Rattle.std.specs.String.{string_bytes};
ghost use Rattle.trace.specs.Text.{NamesMembers};
ghost use Rattle.scenario.specs.Setup.{member_count};
ghost use Rattle.reports.specs.Accounts.{IsAccountOf};
ghost use Rattle.reports.specs.AccountText.{absence_lines, account_text};
ghost use Rattle.reports.specs.FalsePositives.{ways_to_depart};
ghost use Rattle.reports.specs.Absences.{with_others_left};
ghost use Rattle.reports.specs.Text.{message_kinds, report_lines, lines_with_returns, report_text};

use crate::account::Account;
use crate::return_text::{push_claims, push_incidents, push_returns, push_whole};
use crate::tallies::Tallies;
use crate::text::{
    push_count, push_crashes, push_each_leave, push_false_positives, push_latencies, push_leaves,
    push_messages, push_protocol, push_revived, push_sizes,
};
use base::Memory;
use scenario::{Scenario, Version};
use std::alloc::{AllocError, Global};
use trace::{Row, What};

/// The kinds of message of version 1, in the order of the report.
const MESSAGES_1: [What; 6] = [
    What::Join,
    What::Welcome,
    What::Ping,
    What::PingReq,
    What::Ack,
    What::Nack,
];

/// Those of version 2.
const MESSAGES_2: [What; 7] = [
    What::Join,
    What::Welcome,
    What::Ping,
    What::PingReq,
    What::Ack,
    What::Nack,
    What::Bye,
];

/// Those of version 3.
const MESSAGES_3: [What; 12] = [
    What::Join,
    What::Welcome,
    What::Ping,
    What::PingReq,
    What::Ack,
    What::Nack,
    What::Bye,
    What::Gossip,
    What::Call,
    What::Answer,
    What::Push,
    What::Pull,
];

/// Those of version 4.
const MESSAGES_4: [What; 13] = [
    What::Join,
    What::Welcome,
    What::Ping,
    What::PingReq,
    What::Ack,
    What::Nack,
    What::Bye,
    What::Gossip,
    What::Call,
    What::Answer,
    What::Push,
    What::Pull,
    What::Reconnect,
];

/// The text of the report on the rows that were tallied, for this scenario. They must name members
/// of its cluster alone.
pub fn report(alloc: Global, tallies: &Tallies, scenario: &Scenario) -> Result<Vec<u8>, Memory>
    requires { All (NamesMembers scenario.now) tallies.now }
    ensures { IfOk result (λ text. text.items ≡ report_text scenario.now tallies.now) }
{
    if has_returns(scenario.version()) {
        let text = text_with_returns(alloc, tallies, scenario)?;
        return Ok(text.into_bytes());
    }
    let text = text_of(alloc, tallies, scenario)?;
    Ok(text.into_bytes())
}

/// Whether members start again in a version of the format.
fn has_returns(version: Version) -> bool
    ensures some { result ≡ true → version ≡ Version.Four }
    ensures none { result ≡ false → version ≢ Version.Four }
{
    version == Version::Four
}

/// The text of the report on a run that has these rows. They must name members of the scenario's
/// cluster alone.
pub fn report_on(alloc: Global, rows: &[Row], scenario: &Scenario) -> Result<Vec<u8>, Memory>
    requires { All (NamesMembers scenario.now) rows.now }
    ensures { IfOk result (λ text. text.items ≡ report_text scenario.now rows.now) }
{
    let tallies = tallies_of(alloc, rows, scenario)?;
    report(alloc, &tallies, scenario)
}

/// The tallies of these rows. There is no memory for more rows than can be counted.
fn tallies_of(alloc: Global, rows: &[Row], scenario: &Scenario) -> Result<Tallies, Memory>
    ensures { IfOk result (λ tallies. tallies ≡ rows.now) }
{
    let mut tallies = Tallies::new(alloc, scenario);
    match tallies.add_all(rows) {
        Ok(()) => Ok(tallies),
        Err(_) => Err(Memory),
    }
}

fn text_of(alloc: Global, tallies: &Tallies, scenario: &Scenario) -> Result<String, AllocError>
    requires { All (NamesMembers scenario.now) tallies.now }
    ensures { IfOk result (λ text. string_bytes text ≡ report_lines scenario.now.version ways_to_depart scenario.now tallies.now) }
{
    let mut text = String::new(alloc);
    push_sizes(&mut text, tallies, scenario)?;
    push_crashes(&mut text, tallies.crashes(), scenario)?;
    push_leaves(&mut text, tallies.leaves(), scenario)?;
    push_latencies(&mut text, tallies.crashes())?;
    push_false_positives(&mut text, What::Suspect, tallies, scenario)?;
    push_false_positives(&mut text, What::Confirm, tallies, scenario)?;
    push_revived(&mut text, tallies, scenario.version())?;
    push_protocol(&mut text, tallies)?;
    push_messages(&mut text, message_kinds(scenario.version()), tallies)?;
    Ok(text)
}

/// The text of the version in which members start again.
fn text_with_returns(
    alloc: Global,
    tallies: &Tallies,
    scenario: &Scenario,
) -> Result<String, Memory>
    requires { All (NamesMembers scenario.now) tallies.now }
    ensures { IfOk result (λ text. string_bytes text ≡ lines_with_returns scenario.now tallies.now (map with_others_left tallies.now)) }
{
    let account = tallies.account(alloc, scenario)?;
    let text = account_text(alloc, tallies, &account, scenario)?;
    Ok(text)
}

/// The text of what is kept of a run.
fn account_text(
    alloc: Global,
    tallies: &Tallies,
    account: &Account,
    scenario: &Scenario,
) -> Result<String, AllocError>
    requires named { All (NamesMembers scenario.now) tallies.now }
    requires account { IsAccountOf account.now scenario.now tallies.now }
    ensures { IfOk result (λ text. string_bytes text ≡ account_text scenario.now tallies.now account.now) }
{
    let mut text = String::new(alloc);
    push_sizes(&mut text, tallies, scenario)?;
    push_absences(&mut text, account, scenario)?;
    push_claims(
        &mut text,
        What::Suspect,
        account.suspicions,
        account.healthy_suspicions,
    )?;
    push_claims(
        &mut text,
        What::Confirm,
        account.confirmations,
        account.healthy_confirmations,
    )?;
    push_count(&mut text, "revived", account.revivals)?;
    push_whole(&mut text, account.whole)?;
    push_incidents(&mut text, account)?;
    push_protocol(&mut text, tallies)?;
    push_messages(&mut text, message_kinds(Version::Four), tallies)?;
    Ok(text)
}

/// Appends the lines of crashes, leaves and restarts, and that of the latencies.
fn push_absences(
    text: &mut String,
    account: &Account,
    scenario: &Scenario,
) -> Result<(), AllocError>
    requires crashes { All (λ crash. crash.member < member_count scenario.now) account.now.crashes.items }
    requires leaves { All (λ leave. leave.member < member_count scenario.now) account.now.leaves.items }
    requires returns { All (λ r. r.member < member_count scenario.now) account.now.returns.items }
    ensures { OnOk result (string_bytes text.new ≡ string_bytes text.old ++ absence_lines scenario.now account.now) }
{
    push_crashes(text, account.crashes.as_slice(), scenario)?;
    push_each_leave(text, account.leaves.as_slice(), scenario)?;
    push_returns(text, account.returns.as_slice(), scenario)?;
    push_latencies(text, account.crashes.as_slice())
}

/// The kinds of message of a version of the format, in the order of the report.
pub fn message_kinds(version: Version) -> &'static [What]
    ensures { result.now ≡ message_kinds version }
{
    match version {
        Version::One => &MESSAGES_1,
        Version::Two => &MESSAGES_2,
        Version::Three => &MESSAGES_3,
        Version::Four => &MESSAGES_4,
    }
}
