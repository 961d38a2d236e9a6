//! The lines on streams: whether a call follows a ping without an ack (memberlist's rules),
//! how a stream sends again what was lost, how long a dial may take, and what Serf's members do.
ghost use Rattle.std.specs.Prelude.{◌≡◌, ◌++◌, OnOk};
ghost use Rattle.std.specs.String.{string_bytes};
ghost use Rattle.meaning_text.specs.Lines.{call_lines, dial_line, fallback_line, hashicorp_lines, memberlist_lines, serf_line, serf_text, stream_line};

use base::Profile;
use scenario::{DialTimes, Scenario, Serf, StreamTimes};
use std::alloc::AllocError;

/// Appends whether members call, how a stream sends again what was lost, how long a dial may take, and what Serf's
/// members do, where a version has that.
pub(crate) fn push_calls(text: &mut String, scenario: &Scenario) -> Result<(), AllocError>
    ensures { OnOk result (string_bytes text.new ≡ string_bytes text.old ++ call_lines scenario.now) }
{
    match scenario.profile() {
        Profile::Papers => Ok(()),
        Profile::Memberlist => push_memberlist(text, scenario),
        Profile::Hashicorp => push_hashicorp(text, scenario),
    }
}

/// Appends whether members call, and how a stream sends again what was lost.
#[tactic(auto, unfolding(crate::specs::Lines::memberlist_lines))]
fn push_memberlist(text: &mut String, scenario: &Scenario) -> Result<(), AllocError>
    ensures { OnOk result (string_bytes text.new ≡ string_bytes text.old ++ memberlist_lines scenario.now) }
{
    push_fallback(text, scenario.swim().fallback)?;
    push_stream(text, scenario.stream())
}

/// Appends the same, how long a dial may take, and what Serf's members do.
#[tactic(auto, unfolding(crate::specs::Lines::hashicorp_lines))]
fn push_hashicorp(text: &mut String, scenario: &Scenario) -> Result<(), AllocError>
    ensures { OnOk result (string_bytes text.new ≡ string_bytes text.old ++ hashicorp_lines scenario.now) }
{
    push_memberlist(text, scenario)?;
    push_dial(text, scenario.dial())?;
    push_serf(text, scenario)
}

/// Appends whether a ping that goes unanswered is followed by a call.
#[tactic(auto, unfolding(crate::specs::Lines::fallback_line))]
fn push_fallback(text: &mut String, is_on: bool) -> Result<(), AllocError>
    ensures { OnOk result (string_bytes text.new ≡ string_bytes text.old ++ fallback_line is_on) }
{
    if is_on {
        text.push_str("fallback on\n")
    } else {
        text.push_str("fallback off\n")
    }
}

/// Appends how a stream sends again what was lost.
#[tactic(auto, unfolding(crate::specs::Lines::stream_line))]
fn push_stream(text: &mut String, stream: StreamTimes) -> Result<(), AllocError>
    ensures { OnOk result (string_bytes text.new ≡ string_bytes text.old ++ stream_line stream) }
{
    let StreamTimes { connect, again } = stream;
    writeln!(text, "stream connect {connect} again {again}")
}

/// Appends how long a dial may take, and how long who starts again waits before the next one.
#[tactic(auto, unfolding(crate::specs::Lines::dial_line))]
fn push_dial(text: &mut String, dial: DialTimes) -> Result<(), AllocError>
    ensures { OnOk result (string_bytes text.new ≡ string_bytes text.old ++ dial_line dial) }
{
    let DialTimes { limit, retry } = dial;
    writeln!(text, "dial limit {limit} retry {retry}")
}

/// Appends how members leave and reconnect as Serf's do, where they do.
fn push_serf(text: &mut String, scenario: &Scenario) -> Result<(), AllocError>
    ensures { OnOk result (string_bytes text.new ≡ string_bytes text.old ++ serf_line scenario.now) }
{
    match scenario.serf() {
        Some(serf) => push_serf_text(text, serf),
        None => Ok(()),
    }
}

/// Appends how members leave and reconnect as Serf's do.
#[tactic(auto, unfolding(crate::specs::Lines::serf_text))]
fn push_serf_text(text: &mut String, serf: Serf) -> Result<(), AllocError>
    ensures { OnOk result (string_bytes text.new ≡ string_bytes text.old ++ serf_text serf) }
{
    let Serf {
        reconnect,
        reap,
        linger,
    } = serf;
    writeln!(
        text,
        "serf reconnect {reconnect} reap {reap} linger {linger}"
    )
}
