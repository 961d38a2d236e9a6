//! The lines on the protocol's times: suspicions (LHA-Suspicion), period, timeout and nacks (LHA-Probe),
//! how far an update spreads, gossip and its queue (memberlist's rules).
ghost use Rattle.std.specs.Prelude.{◌≡◌, ◌++◌, ◌*◌, ◌≤◌, OnOk};
ghost use Rattle.std.specs.String.{string_bytes};
ghost use Rattle.scenario.specs.Setup.{member_count};
ghost use Rattle.meaning.specs.News.{message_limit};
ghost use Rattle.meaning_text.specs.Lines.{suspicion_line, bounds_line, accusers_line, accusers_lines, health_line, health_lines, nack_line, news_by, news_line, news_words, packet_of, gossip_line, gossip_text, queue_line, queue_text};

use crate::groups::push_count;
use meaning::{
    Pace, least_suspicion, message_limit, most_accusers, nack_delay, pace_with, suspicion_time,
    worst_health,
};
use scenario::{Gossip, Queue, Scenario};
use std::alloc::AllocError;

/// Appends the least and the greatest time of a suspicion.
#[tactic(auto, unfolding(crate::specs::Lines::suspicion_line))]
pub(crate) fn push_suspicion(text: &mut String, scenario: &Scenario) -> Result<(), AllocError>
    ensures { OnOk result (string_bytes text.new ≡ string_bytes text.old ++ suspicion_line scenario.now) }
{
    push_bounds(text, least_suspicion(scenario), suspicion_time(scenario, 0))
}

/// Appends a least and a greatest time of suspicions.
#[tactic(auto, unfolding(crate::specs::Lines::bounds_line))]
fn push_bounds(text: &mut String, least: u64, greatest: u64) -> Result<(), AllocError>
    ensures { OnOk result (string_bytes text.new ≡ string_bytes text.old ++ bounds_line least greatest) }
{
    writeln!(text, "suspicion least {least} greatest {greatest}")
}

/// Appends how long suspicions last by the number of further accusers.
#[tactic(auto, unfolding(crate::specs::Lines::accusers_lines))]
pub(crate) fn push_accusers(text: &mut String, scenario: &Scenario) -> Result<(), AllocError>
    ensures { OnOk result (string_bytes text.new ≡ string_bytes text.old ++ accusers_lines scenario.now) }
{
    for accusers in 0..most_accusers(scenario) + 1 {
        push_accusers_line(text, scenario, accusers)?;
    }
    Ok(())
}

/// Appends how long a suspicion lasts with so many further accusers.
#[tactic(auto, unfolding(crate::specs::Lines::accusers_line))]
fn push_accusers_line(
    text: &mut String,
    scenario: &Scenario,
    accusers: u64,
) -> Result<(), AllocError>
    ensures { OnOk result (string_bytes text.new ≡ string_bytes text.old ++ accusers_line scenario.now accusers) }
{
    let ticks = suspicion_time(scenario, accusers);
    writeln!(text, "accusers {accusers} ticks {ticks}")
}

/// Appends period and timeout by health.
#[tactic(auto, unfolding(crate::specs::Lines::health_lines))]
pub(crate) fn push_health(text: &mut String, scenario: &Scenario) -> Result<(), AllocError>
    ensures { OnOk result (string_bytes text.new ≡ string_bytes text.old ++ health_lines scenario.now) }
{
    for health in 0..worst_health(scenario) + 1 {
        push_pace(text, scenario, health)?;
    }
    Ok(())
}

/// Appends period and timeout of a member whose health counter stands so.
#[tactic(auto, unfolding(crate::specs::Lines::health_line))]
fn push_pace(text: &mut String, scenario: &Scenario, health: u64) -> Result<(), AllocError>
    requires { health ≤ 16 }
    ensures { OnOk result (string_bytes text.new ≡ string_bytes text.old ++ health_line scenario.now health) }
{
    let Pace { period, timeout } = pace_with(scenario, health);
    writeln!(text, "health {health} period {period} timeout {timeout}")
}

/// Appends after how long a helper says that it has no answer; without LHA-Probe none says so.
#[tactic(auto, unfolding(crate::specs::Lines::nack_line))]
pub(crate) fn push_nack(text: &mut String, scenario: &Scenario) -> Result<(), AllocError>
    ensures { OnOk result (string_bytes text.new ≡ string_bytes text.old ++ nack_line scenario.now) }
{
    push_count(text, "nack", nack_delay(scenario))
}

/// Appends how far an update spreads.
#[tactic(auto, unfolding(crate::specs::Lines::news_line))]
pub(crate) fn push_news(text: &mut String, scenario: &Scenario) -> Result<(), AllocError>
    ensures { OnOk result (string_bytes text.new ≡ string_bytes text.old ++ news_line scenario.now) }
{
    let limit = message_limit(scenario);
    let all = messages_of_all(scenario);
    let carry = scenario.swim().carry;
    push_news_by(text, limit, all, carry, packet_of(scenario))
}

/// Appends how far an update spreads: how many updates ride on a message, or how many bytes it has where
/// `packet` isn't 0.
fn push_news_by(
    text: &mut String,
    limit: u64,
    all: u64,
    carry: u64,
    packet: u64,
) -> Result<(), AllocError>
    ensures { OnOk result (string_bytes text.new ≡ string_bytes text.old ++ news_by limit all carry packet) }
{
    if packet == 0 {
        push_news_words(text, limit, all, "carry", carry)
    } else {
        push_news_words(text, limit, all, "packet", packet)
    }
}

/// Appends how far an update spreads, in these numbers.
fn push_news_words(
    text: &mut String,
    limit: u64,
    all: u64,
    word: &str,
    room: u64,
) -> Result<(), AllocError>
    ensures { OnOk result (string_bytes text.new ≡ string_bytes text.old ++ news_words limit all word.now room) }
{
    writeln!(text, "news messages {limit} all {all} {word} {room}")
}

/// How many bytes a packet has; 0 where messages aren't filled by bytes.
fn packet_of(scenario: &Scenario) -> u64
    ensures { result ≡ packet_of scenario.now }
{
    match scenario.queue() {
        Some(queue) => queue.packet,
        None => 0,
    }
}

/// On how many messages of all members together an update rides at the most.
fn messages_of_all(scenario: &Scenario) -> u64
    ensures { result ≡ message_limit scenario.now * member_count scenario.now }
{
    message_limit(scenario) * scenario.members() as u64
}

/// Appends how members gossip, where they do.
pub(crate) fn push_gossip(text: &mut String, scenario: &Scenario) -> Result<(), AllocError>
    ensures { OnOk result (string_bytes text.new ≡ string_bytes text.old ++ gossip_line scenario.now) }
{
    match scenario.gossip() {
        Some(gossip) => push_gossip_text(text, gossip),
        None => Ok(()),
    }
}

/// Appends how members gossip.
#[tactic(auto, unfolding(crate::specs::Lines::gossip_text))]
fn push_gossip_text(text: &mut String, gossip: Gossip) -> Result<(), AllocError>
    ensures { OnOk result (string_bytes text.new ≡ string_bytes text.old ++ gossip_text gossip) }
{
    let Gossip {
        interval,
        nodes,
        dead,
        push,
    } = gossip;
    writeln!(
        text,
        "gossip interval {interval} nodes {nodes} dead {dead} push {push}"
    )
}

/// Appends how packets are filled from a queue, where there is one.
pub(crate) fn push_queue(text: &mut String, scenario: &Scenario) -> Result<(), AllocError>
    ensures { OnOk result (string_bytes text.new ≡ string_bytes text.old ++ queue_line scenario.now) }
{
    match scenario.queue() {
        Some(queue) => push_queue_text(text, queue),
        None => Ok(()),
    }
}

/// Appends how packets are filled from a queue.
#[tactic(auto, unfolding(crate::specs::Lines::queue_text))]
fn push_queue_text(text: &mut String, queue: Queue) -> Result<(), AllocError>
    ensures { OnOk result (string_bytes text.new ≡ string_bytes text.old ++ queue_text queue) }
{
    let Queue { packet, meta } = queue;
    writeln!(text, "queue packet {packet} meta {meta}")
}
