//! The values of the scenario's keys.
ghost use Rattle.std.specs.Prelude.{◌≡◌};
ghost use Rattle.run_settings.specs.Values.{swim_value, suspicion_value, lifeguard_value, link_value, gossip_value, gossip_value_of, queue_switch, queue_value, serf_value, serf_value_of, stream_value, value_of, switch_of};

use scenario::{
    DialTimes, Gossip, Lifeguard, Link, Queue, Scenario, Serf, StreamTimes, Suspicion, Swim,
};
use schema::{FormatKey, Section};

/// The whole number that a key of a table has in the scenario.
pub(crate) fn value_of(scenario: &Scenario, section: Section, key: FormatKey) -> Option<u64>
    ensures { result ≡ value_of scenario.now section key }
{
    match section {
        Section::Swim => swim_value(&scenario.swim(), key),
        Section::Suspicion => suspicion_value(&scenario.suspicion(), key),
        Section::Lifeguard => lifeguard_value(&scenario.lifeguard(), key),
        Section::Link => link_value(&scenario.link(), key),
        Section::Gossip => gossip_value_of(scenario.gossip(), scenario.queue(), key),
        Section::Stream => stream_value(&scenario.stream(), &scenario.dial(), key),
        Section::Serf => serf_value_of(scenario.serf(), key),
        _ => None,
    }
}

fn swim_value(swim: &Swim, key: FormatKey) -> Option<u64>
    ensures { result ≡ swim_value swim.now key }
{
    match key {
        FormatKey::Period => Some(swim.period),
        FormatKey::Timeout => Some(swim.timeout),
        FormatKey::Helpers => Some(swim.helpers),
        FormatKey::Carry => Some(swim.carry),
        FormatKey::Lambda => Some(swim.lambda),
        FormatKey::Spread => Some(swim.spread),
        _ => None,
    }
}

fn suspicion_value(suspicion: &Suspicion, key: FormatKey) -> Option<u64>
    ensures { result ≡ suspicion_value suspicion.now key }
{
    match key {
        FormatKey::Alpha => Some(suspicion.alpha),
        FormatKey::Beta => Some(suspicion.beta),
        _ => None,
    }
}

fn lifeguard_value(lifeguard: &Lifeguard, key: FormatKey) -> Option<u64>
    ensures { result ≡ lifeguard_value lifeguard.now key }
{
    match key {
        FormatKey::Ceiling => Some(lifeguard.ceiling),
        FormatKey::Confirmations => Some(lifeguard.confirmations),
        FormatKey::NackPercent => Some(lifeguard.nack_percent),
        _ => None,
    }
}

fn link_value(link: &Link, key: FormatKey) -> Option<u64>
    ensures { result ≡ link_value link.now key }
{
    match key {
        FormatKey::Delay => Some(link.delay),
        FormatKey::Jitter => Some(link.jitter),
        FormatKey::Loss => Some(link.loss),
        _ => None,
    }
}

/// The number of a key of how members gossip, and of their packets, where they gossip.
fn gossip_value_of(gossip: Option<Gossip>, queue: Option<Queue>, key: FormatKey) -> Option<u64>
    ensures { result ≡ gossip_value_of gossip queue key }
{
    match gossip {
        Some(gossip) => match key {
            FormatKey::Packet | FormatKey::Meta => queue_value(queue, key),
            _ => gossip_value(&gossip, key),
        },
        None => None,
    }
}

/// The number of a key of packets, which counts where they are filled from memberlist's queue.
fn queue_value(queue: Option<Queue>, key: FormatKey) -> Option<u64>
    ensures { result ≡ queue_value queue key }
{
    match queue {
        Some(queue) => match key {
            FormatKey::Packet => Some(queue.packet),
            FormatKey::Meta => Some(queue.meta),
            _ => None,
        },
        None => None,
    }
}

fn gossip_value(gossip: &Gossip, key: FormatKey) -> Option<u64>
    ensures { result ≡ gossip_value gossip.now key }
{
    match key {
        FormatKey::Interval => Some(gossip.interval),
        FormatKey::Nodes => Some(gossip.nodes),
        FormatKey::Dead => Some(gossip.dead),
        FormatKey::Push => Some(gossip.push),
        _ => None,
    }
}

fn stream_value(stream: &StreamTimes, dial: &DialTimes, key: FormatKey) -> Option<u64>
    ensures { result ≡ stream_value stream.now dial.now key }
{
    match key {
        FormatKey::Connect => Some(stream.connect),
        FormatKey::Again => Some(stream.again),
        FormatKey::Limit => Some(dial.limit),
        FormatKey::Retry => Some(dial.retry),
        _ => None,
    }
}

fn serf_value_of(serf: Option<Serf>, key: FormatKey) -> Option<u64>
    ensures { result ≡ serf_value_of serf key }
{
    match serf {
        Some(serf) => serf_value(&serf, key),
        None => None,
    }
}

fn serf_value(serf: &Serf, key: FormatKey) -> Option<u64>
    ensures { result ≡ serf_value serf.now key }
{
    match key {
        FormatKey::Reconnect => Some(serf.reconnect),
        FormatKey::Reap => Some(serf.reap),
        FormatKey::Linger => Some(serf.linger),
        _ => None,
    }
}

/// Whether packets are filled from memberlist's queue, where members gossip.
fn queue_switch(gossip: Option<Gossip>, queue: Option<Queue>) -> Option<bool>
    ensures { result ≡ queue_switch gossip queue }
{
    match gossip {
        Some(_) => Some(queue.is_some()),
        None => None,
    }
}

/// Whether a switch is on in the scenario.
pub(crate) fn switch_of(scenario: &Scenario, key: FormatKey) -> Option<bool>
    ensures { result ≡ switch_of scenario.now key }
{
    match key {
        FormatKey::Fallback => Some(scenario.swim().fallback),
        FormatKey::Probe => Some(scenario.lifeguard().probe),
        FormatKey::Suspicion => Some(scenario.lifeguard().suspicion),
        FormatKey::Buddy => Some(scenario.lifeguard().buddy),
        FormatKey::Queue => queue_switch(scenario.gossip(), scenario.queue()),
        _ => None,
    }
}
