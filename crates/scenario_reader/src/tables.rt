//! The tables of settings that stand once in a text.
ghost use Rattle.std.specs.Prelude.{◌≡◌, option_map};
ghost use Rattle.toml.specs.View.{view};
ghost use Rattle.scenario_reader.specs.Reading.{fallback_in, gossip_of, queue_in, serf_in, stream_table, setup_of_tree};

use crate::additions::{fourth_table, version_of};
use scenario::{DialTimes, Gossip, Lifeguard, Link, Queue, Serf, StreamTimes, Suspicion, Swim};
use schema::{FormatKey, Section, Version, number, switch, switch_set};
use toml::Value;

/// How members probe and gossip.
#[tactic(auto, unfolding(crate::specs::Reading::setup_of_tree))]
pub(crate) fn read_swim(tree: &Value) -> Swim
    ensures { result ≡ (setup_of_tree (view tree.now)).swim }
{
    let table = tree.get(FormatKey::Swim.text());
    Swim {
        period: number(Section::Swim, FormatKey::Period, table),
        timeout: number(Section::Swim, FormatKey::Timeout, table),
        helpers: number(Section::Swim, FormatKey::Helpers, table),
        carry: number(Section::Swim, FormatKey::Carry, table),
        lambda: number(Section::Swim, FormatKey::Lambda, table),
        spread: number(Section::Swim, FormatKey::Spread, table),
        fallback: fallback(version_of(tree), table),
    }
}

/// Whether a stream takes over where a ping goes unanswered; never before version 3.
fn fallback(version: Version, swim: Option<&Value>) -> bool
    ensures { result ≡ fallback_in version (option_map (λ v. view v.now) swim.entry) }
{
    match version {
        Version::One | Version::Two => false,
        Version::Three | Version::Four => switch_set(FormatKey::Fallback, swim),
    }
}

/// How long suspicions last.
#[tactic(auto, unfolding(crate::specs::Reading::setup_of_tree))]
pub(crate) fn read_suspicion(tree: &Value) -> Suspicion
    ensures { result ≡ (setup_of_tree (view tree.now)).suspicion }
{
    let table = tree.get(FormatKey::Suspicion.text());
    Suspicion {
        alpha: number(Section::Suspicion, FormatKey::Alpha, table),
        beta: number(Section::Suspicion, FormatKey::Beta, table),
    }
}

/// Lifeguard's switches and their settings.
#[tactic(auto, unfolding(crate::specs::Reading::setup_of_tree))]
pub(crate) fn read_lifeguard(tree: &Value) -> Lifeguard
    ensures { result ≡ (setup_of_tree (view tree.now)).lifeguard }
{
    let table = tree.get(FormatKey::Lifeguard.text());
    Lifeguard {
        probe: switch(FormatKey::Probe, table),
        suspicion: switch(FormatKey::Suspicion, table),
        buddy: switch(FormatKey::Buddy, table),
        ceiling: number(Section::Lifeguard, FormatKey::Ceiling, table),
        confirmations: number(Section::Lifeguard, FormatKey::Confirmations, table),
        nack_percent: number(Section::Lifeguard, FormatKey::NackPercent, table),
    }
}

/// How messages travel.
#[tactic(auto, unfolding(crate::specs::Reading::setup_of_tree))]
pub(crate) fn read_link(tree: &Value) -> Link
    ensures { result ≡ (setup_of_tree (view tree.now)).link }
{
    let table = tree.get(FormatKey::Link.text());
    Link {
        delay: number(Section::Link, FormatKey::Delay, table),
        jitter: number(Section::Link, FormatKey::Jitter, table),
        loss: number(Section::Link, FormatKey::Loss, table),
    }
}

/// How members gossip between their probes; none where they don't, as before version 3.
#[tactic(auto, unfolding(crate::specs::Reading::setup_of_tree))]
pub(crate) fn read_gossip(tree: &Value) -> Option<Gossip>
    ensures { result ≡ (setup_of_tree (view tree.now)).gossip }
{
    match version_of(tree) {
        Version::One | Version::Two => None,
        Version::Three | Version::Four => match tree.get(FormatKey::Gossip.text()) {
            Some(table) => Some(gossip_of(table)),
            None => None,
        },
    }
}

/// What a table says of gossip.
fn gossip_of(table: &Value) -> Gossip
    ensures { result ≡ gossip_of (view table.now) }
{
    Gossip {
        interval: number(Section::Gossip, FormatKey::Interval, Some(table)),
        nodes: number(Section::Gossip, FormatKey::Nodes, Some(table)),
        dead: number(Section::Gossip, FormatKey::Dead, Some(table)),
        push: number(Section::Gossip, FormatKey::Push, Some(table)),
    }
}

/// How streams send again.
#[tactic(auto, unfolding(crate::specs::Reading::setup_of_tree))]
pub(crate) fn read_stream(tree: &Value) -> StreamTimes
    ensures { result ≡ (setup_of_tree (view tree.now)).stream }
{
    let table = stream_table(version_of(tree), tree);
    StreamTimes {
        connect: number(Section::Stream, FormatKey::Connect, table),
        again: number(Section::Stream, FormatKey::Again, table),
    }
}

/// The table of streams, which version 3 adds.
fn stream_table(version: Version, tree: &Value) -> Option<&Value>
    ensures { option_map (λ v. view v.now) result ≡ stream_table version (view tree.now) }
{
    match version {
        Version::One | Version::Two => None,
        Version::Three | Version::Four => tree.get(FormatKey::Stream.text()),
    }
}

/// How packets are filled from memberlist's queue; none where they aren't, as before version 4.
#[tactic(auto, unfolding(crate::specs::Reading::setup_of_tree))]
pub(crate) fn read_queue(tree: &Value) -> Option<Queue>
    ensures { result ≡ (setup_of_tree (view tree.now)).queue }
{
    match fourth_table(version_of(tree), FormatKey::Gossip, tree) {
        Some(table) => queue_in(table),
        None => None,
    }
}

/// What a table says of the queue.
fn queue_in(table: &Value) -> Option<Queue>
    ensures { result ≡ queue_in (view table.now) }
{
    if switch_set(FormatKey::Queue, Some(table)) {
        Some(Queue {
            packet: number(Section::Gossip, FormatKey::Packet, Some(table)),
            meta: number(Section::Gossip, FormatKey::Meta, Some(table)),
        })
    } else {
        None
    }
}

/// How long members wait for connections.
#[tactic(auto, unfolding(crate::specs::Reading::setup_of_tree))]
pub(crate) fn read_dial(tree: &Value) -> DialTimes
    ensures { result ≡ (setup_of_tree (view tree.now)).dial }
{
    let table = fourth_table(version_of(tree), FormatKey::Stream, tree);
    DialTimes {
        limit: number(Section::Stream, FormatKey::Limit, table),
        retry: number(Section::Stream, FormatKey::Retry, table),
    }
}

/// How members leave and reconnect as Serf's do; none where they don't, as before version 4.
#[tactic(auto, unfolding(crate::specs::Reading::setup_of_tree))]
pub(crate) fn read_serf(tree: &Value) -> Option<Serf>
    ensures { result ≡ (setup_of_tree (view tree.now)).serf }
{
    match fourth_table(version_of(tree), FormatKey::Serf, tree) {
        Some(table) => Some(serf_in(table)),
        None => None,
    }
}

/// What a table says of how members leave and reconnect.
fn serf_in(table: &Value) -> Serf
    ensures { result ≡ serf_in (view table.now) }
{
    Serf {
        reconnect: number(Section::Serf, FormatKey::Reconnect, Some(table)),
        reap: number(Section::Serf, FormatKey::Reap, Some(table)),
        linger: number(Section::Serf, FormatKey::Linger, Some(table)),
    }
}
