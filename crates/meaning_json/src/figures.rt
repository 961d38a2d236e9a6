//! The figures as JSON values: groups, links and paths, the protocol's times, gossip, and what a quiet run costs.
ghost use Rattle.std.specs.Prelude.{◌≡◌, ◌++◌, ◌<◌, ◌≤◌, IfOk, OnOk, length, map};
ghost use Rattle.serde_json.specs.View.{view};
ghost use Rattle.scenario.specs.Setup.{member_count};
ghost use Rattle.meaning.specs.Each.{made_at};
ghost use Rattle.meaning.specs.Groups.{groups_of};
ghost use Rattle.meaning_json.specs.Figures.{whole_or_null, link_data, contact_data, group_data, group_item, groups_data, path_data, path_item, paths_data, suspicion_item, suspicions_data, pace_data, pace_item, health_data, times_data, times_with, called_with, stream_data, dial_data, dialed_with, serf_data, serf_or_null, news_data, ridden_data, gossip_data, gossiped_by, gossiped_data, queue_data, queued_data, room_key, room_of, quiet_data};

use crate::lists::{list_of, push_value};
use crate::members::{put_number, put_text};
use base::{MemberId, Profile};
use meaning::{
    cost_of_quiet, first_of_group, group_name, is_hidden, item_at, least_suspicion, member_name,
    message_limit, most_accusers, nack_delay, pace_with, suspicion_time, worst_health,
};
use meaning_text::{name_of_group, size_of_group};
use scenario::{DialTimes, Gossip, Link, Path, Queue, Scenario, Serf, StreamTimes};
use serde_json::{Map, Value, put};
use std::alloc::{AllocError, Global};

/// A number, or null where there is none.
pub(crate) fn whole_or_null(number: Option<u64>) -> Value
    ensures { view result ≡ whole_or_null number }
{
    match number {
        Some(number) => Value::from(number),
        None => Value::Null,
    }
}

/// What a link does.
#[tactic(auto, unfolding(crate::specs::Figures::link_data))]
pub(crate) fn link_value(alloc: Global, link: Link) -> Result<Value, AllocError>
    ensures { IfOk result (λ v. view v ≡ link_data link) }
{
    let mut members = Map::new(alloc);
    put_number(&mut members, alloc, "delay", link.delay)?;
    put_number(&mut members, alloc, "jitter", link.jitter)?;
    put_number(&mut members, alloc, "loss", link.loss)?;
    Ok(Value::Object(members))
}

/// The groups.
pub(crate) fn groups_value(
    alloc: Global,
    scenario: &Scenario,
    groups: &[usize],
) -> Result<Value, AllocError>
    requires { groups.now ≡ groups_of scenario.now }
    ensures { IfOk result (λ v. view v ≡ groups_data scenario.now) }
{
    let mut values = Vec::new(alloc);
    for member in 0..scenario.members() {
        push_group(alloc, &mut values, scenario, groups, member)?;
    }
    Ok(list_of(values))
}

/// Appends the group of a member, if the member is its first.
fn push_group(
    alloc: Global,
    values: &mut Vec<Value>,
    scenario: &Scenario,
    groups: &[usize],
    member: usize,
) -> Result<(), AllocError>
    requires member { member < member_count scenario.now }
    requires groups { groups.now ≡ groups_of scenario.now }
    ensures { OnOk result (map view values.new.items ≡ map view values.old.items ++ group_item scenario.now member) }
{
    let _few = scenario.members();
    let number = scenario.group_number(MemberId(member as u16));
    if first_of_group(groups, number) == member {
        push_value(values, group_value(alloc, scenario, groups, member)?)
    } else {
        Ok(())
    }
}

/// The group of a member: its name, how many members it has, when these start, and whom they ask.
#[tactic(auto, unfolding(crate::specs::Figures::group_data))]
fn group_value(
    alloc: Global,
    scenario: &Scenario,
    groups: &[usize],
    member: usize,
) -> Result<Value, AllocError>
    requires member { member < member_count scenario.now }
    requires groups { groups.now ≡ groups_of scenario.now }
    ensures { IfOk result (λ v. view v ≡ group_data scenario.now member) }
{
    let _few = scenario.members();
    let name = name_of_group(scenario, groups, member);
    let size = size_of_group(scenario, groups, member);
    let start = scenario.start(MemberId(member as u16)).ticks();
    let contact = contact_value(alloc, scenario, scenario.contact(MemberId(member as u16)))?;
    let mut members = Map::new(alloc);
    put(&mut members, alloc, "contact", contact)?;
    put_text(&mut members, alloc, "name", name)?;
    put_number(&mut members, alloc, "members", size as u64)?;
    put_number(&mut members, alloc, "start", start)?;
    Ok(Value::Object(members))
}

/// Whom the members of a group, or one that starts again, ask to let them join; null where they ask nobody.
pub(crate) fn contact_value(
    alloc: Global,
    scenario: &Scenario,
    contact: Option<MemberId>,
) -> Result<Value, AllocError>
    ensures { IfOk result (λ v. view v ≡ contact_data scenario.now contact) }
{
    match contact {
        Some(member) => Value::try_from_str(alloc, member_name(scenario, member.index())),
        None => Ok(Value::Null),
    }
}

/// The paths that decide.
pub(crate) fn paths_value(
    alloc: Global,
    scenario: &Scenario,
    groups: &[usize],
) -> Result<Value, AllocError>
    requires { groups.now ≡ groups_of scenario.now }
    ensures { IfOk result (λ v. view v ≡ paths_data scenario.now) }
{
    let mut values = Vec::new(alloc);
    for place in 0..scenario.paths().len() {
        push_path(alloc, &mut values, scenario, groups, place)?;
    }
    Ok(list_of(values))
}

/// Appends the path at this place, if it decides.
fn push_path(
    alloc: Global,
    values: &mut Vec<Value>,
    scenario: &Scenario,
    groups: &[usize],
    place: usize,
) -> Result<(), AllocError>
    requires { groups.now ≡ groups_of scenario.now }
    ensures { OnOk result (map view values.new.items
        ≡ map view values.old.items ++ made_at (path_item scenario.now) scenario.now.paths place) }
{
    let paths = scenario.paths();
    let Some(path) = item_at(paths, place) else {
        return Ok(());
    };
    if is_hidden(paths, place, &path) {
        Ok(())
    } else {
        push_value(values, path_value(alloc, scenario, groups, place, &path)?)
    }
}

/// A path: its number in the text, between which groups it is, and what its link does.
#[tactic(auto, unfolding(crate::specs::Figures::path_data))]
fn path_value(
    alloc: Global,
    scenario: &Scenario,
    groups: &[usize],
    place: usize,
    path: &Path,
) -> Result<Value, AllocError>
    requires groups { groups.now ≡ groups_of scenario.now }
    requires place { place < length scenario.now.paths }
    ensures { IfOk result (λ v. view v ≡ path_data scenario.now place path.now) }
{
    let _paths = scenario.paths();
    let number = place + 1;
    let from = group_name(scenario, groups, path.from);
    let to = group_name(scenario, groups, path.to);
    let link = link_value(alloc, path.link)?;
    let mut members = Map::new(alloc);
    put(&mut members, alloc, "link", link)?;
    put_number(&mut members, alloc, "number", number as u64)?;
    put_text(&mut members, alloc, "from", from)?;
    put_text(&mut members, alloc, "to", to)?;
    Ok(Value::Object(members))
}

/// The times of the protocol among all members.
pub(crate) fn times_value(alloc: Global, scenario: &Scenario) -> Result<Value, AllocError>
    ensures { IfOk result (λ v. view v ≡ times_data scenario.now) }
{
    let least = least_suspicion(scenario);
    let suspicions = suspicions_value(alloc, scenario)?;
    let health = health_value(alloc, scenario)?;
    let nack = nack_delay(scenario);
    match scenario.profile() {
        Profile::Papers => times_with(alloc, least, suspicions, health, nack),
        Profile::Memberlist => {
            let fallback = scenario.swim().fallback;
            let stream = stream_value(alloc, scenario.stream())?;
            called_with(alloc, least, suspicions, health, nack, fallback, stream)
        }
        Profile::Hashicorp => {
            let fallback = scenario.swim().fallback;
            let stream = stream_value(alloc, scenario.stream())?;
            let dial = dial_value(alloc, scenario.dial())?;
            let serf = serf_or_null(alloc, scenario.serf())?;
            dialed_with(
                alloc, least, suspicions, health, nack, fallback, stream, dial, serf,
            )
        }
    }
}

/// These times.
#[tactic(auto, unfolding(crate::specs::Figures::times_with))]
fn times_with(
    alloc: Global,
    least: u64,
    suspicions: Value,
    health: Value,
    nack: u64,
) -> Result<Value, AllocError>
    ensures { IfOk result (λ v. view v ≡ times_with least (view suspicions) (view health) nack) }
{
    let mut members = Map::new(alloc);
    put(&mut members, alloc, "suspicions", suspicions)?;
    put(&mut members, alloc, "health", health)?;
    put_number(&mut members, alloc, "least_suspicion", least)?;
    put_number(&mut members, alloc, "nack_delay", nack)?;
    Ok(Value::Object(members))
}

/// The same, whether members call, and how a stream sends again.
#[tactic(auto, unfolding(crate::specs::Figures::called_with))]
fn called_with(
    alloc: Global,
    least: u64,
    suspicions: Value,
    health: Value,
    nack: u64,
    fallback: bool,
    stream: Value,
) -> Result<Value, AllocError>
    ensures { IfOk result (λ v. view v ≡ called_with least (view suspicions) (view health) nack fallback (view stream)) }
{
    let mut members = Map::new(alloc);
    put(&mut members, alloc, "suspicions", suspicions)?;
    put(&mut members, alloc, "health", health)?;
    put(&mut members, alloc, "stream", stream)?;
    put_number(&mut members, alloc, "least_suspicion", least)?;
    put_number(&mut members, alloc, "nack_delay", nack)?;
    put(&mut members, alloc, "fallback", Value::Bool(fallback))?;
    Ok(Value::Object(members))
}

/// The same, how long a dial may take, and what Serf's members do.
#[tactic(auto, unfolding(crate::specs::Figures::dialed_with))]
fn dialed_with(
    alloc: Global,
    least: u64,
    suspicions: Value,
    health: Value,
    nack: u64,
    fallback: bool,
    stream: Value,
    dial: Value,
    serf: Value,
) -> Result<Value, AllocError>
    ensures { IfOk result (λ v. view v ≡ dialed_with least (view suspicions) (view health) nack fallback (view stream) (view dial) (view serf)) }
{
    let mut members = Map::new(alloc);
    put(&mut members, alloc, "suspicions", suspicions)?;
    put(&mut members, alloc, "health", health)?;
    put(&mut members, alloc, "stream", stream)?;
    put(&mut members, alloc, "dial", dial)?;
    put(&mut members, alloc, "serf", serf)?;
    put_number(&mut members, alloc, "least_suspicion", least)?;
    put_number(&mut members, alloc, "nack_delay", nack)?;
    put(&mut members, alloc, "fallback", Value::Bool(fallback))?;
    Ok(Value::Object(members))
}

/// How long a dial may take, and how long who starts again waits before the next one.
#[tactic(auto, unfolding(crate::specs::Figures::dial_data))]
fn dial_value(alloc: Global, dial: DialTimes) -> Result<Value, AllocError>
    ensures { IfOk result (λ v. view v ≡ dial_data dial) }
{
    let mut members = Map::new(alloc);
    put_number(&mut members, alloc, "limit", dial.limit)?;
    put_number(&mut members, alloc, "retry", dial.retry)?;
    Ok(Value::Object(members))
}

/// How members leave and reconnect as Serf's do, or null where they don't.
fn serf_or_null(alloc: Global, serf: Option<Serf>) -> Result<Value, AllocError>
    ensures { IfOk result (λ v. view v ≡ serf_or_null serf) }
{
    match serf {
        Some(serf) => serf_value(alloc, serf),
        None => Ok(Value::Null),
    }
}

/// How members leave and reconnect as Serf's do.
#[tactic(auto, unfolding(crate::specs::Figures::serf_data))]
fn serf_value(alloc: Global, serf: Serf) -> Result<Value, AllocError>
    ensures { IfOk result (λ v. view v ≡ serf_data serf) }
{
    let mut members = Map::new(alloc);
    put_number(&mut members, alloc, "reconnect", serf.reconnect)?;
    put_number(&mut members, alloc, "reap", serf.reap)?;
    put_number(&mut members, alloc, "linger", serf.linger)?;
    Ok(Value::Object(members))
}

/// How a stream sends again what was lost.
#[tactic(auto, unfolding(crate::specs::Figures::stream_data))]
fn stream_value(alloc: Global, stream: StreamTimes) -> Result<Value, AllocError>
    ensures { IfOk result (λ v. view v ≡ stream_data stream) }
{
    let mut members = Map::new(alloc);
    put_number(&mut members, alloc, "connect", stream.connect)?;
    put_number(&mut members, alloc, "again", stream.again)?;
    Ok(Value::Object(members))
}

/// How long a suspicion lasts, by the number of further accusers.
fn suspicions_value(alloc: Global, scenario: &Scenario) -> Result<Value, AllocError>
    ensures { IfOk result (λ v. view v ≡ suspicions_data scenario.now) }
{
    let mut values = Vec::new(alloc);
    for accusers in 0..most_accusers(scenario) + 1 {
        push_suspicion(&mut values, scenario, accusers)?;
    }
    Ok(list_of(values))
}

/// Appends how long a suspicion lasts with so many further accusers.
fn push_suspicion(
    values: &mut Vec<Value>,
    scenario: &Scenario,
    accusers: u64,
) -> Result<(), AllocError>
    ensures { OnOk result (map view values.new.items ≡ map view values.old.items ++ suspicion_item scenario.now accusers) }
{
    push_value(values, Value::from(suspicion_time(scenario, accusers)))
}

/// Period and timeout, by the health counter.
fn health_value(alloc: Global, scenario: &Scenario) -> Result<Value, AllocError>
    ensures { IfOk result (λ v. view v ≡ health_data scenario.now) }
{
    let mut values = Vec::new(alloc);
    for health in 0..worst_health(scenario) + 1 {
        push_pace(alloc, &mut values, scenario, health)?;
    }
    Ok(list_of(values))
}

/// Appends period and timeout of a member whose health counter stands so.
fn push_pace(
    alloc: Global,
    values: &mut Vec<Value>,
    scenario: &Scenario,
    health: u64,
) -> Result<(), AllocError>
    requires { health ≤ 16 }
    ensures { OnOk result (map view values.new.items ≡ map view values.old.items ++ pace_item scenario.now health) }
{
    push_value(values, pace_value(alloc, scenario, health)?)
}

/// Period and timeout of a member whose health counter stands so.
#[tactic(auto, unfolding(crate::specs::Figures::pace_data))]
fn pace_value(alloc: Global, scenario: &Scenario, health: u64) -> Result<Value, AllocError>
    requires { health ≤ 16 }
    ensures { IfOk result (λ v. view v ≡ pace_data scenario.now health) }
{
    let pace = pace_with(scenario, health);
    let mut members = Map::new(alloc);
    put_number(&mut members, alloc, "period", pace.period)?;
    put_number(&mut members, alloc, "timeout", pace.timeout)?;
    Ok(Value::Object(members))
}

/// How far an update spreads.
pub(crate) fn news_value(alloc: Global, scenario: &Scenario) -> Result<Value, AllocError>
    ensures { IfOk result (λ v. view v ≡ news_data scenario.now) }
{
    let limit = message_limit(scenario);
    let carry = scenario.swim().carry;
    match scenario.gossip() {
        Some(gossip) => gossiped_by(alloc, limit, carry, scenario.queue(), gossip),
        None => ridden_value(alloc, limit, carry),
    }
}

/// How far an update spreads among members that gossip, and where they fill packets from a queue how.
fn gossiped_by(
    alloc: Global,
    limit: u64,
    carry: u64,
    queue: Option<Queue>,
    gossip: Gossip,
) -> Result<Value, AllocError>
    ensures { IfOk result (λ v. view v ≡ gossiped_by limit carry queue gossip) }
{
    match queue {
        Some(queue) => queued_value(alloc, limit, carry, gossip, queue),
        None => gossiped_value(alloc, limit, carry, gossip),
    }
}

/// How members gossip, what a packet holds, and how it is filled.
#[tactic(auto, unfolding(crate::specs::Figures::queued_data))]
fn queued_value(
    alloc: Global,
    limit: u64,
    carry: u64,
    gossip: Gossip,
    queue: Queue,
) -> Result<Value, AllocError>
    ensures { IfOk result (λ v. view v ≡ queued_data limit carry gossip queue) }
{
    let key = room_key(queue.packet);
    let room = room_of(carry, queue.packet);
    let gossip = gossip_value(alloc, gossip)?;
    let queue = queue_value(alloc, queue)?;
    let mut members = Map::new(alloc);
    put(&mut members, alloc, "gossip", gossip)?;
    put(&mut members, alloc, "queue", queue)?;
    put_number(&mut members, alloc, "limit", limit)?;
    put_number(&mut members, alloc, key, room)?;
    Ok(Value::Object(members))
}

/// The key of what a packet holds: its bytes, or where these are 0 its updates.
fn room_key(packet: u64) -> &'static str
    ensures { result.now ≡ room_key packet }
{
    if packet == 0 { "carry" } else { "packet" }
}

/// What a packet holds.
fn room_of(carry: u64, packet: u64) -> u64
    ensures { result ≡ room_of carry packet }
{
    if packet == 0 { carry } else { packet }
}

/// How packets are filled from a queue.
#[tactic(auto, unfolding(crate::specs::Figures::queue_data))]
fn queue_value(alloc: Global, queue: Queue) -> Result<Value, AllocError>
    ensures { IfOk result (λ v. view v ≡ queue_data queue) }
{
    let mut members = Map::new(alloc);
    put_number(&mut members, alloc, "packet", queue.packet)?;
    put_number(&mut members, alloc, "meta", queue.meta)?;
    Ok(Value::Object(members))
}

/// On how many messages of a member its news rides at the most, and how many ride on one.
#[tactic(auto, unfolding(crate::specs::Figures::ridden_data))]
fn ridden_value(alloc: Global, limit: u64, carry: u64) -> Result<Value, AllocError>
    ensures { IfOk result (λ v. view v ≡ ridden_data limit carry) }
{
    let mut members = Map::new(alloc);
    put_number(&mut members, alloc, "limit", limit)?;
    put_number(&mut members, alloc, "carry", carry)?;
    Ok(Value::Object(members))
}

/// The same, and how members gossip.
#[tactic(auto, unfolding(crate::specs::Figures::gossiped_data))]
fn gossiped_value(
    alloc: Global,
    limit: u64,
    carry: u64,
    gossip: Gossip,
) -> Result<Value, AllocError>
    ensures { IfOk result (λ v. view v ≡ gossiped_data limit carry gossip) }
{
    let gossip = gossip_value(alloc, gossip)?;
    let mut members = Map::new(alloc);
    put(&mut members, alloc, "gossip", gossip)?;
    put_number(&mut members, alloc, "limit", limit)?;
    put_number(&mut members, alloc, "carry", carry)?;
    Ok(Value::Object(members))
}

/// How members gossip.
#[tactic(auto, unfolding(crate::specs::Figures::gossip_data))]
fn gossip_value(alloc: Global, gossip: Gossip) -> Result<Value, AllocError>
    ensures { IfOk result (λ v. view v ≡ gossip_data gossip) }
{
    let mut members = Map::new(alloc);
    put_number(&mut members, alloc, "interval", gossip.interval)?;
    put_number(&mut members, alloc, "nodes", gossip.nodes)?;
    put_number(&mut members, alloc, "dead", gossip.dead)?;
    put_number(&mut members, alloc, "push", gossip.push)?;
    Ok(Value::Object(members))
}

/// What a quiet run costs.
#[tactic(auto, unfolding(crate::specs::Figures::quiet_data))]
pub(crate) fn quiet_value(alloc: Global, scenario: &Scenario) -> Result<Value, AllocError>
    ensures { IfOk result (λ v. view v ≡ quiet_data scenario.now) }
{
    let quiet = cost_of_quiet(scenario);
    let mut members = Map::new(alloc);
    put_number(
        &mut members,
        alloc,
        "messages_a_period",
        quiet.messages_a_period,
    )?;
    put_number(
        &mut members,
        alloc,
        "messages_a_second",
        quiet.messages_a_second,
    )?;
    put_number(&mut members, alloc, "messages", quiet.messages)?;
    put_number(&mut members, alloc, "rows", quiet.rows)?;
    put_number(&mut members, alloc, "bytes", quiet.bytes)?;
    Ok(Value::Object(members))
}
