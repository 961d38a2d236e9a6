//! A scenario that keeps the format's rules, and what a run asks it about members, links, cuts, slow times, pauses and
//! blocks.
ghost use Rattle.std.specs.Prelude.{◌≡◌, ◌<◌, ◌≤◌, ◌^◌, ℕ, true, false};
ghost use Rattle.std.specs.Prelude.{string_bytes, map, filter, find, nat_eq, slice_get, option_map, option_and_then, option_copied, All, IfOk, IfSome, IfNone};
ghost use Rattle.std.specs.List.{list_any, range_with_len};
ghost use Rattle.std.specs.Option.{option_map_or};
ghost use Rattle.scenario.specs.Labels.{IsLabelOf};
ghost use Rattle.scenario.specs.SetupOf.{group_of, setup_in};
ghost use Rattle.scenario.specs.Spells.{is_in_any, IsEndFrom};
ghost use Rattle.scenario.specs.Naps.{naps_at, AreNoted};
ghost use Rattle.scenario.specs.Scripts.{script_at};
ghost use Rattle.scenario.specs.declared.script.ScriptEvent.{ScriptEvent as AnEvent};
ghost use Rattle.scenario.specs.Setup.{member_count, member_names, name_of, group_at, leads, last_link, link_between, start_of, contact_of, crash_of, leave_of, is_slow, first_extra, more_extra, greatest_extra, extra_by, extra_of, cuts_off, is_cut, awake, free, script_of, IsSound, IsSoundEvent, IsSoundLink};

use crate::calendar::Calendar;
use crate::labels::labels_of;
use crate::naps::{calendar_of, naps_of};
use crate::script::{Script, ScriptEvent, scripts_of};
use crate::settings::{
    Crash, Cut, DialTimes, Gossip, Group, Leave, Lifeguard, Link, Path, Pause, Queue, Restart,
    Serf, Slow, StreamTimes, Suspicion, Swim,
};
use crate::spells::Spells;
use base::{MemberId, Memory, Moment};
use schema::Version;
use std::alloc::Global;
use std::marker::Model;

/// What a scenario's text says, field by field.
#[derive(Drop)]
pub struct Contents {
    /// The version of the text's format.
    pub version: Version,
    /// The seed of every member's draws.
    pub seed: u64,
    /// The last moment that is simulated, in ticks.
    pub end: Moment,
    pub swim: Swim,
    pub suspicion: Suspicion,
    pub lifeguard: Lifeguard,
    /// The link of every pair of members whose groups no path names.
    pub link: Link,
    /// In the order of the text, as all lists.
    pub groups: Vec<Group>,
    pub paths: Vec<Path>,
    pub slows: Vec<Slow>,
    pub crashes: Vec<Crash>,
    pub leaves: Vec<Leave>,
    pub cuts: Vec<Cut>,
    /// How members gossip between their probes, where they do.
    pub gossip: Option<Gossip>,
    /// How streams send again what was lost.
    pub stream: StreamTimes,
    pub pauses: Vec<Pause>,
    pub restarts: Vec<Restart>,
    /// When members are blocked.
    pub blocks: Vec<Pause>,
    /// How packets are filled from memberlist's queue, where they are.
    pub queue: Option<Queue>,
    /// How long members wait for connections.
    pub dial: DialTimes,
    /// How members leave and reconnect as Serf's do, where they do.
    pub serf: Option<Serf>,
    /// The names of all members, at their numbers.
    pub names: Vec<String>,
}

/// A scenario that keeps the format's rules: what a run does follows from it alone.
#[derive(Drop)]
pub struct Scenario {
    contents: Contents,
    /// The number of each member's group.
    numbers: Vec<usize>,
    /// When each member is paused. Members past the last one that is have no place.
    naps: Vec<Spells>,
    /// At which moments a member may be paused.
    calendar: Calendar,
    /// When each member is blocked, in the same way.
    stops: Vec<Spells>,
    /// What happens to each member, in the same way.
    scripts: Vec<Script>,
    /// Each member's name as a line takes it.
    labels: Vec<[u8; 16]>,
}

impl Model for Scenario {
    ghost use Rattle.scenario.specs.Setup.{Setup};

    ghost Value = { Setup };

    ghost use Rattle.scenario.specs.SetupOf.{setup_of, IsScenario};

    ghost view = { setup_of };

    ghost invariant = { IsScenario };
}

impl Scenario {
    /// The scenario with these contents, or `Memory` where it was refused. Whoever made them sees to it
    /// that they keep the format's rules, as the reader of a text does by its checks.
    pub fn of(alloc: Global, contents: Contents) -> Result<Scenario, Memory>
        requires named { map string_bytes contents.names.items ≡ member_names (setup_in contents) }
        requires sound { IsSound (setup_in contents) }
        ensures { IfOk result (λ scenario. scenario ≡ setup_in contents) }
    {
        let members = contents.names.len();
        let numbers = numbers_of(alloc, contents.groups.as_slice(), members)?;
        let naps = naps_of(alloc, contents.pauses.as_slice())?;
        let calendar = calendar_of(alloc, contents.end, contents.pauses.as_slice())?;
        let stops = naps_of(alloc, contents.blocks.as_slice())?;
        let scripts = scripts_of(
            alloc,
            contents.crashes.as_slice(),
            contents.leaves.as_slice(),
            contents.restarts.as_slice(),
        )?;
        let labels = labels_of(alloc, contents.names.as_slice())?;
        Ok(Scenario {
            contents,
            numbers,
            naps,
            calendar,
            stops,
            scripts,
            labels,
        })
    }

    /// The version of the text's format.
    pub fn version(&self) -> Version
        ensures value { result ≡ self.now.version }
        ensures sound { IsSound self.now }
    {
        self.contents.version
    }

    /// How many members there are: 1 to 1,024 in version 1, to 4,096 in versions 2 and 3, and to 16,384 in version 4.
    pub fn members(&self) -> usize
        ensures count { result ≡ member_count self.now }
        ensures at_most_16384 { result ≤ 16384 }
        ensures sound { IsSound self.now }
    {
        self.contents.names.len()
    }

    /// A member's name: its group's name, a dash and its index in the group.
    pub fn name(&self, member: MemberId) -> &str
        requires { member < member_count self.now }
        ensures value { result.now ≡ name_of self.now member }
        ensures sound { IsSound self.now }
    {
        self.contents.names[member.index()].as_str()
    }

    /// A member's name at the end of 16 bytes, the first of which is its length: 0 where the name is longer than
    /// 15 bytes, and isn't there.
    #[inline(always)]
    pub fn label(&self, member: MemberId) -> &[u8; 16]
        requires { member < member_count self.now }
        ensures { IsLabelOf (name_of self.now member) result.now }
    {
        &self.labels[member.index()]
    }

    /// The seed of every member's draws.
    pub fn seed(&self) -> u64
        ensures { result ≡ self.now.seed }
    {
        self.contents.seed
    }

    /// The last moment that is simulated, in ticks.
    pub fn end(&self) -> Moment
        ensures value { result ≡ self.now.end }
        ensures sound { IsSound self.now }
    {
        self.contents.end
    }

    /// The protocol period, in ticks (SWIM, section 3.1).
    pub fn period(&self) -> u64
        ensures value { result ≡ self.now.swim.period }
        ensures sound { IsSound self.now }
    {
        self.contents.swim.period
    }

    /// How members probe and gossip.
    pub fn swim(&self) -> Swim
        ensures value { result ≡ self.now.swim }
        ensures sound { IsSound self.now }
    {
        self.contents.swim
    }

    /// How long suspicions last.
    pub fn suspicion(&self) -> Suspicion
        ensures value { result ≡ self.now.suspicion }
        ensures sound { IsSound self.now }
    {
        self.contents.suspicion
    }

    /// Lifeguard's switches and their settings.
    pub fn lifeguard(&self) -> Lifeguard
        ensures value { result ≡ self.now.lifeguard }
        ensures sound { IsSound self.now }
    {
        self.contents.lifeguard
    }

    /// The link from one member to another: that of the last path from the one's group to the
    /// other's, else `link`.
    pub fn link_between(&self, from: MemberId, to: MemberId) -> Link
        requires sender { from < member_count self.now }
        requires receiver { to < member_count self.now }
        ensures value { result ≡ link_between self.now from to }
        ensures sound { IsSoundLink result }
    {
        let from = self.number(from.index());
        let to = self.number(to.index());
        last_link(self.contents.link, self.contents.paths.as_slice(), from, to)
    }

    /// When the member starts, in ticks.
    pub fn start(&self, member: MemberId) -> Moment
        requires { member < member_count self.now }
        ensures value { result ≡ start_of self.now member }
        ensures small { result ≤ 2 ^ 40 }
        ensures sound { IsSound self.now }
    {
        start_at(self.contents.groups.as_slice(), self.number(member.index()))
    }

    /// Whom the member asks to let it join; none where it starts at moment 0.
    pub fn contact(&self, member: MemberId) -> Option<MemberId>
        requires { member < member_count self.now }
        ensures value { result ≡ contact_of self.now member }
        ensures member { IfSome result (λ c. c < member_count self.now) }
        ensures sound { IsSound self.now }
    {
        contact_at(self.contents.groups.as_slice(), self.number(member.index()))
    }

    /// When the member first crashes by the text, in ticks, if it does.
    pub fn crash(&self, member: MemberId) -> Option<Moment>
        requires { member < member_count self.now }
        ensures value { result ≡ crash_of self.now member }
        ensures small { IfSome result (λ t. t ≤ 2 ^ 40) }
        ensures sound { IsSound self.now }
    {
        crash_of(self.contents.crashes.as_slice(), member.index())
    }

    /// When the member first leaves by the text, in ticks, if it does. Before version 4 nobody crashes and leaves.
    pub fn leave(&self, member: MemberId) -> Option<Moment>
        requires { member < member_count self.now }
        ensures value { result ≡ leave_of self.now member }
        ensures small { IfSome result (λ t. t ≤ 2 ^ 40) }
        ensures sound { IsSound self.now }
    {
        leave_of(self.contents.leaves.as_slice(), member.index())
    }

    /// By how many ticks what the member sends or receives at the moment takes longer.
    pub fn extra(&self, member: MemberId, at: Moment) -> u64
        requires { member < member_count self.now }
        ensures value { result ≡ extra_of self.now member at }
        ensures small { result ≤ 2 ^ 24 }
    {
        extra_by(self.version(), self.slows(), member.index(), at.ticks())
    }

    /// Whether what the one member sends to the other at the moment is lost, since the link from its
    /// group to the other's is cut.
    pub fn is_cut(&self, from: MemberId, to: MemberId, at: Moment) -> bool
        requires sender { from < member_count self.now }
        requires receiver { to < member_count self.now }
        ensures { result ≡ is_cut self.now from to at }
    {
        let from = self.number(from.index());
        let to = self.number(to.index());
        is_any_cut(self.contents.cuts.as_slice(), from, to, at.ticks())
    }

    /// The number of the member's group, in the order of the text.
    pub fn group_number(&self, member: MemberId) -> usize
        requires { member < member_count self.now }
        ensures { result ≡ group_at self.now.groups member }
    {
        self.number(member.index())
    }

    /// The number of a member's group, out of the table of all members.
    fn number(&self, member: usize) -> usize
        requires { member < member_count self.now }
        ensures { result ≡ group_at self.now.groups member }
    {
        self.numbers[member]
    }

    /// The groups, in the order of the text: members are numbered in this order.
    pub fn groups(&self) -> &[Group]
        ensures { map group_of result.now ≡ self.now.groups }
    {
        self.contents.groups.as_slice()
    }

    /// The links between the members of groups, in the order of the text: the last one of two groups
    /// holds.
    pub fn paths(&self) -> &[Path]
        ensures { result.now ≡ self.now.paths }
    {
        self.contents.paths.as_slice()
    }

    /// When members are slow, in the order of the text.
    pub fn slows(&self) -> &[Slow]
        ensures { result.now ≡ self.now.slows }
    {
        self.contents.slows.as_slice()
    }

    /// Which members leave, and when, in the order of the text; none in version 1.
    pub fn leaves(&self) -> &[Leave]
        ensures value { result.now ≡ self.now.leaves }
        ensures sound { IsSound self.now }
    {
        self.contents.leaves.as_slice()
    }

    /// When links between the members of groups are cut, in the order of the text; never in version 1.
    pub fn cuts(&self) -> &[Cut]
        ensures value { result.now ≡ self.now.cuts }
        ensures sound { IsSound self.now }
    {
        self.contents.cuts.as_slice()
    }

    /// The pauses, in the order of the text; none in versions 1 and 2.
    pub fn pauses(&self) -> &[Pause]
        ensures value { result.now ≡ self.now.pauses }
        ensures sound { IsSound self.now }
    {
        self.contents.pauses.as_slice()
    }

    /// The restarts, in the order of the text; none before version 4.
    pub fn restarts(&self) -> &[Restart]
        ensures value { result.now ≡ self.now.restarts }
        ensures sound { IsSound self.now }
    {
        self.contents.restarts.as_slice()
    }

    /// When members are blocked, in the order of the text; never before version 4.
    pub fn blocks(&self) -> &[Pause]
        ensures value { result.now ≡ self.now.blocks }
        ensures sound { IsSound self.now }
    {
        self.contents.blocks.as_slice()
    }

    /// What happens to the member: its crashes, leaves and restarts in the order of their moments. Those of one moment
    /// stand in this order, and those of one list in the text's. The first is event 1 of the member, its start is 0.
    pub fn script(&self, member: MemberId) -> &[ScriptEvent]
        requires { member < member_count self.now }
        ensures value { result.now ≡ script_of self.now member }
        ensures events { All (λ (event : AnEvent). (event.member ≡ member) × IsSoundEvent self.now event) result.now }
        ensures sound { IsSound self.now }
    {
        script_for(self.scripts.as_slice(), member.index())
    }

    /// How packets are filled from memberlist's queue; none where they aren't, as before version 4.
    pub fn queue(&self) -> Option<Queue>
        ensures value { result ≡ self.now.queue }
        ensures sound { IsSound self.now }
    {
        self.contents.queue
    }

    /// How long members wait for connections.
    pub fn dial(&self) -> DialTimes
        ensures value { result ≡ self.now.dial }
        ensures sound { IsSound self.now }
    {
        self.contents.dial
    }

    /// How members leave and reconnect as Serf's do; none where they don't, as before version 4.
    pub fn serf(&self) -> Option<Serf>
        ensures value { result ≡ self.now.serf }
        ensures sound { IsSound self.now }
    {
        self.contents.serf
    }

    /// When what the member sends at the moment departs, and when it gets what comes at the moment: the first one, from
    /// that on, at which it isn't blocked. Where it is later, it is the end of a block.
    pub fn free(&self, member: MemberId, moment: Moment) -> Moment
        requires { member < member_count self.now }
        ensures value { result ≡ free self.now member moment }
        ensures later { moment ≤ result }
        ensures small { moment ≤ 2 ^ 40 → result ≤ 2 ^ 40 }
        ensures put_off { moment < result → result ≤ 2 ^ 40 }
        ensures sound { IsSound self.now }
    {
        Moment(free_at(self.stops.as_slice(), member.index(), moment.ticks()))
    }

    /// How members gossip between their probes; none where they don't, as in versions 1 and 2.
    pub fn gossip(&self) -> Option<Gossip>
        ensures value { result ≡ self.now.gossip }
        ensures sound { IsSound self.now }
    {
        self.contents.gossip
    }

    /// How streams send again what was lost.
    pub fn stream(&self) -> StreamTimes
        ensures value { result ≡ self.now.stream }
        ensures sound { IsSound self.now }
    {
        self.contents.stream
    }

    /// When the member handles what comes for the moment: the first one, from that on, at which its
    /// process isn't paused. Where it is later, it is the end of a pause.
    pub fn awake(&self, member: MemberId, moment: Moment) -> Moment
        requires { member < member_count self.now }
        ensures value { result ≡ awake self.now member moment }
        ensures later { moment ≤ result }
        ensures small { moment ≤ 2 ^ 40 → result ≤ 2 ^ 40 }
        ensures put_off { moment < result → result ≤ 2 ^ 40 }
        ensures sound { IsSound self.now }
    {
        Moment(awake_at(
            &self.calendar,
            self.naps.as_slice(),
            member.index(),
            moment.ticks(),
        ))
    }

    /// The link of every pair of members whose groups no path names.
    pub fn link(&self) -> Link
        ensures value { result ≡ self.now.link }
        ensures sound { IsSound self.now }
    {
        self.contents.link
    }
}

/// The number of each member's group.
fn numbers_of(alloc: Global, groups: &[Group], members: usize) -> Result<Vec<usize>, Memory>
    ensures { IfOk result (λ numbers. numbers.items ≡ map (group_at (map group_of groups.now)) (range_with_len 0 members)) }
{
    let mut numbers = Vec::new(alloc);
    for member in 0..members {
        numbers.push(group_at(groups, member))?;
    }
    Ok(numbers)
}

/// The number of a member's group.
fn group_at(groups: &[Group], member: usize) -> usize
    ensures { result ≡ group_at (map group_of groups.now) member }
{
    let mut before = member as u64;
    for (number, group) in groups.iter().enumerate() {
        if before < group.count {
            return number;
        }
        before -= group.count;
    }
    groups.len()
}

/// When the members of the group of that number start; 0 where there is none.
fn start_at(groups: &[Group], number: usize) -> Moment
    ensures { result ≡ option_map_or (λ g. g.start) (slice_get (map group_of groups.now) number) 0 }
{
    match groups.get(number) {
        Some(group) => group.start,
        None => Moment(0),
    }
}

/// Whom the members of the group of that number ask to let them join.
fn contact_at(groups: &[Group], number: usize) -> Option<MemberId>
    ensures { result ≡ option_and_then (λ g. g.contact) (slice_get (map group_of groups.now) number) }
{
    match groups.get(number) {
        Some(group) => group.contact,
        None => None,
    }
}

/// When the member crashes, if it does.
fn crash_of(crashes: &[Crash], member: usize) -> Option<Moment>
    ensures { result ≡ option_map (λ c. c.at) (find (λ c. nat_eq c.member member) crashes.now) }
{
    crashes
        .iter()
        .find(|crash| crash.member.index() == member)
        .map(|crash| crash.at)
}

/// When the member leaves, if it does.
fn leave_of(leaves: &[Leave], member: usize) -> Option<Moment>
    ensures { result ≡ option_map (λ l. l.at) (find (λ l. nat_eq l.member member) leaves.now) }
{
    leaves
        .iter()
        .find(|leave| leave.member.index() == member)
        .map(|leave| leave.at)
}

/// By how many ticks the member is slow at the moment: in version 4 by the greatest extra that an entry says, before by the
/// only one.
fn extra_by(version: Version, slows: &[Slow], member: usize, at: u64) -> u64
    ensures { result ≡ extra_by version slows.now member at }
{
    match version {
        Version::One | Version::Two | Version::Three => extra_at(slows, member, at),
        Version::Four => greatest_extra(slows, member, at),
    }
}

/// The greatest extra that an entry says of the member at the moment.
fn greatest_extra(slows: &[Slow], member: usize, at: u64) -> u64
    ensures { result ≡ greatest_extra slows.now member at }
{
    let mut greatest = 0;
    for slow in slows {
        greatest = more_extra(slow, greatest, member, at);
    }
    greatest
}

/// The greater of the two: so many ticks, and what the entry says of the member at the moment, if it does.
fn more_extra(slow: &Slow, extra: u64, member: usize, at: u64) -> u64
    ensures { result ≡ more_extra member at slow.now extra }
{
    if is_slow(slow, member, at) {
        slow.extra.max(extra)
    } else {
        extra
    }
}

/// By how many ticks the first entry that says so makes the member slow at the moment.
fn extra_at(slows: &[Slow], member: usize, at: u64) -> u64
    ensures { result ≡ first_extra slows.now member at }
{
    match slow_at(slows, member, at) {
        Some(slow) => slow.extra,
        None => 0,
    }
}

/// The first entry that says that the member is slow at the moment.
fn slow_at(slows: &[Slow], member: usize, at: u64) -> Option<&Slow>
    ensures { option_copied result ≡ find (is_slow member at) slows.now }
{
    slows.iter().find(|slow| is_slow(slow, member, at))
}

/// Whether the entry says that the member is slow at the moment.
fn is_slow(slow: &Slow, member: usize, at: u64) -> bool
    ensures { result ≡ is_slow member at slow.now }
{
    slow.member.index() == member && slow.from.ticks() <= at && at < slow.until.ticks()
}

/// Whether the link from the one group to the other is cut at the moment.
fn is_any_cut(cuts: &[Cut], from: usize, to: usize, at: u64) -> bool
    ensures { result ≡ list_any (cuts_off from to at) cuts.now }
{
    cuts.iter().any(|cut| cuts_off(cut, from, to, at))
}

/// Whether the entry cuts the link from the one group to the other at the moment.
fn cuts_off(cut: &Cut, from: usize, to: usize, at: u64) -> bool
    ensures { result ≡ cuts_off from to at cut.now }
{
    cut.from == from && cut.to == to && cut.at.ticks() <= at && at < cut.until.ticks()
}

/// The first moment, from the given one on, at which the member isn't paused.
fn awake_at(calendar: &Calendar, naps: &[Spells], member: usize, moment: u64) -> u64
    requires { AreNoted calendar.now naps.now }
    ensures later { moment ≤ result }
    ensures before { (t : ℕ) → moment ≤ t → t < result → is_in_any (naps_at naps.now member) t ≡ true }
    ensures there { is_in_any (naps_at naps.now member) result ≡ false }
{
    match end_of_nap(calendar, naps, member, moment) {
        Some(end) => end,
        None => moment,
    }
}

/// The end of the time at the moment in which the member is paused.
fn end_of_nap(calendar: &Calendar, naps: &[Spells], member: usize, moment: u64) -> Option<u64>
    requires { AreNoted calendar.now naps.now }
    ensures end { IfSome result (IsEndFrom (naps_at naps.now member) moment) }
    ensures none { IfNone result (is_in_any (naps_at naps.now member) moment ≡ false) }
{
    let naps = naps.get(member)?;
    if !calendar.may_be_in(member, moment) {
        return None;
    }
    naps.end_from(moment)
}

/// The first moment, from the given one on, at which the member isn't blocked.
fn free_at(stops: &[Spells], member: usize, at: u64) -> u64
    ensures later { at ≤ result }
    ensures before { (t : ℕ) → at ≤ t → t < result → is_in_any (naps_at stops.now member) t ≡ true }
    ensures there { is_in_any (naps_at stops.now member) result ≡ false }
{
    match end_of_stop(stops, member, at) {
        Some(end) => end,
        None => at,
    }
}

/// The end of the time at the moment in which the member is blocked.
fn end_of_stop(stops: &[Spells], member: usize, at: u64) -> Option<u64>
    ensures end { IfSome result (IsEndFrom (naps_at stops.now member) at) }
    ensures none { IfNone result (is_in_any (naps_at stops.now member) at ≡ false) }
{
    let stops = stops.get(member)?;
    stops.end_from(at)
}

/// What happens to the member.
fn script_for(scripts: &[Script], member: usize) -> &[ScriptEvent]
    ensures { result.now ≡ script_at scripts.now member }
{
    match scripts.get(member) {
        Some(script) => script.events(),
        None => &[],
    }
}

/// The link of the last path from one group to another, else the link that is given.
fn last_link(link: Link, paths: &[Path], from: usize, to: usize) -> Link
    ensures { result ≡ last_link link (map (λ p. p.link) (filter (leads from to) paths.now)) }
{
    let mut last = link;
    for path in paths {
        if leads(path, from, to) {
            last = path.link;
        }
    }
    last
}

/// Whether the path is from the one group to the other.
fn leads(path: &Path, from: usize, to: usize) -> bool
    ensures { result ≡ leads from to path.now }
{
    path.from == from && path.to == to
}
