//! When a message arrives, or that it is lost: the link's delay, loss and jitter, cuts, and slow senders and
//! receivers.
ghost use Rattle.std.specs.Prelude.{◌≡◌, ℕ, false, ◌+◌, ◌^◌, ◌<◌, ◌≤◌, ◌↔◌, [], length, map, None, IfOk, IfSome, unwrap_or};
ghost use Rattle.std.specs.Option.{option_copied};
ghost use Rattle.std.specs.List.{range_with_len};
ghost use Rattle.streams.specs.Draw.{words_of};
ghost use Rattle.scenario.specs.Setup.{Setup, member_count, group_at, link_between, IsSoundLink};
ghost use Rattle.links.specs.Arrival.{arrival_of, AreLinksOf};
ghost use Rattle.links.specs.Entries.{link_of_pair, route, pair_of, outages_of_pair};
ghost use Rattle.links.specs.Table.{link_at, extra_at, is_cut_at};
ghost use Rattle.links.specs.Least.{IsDelayOfAPair, IsNoGreater};

use crate::least::least_delay;
use crate::outages::{calendar_of_cuts, number_of_pair, outages_of};
use crate::routes::routes_of;
use crate::spans::{calendar_of_slows, times_of};
use crate::table::Links;
use base::{MemberId, Memory, Moment};
use scenario::{Link, Scenario, Spells};
use std::alloc::Global;
use streams::Stream;

impl Links {
    /// The links of a scenario, or `Memory` where it was refused. No other call takes memory.
    pub fn of(alloc: Global, scenario: &Scenario) -> Result<Self, Memory>
        ensures { IfOk result (λ links. AreLinksOf links scenario.now) }
    {
        let stream = scenario.stream();
        let end = scenario.end();
        Ok(Links {
            groups: groups_of(alloc, scenario)?,
            link: scenario.link(),
            routes: routes_of(alloc, scenario.paths())?,
            spans: times_of(alloc, scenario)?,
            outages: outages_of(alloc, scenario.cuts())?,
            slow_calendar: calendar_of_slows(alloc, end, scenario.slows())?,
            cut_calendar: calendar_of_cuts(alloc, end, scenario.cuts())?,
            connect: stream.connect,
            again: stream.again,
        })
    }

    /// When a message that one member sends to another now arrives, or None where it is lost. Where the
    /// link is cut nothing is drawn; else a loss is drawn first, and then the jitter.
    pub fn arrival(
        &self,
        from: MemberId,
        to: MemberId,
        now: Moment,
        stream: &mut Stream,
    ) -> Option<Moment>
        requires { now ≤ 2 ^ 40 }
        ensures drawn { (s : Setup) → AreLinksOf self.now s → from < member_count s → to < member_count s
            → (result, words_of stream.new) ≡ arrival_of s from to now (words_of stream.old) }
        ensures later { (s : Setup) → AreLinksOf self.now s → from < member_count s → to < member_count s
            → IfSome result (λ at. now + (link_between s from to).delay ≤ at) }
        ensures soon { IfSome result (λ at. at < 2 ^ 42) }
    {
        let there = self.try_once(from, to, now, stream)?;
        Some(self.comes(from, to, now, there))
    }

    /// The least delay of a link from a member to another one, in ticks; None where there is but one
    /// member. It goes over the pairs of groups.
    pub fn least_delay(&self) -> Option<u64>
        ensures reached { (s : Setup) → AreLinksOf self.now s
            → IfSome result (IsDelayOfAPair (λ i j. (link_between s i j).delay) (member_count s)) }
        ensures least { (s : Setup) → AreLinksOf self.now s
            → IfSome result (IsNoGreater (λ i j. (link_between s i j).delay) (member_count s)) }
        ensures alone { (s : Setup) → AreLinksOf self.now s → (result ≡ None ↔ member_count s ≡ 1) }
    {
        least_delay(self)
    }

    /// The delay of the link from one member to another, in ticks: the least time of a message on that
    /// way, without what jitter adds.
    pub fn delay(&self, from: MemberId, to: MemberId) -> u64
        ensures value { (s : Setup) → AreLinksOf self.now s → from < member_count s → to < member_count s
            → result ≡ (link_between s from to).delay }
        ensures bounded { (0 < result) × (result ≤ 2 ^ 20) }
    {
        self.link_between(from.index(), to.index()).delay
    }

    /// The link from one member to another.
    pub(crate) fn link_between(&self, from: usize, to: usize) -> Link
        ensures value { result ≡ link_at self.now from to }
        ensures sound { IsSoundLink result }
    {
        match self.route(from, to) {
            Some(link) => *link,
            None => self.link,
        }
    }

    /// The link of the last path from one member's group to the other's.
    fn route(&self, from: usize, to: usize) -> Option<&Link>
        ensures { (link : _) → unwrap_or (option_copied result) link ≡ link_of_pair self.now.groups.items link (route self.now.routes) from to }
    {
        let from = self.groups.get(from)?;
        let to = self.groups.get(to)?;
        self.routes.link(*from, *to)
    }

    /// Whether the link from one member to another is cut at a moment.
    pub(crate) fn is_cut(&self, from: usize, to: usize, at: u64) -> bool
        ensures { result ≡ is_cut_at self.now from to at }
    {
        if self.outages.is_empty() {
            return false;
        }
        if !self.may_be_cut(from, to, at) {
            return false;
        }
        match self.outages(from, to) {
            Some(outages) => outages.covers(at),
            None => false,
        }
    }

    /// Whether the calendar has a cut that may be of the link from one member to another at a moment.
    fn may_be_cut(&self, from: usize, to: usize, at: u64) -> bool
        ensures { result ≡ false → is_cut_at self.now from to at ≡ false }
    {
        match self.pair(from, to) {
            Some(pair) => self.cut_calendar.may_be_in(pair, at),
            None => false,
        }
    }

    /// The number of two members' groups in the calendar of cuts.
    fn pair(&self, from: usize, to: usize) -> Option<usize>
        ensures { result ≡ pair_of self.now.groups.items from to }
    {
        let from = self.groups.get(from)?;
        let to = self.groups.get(to)?;
        Some(number_of_pair(*from, *to))
    }

    /// The times in which the link from one member's group to the other's is cut.
    fn outages(&self, from: usize, to: usize) -> Option<&Spells>
        ensures { unwrap_or (option_copied result) [] ≡ outages_of_pair self.now.groups.items self.now.outages.entries from to }
    {
        let from = self.groups.get(from)?;
        let to = self.groups.get(to)?;
        self.outages.get(&(*from, *to))
    }

    /// By how many ticks a member is slow at a moment.
    pub(crate) fn extra(&self, member: MemberId, at: u64) -> u64
        ensures value { result ≡ extra_at self.now member at }
        ensures extra_fits { result ≤ 2 ^ 24 }
    {
        if self.spans.is_empty() {
            return 0;
        }
        if !self.slow_calendar.may_be_in(member.index(), at) {
            return 0;
        }
        match self.spans.get(member.index()) {
            Some(times) => times.extra(at),
            None => 0,
        }
    }
}

/// The number of each member's group.
fn groups_of(alloc: Global, scenario: &Scenario) -> Result<Vec<usize>, Memory>
    ensures { IfOk result (λ groups. groups.items ≡ map (group_at scenario.now.groups) (range_with_len 0 (member_count scenario.now))) }
{
    let mut groups = Vec::new(alloc);
    for member in 0..scenario.members() {
        groups.push(scenario.group_number(MemberId(member as u16)))?;
    }
    Ok(groups)
}
