//! A run, as its page shows it.
ghost use Rattle.std.specs.Prelude.{◌≡◌, ◌+◌, ◌-◌, ◌*◌, ◌/◌, ◌<◌, ◌≤◌, ◌^◌, max, IfOk, IfSome, length};
ghost use Rattle.scenario.specs.Setup.{member_count};
ghost use Rattle.series.specs.Spans.{span_width, span_count};
ghost use Rattle.series.specs.Stories.{IsStoryOf};
ghost use Rattle.member_timelines.specs.Lanes.{held_heights};
ghost use Rattle.member_timelines.specs.Told.{first_confirm, first_departure, last_refute};

use crate::counts::heights;
use crate::told::first_of;
use base::{MemberId, Memory, Moment};
use reports::Tallies;
use scenario::Scenario;
use series::{Series, Story, TraceLine};
use std::alloc::Global;
use ticks::Tick;

/// A run, as its page shows it.
#[derive(Clone, Copy)]
pub struct Run<'a> {
    /// What the scenario is called, as its file's name.
    pub name: &'a str,
    /// Which program ran it.
    pub release: &'a str,
    pub scenario: &'a Scenario,
    /// What was gathered of its rows.
    pub series: &'a Series,
    /// What was tallied of them.
    pub tallies: &'a Tallies,
    /// How long a tick lasts, where that is known.
    pub tick: Option<Tick>,
}

impl<'a> Run<'a> {
    ghost use Rattle.member_timelines.specs.Run.{IsTold};

    /// How many members there are.
    pub fn members(&self) -> usize
        requires told { IsTold self.now }
        ensures count { result ≡ member_count self.now.scenario.now }
        ensures few { result ≤ 16384 }
    {
        self.scenario.members()
    }

    /// How many others each member has, or 1 where it is alone.
    pub fn others(&self) -> u64
        requires told { IsTold self.now }
        ensures value { result ≡ max (member_count self.now.scenario.now - 1) 1 }
        ensures some { 1 ≤ result }
        ensures few { result ≤ 16384 }
    {
        (self.members() as u64).saturating_sub(1).max(1)
    }

    /// The last moment, in ticks.
    pub fn end(&self) -> u64
        ensures value { result ≡ self.now.scenario.now.end }
        ensures small { result ≤ 2 ^ 40 }
    {
        self.scenario.end().ticks()
    }

    /// When a member first departs, where it does by the end: what comes later never happens.
    pub(crate) fn first_departure(&self, member: MemberId) -> Option<Moment>
        requires { member < member_count self.now.scenario.now }
        ensures { result ≡ first_departure self.now.scenario.now member }
    {
        first_of(self.scenario.script(member), self.end())
    }

    /// How long each span is, in ticks.
    pub fn width(&self) -> u64
        requires told { IsTold self.now }
        ensures value { result ≡ span_width self.now.scenario.now }
        ensures wide { 0 < result }
        ensures small { result ≤ 2 ^ 40 }
    {
        // the end is at most 2^40
        let _ = self.end();
        self.series.spans().width()
    }

    /// The middle of a span.
    pub fn middle(&self, span: usize) -> u64
        requires told { IsTold self.now }
        requires few { span < 120 }
        ensures { result ≡ span * span_width self.now.scenario.now + span_width self.now.scenario.now / 2 }
    {
        let width = self.width();
        span as u64 * width + width / 2
    }

    /// How many spans there are.
    pub fn spans(&self) -> usize
        requires told { IsTold self.now }
        ensures value { result ≡ span_count self.now.scenario.now }
        ensures few { result ≤ 120 }
    {
        let count = self.end() / self.width() + 1;
        count as usize
    }

    /// The story of a member.
    pub fn story(&self, member: MemberId) -> &'a Story
        requires told { IsTold self.now }
        requires within { member < member_count self.now.scenario.now }
        ensures { IsStoryOf self.now.scenario.now member result.now self.now.tallies.now }
    {
        let stories = self.series.stories();
        let place = member.index();
        &stories[place]
    }

    /// The first row that confirms that the member failed.
    pub fn first_confirm(&self, member: MemberId) -> Option<TraceLine>
        requires told { IsTold self.now }
        requires within { member < member_count self.now.scenario.now }
        ensures value { result ≡ first_confirm self.now.tallies.now member }
        ensures named { IfSome result (λ line. line.member < member_count self.now.scenario.now) }
    {
        self.story(member).first_confirm()
    }

    /// The last row by which the member refuted what was said of it.
    pub fn last_refute(&self, member: MemberId) -> Option<TraceLine>
        requires told { IsTold self.now }
        requires within { member < member_count self.now.scenario.now }
        ensures { result ≡ last_refute self.now.tallies.now member }
    {
        self.story(member).last_refute()
    }

    /// So high a lane's spans are for a state in which others hold the member.
    pub fn held(&self, alloc: Global, member: MemberId, state: usize) -> Result<Vec<u64>, Memory>
        requires told { IsTold self.now }
        requires within { member < member_count self.now.scenario.now }
        requires state { state < 3 }
        ensures all { IfOk result (λ list. length list.items ≡ span_count self.now.scenario.now) }
        ensures value { IfOk result (λ list. list.items ≡ held_heights self.now.scenario.now self.now.tallies.now member state) }
    {
        let claims = self.story(member).claims();
        heights(alloc, claims, state, self.spans(), 0, self.others())
    }
}
