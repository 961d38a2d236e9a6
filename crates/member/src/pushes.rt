//! Push and pull by memberlist's rules: two members exchange whole tables, and a death in the other's table is only
//! suspected; a push comes more seldom for each doubling of more than 32 members.
ghost use Rattle.std.specs.Prelude.{◌≡◌, ◌≤◌, ◌<◌, ◌^◌, All};
ghost use Rattle.links.specs.Trips.{kept_arrival_of};
ghost use Rattle.scenario.specs.Profile.{profile_of};
ghost use Rattle.membership.specs.Table.{size_by};
ghost use Rattle.member.specs.declared.announce.Announce.TheVariants.{Aloud};
ghost use Rattle.member.specs.Makes.{AreAboutMembers, Draws, IsMember, KnowsMembers, Makes};
ghost use Rattle.member.specs.Blocks.{on_its_way};
ghost use Rattle.member.specs.Effects.{with_timer};
ghost use Rattle.member.specs.Send.{sent_to_each, push_sent, pull_sent};
ghost use Rattle.member.specs.Apply.{applied};
ghost use Rattle.member.specs.Step.{doublings_to, push_period, push_begun, push_begun_by, first_push_set, merged_claim, merged, pushed, push_due, push_heard};
ghost use Rattle.member.specs.StateOf.{state_of};

use crate::announce::Announce;
use crate::blocks::{departs_by, got_through_by};
use crate::event::Effects;
use crate::event_kind::EventKind;
use crate::here::Here;
use crate::member::Member;
use crate::news::is_alive;
use crate::step_error::StepError;
use base::{MemberId, Moment, Profile};
use incarnation::{Claim, Update};
use membership::Fitting;
use trace::What;

/// The exchange of all that two members know, by memberlist's rules.
impl Member {
    /// When what a stream carries comes to a member, if it does.
    fn kept_arrival(&mut self, here: &Here, to: MemberId) -> Option<Moment>
        requires to { IsMember here.now to }
        requires known { KnowsMembers here.now self.old }
        ensures drawn { Draws result self.old self.new (on_its_way (profile_of here.now.scenario.now) here.now.scenario.now here.now.key to (kept_arrival_of here.now.scenario.now here.now.key.to to) (state_of self.old).words) }
        ensures kept { KnowsMembers here.now self.new }
    {
        let departs = departs_by(here);
        let arrival = here
            .links
            .kept_arrival(here.key.to, to, departs, &mut self.stream);
        got_through_by(here, to, arrival)
    }

    /// Sends all that is known, and oneself.
    #[tactic(auto, unfolding(crate::specs::Send::push_sent, crate::specs::Send::posted))]
    pub(crate) fn send_push(
        &mut self,
        effects: &mut Effects,
        here: &Here,
        to: MemberId,
    ) -> Result<(), StepError>
        requires to { IsMember here.now to }
        requires known { KnowsMembers here.now self.old }
        ensures { Makes here.now result self.old effects.old self.new effects.new (push_sent here.now.scenario.now here.now.key to) }
    {
        let entries = self.whole_by(here)?;
        let arrival = self.kept_arrival(here, to);
        self.post(
            effects,
            here,
            What::Push,
            to,
            0,
            EventKind::Push { entries },
            arrival,
        )
    }

    /// Answers a push by the same.
    #[tactic(auto, unfolding(crate::specs::Send::pull_sent, crate::specs::Send::posted))]
    pub(crate) fn send_pull(
        &mut self,
        effects: &mut Effects,
        here: &Here,
        to: MemberId,
    ) -> Result<(), StepError>
        requires to { IsMember here.now to }
        requires known { KnowsMembers here.now self.old }
        ensures { Makes here.now result self.old effects.old self.new effects.new (pull_sent here.now.scenario.now here.now.key to) }
    {
        let entries = self.whole_by(here)?;
        let arrival = self.kept_arrival(here, to);
        self.post(
            effects,
            here,
            What::Pull,
            to,
            0,
            EventKind::Pull { entries },
            arrival,
        )
    }

    /// Sends all that is known to members, one after another.
    fn push_to(
        &mut self,
        effects: &mut Effects,
        here: &Here,
        them: &[MemberId],
    ) -> Result<(), StepError>
        requires known { KnowsMembers here.now self.old }
        requires members { All (IsMember here.now) them.now }
        ensures { Makes here.now result self.old effects.old self.new effects.new (sent_to_each (push_sent here.now.scenario.now here.now.key) them.now) }
    {
        for to in them {
            self.send_push(effects, here, *to)?;
        }
        Ok(())
    }

    /// How often all that is known is pushed, in ticks: as the setting says, and one period longer for
    /// each doubling of more than 32 members.
    pub(crate) fn push_period(&self, here: &Here, push: u64) -> u64
        requires known { KnowsMembers here.now self.now }
        requires short { push ≤ 2 ^ 24 }
        ensures value { result ≡ push_period push (size_by (profile_of here.now.scenario.now) self.now.table) }
        ensures some { 0 < push → 0 < result }
        ensures soon { result ≤ 2 ^ 28 }
    {
        push * (1 + doublings_to(self.live_members(here)))
    }

    /// Sets the first push timer: a push period, and a part of the setting that chance decides, after the
    /// beat of the periods.
    #[tactic(auto, unfolding(crate::specs::Step::push_begun))]
    fn begin_push(
        &mut self,
        effects: &mut Effects,
        here: &Here,
        beat: Moment,
        push: u64,
    ) -> Result<(), StepError>
        requires early { beat ≤ 2 ^ 41 }
        requires some { 0 < push }
        requires short { push ≤ 2 ^ 24 }
        requires known { KnowsMembers here.now self.old }
        ensures { Makes here.now result self.old effects.old self.new effects.new (push_begun here.now.scenario.now here.now.key beat push) }
    {
        let wait = u64::from(self.stream.below(push as u32));
        let at = Moment(beat.ticks() + wait + self.push_period(here, push));
        self.make_event(effects, here, at, here.key.to, EventKind::PushTimer)
    }

    /// Sets the first push timer by the rules of the profile.
    fn begin_push_by(
        &mut self,
        effects: &mut Effects,
        here: &Here,
        beat: Moment,
        push: u64,
    ) -> Result<(), StepError>
        requires early { beat ≤ 2 ^ 41 }
        requires some { 0 < push }
        requires short { push ≤ 2 ^ 24 }
        requires known { KnowsMembers here.now self.old }
        ensures { Makes here.now result self.old effects.old self.new effects.new (push_begun_by (profile_of here.now.scenario.now) here.now.scenario.now here.now.key beat push) }
    {
        match here.scenario.profile() {
            Profile::Papers | Profile::Memberlist => self.begin_push(effects, here, beat, push),
            Profile::Hashicorp => self.begin_even_push(effects, here, beat, push),
        }
    }

    /// Sets the first push timer after the beat of the periods, where members push.
    pub(crate) fn set_first_push(
        &mut self,
        effects: &mut Effects,
        here: &Here,
        beat: Moment,
    ) -> Result<(), StepError>
        requires early { beat ≤ 2 ^ 41 }
        requires known { KnowsMembers here.now self.old }
        ensures { Makes here.now result self.old effects.old self.new effects.new (first_push_set here.now.scenario.now here.now.key beat here.now.scenario.now.gossip) }
    {
        let settings = here.scenario.gossip();
        let Some(gossip) = settings else {
            return Ok(());
        };
        if gossip.push == 0 {
            return Ok(());
        }
        self.begin_push_by(effects, here, beat, gossip.push)
    }

    /// Sends all that is known to one who is chosen, and again after a push period.
    #[tactic(auto, unfolding(crate::specs::Step::pushed))]
    fn push(&mut self, effects: &mut Effects, here: &Here, push: u64) -> Result<(), StepError>
        requires short { push ≤ 2 ^ 24 }
        requires known { KnowsMembers here.now self.old }
        ensures { Makes here.now result self.old effects.old self.new effects.new (pushed here.now.scenario.now here.now.key push) }
    {
        let period = self.push_period(here, push);
        let them = self.draw_sample(here, &Fitting::AliveBut(here.key.to), 1)?;
        self.push_on(effects, here, period, &them)
    }

    /// Sets the next push timer, and sends members all that is known.
    fn push_on(
        &mut self,
        effects: &mut Effects,
        here: &Here,
        period: u64,
        them: &[MemberId],
    ) -> Result<(), StepError>
        requires ticks_within { period ≤ 2 ^ 41 }
        requires known { KnowsMembers here.now self.old }
        requires members { All (IsMember here.now) them.now }
        ensures { Makes here.now result self.old effects.old self.new effects.new (λ o. sent_to_each (push_sent here.now.scenario.now here.now.key) them.now (with_timer here.now.scenario.now here.now.key period EventKind.PushTimer o)) }
    {
        self.set_timer(effects, here, period, EventKind::PushTimer)?;
        self.push_to(effects, here, them)
    }

    /// The push timer is due, where members push.
    pub(crate) fn end_push(&mut self, effects: &mut Effects, here: &Here) -> Result<(), StepError>
        requires { KnowsMembers here.now self.old }
        ensures { Makes here.now result self.old effects.old self.new effects.new (push_due here.now.scenario.now here.now.key here.now.scenario.now.gossip) }
    {
        let settings = here.scenario.gossip();
        let Some(gossip) = settings else {
            return Ok(());
        };
        if gossip.push == 0 {
            return Ok(());
        }
        self.push(effects, here, gossip.push)
    }

    /// Heeds all that another knows.
    #[tactic(auto, unfolding(crate::specs::Step::merged))]
    pub(crate) fn merge(
        &mut self,
        effects: &mut Effects,
        here: &Here,
        entries: &[Update],
    ) -> Result<(), StepError>
        requires known { KnowsMembers here.now self.old }
        requires members { AreAboutMembers here.now entries.now }
        ensures { Makes here.now result self.old effects.old self.new effects.new (merged here.now.scenario.now here.now.key entries.now) }
    {
        for entry in entries {
            self.apply_merged(effects, here, entry)?;
        }
        Ok(())
    }

    /// Applies what is made of an entry of another's table.
    fn apply_merged(
        &mut self,
        effects: &mut Effects,
        here: &Here,
        entry: &Update,
    ) -> Result<(), StepError>
        requires known { KnowsMembers here.now self.old }
        requires member { IsMember here.now entry.now.subject }
        ensures { Makes here.now result self.old effects.old self.new effects.new (applied here.now.scenario.now Aloud here.now.key (merged_claim here.now.key.to entry.now)) }
    {
        let claim = merged_claim(here.key.to, entry);
        self.apply(effects, here, Announce::Aloud, &claim)
    }

    /// A push is answered by all that one knows, and then heeded.
    #[tactic(auto, unfolding(crate::specs::Step::push_heard))]
    pub(crate) fn hear_push(
        &mut self,
        effects: &mut Effects,
        here: &Here,
        entries: &[Update],
    ) -> Result<(), StepError>
        requires known { KnowsMembers here.now self.old }
        requires members { AreAboutMembers here.now entries.now }
        ensures { Makes here.now result self.old effects.old self.new effects.new (push_heard here.now.scenario.now here.now.key entries.now) }
    {
        self.send_pull(effects, here, here.key.from)?;
        self.merge(effects, here, entries)
    }
}

// What a member makes of an entry of another's table: a death is not believed, it is suspected.
fn merged_claim(me: MemberId, entry: &Update) -> Update
    ensures value { result ≡ merged_claim me entry.now }
    ensures subject { result.subject ≡ entry.now.subject }
{
    if is_alive(entry.claim) {
        return *entry;
    }
    Update {
        subject: entry.subject,
        claim: Claim::Suspect,
        inc: entry.inc,
        accuser: me,
    }
}

// How many doublings bring 32 to a number of members, if it is more.
fn doublings_to(members: u32) -> u64
    requires { members ≤ 16384 }
    ensures value { result ≡ doublings_to members }
    ensures few { result ≤ 9 }
{
    let mut reached = 32u32;
    let mut doublings = 0u64;
    while reached < members {
        reached *= 2;
        doublings += 1;
    }
    doublings
}
