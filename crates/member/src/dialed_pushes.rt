//! Pushes over connections by memberlist 0.5.0's rules: the next one comes a push period after the end of the last.
ghost use Rattle.std.specs.Prelude.{◌≡◌, ◌≤◌, ◌<◌, ◌^◌, All};
ghost use Rattle.member.specs.DialedPushes.{dialed_push, dialed_push_due, push_opened, push_opened_to};
ghost use Rattle.member.specs.Makes.{IsMember, KnowsMembers, Makes};

use crate::connections::dial_done;
use crate::event::Effects;
use crate::event_kind::EventKind;
use crate::here::Here;
use crate::member::Member;
use crate::step_error::StepError;
use base::{MemberId, Moment};
use membership::Fitting;

impl Member {
    /// Opens a connection for a push to a member, and pushes again so long after that is done.
    #[tactic(auto, unfolding(crate::specs::DialedPushes::push_opened))]
    fn open_push(
        &mut self,
        effects: &mut Effects,
        here: &Here,
        period: u64,
        to: MemberId,
    ) -> Result<(), StepError>
        requires short { period ≤ 2 ^ 28 }
        requires to { IsMember here.now to }
        requires known { KnowsMembers here.now self.old }
        ensures { Makes here.now result self.old effects.old self.new effects.new (push_opened here.now.scenario.now here.now.key period to) }
    {
        let there = self.draw_dial(here, to);
        self.tell_push_dial(effects, here, to, &there)?;
        let done = dial_done(here, there);
        let next = Moment(done.ticks() + period);
        self.make_event(effects, here, next, here.key.to, EventKind::PushTimer)
    }

    /// The same to the first of those who are chosen. Where nobody is, the next push comes so long after now.
    fn open_push_to(
        &mut self,
        effects: &mut Effects,
        here: &Here,
        period: u64,
        them: &[MemberId],
    ) -> Result<(), StepError>
        requires short { period ≤ 2 ^ 28 }
        requires members { All (IsMember here.now) them.now }
        requires known { KnowsMembers here.now self.old }
        ensures { Makes here.now result self.old effects.old self.new effects.new (push_opened_to here.now.scenario.now here.now.key period them.now) }
    {
        if them.len() == 0 {
            return self.set_timer(effects, here, period, EventKind::PushTimer);
        }
        self.open_push(effects, here, period, them[0])
    }

    /// Opens a connection for a push to one who is held to be up.
    #[tactic(auto, unfolding(crate::specs::DialedPushes::dialed_push))]
    fn dial_push(&mut self, effects: &mut Effects, here: &Here, push: u64) -> Result<(), StepError>
        requires short { push ≤ 2 ^ 24 }
        requires known { KnowsMembers here.now self.old }
        ensures { Makes here.now result self.old effects.old self.new effects.new (dialed_push here.now.scenario.now here.now.key push) }
    {
        let period = self.push_period(here, push);
        let them = self.draw_sample(here, &Fitting::AliveBut(here.key.to), 1)?;
        self.open_push_to(effects, here, period, &them)
    }

    /// The push timer is due, where members push.
    pub(crate) fn end_dialed_push(
        &mut self,
        effects: &mut Effects,
        here: &Here,
    ) -> Result<(), StepError>
        requires { KnowsMembers here.now self.old }
        ensures { Makes here.now result self.old effects.old self.new effects.new (dialed_push_due here.now.scenario.now here.now.key here.now.scenario.now.gossip) }
    {
        let settings = here.scenario.gossip();
        let Some(gossip) = settings else {
            return Ok(());
        };
        if gossip.push == 0 {
            return Ok(());
        }
        self.dial_push(effects, here, gossip.push)
    }
}
