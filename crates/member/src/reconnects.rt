//! How a member tries to reach those that failed, by Serf's rule.
ghost use Rattle.std.specs.Prelude.{◌≡◌, ◌≤◌, ◌<◌, ◌^◌, All, length};
ghost use Rattle.member.specs.Reconnects.{any_tried, failed_dialed, failed_tried, next_try_set, one_dialed, reconnect_due};
ghost use Rattle.scenario.specs.Setup.{IsSoundSerf};
ghost use Rattle.member.specs.Makes.{IsMember, KnowsMembers, Makes};

use crate::connections::dial_done;
use crate::event::Effects;
use crate::event_kind::EventKind;
use crate::here::Here;
use crate::member::Member;
use crate::step_error::StepError;
use base::{MemberId, Moment};
use scenario::Serf;
use trace::What;

impl Member {
    /// Sets the timer of the next try, so long after this one is done.
    fn set_next_try(
        &mut self,
        effects: &mut Effects,
        here: &Here,
        serf: Serf,
        done: Moment,
    ) -> Result<(), StepError>
        requires sound { IsSoundSerf serf }
        requires soon { done ≤ 2 ^ 41 }
        requires known { KnowsMembers here.now self.old }
        ensures { Makes here.now result self.old effects.old self.new effects.new (next_try_set here.now.scenario.now here.now.key serf done) }
    {
        let next = Moment(done.ticks() + serf.reconnect);
        self.make_event(effects, here, next, here.key.to, EventKind::ReconnectTimer)
    }

    /// Opens a connection to a member that failed.
    #[tactic(auto, unfolding(crate::specs::Reconnects::failed_dialed))]
    fn dial_failed(
        &mut self,
        effects: &mut Effects,
        here: &Here,
        serf: Serf,
        to: MemberId,
    ) -> Result<(), StepError>
        requires sound { IsSoundSerf serf }
        requires to { IsMember here.now to }
        requires known { KnowsMembers here.now self.old }
        ensures { Makes here.now result self.old effects.old self.new effects.new (failed_dialed here.now.scenario.now here.now.key serf to) }
    {
        let there = self.draw_dial(here, to);
        self.tell_dial(effects, here, What::Reconnect, to, &there)?;
        let done = dial_done(here, there);
        self.set_next_try(effects, here, serf, done)
    }

    /// Tries one of those that failed, by chance.
    fn dial_one(
        &mut self,
        effects: &mut Effects,
        here: &Here,
        serf: Serf,
        failed: &[MemberId],
    ) -> Result<(), StepError>
        requires sound { IsSoundSerf serf }
        requires some { 0 < length failed.now }
        requires few { length failed.now ≤ 2 ^ 16 }
        requires members { All (IsMember here.now) failed.now }
        requires known { KnowsMembers here.now self.old }
        ensures { Makes here.now result self.old effects.old self.new effects.new (one_dialed here.now.scenario.now here.now.key serf failed.now) }
    {
        let place = self.stream.below(failed.len() as u32);
        let to = failed[place as usize];
        self.dial_failed(effects, here, serf, to)
    }

    /// Tries one of those that failed, or none, by chance.
    fn try_failed(
        &mut self,
        effects: &mut Effects,
        here: &Here,
        serf: Serf,
        failed: &[MemberId],
    ) -> Result<(), StepError>
        requires sound { IsSoundSerf serf }
        requires some { 0 < length failed.now }
        requires few { length failed.now ≤ 2 ^ 16 }
        requires members { All (IsMember here.now) failed.now }
        requires known { KnowsMembers here.now self.old }
        ensures { Makes here.now result self.old effects.old self.new effects.new (failed_tried here.now.scenario.now here.now.key serf failed.now) }
    {
        let chance = self.stream.below(self.table.live_count() as u32);
        if (chance as usize) < failed.len() {
            return self.dial_one(effects, here, serf, failed);
        }
        self.set_next_try(effects, here, serf, here.key.at)
    }

    /// Tries one of those that failed, if there are any.
    fn try_any(
        &mut self,
        effects: &mut Effects,
        here: &Here,
        serf: Serf,
        failed: &[MemberId],
    ) -> Result<(), StepError>
        requires sound { IsSoundSerf serf }
        requires few { length failed.now ≤ 2 ^ 16 }
        requires members { All (IsMember here.now) failed.now }
        requires known { KnowsMembers here.now self.old }
        ensures { Makes here.now result self.old effects.old self.new effects.new (any_tried here.now.scenario.now here.now.key serf failed.now) }
    {
        if failed.len() == 0 {
            return self.set_next_try(effects, here, serf, here.key.at);
        }
        self.try_failed(effects, here, serf, failed)
    }

    /// The time has come to try one of those that failed, where there is Serf.
    #[tactic(auto, unfolding(crate::specs::Reconnects::reconnect_due))]
    pub(crate) fn end_reconnect(
        &mut self,
        effects: &mut Effects,
        here: &Here,
    ) -> Result<(), StepError>
        requires { KnowsMembers here.now self.old }
        ensures { Makes here.now result self.old effects.old self.new effects.new (reconnect_due here.now.scenario.now here.now.key here.now.scenario.now.serf) }
    {
        let settings = here.scenario.serf();
        let Some(serf) = settings else {
            return Ok(());
        };
        self.life.reap(here.key.at, serf.reap);
        let failed = self.life.failed(here.alloc, here.scenario.members())?;
        self.try_any(effects, here, serf, &failed)
    }
}
