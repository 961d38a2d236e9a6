//! How a member leaves by memberlist 0.5.0's and Serf's rules: it tells others first, and goes on for a while.
ghost use Rattle.std.specs.Prelude.{◌≡◌, ◌≤◌, ◌<◌, ◌^◌};
ghost use Rattle.member.specs.Leaves.{exited, intent_sent, is_anybody_up, is_running, leave_begun, leave_gone_on, leave_intended, leave_told, left_said, left_sent, linger_of, lingered};
ghost use Rattle.member.specs.Makes.{KnowsMembers, Makes};
ghost use Rattle.member.specs.StateOf.{state_of};

use crate::event::Effects;
use crate::event_kind::EventKind;
use crate::here::Here;
use crate::member::{Member, Phase};
use crate::step_error::StepError;
use incarnation::{Claim, Update};
use lives::Leaving;
use scenario::Serf;
use trace::What;

impl Member {
    /// Whether anybody else is held to be up, or suspected.
    fn is_anybody_up(&self) -> bool
        ensures { result ≡ is_anybody_up (state_of self.now) }
    {
        self.table.live_count() > 1
    }

    /// Goes on for a while.
    fn linger(&mut self, effects: &mut Effects, here: &Here) -> Result<(), StepError>
        requires { KnowsMembers here.now self.old }
        ensures { Makes here.now result self.old effects.old self.new effects.new (lingered here.now.scenario.now here.now.key) }
    {
        self.life.leave(here.alloc, Leaving::Lingers)?;
        let ticks = linger_of(here.scenario.serf());
        self.set_timer(effects, here, ticks, EventKind::ExitTimer)
    }

    /// Tells others that it has left, if there are any.
    #[tactic(auto, unfolding(crate::specs::Leaves::left_said))]
    fn say_left(&mut self, effects: &mut Effects, here: &Here) -> Result<(), StepError>
        requires { KnowsMembers here.now self.old }
        ensures { Makes here.now result self.old effects.old self.new effects.new (left_said here.now.scenario.now here.now.key) }
    {
        let me = here.key.to;
        let number = self.incarnation;
        self.life.leave(here.alloc, Leaving::Says)?;
        self.write_row(effects, here, What::Left, Some(me), number, false)?;
        if !self.is_anybody_up() {
            return self.linger(effects, here);
        }
        let left = Update {
            subject: me,
            claim: Claim::Left,
            inc: number,
            accuser: me,
        };
        self.put(effects, here, left)
    }

    /// Tells others that it is about to leave.
    fn intend_leave(&mut self, effects: &mut Effects, here: &Here) -> Result<(), StepError>
        requires { KnowsMembers here.now self.old }
        ensures { Makes here.now result self.old effects.old self.new effects.new (leave_intended here.now.scenario.now here.now.key) }
    {
        let me = here.key.to;
        let intent = Update {
            subject: me,
            claim: Claim::Intent,
            inc: 0,
            accuser: me,
        };
        self.life.leave(here.alloc, Leaving::Intends)?;
        self.life.put_intent(here.alloc, intent)?;
        self.set_gossip(effects, here)
    }

    /// Tells others of the leave: with Serf first that it is about to leave, where there are any.
    fn tell_leave(&mut self, effects: &mut Effects, here: &Here) -> Result<(), StepError>
        requires { KnowsMembers here.now self.old }
        ensures { Makes here.now result self.old effects.old self.new effects.new (leave_told here.now.scenario.now here.now.key) }
    {
        if here.scenario.serf().is_some() && self.is_anybody_up() {
            return self.intend_leave(effects, here);
        }
        self.say_left(effects, here)
    }

    /// The member leaves, unless it leaves already.
    #[tactic(auto, unfolding(crate::specs::Leaves::leave_begun))]
    pub(crate) fn begin_leave(
        &mut self,
        effects: &mut Effects,
        here: &Here,
    ) -> Result<(), StepError>
        requires { KnowsMembers here.now self.old }
        ensures { Makes here.now result self.old effects.old self.new effects.new (leave_begun here.now.scenario.now here.now.key) }
    {
        if !self.life.leaving().stays() {
            return Ok(());
        }
        self.write_row(effects, here, What::Leave, None, 0, false)?;
        self.tell_leave(effects, here)
    }

    /// One that was about to leave says that it has left, once it has told that often enough.
    fn end_intent(&mut self, effects: &mut Effects, here: &Here) -> Result<(), StepError>
        requires { KnowsMembers here.now self.old }
        ensures { Makes here.now result self.old effects.old self.new effects.new (intent_sent here.now.scenario.now here.now.key) }
    {
        if self.life.leaving().intends() && !self.life.has_intent(here.key.to) {
            return self.say_left(effects, here);
        }
        Ok(())
    }

    /// One that said that it has left lingers, once it has told that often enough.
    fn end_saying(&mut self, effects: &mut Effects, here: &Here) -> Result<(), StepError>
        requires { KnowsMembers here.now self.old }
        ensures { Makes here.now result self.old effects.old self.new effects.new (left_sent here.now.scenario.now here.now.key) }
    {
        if self.life.leaving().says() && !self.holds_claim_of(here, here.key.to) {
            return self.linger(effects, here);
        }
        Ok(())
    }

    /// At the end of an event of a member that runs its leave goes on.
    #[tactic(auto, unfolding(crate::specs::Leaves::leave_gone_on))]
    pub(crate) fn go_on_leaving(
        &mut self,
        effects: &mut Effects,
        here: &Here,
    ) -> Result<(), StepError>
        requires { KnowsMembers here.now self.old }
        ensures { Makes here.now result self.old effects.old self.new effects.new (leave_gone_on here.now.scenario.now here.now.key) }
    {
        if !is_running(self.phase) {
            return Ok(());
        }
        self.end_intent(effects, here)?;
        self.end_saying(effects, here)
    }

    /// The member that has left ends.
    #[tactic(auto, unfolding(crate::specs::Leaves::exited))]
    pub(crate) fn exit(&mut self, effects: &mut Effects, here: &Here) -> Result<(), StepError>
        requires { KnowsMembers here.now self.old }
        ensures { Makes here.now result self.old effects.old self.new effects.new (exited here.now.key) }
    {
        self.write_row(effects, here, What::Exit, None, 0, false)?;
        self.phase = Phase::Down;
        Ok(())
    }
}

// How long a member goes on that has told others that it has left.
fn linger_of(serf: Option<Serf>) -> u64
    ensures { result ≡ linger_of serf }
{
    match serf {
        Some(serf) => serf.linger,
        None => 1,
    }
}

// Whether a member takes part.
fn is_running(phase: Phase) -> bool
    ensures { result ≡ is_running phase }
{
    phase == Phase::Running
}
