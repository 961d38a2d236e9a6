//! A member leaves the cluster for good: one that runs says bye to some others, one that still joins sends nothing.
ghost use Rattle.std.specs.Prelude.{◌<◌, All};
ghost use Rattle.member.specs.Makes.{IsMember, KnowsMembers, Makes};
ghost use Rattle.member.specs.Send.{sent_to_each, bye_sent};
ghost use Rattle.member.specs.Step.{withdrawn, byes_said, departed};

use crate::event::Effects;
use crate::here::Here;
use crate::member::{Member, Phase};
use crate::step_error::StepError;
use base::MemberId;
use trace::What;

impl Member {
    /// A member that joins leaves, for good. It sends no message.
    #[tactic(auto, unfolding(crate::specs::Step::withdrawn))]
    pub(crate) fn withdraw(&mut self, effects: &mut Effects, here: &Here) -> Result<(), StepError>
        requires { KnowsMembers here.now self.old }
        ensures { Makes here.now result self.old effects.old self.new effects.new (withdrawn here.now.key) }
    {
        self.write_row(effects, here, What::Leave, None, 0, false)?;
        self.phase = Phase::Down;
        Ok(())
    }

    /// Says bye to members, one after another.
    fn send_byes(
        &mut self,
        effects: &mut Effects,
        here: &Here,
        others: &[MemberId],
    ) -> Result<(), StepError>
        requires known { KnowsMembers here.now self.old }
        requires members { All (IsMember here.now) others.now }
        ensures { Makes here.now result self.old effects.old self.new effects.new (sent_to_each (bye_sent here.now.scenario.now here.now.key) others.now) }
    {
        for other in others {
            self.send_bye(effects, here, *other)?;
        }
        Ok(())
    }

    /// Says bye to members that are held to be alive: as many as help with a probe, but one at least.
    #[tactic(auto, unfolding(crate::specs::Step::byes_said))]
    fn say_byes(&mut self, effects: &mut Effects, here: &Here) -> Result<(), StepError>
        requires { KnowsMembers here.now self.old }
        ensures { Makes here.now result self.old effects.old self.new effects.new (byes_said here.now.scenario.now here.now.key) }
    {
        let count = here.scenario.swim().helpers.max(1);
        let others = self.draw_helpers(here, here.key.to, count)?;
        self.send_byes(effects, here, &others)
    }

    /// A member that runs says bye, and leaves for good.
    #[tactic(auto, unfolding(crate::specs::Step::departed))]
    pub(crate) fn depart(&mut self, effects: &mut Effects, here: &Here) -> Result<(), StepError>
        requires { KnowsMembers here.now self.old }
        ensures { Makes here.now result self.old effects.old self.new effects.new (departed here.now.scenario.now here.now.key) }
    {
        self.write_row(effects, here, What::Leave, None, 0, false)?;
        self.say_byes(effects, here)?;
        self.phase = Phase::Down;
        Ok(())
    }
}
