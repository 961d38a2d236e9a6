//! How a suspicion ends in a death: its time is over, and the member confirms the suspected one (SWIM, section 4.2).
ghost use Rattle.std.specs.FinMap.{get};
ghost use Rattle.member.specs.Makes.{KnowsMembers, Makes};
ghost use Rattle.member.specs.Step.{confirmed, suspicion_over};
ghost use Rattle.member.specs.StateOf.{state_of};

use crate::announce::Announce;
use crate::event::Effects;
use crate::here::Here;
use crate::member::Member;
use crate::step_error::StepError;
use base::MemberId;
use incarnation::{Claim, Update};

impl Member {
    /// Confirms a member at the number at which the table holds it.
    pub(crate) fn confirm(
        &mut self,
        effects: &mut Effects,
        here: &Here,
        subject: MemberId,
    ) -> Result<(), StepError>
        requires { KnowsMembers here.now self.old }
        ensures { Makes here.now result self.old effects.old self.new effects.new (confirmed here.now.scenario.now here.now.key subject (get (state_of self.old).table subject)) }
    {
        let Some(held) = self.table.get(subject) else {
            return Ok(());
        };
        let claim = Update {
            subject,
            claim: Claim::Confirm,
            inc: held.1,
            accuser: here.key.to,
        };
        self.apply(effects, here, Announce::Aloud, &claim)
    }

    /// The time of a suspicion is over, unless the timer is an older one (SWIM, section 4.2).
    #[tactic(auto, unfolding(crate::specs::Step::suspicion_over))]
    pub(crate) fn end_suspicion(
        &mut self,
        effects: &mut Effects,
        here: &Here,
        subject: MemberId,
    ) -> Result<(), StepError>
        requires { KnowsMembers here.now self.old }
        ensures { Makes here.now result self.old effects.old self.new effects.new (suspicion_over here.now.scenario.now here.now.key subject) }
    {
        if self.suspicions.due(subject, here.key.number) {
            self.confirm(effects, here, subject)
        } else {
            Ok(())
        }
    }
}
