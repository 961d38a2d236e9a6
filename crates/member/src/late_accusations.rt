//! A further accuser by memberlist 0.5.0's rules: where the time of the suspicion is up by now, the suspect is confirmed at
//! once.
ghost use Rattle.std.specs.Prelude.{◌≡◌, ◌≢◌, ◌<◌};
ghost use Rattle.scenario.specs.Profile.{profile_of};
ghost use Rattle.member.specs.Makes.{IsMember, KnowsMembers, Makes};
ghost use Rattle.member.specs.LateAccusations.{accused_confirmed, accusation_answered, prompt_accusation_heard, accusation_by};

use crate::announce::Announce;
use crate::event::Effects;
use crate::here::Here;
use crate::member::Member;
use crate::step_error::StepError;
use base::Profile;
use incarnation::{Claim, Update};
use suspicion::Accused;
use trace::What;

impl Member {
    /// Tells of an accusation that counts and passes it on, and confirms the suspect, who is held so at this number.
    fn confirm_accused(
        &mut self,
        effects: &mut Effects,
        here: &Here,
        telling: Announce,
        update: &Update,
        number: u64,
        accused: Accused,
    ) -> Result<(), StepError>
        requires known { KnowsMembers here.now self.old }
        requires member { IsMember here.now update.now.subject }
        requires other { update.now.subject ≢ here.now.key.to }
        ensures { Makes here.now result self.old effects.old self.new effects.new (accused_confirmed here.now.scenario.now telling here.now.key update.now number accused) }
    {
        self.tell(
            effects,
            here,
            telling,
            What::Accuse,
            update.subject,
            accused.count,
        )?;
        self.pass_on(effects, here, telling, update)?;
        let death = Update {
            subject: update.subject,
            claim: Claim::Confirm,
            inc: number,
            accuser: here.key.to,
        };
        self.hear_news(effects, here, telling, &death)
    }

    /// Confirms the suspect whose time is up, or sets the suspicion's timer again, where the accusation counts.
    fn answer_accusation(
        &mut self,
        effects: &mut Effects,
        here: &Here,
        telling: Announce,
        update: &Update,
        number: u64,
        accused: Option<Accused>,
    ) -> Result<(), StepError>
        requires known { KnowsMembers here.now self.old }
        requires member { IsMember here.now update.now.subject }
        requires other { update.now.subject ≢ here.now.key.to }
        ensures { Makes here.now result self.old effects.old self.new effects.new (accusation_answered here.now.scenario.now telling here.now.key update.now number accused) }
    {
        let Some(accused) = accused else {
            return Ok(());
        };
        if self.suspicions.is_over(update.subject, here.key.at) {
            self.confirm_accused(effects, here, telling, update, number, accused)
        } else {
            self.count_accusation(effects, here, telling, update, Some(accused))
        }
    }

    /// A further accuser of a member that is held as suspected at a number.
    #[tactic(auto, unfolding(crate::specs::LateAccusations::prompt_accusation_heard))]
    fn hear_prompt_accusation(
        &mut self,
        effects: &mut Effects,
        here: &Here,
        telling: Announce,
        update: &Update,
        number: u64,
    ) -> Result<(), StepError>
        requires known { KnowsMembers here.now self.old }
        requires member { IsMember here.now update.now.subject }
        requires other { update.now.subject ≢ here.now.key.to }
        ensures { Makes here.now result self.old effects.old self.new effects.new (prompt_accusation_heard here.now.scenario.now telling here.now.key update.now number) }
    {
        let accused = self.suspicions.accuse(
            update.subject,
            update.accuser,
            here.key.at,
            self.next_number,
        )?;
        self.answer_accusation(effects, here, telling, update, number, accused)
    }

    /// A further accuser of a member that is held as suspected at a number, by the rules of the profile.
    pub(crate) fn hear_accuser(
        &mut self,
        effects: &mut Effects,
        here: &Here,
        telling: Announce,
        update: &Update,
        number: u64,
    ) -> Result<(), StepError>
        requires known { KnowsMembers here.now self.old }
        requires member { IsMember here.now update.now.subject }
        requires other { update.now.subject ≢ here.now.key.to }
        ensures { Makes here.now result self.old effects.old self.new effects.new (accusation_by (profile_of here.now.scenario.now) here.now.scenario.now telling here.now.key update.now number) }
    {
        match here.scenario.profile() {
            Profile::Papers | Profile::Memberlist => {
                self.hear_accusation(effects, here, telling, update)
            }
            Profile::Hashicorp => {
                self.hear_prompt_accusation(effects, here, telling, update, number)
            }
        }
    }
}
