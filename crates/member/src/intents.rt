//! Serf's intents: who is about to leave has told so, and who dies or leaves without that has failed.
ghost use Rattle.std.specs.Prelude.{◌≡◌, ◌<◌, OnOk};
ghost use Rattle.member.specs.Apply.{intent_applied, intent_heard};
ghost use Rattle.member.specs.Intents.{is_known_intent, regard_kept, regards_kept};
ghost use Rattle.member.specs.Makes.{IsMade, KnowsMembers, Makes};
ghost use Rattle.member.specs.StateOf.{state_of};

use crate::event::Effects;
use crate::here::Here;
use crate::member::Member;
use crate::news::is_alive;
use crate::step_error::StepError;
use base::MemberId;
use incarnation::Update;
use membership::is_confirm;

impl Member {
    /// Regards a member by a claim that is news: as usual where it is up, as failed where it is gone and is not known to leave.
    fn keep_regard(&mut self, here: &Here, update: &Update) -> Result<(), StepError>
        requires { KnowsMembers here.now self.old }
        ensures made { IsMade result (state_of self.new) (regard_kept here.now.key.at update.now (state_of self.old)) }
        ensures kept { OnOk result (KnowsMembers here.now self.new) }
    {
        if is_alive(update.claim) {
            self.life.mend(update.subject);
            return Ok(());
        }
        if is_confirm(update.claim) {
            self.life.fail(here.alloc, update.subject, here.key.at)?;
        }
        Ok(())
    }

    /// The same where there is Serf.
    pub(crate) fn keep_regards(&mut self, here: &Here, update: &Update) -> Result<(), StepError>
        requires { KnowsMembers here.now self.old }
        ensures made { IsMade result (state_of self.new) (regards_kept here.now.scenario.now.serf here.now.key.at update.now (state_of self.old)) }
        ensures kept { OnOk result (KnowsMembers here.now self.new) }
    {
        if here.scenario.serf().is_none() {
            return Ok(());
        }
        self.keep_regard(here, update)
    }

    /// Whether an intent tells the member nothing: it is about itself, or about one of whom it knows that.
    fn is_known_intent(&self, here: &Here, subject: MemberId) -> bool
        ensures { result ≡ is_known_intent here.now.key.to subject (state_of self.now) }
    {
        subject == here.key.to || self.life.is_marked(subject)
    }

    /// An intent that is news marks its subject, and goes on.
    fn hear_intent(
        &mut self,
        effects: &mut Effects,
        here: &Here,
        update: &Update,
    ) -> Result<(), StepError>
        requires { KnowsMembers here.now self.old }
        ensures { Makes here.now result self.old effects.old self.new effects.new (intent_heard here.now.scenario.now here.now.key update.now) }
    {
        if self.is_known_intent(here, update.subject) {
            return Ok(());
        }
        self.life.mark(here.alloc, update.subject)?;
        self.life.put_intent(here.alloc, *update)?;
        self.set_gossip(effects, here)
    }

    /// Applies an intent, where there is Serf.
    pub(crate) fn apply_intent(
        &mut self,
        effects: &mut Effects,
        here: &Here,
        update: &Update,
    ) -> Result<(), StepError>
        requires { KnowsMembers here.now self.old }
        ensures { Makes here.now result self.old effects.old self.new effects.new (intent_applied here.now.scenario.now here.now.key update.now here.now.scenario.now.serf) }
    {
        if here.scenario.serf().is_none() {
            return Ok(());
        }
        self.hear_intent(effects, here, update)
    }
}
