//! How a member applies an update: it overrides its table, counts a confirmation, or refutes a claim about itself
//! by a higher incarnation number (SWIM, section 4.2).
ghost use Rattle.std.specs.Prelude.{◌≡◌, ◌≢◌, ◌+◌, ◌<◌, None, OnOk};
ghost use Rattle.member.specs.Makes.{AreAboutMembers, IsMade, IsMember, KnowsMembers, Makes};
ghost use Rattle.member.specs.Apply.{with_health, refuted, heard_dead, own_applied, is_own_death, other_applied, claim_applied, applied, all_applied, is_refuted, is_repeated, is_of_number, is_heeded};
ghost use Rattle.member.specs.StateOf.{effect_of, state_of};

use crate::announce::{Announce, is_aloud};
use crate::event::Effects;
use crate::here::Here;
use crate::member::Member;
use crate::news::is_alive;
use crate::step_error::StepError;
use base::Profile;
use base::limits::COUNTER_LIMIT;
use incarnation::{Claim, Update, refutes};
use lifeguard::Health;
use membership::{does_override, is_intent, is_suspect};
use trace::What;

impl Member {
    /// Takes over a health, and writes a row where its counter changed (LHA-Probe).
    #[tactic(auto, unfolding(crate::specs::Apply::with_health))]
    pub(crate) fn set_health(
        &mut self,
        effects: &mut Effects,
        here: &Here,
        health: Health,
    ) -> Result<(), StepError>
        requires { KnowsMembers here.now self.old }
        ensures made { IsMade result (effect_of self.new effects.new) (with_health here.now.key health (effect_of self.old effects.old)) }
        ensures kept { OnOk result (KnowsMembers here.now self.new) }
    {
        let changed = health.counter() != self.health.counter();
        self.health = health;
        if changed {
            let counter = u64::from(health.counter());
            self.write_row(effects, here, What::Health, None, counter, false)
        } else {
            Ok(())
        }
    }

    /// Refutes a claim about oneself by the incarnation number after the claim's (SWIM, section 4.2). CounterOverflow
    /// where that number stands at its limit.
    #[tactic(auto, unfolding(crate::specs::Apply::refuted))]
    fn refute(&mut self, effects: &mut Effects, here: &Here, claimed: u64) -> Result<(), StepError>
        requires { KnowsMembers here.now self.old }
        ensures { Makes here.now result self.old effects.old self.new effects.new (refuted here.now.scenario.now here.now.key (claimed + 1)) }
    {
        if claimed >= COUNTER_LIMIT {
            return Err(StepError::CounterOverflow);
        }
        let number = claimed + 1;
        self.incarnation = number;
        self.write_row(
            effects,
            here,
            What::Refute,
            Some(here.key.to),
            number,
            false,
        )?;
        let mut health = self.health;
        health.refuted();
        self.set_health(effects, here, health)?;
        let claim = Update {
            subject: here.key.to,
            claim: Claim::Alive,
            inc: number,
            accuser: here.key.to,
        };
        self.put(effects, here, claim)
    }

    /// Hears for the first time that one was confirmed to have failed.
    #[tactic(auto, unfolding(crate::specs::Apply::heard_dead))]
    fn hear_dead(
        &mut self,
        effects: &mut Effects,
        here: &Here,
        number: u64,
    ) -> Result<(), StepError>
        requires { KnowsMembers here.now self.old }
        ensures { Makes here.now result self.old effects.old self.new effects.new (heard_dead here.now.key number) }
    {
        self.heard_dead = true;
        self.write_row(effects, here, What::Dead, Some(here.key.to), number, false)
    }

    /// Whether the member refutes a claim about itself: by memberlist 0.5.0's rules not where it says itself that it has left.
    fn does_refute(&self, profile: Profile, claim: Claim, number: u64) -> bool
        ensures { result ≡ is_refuted profile (state_of self.now) claim number }
    {
        match profile {
            Profile::Papers | Profile::Memberlist => {
                refutes(profile, self.incarnation, claim, number)
            }
            Profile::Hashicorp => {
                !self.life.leaving().has_said() && refutes(profile, self.incarnation, claim, number)
            }
        }
    }

    /// Applies a claim about oneself.
    fn apply_own(
        &mut self,
        effects: &mut Effects,
        here: &Here,
        claim: Claim,
        number: u64,
    ) -> Result<(), StepError>
        requires { KnowsMembers here.now self.old }
        ensures { Makes here.now result self.old effects.old self.new effects.new (own_applied here.now.scenario.now here.now.key claim number) }
    {
        let profile = here.scenario.profile();
        if self.does_refute(profile, claim, number) {
            self.refute(effects, here, number)
        } else if is_own_death(profile, claim, self.heard_dead) {
            self.hear_dead(effects, here, number)
        } else {
            Ok(())
        }
    }

    /// Applies an update about a member that isn't known, if it is heeded.
    fn hear_unknown(
        &mut self,
        effects: &mut Effects,
        here: &Here,
        telling: Announce,
        update: &Update,
    ) -> Result<(), StepError>
        requires known { KnowsMembers here.now self.old }
        requires member { IsMember here.now update.now.subject }
        requires other { update.now.subject ≢ here.now.key.to }
        ensures { Makes here.now result self.old effects.old self.new effects.new (other_applied here.now.scenario.now telling here.now.key update.now None) }
    {
        if is_heeded(here.scenario.profile(), telling, update.claim) {
            self.hear_news(effects, here, telling, update)
        } else {
            Ok(())
        }
    }

    /// Applies an update about another member, of which the table has this.
    fn apply_other(
        &mut self,
        effects: &mut Effects,
        here: &Here,
        telling: Announce,
        update: &Update,
        held: Option<(Claim, u64)>,
    ) -> Result<(), StepError>
        requires known { KnowsMembers here.now self.old }
        requires member { IsMember here.now update.now.subject }
        requires other { update.now.subject ≢ here.now.key.to }
        ensures { Makes here.now result self.old effects.old self.new effects.new (other_applied here.now.scenario.now telling here.now.key update.now held) }
    {
        let profile = here.scenario.profile();
        let Some(held) = held else {
            return self.hear_unknown(effects, here, telling, update);
        };
        if does_override(profile, (update.claim, update.inc), held) {
            self.hear_news(effects, here, telling, update)
        } else if is_repeated(profile, update, held) {
            self.hear_accuser(effects, here, telling, update, held.1)
        } else {
            Ok(())
        }
    }

    /// Applies an update: a claim that the member hears or makes itself, or an intent.
    #[tactic(auto, unfolding(crate::specs::Apply::applied))]
    pub(crate) fn apply(
        &mut self,
        effects: &mut Effects,
        here: &Here,
        telling: Announce,
        update: &Update,
    ) -> Result<(), StepError>
        requires known { KnowsMembers here.now self.old }
        requires member { IsMember here.now update.now.subject }
        ensures { Makes here.now result self.old effects.old self.new effects.new (applied here.now.scenario.now telling here.now.key update.now) }
    {
        if is_intent(update.claim) {
            return self.apply_intent(effects, here, update);
        }
        self.apply_claim(effects, here, telling, update)
    }

    /// Applies a claim.
    #[tactic(auto, unfolding(crate::specs::Apply::claim_applied))]
    fn apply_claim(
        &mut self,
        effects: &mut Effects,
        here: &Here,
        telling: Announce,
        update: &Update,
    ) -> Result<(), StepError>
        requires known { KnowsMembers here.now self.old }
        requires member { IsMember here.now update.now.subject }
        ensures { Makes here.now result self.old effects.old self.new effects.new (claim_applied here.now.scenario.now telling here.now.key update.now) }
    {
        if update.subject == here.key.to {
            return self.apply_own(effects, here, update.claim, update.inc);
        }
        let held = self.table.get(update.subject);
        self.apply_other(effects, here, telling, update, held)
    }

    /// Applies updates in their order.
    pub(crate) fn apply_all(
        &mut self,
        effects: &mut Effects,
        here: &Here,
        telling: Announce,
        updates: &[Update],
    ) -> Result<(), StepError>
        requires known { KnowsMembers here.now self.old }
        requires members { AreAboutMembers here.now updates.now }
        ensures { Makes here.now result self.old effects.old self.new effects.new (all_applied here.now.scenario.now telling here.now.key updates.now) }
    {
        for update in updates {
            self.apply(effects, here, telling, update)?;
        }
        Ok(())
    }
}

// Whether an update repeats a suspicion that is held: at the same number, or by memberlist's rules at
// that number or over it.
fn is_repeated(profile: Profile, update: &Update, held: (Claim, u64)) -> bool
    ensures { result ≡ is_repeated profile update.now held }
{
    is_suspect(update.claim) && is_suspect(held.0) && is_of_number(profile, update.inc, held.1)
}

// Whether the numbers of a suspicion that comes and of the one that is held let it be an accusation.
fn is_of_number(profile: Profile, number: u64, held: u64) -> bool
    ensures { result ≡ is_of_number profile number held }
{
    match profile {
        Profile::Papers => number == held,
        Profile::Memberlist | Profile::Hashicorp => number >= held,
    }
}

// Whether a claim about a member that isn't known is heeded: by memberlist's rules Alive alone, but for
// what a welcome brings.
fn is_heeded(profile: Profile, telling: Announce, claim: Claim) -> bool
    ensures { result ≡ is_heeded profile telling claim }
{
    match profile {
        Profile::Papers => true,
        Profile::Memberlist | Profile::Hashicorp => !is_aloud(telling) || is_alive(claim),
    }
}

// Whether a claim about oneself that isn't refuted reports one's death: by the papers' rules the first
// Confirm.
fn is_own_death(profile: Profile, claim: Claim, heard: bool) -> bool
    ensures { result ≡ is_own_death profile claim heard }
{
    match (profile, claim) {
        (Profile::Papers, Claim::Confirm) => !heard,
        _ => false,
    }
}
