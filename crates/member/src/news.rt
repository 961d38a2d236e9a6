//! A member acts on a claim that is news: it keeps the claim, starts, shortens or ends a suspicion (SWIM, section 4.2;
//! LHA-Suspicion), and passes the update on.
ghost use Rattle.std.specs.Prelude.{◌≡◌, ◌≢◌, ◌<◌, false, OnOk};
ghost use Rattle.std.specs.FinMap.{get};
ghost use Rattle.probing.specs.ProbeOrder.{remove_of};
ghost use Rattle.scenario.specs.Profile.{profile_of};
ghost use Rattle.member.specs.Makes.{IsMade, IsMember, KnowsMembers, Makes};
ghost use Rattle.member.specs.Apply.{with_put, passed_on, with_told, with_claim, with_rota, with_place, claim_kept, claim_kept_by, alive_heard, suspect_heard, death_kept, confirm_heard, left_heard, claim_heard, news_heard, accusation_counted, accusation_heard};
ghost use Rattle.membership.specs.Table.{is_alive, is_confirm};
ghost use Rattle.member.specs.State.{is_probed};
ghost use Rattle.member.specs.StateOf.{effect_of, state_of};

use crate::announce::{Announce, is_aloud};
use crate::event::Effects;
use crate::event_kind::EventKind;
use crate::here::Here;
use crate::member::Member;
use crate::step_error::StepError;
use base::{MemberId, Profile};
use incarnation::{Claim, Update};
use membership::is_confirm;
use suspicion::Accused;
use trace::What;

impl Member {
    /// Puts an update among those that are still to be sent. Where members gossip, it is sent by itself too.
    #[tactic(auto, unfolding(crate::specs::Apply::with_put))]
    pub(crate) fn put(
        &mut self,
        effects: &mut Effects,
        here: &Here,
        update: Update,
    ) -> Result<(), StepError>
        requires { KnowsMembers here.now self.old }
        ensures { Makes here.now result self.old effects.old self.new effects.new (with_put here.now.scenario.now here.now.key update) }
    {
        self.put_up(here, update)?;
        self.set_gossip(effects, here)
    }

    /// Passes an update on, unless the application is quiet.
    #[tactic(auto, unfolding(crate::specs::Apply::passed_on))]
    pub(crate) fn pass_on(
        &mut self,
        effects: &mut Effects,
        here: &Here,
        telling: Announce,
        update: &Update,
    ) -> Result<(), StepError>
        requires { KnowsMembers here.now self.old }
        ensures { Makes here.now result self.old effects.old self.new effects.new (passed_on here.now.scenario.now here.now.key telling update.now) }
    {
        if is_aloud(telling) {
            self.put(effects, here, *update)
        } else {
            Ok(())
        }
    }

    /// Writes a row about another member, unless the application is quiet.
    pub(crate) fn tell(
        &self,
        effects: &mut Effects,
        here: &Here,
        telling: Announce,
        what: What,
        subject: MemberId,
        value: u64,
    ) -> Result<(), StepError>
        ensures { IsMade result (effect_of self.now effects.new) (with_told telling here.now.key what subject value (effect_of self.now effects.old)) }
    {
        if is_aloud(telling) {
            self.write_row(effects, here, what, Some(subject), value, false)
        } else {
            Ok(())
        }
    }

    /// Keeps a claim that confirms another member, who is probed no more.
    pub(crate) fn put_out(&mut self, here: &Here, update: &Update) -> Result<(), StepError>
        requires known { KnowsMembers here.now self.old }
        requires member { IsMember here.now update.now.subject }
        requires other { update.now.subject ≢ here.now.key.to }
        ensures made { IsMade result (state_of self.new) (with_rota (remove_of update.now.subject (state_of self.old).rota) (with_claim update.now (state_of self.old))) }
        ensures kept { OnOk result (KnowsMembers here.now self.new) }
    {
        self.table.set(update.subject, (update.claim, update.inc))?;
        self.rota.remove(update.subject);
        Ok(())
    }

    /// Keeps a claim about another member, who goes on being probed.
    pub(crate) fn put_again(&mut self, here: &Here, update: &Update) -> Result<(), StepError>
        requires known { KnowsMembers here.now self.old }
        requires member { IsMember here.now update.now.subject }
        requires other { update.now.subject ≢ here.now.key.to }
        requires up { is_confirm update.now.claim ≡ false }
        ensures made { IsMade result (state_of self.new) (with_claim update.now (state_of self.old)) }
        ensures kept { OnOk result (KnowsMembers here.now self.new) }
    {
        self.table.set(update.subject, (update.claim, update.inc))?;
        Ok(())
    }

    /// Keeps a claim about another member, who is probed from now on.
    pub(crate) fn put_in(&mut self, here: &Here, update: &Update) -> Result<(), StepError>
        requires known { KnowsMembers here.now self.old }
        requires member { IsMember here.now update.now.subject }
        requires other { update.now.subject ≢ here.now.key.to }
        requires up { is_confirm update.now.claim ≡ false }
        requires absent { is_probed (get (state_of self.old).table update.now.subject) ≡ false }
        ensures made { IsMade result (state_of self.new) (with_place update.now.subject (with_claim update.now (state_of self.old))) }
        ensures kept { OnOk result (KnowsMembers here.now self.new) }
    {
        self.table.set(update.subject, (update.claim, update.inc))?;
        self.rota.insert(update.subject, &mut self.stream)?;
        Ok(())
    }

    /// Keeps a claim about another member. Who is confirmed is probed no more, and who wasn't probed is
    /// from now on.
    #[tactic(auto, unfolding(crate::specs::Apply::claim_kept))]
    fn keep_claim(&mut self, here: &Here, update: &Update) -> Result<(), StepError>
        requires known { KnowsMembers here.now self.old }
        requires member { IsMember here.now update.now.subject }
        requires other { update.now.subject ≢ here.now.key.to }
        ensures made { IsMade result (state_of self.new) (claim_kept update.now (state_of self.old)) }
        ensures kept { OnOk result (KnowsMembers here.now self.new) }
    {
        if is_confirm(update.claim) {
            self.put_out(here, update)
        } else if is_probed(self.table.get(update.subject)) {
            self.put_again(here, update)
        } else {
            self.put_in(here, update)
        }
    }

    /// Keeps a claim about another member, by the rules of the profile.
    fn keep_claim_by(&mut self, here: &Here, update: &Update) -> Result<(), StepError>
        requires known { KnowsMembers here.now self.old }
        requires member { IsMember here.now update.now.subject }
        requires other { update.now.subject ≢ here.now.key.to }
        ensures made { IsMade result (state_of self.new) (claim_kept_by (profile_of here.now.scenario.now) update.now (state_of self.old)) }
        ensures kept { OnOk result (KnowsMembers here.now self.new) }
    {
        match here.scenario.profile() {
            Profile::Papers | Profile::Memberlist => self.keep_claim(here, update),
            Profile::Hashicorp => self.keep_newcomer(here, update),
        }
    }

    /// Alive ends a suspicion.
    #[tactic(auto, unfolding(crate::specs::Apply::alive_heard))]
    fn hear_alive(
        &mut self,
        effects: &mut Effects,
        here: &Here,
        telling: Announce,
        update: &Update,
    ) -> Result<(), StepError>
        requires { KnowsMembers here.now self.old }
        ensures { Makes here.now result self.old effects.old self.new effects.new (alive_heard telling here.now.key update.now) }
    {
        self.suspicions.clear(update.subject);
        self.tell(
            effects,
            here,
            telling,
            What::Alive,
            update.subject,
            update.inc,
        )
    }

    /// Suspect starts a suspicion anew, and sets its timer (SWIM, section 4.2).
    #[tactic(auto, unfolding(crate::specs::Apply::suspect_heard))]
    fn hear_suspect(
        &mut self,
        effects: &mut Effects,
        here: &Here,
        telling: Announce,
        update: &Update,
    ) -> Result<(), StepError>
        requires { KnowsMembers here.now self.old }
        ensures { Makes here.now result self.old effects.old self.new effects.new (suspect_heard here.now.scenario.now telling here.now.key update.now) }
    {
        let members = self.live_members(here);
        let due = self.suspicions.start(
            update.subject,
            update.inc,
            update.accuser,
            members,
            here.key.at,
            self.next_number,
            here.scenario,
        )?;
        self.tell(
            effects,
            here,
            telling,
            What::Suspect,
            update.subject,
            update.inc,
        )?;
        let timer = EventKind::SuspicionTimer {
            subject: update.subject,
        };
        self.make_event(effects, here, due, here.key.to, timer)
    }

    /// Keeps since when a member is confirmed, where memberlist's rules ask for it.
    fn keep_death(&mut self, here: &Here, subject: MemberId) -> Result<(), StepError>
        requires { KnowsMembers here.now self.old }
        ensures made { IsMade result (state_of self.new) (death_kept (profile_of here.now.scenario.now) subject here.now.key.at (state_of self.old)) }
        ensures kept { OnOk result (KnowsMembers here.now self.new) }
    {
        match here.scenario.profile() {
            Profile::Papers => Ok(()),
            Profile::Memberlist | Profile::Hashicorp => {
                self.deaths.keep(subject, here.key.at)?;
                Ok(())
            }
        }
    }

    /// Confirm ends a suspicion.
    #[tactic(auto, unfolding(crate::specs::Apply::confirm_heard))]
    fn hear_confirm(
        &mut self,
        effects: &mut Effects,
        here: &Here,
        telling: Announce,
        update: &Update,
    ) -> Result<(), StepError>
        requires { KnowsMembers here.now self.old }
        ensures { Makes here.now result self.old effects.old self.new effects.new (confirm_heard (profile_of here.now.scenario.now) telling here.now.key update.now) }
    {
        self.suspicions.clear(update.subject);
        self.keep_death(here, update.subject)?;
        self.tell(
            effects,
            here,
            telling,
            What::Confirm,
            update.subject,
            update.inc,
        )
    }

    /// Left ends a suspicion, as Confirm does.
    #[tactic(auto, unfolding(crate::specs::Apply::left_heard))]
    fn hear_left(
        &mut self,
        effects: &mut Effects,
        here: &Here,
        telling: Announce,
        update: &Update,
    ) -> Result<(), StepError>
        requires { KnowsMembers here.now self.old }
        ensures { Makes here.now result self.old effects.old self.new effects.new (left_heard (profile_of here.now.scenario.now) telling here.now.key update.now) }
    {
        self.suspicions.clear(update.subject);
        self.keep_death(here, update.subject)?;
        self.tell(
            effects,
            here,
            telling,
            What::Left,
            update.subject,
            update.inc,
        )
    }

    /// Acts upon a claim about another member.
    fn hear_claim(
        &mut self,
        effects: &mut Effects,
        here: &Here,
        telling: Announce,
        update: &Update,
    ) -> Result<(), StepError>
        requires { KnowsMembers here.now self.old }
        ensures { Makes here.now result self.old effects.old self.new effects.new (claim_heard here.now.scenario.now telling here.now.key update.now update.now.claim) }
    {
        match update.claim {
            Claim::Alive => self.hear_alive(effects, here, telling, update),
            Claim::Suspect => self.hear_suspect(effects, here, telling, update),
            Claim::Confirm => self.hear_confirm(effects, here, telling, update),
            Claim::Left => self.hear_left(effects, here, telling, update),
            Claim::Intent => Ok(()),
        }
    }

    /// A claim that is news is kept, acted upon and passed on.
    #[tactic(auto, unfolding(crate::specs::Apply::news_heard))]
    pub(crate) fn hear_news(
        &mut self,
        effects: &mut Effects,
        here: &Here,
        telling: Announce,
        update: &Update,
    ) -> Result<(), StepError>
        requires known { KnowsMembers here.now self.old }
        requires member { IsMember here.now update.now.subject }
        requires other { update.now.subject ≢ here.now.key.to }
        ensures { Makes here.now result self.old effects.old self.new effects.new (news_heard here.now.scenario.now telling here.now.key update.now) }
    {
        self.keep_claim_by(here, update)?;
        self.keep_regards(here, update)?;
        self.hear_claim(effects, here, telling, update)?;
        self.pass_on(effects, here, telling, update)
    }

    /// Reports an accusation that counts, sets the suspicion's timer again, and passes it on.
    pub(crate) fn count_accusation(
        &mut self,
        effects: &mut Effects,
        here: &Here,
        telling: Announce,
        update: &Update,
        accused: Option<Accused>,
    ) -> Result<(), StepError>
        requires { KnowsMembers here.now self.old }
        ensures { Makes here.now result self.old effects.old self.new effects.new (accusation_counted here.now.scenario.now telling here.now.key update.now accused) }
    {
        let Some(accused) = accused else {
            return Ok(());
        };
        self.tell(
            effects,
            here,
            telling,
            What::Accuse,
            update.subject,
            accused.count,
        )?;
        let timer = EventKind::SuspicionTimer {
            subject: update.subject,
        };
        self.make_event(effects, here, accused.due, here.key.to, timer)?;
        self.pass_on(effects, here, telling, update)
    }

    /// A further accuser of a suspect, where it counts, shortens the suspicion (LHA-Suspicion).
    #[tactic(auto, unfolding(crate::specs::Apply::accusation_heard))]
    pub(crate) fn hear_accusation(
        &mut self,
        effects: &mut Effects,
        here: &Here,
        telling: Announce,
        update: &Update,
    ) -> Result<(), StepError>
        requires { KnowsMembers here.now self.old }
        ensures { Makes here.now result self.old effects.old self.new effects.new (accusation_heard here.now.scenario.now telling here.now.key update.now) }
    {
        let accused = self.suspicions.accuse(
            update.subject,
            update.accuser,
            here.key.at,
            self.next_number,
        )?;
        self.count_accusation(effects, here, telling, update, accused)
    }
}

// Whether a member is probed that is held so: not where nothing is held of it, nor where it is confirmed.
pub(crate) fn is_probed(held: Option<(Claim, u64)>) -> bool
    ensures { result ≡ is_probed held }
{
    match held {
        Some(held) => !is_confirm(held.0),
        None => false,
    }
}

// Whether a claim says that a member is up.
pub(crate) fn is_alive(claim: Claim) -> bool
    ensures { result ≡ is_alive claim }
{
    claim == Claim::Alive
}
