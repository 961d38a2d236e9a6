//! How a member merges the table of another by memberlist 0.5.0's and Serf's rules.
ghost use Rattle.std.specs.Prelude.{◌≡◌, ◌<◌, OnOk};
ghost use Rattle.member.specs.Makes.{AreAboutMembers, IsMade, IsMember, KnowsMembers, Makes};
ghost use Rattle.member.specs.Merges.{entry_claim, entry_merged, is_known_alive, is_left_and_not_up, leave_noted, push_merged, table_merged};
ghost use Rattle.member.specs.Processes.{pull_merged};
ghost use Rattle.member.specs.StateOf.{state_of};

use crate::announce::Announce;
use crate::event::Effects;
use crate::here::Here;
use crate::member::Member;
use crate::news::{is_alive, is_probed};
use crate::step_error::StepError;
use base::MemberId;
use incarnation::{Claim, Update};
use membership::is_left;

impl Member {
    /// Whether an entry says of another member that it has left, which isn't held to be up here, nor suspected.
    fn is_left_and_not_up(&self, here: &Here, entry: &Update) -> bool
        ensures { result ≡ is_left_and_not_up here.now.key.to entry.now (state_of self.now) }
    {
        is_left(entry.claim)
            && entry.subject != here.key.to
            && !is_probed(self.table.get(entry.subject))
    }

    /// With Serf such a member was about to leave.
    fn note_leave(&mut self, here: &Here, entry: &Update) -> Result<(), StepError>
        requires { KnowsMembers here.now self.old }
        ensures made { IsMade result (state_of self.new) (leave_noted here.now.scenario.now.serf here.now.key.to entry.now (state_of self.old)) }
        ensures kept { OnOk result (KnowsMembers here.now self.new) }
    {
        if here.scenario.serf().is_none() {
            return Ok(());
        }
        if !self.is_left_and_not_up(here, entry) {
            return Ok(());
        }
        self.life.mark(here.alloc, entry.subject)?;
        Ok(())
    }

    /// Whether an entry says of another member that it is alive, who is held alive by its word or a later one.
    fn is_known_alive(&self, here: &Here, entry: &Update) -> bool
        ensures { result ≡ is_known_alive here.now.key.to entry.now (state_of self.now) }
    {
        if !is_alive(entry.claim) || entry.subject == here.key.to {
            return false;
        }
        match self.table.get(entry.subject) {
            Some(held) => is_alive(held.0) && entry.inc <= held.1,
            None => false,
        }
    }

    /// Applies an entry of another's table: nearly always there is nothing new in it.
    #[inline(always)]
    fn merge_entry(
        &mut self,
        effects: &mut Effects,
        here: &Here,
        entry: &Update,
    ) -> Result<(), StepError>
        requires known { KnowsMembers here.now self.old }
        requires member { IsMember here.now entry.now.subject }
        ensures { Makes here.now result self.old effects.old self.new effects.new (entry_merged here.now.scenario.now here.now.key entry.now) }
    {
        if self.is_known_alive(here, entry) {
            return Ok(());
        }
        self.merge_news(effects, here, entry)
    }

    /// The same, where there may be something new in it.
    fn merge_news(
        &mut self,
        effects: &mut Effects,
        here: &Here,
        entry: &Update,
    ) -> Result<(), StepError>
        requires known { KnowsMembers here.now self.old }
        requires member { IsMember here.now entry.now.subject }
        ensures { Makes here.now result self.old effects.old self.new effects.new (entry_merged here.now.scenario.now here.now.key entry.now) }
    {
        let claim = entry_claim(here.key.to, entry);
        self.apply(effects, here, Announce::Aloud, &claim)?;
        self.note_leave(here, entry)
    }

    /// Heeds all that another knows.
    pub(crate) fn merge_table(
        &mut self,
        effects: &mut Effects,
        here: &Here,
        entries: &[Update],
    ) -> Result<(), StepError>
        requires known { KnowsMembers here.now self.old }
        requires members { AreAboutMembers here.now entries.now }
        ensures { Makes here.now result self.old effects.old self.new effects.new (table_merged here.now.scenario.now here.now.key entries.now) }
    {
        for entry in entries {
            self.merge_entry(effects, here, entry)?;
        }
        Ok(())
    }

    /// A push is answered by all that one knows, and then merged.
    #[tactic(auto, unfolding(crate::specs::Merges::push_merged))]
    pub(crate) fn merge_push(
        &mut self,
        effects: &mut Effects,
        here: &Here,
        entries: &[Update],
    ) -> Result<(), StepError>
        requires known { KnowsMembers here.now self.old }
        requires members { AreAboutMembers here.now entries.now }
        ensures { Makes here.now result self.old effects.old self.new effects.new (push_merged here.now.scenario.now here.now.key entries.now) }
    {
        self.send_pull(effects, here, here.key.from)?;
        self.merge_table(effects, here, entries)
    }

    /// A table has come: the contact is reached if it is the contact's, and it is merged.
    pub(crate) fn merge_pull(
        &mut self,
        effects: &mut Effects,
        here: &Here,
        entries: &[Update],
    ) -> Result<(), StepError>
        requires known { KnowsMembers here.now self.old }
        requires members { AreAboutMembers here.now entries.now }
        ensures { Makes here.now result self.old effects.old self.new effects.new (pull_merged here.now.scenario.now here.now.key entries.now) }
    {
        self.reach_contact(effects, here, entries)?;
        self.merge_table(effects, here, entries)
    }
}

// What an entry of another's table says to a member: a death is suspected, a leave is the leaver's own word.
fn entry_claim(me: MemberId, entry: &Update) -> Update
    ensures value { result ≡ entry_claim me entry.now }
    ensures subject { result.subject ≡ entry.now.subject }
{
    if is_left(entry.claim) {
        return by(entry, entry.claim, entry.subject);
    }
    if is_alive(entry.claim) {
        return by(entry, entry.claim, me);
    }
    by(entry, Claim::Suspect, me)
}

// Another claim about the same member, at the same number.
fn by(entry: &Update, claim: Claim, accuser: MemberId) -> Update
    ensures { result ≡ record entry.now { claim = claim; accuser = accuser } }
{
    Update {
        subject: entry.subject,
        claim,
        inc: entry.inc,
        accuser,
    }
}
