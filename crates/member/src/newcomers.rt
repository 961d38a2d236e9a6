//! How a member keeps a claim about another by memberlist 0.5.0's rules: one that wasn't known takes the place of one that is
//! probed.
ghost use Rattle.std.specs.Prelude.{◌≡◌, ◌≢◌, false, None, OnOk};
ghost use Rattle.std.specs.FinMap.{get};
ghost use Rattle.member.specs.Makes.{IsMade, IsMember, KnowsMembers};
ghost use Rattle.member.specs.Apply.{with_claim, with_newcomer, with_turn_of, newcomer_kept};
ghost use Rattle.membership.specs.Table.{is_confirm};
ghost use Rattle.member.specs.StateOf.{state_of};

use crate::here::Here;
use crate::member::Member;
use crate::step_error::StepError;
use incarnation::Update;
use membership::is_confirm;

impl Member {
    /// Keeps a claim about a member that wasn't known: it takes the place of one that is probed, who goes to the end.
    fn put_newcomer(&mut self, here: &Here, update: &Update) -> Result<(), StepError>
        requires known { KnowsMembers here.now self.old }
        requires member { IsMember here.now update.now.subject }
        requires other { update.now.subject ≢ here.now.key.to }
        requires up { is_confirm update.now.claim ≡ false }
        requires new { get (state_of self.old).table update.now.subject ≡ None }
        ensures made { IsMade result (state_of self.new) (with_newcomer update.now.subject (with_claim update.now (state_of self.old))) }
        ensures kept { OnOk result (KnowsMembers here.now self.new) }
    {
        self.table.set(update.subject, (update.claim, update.inc))?;
        self.rota.displace(update.subject, &mut self.stream)?;
        Ok(())
    }

    /// Keeps a claim that holds another member to be up or suspected: it is probed from now on.
    fn put_beside(&mut self, here: &Here, update: &Update) -> Result<(), StepError>
        requires known { KnowsMembers here.now self.old }
        requires member { IsMember here.now update.now.subject }
        requires other { update.now.subject ≢ here.now.key.to }
        requires up { is_confirm update.now.claim ≡ false }
        ensures made { IsMade result (state_of self.new) (with_turn_of (get (state_of self.old).table update.now.subject) update.now.subject (with_claim update.now (state_of self.old))) }
        ensures kept { OnOk result (KnowsMembers here.now self.new) }
    {
        let Some(held) = self.table.get(update.subject) else {
            return self.put_newcomer(here, update);
        };
        if is_confirm(held.0) {
            self.put_in(here, update)
        } else {
            self.put_again(here, update)
        }
    }

    /// Keeps a claim about another member. Who is confirmed is probed no more, and who wasn't probed is from now on.
    #[tactic(auto, unfolding(crate::specs::Newcomers::newcomer_kept))]
    pub(crate) fn keep_newcomer(&mut self, here: &Here, update: &Update) -> Result<(), StepError>
        requires known { KnowsMembers here.now self.old }
        requires member { IsMember here.now update.now.subject }
        requires other { update.now.subject ≢ here.now.key.to }
        ensures made { IsMade result (state_of self.new) (newcomer_kept update.now (state_of self.old)) }
        ensures kept { OnOk result (KnowsMembers here.now self.new) }
    {
        if is_confirm(update.claim) {
            self.put_out(here, update)
        } else {
            self.put_beside(here, update)
        }
    }
}
