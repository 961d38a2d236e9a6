//! A member sends the messages of SWIM and Lifeguard: it writes a row, draws loss and delay, and lets updates ride on
//! the messages of a probe (piggyback).
ghost use Rattle.std.specs.Prelude.{◌≡◌, ◌<◌, ◌≤◌, OnOk, IfOk};
ghost use Rattle.links.specs.Arrival.{arrival_of};
ghost use Rattle.member.specs.Makes.{Draws, IsMade, IsMember, KnowsMembers, Makes};
ghost use Rattle.scenario.specs.Profile.{profile_of};
ghost use Rattle.membership.specs.Table.{size_by};
ghost use Rattle.member.specs.Send.{whole_table, sent, sent_off, told_of, carried, with_picks, buddy_of, ping_sent, ping_req_sent, ack_sent, pings_ack_sent, nack_sent, join_sent, welcome_sent, bye_sent};
ghost use Rattle.member.specs.Blocks.{on_its_way};
ghost use Rattle.member.specs.Wholes.{own_word, whole_by, whole_state};
ghost use Rattle.member.specs.StateOf.{state_of};

use crate::blocks::{departs_by, got_through_by};
use crate::event::Effects;
use crate::event_kind::EventKind;
use crate::here::Here;
use crate::member::Member;
use crate::riding::Bearer;
use crate::step_error::StepError;
use crate::updates::Updates;
use base::{MemberId, Moment, Profile, digits};
use incarnation::{Claim, Update};
use lives::Leaving;
use membership::{Table, is_suspect};
use trace::What;

impl Member {
    /// When a message to a member arrives, if it does.
    #[inline(always)]
    fn arrival(&mut self, here: &Here, to: MemberId) -> Option<Moment>
        requires to { IsMember here.now to }
        requires known { KnowsMembers here.now self.old }
        ensures drawn { Draws result self.old self.new (on_its_way (profile_of here.now.scenario.now) here.now.scenario.now here.now.key to (arrival_of here.now.scenario.now here.now.key.to to) (state_of self.old).words) }
        ensures kept { KnowsMembers here.now self.new }
    {
        let departs = departs_by(here);
        let arrival = here
            .links
            .arrival(here.key.to, to, departs, &mut self.stream);
        got_through_by(here, to, arrival)
    }

    /// A message arrives, or is lost.
    #[inline(always)]
    fn send_off(
        &mut self,
        effects: &mut Effects,
        here: &Here,
        to: MemberId,
        content: EventKind,
        arrival: Option<Moment>,
    ) -> Result<(), StepError>
        requires to { IsMember here.now to }
        requires known { KnowsMembers here.now self.old }
        ensures { Makes here.now result self.old effects.old self.new effects.new (sent_off here.now.scenario.now here.now.key to content arrival) }
    {
        match arrival {
            Some(at) => self.make_event(effects, here, at, to, content),
            None => self.use_number(here),
        }
    }

    /// Writes the row of a message, which arrives or is lost.
    #[inline(always)]
    pub(crate) fn post(
        &mut self,
        effects: &mut Effects,
        here: &Here,
        what: What,
        to: MemberId,
        value: u64,
        content: EventKind,
        arrival: Option<Moment>,
    ) -> Result<(), StepError>
        requires to { IsMember here.now to }
        requires known { KnowsMembers here.now self.old }
        ensures { Makes here.now result self.old effects.old self.new effects.new (told_of here.now.scenario.now here.now.key what to value content arrival) }
    {
        self.write_row(effects, here, what, Some(to), value, arrival.is_none())?;
        self.send_off(effects, here, to, content, arrival)
    }

    /// Sends a message: its row, and its arrival unless it is lost.
    #[tactic(auto, unfolding(crate::specs::Send::posted))]
    #[inline(always)]
    pub(crate) fn send(
        &mut self,
        effects: &mut Effects,
        here: &Here,
        what: What,
        to: MemberId,
        value: u64,
        content: EventKind,
    ) -> Result<(), StepError>
        requires to { IsMember here.now to }
        requires known { KnowsMembers here.now self.old }
        ensures { Makes here.now result self.old effects.old self.new effects.new (sent here.now.scenario.now here.now.key what to value content) }
    {
        let arrival = self.arrival(here, to);
        self.post(effects, here, what, to, value, content, arrival)
    }

    /// How many members the cluster has, as the rules count them, oneself included.
    pub(crate) fn live_members(&self, here: &Here) -> u32
        requires { KnowsMembers here.now self.now }
        ensures value { result ≡ size_by (profile_of here.now.scenario.now) self.now.table }
        ensures some { 1 ≤ result }
        ensures live_within { result ≤ 16384 }
    {
        size_of(&self.table, here.scenario.profile()) as u32
    }

    /// The updates that a message takes along, the buddy first where there is one.
    #[inline(always)]
    pub(crate) fn pick(&mut self, here: &Here, buddy: Option<Update>) -> Result<Updates, StepError>
        requires { KnowsMembers here.now self.old }
        ensures updates { IfOk result (λ updates. updates ≡ carried here.now.scenario.now buddy (state_of self.old)) }
        ensures state { IsMade result (state_of self.new) (with_picks here.now.scenario.now buddy (state_of self.old)) }
        ensures kept { OnOk result (KnowsMembers here.now self.new) }
    {
        if buddy.is_none() && self.buffer.is_empty() {
            return Ok(Updates::of(Vec::new(here.alloc)));
        }
        self.pick_some(here, buddy)
    }

    /// The same, where there may be some.
    fn pick_some(&mut self, here: &Here, buddy: Option<Update>) -> Result<Updates, StepError>
        requires { KnowsMembers here.now self.old }
        ensures updates { IfOk result (λ updates. updates ≡ carried here.now.scenario.now buddy (state_of self.old)) }
        ensures state { IsMade result (state_of self.new) (with_picks here.now.scenario.now buddy (state_of self.old)) }
        ensures kept { OnOk result (KnowsMembers here.now self.new) }
    {
        let swim = here.scenario.swim();
        let limit = swim.lambda * u64::from(digits(self.live_members(here)));
        let updates = self.buffer.pick(swim.carry as usize, limit, buddy)?;
        Ok(Updates::of(updates))
    }

    /// The suspicion that a ping carries to its receiver (Lifeguard's Buddy System).
    #[tactic(auto, using(crate::proofs::Buddies::none_told), unfolding(crate::specs::Send::buddy_of))]
    fn buddy(&self, here: &Here, to: MemberId) -> Option<Update>
        ensures { result ≡ buddy_of here.now.scenario.now to (state_of self.now) }
    {
        if !here.scenario.lifeguard().buddy {
            return None;
        }
        // Few members are suspected, so this is asked first: the table is large, and seldom at hand.
        let accuser = self.suspicions.first_accuser(to)?;
        let held = self.table.get(to)?;
        if !is_suspect(held.0) {
            return None;
        }
        Some(Update {
            subject: to,
            claim: Claim::Suspect,
            inc: held.1,
            accuser,
        })
    }

    /// Sends a ping on behalf of its initiator (SWIM, section 3.1).
    #[tactic(auto, unfolding(crate::specs::Send::ping_sent))]
    pub(crate) fn send_ping(
        &mut self,
        effects: &mut Effects,
        here: &Here,
        to: MemberId,
        initiator: MemberId,
        seq: u64,
    ) -> Result<(), StepError>
        requires to { IsMember here.now to }
        requires known { KnowsMembers here.now self.old }
        ensures { Makes here.now result self.old effects.old self.new effects.new (ping_sent here.now.scenario.now here.now.key to initiator seq) }
    {
        let buddy = self.buddy(here, to);
        let updates = self.pick(here, buddy)?;
        let ping = EventKind::Ping {
            initiator,
            seq,
            updates,
        };
        self.send(effects, here, What::Ping, to, seq, ping)
    }

    /// Asks a helper to ping the target (SWIM, section 3.1).
    #[tactic(auto, unfolding(crate::specs::Send::ping_req_sent))]
    pub(crate) fn send_ping_req(
        &mut self,
        effects: &mut Effects,
        here: &Here,
        target: MemberId,
        seq: u64,
        to: MemberId,
    ) -> Result<(), StepError>
        requires to { IsMember here.now to }
        requires known { KnowsMembers here.now self.old }
        ensures { Makes here.now result self.old effects.old self.new effects.new (ping_req_sent here.now.scenario.now here.now.key target seq to) }
    {
        let updates = self.pick_riding(here, Bearer::PingReq(target))?;
        let request = EventKind::PingReq {
            target,
            seq,
            updates,
        };
        self.send(effects, here, What::PingReq, to, seq, request)
    }

    /// Sends an ack on its way to the initiator of the probe (SWIM, section 3.1).
    #[tactic(auto, unfolding(crate::specs::Send::ack_sent))]
    pub(crate) fn send_ack(
        &mut self,
        effects: &mut Effects,
        here: &Here,
        to: MemberId,
        initiator: MemberId,
        seq: u64,
    ) -> Result<(), StepError>
        requires to { IsMember here.now to }
        requires known { KnowsMembers here.now self.old }
        ensures { Makes here.now result self.old effects.old self.new effects.new (ack_sent here.now.scenario.now here.now.key to initiator seq) }
    {
        let updates = self.pick_riding(here, Bearer::Ack)?;
        let ack = EventKind::Ack {
            initiator,
            seq,
            updates,
        };
        self.send(effects, here, What::Ack, to, seq, ack)
    }

    /// Sends the ack to a ping, on its way to the initiator of the probe.
    #[tactic(auto, unfolding(crate::specs::Send::pings_ack_sent))]
    pub(crate) fn send_pings_ack(
        &mut self,
        effects: &mut Effects,
        here: &Here,
        to: MemberId,
        initiator: MemberId,
        seq: u64,
    ) -> Result<(), StepError>
        requires to { IsMember here.now to }
        requires known { KnowsMembers here.now self.old }
        ensures { Makes here.now result self.old effects.old self.new effects.new (pings_ack_sent here.now.scenario.now here.now.key to initiator seq) }
    {
        let updates = self.pick_riding(here, Bearer::PingsAck)?;
        let ack = EventKind::Ack {
            initiator,
            seq,
            updates,
        };
        self.send(effects, here, What::Ack, to, seq, ack)
    }

    /// Sends an initiator a nack: the target has not answered in time (LHA-Probe).
    #[tactic(auto, unfolding(crate::specs::Send::nack_sent))]
    pub(crate) fn send_nack(
        &mut self,
        effects: &mut Effects,
        here: &Here,
        to: MemberId,
        seq: u64,
    ) -> Result<(), StepError>
        requires to { IsMember here.now to }
        requires known { KnowsMembers here.now self.old }
        ensures { Makes here.now result self.old effects.old self.new effects.new (nack_sent here.now.scenario.now here.now.key to seq) }
    {
        self.send(effects, here, What::Nack, to, seq, EventKind::Nack { seq })
    }

    /// Asks the contact, where there is one, to let the member join.
    #[tactic(auto, unfolding(crate::specs::Send::join_sent))]
    pub(crate) fn send_join(&mut self, effects: &mut Effects, here: &Here) -> Result<(), StepError>
        requires { KnowsMembers here.now self.old }
        ensures { Makes here.now result self.old effects.old self.new effects.new (join_sent here.now.scenario.now here.now.key) }
    {
        match here.scenario.contact(here.key.to) {
            None => Ok(()),
            Some(contact) => self.send(effects, here, What::Join, contact, 0, EventKind::Join),
        }
    }

    /// The whole table and oneself. Oneself stands in the table meanwhile.
    #[tactic(auto, unfolding(crate::specs::Send::whole_table))]
    pub(crate) fn whole_table(&mut self, here: &Here) -> Result<Updates, StepError>
        requires { KnowsMembers here.now self.old }
        ensures entries { IfOk result (λ entries. entries ≡ whole_table here.now.key.to (state_of self.old).incarnation (state_of self.old).table) }
        ensures state { IsMade result (state_of self.new) (state_of self.old) }
    {
        let oneself = (Claim::Alive, self.incarnation);
        self.table.set(here.key.to, oneself)?;
        let entries = self.table.updates_by(here.alloc, here.key.to)?;
        self.table.remove(here.key.to);
        Ok(Updates::of(entries))
    }

    /// The whole table and oneself, by one's own word. Oneself stands in the table meanwhile.
    #[tactic(auto, unfolding(crate::specs::Wholes::whole_state))]
    fn whole_state(&mut self, here: &Here) -> Result<Updates, StepError>
        requires { KnowsMembers here.now self.old }
        ensures entries { IfOk result (λ entries. entries ≡ whole_state here.now.key.to (state_of self.old)) }
        ensures state { IsMade result (state_of self.new) (state_of self.old) }
    {
        let oneself = (own_word(self.life.leaving()), self.incarnation);
        self.table.set(here.key.to, oneself)?;
        let entries = self.table.updates_by(here.alloc, here.key.to)?;
        self.table.remove(here.key.to);
        Ok(Updates::of(entries))
    }

    /// The whole table and oneself, by the rules of the profile.
    pub(crate) fn whole_by(&mut self, here: &Here) -> Result<Updates, StepError>
        requires { KnowsMembers here.now self.old }
        ensures entries { IfOk result (λ entries. entries ≡ whole_by (profile_of here.now.scenario.now) here.now.key.to (state_of self.old)) }
        ensures state { IsMade result (state_of self.new) (state_of self.old) }
    {
        match here.scenario.profile() {
            Profile::Papers | Profile::Memberlist => self.whole_table(here),
            Profile::Hashicorp => self.whole_state(here),
        }
    }

    /// Sends a member that joins all that one knows.
    #[tactic(auto, unfolding(crate::specs::Send::welcome_sent))]
    pub(crate) fn send_welcome(
        &mut self,
        effects: &mut Effects,
        here: &Here,
        to: MemberId,
    ) -> Result<(), StepError>
        requires to { IsMember here.now to }
        requires known { KnowsMembers here.now self.old }
        ensures { Makes here.now result self.old effects.old self.new effects.new (welcome_sent here.now.scenario.now here.now.key to) }
    {
        let entries = self.whole_table(here)?;
        self.send(
            effects,
            here,
            What::Welcome,
            to,
            0,
            EventKind::Welcome { entries },
        )
    }

    /// Says bye to a member.
    #[tactic(auto, unfolding(crate::specs::Send::bye_sent))]
    pub(crate) fn send_bye(
        &mut self,
        effects: &mut Effects,
        here: &Here,
        to: MemberId,
    ) -> Result<(), StepError>
        requires to { IsMember here.now to }
        requires known { KnowsMembers here.now self.old }
        ensures { Makes here.now result self.old effects.old self.new effects.new (bye_sent here.now.scenario.now here.now.key to) }
    {
        self.send(effects, here, What::Bye, to, 0, EventKind::Bye)
    }
}

// What a member claims of itself: that it has left, once it says so.
fn own_word(leaving: Leaving) -> Claim
    ensures { result ≡ own_word leaving }
{
    if leaving.has_said() {
        Claim::Left
    } else {
        Claim::Alive
    }
}

// How many members the rules of a profile count, oneself included: those that are not confirmed, or all that
// are known.
fn size_of(table: &Table, profile: Profile) -> usize
    ensures { result ≡ size_by profile table.now }
{
    match profile {
        Profile::Papers | Profile::Memberlist => table.live_count(),
        Profile::Hashicorp => table.known_count(),
    }
}
