//! What rides on a message by memberlist 0.5.0's and Serf's rules: claims, and behind them intents, into so much room.
ghost use Rattle.std.specs.Prelude.{◌≡◌, ◌≤◌, ◌<◌, ◌-◌, length, IfOk, IfErr, OnOk};
ghost use Rattle.scenario.specs.Profile.{profile_of};
ghost use Rattle.scenario.specs.Setup.{IsSoundQueue};
ghost use Rattle.member.specs.Makes.{IsMade, KnowsMembers};
ghost use Rattle.member.specs.Picks.{limit_of};
ghost use Rattle.member.specs.Riding.{both_for, carrier_of, claim_bytes, claims_for, has_no_claims, intent_bytes, intents_for, intents_that_fit, is_all_told, is_claim_held, measure_of, name_length, put_up, riding_by, room_behind, room_of, without_both, without_claims, without_intents, without_riding_by};
ghost use Rattle.member.specs.StateOf.{state_of};

use crate::here::Here;
use crate::member::Member;
use crate::step_error::StepError;
use crate::updates::Updates;
use base::{MemberId, Profile, digits};
use broadcast_queue::{Carrier, Measure, Packed, message_length, room_for, text_length};
use incarnation::Update;
use scenario::{Queue, Scenario};
use std::alloc::Global;

/// A message on which updates ride.
#[derive(Clone, Copy, Debug, PartialEq, Eq)]
pub(crate) enum Bearer {
    /// Updates by themselves.
    Gossip,
    /// A ping to this member.
    Ping(MemberId),
    /// The asking of a helper to ping this member.
    PingReq(MemberId),
    /// An ack that a helper passes on.
    Ack,
    /// An ack that answers a ping.
    PingsAck,
}

/// The bytes of a member's name; none where there is no such member.
fn name_length(scenario: &Scenario, member: MemberId) -> u32
    ensures { result ≡ name_length scenario.now member }
{
    if member.index() < scenario.members() {
        scenario.name(member).len() as u32
    } else {
        0
    }
}

/// What a message of a member takes of its packet itself.
fn carrier_of(here: &Here, bearer: Bearer) -> Carrier
    ensures { result ≡ carrier_of here.now.scenario.now here.now.key.to bearer }
{
    let scenario = here.scenario;
    match bearer {
        Bearer::Gossip => Carrier::Gossip,
        Bearer::Ping(to) => Carrier::Ping(
            name_length(scenario, to),
            name_length(scenario, here.key.to),
        ),
        Bearer::PingReq(target) => Carrier::PingReq(
            name_length(scenario, target),
            name_length(scenario, here.key.to),
        ),
        Bearer::PingsAck if scenario.serf().is_some() => Carrier::AckWithCoordinate,
        Bearer::Ack | Bearer::PingsAck => Carrier::Ack,
    }
}

/// In what is measured what rides on a message.
fn measure_of(queue: Option<Queue>) -> Measure
    ensures { result ≡ measure_of queue }
{
    match queue {
        Some(queue) if queue.packet > 0 => Measure::Bytes,
        _ => Measure::Items,
    }
}

/// How much may ride on a message.
fn room_of(here: &Here, bearer: Bearer, queue: Option<Queue>) -> u64
    ensures { result ≡ room_of here.now.scenario.now here.now.key.to bearer queue }
{
    match queue {
        Some(queue) if queue.packet > 0 => room_for(queue.packet, carrier_of(here, bearer)),
        _ => here.scenario.swim().carry,
    }
}

/// The bytes of the message of a claim.
fn claim_bytes(scenario: &Scenario, queue: Queue, update: &Update) -> u64
    requires { IsSoundQueue queue }
    ensures { result ≡ claim_bytes scenario.now queue update.now }
{
    message_length(
        update.claim,
        update.inc,
        name_length(scenario, update.subject),
        name_length(scenario, update.accuser),
        queue.meta as u32,
    )
}

/// The bytes of an intent.
fn intent_bytes(scenario: &Scenario, intent: &Update) -> u64
    ensures { result ≡ intent_bytes scenario.now intent.now }
{
    26 + text_length(name_length(scenario, intent.subject))
}

/// Those of these intents, gone through once, that fit into so many bytes.
fn intents_that_fit(
    alloc: Global,
    scenario: &Scenario,
    room: u64,
    intents: &[Update],
) -> Result<Vec<Update>, StepError>
    ensures fitting { IfOk result (λ fitting. fitting.items ≡ intents_that_fit scenario.now room intents.now) }
    ensures err { IfErr result (λ e. e ≡ StepError.Memory) }
{
    let mut left = room;
    let mut fitting = Vec::new(alloc);
    for intent in intents {
        let bytes = intent_bytes(scenario, intent);
        if bytes <= left {
            fitting.push(*intent)?;
            left -= bytes;
        }
    }
    Ok(fitting)
}

/// Claims and intents that ride on messages.
impl Member {
    /// How often an update rides.
    fn limit(&self, here: &Here) -> u64
        requires { KnowsMembers here.now self.now }
        ensures { result ≡ limit_of here.now.scenario.now (state_of self.now) }
    {
        here.scenario.swim().lambda * u64::from(digits(self.live_members(here)))
    }

    /// Puts an update where what is still to be sent is kept: in the buffer, or in memberlist's queue. So many updates
    /// that the queue has no more ids have no place in memory.
    pub(crate) fn put_up(&mut self, here: &Here, update: Update) -> Result<(), StepError>
        requires { KnowsMembers here.now self.old }
        ensures put { IsMade result (state_of self.new) (put_up here.now.scenario.now here.now.scenario.now.queue update (state_of self.old)) }
        ensures kept { OnOk result (KnowsMembers here.now self.new) }
    {
        let settings = here.scenario.queue();
        let Some(queue) = settings else {
            self.buffer.put(update)?;
            return Ok(());
        };
        if !self.life.has_id() {
            return Err(StepError::Memory);
        }
        let bytes = claim_bytes(here.scenario, queue, &update);
        self.life.queue(here.alloc, update, bytes)?;
        Ok(())
    }

    /// The claims that ride where there is so much room, out of memberlist's queue, and the room that they leave.
    fn pick_queued(
        &mut self,
        here: &Here,
        queue: Queue,
        room: u64,
        limit: u64,
    ) -> Result<Packed, StepError>
        requires known { KnowsMembers here.now self.old }
        requires limit { limit ≡ limit_of here.now.scenario.now (state_of self.old) }
        ensures picked { IfOk result (λ packed. packed.updates.items ≡ claims_for here.now.scenario.now (Some queue) room (state_of self.old)) }
        ensures room { IfOk result (λ packed. packed.room ≡ room_behind here.now.scenario.now (Some queue) (measure_of (Some queue)) room (state_of self.old)) }
        ensures left { IsMade result (state_of self.new) (without_claims here.now.scenario.now (Some queue) room (state_of self.old)) }
        ensures kept { OnOk result (KnowsMembers here.now self.new) }
    {
        match measure_of(Some(queue)) {
            Measure::Bytes => Ok(self.life.pack_queued(here.alloc, room, limit)?),
            Measure::Items => {
                let updates = self.life.pick_queued(here.alloc, room as usize, limit)?;
                Ok(packed(updates, room))
            }
        }
    }

    /// The claims that ride where there is so much room, and the room that they leave.
    fn pick_claims(
        &mut self,
        here: &Here,
        queue: Option<Queue>,
        room: u64,
        limit: u64,
    ) -> Result<Packed, StepError>
        requires known { KnowsMembers here.now self.old }
        requires limit { limit ≡ limit_of here.now.scenario.now (state_of self.old) }
        ensures picked { IfOk result (λ packed. packed.updates.items ≡ claims_for here.now.scenario.now queue room (state_of self.old)) }
        ensures room { IfOk result (λ packed. packed.room ≡ room_behind here.now.scenario.now queue (measure_of queue) room (state_of self.old)) }
        ensures left { IsMade result (state_of self.new) (without_claims here.now.scenario.now queue room (state_of self.old)) }
        ensures kept { OnOk result (KnowsMembers here.now self.new) }
    {
        match queue {
            Some(queue) => self.pick_queued(here, queue, room, limit),
            None => {
                let updates = self.buffer.pick(room as usize, limit, None)?;
                Ok(packed(updates, room))
            }
        }
    }

    /// The intents that ride where there is so much room.
    fn pick_intents(
        &mut self,
        here: &Here,
        measure: Measure,
        room: u64,
        limit: u64,
    ) -> Result<Vec<Update>, StepError>
        requires known { KnowsMembers here.now self.old }
        requires limit { limit ≡ limit_of here.now.scenario.now (state_of self.old) }
        ensures picked { IfOk result (λ intents. intents.items ≡ intents_for here.now.scenario.now measure room (state_of self.old)) }
        ensures left { IsMade result (state_of self.new) (without_intents here.now.scenario.now (intents_for here.now.scenario.now measure room (state_of self.old)) (state_of self.old)) }
        ensures kept { OnOk result (KnowsMembers here.now self.new) }
    {
        match measure {
            Measure::Items => Ok(self.life.pick_intents(here.alloc, room as usize, limit)?),
            Measure::Bytes => {
                let waiting = self.life.waiting_intents(here.alloc, limit)?;
                let fitting = intents_that_fit(here.alloc, here.scenario, room, &waiting)?;
                self.life.carry_intents(&fitting, limit);
                Ok(fitting)
            }
        }
    }

    /// The claims and the intents that ride on a message.
    #[inline(always)]
    fn pick_both(&mut self, here: &Here, bearer: Bearer) -> Result<Updates, StepError>
        requires { KnowsMembers here.now self.old }
        ensures updates { IfOk result (λ updates. updates ≡ both_for here.now.scenario.now here.now.key.to bearer (state_of self.old)) }
        ensures state { IsMade result (state_of self.new) (without_both here.now.scenario.now here.now.key.to bearer (state_of self.old)) }
        ensures kept { OnOk result (KnowsMembers here.now self.new) }
    {
        if self.is_all_told(here) {
            return Ok(Updates::of(Vec::new(here.alloc)));
        }
        self.pick_waiting(here, bearer)
    }

    /// The same, where some wait.
    fn pick_waiting(&mut self, here: &Here, bearer: Bearer) -> Result<Updates, StepError>
        requires { KnowsMembers here.now self.old }
        ensures updates { IfOk result (λ updates. updates ≡ both_for here.now.scenario.now here.now.key.to bearer (state_of self.old)) }
        ensures state { IsMade result (state_of self.new) (without_both here.now.scenario.now here.now.key.to bearer (state_of self.old)) }
        ensures kept { OnOk result (KnowsMembers here.now self.new) }
    {
        let queue = here.scenario.queue();
        let limit = self.limit(here);
        let room = room_of(here, bearer, queue);
        let claims = self.pick_claims(here, queue, room, limit)?;
        if self.life.has_no_intents() {
            return Ok(Updates::of(claims.updates));
        }
        let mut intents = self.pick_intents(here, measure_of(queue), claims.room, limit)?;
        let mut updates = claims.updates;
        updates.append(&mut intents)?;
        Ok(Updates::of(updates))
    }

    /// What rides on a message, by the rules of the profile.
    #[inline(always)]
    pub(crate) fn pick_riding(&mut self, here: &Here, bearer: Bearer) -> Result<Updates, StepError>
        requires { KnowsMembers here.now self.old }
        ensures updates { IfOk result (λ updates. updates ≡ riding_by (profile_of here.now.scenario.now) here.now.scenario.now here.now.key.to bearer (state_of self.old)) }
        ensures state { IsMade result (state_of self.new) (without_riding_by (profile_of here.now.scenario.now) here.now.scenario.now here.now.key.to bearer (state_of self.old)) }
        ensures kept { OnOk result (KnowsMembers here.now self.new) }
    {
        match here.scenario.profile() {
            Profile::Papers | Profile::Memberlist => self.pick(here, None),
            Profile::Hashicorp => self.pick_both(here, bearer),
        }
    }

    /// Whether no claim is left to send.
    fn has_no_claims(&self, here: &Here) -> bool
        ensures { result ≡ has_no_claims here.now.scenario.now.queue (state_of self.now) }
    {
        match here.scenario.queue() {
            Some(_) => self.life.has_empty_queue(),
            None => self.buffer.is_empty(),
        }
    }

    /// Whether no claim and no intent is left to send.
    pub(crate) fn is_all_told(&self, here: &Here) -> bool
        ensures { result ≡ is_all_told here.now.scenario.now (state_of self.now) }
    {
        self.has_no_claims(here) && self.life.has_no_intents()
    }

    /// Whether a claim about a member is still to be sent.
    pub(crate) fn holds_claim_of(&self, here: &Here, subject: MemberId) -> bool
        ensures { result ≡ is_claim_held here.now.scenario.now.queue subject (state_of self.now) }
    {
        match here.scenario.queue() {
            Some(_) => self.life.is_queued(subject),
            None => self.buffer.of(subject).is_some(),
        }
    }
}

/// These updates, of which each takes one of the room.
fn packed(updates: Vec<Update>, room: u64) -> Packed
    ensures updates { result.updates.items ≡ updates.items }
    ensures room { result.room ≡ room - length updates.items }
{
    let room = room.saturating_sub(updates.len() as u64);
    Packed { updates, room }
}
