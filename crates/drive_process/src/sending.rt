//! How actions make events and rows: an event takes the next of its member's numbers, or ends the handling by a counter
//! overflow.
ghost use Rattle.std.specs.Prelude.{◌≡◌, ◌≤◌, ◌^◌, OnOk, IsErrOf};
ghost use Rattle.scenario.specs.Profile.{profile_of};
ghost use Rattle.member.specs.Blocks.{on_its_way, departs_by, got_through_by};
ghost use Rattle.drive_process.specs.Process.{with_row, with_number, with_event};
ghost use Rattle.drive_process.specs.Acts.{stream, way_of, arrival_by, sent_off, posted, carried, sent};
ghost use Rattle.drive_process.specs.ProcessOf.{process_of, effect_of};
ghost use Rattle.drive_process.specs.Makes.{IsMember, IsOverflowed, Makes};

use crate::effects::{ProcessEffects, ProcessEvent};
use crate::here::Here;
use crate::process::Process;
use base::limits::COUNTER_LIMIT;
use base::{Key, MemberId, Moment, Profile};
use drive_answers::Send;
use drive_events::{Content, Message};
use member::StepError;
use trace::{Row, What};

impl Process {
    /// Writes the next row of the event.
    #[tactic(auto, unfolding(crate::specs::Process::with_row))]
    pub(crate) fn write_row(
        &self,
        effects: &mut ProcessEffects,
        here: &Here,
        what: What,
        about: Option<MemberId>,
        value: u64,
        lost: bool,
    ) -> Result<(), StepError>
        ensures ok { OnOk result (effect_of self.now effects.new ≡ with_row here.now.key what about value lost (effect_of self.now effects.old)) }
        ensures memory { ¬ (IsErrOf result StepError.CounterOverflow) }
    {
        // So many rows of one event have no place in memory.
        let Ok(index) = u32::try_from(effects.rows.len()) else {
            return Err(StepError::Memory);
        };
        let row = Row {
            at: here.key.at,
            member: here.key.to,
            from: here.key.from,
            number: here.key.number,
            index,
            what,
            about,
            value,
            lost,
        };
        effects.rows.push(row)?;
        Ok(())
    }

    /// Uses the next number for a message that is lost. CounterOverflow where the number stands at its limit.
    #[tactic(auto, unfolding(crate::specs::Process::with_number))]
    fn use_number(&mut self) -> Result<(), StepError>
        ensures ok { OnOk result (process_of self.new ≡ with_number (process_of self.old)) }
        ensures overflow { IsErrOf result StepError.CounterOverflow → IsOverflowed (with_number (process_of self.old)) }
    {
        if self.next_number >= COUNTER_LIMIT {
            return Err(StepError::CounterOverflow);
        }
        self.next_number += 1;
        Ok(())
    }

    /// Makes an event, for a moment or for the end of a pause of its receiver that covers it. CounterOverflow where the
    /// member's number stands at its limit.
    #[tactic(auto, unfolding(crate::specs::Process::with_event))]
    pub(crate) fn make_event(
        &mut self,
        effects: &mut ProcessEffects,
        here: &Here,
        at: Moment,
        to: MemberId,
        content: Content,
    ) -> Result<(), StepError>
        requires { IsMember here.now to }
        ensures { Makes result self.old effects.old self.new effects.new (with_event here.now.scenario.now here.now.key at to content) }
    {
        let number = self.next_number;
        if number >= COUNTER_LIMIT {
            return Err(StepError::CounterOverflow);
        }
        let key = Key {
            at: here.scenario.awake(to, at),
            to,
            from: here.key.to,
            number,
        };
        effects.events.push(ProcessEvent { key, content })?;
        self.next_number = number + 1;
        Ok(())
    }

    /// When a message that departs at a moment is there, if it comes.
    #[tactic(auto, unfolding(crate::specs::Acts::arrival_by))]
    fn draw_arrival(
        &mut self,
        here: &Here,
        what: What,
        stream: bool,
        to: MemberId,
        departs: Moment,
    ) -> Option<Moment>
        requires to { IsMember here.now to }
        requires early { departs ≤ 2 ^ 40 }
        ensures drawn { (result, (process_of self.new).words)
            ≡ arrival_by (way_of what stream) here.now.scenario.now here.now.key.to to departs (process_of self.old).words }
        ensures phase { self.new.phase ≡ self.old.phase }
        ensures birth { self.new.birth ≡ self.old.birth }
        ensures number { self.new.next_number ≡ self.old.next_number }
    {
        let from = here.key.to;
        match what {
            What::Push | What::Pull => here.links.kept_arrival(from, to, departs, &mut self.stream),
            What::Call if stream => here.links.call(from, to, departs, &mut self.stream),
            _ if stream => here.links.answer(from, to, departs, &mut self.stream),
            _ => here.links.arrival(from, to, departs, &mut self.stream),
        }
    }

    /// When a message gets through to a member, if it comes: both may be blocked.
    fn arrival(&mut self, here: &Here, what: What, stream: bool, to: MemberId) -> Option<Moment>
        requires { IsMember here.now to }
        ensures drawn { (result, (process_of self.new).words)
            ≡ on_its_way (profile_of here.now.scenario.now) here.now.scenario.now here.now.key to
            (arrival_by (way_of what stream) here.now.scenario.now here.now.key.to to) (process_of self.old).words }
        ensures phase { self.new.phase ≡ self.old.phase }
        ensures birth { self.new.birth ≡ self.old.birth }
        ensures number { self.new.next_number ≡ self.old.next_number }
    {
        let departs = departs_by(here);
        let drawn = self.draw_arrival(here, what, stream, to, departs);
        got_through_by(here, to, drawn)
    }

    /// A message arrives, or is lost.
    fn send_off(
        &mut self,
        effects: &mut ProcessEffects,
        here: &Here,
        to: MemberId,
        content: Content,
        arrival: Option<Moment>,
    ) -> Result<(), StepError>
        requires { IsMember here.now to }
        ensures { Makes result self.old effects.old self.new effects.new (sent_off here.now.scenario.now here.now.key to content arrival) }
    {
        match arrival {
            Some(at) => self.make_event(effects, here, at, to, content),
            None => self.use_number(),
        }
    }

    /// Writes the row of a message, which arrives or is lost.
    fn post(
        &mut self,
        effects: &mut ProcessEffects,
        here: &Here,
        what: What,
        to: MemberId,
        value: u64,
        content: Content,
        arrival: Option<Moment>,
    ) -> Result<(), StepError>
        requires { IsMember here.now to }
        ensures { Makes result self.old effects.old self.new effects.new (posted here.now.scenario.now here.now.key what to value content arrival) }
    {
        self.write_row(effects, here, what, Some(to), value, arrival.is_none())?;
        self.send_off(effects, here, to, content, arrival)
    }

    /// Sends a message: its row, and its arrival unless it is lost.
    #[tactic(auto, unfolding(crate::specs::Acts::sent, crate::specs::Acts::carried))]
    pub(crate) fn send(
        &mut self,
        effects: &mut ProcessEffects,
        here: &Here,
        send: Send,
    ) -> Result<(), StepError>
        requires { IsMember here.now send.to }
        ensures { Makes result self.old effects.old self.new effects.new (sent here.now.scenario.now here.now.key send) }
    {
        let Send {
            what,
            to,
            value,
            payload,
            stream,
        } = send;
        let arrival = self.arrival(here, what, stream, to);
        let content = Content::Message(Message {
            what,
            value,
            payload,
        });
        self.post(effects, here, what, to, value, content, arrival)
    }
}

/// When what the receiver of the event sends now departs, by the rules of the profile: now, or at the end of a block.
fn departs_by(here: &Here) -> Moment
    ensures value { result ≡ departs_by (profile_of here.now.scenario.now) here.now.scenario.now here.now.key }
    ensures early { result ≤ 2 ^ 40 }
{
    match here.scenario.profile() {
        Profile::Papers | Profile::Memberlist => here.key.at,
        Profile::Hashicorp => here.scenario.free(here.key.to, here.key.at),
    }
}

/// When a message gets through to a member, if it comes, by the rules of the profile.
fn got_through_by(here: &Here, to: MemberId, arrival: Option<Moment>) -> Option<Moment>
    requires { IsMember here.now to }
    ensures { result ≡ got_through_by (profile_of here.now.scenario.now) here.now.scenario.now to arrival }
{
    match here.scenario.profile() {
        Profile::Papers | Profile::Memberlist => arrival,
        Profile::Hashicorp => {
            let at = arrival?;
            Some(here.scenario.free(to, at))
        }
    }
}
