//! How a step writes rows, makes events and sets timers; an event takes the next of its member's numbers,
//! or ends the step by a counter overflow.
ghost use Rattle.std.specs.Prelude.{◌≡◌, ◌≤◌, ◌^◌, OnOk, IsErrOf};
ghost use Rattle.member.specs.Makes.{IsMade, IsMember, KnowsMembers, Makes};
ghost use Rattle.member.specs.Effects.{with_row, with_event, with_number, with_timer};
ghost use Rattle.member.specs.StateOf.{effect_of, state_of};
ghost use Rattle.member.specs.CounterOverflow.{IsOverflowed};

use crate::event::{Effects, Event};
use crate::event_kind::EventKind;
use crate::here::Here;
use crate::member::Member;
use crate::step_error::StepError;
use base::limits::COUNTER_LIMIT;
use base::{Key, MemberId, Moment};
use trace::{Row, What};

impl Member {
    /// Writes the next row of the event.
    #[tactic(auto, unfolding(crate::specs::Effects::with_row))]
    pub(crate) fn write_row(
        &self,
        effects: &mut Effects,
        here: &Here,
        what: What,
        about: Option<MemberId>,
        value: u64,
        lost: bool,
    ) -> Result<(), StepError>
        ensures { IsMade result (effect_of self.now effects.new) (with_row here.now.key what about value lost (effect_of self.now effects.old)) }
    {
        // So many rows of one event have no place in memory.
        let Ok(index) = u32::try_from(effects.rows.len()) else {
            return Err(StepError::Memory);
        };
        let row = Row {
            at: here.key.at,
            member: here.key.to,
            from: here.key.from,
            number: here.key.number,
            index,
            what,
            about,
            value,
            lost,
        };
        effects.rows.push(row)?;
        Ok(())
    }

    /// Uses the next number for a message that is lost. CounterOverflow where the number stands at its limit.
    #[tactic(auto, using(crate::proofs::CounterOverflow::overflow_number), unfolding(crate::specs::Effects::with_number))]
    pub(crate) fn use_number(&mut self, here: &Here) -> Result<(), StepError>
        requires { KnowsMembers here.now self.old }
        ensures ok { OnOk result (state_of self.new ≡ with_number (state_of self.old)) }
        ensures overflow { IsErrOf result StepError.CounterOverflow → IsOverflowed (with_number (state_of self.old)) }
        ensures kept { OnOk result (KnowsMembers here.now self.new) }
    {
        if self.next_number >= COUNTER_LIMIT {
            return Err(StepError::CounterOverflow);
        }
        self.next_number += 1;
        Ok(())
    }

    /// Makes an event, for a moment or for the end of a pause of its receiver that covers it. CounterOverflow where the
    /// member's number stands at its limit.
    #[tactic(auto, using(crate::proofs::CounterOverflow::overflow_event), unfolding(crate::specs::Effects::with_event))]
    #[inline(always)]
    pub(crate) fn make_event(
        &mut self,
        effects: &mut Effects,
        here: &Here,
        at: Moment,
        to: MemberId,
        content: EventKind,
    ) -> Result<(), StepError>
        requires to { IsMember here.now to }
        requires known { KnowsMembers here.now self.old }
        ensures { Makes here.now result self.old effects.old self.new effects.new (with_event here.now.scenario.now here.now.key at to content) }
    {
        let number = self.next_number;
        if number >= COUNTER_LIMIT {
            return Err(StepError::CounterOverflow);
        }
        let key = Key {
            at: here.scenario.awake(to, at),
            to,
            from: here.key.to,
            number,
        };
        effects.events.push(Event { key, content })?;
        self.next_number = number + 1;
        Ok(())
    }

    /// Sets a timer of the member's own, so many ticks from now.
    #[tactic(auto, unfolding(crate::specs::Effects::with_timer))]
    #[inline(always)]
    pub(crate) fn set_timer(
        &mut self,
        effects: &mut Effects,
        here: &Here,
        ticks: u64,
        content: EventKind,
    ) -> Result<(), StepError>
        requires ticks_within { ticks ≤ 2 ^ 41 }
        requires known { KnowsMembers here.now self.old }
        ensures { Makes here.now result self.old effects.old self.new effects.new (with_timer here.now.scenario.now here.now.key ticks content) }
    {
        let at = Moment(here.key.at.ticks() + ticks);
        self.make_event(effects, here, at, here.key.to, content)
    }
}
