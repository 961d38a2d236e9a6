//! The step that a member makes of one event: its phase and the rules of its profile decide which events it heeds.
ghost use Rattle.std.specs.Prelude.{◌≡◌, ◌++◌, [], OnOk, IfErr, IsErrOf};
ghost use Rattle.std.specs.Bool.{OnTrue};
ghost use Rattle.member.specs.declared.event.Event.{Event as OneEvent};
ghost use Rattle.scenario.specs.Setup.{member_count};
ghost use Rattle.member.specs.Here.{IsSoundSetting, HoldsMembers};
ghost use Rattle.member.specs.Makes.{KnowsMembers, Makes};
ghost use Rattle.member.specs.Here.{MentionsMembers};
ghost use Rattle.scenario.specs.Profile.{profile_of};
ghost use Rattle.member.specs.Step.{step, handled_by, phase_timed, single_handled, timed_handled, handled, plain_handled, probing_handled};
ghost use Rattle.member.specs.Steps.{Steps};
ghost use Rattle.member.specs.StateOf.{state_of};
ghost use Rattle.member.specs.CounterOverflow.{IsOverflowed};

use crate::announce::Announce;
use crate::event::{Effects, Event};
use crate::event_kind::EventKind;
use crate::here::Here;
use crate::member::{Member, Phase};
use crate::step_error::StepError;
use base::{Key, Profile};
use links::Links;
use scenario::Scenario;
use std::alloc::Global;
use std::mem::replace;

impl Member {
    /// A member that waits heeds its start alone.
    #[tactic(auto, unfolding(crate::specs::Step::handled, crate::specs::Step::plain_handled))]
    fn handle_waiting(
        &mut self,
        effects: &mut Effects,
        here: &Here,
        content: &EventKind,
    ) -> Result<(), StepError>
        requires { KnowsMembers here.now self.old }
        ensures { Makes here.now result self.old effects.old self.new effects.new (handled here.now.scenario.now here.now.key content.now Phase.Waiting) }
    {
        match content {
            EventKind::Start => self.start(effects, here),
            _ => Ok(()),
        }
    }

    /// A member that joins heeds a crash, a leave, its join timer and a welcome.
    #[tactic(auto, unfolding(crate::specs::Step::handled, crate::specs::Step::plain_handled))]
    fn handle_joining(
        &mut self,
        effects: &mut Effects,
        here: &Here,
        content: &EventKind,
    ) -> Result<(), StepError>
        requires known { KnowsMembers here.now self.old }
        requires names { MentionsMembers (member_count here.now.scenario.now) content.now }
        ensures { Makes here.now result self.old effects.old self.new effects.new (handled here.now.scenario.now here.now.key content.now Phase.Joining) }
    {
        match content {
            EventKind::Crash => self.crash(effects, here),
            EventKind::Leave => self.withdraw(effects, here),
            EventKind::JoinTimer => self.ask_join(effects, here),
            EventKind::Welcome { entries } => self.join(effects, here, entries.as_slice()),
            _ => Ok(()),
        }
    }

    /// A member that runs heeds all but its start, its join timer and a second welcome.
    #[tactic(auto, unfolding(crate::specs::Step::handled, crate::specs::Step::plain_handled))]
    fn handle_running(
        &mut self,
        effects: &mut Effects,
        here: &Here,
        content: &EventKind,
    ) -> Result<(), StepError>
        requires known { KnowsMembers here.now self.old }
        requires names { MentionsMembers (member_count here.now.scenario.now) content.now }
        ensures { Makes here.now result self.old effects.old self.new effects.new (handled here.now.scenario.now here.now.key content.now Phase.Running) }
    {
        match content {
            EventKind::Crash => self.crash(effects, here),
            EventKind::Leave => self.depart(effects, here),
            EventKind::PeriodTimer => self.begin_period(effects, here),
            EventKind::TimeoutTimer { seq } => self.time_out(effects, here, *seq),
            EventKind::NackTimer { initiator, seq } => self.end_relay(
                effects, here, *initiator, *seq,
            ),
            EventKind::SuspicionTimer { subject } => self.end_suspicion(effects, here, *subject),
            EventKind::Join => self.hear_join(effects, here),
            EventKind::Nack { seq } => {
                self.hear_nack(effects, here, *seq);
                Ok(())
            }
            EventKind::Bye => self.confirm(effects, here, here.key.from),
            _ => self.handle_probing(effects, here, content),
        }
    }

    /// The messages of a probe, on which updates ride.
    fn handle_probing(
        &mut self,
        effects: &mut Effects,
        here: &Here,
        content: &EventKind,
    ) -> Result<(), StepError>
        requires known { KnowsMembers here.now self.old }
        requires names { MentionsMembers (member_count here.now.scenario.now) content.now }
        ensures { Makes here.now result self.old effects.old self.new effects.new (probing_handled here.now.scenario.now here.now.key content.now) }
    {
        match content {
            EventKind::Ping {
                initiator,
                seq,
                updates,
            } => self.hear_ping(effects, here, *initiator, *seq, updates.as_slice()),
            EventKind::PingReq {
                target,
                seq,
                updates,
            } => self.hear_ping_req(effects, here, *seq, *target, updates.as_slice()),
            EventKind::Ack {
                initiator,
                seq,
                updates,
            } => self.hear_ack(effects, here, *initiator, *seq, updates.as_slice()),
            _ => Ok(()),
        }
    }

    /// A member that runs, by memberlist's rules: what they add, and what they change of its own probe.
    #[tactic(auto, unfolding(crate::specs::Step::timed_handled))]
    fn handle_timed(
        &mut self,
        effects: &mut Effects,
        here: &Here,
        content: &EventKind,
    ) -> Result<(), StepError>
        requires known { KnowsMembers here.now self.old }
        requires names { MentionsMembers (member_count here.now.scenario.now) content.now }
        ensures { Makes here.now result self.old effects.old self.new effects.new (timed_handled here.now.scenario.now here.now.key content.now) }
    {
        match content {
            EventKind::PeriodTimer => self.beat_period(effects, here),
            EventKind::TimeoutTimer { seq } => self.time_out_timed(effects, here, *seq),
            EventKind::DeadlineTimer { seq } => self.end_deadline(effects, here, *seq),
            EventKind::Ack {
                initiator,
                seq,
                updates,
            } => self.hear_timed_ack(effects, here, *initiator, *seq, updates.as_slice()),
            EventKind::Call { seq } => self.send_answer(effects, here, here.key.from, *seq),
            EventKind::Answer { seq } => {
                self.hear_answer(effects, here, *seq);
                Ok(())
            }
            EventKind::GossipTimer => self.gossip(effects, here),
            EventKind::Gossip { updates } => self.apply_all(
                effects,
                here,
                Announce::Aloud,
                updates.as_slice(),
            ),
            EventKind::PushTimer => self.end_push(effects, here),
            EventKind::Push { entries } => self.hear_push(effects, here, entries.as_slice()),
            EventKind::Pull { entries } => self.merge(effects, here, entries.as_slice()),
            _ => self.handle_running(effects, here, content),
        }
    }

    /// A member that runs, by memberlist 0.5.0's rules: what they change.
    #[tactic(auto, unfolding(crate::specs::Step::single_handled))]
    pub(crate) fn handle_single(
        &mut self,
        effects: &mut Effects,
        here: &Here,
        content: &EventKind,
    ) -> Result<(), StepError>
        requires known { KnowsMembers here.now self.old }
        requires names { MentionsMembers (member_count here.now.scenario.now) content.now }
        ensures { Makes here.now result self.old effects.old self.new effects.new (single_handled here.now.scenario.now here.now.key content.now) }
    {
        match content {
            EventKind::PeriodTimer => self.beat_once(effects, here),
            EventKind::DeadlineTimer { seq } => self.end_single_deadline(effects, here, *seq),
            EventKind::Ping {
                initiator,
                seq,
                updates,
            } => self.answer_ping(effects, here, *initiator, *seq, updates.as_slice()),
            EventKind::PingReq {
                target,
                seq,
                updates,
            } => self.hear_help_request(effects, here, *seq, *target, updates.as_slice()),
            EventKind::Ack {
                initiator,
                seq,
                updates,
            } => self.hear_single_ack(effects, here, *initiator, *seq, updates.as_slice()),
            EventKind::NackTimer { initiator, seq } => self.end_help(
                effects, here, *initiator, *seq,
            ),
            _ => self.handle_timed(effects, here, content),
        }
    }

    /// By the papers' rules, and the phase of the member.
    #[tactic(auto, unfolding(crate::specs::Step::handled, crate::specs::Step::plain_handled))]
    #[inline(always)]
    fn handle_by_papers(
        &mut self,
        effects: &mut Effects,
        here: &Here,
        content: &EventKind,
    ) -> Result<(), StepError>
        requires known { KnowsMembers here.now self.old }
        requires names { MentionsMembers (member_count here.now.scenario.now) content.now }
        ensures { Makes here.now result self.old effects.old self.new effects.new (handled here.now.scenario.now here.now.key content.now (state_of self.old).phase) }
    {
        match self.phase {
            Phase::Waiting => self.handle_waiting(effects, here, content),
            Phase::Joining => self.handle_joining(effects, here, content),
            Phase::Running => self.handle_running(effects, here, content),
            Phase::Down => Ok(()),
        }
    }

    /// By memberlist's rules, and the phase of the member.
    #[tactic(auto, unfolding(crate::specs::Step::handled, crate::specs::Step::plain_handled))]
    #[inline(always)]
    fn handle_by_memberlist(
        &mut self,
        effects: &mut Effects,
        here: &Here,
        content: &EventKind,
    ) -> Result<(), StepError>
        requires known { KnowsMembers here.now self.old }
        requires names { MentionsMembers (member_count here.now.scenario.now) content.now }
        ensures { Makes here.now result self.old effects.old self.new effects.new (phase_timed (state_of self.old).phase here.now.scenario.now here.now.key content.now) }
    {
        match self.phase {
            Phase::Waiting => self.handle_waiting(effects, here, content),
            Phase::Joining => self.handle_joining(effects, here, content),
            Phase::Running => self.handle_timed(effects, here, content),
            Phase::Down => Ok(()),
        }
    }

    /// By the rules of the profile, and the phase of the member.
    #[inline(always)]
    fn handle(
        &mut self,
        effects: &mut Effects,
        here: &Here,
        content: &EventKind,
    ) -> Result<(), StepError>
        requires known { KnowsMembers here.now self.old }
        requires names { MentionsMembers (member_count here.now.scenario.now) content.now }
        ensures { Makes here.now result self.old effects.old self.new effects.new (handled_by (state_of self.old).phase (profile_of here.now.scenario.now) here.now.scenario.now here.now.key content.now) }
    {
        match here.scenario.profile() {
            Profile::Papers => self.handle_by_papers(effects, here, content),
            Profile::Memberlist => self.handle_by_memberlist(effects, here, content),
            Profile::Hashicorp => self.live(effects, here, content),
        }
    }

    /// Handles an event, and appends to `out` what it makes.
    #[tactic(auto, unfolding(crate::specs::Step::step))]
    #[inline(always)]
    fn append_made(
        &mut self,
        out: &mut Effects,
        here: &Here,
        content: &EventKind,
    ) -> Result<(), StepError>
        requires known { KnowsMembers here.now self.old }
        requires names { MentionsMembers (member_count here.now.scenario.now) content.now }
        ensures ok { let event : OneEvent = record { key = here.now.key; content = content.now } in
            OnOk result (Steps here.now.scenario.now event self.old self.new out.old out.new) }
        ensures overflow { IsErrOf result StepError.CounterOverflow → IsOverflowed (step here.now.scenario.now here.now.key content.now (state_of self.old)).state }
        ensures within { OnOk result (¬ (IsOverflowed (state_of self.new))) }
        ensures kept { OnOk result (KnowsMembers here.now self.new) }
    {
        if is_nothing(out) {
            return self.handle(out, here, content);
        }
        let before = set_aside(here.alloc, out);
        self.handle(out, here, content)?;
        put_before(before, out)
    }

    /// Handles an event of the member's own: its state is that of the step after it, and the events and
    /// the rows that the step makes are appended to `out`.
    ///
    /// Refusals: `Memory`; `CounterOverflow` where a counter stands at 2^63 and would have to rise. Then the member
    /// and `out` are spent, and the run ends.
    #[tactic(auto, unfolding(crate::specs::Step::step))]
    #[inline(always)]
    pub fn step(
        &mut self,
        alloc: Global,
        event: Event,
        scenario: &Scenario,
        links: &Links,
        out: &mut Effects,
    ) -> Result<(), StepError>
        requires here { IsSoundSetting scenario.now links.now event.key }
        requires known { HoldsMembers scenario.now event.key.to (state_of self.old) }
        requires names { MentionsMembers (member_count scenario.now) event.content }
        ensures ok { OnOk result (Steps scenario.now event self.old self.new out.old out.new) }
        ensures overflow { IsErrOf result StepError.CounterOverflow → IsOverflowed (step scenario.now event.key event.content (state_of self.old)).state }
        ensures within { OnOk result (¬ (IsOverflowed (state_of self.new))) }
        ensures kept { OnOk result (HoldsMembers scenario.now event.key.to (state_of self.new)) }
    {
        let Event { key, content } = event;
        // Part by part: as one block of bytes, right after its parts were written, the key would wait for these writes.
        let Key {
            at,
            to,
            from,
            number,
        } = key;
        let here = Here {
            alloc,
            key: Key {
                at,
                to,
                from,
                number,
            },
            scenario,
            links,
        };
        self.append_made(out, &here, &content)
    }
}

/// Whether nothing was made yet.
#[inline(always)]
fn is_nothing(out: &Effects) -> bool
    ensures { OnTrue result ((out.now.events.items ≡ []) × (out.now.rows.items ≡ [])) }
{
    out.events.is_empty() && out.rows.is_empty()
}

/// Takes out what was made before.
fn set_aside(alloc: Global, out: &mut Effects) -> Effects
    ensures before { result ≡ out.old }
    ensures no_events { out.new.events.items ≡ [] }
    ensures no_rows { out.new.rows.items ≡ [] }
{
    let nothing = Effects {
        events: Vec::new(alloc),
        rows: Vec::new(alloc),
    };
    replace(out, nothing)
}

/// Puts what was made before in front of what a step has made.
fn put_before(mut before: Effects, out: &mut Effects) -> Result<(), StepError>
    ensures events { OnOk result (out.new.events.items ≡ before.events.items ++ out.old.events.items) }
    ensures rows { OnOk result (out.new.rows.items ≡ before.rows.items ++ out.old.rows.items) }
    ensures err { IfErr result (λ e. e ≡ StepError.Memory) }
{
    before.events.append(&mut out.events)?;
    before.rows.append(&mut out.rows)?;
    *out = before;
    Ok(())
}
