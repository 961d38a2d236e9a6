//! What a process makes of an event by memberlist 0.5.0's and Serf's rules: it may crash, leave and start again.
ghost use Rattle.std.specs.Prelude.{◌≡◌, ◌<◌};
ghost use Rattle.scenario.specs.Setup.{member_count};
ghost use Rattle.member.specs.Here.{MentionsMembers};
ghost use Rattle.member.specs.Makes.{KnowsMembers, Makes};
ghost use Rattle.member.specs.Opening.{content_of};
ghost use Rattle.member.specs.Processes.{is_of_former_life, is_timer, restart_handled, start_handled};
ghost use Rattle.member.specs.StateOf.{state_of};
ghost use Rattle.member.specs.Step.{phase_handled, process_handled, process_lived};

use crate::event::Effects;
use crate::event_kind::EventKind;
use crate::here::Here;
use crate::member::{Member, Phase};
use crate::step_error::StepError;
use base::Key;
use scenario::ScriptKind;

impl Member {
    /// A process that runs.
    #[tactic(auto, unfolding(crate::specs::Step::process_handled))]
    fn handle_process(
        &mut self,
        effects: &mut Effects,
        here: &Here,
        content: &EventKind,
    ) -> Result<(), StepError>
        requires known { KnowsMembers here.now self.old }
        requires names { MentionsMembers (member_count here.now.scenario.now) content.now }
        ensures { Makes here.now result self.old effects.old self.new effects.new (process_handled here.now.scenario.now here.now.key content.now) }
    {
        match content {
            EventKind::Restart { contact } => self.restart(effects, here, contact),
            EventKind::Leave => self.begin_leave(effects, here),
            EventKind::JoinTimer => self.ask_again(effects, here),
            EventKind::SettingTimer => self.set_pushes(effects, here),
            EventKind::ConnectedTimer { to } => self.send_push(effects, here, *to),
            EventKind::PushTimer => self.end_dialed_push(effects, here),
            EventKind::Push { entries } => self.merge_push(effects, here, entries.as_slice()),
            EventKind::Pull { entries } => self.merge_pull(effects, here, entries.as_slice()),
            EventKind::GossipTimer => self.gossip_whole(effects, here),
            EventKind::ReconnectTimer => self.end_reconnect(effects, here),
            EventKind::ExitTimer => self.exit(effects, here),
            EventKind::Join | EventKind::Welcome { .. } | EventKind::Bye => Ok(()),
            _ => self.handle_single(effects, here, content),
        }
    }

    /// A process that runs, and whose leave goes on at the end of the event.
    fn handle_leaving(
        &mut self,
        effects: &mut Effects,
        here: &Here,
        content: &EventKind,
    ) -> Result<(), StepError>
        requires known { KnowsMembers here.now self.old }
        requires names { MentionsMembers (member_count here.now.scenario.now) content.now }
        ensures { Makes here.now result self.old effects.old self.new effects.new (phase_handled Phase.Running here.now.scenario.now here.now.key content.now) }
    {
        self.handle_process(effects, here, content)?;
        self.go_on_leaving(effects, here)
    }

    /// A process that hasn't started heeds its start alone.
    fn handle_start(
        &mut self,
        effects: &mut Effects,
        here: &Here,
        content: &EventKind,
    ) -> Result<(), StepError>
        requires { KnowsMembers here.now self.old }
        ensures { Makes here.now result self.old effects.old self.new effects.new (start_handled here.now.scenario.now here.now.key content.now) }
    {
        match content {
            EventKind::Start => self.start_process(effects, here),
            _ => Ok(()),
        }
    }

    /// A process that is down may start again.
    fn handle_restart(
        &mut self,
        effects: &mut Effects,
        here: &Here,
        content: &EventKind,
    ) -> Result<(), StepError>
        requires known { KnowsMembers here.now self.old }
        requires names { MentionsMembers (member_count here.now.scenario.now) content.now }
        ensures { Makes here.now result self.old effects.old self.new effects.new (restart_handled here.now.scenario.now here.now.key content.now) }
    {
        match content {
            EventKind::Restart { contact } => self.restart(effects, here, contact),
            _ => Ok(()),
        }
    }

    /// By the phase of the process.
    fn handle_phase(
        &mut self,
        effects: &mut Effects,
        here: &Here,
        content: &EventKind,
    ) -> Result<(), StepError>
        requires known { KnowsMembers here.now self.old }
        requires names { MentionsMembers (member_count here.now.scenario.now) content.now }
        ensures { Makes here.now result self.old effects.old self.new effects.new (phase_handled (state_of self.old).phase here.now.scenario.now here.now.key content.now) }
    {
        match self.phase {
            Phase::Waiting => self.handle_start(effects, here, content),
            Phase::Joining => Ok(()),
            Phase::Running => self.handle_leaving(effects, here, content),
            Phase::Down => self.handle_restart(effects, here, content),
        }
    }

    /// An event at a process. A timer of a former life has no effect.
    #[tactic(auto, unfolding(crate::specs::Step::process_lived))]
    pub(crate) fn live(
        &mut self,
        effects: &mut Effects,
        here: &Here,
        content: &EventKind,
    ) -> Result<(), StepError>
        requires known { KnowsMembers here.now self.old }
        requires names { MentionsMembers (member_count here.now.scenario.now) content.now }
        ensures { Makes here.now result self.old effects.old self.new effects.new (process_lived (state_of self.old).phase here.now.scenario.now here.now.key content.now) }
    {
        if is_of_former_life(&here.key, content, self.life.birth()) {
            return Ok(());
        }
        self.handle_phase(effects, here, content)
    }
}

// Whether an event is a timer that was set before the member's present life.
fn is_of_former_life(key: &Key, content: &EventKind, birth: u64) -> bool
    ensures { result ≡ is_of_former_life key.now content.now birth }
{
    key.number < birth && is_timer(content)
}

// Whether an event is a timer.
fn is_timer(content: &EventKind) -> bool
    ensures { result ≡ is_timer content.now }
{
    match content {
        EventKind::JoinTimer
        | EventKind::PeriodTimer
        | EventKind::TimeoutTimer { .. }
        | EventKind::NackTimer { .. }
        | EventKind::SuspicionTimer { .. }
        | EventKind::DeadlineTimer { .. }
        | EventKind::GossipTimer
        | EventKind::PushTimer
        | EventKind::SettingTimer
        | EventKind::ConnectedTimer { .. }
        | EventKind::ReconnectTimer
        | EventKind::ExitTimer => true,
        _ => false,
    }
}

/// What a script's event asks of its member.
pub fn content_of(kind: ScriptKind) -> EventKind
    ensures { result ≡ content_of kind }
{
    match kind {
        ScriptKind::Crash => EventKind::Crash,
        ScriptKind::Leave => EventKind::Leave,
        ScriptKind::Restart(contact) => EventKind::Restart { contact },
    }
}
