//! An event is handled by the actions that its harness answered.
ghost use Rattle.std.specs.Prelude.{◌≡◌, ◌≤◌, ◌^◌, [], IfOk, IsErrOf};
ghost use Rattle.member.specs.Here.{IsSoundSetting};
ghost use Rattle.drive_process.specs.Acts.{acted, all_acted};
ghost use Rattle.drive_process.specs.Answers.{IsSoundAction, AreSoundActions};
ghost use Rattle.scenario.specs.Profile.{profile_of};
ghost use Rattle.drive_process.specs.Driven.{heeded, timer_ended, left_by, crashed, restarted};
ghost use Rattle.drive_process.specs.Process.{unchanged};
ghost use Rattle.drive_process.specs.ProcessOf.{process_of, effect_of};
ghost use Rattle.drive_process.specs.Makes.{IsOverflowed, Makes};
ghost use Rattle.drive_events.specs.declared.content.Content.TheVariants as content;
ghost use Rattle.drive_process.specs.declared.process.ProcessPhase.TheVariants as phases;

use crate::effects::{ProcessEffects, ProcessEvent};
use crate::here::Here;
use crate::process::{Process, ProcessPhase};
use crate::words::pass_words;
use base::{Moment, Profile};
use drive_answers::{Action, Noted, Timer};
use drive_events::Content;
use links::Links;
use member::StepError;
use scenario::Scenario;
use std::alloc::Global;
use trace::What;

/// Handles an event of the member by the actions that were answered, and gives what it makes. The event must be one of the
/// scenario up to its end, and the actions must name members. Of an event that isn't sent the actions don't count.
///
/// Errors: `Memory`; `CounterOverflow` where the member's number would pass 2^63. The process is then of no use.
pub fn heed(
    alloc: Global,
    process: &mut Process,
    scenario: &Scenario,
    links: &Links,
    event: &ProcessEvent,
    actions: Vec<Action>,
) -> Result<ProcessEffects, StepError>
    requires setting { IsSoundSetting scenario.now links.now event.now.key }
    requires sound { AreSoundActions scenario.now event.now.key.to actions.items }
    ensures heeds { IfOk result (λ made. effect_of process.new made
        ≡ heeded scenario.now event.now.key event.now.content process.old.phase actions.items (unchanged (process_of process.old))) }
    ensures overflow { IsErrOf result StepError.CounterOverflow → IsOverflowed
        (heeded scenario.now event.now.key event.now.content process.old.phase actions.items (unchanged (process_of process.old))).state }
{
    let here = Here {
        key: event.key,
        scenario,
        links,
    };
    let mut effects = ProcessEffects {
        events: Vec::new(alloc),
        rows: Vec::new(alloc),
    };
    process.heed_event(&mut effects, &here, &event.content, actions)?;
    Ok(effects)
}

impl Process {
    /// Heeds an event by whether the member runs.
    fn heed_event(
        &mut self,
        effects: &mut ProcessEffects,
        here: &Here,
        content: &Content,
        actions: Vec<Action>,
    ) -> Result<(), StepError>
        requires { AreSoundActions here.now.scenario.now here.now.key.to actions.items }
        ensures { Makes result self.old effects.old self.new effects.new
            (heeded here.now.scenario.now here.now.key content.now self.old.phase actions.items) }
    {
        match self.phase {
            ProcessPhase::Waiting => self.heed_waiting(effects, here, content, actions),
            ProcessPhase::Up => self.heed_up(effects, here, content, actions),
            ProcessPhase::Leaving => self.heed_leaving(effects, here, content, actions),
            ProcessPhase::Down => self.heed_down(effects, here, content, actions),
        }
    }

    /// A member that waits heeds its start alone.
    #[tactic(auto, unfolding(crate::specs::Driven::heeded))]
    fn heed_waiting(
        &mut self,
        effects: &mut ProcessEffects,
        here: &Here,
        content: &Content,
        actions: Vec<Action>,
    ) -> Result<(), StepError>
        requires { AreSoundActions here.now.scenario.now here.now.key.to actions.items }
        ensures { Makes result self.old effects.old self.new effects.new
            (heeded here.now.scenario.now here.now.key content.now phases.Waiting actions.items) }
    {
        match content {
            Content::Start => self.start(effects, here, actions),
            _ => Ok(()),
        }
    }

    /// A member that runs heeds all but a start.
    #[tactic(auto, unfolding(crate::specs::Driven::heeded))]
    fn heed_up(
        &mut self,
        effects: &mut ProcessEffects,
        here: &Here,
        content: &Content,
        actions: Vec<Action>,
    ) -> Result<(), StepError>
        requires { AreSoundActions here.now.scenario.now here.now.key.to actions.items }
        ensures { Makes result self.old effects.old self.new effects.new
            (heeded here.now.scenario.now here.now.key content.now phases.Up actions.items) }
    {
        match content {
            Content::Start => Ok(()),
            Content::Restart => self.restart(effects, here, actions),
            Content::Crash => self.crash(effects, here),
            Content::Leave => self.leave(effects, here, actions),
            Content::Timer(_) => self.end_timer(effects, here, actions),
            Content::Message(_) => self.act_all(effects, here, actions),
        }
    }

    /// A member that leaves heeds the same, but no second leave.
    #[tactic(auto, unfolding(crate::specs::Driven::heeded))]
    fn heed_leaving(
        &mut self,
        effects: &mut ProcessEffects,
        here: &Here,
        content: &Content,
        actions: Vec<Action>,
    ) -> Result<(), StepError>
        requires { AreSoundActions here.now.scenario.now here.now.key.to actions.items }
        ensures { Makes result self.old effects.old self.new effects.new
            (heeded here.now.scenario.now here.now.key content.now phases.Leaving actions.items) }
    {
        match content {
            Content::Start | Content::Leave => Ok(()),
            Content::Restart => self.restart(effects, here, actions),
            Content::Crash => self.crash(effects, here),
            Content::Timer(_) => self.end_timer(effects, here, actions),
            Content::Message(_) => self.act_all(effects, here, actions),
        }
    }

    /// A member that is down may start again.
    #[tactic(auto, unfolding(crate::specs::Driven::heeded))]
    fn heed_down(
        &mut self,
        effects: &mut ProcessEffects,
        here: &Here,
        content: &Content,
        actions: Vec<Action>,
    ) -> Result<(), StepError>
        requires { AreSoundActions here.now.scenario.now here.now.key.to actions.items }
        ensures { Makes result self.old effects.old self.new effects.new
            (heeded here.now.scenario.now here.now.key content.now phases.Down actions.items) }
    {
        match content {
            Content::Restart => self.restart(effects, here, actions),
            _ => Ok(()),
        }
    }

    /// Starts, and does what was answered.
    #[tactic(auto, unfolding(crate::specs::Driven::heeded))]
    fn start(
        &mut self,
        effects: &mut ProcessEffects,
        here: &Here,
        actions: Vec<Action>,
    ) -> Result<(), StepError>
        requires { AreSoundActions here.now.scenario.now here.now.key.to actions.items }
        ensures { Makes result self.old effects.old self.new effects.new
            (heeded here.now.scenario.now here.now.key content.Start phases.Waiting actions.items) }
    {
        self.phase = ProcessPhase::Up;
        self.write_row(effects, here, What::Start, None, 0, false)?;
        self.act_all(effects, here, actions)
    }

    /// Starts again, and does what was answered.
    #[tactic(auto, unfolding(crate::specs::Driven::reborn))]
    fn restart(
        &mut self,
        effects: &mut ProcessEffects,
        here: &Here,
        actions: Vec<Action>,
    ) -> Result<(), StepError>
        requires { AreSoundActions here.now.scenario.now here.now.key.to actions.items }
        ensures { Makes result self.old effects.old self.new effects.new (restarted here.now.scenario.now here.now.key actions.items) }
    {
        self.phase = ProcessPhase::Up;
        self.birth = self.next_number;
        self.write_row(effects, here, What::Restart, None, 0, false)?;
        self.act_all(effects, here, actions)
    }

    /// Crashes.
    fn crash(&mut self, effects: &mut ProcessEffects, here: &Here) -> Result<(), StepError>
        ensures { Makes result self.old effects.old self.new effects.new (crashed here.now.key) }
    {
        self.phase = ProcessPhase::Down;
        self.write_row(effects, here, What::Crash, None, 0, false)
    }

    /// Leaves, by the rules of the profile.
    fn leave(
        &mut self,
        effects: &mut ProcessEffects,
        here: &Here,
        actions: Vec<Action>,
    ) -> Result<(), StepError>
        requires { AreSoundActions here.now.scenario.now here.now.key.to actions.items }
        ensures { Makes result self.old effects.old self.new effects.new
            (left_by (profile_of here.now.scenario.now) here.now.scenario.now here.now.key actions.items) }
    {
        match here.scenario.profile() {
            Profile::Papers | Profile::Memberlist => self.leave_at_once(effects, here, actions),
            Profile::Hashicorp => self.begin_leave(effects, here, actions),
        }
    }

    /// Does what was answered to its leave, and is down.
    fn leave_at_once(
        &mut self,
        effects: &mut ProcessEffects,
        here: &Here,
        actions: Vec<Action>,
    ) -> Result<(), StepError>
        requires { AreSoundActions here.now.scenario.now here.now.key.to actions.items }
        ensures { Makes result self.old effects.old self.new effects.new
            (left_by Profile.Papers here.now.scenario.now here.now.key actions.items) }
    {
        self.write_row(effects, here, What::Leave, None, 0, false)?;
        self.act_all(effects, here, actions)?;
        self.phase = ProcessPhase::Down;
        Ok(())
    }

    /// Does what was answered to its leave, and goes on until it exits.
    fn begin_leave(
        &mut self,
        effects: &mut ProcessEffects,
        here: &Here,
        actions: Vec<Action>,
    ) -> Result<(), StepError>
        requires { AreSoundActions here.now.scenario.now here.now.key.to actions.items }
        ensures { Makes result self.old effects.old self.new effects.new
            (left_by Profile.Hashicorp here.now.scenario.now here.now.key actions.items) }
    {
        self.phase = ProcessPhase::Leaving;
        self.write_row(effects, here, What::Leave, None, 0, false)?;
        self.act_all(effects, here, actions)
    }

    /// Does what was answered to a timer. One of a former process has no effect.
    #[tactic(auto, unfolding(crate::specs::Driven::timer_ended))]
    fn end_timer(
        &mut self,
        effects: &mut ProcessEffects,
        here: &Here,
        actions: Vec<Action>,
    ) -> Result<(), StepError>
        requires { AreSoundActions here.now.scenario.now here.now.key.to actions.items }
        ensures { Makes result self.old effects.old self.new effects.new
            (timer_ended here.now.scenario.now here.now.key actions.items) }
    {
        if here.key.number < self.birth {
            return Ok(());
        }
        self.act_all(effects, here, actions)
    }

    /// Does one thing after the other.
    #[tactic(auto, unfolding(crate::specs::Acts::all_acted))]
    fn act_all(
        &mut self,
        effects: &mut ProcessEffects,
        here: &Here,
        actions: Vec<Action>,
    ) -> Result<(), StepError>
        requires { AreSoundActions here.now.scenario.now here.now.key.to actions.items }
        ensures { Makes result self.old effects.old self.new effects.new (all_acted here.now.scenario.now here.now.key actions.items) }
    {
        for action in actions {
            self.act(effects, here, action)?;
        }
        Ok(())
    }

    /// Does one thing.
    fn act(
        &mut self,
        effects: &mut ProcessEffects,
        here: &Here,
        action: Action,
    ) -> Result<(), StepError>
        requires { IsSoundAction here.now.scenario.now here.now.key.to action }
        ensures { Makes result self.old effects.old self.new effects.new (acted here.now.scenario.now here.now.key action) }
    {
        match action {
            Action::Send(send) => self.send(effects, here, send),
            Action::Timer(timer) => self.set_timer(effects, here, timer),
            Action::Noted(noted) => self.note(effects, here, noted),
            Action::Used(words) => {
                pass_words(&mut self.stream, words);
                Ok(())
            }
            Action::Exit => self.exit(effects, here),
        }
    }

    /// Exits.
    fn exit(&mut self, effects: &mut ProcessEffects, here: &Here) -> Result<(), StepError>
        ensures { Makes result self.old effects.old self.new effects.new (acted here.now.scenario.now here.now.key Action.Exit) }
    {
        self.phase = ProcessPhase::Down;
        self.write_row(effects, here, What::Exit, None, 0, false)
    }

    /// Writes a row.
    fn note(
        &mut self,
        effects: &mut ProcessEffects,
        here: &Here,
        noted: Noted,
    ) -> Result<(), StepError>
        ensures { Makes result self.old effects.old self.new effects.new (acted here.now.scenario.now here.now.key (Action.Noted noted)) }
    {
        self.write_row(effects, here, noted.what, noted.about, noted.value, false)
    }

    /// Sets a timer.
    fn set_timer(
        &mut self,
        effects: &mut ProcessEffects,
        here: &Here,
        timer: Timer,
    ) -> Result<(), StepError>
        requires { timer.after ≤ 2 ^ 40 }
        ensures { Makes result self.old effects.old self.new effects.new (acted here.now.scenario.now here.now.key (Action.Timer timer)) }
    {
        let at = Moment(here.key.at.ticks() + timer.after);
        self.make_event(effects, here, at, here.key.to, Content::Timer(timer.id))
    }
}
