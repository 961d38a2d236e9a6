//! The processes of all members, each at the place of its member's number.
ghost use Rattle.std.specs.Prelude.{◌≡◌, ◌<◌, IfOk, IsErrOf};
ghost use Rattle.std.specs.Option.{option_map};
ghost use Rattle.std.specs.FinMap.{get};
ghost use Rattle.member.specs.Here.{IsSoundSetting};
ghost use Rattle.drive_process.specs.Answers.{AreSoundActions};
ghost use Rattle.drive_process.specs.Driven.{opening};
ghost use Rattle.drive_process.specs.ProcessOf.{process_of};
ghost use Rattle.drive_world.specs.Telling.{fate_by, exits_by};
ghost use Rattle.drive_world.specs.WorldOf.{members_of, Heeds};

use crate::fate::{Fate, exits_at, fate_at};
use base::{Key, MemberId, Memory, Profile};
use drive_answers::Action;
use drive_events::Content;
use drive_process::{Process, ProcessEffects, ProcessEvent, heed};
use links::Links;
use member::StepError;
use scenario::Scenario;
use std::alloc::Global;

/// A process for each member.
#[derive(Drop)]
pub(crate) struct Processes {
    pub(crate) list: Vec<Process>,
}

impl Processes {
    /// All members of the scenario before their starts.
    pub(crate) fn of(alloc: Global, scenario: &Scenario) -> Result<Self, Memory>
        ensures { IfOk result (λ all. members_of all ≡ (opening scenario.now).members) }
    {
        let mut list = Vec::new(alloc);
        for number in 0..scenario.members() {
            list.push(Process::of(scenario, MemberId(number as u16)))?;
        }
        Ok(Processes { list })
    }

    /// The process of a member: `None` where it is none of the scenario.
    fn get(&self, member: &MemberId) -> Option<&Process>
        ensures { option_map (λ p. process_of p.now) result ≡ get (members_of self.now) member.now }
    {
        let place = member.index();
        if place < self.list.len() {
            Some(&self.list[place])
        } else {
            None
        }
    }

    /// What becomes of an event that pends, if it may be sent: one for nobody isn't.
    pub(crate) fn fate(&self, key: &Key, content: &Content) -> Fate
        ensures { result ≡ fate_by key.now content.now (get (members_of self.now) key.now.to) }
    {
        match self.get(&key.to) {
            Some(process) => fate_at(key, content, process.phase(), process.birth()),
            None => Fate::Untold,
        }
    }

    /// Whether the process that answers an event may exit.
    pub(crate) fn exits(&self, profile: Profile, key: &Key, content: &Content) -> bool
        ensures { result ≡ exits_by profile content.now (get (members_of self.now) key.now.to) }
    {
        match self.get(&key.to) {
            Some(process) => exits_at(profile, content, process.phase()),
            None => false,
        }
    }

    /// Lets the receiver of an event heed it by these actions, and gives what that makes: `None` where it is for nobody.
    pub(crate) fn heed(
        &mut self,
        alloc: Global,
        scenario: &Scenario,
        links: &Links,
        event: &ProcessEvent,
        actions: Vec<Action>,
    ) -> Result<Option<ProcessEffects>, StepError>
        requires setting { IsSoundSetting scenario.now links.now event.now.key }
        requires sound { AreSoundActions scenario.now event.now.key.to actions.items }
        ensures { IfOk result (λ effects. Heeds scenario.now event.now actions.items (members_of self.old) (members_of self.new) effects) }
    {
        let place = event.key.to.index();
        if self.list.len() <= place {
            return Ok(None);
        }
        let process = &mut self.list[place];
        Ok(Some(heed(alloc, process, scenario, links, event, actions)?))
    }
}
