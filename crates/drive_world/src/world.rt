//! A world that a harness drives: its processes, the events that pend, and the rows that can't be written yet.
ghost use Rattle.std.specs.Prelude.{◌≡◌, ◌≤◌, ◌<◌, OnOk, IfOk, IfSome, IfNone, Some, None};
ghost use Rattle.std.specs.FinMap.{get};
ghost use Rattle.scenario.specs.Setup.{member_count};
ghost use Rattle.drive_events.specs.declared.content.Content.{Content as AContent};
ghost use Rattle.drive_process.specs.Answers.{AreSoundActions};
ghost use Rattle.drive_world.specs.Telling.{exits_in};
ghost use Rattle.drive_world.specs.WorldOf.{events_in};
ghost use Rattle.base.specs.World.{IsOver};
ghost use Rattle.worker_queue.specs.Queue.{IsLeastKey};
ghost use Rattle.drive_world.specs.Rows.{rows_before, rows_from};
ghost use Rattle.drive_world.specs.DriveOf.{world_of, IsSetting, IsSafeBound, Settles, Adds, HasFate};

use crate::fate::Fate;
use crate::handing::parted;
use crate::pending::Pending;
use crate::processes::Processes;
use crate::setting::Setting;
use crate::waiting::Waiting;
use base::{Key, Memory, Moment};
use drive_answers::Action;
use drive_process::{ProcessEffects, ProcessEvent};
use member::StepError;
use scenario::Scenario;
use std::alloc::Global;
use std::mem::replace;
use trace::Row;

/// So few rows aren't handed on before the end.
pub(crate) const FEW: usize = 4_096;

/// A world of processes and events, of which some wait for their answers.
#[derive(Drop)]
pub(crate) struct World {
    pub(crate) processes: Processes,
    pub(crate) pending: Pending,
    pub(crate) waiting: Waiting,
    /// The rows of events that are over, in the order made, but for those that are written.
    pub(crate) rows: Vec<Row>,
    /// Of so many rows those that can be are handed on.
    pub(crate) enough: usize,
    /// Whether a line was sent.
    pub(crate) begun: bool,
    /// How many answers were taken.
    pub(crate) answers: u64,
}

impl World {
    /// What becomes of an event that pends, if it may be sent: `None` where none has the key.
    pub(crate) fn fate(&self, key: &Key) -> Option<Fate>
        ensures fate { IfSome result (HasFate self.now key.now) }
        ensures none { IfNone result (get (events_in self.now.pending) key.now ≡ None) }
    {
        let content = self.pending.content(key)?;
        Some(self.processes.fate(key, content))
    }

    /// Whether the process that answers an event that pends may exit.
    pub(crate) fn exits(&self, scenario: &Scenario, key: &Key) -> bool
        ensures { (content : AContent) → get (events_in self.now.pending) key.now ≡ Some content
            → result ≡ exits_in scenario.now (world_of self.now) key.now content }
    {
        match self.pending.content(key) {
            Some(content) => self.processes.exits(scenario.profile(), key, content),
            None => false,
        }
    }

    /// The least key of the events that pend, if it comes no later than the end.
    pub(crate) fn next_until(&self, end: Moment) -> Option<Key>
        ensures least { IfSome result (IsLeastKey (events_in self.now.pending)) }
        ensures in_time { IfSome result (λ k. k.at ≤ end) }
        ensures over { IfNone result (IsOver end (world_of self.now)) }
    {
        let Some(least) = self.pending.least() else {
            return None;
        };
        if least.at <= end { Some(least) } else { None }
    }

    /// Whether rows enough are kept that some should be handed on.
    pub(crate) fn has_enough(&self) -> bool {
        self.rows.len() >= self.enough
    }

    /// Takes out the rows of the events before this one. So many as twice those that stay are enough from then on.
    pub(crate) fn take_before(&mut self, alloc: Global, key: &Key) -> Result<Vec<Row>, Memory>
        ensures taken { IfOk result (λ rows. rows.items ≡ rows_before key.now self.old.rows.items) }
        ensures left { OnOk result (self.new.rows.items ≡ rows_from key.now self.old.rows.items) }
        ensures same { OnOk result (self.new ≡ record self.old { rows = self.new.rows; enough = self.new.enough }) }
    {
        let rows = replace(&mut self.rows, Vec::new(alloc));
        let (early, late) = parted(alloc, rows.as_slice(), key)?;
        self.enough = late.len().saturating_mul(2).max(FEW);
        self.rows = late;
        Ok(early)
    }

    /// The moment before which the least event of a member is safe.
    pub(crate) fn safe_bound(&self, setting: &Setting) -> Moment
        ensures { IsSafeBound setting.now.scenario.now.end setting.now.least_delay (world_of self.now) result }
    {
        let past = setting.scenario.end().ticks() + 1;
        let Some(least) = self.pending.least() else {
            return Moment(past);
        };
        let Some(delay) = setting.least_delay else {
            return Moment(past);
        };
        let near = least.at.ticks().saturating_add(delay);
        Moment(past.min(near))
    }

    /// The event of a key is over, by these actions: its receiver heeds it, what that makes pends, and its rows are kept.
    ///
    /// Faults: `Memory`; `CounterOverflow` where a number would pass 2^63.
    pub(crate) fn settle(
        &mut self,
        alloc: Global,
        setting: &Setting,
        key: &Key,
        actions: Vec<Action>,
    ) -> Result<(), StepError>
        requires setting { IsSetting setting.now }
        requires early { key.now.at ≤ setting.now.scenario.now.end }
        requires receiver { key.now.to < member_count setting.now.scenario.now }
        requires sender { key.now.from < member_count setting.now.scenario.now }
        requires sound { AreSoundActions setting.now.scenario.now key.now.to actions.items }
        ensures settles { OnOk result ((content : AContent) → get (events_in self.old.pending) key.now ≡ Some content
            → Settles setting.now.scenario.now key.now content actions.items self.old self.new) }
        ensures waiting { OnOk result (self.new.waiting ≡ self.old.waiting) }
        ensures begun { OnOk result (self.new.begun ≡ self.old.begun) }
        ensures answers { self.new.answers ≡ self.old.answers }
    {
        let Some(content) = self.pending.take(key) else {
            return Ok(());
        };
        let event = ProcessEvent { key: *key, content };
        let made = self
            .processes
            .heed(alloc, setting.scenario, setting.links, &event, actions)?;
        Ok(self.add(made)?)
    }

    /// What an event has made pends, and its rows are kept.
    fn add(&mut self, made: Option<ProcessEffects>) -> Result<(), Memory>
        ensures added { OnOk result (Adds made self.old self.new) }
        ensures processes { self.new.processes ≡ self.old.processes }
        ensures waiting { self.new.waiting ≡ self.old.waiting }
        ensures begun { self.new.begun ≡ self.old.begun }
        ensures answers { self.new.answers ≡ self.old.answers }
    {
        let Some(effects) = made else {
            return Ok(());
        };
        let ProcessEffects { events, mut rows } = effects;
        self.pending.push_all(events)?;
        self.rows.append(&mut rows)?;
        Ok(())
    }
}
