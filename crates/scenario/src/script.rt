//! What happens to members by the script: crashes, leaves and restarts in the order of their moments.
ghost use Rattle.std.specs.Prelude.{◌≡◌, ◌≢◌, ℕ, ◌<◌, ◌++◌, [], ◌∷◌, map, filter, vec_len, IfOk, OnOk};
ghost use Rattle.scenario.specs.Script.{by_moment, crash_event, leave_event, restart_event, entries_in, is_of, script_in};
ghost use Rattle.scenario.specs.Scripts.{script_at};

use crate::settings::{Crash, Leave, Restart};
use base::{MemberId, Memory, Moment};
use std::alloc::Global;
use std::marker::Model;
use std::slice;

/// What happens to a member by the script.
#[derive(Clone, Copy, Debug, PartialEq, Eq)]
pub enum ScriptKind {
    Crash,
    Leave,
    /// It starts again, and asks this member to let it join, if there is one.
    Restart(Option<MemberId>),
}

/// An entry of the script: what happens to a member, and when.
#[derive(Clone, Copy, Debug, PartialEq, Eq)]
pub struct ScriptEvent {
    pub member: MemberId,
    pub at: Moment,
    pub kind: ScriptKind,
}

/// The events of one member.
#[derive(Drop)]
pub(crate) struct Script {
    events: Vec<ScriptEvent>,
}

impl Model for Script {
    ghost use Rattle.std.specs.Prelude.{List};
    ghost use Rattle.scenario.specs.declared.script.ScriptEvent.{ScriptEvent as OneEvent};

    ghost Value = { List OneEvent };

    ghost use Rattle.scenario.specs.ScriptOf.{events_of};

    ghost view = { events_of };
}

impl Script {
    /// No event at all. Takes no memory.
    pub(crate) fn new(alloc: Global) -> Script
        ensures { result ≡ [] }
    {
        Script {
            events: Vec::new(alloc),
        }
    }

    /// Puts an event behind the others.
    pub(crate) fn append(&mut self, event: ScriptEvent) -> Result<(), Memory>
        ensures { OnOk result (self.new ≡ self.old ++ event ∷ []) }
    {
        self.events.extend_from_slice(slice::from_ref(&event))?;
        Ok(())
    }

    /// The events in their order.
    pub(crate) fn events(&self) -> &[ScriptEvent]
        ensures { result.now ≡ self.now }
    {
        self.events.as_slice()
    }
}

/// The scripts of members, by their numbers. Members past the last one that has a script have none.
pub(crate) fn scripts_of(
    alloc: Global,
    crashes: &[Crash],
    leaves: &[Leave],
    restarts: &[Restart],
) -> Result<Vec<Script>, Memory>
    ensures { IfOk result (λ scripts. (m : ℕ) → script_at scripts.items m ≡ script_in crashes.now leaves.now restarts.now m) }
{
    let mut events = Vec::new(alloc);
    add_crashes(&mut events, crashes)?;
    add_leaves(&mut events, leaves)?;
    add_restarts(&mut events, restarts)?;
    sort(&mut events)?;
    deal(alloc, events.as_slice())
}

/// Adds the events of crashes.
fn add_crashes(events: &mut Vec<ScriptEvent>, crashes: &[Crash]) -> Result<(), Memory>
    ensures { OnOk result (events.new.items ≡ events.old.items ++ map crash_event crashes.now) }
{
    for crash in crashes {
        events.push(ScriptEvent {
            member: crash.member,
            at: crash.at,
            kind: ScriptKind::Crash,
        })?;
    }
    Ok(())
}

/// Adds the events of leaves.
fn add_leaves(events: &mut Vec<ScriptEvent>, leaves: &[Leave]) -> Result<(), Memory>
    ensures { OnOk result (events.new.items ≡ events.old.items ++ map leave_event leaves.now) }
{
    for leave in leaves {
        events.push(ScriptEvent {
            member: leave.member,
            at: leave.at,
            kind: ScriptKind::Leave,
        })?;
    }
    Ok(())
}

/// Adds the events of restarts.
fn add_restarts(events: &mut Vec<ScriptEvent>, restarts: &[Restart]) -> Result<(), Memory>
    ensures { OnOk result (events.new.items ≡ events.old.items ++ map restart_event restarts.now) }
{
    for restart in restarts {
        events.push(ScriptEvent {
            member: restart.member,
            at: restart.at,
            kind: ScriptKind::Restart(restart.contact),
        })?;
    }
    Ok(())
}

/// Puts events in the order of their moments; those of one moment stay in their order.
fn sort(events: &mut Vec<ScriptEvent>) -> Result<(), Memory>
    ensures { OnOk result (events.new.items ≡ by_moment events.old.items) }
{
    events.sort_by_key(|event| event.at.ticks())?;
    Ok(())
}

/// Gives each member its events, in their order.
fn deal(alloc: Global, events: &[ScriptEvent]) -> Result<Vec<Script>, Memory>
    ensures { IfOk result (λ scripts. (m : ℕ) → script_at scripts.items m ≡ filter (is_of m) events.now) }
{
    let mut scripts = Vec::new(alloc);
    for event in events {
        add(alloc, &mut scripts, event.member.index(), *event)?;
    }
    Ok(scripts)
}

/// Adds an event behind those of a member.
fn add(
    alloc: Global,
    scripts: &mut Vec<Script>,
    member: usize,
    event: ScriptEvent,
) -> Result<(), Memory>
    ensures here { OnOk result (script_at scripts.new.items member ≡ script_at scripts.old.items member ++ event ∷ []) }
    ensures others { OnOk result ((m : ℕ) → m ≢ member → script_at scripts.new.items m ≡ script_at scripts.old.items m) }
{
    make_room(alloc, scripts, member)?;
    scripts[member].append(event)
}

/// Makes a place for this member, with no events in new places.
fn make_room(alloc: Global, scripts: &mut Vec<Script>, member: usize) -> Result<(), Memory>
    ensures same { (m : ℕ) → script_at scripts.new.items m ≡ script_at scripts.old.items m }
    ensures room { OnOk result (member < vec_len scripts.new) }
{
    while scripts.len() <= member {
        scripts.push(Script::new(alloc))?;
    }
    Ok(())
}
