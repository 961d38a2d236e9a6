//! The world in which a drive begins: all members wait, and all events of the script pend.
ghost use Rattle.std.specs.Prelude.{◌≡◌, ◌<◌, [], length, OnOk, IfOk};
ghost use Rattle.base.specs.World.{with_events};
ghost use Rattle.scenario.specs.Setup as setup;
ghost use Rattle.scenario.specs.Setup.{member_count};
ghost use Rattle.scenario.specs.Profile.{profile_of};
ghost use Rattle.member.specs.Opening.{script_key};
ghost use Rattle.drive_process.specs.Driven.{script_by, endings_of, ending, numbered_from, content_of};
ghost use Rattle.drive_world.specs.Courses.{at_first};
ghost use Rattle.drive_world.specs.WorldOf.{events_in};
ghost use Rattle.drive_world.specs.DriveOf.{drive_of};

use crate::pending::Pending;
use crate::processes::Processes;
use crate::waiting::Waiting;
use crate::world::{FEW, World};
use base::{Key, MemberId, Memory, Moment, Profile};
use drive_events::Content;
use drive_process::ProcessEvent;
use scenario::{Scenario, ScriptKind};
use std::alloc::Global;

impl World {
    /// The world of a scenario before anything is sent.
    pub(crate) fn open(alloc: Global, scenario: &Scenario) -> Result<Self, Memory>
        ensures drive { IfOk result (λ world. drive_of world ≡ at_first scenario.now) }
        ensures rows { IfOk result (λ world. world.rows.items ≡ []) }
        ensures answers { IfOk result (λ world. world.answers ≡ 0) }
        ensures places { IfOk result (λ world. length world.waiting.busy.items ≡ member_count scenario.now) }
    {
        let mut pending = Pending::new(alloc);
        for number in 0..scenario.members() {
            push_script(&mut pending, scenario, MemberId(number as u16))?;
        }
        let processes = Processes::of(alloc, scenario)?;
        let waiting = Waiting::new(alloc, scenario.members())?;
        Ok(World {
            processes,
            pending,
            waiting,
            rows: Vec::new(alloc),
            enough: FEW,
            begun: false,
            answers: 0,
        })
    }
}

/// What the script has for a member pends: its start, and what happens to it then.
fn push_script(pending: &mut Pending, scenario: &Scenario, member: MemberId) -> Result<(), Memory>
    requires { member < member_count scenario.now }
    ensures { OnOk result (events_in pending.new ≡ with_events (events_in pending.old) (script_by (profile_of scenario.now) scenario.now member)) }
{
    let start = script_event(member, scenario.start(member), 0, Content::Start);
    pending.push(start)?;
    match scenario.profile() {
        Profile::Papers | Profile::Memberlist => push_endings(pending, scenario, member),
        Profile::Hashicorp => push_entries(pending, scenario, member),
    }
}

/// The events with which a member's part ends pend: its crash or its leave, if it has one.
fn push_endings(pending: &mut Pending, scenario: &Scenario, member: MemberId) -> Result<(), Memory>
    requires { member < member_count scenario.now }
    ensures { OnOk result (events_in pending.new ≡ with_events (events_in pending.old) (endings_of scenario.now member)) }
{
    push_ending(pending, member, scenario.crash(member), Content::Crash)?;
    push_ending(pending, member, scenario.leave(member), Content::Leave)
}

/// The entries of a member's script pend: it may crash, leave and start again several times.
fn push_entries(pending: &mut Pending, scenario: &Scenario, member: MemberId) -> Result<(), Memory>
    requires { member < member_count scenario.now }
    ensures { OnOk result (events_in pending.new ≡ with_events (events_in pending.old) (numbered_from member 1 (setup.script_of scenario.now member))) }
{
    let script = scenario.script(member);
    for (place, event) in script.iter().enumerate() {
        let number = place as u64 + 1;
        let content = content_of(event.kind);
        pending.push(script_event(member, event.at, number, content))?;
    }
    Ok(())
}

/// What an entry of the script asks of its member.
fn content_of(kind: ScriptKind) -> Content
    ensures { result ≡ content_of kind }
{
    match kind {
        ScriptKind::Crash => Content::Crash,
        ScriptKind::Leave => Content::Leave,
        ScriptKind::Restart(_) => Content::Restart,
    }
}

/// The event with which a member's part ends pends, if the script has it.
fn push_ending(
    pending: &mut Pending,
    member: MemberId,
    at: Option<Moment>,
    content: Content,
) -> Result<(), Memory>
    ensures { OnOk result (events_in pending.new ≡ with_events (events_in pending.old) (ending content member at)) }
{
    match at {
        Some(at) => pending.push(script_event(member, at, 1, content)),
        None => Ok(()),
    }
}

/// An event of the script: its receiver is its sender.
fn script_event(member: MemberId, at: Moment, number: u64, content: Content) -> ProcessEvent
    ensures key { result.key ≡ script_key member at number }
    ensures content { result.content ≡ content }
{
    let key = Key {
        at,
        to: member,
        from: member,
        number,
    };
    ProcessEvent { key, content }
}
