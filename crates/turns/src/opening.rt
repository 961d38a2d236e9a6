//! Builds the parts in which a divided run begins, with a tree or a timer wheel for the pending events of each.
ghost use Rattle.std.specs.Prelude.{◌≡◌, ◌+◌, ◌<◌, length, IfOk, OnOk, vec_len};
ghost use Rattle.std.specs.List.{AllByRecursion};
ghost use Rattle.scenario.specs.Setup.{member_count};
ghost use Rattle.member.specs.Opening.{opening};
ghost use Rattle.worker_queue.specs.SetOf.{set_of};
ghost use Rattle.windows.specs.WorldOf.{world_of};
ghost use Rattle.windows.specs.Admitting.{opened_below};
ghost use Rattle.lookahead.specs.Between.{part_number};
ghost use Rattle.windows.specs.Several.{numbers_of};
ghost use Rattle.turns.specs.Parts.{nobody, CountFrom, StandFor};
ghost use Rattle.turns.specs.Wheels.{wheel_set};

use base::{MemberId, Memory};
use member::Event;
use scenario::{Division, Scenario};
use std::alloc::Global;
use windows::Part;
use worker_queue::{EventQueue, TreeQueue, WheelQueue};

/// The parts in which a run begins: each member waits in its own, with all events that the script has for
/// it, also those past the end.
pub fn open_parts(
    alloc: Global,
    scenario: &Scenario,
    division: &Division,
) -> Result<Vec<Part<TreeQueue<Event>>>, Memory>
    requires divides { length division.now.part_of ≡ member_count scenario.now }
    ensures opened { IfOk result (λ parts. StandFor set_of division.now parts.items (opening scenario.now)) }
    ensures below { OnOk result ((m : _) → m < member_count scenario.now → part_number division.now m < division.now.parts) }
{
    let mut parts = empty_parts(alloc, division.parts())?;
    admit_all(alloc, &mut parts, scenario, division)?;
    Ok(parts)
}

/// So many parts, in which nobody is. Their numbers count from 0.
fn empty_parts(alloc: Global, count: usize) -> Result<Vec<Part<TreeQueue<Event>>>, Memory>
    ensures count { IfOk result (λ parts. vec_len parts ≡ count) }
    ensures numbered { IfOk result (λ parts. CountFrom 0 (numbers_of parts.items)) }
    ensures empty { IfOk result (λ parts. AllByRecursion (λ part. world_of set_of part ≡ nobody) parts.items) }
{
    let mut parts = Vec::new(alloc);
    for number in 0..count {
        let part = Part::new(alloc, number, TreeQueue::new(alloc));
        parts.push(part)?;
    }
    Ok(parts)
}

/// The same, in parts whose events stand in wheels.
pub fn open_wheels(
    alloc: Global,
    scenario: &Scenario,
    division: &Division,
) -> Result<Vec<Part<WheelQueue<Event>>>, Memory>
    requires divides { length division.now.part_of ≡ member_count scenario.now }
    ensures opened { IfOk result (λ parts. StandFor wheel_set division.now parts.items (opening scenario.now)) }
    ensures below { OnOk result ((m : _) → m < member_count scenario.now → part_number division.now m < division.now.parts) }
{
    let mut parts = empty_wheels(alloc, division.parts())?;
    admit_all(alloc, &mut parts, scenario, division)?;
    Ok(parts)
}

/// So many parts, in which nobody is, with a wheel each.
fn empty_wheels(alloc: Global, count: usize) -> Result<Vec<Part<WheelQueue<Event>>>, Memory>
    ensures count { IfOk result (λ parts. vec_len parts ≡ count) }
    ensures numbered { IfOk result (λ parts. CountFrom 0 (numbers_of parts.items)) }
    ensures empty { IfOk result (λ parts. AllByRecursion (λ part. world_of wheel_set part ≡ nobody) parts.items) }
{
    let mut parts = Vec::new(alloc);
    for number in 0..count {
        let wheel = WheelQueue::new(alloc)?;
        let part = Part::new(alloc, number, wheel);
        parts.push(part)?;
    }
    Ok(parts)
}

/// Puts each member of the scenario into its part.
fn admit_all<Q: EventQueue<Event> + Drop>(
    alloc: Global,
    parts: &mut Vec<Part<Q>>,
    scenario: &Scenario,
    division: &Division,
) -> Result<(), Memory>
    requires divides { length division.now.part_of ≡ member_count scenario.now }
    requires empty { StandFor Q.set division.now parts.old.items (opened_below scenario.now 0) }
    ensures opened { OnOk result (StandFor Q.set division.now parts.new.items (opening scenario.now)) }
    ensures below { OnOk result ((m : _) → m < member_count scenario.now → part_number division.now m < division.now.parts) }
{
    for number in 0..scenario.members() {
        let member = MemberId(number as u16);
        admit_one(alloc, parts, scenario, division, member)?;
    }
    Ok(())
}

/// Puts the next member into its part.
fn admit_one<Q: EventQueue<Event> + Drop>(
    alloc: Global,
    parts: &mut Vec<Part<Q>>,
    scenario: &Scenario,
    division: &Division,
    member: MemberId,
) -> Result<(), Memory>
    requires divides { length division.now.part_of ≡ member_count scenario.now }
    requires named { member < member_count scenario.now }
    requires so_far { StandFor Q.set division.now parts.old.items (opened_below scenario.now member) }
    ensures opened { OnOk result (StandFor Q.set division.now parts.new.items (opened_below scenario.now (member + 1))) }
    ensures below { part_number division.now member < division.now.parts }
{
    let place = division.part(member);
    let part = &mut parts[place];
    part.admit(alloc, scenario, member)
}
