//! The loop of a drive: turn after turn, until no event up to the end is left.
ghost use Rattle.std.specs.Prelude.{◌≡◌, ◌⊎◌, ◌++◌, ◌+◌, ◌<◌, ◌^◌, ℕ, List, [], Option, IfOk, OnOk, OnErr, IfErr, All};
ghost use Rattle.std.specs.Io.KnownBytes.{Appends};
ghost use Rattle.base.specs.declared.fault.Fault.TheVariants as fault;
ghost use Rattle.trace.specs.Text.{NamesMembers, trace_text};
ghost use Rattle.drive_events.specs.Line.{end_line};
ghost use Rattle.run_output.specs.Written.{sink_failures};
ghost use Rattle.drive_world.specs.declared.ends.DriveError.TheVariants as error;
ghost use Rattle.drive_world.specs.Drives.{DrivesTo};
ghost use Rattle.drive_world.specs.DriveOf.{IsSetting};
ghost use Rattle.drive_world.specs.UnderWay.{IsUnderWay};
ghost use Rattle.drive_world.specs.Ends.{EndsEarly, drive_failures, HasTaken, TakesBeginning, PausesAt};

use crate::early::end_early;
use crate::ends::{DriveError, Halt, error_of};
use crate::handing::{hand_on, hand_on_before};
use crate::harness::{Harness, Untold};
use crate::setting::Setting;
use crate::turn::turn;
use crate::world::World;
use base::Fault;
use drive_events::push_end;
use reports::Tallies;
use run_output::RowSink;
use scenario::Scenario;
use std::alloc::Global;
use trace::Row;

/// Drives the world of a scenario to its end: the harness is sent the events, and its answers say what comes of them. The
/// place takes the trace: its rows are handed on as soon as no event before them is left. It gives what was tallied of them.
///
/// Errors: `Stopped` where an answer is none; `Closed` where nothing can be sent to the harness: the place has then got the rows
/// of all events before the first that was to be answered and wasn't. A fault: `Memory`; `CounterOverflow` where a number
/// of a member, of the turns or of the report would pass its limit; `Write` where the place failed.
pub fn drive<H: Harness, T: RowSink<P>, P>(
    alloc: Global,
    setting: &Setting,
    harness: &mut H,
    place: &mut P,
) -> Result<Tallies, DriveError>
    requires setting { IsSetting setting.now }
    requires untold { H.told harness.old ≡ [] }
    requires ungiven { H.gave harness.old ≡ [] }
    requires countable { T.failed place.old < 2 ^ 63 }
    requires none_gathered { T.gathered place.old setting.now.scenario.now [] }
    ensures done { IfOk result (DrivesTo setting.now.scenario.now (H.gave harness.new) (H.told harness.new)) }
    ensures whole { IfOk result (λ tallies. Appends (T.held place.old) (T.held place.new) (trace_text setting.now.scenario.now tallies)) }
    ensures named { IfOk result (λ tallies. All (NamesMembers setting.now.scenario.now) tallies) }
    ensures gathered { IfOk result (T.gathered place.new setting.now.scenario.now) }
    ensures early { IfErr result (λ error. EndsEarly setting.now.scenario.now error (H.gave harness.new) (H.told harness.new)
        (T.held place.old) (T.held place.new)) }
    ensures failures { T.failed place.new ≡ T.failed place.old + drive_failures result }
{
    let mut world = World::open(alloc, setting.scenario)?;
    let mut tallies = Tallies::new(alloc, setting.scenario);
    T::begin(place)?;
    match play::<H, T, P>(alloc, &mut world, setting, harness, &mut tallies, place)? {
        None => {
            hand_on::<T, P>(alloc, world.rows, setting.scenario, &mut tallies, place)?;
            Ok(tallies)
        }
        Some(halt) => {
            end_early::<T, P>(alloc, world, setting, &halt, &mut tallies, place)?;
            Err(error_of(halt))
        }
    }
}

/// Turn after turn, until no event up to the end is left, or until the drive halts.
fn play<H: Harness, T: RowSink<P>, P>(
    alloc: Global,
    world: &mut World,
    setting: &Setting,
    harness: &mut H,
    tallies: &mut Tallies,
    place: &mut P,
) -> Result<Option<Halt>, Fault>
    requires setting { IsSetting setting.now }
    requires begun { IsUnderWay ⟦<Row as Ord>⟧.cmp setting.now.scenario.now setting.now.least_delay world.old (H.told harness.old) (H.gave harness.old) tallies.old }
    requires countable { T.failed place.old < 2 ^ 63 }
    requires gathered { T.gathered place.old setting.now.scenario.now tallies.old }
    ensures pauses { IfOk result (λ halt. PausesAt ⟦<Row as Ord>⟧.cmp setting.now.scenario.now setting.now.least_delay halt world.new
        (H.told harness.new) (H.gave harness.new) tallies.new) }
    ensures taken { (first : Option (List ℕ)) → HasTaken setting.now.scenario.now first (T.held place.old) tallies.old
        → OnOk result (HasTaken setting.now.scenario.now first (T.held place.new) tallies.new) }
    ensures part { (first : Option (List ℕ)) → HasTaken setting.now.scenario.now first (T.held place.old) tallies.old
        → OnErr result (TakesBeginning setting.now.scenario.now first (T.held place.new)) }
    ensures gathered { OnOk result (T.gathered place.new setting.now.scenario.now tallies.new) }
    ensures failures { T.failed place.new ≡ T.failed place.old + sink_failures result }
{
    for _turn in 0..u64::MAX {
        let Some(least) = world.next_until(setting.scenario.end()) else {
            return Ok(None);
        };
        hand_on_before::<T, P>(alloc, world, setting, &least, tallies, place)?;
        if let Some(halt) = turn(alloc, world, setting, harness)? {
            return Ok(Some(halt));
        }
    }
    Err(Fault::CounterOverflow)
}

/// Writes to a harness that the end of the scenario is reached. `Closed` where that can't be sent.
pub fn write_end<H: Harness>(
    alloc: Global,
    scenario: &Scenario,
    harness: &mut H,
) -> Result<(), DriveError>
    ensures told { OnOk result (H.told harness.new ≡ H.told harness.old ++ end_line scenario.now) }
    ensures gave { H.gave harness.new ≡ H.gave harness.old }
    ensures ends { IfErr result (λ e. (e ≡ error.Closed) ⊎ (e ≡ error.Fault fault.Memory)) }
{
    let mut line = String::new(alloc);
    push_end(&mut line, scenario)?;
    match harness.tell(line.as_bytes()) {
        Ok(()) => {}
        Err(untold) => return Err(cannot_tell(untold)),
    }
    match harness.flush() {
        Ok(()) => Ok(()),
        Err(untold) => Err(cannot_tell(untold)),
    }
}

/// How a drive ends where its end can't be sent to the harness.
fn cannot_tell(untold: Untold) -> DriveError
    ensures { (result ≡ error.Closed) ⊎ (result ≡ error.Fault fault.Memory) }
{
    match untold {
        Untold::Closed => DriveError::Closed,
        Untold::Memory => DriveError::Fault(Fault::Memory),
    }
}
