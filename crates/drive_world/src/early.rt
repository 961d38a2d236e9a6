//! The end of a drive before the end of its scenario.
ghost use Rattle.std.specs.Prelude.{◌≡◌, ◌⊎◌, ◌+◌, ◌<◌, ◌^◌, ℕ, List, Option, OnOk, OnErr};
ghost use Rattle.base.specs.World.{IsOver};
ghost use Rattle.trace.specs.declared.row.Row.{Row as ARow};
ghost use Rattle.run_output.specs.Written.{sink_failures};
ghost use Rattle.drive_world.specs.DriveOf.{IsSetting, drive_of, world_of};
ghost use Rattle.drive_world.specs.Telling.{NoneMay};
ghost use Rattle.drive_world.specs.UnderWay.{IsUnderWay};
ghost use Rattle.drive_world.specs.Ends.{HasTaken, TakesBeginning, PausesBy, RestsBy, StopsBy};

use crate::ends::Halt;
use crate::handing::hand_on;
use crate::setting::Setting;
use crate::turn::advance;
use crate::world::World;
use base::Fault;
use reports::Tallies;
use run_output::RowSink;
use std::alloc::Global;
use trace::Row;

/// Hands on the rows of all events before the first that was to be answered and wasn't.
///
/// Faults: `Memory`; `CounterOverflow`; `Write` where the place failed.
pub(crate) fn end_early<T: RowSink<P>, P>(
    alloc: Global,
    mut world: World,
    setting: &Setting,
    halt: &Halt,
    tallies: &mut Tallies,
    place: &mut P,
) -> Result<(), Fault>
    requires setting { IsSetting setting.now }
    requires countable { T.failed place.old < 2 ^ 63 }
    requires gathered { T.gathered place.old setting.now.scenario.now tallies.old }
    requires pauses { (told : List ℕ) × (gave : List (List ℕ)) × PausesBy ⟦<Row as Ord>⟧.cmp setting.now.scenario.now setting.now.least_delay halt.now world told gave tallies.old }
    ensures stops { (told : List ℕ) (gave : List (List ℕ)) (first : Option (List ℕ))
        → PausesBy ⟦<Row as Ord>⟧.cmp setting.now.scenario.now setting.now.least_delay halt.now world told gave tallies.old
        → HasTaken setting.now.scenario.now first (T.held place.old) tallies.old
        → OnOk result (StopsBy setting.now.scenario.now halt.now gave told first (T.held place.new)) }
    ensures part { (first : Option (List ℕ)) → HasTaken setting.now.scenario.now first (T.held place.old) tallies.old
        → OnErr result (TakesBeginning setting.now.scenario.now first (T.held place.new)) }
    ensures failures { T.failed place.new ≡ T.failed place.old + sink_failures result }
{
    come_to_rest(alloc, &mut world, setting, halt)?;
    hand_on_last::<T, P>(alloc, world, setting, halt, tallies, place)
}

/// Hands on the rows of all events before the least that pends, or all rows where no event up to the end is left.
///
/// Faults: as of `end_early`.
fn hand_on_last<T: RowSink<P>, P>(
    alloc: Global,
    mut world: World,
    setting: &Setting,
    halt: &Halt,
    tallies: &mut Tallies,
    place: &mut P,
) -> Result<(), Fault>
    requires setting { IsSetting setting.now }
    requires countable { T.failed place.old < 2 ^ 63 }
    requires gathered { T.gathered place.old setting.now.scenario.now tallies.old }
    requires rests { (told : List ℕ) × (gave : List (List ℕ)) × RestsBy ⟦<Row as Ord>⟧.cmp setting.now.scenario.now setting.now.least_delay halt.now world told gave tallies.old }
    ensures stops { (told : List ℕ) (gave : List (List ℕ)) (first : Option (List ℕ))
        → RestsBy ⟦<Row as Ord>⟧.cmp setting.now.scenario.now setting.now.least_delay halt.now world told gave tallies.old
        → HasTaken setting.now.scenario.now first (T.held place.old) tallies.old
        → OnOk result (StopsBy setting.now.scenario.now halt.now gave told first (T.held place.new)) }
    ensures part { (first : Option (List ℕ)) → HasTaken setting.now.scenario.now first (T.held place.old) tallies.old
        → OnErr result (TakesBeginning setting.now.scenario.now first (T.held place.new)) }
    ensures failures { T.failed place.new ≡ T.failed place.old + sink_failures result }
{
    match world.next_until(setting.scenario.end()) {
        Some(least) => {
            let rows = world.take_before(alloc, &least)?;
            hand_on::<T, P>(alloc, rows, setting.scenario, tallies, place)
        }
        None => hand_on::<T, P>(alloc, world.rows, setting.scenario, tallies, place),
    }
}

/// Where nothing can be sent to the harness, goes on as if it could be.
///
/// Faults: as of `go_on_untold`.
fn come_to_rest(
    alloc: Global,
    world: &mut World,
    setting: &Setting,
    halt: &Halt,
) -> Result<(), Fault>
    requires setting { IsSetting setting.now }
    requires pauses { (told : List ℕ) × (gave : List (List ℕ)) × (written : List ARow)
        × PausesBy ⟦<Row as Ord>⟧.cmp setting.now.scenario.now setting.now.least_delay halt.now world.old told gave written }
    ensures rests { (told : List ℕ) (gave : List (List ℕ)) (written : List ARow)
        → PausesBy ⟦<Row as Ord>⟧.cmp setting.now.scenario.now setting.now.least_delay halt.now world.old told gave written
        → OnOk result (RestsBy ⟦<Row as Ord>⟧.cmp setting.now.scenario.now setting.now.least_delay halt.now world.new told gave written) }
    ensures cause { sink_failures result ≡ 0 }
{
    match halt {
        Halt::Closed => go_on_untold(alloc, world, setting),
        Halt::Stopped { .. } => Ok(()),
    }
}

/// Goes on as if the harness were sent its lines, until an answer is needed or no event up to the end is left.
///
/// Faults: `Memory`; `CounterOverflow` where a number of a member or of the turns would pass its limit.
fn go_on_untold(alloc: Global, world: &mut World, setting: &Setting) -> Result<(), Fault>
    requires setting { IsSetting setting.now }
    requires way { (told : List ℕ) × (gave : List (List ℕ)) × (written : List ARow)
        × IsUnderWay ⟦<Row as Ord>⟧.cmp setting.now.scenario.now setting.now.least_delay world.old told gave written }
    ensures under_way { (told : List ℕ) (gave : List (List ℕ)) (written : List ARow)
        → IsUnderWay ⟦<Row as Ord>⟧.cmp setting.now.scenario.now setting.now.least_delay world.old told gave written
        → OnOk result ((lines : List ℕ) × IsUnderWay ⟦<Row as Ord>⟧.cmp setting.now.scenario.now setting.now.least_delay world.new lines gave written) }
    ensures none { OnOk result (IsOver setting.now.scenario.now.end (world_of world.new)
        ⊎ NoneMay setting.now.scenario.now setting.now.least_delay (drive_of world.new)) }
    ensures cause { sink_failures result ≡ 0 }
{
    for _turn in 0..u64::MAX {
        let Some(_least) = world.next_until(setting.scenario.end()) else {
            return Ok(());
        };
        let bound = world.safe_bound(setting);
        match world.pending.first_free(bound, &world.waiting) {
            Some(key) => {
                advance(alloc, world, setting, &key)?;
            }
            None => return Ok(()),
        }
    }
    Err(Fault::CounterOverflow)
}
