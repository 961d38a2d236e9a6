//! Rows are split into those of the events before one and the others, and handed on in their order.
ghost use Rattle.std.specs.Prelude.{◌≡◌, ◌++◌, ◌∷◌, [], ◌+◌, ◌<◌, ◌≤◌, ◌^◌, ℕ, List, Option, IfOk, OnOk, OnErr, All};
ghost use Rattle.trace.specs.Text.{NamesMembers};
ghost use Rattle.run_output.specs.Written.{sink_failures};
ghost use Rattle.worker_queue.specs.Queue.{IsLeastKey};
ghost use Rattle.drive_world.specs.Rows.{key_of, is_row_before, rows_before, rows_from};
ghost use Rattle.drive_world.specs.WorldOf.{events_in};
ghost use Rattle.drive_world.specs.DriveOf.{IsSetting};
ghost use Rattle.drive_world.specs.UnderWay.{IsUnderWay};
ghost use Rattle.drive_world.specs.Ends.{HandsOn, HasTaken, TakesBeginning};

use crate::setting::Setting;
use crate::world::World;
use base::{Fault, Key, Memory};
use reports::Tallies;
use run_output::RowSink;
use scenario::Scenario;
use std::alloc::Global;
use std::slice;
use trace::Row;

/// Copies of the rows of the events before one, and of the others.
pub(crate) fn parted(alloc: Global, rows: &[Row], key: &Key) -> Result<(Vec<Row>, Vec<Row>), Memory>
    ensures early { IfOk result (λ parts. parts.0.items ≡ rows_before key.now rows.now) }
    ensures late { IfOk result (λ parts. parts.1.items ≡ rows_from key.now rows.now) }
{
    let mut early = Vec::new(alloc);
    let mut late = Vec::new(alloc);
    for row in rows {
        if is_row_before(row, key) {
            copy_to(&mut early, row)?;
        } else {
            copy_to(&mut late, row)?;
        }
    }
    Ok((early, late))
}

/// Puts a copy of the row at the end of a list.
fn copy_to(rows: &mut Vec<Row>, row: &Row) -> Result<(), Memory>
    ensures { OnOk result (rows.new.items ≡ rows.old.items ++ row.now ∷ []) }
{
    rows.extend_from_slice(slice::from_ref(row))?;
    Ok(())
}

/// Whether a row is of an event before this one.
#[tactic(auto, unfolding(base::specs::Order::key_cmp))]
fn is_row_before(row: &Row, key: &Key) -> bool
    ensures { result ≡ is_row_before key.now row.now }
{
    key_of(row).cmp(key).is_lt()
}

/// The key of the event that wrote a row.
fn key_of(row: &Row) -> Key
    ensures { result ≡ key_of row.now }
{
    Key {
        at: row.at,
        to: row.member,
        from: row.from,
        number: row.number,
    }
}

/// Hands rows on, in their order.
///
/// Faults: `CounterOverflow` where a count of the report would pass its limit; `Memory`; `Write` where the place failed.
pub(crate) fn hand_on<T: RowSink<P>, P>(
    alloc: Global,
    mut rows: Vec<Row>,
    scenario: &Scenario,
    tallies: &mut Tallies,
    place: &mut P,
) -> Result<(), Fault>
    requires named { All (NamesMembers scenario.now) rows.items }
    requires countable { T.failed place.old < 2 ^ 63 }
    requires gathered { T.gathered place.old scenario.now tallies.old }
    ensures handed { HandsOn ⟦<Row as Ord>⟧.cmp scenario.now rows.items tallies.old tallies.new (T.held place.old) (T.held place.new) result }
    ensures gathered { OnOk result (T.gathered place.new scenario.now tallies.new) }
    ensures failures { T.failed place.new ≡ T.failed place.old + sink_failures result }
{
    rows.sort_unstable();
    T::take(alloc, rows.as_slice(), scenario, tallies, place)
}

/// Hands on the rows of the events before the least that pends, where rows enough are kept.
///
/// Faults: as of `hand_on`.
pub(crate) fn hand_on_before<T: RowSink<P>, P>(
    alloc: Global,
    world: &mut World,
    setting: &Setting,
    least: &Key,
    tallies: &mut Tallies,
    place: &mut P,
) -> Result<(), Fault>
    requires setting { IsSetting setting.now }
    requires under { (told : List ℕ) × (gave : List (List ℕ)) × IsUnderWay ⟦<Row as Ord>⟧.cmp setting.now.scenario.now setting.now.least_delay world.old told gave tallies.old }
    requires least { IsLeastKey (events_in world.old.pending) least.now }
    requires in_time { least.now.at ≤ setting.now.scenario.now.end }
    requires countable { T.failed place.old < 2 ^ 63 }
    requires gathered { T.gathered place.old setting.now.scenario.now tallies.old }
    ensures under { (told : List ℕ) (gave : List (List ℕ))
        → IsUnderWay ⟦<Row as Ord>⟧.cmp setting.now.scenario.now setting.now.least_delay world.old told gave tallies.old
        → OnOk result (IsUnderWay ⟦<Row as Ord>⟧.cmp setting.now.scenario.now setting.now.least_delay world.new told gave tallies.new) }
    ensures pending { OnOk result (world.new.pending ≡ world.old.pending) }
    ensures taken { (first : Option (List ℕ)) → HasTaken setting.now.scenario.now first (T.held place.old) tallies.old
        → OnOk result (HasTaken setting.now.scenario.now first (T.held place.new) tallies.new) }
    ensures part { (first : Option (List ℕ)) → HasTaken setting.now.scenario.now first (T.held place.old) tallies.old
        → OnErr result (TakesBeginning setting.now.scenario.now first (T.held place.new)) }
    ensures gathered { OnOk result (T.gathered place.new setting.now.scenario.now tallies.new) }
    ensures failures { T.failed place.new ≡ T.failed place.old + sink_failures result }
{
    if !world.has_enough() {
        return Ok(());
    }
    let rows = world.take_before(alloc, least)?;
    hand_on::<T, P>(alloc, rows, setting.scenario, tallies, place)
}
