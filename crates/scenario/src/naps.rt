//! When members are paused, member by member.
ghost use Rattle.std.specs.Prelude.{◌≡◌, ℕ, ◌<◌, ◌≤◌, ◌≢◌, ◌&&◌, ◌||◌, true, length, nat_eq, nat_le, nat_lt, slice_index_or, vec_len, IfOk, OnOk};
ghost use Rattle.std.specs.List.{list_any};
ghost use Rattle.std.specs.List.Sorted.{IsPermutation};
ghost use Rattle.scenario.specs.Setup.{is_in_pause};
ghost use Rattle.scenario.specs.Spells.{is_in_any, HaveBegun};
ghost use Rattle.scenario.specs.Naps.{naps_at};
ghost use Rattle.scenario.specs.Calendar.{may_be_in};
ghost use Rattle.scenario.specs.declared.settings.Pause.{Pause as APause};

use crate::calendar::Calendar;
use crate::settings::Pause;
use crate::spells::Spells;
use base::{Memory, Moment};
use std::alloc::Global;

/// The times in which each member is paused, by its number. Members past the last one that is paused have none.
pub(crate) fn naps_of(alloc: Global, pauses: &[Pause]) -> Result<Vec<Spells>, Memory>
    ensures { IfOk result (λ naps. (m t : ℕ) → is_in_any (naps_at naps.items m) t ≡ list_any (is_in_pause m t) pauses.now) }
{
    let sorted = sorted(alloc, pauses)?;
    list_naps(alloc, sorted.as_slice())
}

/// The pauses by when they begin.
fn sorted(alloc: Global, pauses: &[Pause]) -> Result<Vec<Pause>, Memory>
    ensures same { IfOk result (λ sorted. IsPermutation pauses.now sorted.items) }
    ensures rising { IfOk result (λ sorted. (i j : ℕ) (d : APause) → i ≤ j → j < length sorted.items
        → (slice_index_or sorted.items i d).from ≤ (slice_index_or sorted.items j d).from) }
{
    let mut sorted = Vec::from_slice(alloc, pauses)?;
    sorted.sort_by_key(|pause| pause.from.ticks())?;
    Ok(sorted)
}

/// The times of pauses that come in their order, member by member.
fn list_naps(alloc: Global, pauses: &[Pause]) -> Result<Vec<Spells>, Memory>
    requires rising { (i j : ℕ) (d : APause) → i ≤ j → j < length pauses.now
        → (slice_index_or pauses.now i d).from ≤ (slice_index_or pauses.now j d).from }
    ensures { IfOk result (λ naps. (m t : ℕ) → is_in_any (naps_at naps.items m) t ≡ list_any (is_in_pause m t) pauses.now) }
{
    let mut naps = Vec::new(alloc);
    for pause in pauses {
        let from = pause.from.ticks();
        let until = pause.until.ticks();
        add(alloc, &mut naps, pause.member.index(), from, until)?;
    }
    Ok(naps)
}

/// Adds a time to those of a member.
fn add(
    alloc: Global,
    naps: &mut Vec<Spells>,
    member: usize,
    from: u64,
    until: u64,
) -> Result<(), Memory>
    requires begun { HaveBegun (naps_at naps.old.items member) from }
    ensures here { OnOk result ((t : ℕ) → is_in_any (naps_at naps.new.items member) t
        ≡ (is_in_any (naps_at naps.old.items member) t || (nat_le from t && nat_lt t until))) }
    ensures others { OnOk result ((m : ℕ) → m ≢ member → naps_at naps.new.items m ≡ naps_at naps.old.items m) }
    ensures begun { OnOk result (HaveBegun (naps_at naps.new.items member) from) }
{
    make_room(alloc, naps, member)?;
    naps[member].add(from, until)
}

/// Makes a place for this member, with no times in new places.
fn make_room(alloc: Global, naps: &mut Vec<Spells>, member: usize) -> Result<(), Memory>
    ensures same { (m : ℕ) → naps_at naps.new.items m ≡ naps_at naps.old.items m }
    ensures room { OnOk result (member < vec_len naps.new) }
{
    while naps.len() <= member {
        naps.push(Spells::new(alloc))?;
    }
    Ok(())
}

/// The pauses in a calendar, by their members' numbers. The run goes on up to `end`.
pub(crate) fn calendar_of(alloc: Global, end: Moment, pauses: &[Pause]) -> Result<Calendar, Memory>
    ensures { IfOk result (λ calendar. (m t : ℕ) → list_any (is_in_pause m t) pauses.now ≡ true → may_be_in calendar m t ≡ true) }
{
    let mut calendar = Calendar::new(alloc, end, pauses.len())?;
    for pause in pauses {
        calendar.mark(
            pause.member.index(),
            pause.from.ticks(),
            pause.until.ticks(),
        );
    }
    Ok(calendar)
}
