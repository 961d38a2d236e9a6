//! When the link between two groups is cut: the scenario's cuts, sorted by time and gathered by pair of groups.
ghost use Rattle.std.specs.Prelude.{◌≡◌, ℕ, ◌<◌, ◌≤◌, ◌||◌, ◌&&◌, true, length, nat_le, nat_lt, slice_index_or, IfOk, OnOk};
ghost use Rattle.std.specs.List.{list_any};
ghost use Rattle.std.specs.List.Sorted.{IsPermutation};
ghost use Rattle.scenario.specs.Setup.{cuts_off};
ghost use Rattle.scenario.specs.Spells.{is_in_any, HaveBegun};
ghost use Rattle.scenario.specs.Calendar.{may_be_in};
ghost use Rattle.scenario.specs.declared.settings.Cut.{Cut as ACut};
ghost use Rattle.links.specs.Entries.{outages_in, pair_number};

use base::{Memory, Moment};
use scenario::{Calendar, Cut, Spells};
use std::alloc::Global;
use std::collections::BTreeMap;

/// The times in which the link from one group to another is cut.
pub(crate) fn outages_of(
    alloc: Global,
    cuts: &[Cut],
) -> Result<BTreeMap<(usize, usize), Spells>, Memory>
    ensures { IfOk result (λ outages. (from to t : ℕ) → is_in_any (outages_in outages.entries from to) t ≡ list_any (cuts_off from to t) cuts.now) }
{
    let sorted = sorted(alloc, cuts)?;
    list_outages(alloc, sorted.as_slice())
}

/// The cuts by when they begin.
fn sorted(alloc: Global, cuts: &[Cut]) -> Result<Vec<Cut>, Memory>
    ensures same { IfOk result (λ sorted. IsPermutation cuts.now sorted.items) }
    ensures rising { IfOk result (λ sorted. (i j : ℕ) (d : ACut) → i ≤ j → j < length sorted.items
        → (slice_index_or sorted.items i d).at ≤ (slice_index_or sorted.items j d).at) }
{
    let mut sorted = Vec::from_slice(alloc, cuts)?;
    sorted.sort_by_key(|cut| cut.at.ticks())?;
    Ok(sorted)
}

/// The times of cuts that come in their order.
fn list_outages(alloc: Global, cuts: &[Cut]) -> Result<BTreeMap<(usize, usize), Spells>, Memory>
    requires rising { (i j : ℕ) (d : ACut) → i ≤ j → j < length cuts.now
        → (slice_index_or cuts.now i d).at ≤ (slice_index_or cuts.now j d).at }
    ensures { IfOk result (λ outages. (from to t : ℕ) → is_in_any (outages_in outages.entries from to) t ≡ list_any (cuts_off from to t) cuts.now) }
{
    let mut outages = BTreeMap::new(alloc);
    for cut in cuts {
        let from = cut.at.ticks();
        let until = cut.until.ticks();
        add(alloc, &mut outages, (cut.from, cut.to), from, until)?;
    }
    Ok(outages)
}

/// Adds a time to those of its two groups.
fn add(
    alloc: Global,
    outages: &mut BTreeMap<(usize, usize), Spells>,
    groups: (usize, usize),
    from: u64,
    until: u64,
) -> Result<(), Memory>
    requires begun { HaveBegun (outages_in outages.old.entries groups.0 groups.1) from }
    ensures here { OnOk result ((t : ℕ) → is_in_any (outages_in outages.new.entries groups.0 groups.1) t
        ≡ (is_in_any (outages_in outages.old.entries groups.0 groups.1) t || (nat_le from t && nat_lt t until))) }
    ensures others { OnOk result ((a b : ℕ) → ¬ ((a ≡ groups.0) × (b ≡ groups.1))
        → outages_in outages.new.entries a b ≡ outages_in outages.old.entries a b) }
    ensures begun { OnOk result (HaveBegun (outages_in outages.new.entries groups.0 groups.1) from) }
{
    if let Some(others) = outages.get_mut(&groups) {
        return others.add(from, until);
    }
    let mut first = Spells::new(alloc);
    first.add(from, until)?;
    match outages.insert(groups, first) {
        Ok(_) => Ok(()),
        Err(_) => Err(Memory),
    }
}

/// The cuts in a calendar, by the numbers of their pairs of groups. The run goes on up to `end`.
pub(crate) fn calendar_of_cuts(alloc: Global, end: Moment, cuts: &[Cut]) -> Result<Calendar, Memory>
    ensures { IfOk result (λ calendar. (from to t : ℕ) → list_any (cuts_off from to t) cuts.now ≡ true → may_be_in calendar (pair_number from to) t ≡ true) }
{
    let mut calendar = Calendar::new(alloc, end, cuts.len())?;
    for cut in cuts {
        let pair = number_of_pair(cut.from, cut.to);
        calendar.mark(pair, cut.at.ticks(), cut.until.ticks());
    }
    Ok(calendar)
}

/// The number of a pair of groups in the calendar, which tells 64 numbers apart.
pub(crate) fn number_of_pair(from: usize, to: usize) -> usize
    ensures { result ≡ pair_number from to }
{
    from % 8 * 8 + to % 8
}
