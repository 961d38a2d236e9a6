//! When each member is slow and by how many ticks: the scenario's `[[slow]]` entries, gathered by member.
ghost use Rattle.std.specs.Prelude.{◌≡◌, ℕ, ◌<◌, ◌≤◌, ◌++◌, true, cond, length, nat_eq, [], ◌∷◌, slice_index_or, IfOk, OnOk, vec_len};
ghost use Rattle.std.specs.List.{list_any};
ghost use Rattle.std.specs.List.Sorted.{IsPermutation};
ghost use Rattle.scenario.specs.Setup.{is_slow, extra_of};
ghost use Rattle.scenario.specs.Calendar.{may_be_in};
ghost use Rattle.scenario.specs.declared.settings.Slow.{Slow as ASlow};
ghost use Rattle.links.specs.Entries.{extra_in, spans_in, span_of, slow_spans};

mod times;

use base::{Memory, Moment};
use scenario::{Calendar, Scenario, Slow};
use std::alloc::Global;
pub(crate) use times::{SlowSpan, SlowTimes};

/// Each slow member's times by its number, in such an order that the first that covers a moment says by how much the member
/// is slow: in version 4 those that say the most come first.
pub(crate) fn times_of(alloc: Global, scenario: &Scenario) -> Result<Vec<SlowTimes>, Memory>
    ensures { IfOk result (λ spans. (m t : ℕ) → extra_in (spans_in spans.items m) t ≡ extra_of scenario.now m t) }
{
    if scenario.is_fourth() {
        let falling = by_extra(alloc, scenario.slows())?;
        return spans_of(alloc, falling.as_slice());
    }
    spans_of(alloc, scenario.slows())
}

/// The entries that say more before those that say less.
fn by_extra(alloc: Global, slows: &[Slow]) -> Result<Vec<Slow>, Memory>
    ensures same { IfOk result (λ falling. IsPermutation slows.now falling.items) }
    ensures falling { IfOk result (λ falling. (i j : ℕ) (d : ASlow) → i ≤ j → j < length falling.items
        → (slice_index_or falling.items j d).extra ≤ (slice_index_or falling.items i d).extra) }
{
    let mut falling = Vec::from_slice(alloc, slows)?;
    falling.sort_by(|first, second| second.extra.cmp(&first.extra))?;
    Ok(falling)
}

/// Each slow member's times, in the order of the entries, by the member's number. Members past the last slow one
/// have no place.
fn spans_of(alloc: Global, slows: &[Slow]) -> Result<Vec<SlowTimes>, Memory>
    ensures { IfOk result (λ spans. (member : ℕ) → spans_in spans.items member ≡ slow_spans member slows.now) }
{
    let mut spans = Vec::new(alloc);
    for slow in slows {
        append(alloc, &mut spans, slow.member.index(), span_of(slow))?;
    }
    Ok(spans)
}

/// When an entry says that its member is slow.
fn span_of(slow: &Slow) -> SlowSpan
    ensures { result ≡ span_of slow.now }
{
    SlowSpan {
        from: slow.from.ticks(),
        until: slow.until.ticks(),
        extra: slow.extra,
    }
}

/// Puts a time after the others of its member.
fn append(
    alloc: Global,
    spans: &mut Vec<SlowTimes>,
    member: usize,
    span: SlowSpan,
) -> Result<(), Memory>
    ensures { OnOk result ((m : ℕ) → spans_in spans.new.items m
        ≡ spans_in spans.old.items m ++ cond (nat_eq member m) (span ∷ []) []) }
{
    make_room(alloc, spans, member)?;
    spans[member].append(span)
}

/// Makes a place for this member, with no times in new places.
fn make_room(alloc: Global, spans: &mut Vec<SlowTimes>, member: usize) -> Result<(), Memory>
    ensures same { (m : ℕ) → spans_in spans.new.items m ≡ spans_in spans.old.items m }
    ensures room { OnOk result (member < vec_len spans.new) }
{
    while spans.len() <= member {
        spans.push(SlowTimes::new(alloc))?;
    }
    Ok(())
}

/// The times in which members are slow, in a calendar by their numbers. The run goes on up to `end`.
pub(crate) fn calendar_of_slows(
    alloc: Global,
    end: Moment,
    slows: &[Slow],
) -> Result<Calendar, Memory>
    ensures { IfOk result (λ calendar. (m t : ℕ) → list_any (is_slow m t) slows.now ≡ true → may_be_in calendar m t ≡ true) }
{
    let mut calendar = Calendar::new(alloc, end, slows.len())?;
    for slow in slows {
        calendar.mark(slow.member.index(), slow.from.ticks(), slow.until.ticks());
    }
    Ok(calendar)
}
