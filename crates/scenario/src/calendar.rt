//! A coarse calendar of many owners' times, from which most look-ups see without a search that there is none.
ghost use Rattle.std.specs.Prelude.{◌≡◌, ℕ, ◌<◌, ◌≤◌, ◌||◌, true, false, length, get_or, IfOk};
ghost use Rattle.scenario.specs.Calendar.{may_be_in, is_noted, bit_of, HasNoted};

use base::{Memory, Moment};
use std::alloc::Global;
use std::marker::Model;

/// Into how many stretches a calendar divides a run at most: so few stay in a processor's cache.
const MOST_STRETCHES: u64 = 65536;

/// How many stretches there are for each time.
const STRETCHES_A_TIME: u64 = 64;

/// In how many stretches owners are noted at most, all times together.
const MOST_NOTES: usize = 4194304;

/// Which owners may have a time at a moment, where owners are members or pairs of groups by a number.
/// It never denies a time that was noted, but may report one where there is none.
#[derive(Drop)]
pub struct Calendar {
    /// A stretch lasts two to the power of this many ticks.
    shift: u32,
    /// For each stretch from moment 0 on, the owners with a time in it, as bits: 64 numbers apart, owners share a bit.
    /// Of what is past the last stretch nothing is known.
    owners: Vec<u64>,
    /// The bits of owners of whom nothing is known in any stretch.
    unknown: u64,
    /// In how many stretches an owner may still be noted. So noting takes a bounded time, however long the times are.
    left: usize,
}

impl Model for Calendar {
    ghost use Rattle.scenario.specs.Calendar.{Stretches};

    ghost Value = { Stretches };

    ghost use Rattle.scenario.specs.CalendarOf.{stretches_of, IsCalendar};

    ghost view = { stretches_of };

    ghost invariant = { IsCalendar };
}

impl Calendar {
    /// A calendar for so many times of a run that goes on up to `end`, with none noted yet.
    pub fn new(alloc: Global, end: Moment, times: usize) -> Result<Calendar, Memory>
        ensures { IfOk result (λ calendar. (o t : ℕ) → t ≤ end → may_be_in calendar o t ≡ false) }
    {
        let end = end.ticks();
        let shift = shift_for(end, times as u64);
        let last = (end >> shift) as usize;
        let owners = no_owners(alloc, last)?;
        Ok(Calendar {
            shift,
            owners,
            unknown: 0,
            left: MOST_NOTES,
        })
    }

    /// Marks a time of an owner's.
    pub fn mark(&mut self, owner: usize, from: u64, until: u64)
        ensures noted { (t : ℕ) → from ≤ t → t < until → may_be_in self.new owner t ≡ true }
        ensures kept { (o t : ℕ) → may_be_in self.old o t ≡ true → may_be_in self.new o t ≡ true }
    {
        if until <= from {
            return;
        }
        let first = (from >> self.shift) as usize;
        let last = ((until - 1) >> self.shift) as usize;
        let end = self.owners.len().min(last + 1);
        if end <= first {
            return;
        }
        if self.left < end - first {
            self.unknown = self.unknown | bit_of(owner);
            return;
        }
        self.left -= end - first;
        mark_in(&mut self.owners, first, last + 1, owner);
    }

    /// Whether an owner may have a time at a moment. Where it has, the answer is true.
    #[tactic(auto, unfolding(crate::specs::Calendar::may_be_in))]
    pub fn may_be_in(&self, owner: usize, at: u64) -> bool
        ensures { result ≡ may_be_in self.now owner at }
    {
        match self.owners.get((at >> self.shift) as usize) {
            Some(owners) => is_noted(*owners, self.unknown, bit_of(owner)),
            None => true,
        }
    }
}

/// The bit of an owner's number.
fn bit_of(owner: usize) -> u64
    ensures { result ≡ bit_of owner }
{
    1 << (owner % 64)
}

/// Whether the bit is set in one of the two.
fn is_noted(owners: u64, unknown: u64, bit: u64) -> bool
    ensures { result ≡ (is_noted owners bit || is_noted unknown bit) }
{
    owners & bit == bit || unknown & bit == bit
}

/// The exponent of the stretches' length, such that a run of so many times has few of them.
fn shift_for(end: u64, times: u64) -> u32
    ensures { result < 64 }
{
    let most = times.saturating_mul(STRETCHES_A_TIME).min(MOST_STRETCHES);
    let mut shift = 0;
    while shift < 63 && end >> shift >= most {
        shift += 1;
    }
    shift
}

/// No owner in any of the stretches up to the last.
fn no_owners(alloc: Global, last: usize) -> Result<Vec<u64>, Memory>
    ensures empty { IfOk result (λ owners. (k : ℕ) → get_or owners.items k 0 ≡ 0) }
    ensures all { IfOk result (λ owners. last < length owners.items) }
{
    let mut owners = Vec::new(alloc);
    while owners.len() <= last {
        owners.push(0)?;
    }
    Ok(owners)
}

/// Marks an owner in the stretches from the first to before the last, as far as there are such.
fn mark_in(owners: &mut Vec<u64>, first: usize, last: usize, owner: usize)
    ensures same { length owners.new.items ≡ length owners.old.items }
    ensures noted { (k : ℕ) → first ≤ k → k < last → k < length owners.old.items → HasNoted owners.new.items k owner }
    ensures kept { (k o : ℕ) → HasNoted owners.old.items k o → HasNoted owners.new.items k o }
{
    let bit = bit_of(owner);
    let end = owners.len().min(last);
    let mut place = first;
    while place < end {
        owners[place] = owners[place] | bit;
        place += 1;
    }
}
