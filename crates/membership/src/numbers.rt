//! Columns of numbers by member, for incarnation numbers and moments of deaths: a 0 past the end takes no memory.
ghost use Rattle.std.specs.Prelude.{◌≡◌, ◌≢◌, ◌<◌, ◌≤◌, ◌^◌, ℕ, [], OnOk, vec_len, slice_index};
ghost use Rattle.membership.specs.Numbers.{numbers_of};

use base::Memory;
use std::alloc::Global;

/// Numbers that are small nearly always, by the members they are about, and 0 past the end: those below 65,536
/// in one column, the others in another, which stays empty as long as there are none.
#[derive(Drop)]
pub(crate) struct Numbers {
    /// The small numbers, and 0 where a large one stands.
    smalls: Vec<u16>,
    /// The large numbers, and 0 where a small one stands.
    larges: Vec<u64>,
}

/// The first number that is large.
const LARGE: u64 = 65_536;

impl Numbers {
    /// No numbers. They take no memory.
    pub(crate) fn new(alloc: Global) -> Self
        ensures { numbers_of result ≡ [] }
    {
        Numbers {
            smalls: Vec::new(alloc),
            larges: Vec::new(alloc),
        }
    }

    /// The number at a place: 0 past the end.
    #[inline(always)]
    pub(crate) fn at(&self, place: usize) -> u64
        ensures { result ≡ slice_index (numbers_of self.now) place }
    {
        let small = u64::from(small_at(&self.smalls, place));
        if self.larges.is_empty() {
            return small;
        }
        small.max(number_at(&self.larges, place))
    }

    /// Has a place for a number, with 0 where there was none. A 0 needs none.
    pub(crate) fn reach(&mut self, place: usize, number: u64) -> Result<(), Memory>
        ensures small { OnOk result (number ≢ 0 → number < 2 ^ 16 → place < vec_len self.new.smalls) }
        ensures large { OnOk result (2 ^ 16 ≤ number → place < vec_len self.new.larges) }
        ensures same { (k : ℕ) → slice_index (numbers_of self.new) k ≡ slice_index (numbers_of self.old) k }
    {
        if number < LARGE {
            reach_small(&mut self.smalls, place, number as u16)
        } else {
            reach_number(&mut self.larges, place, number)
        }
    }

    /// Writes a number at a place. There is nothing to write where that is past the end, for a 0.
    pub(crate) fn write(&mut self, place: usize, number: u64)
        requires small { number ≢ 0 → number < 2 ^ 16 → place < vec_len self.old.smalls }
        requires large { 2 ^ 16 ≤ number → place < vec_len self.old.larges }
        ensures same { slice_index (numbers_of self.new) place ≡ number }
        ensures others { (k : ℕ) → k ≢ place → slice_index (numbers_of self.new) k ≡ slice_index (numbers_of self.old) k }
    {
        if number < LARGE {
            write_small(&mut self.smalls, place, number as u16);
            write_number(&mut self.larges, place, 0);
        } else {
            write_small(&mut self.smalls, place, 0);
            write_number(&mut self.larges, place, number);
        }
    }
}

// Columns of numbers by the members they are about, with 0 past the end.

/// The number at a place: 0 past the end.
pub(crate) fn number_at(numbers: &[u64], place: usize) -> u64
    ensures { result ≡ slice_index numbers.now place }
{
    match numbers.get(place) {
        Some(number) => *number,
        None => 0,
    }
}

/// Has a place for a number, with 0 where there was none. A 0 needs none.
pub(crate) fn reach_number(numbers: &mut Vec<u64>, place: usize, number: u64) -> Result<(), Memory>
    ensures place { OnOk result (number ≢ 0 → place < vec_len numbers.new) }
    ensures same { (k : ℕ) → slice_index numbers.new.items k ≡ slice_index numbers.old.items k }
{
    if number == 0 {
        return Ok(());
    }
    while numbers.len() <= place {
        numbers.push(0)?;
    }
    Ok(())
}

/// Writes a number at a place. There is nothing to write where that is past the end, for a 0.
pub(crate) fn write_number(numbers: &mut Vec<u64>, place: usize, number: u64)
    requires { number ≢ 0 → place < vec_len numbers.old }
    ensures same { slice_index numbers.new.items place ≡ number }
    ensures others { (k : ℕ) → k ≢ place → slice_index numbers.new.items k ≡ slice_index numbers.old.items k }
{
    if place < numbers.len() {
        numbers[place] = number;
    }
}

// The small number at a place: 0 past the end.
#[inline(always)]
fn small_at(smalls: &[u16], place: usize) -> u16
    ensures { result ≡ slice_index smalls.now place }
{
    match smalls.get(place) {
        Some(number) => *number,
        None => 0,
    }
}

// Has a place for a small number, with 0 where there was none. A 0 needs none.
fn reach_small(smalls: &mut Vec<u16>, place: usize, number: u16) -> Result<(), Memory>
    ensures place { OnOk result (number ≢ 0 → place < vec_len smalls.new) }
    ensures same { (k : ℕ) → slice_index smalls.new.items k ≡ slice_index smalls.old.items k }
{
    if number == 0 {
        return Ok(());
    }
    while smalls.len() <= place {
        smalls.push(0)?;
    }
    Ok(())
}

// Writes a small number at a place. There is nothing to write where that is past the end, for a 0.
fn write_small(smalls: &mut Vec<u16>, place: usize, number: u16)
    requires { number ≢ 0 → place < vec_len smalls.old }
    ensures same { slice_index smalls.new.items place ≡ number }
    ensures others { (k : ℕ) → k ≢ place → slice_index smalls.new.items k ≡ slice_index smalls.old.items k }
{
    if place < smalls.len() {
        smalls[place] = number;
    }
}
