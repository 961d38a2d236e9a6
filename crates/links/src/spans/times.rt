//! The times in which one member is slow.
ghost use Rattle.std.specs.Prelude.{◌≡◌, ℕ, ◌<◌, ◌≤◌, ◌++◌, [], ◌∷◌, true, length, slice_index_or, find, filter, OnOk};
ghost use Rattle.std.specs.Option.{option_copied};
ghost use Rattle.std.specs.Bool.{OnTrue};
ghost use Rattle.links.specs.Entries.{extra_in, covers};
ghost use Rattle.links.specs.SlowTimes.{Rise};
ghost use Rattle.links.specs.declared.spans.times.SlowSpan.{SlowSpan as ASpan};

use base::Memory;
use std::alloc::Global;
use std::marker::Model;

/// A time in which a member is slow, in ticks: from its first moment on, until before its last.
#[derive(Clone, Copy)]
pub(crate) struct SlowSpan {
    pub(crate) from: u64,
    pub(crate) until: u64,
    /// By how many ticks the member is slow.
    pub(crate) extra: u64,
}

impl SlowSpan {
    fn covers(&self, at: u64) -> bool
        ensures { result ≡ covers at self.now }
    {
        self.from <= at && at < self.until
    }
}

/// A member's times in the order of the text.
#[derive(Drop)]
pub(crate) struct SlowTimes {
    times: Vec<SlowSpan>,
    /// Each begins when those before it are over, as in most texts: then the one around a moment is found by
    /// halves.
    rise: bool,
}

impl Model for SlowTimes {
    ghost use Rattle.std.specs.Prelude.{List};
    ghost use Rattle.links.specs.declared.spans.times.SlowSpan.{SlowSpan as OneSpan};

    ghost Value = { List OneSpan };

    ghost use Rattle.links.specs.SlowTimesOf.{times_of, AreTimes};

    ghost view = { times_of };

    ghost invariant = { AreTimes };
}

impl SlowTimes {
    /// No time at all. Takes no memory.
    pub(crate) fn new(alloc: Global) -> SlowTimes
        ensures { result ≡ [] }
    {
        SlowTimes {
            times: Vec::new(alloc),
            rise: true,
        }
    }

    /// Puts a time after the others.
    pub(crate) fn append(&mut self, span: SlowSpan) -> Result<(), Memory>
        ensures { OnOk result (self.new ≡ self.old ++ span ∷ []) }
    {
        let rise = self.rise && rises(self.times.as_slice(), span);
        match self.times.push(span) {
            Ok(()) => {
                self.rise = rise;
                Ok(())
            }
            Err(_) => Err(Memory),
        }
    }

    /// By how many ticks these times make slow at a moment: by the first one's that covers it.
    pub(crate) fn extra(&self, at: u64) -> u64
        ensures { result ≡ extra_in self.now at }
    {
        if self.rise {
            extra_of_last(self.times.as_slice(), at)
        } else {
            extra_of_first(self.times.as_slice(), at)
        }
    }
}

/// Whether a time lasts, and begins when all others are over, given that they rise.
fn rises(times: &[SlowSpan], span: SlowSpan) -> bool
    ensures { Rise times.now → OnTrue result (Rise (times.now ++ span ∷ [])) }
{
    if span.until < span.from {
        return false;
    }
    match times.last() {
        Some(last) => last.until <= span.from,
        None => true,
    }
}

/// By how many ticks times that rise make slow at a moment.
fn extra_of_last(times: &[SlowSpan], at: u64) -> u64
    requires { Rise times.now }
    ensures { result ≡ extra_in times.now at }
{
    let begun = begun_by(times, at);
    if begun == 0 {
        return 0;
    }
    let last = times[begun - 1];
    if at < last.until { last.extra } else { 0 }
}

/// How many of the times have begun by the moment. Where even the first is still to come, the others aren't looked at.
fn begun_by(times: &[SlowSpan], at: u64) -> usize
    requires { Rise times.now }
    ensures few { result ≤ length times.now }
    ensures begun { (i : ℕ) (d : ASpan) → i < result → (slice_index_or times.now i d).from ≤ at }
    ensures later { (i : ℕ) (d : ASpan) → result ≤ i → i < length times.now → at < (slice_index_or times.now i d).from }
{
    if are_to_come(times, at) {
        return 0;
    }
    count_begun(times, at)
}

/// Whether all of the times begin after the moment.
fn are_to_come(times: &[SlowSpan], at: u64) -> bool
    requires { Rise times.now }
    ensures { OnTrue result ((i : ℕ) (d : ASpan) → i < length times.now → at < (slice_index_or times.now i d).from) }
{
    if times.is_empty() {
        return true;
    }
    let first = times[0];
    at < first.from
}

/// How many of the times have begun by the moment.
fn count_begun(times: &[SlowSpan], at: u64) -> usize
    requires { Rise times.now }
    ensures few { result ≤ length times.now }
    ensures begun { (i : ℕ) (d : ASpan) → i < result → (slice_index_or times.now i d).from ≤ at }
    ensures later { (i : ℕ) (d : ASpan) → result ≤ i → i < length times.now → at < (slice_index_or times.now i d).from }
{
    times.partition_point(|span| span.from <= at)
}

/// By how many ticks the first of these times that covers a moment makes slow.
fn extra_of_first(times: &[SlowSpan], at: u64) -> u64
    ensures { result ≡ extra_in times.now at }
{
    match covering(times, at) {
        Some(span) => span.extra,
        None => 0,
    }
}

/// The first of these times that covers a moment.
fn covering(times: &[SlowSpan], at: u64) -> Option<&SlowSpan>
    ensures { option_copied result ≡ find (covers at) times.now }
{
    times.iter().find(|span| span.covers(at))
}
