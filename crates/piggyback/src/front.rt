//! A faster way to count updates as sent: they are taken from the buffer's front together, and merged back in order.
ghost use Rattle.std.specs.Prelude.{◌≡◌, ◌+◌, ◌≤◌, IsTrue, IfOk, length, map, drop, take, vec_len};
ghost use Rattle.std.specs.Bool.{OnTrue, OnFalse};
ghost use Rattle.std.specs.List.{position_or_len};
ghost use Rattle.piggyback.specs.Picked.{goes_before};
ghost use Rattle.piggyback.specs.Keyed.{all_placed, begins_with, counted_once, goes_first, is_in_order, stands_first};

use crate::order::{place_among, precedes};
use incarnation::Update;
use std::alloc::{AllocError, Global};

// Whether the entry at a place is about the update's subject, and its count can rise.
fn stands_at(entries: &[(Update, u64)], place: usize, update: &Update) -> bool
    ensures { result ≡ stands_first update.now (drop place entries.now) }
{
    match entries.get(place) {
        Some((own, count)) => own.subject == update.subject && *count < u64::MAX,
        None => false,
    }
}

// Whether the entries begin with those about the subjects of these updates, and their counts can rise.
pub(crate) fn begin_with(entries: &[(Update, u64)], updates: &[Update]) -> bool
    ensures { result ≡ begins_with updates.now entries.now }
{
    for (place, update) in updates.iter().enumerate() {
        if !stands_at(entries, place, update) {
            return false;
        }
    }
    true
}

// These entries, each sent once more.
fn counted(alloc: Global, entries: &[(Update, u64)]) -> Result<Vec<(Update, u64)>, AllocError>
    ensures { IfOk result (λ sent. sent.items ≡ map counted_once entries.now) }
{
    entries
        .iter()
        .map(|(update, count)| (*update, count.saturating_add(1)))
        .collect(alloc)
}

// Whether an entry goes before the one at a place, if there is one.
fn comes_first(entry: &(Update, u64), entries: &[(Update, u64)], place: usize) -> bool
    ensures { result ≡ goes_first entry.now (drop place entries.now) }
{
    match entries.get(place) {
        Some(other) => precedes(entry, other),
        None => true,
    }
}

// Merges these into the entries behind as many places as they are, which are free.
fn merge(entries: &mut [(Update, u64)], sent: &[(Update, u64)])
    requires room { length sent.now ≤ length entries.old }
    requires ordered { IsTrue (is_in_order sent.now) }
    ensures { entries.new ≡ all_placed (drop (length sent.now) entries.old) sent.now }
{
    let mut done = 0;
    for place in 0..entries.len() {
        if done == sent.len() {
            return;
        }
        let next = place + (sent.len() - done);
        if comes_first(&sent[done], entries, next) {
            entries[place] = sent[done];
            done += 1;
        } else {
            entries[place] = entries[next];
        }
    }
}

// How many of the entries behind so many places stay before this one, where those are in order.
fn passed_behind(entries: &[(Update, u64)], many: usize, first: &(Update, u64)) -> usize
    requires within { many ≤ length entries.now }
    requires ordered { IsTrue (is_in_order (drop many entries.now)) }
    ensures within { many + result ≤ length entries.now }
    ensures passed { result ≡ position_or_len (goes_before first.now) (drop many entries.now) }
{
    place_among(&entries[many..], first)
}

// How many of the others must stand before all that were sent, for these to move at once: turning a block takes some
// 300 instructions more than merging so few.
const LONG_BLOCK: usize = 16;

// Merges these into the entries behind as many places as they are, which are free, where the others are in order:
// those that go before all of these move forward at once, where they are many.
fn place_sent(entries: &mut [(Update, u64)], sent: &[(Update, u64)])
    requires room { length sent.now ≤ length entries.old }
    requires ordered { IsTrue (is_in_order sent.now) }
    requires others { IsTrue (is_in_order (drop (length sent.now) entries.old)) }
    ensures { entries.new ≡ all_placed (drop (length sent.now) entries.old) sent.now }
{
    if sent.is_empty() {
        return;
    }
    let first = &sent[0];
    if comes_first(first, entries, sent.len() + LONG_BLOCK) {
        merge(entries, sent);
        return;
    }
    let before = passed_behind(entries, sent.len(), first);
    entries[..sent.len() + before].rotate_left(sent.len());
    merge(&mut entries[before..], sent);
}

// Counts so many entries at the front as sent once more. False where memory for it was refused.
pub(crate) fn count_front(entries: &mut Vec<(Update, u64)>, many: usize) -> bool
    requires within { many ≤ vec_len entries.old }
    requires ordered { IsTrue (is_in_order (map counted_once (take many entries.old.items))) }
    requires others { IsTrue (is_in_order (drop many entries.old.items)) }
    ensures went { let old = entries.old.items in
        OnTrue result (entries.new.items ≡ all_placed (drop many old) (map counted_once (take many old))) }
    ensures same { OnFalse result (entries.new.items ≡ entries.old.items) }
{
    let alloc = *entries.allocator();
    let Ok(sent) = counted(alloc, &entries[..many]) else {
        return false;
    };
    place_sent(entries, &sent);
    true
}
