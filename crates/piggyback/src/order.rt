//! The order in which updates ride on messages: those sent fewer times first (SWIM, section 4.1), after the buddy's
//! suspicion (Lifeguard's Buddy System).
ghost use Rattle.std.specs.Prelude.{◌≡◌, [], ◌∷◌, ◌++◌, IsTrue, IfOk, OnOk, map, filter, take, option_to_list};
ghost use Rattle.std.specs.List.{position_or_len};
ghost use Rattle.piggyback.specs.Keyed.{is_in_order};
ghost use Rattle.piggyback.specs.Picked.{goes_before, is_candidate};

use base::Memory;
use incarnation::Update;
use std::alloc::Global;

// Whether the first is sent before the second: it was sent fewer times, or as often and has the
// smaller subject.
pub(crate) fn precedes(first: &(Update, u64), second: &(Update, u64)) -> bool
    ensures { result ≡ goes_before first.now second.now }
{
    first.1 < second.1 || (first.1 == second.1 && first.0.subject < second.0.subject)
}

// Whether an entry may be sent beside the buddy.
fn may_be_sent(entry: &(Update, u64), limit: u64, buddy: &Option<Update>) -> bool
    ensures { result ≡ is_candidate limit buddy.now entry.now }
{
    entry.1 < limit && buddy.is_none_or(|buddy| buddy.subject != entry.0.subject)
}

// The place of an entry among those in order: before the first that it precedes.
pub(crate) fn place_among(entries: &[(Update, u64)], entry: &(Update, u64)) -> usize
    requires { IsTrue (is_in_order entries.now) }
    ensures { result ≡ position_or_len (goes_before entry.now) entries.now }
{
    entries.partition_point(|other| !precedes(entry, other))
}

// The updates of the first `room` entries that may be sent beside the buddy.
fn first_updates(
    alloc: Global,
    entries: &[(Update, u64)],
    room: usize,
    limit: u64,
    buddy: &Option<Update>,
) -> Result<Vec<Update>, Memory>
    ensures { let candidates = filter (is_candidate limit buddy.now) entries.now in
        IfOk result (λ first. first.items ≡ take room (map (λ it. it.0) candidates)) }
{
    let Ok(mut first) = Vec::with_capacity(alloc, room.min(entries.len())) else {
        return Err(Memory);
    };
    for entry in entries {
        if first.len() >= room {
            return Ok(first);
        }
        if may_be_sent(entry, limit, buddy) {
            add(&mut first, entry.0)?;
        }
    }
    Ok(first)
}

// Appends an update.
fn add(updates: &mut Vec<Update>, update: Update) -> Result<(), Memory>
    ensures { OnOk result (updates.new.items ≡ updates.old.items ++ update ∷ []) }
{
    match updates.push(update) {
        Ok(()) => Ok(()),
        Err(_) => Err(Memory),
    }
}

// The buddy before the updates, and of them all the first `carry`.
fn after_buddy(buddy: Update, mut updates: Vec<Update>, carry: usize) -> Result<Vec<Update>, Memory>
    ensures { IfOk result (λ all. all.items ≡ take carry (buddy ∷ updates.items)) }
{
    match updates.insert(0, buddy) {
        Ok(()) => {}
        Err(_) => return Err(Memory),
    }
    updates.truncate(carry);
    Ok(updates)
}

// The updates that a message carries: the buddy, and then the first in order.
pub(crate) fn picked_of(
    alloc: Global,
    entries: &[(Update, u64)],
    carry: usize,
    limit: u64,
    buddy: Option<Update>,
) -> Result<Vec<Update>, Memory>
    ensures { let candidates = filter (is_candidate limit buddy) entries.now in
        IfOk result (λ updates. updates.items ≡ take carry (option_to_list buddy ++ map (λ it. it.0) candidates)) }
{
    let updates = first_updates(alloc, entries, carry, limit, &buddy)?;
    match buddy {
        Some(buddy) => after_buddy(buddy, updates, carry),
        None => Ok(updates),
    }
}
