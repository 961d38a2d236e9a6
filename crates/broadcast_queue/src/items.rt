//! The items of a queue, the order of their keys, and what an item takes of a message's room.
ghost use Rattle.std.specs.Prelude.{◌≡◌, ◌-◌, IsTrue, IfOk, OnOk, ◌++◌, ◌∷◌, [], map, nat_le, if◌then◌else◌, Some, None, drop, position, sum_by};
ghost use Rattle.std.specs.List.{prefix_len};
ghost use Rattle.broadcast_queue.specs.Items.{cost, goes_before, has_key_of, is_about, those_that_fit};
ghost use Rattle.broadcast_queue.specs.Contents.{begins_with_key_of, IsInOrder};

use base::{MemberId, Memory};
use incarnation::Update;
use std::alloc::Global;

/// An update that is still to be sent.
#[derive(Clone, Copy, Debug, PartialEq, Eq)]
pub struct Item {
    pub update: Update,
    /// How often a message carried it.
    pub sent: u64,
    /// The bytes of its message.
    pub size: u64,
    /// The number that it got when it was put.
    pub id: u64,
}

/// In what the room of a message is measured.
#[derive(Clone, Copy, Debug, PartialEq, Eq)]
pub enum Measure {
    /// Each item takes one.
    Items,
    /// Each item takes the bytes of its message, and two that say how many these are.
    Bytes,
}

// Whether the key of the first is less than that of the second.
pub(crate) fn precedes(first: &Item, second: &Item) -> bool
    ensures { result ≡ goes_before first.now second.now }
{
    first.sent < second.sent
        || (first.sent == second.sent
            && (first.size > second.size || (first.size == second.size && first.id > second.id)))
}

// Whether both have one key.
fn have_one_key(first: &Item, second: &Item) -> bool
    ensures { result ≡ has_key_of first.now second.now }
{
    first.sent == second.sent && first.size == second.size && first.id == second.id
}

// The place of the first item that doesn't go before this one.
pub(crate) fn place_among(items: &[Item], item: &Item) -> usize
    requires { IsInOrder items.now }
    ensures { result ≡ prefix_len (λ it. goes_before it item.now) items.now }
{
    items.partition_point(|other| precedes(other, item))
}

// Whether an item of this one's key stands at the place.
pub(crate) fn has_key_at(items: &[Item], place: usize, item: &Item) -> bool
    ensures { result ≡ begins_with_key_of item.now (drop place items.now) }
{
    match items.get(place) {
        Some(other) => have_one_key(item, other),
        None => false,
    }
}

// Where the item about a member is, if there is one.
pub(crate) fn place_of_subject(items: &[Item], subject: MemberId) -> Option<usize>
    ensures { result ≡ position (is_about subject) items.now }
{
    items.iter().position(|item| item.update.subject == subject)
}

// The room that an item leaves of so much, if it fits.
fn room_behind(measure: Measure, room: u64, item: &Item) -> Option<u64>
    ensures { result ≡ (if nat_le (cost measure item.now) room then Some (room - cost measure item.now) else None) }
{
    match measure {
        Measure::Items => room.checked_sub(1),
        Measure::Bytes => match room.checked_sub(2) {
            Some(room) => room.checked_sub(item.size),
            None => None,
        },
    }
}

// The items that are picked into so much room.
pub(crate) fn picked_of(
    alloc: Global,
    items: &[Item],
    measure: Measure,
    mut room: u64,
) -> Result<Vec<Item>, Memory>
    ensures { IfOk result (λ picked. picked.items ≡ those_that_fit measure room items.now) }
{
    let mut picked = Vec::new(alloc);
    for item in items {
        if room == 0 {
            return Ok(picked);
        }
        if let Some(left) = room_behind(measure, room, item) {
            picked.push(*item)?;
            room = left;
        }
    }
    Ok(picked)
}

// The room that is left where these were picked into so many bytes.
pub(crate) fn room_left(picked: &[Item], room: u64) -> u64
    ensures { result ≡ room - sum_by (cost Measure.Bytes) picked.now }
{
    let mut left = room;
    for item in picked {
        left = left.saturating_sub(2).saturating_sub(item.size);
    }
    left
}

// The updates of these items.
pub(crate) fn updates_of(alloc: Global, picked: &[Item]) -> Result<Vec<Update>, Memory>
    ensures { IfOk result (λ updates. updates.items ≡ map (λ it. it.update) picked.now) }
{
    match picked.iter().map(|item| item.update).collect(alloc) {
        Ok(updates) => Ok(updates),
        Err(_) => Err(Memory),
    }
}
