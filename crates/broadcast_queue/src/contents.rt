//! What a queue has: its items in order, the lost ones to which a pointer is left, and the counter of ids.
ghost use Rattle.std.specs.Prelude.{◌≡◌, ◌<◌, ◌≤◌, ◌+◌, ◌^◌, ℕ, OnOk, OnErr, not, true, Some, find, filter, length, count_by, vec_len, vec_capacity, slice_index_or, take, drop, ◌++◌, if◌then◌else◌};
ghost use Rattle.broadcast_queue.specs.Items.{has_key_of, is_about};
ghost use Rattle.std.specs.FinMap.{get};
ghost use Rattle.std.specs.Option.{option_to_list};
ghost use Rattle.broadcast_queue.specs.declared.items.Item.{Item as AnyItem};
ghost use Rattle.broadcast_queue.specs.Broadcasts.{after_pick, after_put, counter_with, other_items, placed, with_all_sent, with_item, with_sent, without, without_all, without_pointed};
ghost use Rattle.broadcast_queue.specs.Contents.{ArePicked, count_about, HasRoom, held, IsInOrder, IsSound};

use crate::items::{Item, has_key_at, place_among, place_of_subject};
use base::{MemberId, Memory};
use incarnation::Update;

// What a queue has. The items stand in the order of their keys.
#[derive(Debug, Drop)]
pub(crate) struct Contents {
    pub(crate) items: Vec<Item>,
    // The items that left the set while their subject's pointer stayed.
    pub(crate) lost: Vec<Item>,
    pub(crate) counter: u64,
}

// Takes out the item of this one's key, if there is one.
fn take_out(items: &mut Vec<Item>, item: &Item) -> Option<Item>
    requires { IsInOrder items.old.items }
    ensures others { items.new.items ≡ other_items item.now items.old.items }
    ensures taken { result ≡ find (has_key_of item.now) items.old.items }
    ensures shorter { vec_len items.new ≤ vec_len items.old }
    ensures capacity { vec_capacity items.new ≡ vec_capacity items.old }
{
    let place = place_among(items, item);
    if !has_key_at(items, place, item) {
        return None;
    }
    Some(items.remove(place))
}

// Puts an item in its place, for which there is room. The one that had its key comes out.
fn put_in(items: &mut Vec<Item>, item: Item) -> Option<Item>
    requires ordered { IsInOrder items.old.items }
    requires room { vec_len items.old < vec_capacity items.old }
    ensures placed { items.new.items ≡ placed item items.old.items }
    ensures lost { result ≡ find (has_key_of item) items.old.items }
    ensures longer { vec_len items.new ≤ vec_len items.old + 1 }
    ensures capacity { vec_capacity items.old ≤ vec_capacity items.new }
{
    let place = place_among(items, &item);
    if has_key_at(items, place, &item) {
        let lost = items[place];
        items[place] = item;
        return Some(lost);
    }
    items.insert(place, item).unwrap();
    None
}

// Puts an item in the stead of the one at a place, which goes also where there is none.
fn replace_at(items: &mut Vec<Item>, place: usize, item: Option<Item>)
    requires { place < vec_len items.old }
    ensures items { items.new.items
        ≡ take place items.old.items ++ (option_to_list item ++ drop (place + 1) items.old.items) }
    ensures shorter { vec_len items.new ≤ vec_len items.old }
    ensures capacity { vec_capacity items.new ≡ vec_capacity items.old }
{
    match item {
        Some(item) => items[place] = item,
        None => {
            items.remove(place);
        }
    }
}

impl Contents {
    // Deletes an item of the set.
    fn delete_item(&mut self, item: &Item)
        requires sound { IsSound self.old }
        requires there { find (has_key_of item.now) self.old.items.items ≡ Some item.now }
        ensures deleted { held self.new ≡ without true item.now (held self.old) }
        ensures sound { IsSound self.new }
        ensures items { self.new.items.items ≡ other_items item.now self.old.items.items }
        ensures lost { self.new.lost ≡ self.old.lost }
        ensures counted { (subject : ℕ) → count_about subject self.old
            ≡ (if is_about subject item.now then 1 else 0) + count_about subject self.new }
        ensures shorter { vec_len self.new.items + 1 ≡ vec_len self.old.items }
        ensures capacity { vec_capacity self.new.items ≡ vec_capacity self.old.items }
    {
        take_out(&mut self.items, item);
        self.begin_anew();
    }

    // The ids begin anew where there are no items.
    fn begin_anew(&mut self)
        ensures items { self.new.items ≡ self.old.items }
        ensures lost { self.new.lost ≡ self.old.lost }
        ensures counter { self.new.counter ≡ counter_with true self.old.items.items self.old.counter }
    {
        if self.items.is_empty() {
            self.counter = 0;
        }
    }

    // Deletes the lost item at a place.
    fn delete_lost(&mut self, place: usize)
        requires sound { IsSound self.old }
        requires there { place < vec_len self.old.lost }
        ensures deleted { (lost : AnyItem) → lost ≡ slice_index_or self.old.lost.items place lost
            → held self.new ≡ without true lost (held self.old) }
        ensures sound { IsSound self.new }
        ensures room { (many : ℕ) → HasRoom many self.old → HasRoom many self.new }
        ensures counted { (lost : AnyItem) → lost ≡ slice_index_or self.old.lost.items place lost
            → (subject : ℕ) → count_about subject self.old
            ≡ (if is_about subject lost then 1 else 0) + count_about subject self.new }
    {
        let lost = self.lost[place];
        let item = take_out(&mut self.items, &lost);
        replace_at(&mut self.lost, place, item);
        self.begin_anew();
    }

    // Deletes that to which a subject's pointer points, if there is one.
    fn delete_pointed(&mut self, subject: MemberId)
        requires sound { IsSound self.old }
        ensures deleted { held self.new ≡ without_pointed true (get (held self.old).pointers subject) (held self.old) }
        ensures sound { IsSound self.new }
        ensures gone { count_about subject self.new ≡ 0 }
        ensures room { (many : ℕ) → HasRoom many self.old → HasRoom many self.new }
    {
        if let Some(place) = place_of_subject(&self.items, subject) {
            let item = self.items[place];
            self.delete_item(&item);
            return;
        }
        if let Some(place) = place_of_subject(&self.lost, subject) {
            self.delete_lost(place);
        }
    }

    // Adds an item about a subject that has no pointer.
    fn add(&mut self, item: Item)
        requires sound { IsSound self.old }
        requires without { count_about item.update.subject self.old ≡ 0 }
        requires room { HasRoom 1 self.old }
        ensures added { held self.new ≡ with_item item (held self.old) }
        ensures sound { IsSound self.new }
        ensures room { (many : ℕ) → HasRoom (many + 1) self.old → HasRoom many self.new }
        ensures counted { (subject : ℕ) → count_about subject self.new
            ≡ (if is_about subject item then 1 else 0) + count_about subject self.old }
    {
        if let Some(lost) = put_in(&mut self.items, item) {
            self.lost.push(lost).unwrap();
        }
    }

    // Adds one that was picked, as sent once more, unless that was the last time.
    fn add_sent(&mut self, item: &Item, limit: u64)
        requires sound { IsSound self.old }
        requires without { count_about item.now.update.subject self.old ≡ 0 }
        requires room { HasRoom 1 self.old }
        ensures added { held self.new ≡ with_sent limit item.now (held self.old) }
        ensures sound { IsSound self.new }
        ensures room { (many : ℕ) → HasRoom (many + 1) self.old → HasRoom many self.new }
        ensures counted { (subject : ℕ) → count_about subject self.new
            ≤ (if is_about subject item.now then 1 else 0) + count_about subject self.old }
    {
        if item.sent < limit && item.sent + 1 < limit {
            self.add(Item {
                sent: item.sent + 1,
                ..*item
            });
        }
    }

    // Adds those that were picked, as sent once more, but for the last time.
    fn add_all_sent(&mut self, picked: &[Item], limit: u64)
        requires sound { IsSound self.old }
        requires without { (subject : ℕ) → count_by (is_about subject) picked.now + count_about subject self.old ≤ 1 }
        requires room { HasRoom (length picked.now) self.old }
        ensures added { held self.new ≡ with_all_sent limit picked.now (held self.old) }
        ensures sound { IsSound self.new }
    {
        for item in picked {
            self.add_sent(item, limit);
        }
    }

    // Deletes the items that were picked, one after another.
    fn delete_all(&mut self, picked: &[Item])
        requires sound { IsSound self.old }
        requires picked { ArePicked picked.now self.old.items.items }
        ensures deleted { held self.new ≡ without_all true picked.now (held self.old) }
        ensures sound { IsSound self.new }
        ensures lost { self.new.lost ≡ self.old.lost }
        ensures counted { (subject : ℕ) → count_about subject self.old
            ≡ count_by (is_about subject) picked.now + count_about subject self.new }
        ensures shorter { vec_len self.new.items + length picked.now ≡ vec_len self.old.items }
        ensures capacity { vec_capacity self.new.items ≡ vec_capacity self.old.items }
    {
        for item in picked {
            self.delete_item(item);
        }
    }

    // Makes room for so many items, and for as many lost ones.
    pub(crate) fn make_room(&mut self, items: usize, lost: usize) -> Result<(), Memory>
        ensures items { self.new.items.items ≡ self.old.items.items }
        ensures lost { self.new.lost.items ≡ self.old.lost.items }
        ensures counter { self.new.counter ≡ self.old.counter }
        ensures for_items { OnOk result (vec_len self.new.items + items ≤ vec_capacity self.new.items) }
        ensures for_lost { OnOk result (vec_len self.new.lost + lost ≤ vec_capacity self.new.lost) }
    {
        self.items.reserve(items)?;
        self.lost.reserve(lost)?;
        Ok(())
    }

    // Puts an update, for which there is room and an id.
    pub(crate) fn put(&mut self, update: Update, size: u64)
        requires sound { IsSound self.old }
        requires room { HasRoom 1 self.old }
        requires id { self.old.counter < 2 ^ 63 }
        ensures put { held self.new ≡ after_put true update size (held self.old) }
        ensures sound { IsSound self.new }
    {
        self.counter += 1;
        let id = self.counter;
        self.delete_pointed(update.subject);
        self.add(Item {
            update,
            sent: 0,
            size,
            id,
        });
    }

    // A message takes these items, for all of which there is room.
    fn send_all(&mut self, picked: &[Item], limit: u64)
        requires sound { IsSound self.old }
        requires picked { ArePicked picked.now self.old.items.items }
        requires for_items { vec_len self.old.items ≤ vec_capacity self.old.items }
        requires for_lost { vec_len self.old.lost + length picked.now ≤ vec_capacity self.old.lost }
        ensures sent { held self.new ≡ after_pick true picked.now limit (held self.old) }
        ensures sound { IsSound self.new }
    {
        self.delete_all(picked);
        self.add_all_sent(picked, limit);
    }

    // A message takes these items. A refusal leaves all as it was.
    pub(crate) fn send(&mut self, picked: &[Item], limit: u64) -> Result<(), Memory>
        requires sound { IsSound self.old }
        requires picked { ArePicked picked.now self.old.items.items }
        ensures ok { OnOk result (held self.new ≡ after_pick true picked.now limit (held self.old)) }
        ensures err { OnErr result (held self.new ≡ held self.old) }
        ensures sound { IsSound self.new }
    {
        self.make_room(0, picked.len())?;
        self.send_all(picked, limit);
        Ok(())
    }
}
