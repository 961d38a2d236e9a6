//! A buffer's entries change: an update replaces the one about its subject, and each that was sent is counted, and
//! dropped once it was sent often enough (SWIM, section 4.1).
ghost use Rattle.std.specs.Prelude.{◌≡◌, ◌<◌, ◌≤◌, ◌==◌, ℕ, IsTrue, IsSome, IfSome, IsOk, OnOk, OnErr, vec_len, count_by, filter, insert, nat_lt, position, remove, if◌then◌else◌};
ghost use Rattle.std.specs.List.{position_or_len};
ghost use Rattle.std.specs.Option.{option_map};
ghost use Rattle.piggyback.specs.Keyed.{counted_once, counted_within, found_of, is_in_order, IsPut, IsSent};
ghost use Rattle.piggyback.specs.Picked.{goes_before};

use crate::front::{begin_with, count_front};
use crate::order::place_among;
use base::{MemberId, Memory};
use incarnation::Update;

// Where the entry about a member is, if there is one.
fn place_of_subject(entries: &[(Update, u64)], subject: MemberId) -> Option<usize>
    ensures { result ≡ position (λ it. it.0.subject == subject) entries.now }
{
    entries
        .iter()
        .position(|(update, _)| update.subject == subject)
}

// The entry about a member.
pub(crate) fn entry_of(entries: &[(Update, u64)], subject: MemberId) -> Option<(Update, u64)>
    requires { IsTrue (is_in_order entries.now) }
    ensures found { result ≡ found_of subject entries.now }
    ensures own { IfSome result (λ it. it.0.subject ≡ subject) }
{
    match place_of_subject(entries, subject) {
        Some(place) => Some(entries[place]),
        None => None,
    }
}

// Takes out the entry at a place, and puts in its stead another one where that is to be sent. It
// takes no memory.
fn replace_at(entries: &mut Vec<(Update, u64)>, place: usize, entry: (Update, u64))
    requires place { place < vec_len entries.old }
    requires ordered { IsTrue (is_in_order entries.old.items) }
    ensures { let others = remove entries.old.items place in
        entries.new.items ≡ insert others (position_or_len (goes_before entry) others) entry }
{
    entries.remove(place);
    let place = place_among(entries, &entry);
    entries.insert(place, entry).unwrap();
}

// Puts a new entry where it is to be sent.
fn add(entries: &mut Vec<(Update, u64)>, entry: (Update, u64)) -> Result<(), Memory>
    requires { IsTrue (is_in_order entries.old.items) }
    ensures ok { let old = entries.old.items in
        OnOk result (entries.new.items ≡ insert old (position_or_len (goes_before entry) old) entry) }
    ensures err { OnErr result (entries.new.items ≡ entries.old.items) }
{
    let place = place_among(entries, &entry);
    match entries.insert(place, entry) {
        Ok(()) => Ok(()),
        Err(_) => Err(Memory),
    }
}

// Puts an update that was not sent yet in the place of what is there about its subject.
pub(crate) fn set(entries: &mut Vec<(Update, u64)>, update: Update) -> Result<(), Memory>
    requires { IsTrue (is_in_order entries.old.items) }
    ensures ok { OnOk result (IsPut (update, 0) entries.old.items entries.new.items) }
    ensures err { OnErr result (entries.new.items ≡ entries.old.items) }
    ensures replaces { IsSome (found_of update.subject entries.old.items) → IsOk result }
{
    match place_of_subject(entries, update.subject) {
        Some(place) => {
            replace_at(entries, place, (update, 0));
            Ok(())
        }
        None => add(entries, (update, 0)),
    }
}

// Counts what is about a member as sent once more.
fn count_one(entries: &mut Vec<(Update, u64)>, subject: MemberId)
    requires { IsTrue (is_in_order entries.old.items) }
    ensures ordered { IsTrue (is_in_order entries.new.items) }
    ensures counted { let old = entries.old.items in (other : ℕ) → found_of other entries.new.items
        ≡ (if other == subject then option_map counted_once (found_of other old) else found_of other old) }
{
    let Some(place) = place_of_subject(entries, subject) else {
        return;
    };
    let entry = entries[place];
    replace_at(entries, place, (entry.0, entry.1.saturating_add(1)));
}

// Counts what is about the subjects of these updates as sent once more, one after another.
fn count_by_subject(entries: &mut Vec<(Update, u64)>, updates: &[Update])
    requires ordered { IsTrue (is_in_order entries.old.items) }
    requires once { (subject : ℕ) → count_by (λ update. update.subject == subject) updates.now ≤ 1 }
    ensures ordered { IsTrue (is_in_order entries.new.items) }
    ensures counted { (subject : ℕ) → found_of subject entries.new.items
        ≡ option_map (counted_within updates.now) (found_of subject entries.old.items) }
{
    for update in updates {
        count_one(entries, update.subject);
    }
}

// Counts what is about the subjects of these updates as sent once more.
fn count_each(entries: &mut Vec<(Update, u64)>, updates: &[Update])
    requires ordered { IsTrue (is_in_order entries.old.items) }
    requires once { (subject : ℕ) → count_by (λ update. update.subject == subject) updates.now ≤ 1 }
    ensures ordered { IsTrue (is_in_order entries.new.items) }
    ensures counted { (subject : ℕ) → found_of subject entries.new.items
        ≡ option_map (counted_within updates.now) (found_of subject entries.old.items) }
{
    if begin_with(entries, updates) && count_front(entries, updates.len()) {
        return;
    }
    count_by_subject(entries, updates);
}

// Drops the entries that were sent `limit` times: the last ones.
fn drop_sent(entries: &mut Vec<(Update, u64)>, limit: u64)
    requires { IsTrue (is_in_order entries.old.items) }
    ensures { entries.new.items ≡ filter (λ it. nat_lt it.1 limit) entries.old.items }
{
    let left = entries.partition_point(|(_, count)| *count < limit);
    entries.truncate(left);
}

// Counts the updates as sent once more, and drops what was then sent `limit` times.
pub(crate) fn count_sent(entries: &mut Vec<(Update, u64)>, updates: &[Update], limit: u64)
    requires ordered { IsTrue (is_in_order entries.old.items) }
    requires once { (subject : ℕ) → count_by (λ update. update.subject == subject) updates.now ≤ 1 }
    ensures { IsSent updates.now limit entries.old.items entries.new.items }
{
    count_each(entries, updates);
    drop_sent(entries, limit);
}
