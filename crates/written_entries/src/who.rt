//! Whom entries name: no more than there are, and nobody twice.
ghost use Rattle.std.specs.Prelude.{◌≡◌, ◌≤◌, ◌<◌, ◌^◌, All, IfOk, length, nat_lt, false};
ghost use Rattle.std.specs.Option.{option_map_or};
ghost use Rattle.plain_entries.specs.Entries.{start_in};
ghost use Rattle.written_entries.specs.Bad.{asks_itself, is_bad_who, is_early, stands_twice};

use base::{MemberId, Memory, Moment};
use indexmap::IndexSet;
use plain_entries::Who;
use std::alloc::Global;

/// Whether more members are to be chosen than there are, or one is named twice.
pub(crate) fn is_bad_who(alloc: Global, who: &Who) -> Result<bool, Memory>
    ensures { IfOk result (λ bad. bad ≡ is_bad_who who.now) }
{
    if is_short(who) {
        Ok(true)
    } else {
        stands_twice(alloc, who.members.as_slice())
    }
}

/// Whether more members are to be chosen than there are.
fn is_short(who: &Who) -> bool
    ensures { result ≡ option_map_or (nat_lt (length who.now.members.items)) who.now.count false }
{
    match who.count {
        Some(count) => (who.members.len() as u64) < count,
        None => false,
    }
}

/// Whether a member stands twice among these.
fn stands_twice(alloc: Global, members: &[MemberId]) -> Result<bool, Memory>
    ensures { IfOk result (λ twice. twice ≡ stands_twice members.now) }
{
    let mut seen = IndexSet::new(alloc);
    for member in members {
        match seen.insert(member.index()) {
            Ok(true) => {}
            Ok(false) => return Ok(true),
            Err(_) => return Err(Memory),
        }
    }
    Ok(false)
}

/// Whether one of these isn't gone after its start: the first at a moment, each other one `each` ticks after the one
/// before.
pub(crate) fn is_early(starts: &[Moment], at: Moment, each: u64, members: &[MemberId]) -> bool
    requires few { length members.now ≤ 16384 }
    requires known { All (λ member. member < length starts.now) members.now }
    requires low { at ≤ 2 ^ 40 }
    requires slow { each ≤ 2 ^ 40 }
    ensures { result ≡ is_early (start_in starts.now) at each members.now }
{
    let mut moment = at.ticks();
    for member in members {
        if moment <= starts[member.index()].ticks() {
            return true;
        }
        moment += each;
    }
    false
}

/// Whether one of these is to ask itself.
pub(crate) fn asks_itself(contact: Option<MemberId>, members: &[MemberId]) -> bool
    ensures { result ≡ asks_itself contact members.now }
{
    match contact {
        Some(contact) => members.contains(&contact),
        None => false,
    }
}
