//! Which text is which shard.
ghost use Rattle.std.specs.Prelude.{◌≡◌, ◌<◌, ◌≤◌, ◌+◌, ◌++◌, ℕ, Bool, Some, None, List, Option, IfOk, IfErr, IfSome, IsNone, OnOk, Vec, length, get_or, replicate, true, false};
ghost use Rattle.std.specs.declared.alloc.Global.{Global as Heap};
ghost use Rattle.sweep_plan.specs.Sweep.{Sweep};
ghost use Rattle.shards.specs.Shards.{IsShard};
ghost use Rattle.sweep.specs.Shards.{shard_header};
ghost use Rattle.sweep.specs.Runs.{IsAskedFor};
ghost use Rattle.shard_merge.specs.Among.{shard_at};
ghost use Rattle.shard_merge.specs.Joined.{IsMark};
ghost use Rattle.shard_merge.specs.declared.fault.JoinFault.TheVariants as join;
ghost use Rattle.shard_merge.specs.Reasons.{ArePlaces, BeginsAs, IsFirst, IsReason, IsTextAt, RefusesPlace, RefusesText};

use crate::fault::JoinFault;
use crate::head::{Head, begins_as, number_of};
use figures::ColumnSet;
use shards::Shard;
use std::alloc::Global;
use std::str::from_utf8;

/// The places of the texts, by the numbers of the shards that they are, counted from 0, of the sweep of the first.
pub(crate) fn places_of(
    alloc: Global,
    texts: &[Vec<u8>],
    head: &Head<'_>,
) -> Result<Vec<Option<usize>>, JoinFault>
    requires { IsFirst texts.now head.now.mark.now head.now.columns head.now.plan head.now.shard }
    ensures places { IfOk result (λ places. ArePlaces texts.now head.now.mark.now head.now.columns head.now.plan head.now.shard.of places.items (length texts.now)) }
    ensures refused { IfErr result (IsReason texts.now) }
{
    let mut places = no_places(alloc, head.shard.of as usize)?;
    for (place, text) in texts.iter().enumerate() {
        let number = number_at(alloc, text.as_slice(), head, place)?;
        take_place(&mut places, number, place)?;
    }
    Ok(places)
}

/// So many places, none of which is known.
fn no_places(alloc: Global, count: usize) -> Result<Vec<Option<usize>>, JoinFault>
    ensures none { IfOk result (λ places. places.items ≡ replicate count None) }
    ensures refused { IfErr result (λ fault. fault ≡ join.Memory) }
{
    let mut places = Vec::new(alloc);
    if places.resize(count, None).is_err() {
        return Err(JoinFault::Memory);
    }
    Ok(places)
}

/// The number of the shard, counted from 0, that a text is of the sweep; the text is that of this place.
fn number_at(alloc: Global, text: &[u8], head: &Head<'_>, place: usize) -> Result<usize, JoinFault>
    requires asked { IsAskedFor head.now.plan }
    requires marked { IsMark head.now.mark.now }
    requires sound { IsShard head.now.shard }
    ensures within { IfOk result (λ number. number < head.now.shard.of) }
    ensures begins { IfOk result (λ number. BeginsAs text.now head.now.mark.now head.now.columns head.now.plan (shard_at number head.now.shard.of)) }
    ensures refused { IfErr result (RefusesText text.now head.now.mark.now head.now.columns head.now.plan head.now.shard.of place) }
{
    let Ok(words) = from_utf8(text) else {
        return Err(JoinFault::NoShard(place));
    };
    let Some(number) = number_of(words) else {
        return Err(JoinFault::NoShard(place));
    };
    if number > head.shard.of {
        return Err(JoinFault::Other(place));
    }
    let of = head.shard.of;
    let begins = begins_as(alloc, text, head, Shard { number, of })?;
    if !begins {
        return Err(JoinFault::Other(place));
    }
    Ok(number as usize - 1)
}

/// Keeps the place of the shard of this number, where it has none yet.
fn take_place(places: &mut Vec<Option<usize>>, number: usize, place: usize) -> Result<(), JoinFault>
    requires { number < length places.old.items }
    ensures kept { OnOk result ((texts : List (Vec ℕ Heap)) (text mark : List ℕ) (columns : ColumnSet) (sweep : Sweep) (of : ℕ) → ArePlaces texts mark columns sweep of places.old.items place
        → IsTextAt texts place text → BeginsAs text mark columns sweep (shard_at number of) → ArePlaces texts mark columns sweep of places.new.items (place + 1)) }
    ensures refused { IfErr result (RefusesPlace places.old.items number place) }
{
    match place_of_run(places.as_slice(), number) {
        Some(_earlier) => Err(JoinFault::Doubled(place)),
        None => {
            places[number] = Some(place);
            Ok(())
        }
    }
}

/// The place of the shard of this number, counted from 0, if there is one.
pub(crate) fn place_of_run(places: &[Option<usize>], number: usize) -> Option<usize>
    requires { number < length places.now }
    ensures { result ≡ get_or places.now number None }
{
    places[number]
}

/// The text at a place.
pub fn text_at<'a>(texts: &'a [Vec<u8>], place: usize) -> &'a [u8]
    requires { place < length texts.now }
    ensures { IsTextAt texts.entry.now place result.now }
{
    texts[place].as_slice()
}
