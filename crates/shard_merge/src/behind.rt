//! What stands behind the first line of a shard.
ghost use Rattle.std.specs.Prelude.{◌≡◌, ◌<◌, ◌≤◌, ◌++◌, IfOk, IfErr, length};
ghost use Rattle.shards.specs.Shards.{IsShard};
ghost use Rattle.sweep.specs.Shards.{shard_header};
ghost use Rattle.shard_merge.specs.Among.{shard_at};
ghost use Rattle.shard_merge.specs.Reasons.{ArePlaces, BeginsAs, IsBehind, IsFirst, IsReason, RefusesLines};

use crate::fault::JoinFault;
use crate::head::{Head, header_of};
use crate::places::{place_of_run, text_at};
use shards::Shard;
use std::alloc::Global;
use std::str::from_utf8;
use sweep::is_older;

/// What stands behind the first line of a shard.
#[derive(Drop)]
pub(crate) struct Behind<'a> {
    /// The place of its text.
    pub(crate) place: usize,
    /// Its lines.
    pub(crate) lines: &'a str,
}

/// What stands behind the first line of the shard of this number, counted from 0.
pub(crate) fn lines_behind<'a>(
    alloc: Global,
    texts: &'a [Vec<u8>],
    head: &Head<'_>,
    places: &[Option<usize>],
    number: usize,
) -> Result<Behind<'a>, JoinFault>
    requires first { IsFirst texts.now head.now.mark.now head.now.columns head.now.plan head.now.shard }
    requires places { ArePlaces texts.now head.now.mark.now head.now.columns head.now.plan head.now.shard.of places.now (length texts.now) }
    requires within { number < head.now.shard.of }
    ensures there { IfOk result (λ behind. IsBehind texts.entry.now head.now.mark.now head.now.columns head.now.plan head.now.shard.of places.now number behind.place behind.lines.now) }
    ensures refused { IfErr result (IsReason texts.entry.now) }
{
    let Some(place) = place_of_run(places, number) else {
        return Err(JoinFault::Missing(number as u64 + 1));
    };
    let shard = shard_at(number, head.shard.of);
    let lines = lines_at(alloc, text_at(texts, place), head, shard, place)?;
    Ok(Behind { place, lines })
}

/// What stands behind the first line of a text that begins as this shard of the sweep; the text is that of this place.
pub fn lines_at<'a>(
    alloc: Global,
    text: &'a [u8],
    head: &Head<'_>,
    shard: Shard,
    place: usize,
) -> Result<&'a str, JoinFault>
    requires begins { BeginsAs text.now head.now.mark.now head.now.columns head.now.plan shard }
    ensures there { IfOk result (λ lines. text.entry.now ≡ shard_header head.now.columns head.now.mark.now head.now.plan shard ++ lines.now) }
    ensures refused { IfErr result (RefusesLines text.entry.now (shard_header head.now.columns head.now.mark.now head.now.plan shard) place) }
{
    let header = header_of(alloc, head, shard)?;
    let Some(rest) = text.strip_prefix(header.as_slice()) else {
        unreachable!()
    };
    let older = is_older(alloc, rest)?;
    if older {
        return Err(JoinFault::Older(place));
    }
    match from_utf8(rest) {
        Ok(lines) => Ok(lines),
        Err(_) => Err(JoinFault::Torn(place)),
    }
}

/// The shard of this number, counted from 0, of so many.
pub(crate) fn shard_at(number: usize, of: u64) -> Shard
    requires within { number < of }
    requires few { of ≤ 10000 }
    ensures same { result ≡ shard_at number of }
    ensures sound { IsShard result }
{
    Shard {
        number: number as u64 + 1,
        of,
    }
}
