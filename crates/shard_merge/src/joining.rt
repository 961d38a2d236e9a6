//! The shards of a sweep put together.
ghost use Rattle.std.specs.Prelude.{◌≡◌, ◌<◌, ◌^◌, ℕ, [], All, IfOk, IfErr, OnOk, length};
ghost use Rattle.std.specs.Io.KnownBytes.{Appends, Keeps};
ghost use Rattle.goals.specs.Wants.{HasFewRuns};
ghost use Rattle.shards.specs.Shards.{whole};
ghost use Rattle.sweep.specs.Shards.{shard_header};
ghost use Rattle.shard_merge.specs.Joined.{IsFirstSeed, Joins, JoinsBehind, JoinsShard};
ghost use Rattle.shard_merge.specs.Reasons.{ArePlaces, HasNoHead, IsFirst, IsOfSink, IsReason};

use crate::behind::{lines_behind, shard_at};
use crate::fault::JoinFault;
use crate::first_run::seed_of_first_run;
use crate::head::{Head, head_of_any};
use crate::places::{places_of, text_at};
use crate::settings_read::SettingsRead;
use figures::{ColumnSet, SettingSummary};
use shards::Shard;
use std::alloc::Global;
use std::str::from_utf8;
use sweep::{line_key, write_front};
use sweep_plan::Plan;
use table_rows::LineFault;
use trace::{Sink, Stopped, WriteError, put_all};

/// What shards that were put together are of.
#[derive(Drop)]
pub struct Joined {
    /// The sweep.
    pub plan: Plan,
    /// The columns of its tables.
    pub columns: ColumnSet,
    /// The summaries of its settings, in their order.
    pub settings: Vec<SettingSummary>,
}

/// Puts the shards of a sweep together, whose texts come in any order: the table of the whole sweep, which is that of its
/// only shard, goes to the sink, and what they are of is given. After a fault the sink may have got lines.
///
/// Faults: `NoShard`, `Other`, `Doubled` or `Torn` with the place of a text that isn't a shard, is one of another sweep
/// than the first, is there already, or isn't whole, or whose lines haven't the seed of the first run where none is asked for;
/// `Older` with that of one whose lines have no checksums; `Missing` with the number of a shard that isn't there; `Write`
/// where the sink failed; `Memory`.
pub fn join<S: Sink>(alloc: Global, texts: &[Vec<u8>], table: &mut S) -> Result<Joined, JoinFault>
    requires { S.failed table.old < 2 ^ 63 }
    ensures joined { IfOk result (λ joined. Joins texts.now (S.held table.old) (S.held table.new) joined.plan joined.columns joined.settings.items) }
    ensures few { IfOk result (λ joined. All HasFewRuns joined.settings.items) }
    ensures refused { IfErr result (IsReason texts.now) }
{
    let head = first_head(alloc, texts)?;
    let places = places_of(alloc, texts, &head)?;
    put_header(alloc, &head, table)?;
    let settings = join_shards(alloc, texts, &head, &places, table)?;
    flush(table)?;
    let columns = head.columns;
    Ok(Joined {
        plan: head.plan,
        columns,
        settings,
    })
}

/// Puts the lines of all shards, one after the other, and gives the summaries of the settings. All must have the seed of the
/// first run, unless others are asked for.
fn join_shards<S: Sink>(
    alloc: Global,
    texts: &[Vec<u8>],
    head: &Head<'_>,
    places: &[Option<usize>],
    table: &mut S,
) -> Result<Vec<SettingSummary>, JoinFault>
    requires first { IsFirst texts.now head.now.mark.now head.now.columns head.now.plan head.now.shard }
    requires places { ArePlaces texts.now head.now.mark.now head.now.columns head.now.plan head.now.shard.of places.now (length texts.now) }
    requires countable { S.failed table.old < 2 ^ 63 }
    ensures whole { IfOk result (λ settings. (seed : ℕ) × JoinsBehind [] texts.now head.now.mark.now head.now.columns seed head.now.plan head.now.shard.of
        (S.held table.old) (S.held table.new) head.now.plan.until settings.items) }
    ensures same { OnOk result (S.failed table.new ≡ S.failed table.old) }
    ensures refused { IfErr result (IsReason texts.now) }
{
    let seed = seed_of_first_run(alloc, texts, head, places)?;
    let mut so_far = SettingsRead::new(alloc, head.plan.runs_of_setting());
    let of = head.shard.of as usize;
    for number in 0..of {
        join_shard(alloc, texts, head, places, seed, number, &mut so_far, table)?;
    }
    Ok(so_far.into_summaries(head.plan.until()))
}

/// Reads the lines of the shard of this number, counted from 0, and puts them. The seed is that of the first run.
fn join_shard<S: Sink>(
    alloc: Global,
    texts: &[Vec<u8>],
    head: &Head<'_>,
    places: &[Option<usize>],
    seed: u64,
    number: usize,
    so_far: &mut SettingsRead,
    table: &mut S,
) -> Result<(), JoinFault>
    requires first { IsFirst texts.now head.now.mark.now head.now.columns head.now.plan head.now.shard }
    requires places { ArePlaces texts.now head.now.mark.now head.now.columns head.now.plan head.now.shard.of places.now (length texts.now) }
    requires seeded { IsFirstSeed texts.now head.now.mark.now head.now.columns head.now.plan head.now.shard.of seed }
    requires within { number < head.now.shard.of }
    requires countable { S.failed table.old < 2 ^ 63 }
    ensures whole { OnOk result (JoinsShard head.now.plan.until texts.now head.now.mark.now head.now.columns seed head.now.plan head.now.shard.of number
        (S.held table.old) (S.held table.new) so_far.old so_far.new) }
    ensures same { OnOk result (S.failed table.new ≡ S.failed table.old) }
    ensures refused { IfErr result (IsReason texts.now) }
{
    let behind = lines_behind(alloc, texts, head, places, number)?;
    let shard = shard_at(number, head.shard.of);
    let key = line_key(alloc, &head.plan, head.mark, head.columns, Some(seed))?;
    match so_far.read(alloc, &head.plan, &key, shard, behind.lines) {
        Ok(()) => put_lines(behind.lines, table),
        Err(LineFault::Torn) => Err(JoinFault::Torn(behind.place)),
        Err(LineFault::Memory) => Err(JoinFault::Memory),
    }
}

/// What the first line of the first text says; there must be one.
pub fn first_head<'a>(alloc: Global, texts: &'a [Vec<u8>]) -> Result<Head<'a>, JoinFault>
    ensures first { IfOk result (λ head. IsFirst texts.entry.now head.mark.now head.columns head.plan head.shard) }
    ensures refused { IfErr result (IsReason texts.entry.now) }
    ensures early { IfErr result HasNoHead }
{
    if texts.is_empty() {
        return Err(JoinFault::NoShard(0));
    }
    let bytes = text_at(texts, 0);
    let Ok(text) = from_utf8(bytes) else {
        return Err(JoinFault::NoShard(0));
    };
    match head_of_any(alloc, text)? {
        Some(head) => Ok(head),
        None => Err(JoinFault::NoShard(0)),
    }
}

/// Puts the first line of the table.
pub fn put_header<S: Sink>(alloc: Global, head: &Head<'_>, table: &mut S) -> Result<(), JoinFault>
    requires { S.failed table.old < 2 ^ 63 }
    ensures whole { OnOk result (Appends (S.held table.old) (S.held table.new) (shard_header head.now.columns head.now.mark.now head.now.plan whole)) }
    ensures same { OnOk result (S.failed table.new ≡ S.failed table.old) }
    ensures refused { IfErr result IsOfSink }
{
    let shard = Shard::whole();
    match write_front(alloc, &head.plan, shard, head.mark, head.columns, table) {
        Ok(()) => Ok(()),
        Err(WriteError::Memory) => Err(JoinFault::Memory),
        Err(WriteError::Stopped) => Err(JoinFault::Write),
    }
}

/// Puts lines as they stand.
fn put_lines<S: Sink>(lines: &str, table: &mut S) -> Result<(), JoinFault>
    requires { S.failed table.old < 2 ^ 63 }
    ensures whole { OnOk result (Appends (S.held table.old) (S.held table.new) lines.now) }
    ensures same { OnOk result (S.failed table.new ≡ S.failed table.old) }
    ensures refused { IfErr result IsOfSink }
{
    match put_all(lines.as_bytes(), table) {
        Ok(()) => Ok(()),
        Err(Stopped) => Err(JoinFault::Write),
    }
}

/// Has the table hand on what it took.
pub fn flush<S: Sink>(table: &mut S) -> Result<(), JoinFault>
    requires { S.failed table.old < 2 ^ 63 }
    ensures same { Keeps (S.held table.old) (S.held table.new) }
    ensures refused { IfErr result IsOfSink }
{
    match table.flush() {
        Ok(()) => Ok(()),
        Err(Stopped) => Err(JoinFault::Write),
    }
}
