//! The tables of a sweep put together.
ghost use Rattle.std.specs.Prelude.{◌≡◌, ◌<◌, ◌^◌, All, IfOk, IfErr, OnOk, length, map};
ghost use Rattle.goals.specs.Wants.{HasFewRuns};
ghost use Rattle.sweep_plan.specs.Sweep.{seed_count, setting_count};
ghost use Rattle.sweep.specs.Runs.{IsAskedFor};
ghost use Rattle.sweep.specs.Sums.{sweep_key};
ghost use Rattle.shard_merge.specs.Reasons.{IsOfSink};
ghost use Rattle.table_merge.specs.Seeds.{in_turn, with_seeds};
ghost use Rattle.table_merge.specs.Found.{AreSeveral, IsFound, IsTableAt};
ghost use Rattle.table_merge.specs.Lines.{IsFull};
ghost use Rattle.table_merge.specs.Merged.{Joins, JoinsSeeds};
ghost use Rattle.table_merge.specs.Reasons.{IsReason};
ghost use Rattle.table_merge.specs.Tables.{AreRead, IsRead, PutsAll, starts_in};

use crate::fault::MergeFault;
use crate::finding::{First, Found, first_of_several, head_with, tables_of};
use crate::lines::{Table, genuine_starts};
use crate::merging::put_settings;
use crate::ordering::seeds_of_all;
use figures::SettingSummary;
use shard_merge::{Head, JoinFault, Joined, flush, lines_at, put_header, text_at};
use std::alloc::Global;
use sweep::{Gathering, line_key, sweep_key};
use table_rows::LineFault;
use trace::Sink;

/// Puts tables together, whose texts come in any order: all shards of a sweep, or whole tables of it with seeds that follow one
/// another. The table of the whole goes to the sink, and what they are of is given. After a fault the sink may have got lines.
///
/// Faults: `Shards` with why they aren't the shards, or tables, of one sweep, or one of them isn't whole; `Overlap`, `Gap` and `TooMany`
/// where the seeds of tables don't follow one another, or are those of too many runs.
pub fn join<S: Sink>(alloc: Global, texts: &[Vec<u8>], table: &mut S) -> Result<Joined, MergeFault>
    requires { S.failed table.old < 2 ^ 63 }
    ensures joined { IfOk result (λ joined. Joins texts.now (S.held table.old) (S.held table.new) joined.plan joined.columns joined.settings.items) }
    ensures few { IfOk result (λ joined. All HasFewRuns joined.settings.items) }
    ensures refused { IfErr result (IsReason texts.now) }
{
    match first_of_several(alloc, texts)? {
        Some(first) => join_seeds(alloc, texts, &first, table),
        None => Ok(shard_merge::join(alloc, texts, table)?),
    }
}

/// Puts whole tables with seeds that follow one another together.
fn join_seeds<S: Sink>(
    alloc: Global,
    texts: &[Vec<u8>],
    first: &First<'_>,
    table: &mut S,
) -> Result<Joined, MergeFault>
    requires several { AreSeveral texts.now first.now.head.mark.now first.now.head.columns first.now.head.plan first.now.seeds }
    requires own { first.now.head.plan ≡ with_seeds first.now.head.plan first.now.seeds }
    requires countable { S.failed table.old < 2 ^ 63 }
    ensures joined { IfOk result (λ joined. JoinsSeeds texts.now (S.held table.old) (S.held table.new) joined.plan joined.columns joined.settings.items) }
    ensures refused { IfErr result (IsReason texts.now) }
{
    let found = tables_of(alloc, texts, first)?;
    let seeds = seeds_of_all(&found)?;
    let Some(head) = head_with(alloc, first, seeds)? else {
        return Err(MergeFault::TooMany);
    };
    let tables = read_tables(alloc, texts, first, &found)?;
    put_header(alloc, &head, table)?;
    let settings = put_tables(alloc, &head, &tables, table)?;
    flush(table)?;
    let columns = head.columns;
    Ok(Joined {
        plan: head.plan,
        columns,
        settings,
    })
}

/// Reads the lines of the tables that were found.
fn read_tables<'a>(
    alloc: Global,
    texts: &'a [Vec<u8>],
    first: &First<'_>,
    found: &[Found],
) -> Result<Vec<Table<'a>>, JoinFault>
    requires asked { IsAskedFor first.now.head.plan }
    requires own { first.now.head.plan ≡ with_seeds first.now.head.plan first.now.seeds }
    requires there { All (IsFound texts.now first.now.head.mark.now first.now.head.columns first.now.head.plan (length texts.now)) found.now }
    ensures read { IfOk result (λ tables. AreRead texts.entry.now first.now.head.mark.now first.now.head.columns first.now.head.plan found.now tables.items) }
    ensures refused { IfErr result (λ fault. IsReason texts.entry.now (MergeFault.Shards fault)) }
{
    let mut tables = Vec::new(alloc);
    for one in found {
        let table = read_table(alloc, texts, first, *one)?;
        if tables.push(table).is_err() {
            return Err(JoinFault::Memory);
        }
    }
    Ok(tables)
}

/// Reads the lines of a table.
fn read_table<'a>(
    alloc: Global,
    texts: &'a [Vec<u8>],
    first: &First<'_>,
    found: Found,
) -> Result<Table<'a>, JoinFault>
    requires asked { IsAskedFor first.now.head.plan }
    requires own { first.now.head.plan ≡ with_seeds first.now.head.plan first.now.seeds }
    requires there { IsTableAt texts.now first.now.head.mark.now first.now.head.columns first.now.head.plan found.place found.seeds }
    ensures read { IfOk result (IsRead texts.entry.now first.now.head.mark.now first.now.head.columns first.now.head.plan found) }
    ensures refused { IfErr result (λ fault. IsReason texts.entry.now (MergeFault.Shards fault)) }
{
    let place = found.place;
    let seeds = found.seeds;
    let Some(head) = head_with(alloc, first, seeds)? else {
        unreachable!()
    };
    let lines = lines_at(alloc, text_at(texts, place), &head, head.shard, place)?;
    let key = line_key(alloc, &head.plan, head.mark, head.columns, None)?;
    match genuine_starts(alloc, &head.plan, &key, lines) {
        Ok(starts) => Ok(Table { seeds, starts }),
        Err(LineFault::Torn) => Err(JoinFault::Torn(place)),
        Err(LineFault::Memory) => Err(JoinFault::Memory),
    }
}

/// Puts the lines of tables in the order of the whole, and gives the summaries of its settings.
fn put_tables<S: Sink>(
    alloc: Global,
    head: &Head<'_>,
    tables: &[Table<'_>],
    sink: &mut S,
) -> Result<Vec<SettingSummary>, JoinFault>
    requires asked { IsAskedFor head.now.plan }
    requires full { All (IsFull (setting_count head.now.plan.swept_keys)) (map starts_in tables.now) }
    requires countable { S.failed sink.old < 2 ^ 63 }
    ensures put { IfOk result (λ settings. PutsAll (sweep_key head.now.mark.now head.now.plan) (in_turn (setting_count head.now.plan.swept_keys) (map starts_in tables.now))
        (seed_count head.now.plan.seeds) (S.held sink.old) (S.held sink.new) settings.items) }
    ensures same { OnOk result (S.failed sink.new ≡ S.failed sink.old) }
    ensures refused { IfErr result IsOfSink }
{
    let key = sweep_key(alloc, &head.plan, head.mark)?;
    let mut gathering = Gathering::new(alloc, head.plan.runs_of_setting() as u64);
    let settings = head.plan.settings();
    put_settings(alloc, &key, settings, tables, &mut gathering, sink)?;
    Ok(gathering.into_summaries())
}
