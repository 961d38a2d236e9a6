//! The first line of a table.
ghost use Rattle.std.specs.Prelude.{◌≡◌, ◌<◌, ◌^◌, ◌+◌, OnOk, OnErr, IfOk, drop};
ghost use Rattle.std.specs.Io.KnownBytes.{Appends};
ghost use Rattle.trace.specs.Sinks.{AppendsBeginning, failures_of_write};
ghost use Rattle.shards.specs.Names.{head_cell};
ghost use Rattle.sweep.specs.Shards.{shard_header};

use crate::values::write_names;
use base::Memory;
use figures::ColumnSet;
use shards::{Shard, head_cell};
use std::alloc::Global;
use sweep_plan::Plan;
use trace::{Put, Sink, WriteError, put_all};

/// Puts what so many bytes lack of the first line of a shard, which `write_front` puts whole.
pub fn write_front_behind<S: Sink>(
    alloc: Global,
    plan: &Plan,
    shard: Shard,
    mark: &str,
    kept: usize,
    columns: ColumnSet,
    table: &mut S,
) -> Result<(), WriteError>
    requires { S.failed table.old < 2 ^ 63 }
    ensures whole { OnOk result (Appends (S.held table.old) (S.held table.new) (drop kept (shard_header columns mark.now plan.now shard))) }
    ensures part { OnErr result (AppendsBeginning (S.held table.old) (S.held table.new) (drop kept (shard_header columns mark.now plan.now shard))) }
    ensures failures { S.failed table.new ≡ S.failed table.old + failures_of_write result }
{
    let front = front_of(alloc, plan, shard, mark, columns)?;
    put_all(behind(&front, kept), table)?;
    Ok(())
}

/// What a text has behind so many bytes; nothing, where it has no more.
fn behind(text: &[u8], count: usize) -> &[u8]
    ensures { result.now ≡ drop count text.entry.now }
{
    &text[count.min(text.len())..]
}

/// The first line of a shard.
pub fn front_of(
    alloc: Global,
    plan: &Plan,
    shard: Shard,
    mark: &str,
    columns: ColumnSet,
) -> Result<Vec<u8>, Memory>
    ensures { IfOk result (λ front. front.items ≡ shard_header columns mark.now plan.now shard) }
{
    let mut front = Put::new(Vec::new(alloc));
    match write_front(alloc, plan, shard, mark, columns, &mut front) {
        Ok(()) => Ok(front.into_inner()),
        // A text in memory fails by want of that.
        Err(_) => Err(Memory),
    }
}

/// Puts the first line of a shard: its name, and the header of the sweep's table, which has these columns.
pub fn write_front<S: Sink>(
    alloc: Global,
    plan: &Plan,
    shard: Shard,
    mark: &str,
    columns: ColumnSet,
    table: &mut S,
) -> Result<(), WriteError>
    requires { S.failed table.old < 2 ^ 63 }
    ensures whole { OnOk result (Appends (S.held table.old) (S.held table.new) (shard_header columns mark.now plan.now shard)) }
    ensures part { OnErr result (AppendsBeginning (S.held table.old) (S.held table.new) (shard_header columns mark.now plan.now shard)) }
    ensures failures { S.failed table.new ≡ S.failed table.old + failures_of_write result }
{
    write_head(alloc, plan, shard, mark, table)?;
    write_names(alloc, plan.swept_keys(), columns, table)
}

/// Puts what stands ahead of a shard's header.
fn write_head<S: Sink>(
    alloc: Global,
    plan: &Plan,
    shard: Shard,
    mark: &str,
    table: &mut S,
) -> Result<(), WriteError>
    requires { S.failed table.old < 2 ^ 63 }
    ensures whole { OnOk result (Appends (S.held table.old) (S.held table.new) (head_cell mark.now plan.now shard)) }
    ensures part { OnErr result (AppendsBeginning (S.held table.old) (S.held table.new) (head_cell mark.now plan.now shard)) }
    ensures failures { S.failed table.new ≡ S.failed table.old + failures_of_write result }
{
    let head = head_cell(alloc, mark, plan, shard)?;
    put_all(head.as_bytes(), table)?;
    Ok(())
}
