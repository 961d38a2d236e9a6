//! Which line of a table isn't what its sweep wrote.
ghost use Rattle.std.specs.Prelude.{IfOk, IfSome};
ghost use Rattle.shards.specs.Shards.{IsShard};
ghost use Rattle.sweep.specs.Runs.{IsAskedFor};
ghost use Rattle.shard_merge.specs.Reasons.{BeginsAs};
ghost use Rattle.table_reasons.specs.Torn.{IsWrongLine};

use crate::told::head_in;
use base::Memory;
use line_sums::{first_line, unsummed};
use shard_merge::{Head, lines_at};
use shards::Shard;
use std::alloc::Global;
use std::str::from_utf8;
use sweep::{LineKey, line_key, lines_of_runs};
use sweep_plan::Plan;

/// The number of the first line of a table that is missing, or isn't what the sweep wrote, counted from 1. None where each line
/// may be right by itself: with a width which runs a setting has isn't looked at, and without `--seeds` any seed counts.
pub fn torn_line(alloc: Global, text: &[u8]) -> Result<Option<usize>, Memory> {
    let words = front_of(text);
    match head_in(alloc, words)? {
        Some(head) => line_behind(alloc, words.as_bytes(), &head),
        None => Ok(None),
    }
}

/// The beginning of a text that is UTF-8.
fn front_of(text: &[u8]) -> &str {
    match from_utf8(text) {
        Ok(words) => words,
        Err(error) => words_of(text.get(..error.valid_up_to()).unwrap_or(&[])),
    }
}

/// A text that is UTF-8; else an empty one.
fn words_of(text: &[u8]) -> &str {
    match from_utf8(text) {
        Ok(words) => words,
        Err(_) => "",
    }
}

/// The number of the line in a text that begins with this first line.
fn line_behind(alloc: Global, text: &[u8], head: &Head<'_>) -> Result<Option<usize>, Memory>
    requires { BeginsAs text.now head.now.mark.now head.now.columns head.now.plan head.now.shard }
{
    let Ok(lines) = lines_at(alloc, text, head, head.shard, 0) else {
        return Ok(None);
    };
    let key = line_key(alloc, &head.plan, head.mark, head.columns, None)?;
    match head.plan.until() {
        Some(_) => unsummed_line(alloc, &key, lines.as_bytes()),
        None => unplaced_line(alloc, &head.plan, head.shard, &key, lines.as_bytes()),
    }
}

/// The number of the first line that isn't that of the shard's run at its place; none where all are there, and no more.
fn unplaced_line(
    alloc: Global,
    plan: &Plan,
    shard: Shard,
    key: &LineKey,
    lines: &[u8],
) -> Result<Option<usize>, Memory>
    requires asked { IsAskedFor plan.now }
    requires shard { IsShard shard }
    ensures { IfOk result (λ found. IfSome found (IsWrongLine key.now plan.now shard lines.now)) }
{
    let runs = plan.runs();
    let first = shard.first(runs);
    let most = shard.past(runs) - first;
    let stood = lines_of_runs(alloc, plan, key, first, most, lines)?;
    if stood.count == most && stood.left.is_empty() {
        return Ok(None);
    }
    Ok(Some(stood.count + 2))
}

/// The number of the first line that has no checksum, or a wrong one; none where all have theirs.
fn unsummed_line(alloc: Global, key: &LineKey, lines: &[u8]) -> Result<Option<usize>, Memory> {
    let mut left = lines;
    for count in 0..lines.len() {
        let Some((line, rest)) = first_line(left) else {
            return Ok(number_of(left, count));
        };
        if unsummed(alloc, &key.digest, line)?.is_none() {
            return Ok(number_of(line, count));
        }
        left = rest;
    }
    Ok(None)
}

/// The number of the line behind the first one and so many others; none where there is no text of it.
fn number_of(line: &[u8], count: usize) -> Option<usize> {
    if line.is_empty() {
        return None;
    }
    Some(count.saturating_add(2))
}
