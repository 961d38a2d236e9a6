//! What the first line of a table says.
ghost use Rattle.std.specs.Prelude.{IfOk, IfSome};
ghost use Rattle.shard_merge.specs.Reasons.{BeginsAs};

use base::Memory;
use shard_merge::{Head, head_of_any};
use shards::{Shard, plan_text};
use std::alloc::Global;
use std::str::from_utf8;
use sweep_plan::Seeds;

/// What the first line of the table in the file of a name says.
#[derive(Drop)]
pub(crate) struct Told<'a> {
    pub(crate) name: &'a str,
    pub(crate) shard: Shard,
    pub(crate) mark: String,
    pub(crate) seeds: Option<Seeds>,
    pub(crate) is_until: bool,
    /// The words of the settings.
    pub(crate) settings: String,
}

/// What the first line of a text says, where it is that of a table.
pub(crate) fn told_of<'a>(
    alloc: Global,
    name: &'a str,
    text: &[u8],
) -> Result<Option<Told<'a>>, Memory> {
    let Ok(words) = from_utf8(text) else {
        return Ok(None);
    };
    match head_in(alloc, words)? {
        Some(head) => Ok(Some(told_by(alloc, name, &head)?)),
        None => Ok(None),
    }
}

/// What the first line of a text says, whichever table it is.
pub(crate) fn head_in<'a>(alloc: Global, words: &'a str) -> Result<Option<Head<'a>>, Memory>
    ensures { IfOk result (λ found. IfSome found (λ head. BeginsAs words.entry.now head.mark.now head.columns head.plan head.shard)) }
{
    match head_of_any(alloc, words) {
        Ok(found) => Ok(found),
        Err(_) => Err(Memory),
    }
}

/// What a first line says of a file.
fn told_by<'a>(alloc: Global, name: &'a str, head: &Head<'_>) -> Result<Told<'a>, Memory> {
    let mark = String::from_str(alloc, head.mark)?;
    let words = plan_text(alloc, &head.plan)?;
    let settings = String::from_str(alloc, behind_seeds(words.as_str()))?;
    Ok(Told {
        name,
        shard: head.shard,
        mark,
        seeds: head.plan.seeds(),
        is_until: head.plan.until().is_some(),
        settings,
    })
}

/// The words behind that of the seeds.
fn behind_seeds(words: &str) -> &str {
    match words.split_once(' ') {
        Some((_seeds, settings)) => settings,
        None => "",
    }
}
