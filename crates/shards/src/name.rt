//! The name of a shard: which shard it is, of which sweep.
ghost use Rattle.std.specs.Prelude.{◌≡◌, string_bytes, IfOk};
ghost use Rattle.shards.specs.Names.{head_cell};

use crate::shard::Shard;
use crate::words::plan_text;
use base::Memory;
use std::alloc::Global;
use sweep_plan::Plan;

/// What stands ahead of a shard's header: its name in quotes, and a comma. The name says which shard it is of how many, by
/// the mark which scenario's text is meant, and the words that ask for the sweep, as
/// `3/8 5f20c9.. 1..200 swim.period=200,300`. It is that of the column of metadata.
pub fn head_cell(alloc: Global, mark: &str, plan: &Plan, shard: Shard) -> Result<String, Memory>
    ensures { IfOk result (λ text. string_bytes text ≡ head_cell mark.now plan.now shard) }
{
    let words = plan_text(alloc, plan)?;
    let number = shard.number;
    let of = shard.of;
    let mut text = format!(in alloc; "\"{number}/{of} ")?;
    text.push_str(mark)?;
    text.push_str(" ")?;
    text.push_str(words.as_str())?;
    text.push_str("\",")?;
    Ok(text)
}
