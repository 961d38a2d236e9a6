//! What stands of the table of a shard that was cut off.
ghost use Rattle.std.specs.Prelude.{◌≡◌, ◌≢◌, ◌++◌, true, false, [], List, ℕ, IfOk, IfErr, IfSome, IsNone};
ghost use Rattle.toml.specs.View.{view};
ghost use Rattle.shards.specs.Shards.{IsShard};
ghost use Rattle.sweep.specs.Shards.{shard_header};
ghost use Rattle.sweep.specs.Runs.{IsAskedFor};
ghost use Rattle.sweep.specs.Table.{columns_of};
ghost use Rattle.sweep.specs.Resumed.{IsBegun, RefusesBegun, RefusesStart};
ghost use Rattle.sweep.specs.declared.begun.BegunFault.TheVariants as begun_fault;

use crate::columns::columns_of;
use crate::header::front_of;
use crate::standing::{is_older, lines_of_runs};
use crate::summing::key_of_text;
use base::Memory;
use figures::RunMetadata;
use shards::Shard;
use std::alloc::Global;
use sweep_plan::Plan;
use thiserror::Error;
use toml::Value;

/// What stands of the table of a shard, behind which it goes on.
#[derive(Drop)]
pub struct Begun {
    /// How many bytes of it stay: its first line, or a beginning of that, and whole lines behind it.
    pub kept: usize,
    /// The lines of how many of its runs these are; with a width, of how many whole settings.
    pub count: usize,
    /// With a width, the metadata of the other lines: those of the next setting, which needs more runs.
    pub started: Vec<RunMetadata>,
}

impl Begun {
    /// Nothing of it. It takes no memory.
    pub fn nothing(alloc: Global) -> Begun
        ensures kept { result.kept ≡ 0 }
        ensures count { result.count ≡ 0 }
        ensures started { result.started.items ≡ [] }
    {
        Begun {
            kept: 0,
            count: 0,
            started: Vec::new(alloc),
        }
    }
}

/// Why a text is no beginning of the table of a shard.
#[derive(Clone, Copy, Debug, PartialEq, Eq, Error)]
pub enum BegunFault {
    /// It begins otherwise.
    #[error("of another sweep")]
    Other,
    /// Its lines have no checksums, as those of versions before 1.11.0.
    #[error("without checksums")]
    Older,
    /// Memory was refused.
    #[error("memory")]
    Memory,
}

impl From<Memory> for BegunFault {
    ghost from_gives = { λ _ fault. fault ≡ begun_fault.Memory };

    fn from(_refused: Memory) -> Self {
        BegunFault::Memory
    }
}

/// What stands of a shard's table in a text: its first line or a beginning of that, and behind it the lines of its first
/// runs, each genuine at its place. From the first line that isn't so on nothing counts.
///
/// Faults: `Other` where the text begins otherwise; `Older` where it goes on with a line without a checksum; `Memory`.
pub fn begun_of(
    alloc: Global,
    plan: &Plan,
    shard: Shard,
    mark: &str,
    document: &Value,
    text: &[u8],
) -> Result<Begun, BegunFault>
    requires asked { IsAskedFor plan.now }
    requires shard { IsShard shard }
    ensures begun { IfOk result (λ begun. IsBegun (view document.now) mark.now plan.now shard text.now begun.kept begun.count) }
    ensures no_more { IfOk result (λ begun. begun.started.items ≡ []) }
    ensures refused { IfErr result (RefusesBegun (view document.now) mark.now plan.now shard text.now) }
{
    let Some(lines) = lines_behind(alloc, plan, shard, mark, document, text)? else {
        return Ok(Begun {
            kept: text.len(),
            count: 0,
            started: Vec::new(alloc),
        });
    };
    let key = key_of_text(alloc, plan, mark, document)?;
    let runs = plan.runs();
    let first = shard.first(runs);
    let stood = lines_of_runs(alloc, plan, &key, first, shard.past(runs) - first, lines)?;
    Ok(Begun {
        kept: text.len() - stood.left.len(),
        count: stood.count,
        started: Vec::new(alloc),
    })
}

/// What comes behind the first line of a shard in a text; none where the text is a beginning of that line.
///
/// Faults: `Other` where the text begins otherwise; `Older` where it goes on with a line without a checksum; `Memory`.
pub fn lines_behind<'a>(
    alloc: Global,
    plan: &Plan,
    shard: Shard,
    mark: &str,
    document: &Value,
    text: &'a [u8],
) -> Result<Option<&'a [u8]>, BegunFault>
    ensures none { IfOk result (λ found. IsNone found → (rest : List ℕ) × (shard_header (columns_of (view document.now)) mark.now plan.now shard ≡ text.entry.now ++ rest)) }
    ensures some { IfOk result (λ found. IfSome found (λ lines. text.entry.now ≡ shard_header (columns_of (view document.now)) mark.now plan.now shard ++ lines.now)) }
    ensures refused { IfErr result (RefusesStart (shard_header (columns_of (view document.now)) mark.now plan.now shard) text.entry.now) }
{
    let header = front_of(alloc, plan, shard, mark, columns_of(document))?;
    if is_beginning(text, &header) {
        return Ok(None);
    }
    let Some(rest) = rest_behind(text, &header) else {
        return Err(BegunFault::Other);
    };
    if is_older(alloc, rest)? {
        return Err(BegunFault::Older);
    }
    Ok(Some(rest))
}

/// Whether a text is a beginning of the first line.
fn is_beginning(text: &[u8], header: &[u8]) -> bool
    ensures begins { result ≡ true → (rest : List ℕ) × (header.now ≡ text.now ++ rest) }
    ensures none { result ≡ false → (rest : List ℕ) → header.now ≢ text.now ++ rest }
{
    header.strip_prefix(text).is_some()
}

/// What comes behind the first line in a text that begins with it.
pub(crate) fn rest_behind<'a>(text: &'a [u8], header: &[u8]) -> Option<&'a [u8]>
    ensures some { IfSome result (λ rest. text.entry.now ≡ header.now ++ rest.now) }
    ensures none { IsNone result → (rest : List ℕ) → text.entry.now ≢ header.now ++ rest }
{
    text.strip_prefix(header)
}
