//! What stands of the table of a shard that goes on.
ghost use Rattle.std.specs.Prelude.{◌≡◌, Some, IfOk, IfErr, string_bytes};
ghost use Rattle.std.specs.Option.{ForSome};
ghost use Rattle.toml.specs.View.{view};
ghost use Rattle.shards.specs.Shards.{IsShard};
ghost use Rattle.scenario_files.specs.Shelves.{IsUnread};
ghost use Rattle.sweep.specs.Runs.{IsAskedFor};
ghost use Rattle.sweep_command.specs.Outcomes.{CannotGoOn, GoesOn, HeldSoFar, RefusesSoFar, shard_resumed};
ghost use Rattle.sweep_command.specs.Runs.{AreBegun, RefusesTable, standing};

use command_line::{Failure, ShardFault, SweepWords};
use files::{Files, ReadFault};
use scenario_files::MarkedDocument;
use shards::Shard;
use std::alloc::Global;
use sweep::{Begun, BegunFault, begun_of};
use sweep_plan::Plan;
use table_rows::begun_settings_of;

/// What stays of the table that the words name, where they ask for a shard that goes on.
///
/// Failures: `Shards` where the file of the table holds no beginning of it, or one of an earlier version, without checksums;
/// `File` where it can't be read; `Memory`.
pub(crate) fn find_standing<'a, F: Files>(
    alloc: Global,
    words: &SweepWords<'a>,
    marked: &MarkedDocument,
    files: &mut F,
) -> Result<Begun, Failure<'a>>
    requires asked { IsAskedFor words.now.plan }
    requires shard { ForSome words.now.shard IsShard }
    ensures stood { IfOk result (λ s. GoesOn (view marked.now.document) (string_bytes marked.now.mark) words.now (F.known files.old words.now.table.now) s.kept (standing s.count s.started.items)) }
    ensures failed { IfErr result (CannotGoOn (view marked.now.document) (string_bytes marked.now.mark) words.now (F.known files.old words.now.table.now)) }
    ensures same { F.known files.new ≡ F.known files.old }
    ensures making { F.making files.new ≡ F.making files.old }
    ensures counted { F.refused files.new ≡ F.refused files.old }
{
    match shard_resumed(words) {
        Some(shard) => {
            let text = text_so_far(alloc, words.table, files)?;
            stays_in(alloc, words, shard, marked, text.as_slice())
        }
        None => Ok(Begun::nothing(alloc)),
    }
}

/// The shard that goes on, if one does.
fn shard_resumed(words: &SweepWords<'_>) -> Option<Shard>
    ensures { result ≡ shard_resumed words.now.resume words.now.shard }
{
    if words.resume { words.shard } else { None }
}

/// The text of a table that was cut off; none where there is no file.
fn text_so_far<'a, F: Files>(
    alloc: Global,
    name: &'a str,
    files: &mut F,
) -> Result<Vec<u8>, Failure<'a>>
    ensures held { IfOk result (λ text. HeldSoFar (F.known files.old name.entry.now) text.items) }
    ensures failed { IfErr result (IsUnread (F.known files.old name.entry.now) name.entry.now) }
    ensures same { F.known files.new ≡ F.known files.old }
    ensures making { F.making files.new ≡ F.making files.old }
    ensures counted { F.refused files.new ≡ F.refused files.old }
{
    match files.read(alloc, name) {
        Ok(text) => Ok(text),
        Err(ReadFault::Absent) => Ok(Vec::new(alloc)),
        Err(ReadFault::Refused) => Err(Failure::File(name)),
        Err(ReadFault::Memory) => Err(Failure::Memory),
    }
}

/// What stays of a text of the table of a shard.
fn stays_in<'a>(
    alloc: Global,
    words: &SweepWords<'a>,
    shard: Shard,
    marked: &MarkedDocument,
    text: &[u8],
) -> Result<Begun, Failure<'a>>
    requires asked { IsAskedFor words.now.plan }
    requires shard { IsShard shard }
    ensures begun { IfOk result (λ s. AreBegun words.now.plan.until (view marked.now.document) (string_bytes marked.now.mark) words.now.plan shard text.now
        s.kept (standing s.count s.started.items)) }
    ensures refused { IfErr result (RefusesSoFar (view marked.now.document) (string_bytes marked.now.mark) words.now shard text.now) }
{
    match begun_in(alloc, &words.plan, shard, marked, text) {
        Ok(begun) => Ok(begun),
        Err(BegunFault::Other) => Err(Failure::Shards(ShardFault::Other(words.table))),
        Err(BegunFault::Older) => Err(Failure::Shards(ShardFault::Older(words.table))),
        Err(BegunFault::Memory) => Err(Failure::Memory),
    }
}

/// The same, or why it is no such text.
fn begun_in(
    alloc: Global,
    plan: &Plan,
    shard: Shard,
    marked: &MarkedDocument,
    text: &[u8],
) -> Result<Begun, BegunFault>
    requires asked { IsAskedFor plan.now }
    requires shard { IsShard shard }
    ensures begun { IfOk result (λ s. AreBegun plan.now.until (view marked.now.document) (string_bytes marked.now.mark) plan.now shard text.now s.kept (standing s.count s.started.items)) }
    ensures refused { IfErr result (RefusesTable plan.now.until (view marked.now.document) (string_bytes marked.now.mark) plan.now shard text.now) }
{
    let mark = marked.mark.as_str();
    let document = &marked.document;
    match plan.until() {
        Some(width) => begun_settings_of(alloc, plan, shard, mark, width, document, text),
        None => begun_of(alloc, plan, shard, mark, document, text),
    }
}
