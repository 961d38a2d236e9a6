//! The shards in files, put together.
ghost use Rattle.std.specs.Prelude.{◌≡◌, ◌<◌, ◌^◌, All, IfOk, IfErr};
ghost use Rattle.goals.specs.Wants.{HasFewRuns};
ghost use Rattle.table_merge.specs.Merged.{Joins};
ghost use Rattle.join_command.specs.Outcomes.{FailsToGather, FailsToRead, GathersSettings, HoldTexts, RefusesShards, merge_failure, name_at, shard_failure};

use command_line::{Failure, ShardFault};
use files::Files;
use scenario_files::load_bytes;
use shard_merge::{JoinFault, Joined};
use std::alloc::Global;
use table_merge::{MergeFault, join};
use trace::Sink;

/// Puts the shards in the files of these names together: the table of the whole goes to the sink, and what the settings came to
/// is given. Where there is no name, `otherwise` stands in its place.
pub(crate) fn gather<'a, F: Files, S: Sink>(
    alloc: Global,
    names: &[&'a str],
    otherwise: &'a str,
    files: &mut F,
    table: &mut S,
) -> Result<Joined, Failure<'a>>
    requires countable { S.failed table.old < 2 ^ 63 }
    ensures gathered { IfOk result
        (λ joined. GathersSettings (F.known files.old) names.now (S.held table.old) (S.held table.new) joined.plan joined.columns joined.settings.items) }
    ensures few { IfOk result (λ joined. All HasFewRuns joined.settings.items) }
    ensures failed { IfErr result (FailsToGather (F.known files.old) names.now otherwise.entry) }
    ensures same { F.known files.new ≡ F.known files.old }
    ensures making { F.making files.new ≡ F.making files.old }
    ensures counted { F.refused files.new ≡ F.refused files.old }
{
    let texts = load_texts(alloc, names, files)?;
    join_texts(alloc, names, otherwise, &texts, table)
}

/// The bytes of all files, in the order of their names.
fn load_texts<'a, F: Files>(
    alloc: Global,
    names: &[&'a str],
    files: &mut F,
) -> Result<Vec<Vec<u8>>, Failure<'a>>
    ensures read { IfOk result (λ texts. HoldTexts (F.known files.old) names.now texts.items) }
    ensures failed { IfErr result (FailsToRead (F.known files.old) names.now) }
    ensures same { F.known files.new ≡ F.known files.old }
    ensures making { F.making files.new ≡ F.making files.old }
    ensures counted { F.refused files.new ≡ F.refused files.old }
{
    let mut texts = Vec::new(alloc);
    for name in names {
        let bytes = load_bytes(alloc, *name, files)?;
        if texts.push(bytes).is_err() {
            return Err(Failure::Memory);
        }
    }
    Ok(texts)
}

/// The shards put together.
fn join_texts<'a, S: Sink>(
    alloc: Global,
    names: &[&'a str],
    otherwise: &'a str,
    texts: &[Vec<u8>],
    table: &mut S,
) -> Result<Joined, Failure<'a>>
    requires countable { S.failed table.old < 2 ^ 63 }
    ensures joined { IfOk result
        (λ joined. Joins texts.now (S.held table.old) (S.held table.new) joined.plan joined.columns joined.settings.items) }
    ensures few { IfOk result (λ joined. All HasFewRuns joined.settings.items) }
    ensures refused { IfErr result (RefusesShards names.now otherwise.entry texts.now) }
{
    match join(alloc, texts, table) {
        Ok(joined) => Ok(joined),
        Err(fault) => Err(failure_of(names, otherwise, fault)),
    }
}

/// The failure that says why tables weren't put together. The line below it says more of seeds.
fn failure_of<'a>(names: &[&'a str], otherwise: &'a str, fault: MergeFault) -> Failure<'a>
    ensures { result ≡ merge_failure names.now otherwise.entry fault }
{
    match fault {
        MergeFault::Shards(cause) => shard_failure(names, otherwise, cause),
        MergeFault::Overlap(place, _) => {
            Failure::Shards(ShardFault::Doubled(name_at(names, otherwise, place)))
        }
        MergeFault::Gap(_, place) => {
            Failure::Shards(ShardFault::Other(name_at(names, otherwise, place)))
        }
        MergeFault::TooMany => Failure::Shards(ShardFault::Other(name_at(names, otherwise, 1))),
    }
}

/// The failure that says why files aren't the shards of one sweep. A table in memory fails by want of that, and one that
/// is thrown away never.
fn shard_failure<'a>(names: &[&'a str], otherwise: &'a str, fault: JoinFault) -> Failure<'a>
    ensures { result ≡ shard_failure names.now otherwise.entry fault }
{
    match fault {
        JoinFault::NoShard(place) => {
            Failure::Shards(ShardFault::NoShard(name_at(names, otherwise, place)))
        }
        JoinFault::Other(place) => {
            Failure::Shards(ShardFault::Other(name_at(names, otherwise, place)))
        }
        JoinFault::Doubled(place) => {
            Failure::Shards(ShardFault::Doubled(name_at(names, otherwise, place)))
        }
        JoinFault::Torn(place) => {
            Failure::Shards(ShardFault::Torn(name_at(names, otherwise, place)))
        }
        JoinFault::Older(place) => {
            Failure::Shards(ShardFault::Older(name_at(names, otherwise, place)))
        }
        JoinFault::Missing(number) => Failure::Shards(ShardFault::Missing(number)),
        JoinFault::Write | JoinFault::Memory => Failure::Memory,
    }
}

/// The name at a place among these; the other one where there is none.
pub(crate) fn name_at<'a>(names: &[&'a str], otherwise: &'a str, place: usize) -> &'a str
    ensures { result ≡ name_at names.now otherwise.entry place }
{
    if place < names.len() {
        return names[place];
    }
    otherwise
}
