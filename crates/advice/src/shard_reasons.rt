//! What is wrong with the files of shards.
ghost use Rattle.std.specs.Prelude.{◌≡◌};

use crate::rereading::read_again;
use crate::surroundings::Surroundings;
use crate::tables::table_lines;
use base::Memory;
use command_line::{Asked, ShardFault, parse};
use files::Files;
use reasons::ShardReason;
use std::alloc::Global;
use std::convert::AsStr;
use table_reasons::torn_line;

/// What is printed of shards that aren't joined, or of a table that isn't resumed: what the first lines of the tables say,
/// else what is wrong with the file that the failure names. That its version is earlier, the failure's line says.
pub(crate) fn shard_lines<S: AsStr, F: Files, A: Surroundings>(
    alloc: Global,
    surroundings: &A,
    words: &[S],
    fault: ShardFault<'_>,
    files: &mut F,
) -> Result<String, Memory>
    ensures same { F.known files.new ≡ F.known files.old }
    ensures making { F.making files.new ≡ F.making files.old }
    ensures counted { F.refused files.new ≡ F.refused files.old }
{
    match fault {
        ShardFault::NoShard(name) => line_of(alloc, ShardReason::NoTable(name)),
        ShardFault::Other(name) => {
            let otherwise = other_reason(alloc, words, name);
            first_lines_or(alloc, surroundings, words, otherwise, files)
        }
        ShardFault::Doubled(name) => {
            first_lines_or(alloc, surroundings, words, ShardReason::Twice(name), files)
        }
        ShardFault::Torn(name) => torn_lines(alloc, surroundings, name, files),
        ShardFault::Older(_) => Ok(String::new(alloc)),
        ShardFault::Missing(number) => line_of(alloc, ShardReason::Missing(number)),
    }
}

/// What is wrong with a table of another sweep: with that of a sweep that goes on, or with one of several.
fn other_reason<'a, S: AsStr>(alloc: Global, words: &[S], name: &'a str) -> ShardReason<'a> {
    match parse(alloc, words) {
        Ok(Asked::Sweep(_)) => ShardReason::Resumed(name),
        _ => ShardReason::Other(name),
    }
}

/// What the first lines of the tables say, else this reason.
fn first_lines_or<S: AsStr, F: Files, A: Surroundings>(
    alloc: Global,
    surroundings: &A,
    words: &[S],
    otherwise: ShardReason<'_>,
    files: &mut F,
) -> Result<String, Memory>
    ensures same { F.known files.new ≡ F.known files.old }
    ensures making { F.making files.new ≡ F.making files.old }
    ensures counted { F.refused files.new ≡ F.refused files.old }
{
    let lines = table_lines(alloc, surroundings, words, files)?;
    if lines.is_empty() {
        return line_of(alloc, otherwise);
    }
    Ok(lines)
}

/// What is wrong with a table that isn't whole: which of its lines, where that is known.
fn torn_lines<F: Files, A: Surroundings>(
    alloc: Global,
    surroundings: &A,
    name: &str,
    files: &mut F,
) -> Result<String, Memory>
    ensures same { F.known files.new ≡ F.known files.old }
    ensures making { F.making files.new ≡ F.making files.old }
    ensures counted { F.refused files.new ≡ F.refused files.old }
{
    match read_again(alloc, surroundings, name, files) {
        Some(bytes) => torn_reason(alloc, name, bytes.as_slice()),
        None => line_of(alloc, ShardReason::Torn(name)),
    }
}

/// The same of its text.
fn torn_reason(alloc: Global, name: &str, text: &[u8]) -> Result<String, Memory> {
    match torn_line(alloc, text)? {
        Some(line) => line_of(alloc, ShardReason::TornAt { name, line }),
        None => line_of(alloc, ShardReason::Torn(name)),
    }
}

/// A reason's line.
fn line_of(alloc: Global, reason: ShardReason<'_>) -> Result<String, Memory> {
    Ok(format!(in alloc; "{reason}\n")?)
}
