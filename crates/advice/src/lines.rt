//! The lines that are printed below that of a failure.
ghost use Rattle.std.specs.Prelude.{◌≡◌};

use crate::file_reasons::file_reason;
use crate::help::SHORT_HELP;
use crate::rereading::read_again;
use crate::runs::run_lines;
use crate::scenarios::{first_lines, is_accepted};
use crate::shard_reasons::shard_lines;
use crate::surroundings::Surroundings;
use base::Memory;
use command_line::{Asked, Failure, parse};
use files::Files;
use item_reasons::item_reason;
use reasons::RunReason;
use scenario_reader::document;
use std::alloc::Global;
use std::convert::AsStr;
use std::fmt::Display;
use word_reasons::{WordsFault, words_fault};

/// What is printed below the line of a failure; nothing where the line says all.
pub(crate) fn lines_below<'a, S: AsStr, F: Files, A: Surroundings>(
    alloc: Global,
    surroundings: &A,
    words: &'a [S],
    failure: &Failure<'a>,
    files: &mut F,
) -> Result<String, Memory>
    ensures same { F.known files.new ≡ F.known files.old }
    ensures making { F.making files.new ≡ F.making files.old }
    ensures counted { F.refused files.new ≡ F.refused files.old }
{
    match failure {
        Failure::Usage | Failure::Workers | Failure::Division(_) => {
            words_lines(alloc, words, failure)
        }
        Failure::File(name) => file_lines(alloc, surroundings, words, name),
        Failure::Rule(rule) => scenario_lines(alloc, surroundings, words, *rule, "", files),
        Failure::Setting { rule, swept_keys } => scenario_lines(
            alloc,
            surroundings,
            words,
            *rule,
            swept_keys.as_str(),
            files,
        ),
        Failure::NoItem { key } => item_lines(alloc, surroundings, words, key.as_str(), files),
        Failure::Shards(fault) => shard_lines(alloc, surroundings, words, *fault, files),
        _ => run_lines(alloc, words, failure),
    }
}

/// What is wrong with the words.
fn words_lines<'a, S: AsStr>(
    alloc: Global,
    words: &'a [S],
    failure: &Failure<'a>,
) -> Result<String, Memory> {
    if words.is_empty() {
        return Ok(String::from_str(alloc, SHORT_HELP)?);
    }
    match words_fault(alloc, words, failure)? {
        Some(WordsFault::Refused(error)) => Ok(format!(in alloc; "{error}")?),
        Some(WordsFault::Taken(reason)) => line_of(alloc, &reason),
        None => Ok(String::new(alloc)),
    }
}

/// What is wrong with the file of a name.
fn file_lines<'a, S: AsStr, A: Surroundings>(
    alloc: Global,
    surroundings: &A,
    words: &'a [S],
    name: &'a str,
) -> Result<String, Memory> {
    match file_reason(alloc, surroundings, words, name)? {
        Some(reason) => line_of(alloc, &reason),
        None => Ok(String::new(alloc)),
    }
}

/// What is wrong with the scenario whose file stands in the words, and what prints all of it. Where `swept_keys` says values,
/// as `KEY=V KEY=V`, the scenario was to have these.
fn scenario_lines<S: AsStr, F: Files, A: Surroundings>(
    alloc: Global,
    surroundings: &A,
    words: &[S],
    rule: u8,
    swept_keys: &str,
    files: &mut F,
) -> Result<String, Memory>
    ensures same { F.known files.new ≡ F.known files.old }
    ensures making { F.making files.new ≡ F.making files.old }
    ensures counted { F.refused files.new ≡ F.refused files.old }
{
    let Ok(asked) = parse(alloc, words) else {
        return Ok(String::new(alloc));
    };
    let Some(name) = scenario_name(&asked) else {
        return Ok(String::new(alloc));
    };
    match read_again(alloc, surroundings, name, files) {
        Some(bytes) => refused_lines(alloc, name, bytes.as_slice(), rule, swept_keys),
        None => line_of(alloc, &unread_reason(swept_keys)),
    }
}

/// What is wrong with the text of a file, or with the same text with these values.
fn refused_lines(
    alloc: Global,
    name: &str,
    bytes: &[u8],
    rule: u8,
    swept_keys: &str,
) -> Result<String, Memory> {
    let lines = first_lines(alloc, name, bytes, rule, swept_keys)?;
    if !swept_keys.is_empty() && is_accepted(alloc, bytes) {
        return with_reason(alloc, lines, RunReason::Setting(name));
    }
    with_reason(alloc, lines, RunReason::Rule(name))
}

/// What to do where the scenario can't be read again.
fn unread_reason(swept_keys: &str) -> RunReason<'static> {
    if swept_keys.is_empty() {
        RunReason::Unread
    } else {
        RunReason::Values
    }
}

/// Lines with that of a reason behind them.
fn with_reason(alloc: Global, mut lines: String, reason: RunReason<'_>) -> Result<String, Memory> {
    lines.push_str(line_of(alloc, &reason)?.as_str())?;
    Ok(lines)
}

/// The name of the file whose scenario a command runs, drives or checks.
fn scenario_name<'a>(asked: &Asked<'a>) -> Option<&'a str> {
    match asked {
        Asked::Run(words) => Some(words.file),
        Asked::Drive(words) => Some(words.file),
        Asked::Check(file) => Some(*file),
        Asked::Sweep(words) => Some(words.file),
        _ => None,
    }
}

/// Why the key of an item means no one item of the scenario whose file stands in the words; nothing where that can't be read again.
fn item_lines<S: AsStr, F: Files, A: Surroundings>(
    alloc: Global,
    surroundings: &A,
    words: &[S],
    key: &str,
    files: &mut F,
) -> Result<String, Memory>
    ensures same { F.known files.new ≡ F.known files.old }
    ensures making { F.making files.new ≡ F.making files.old }
    ensures counted { F.refused files.new ≡ F.refused files.old }
{
    let Ok(asked) = parse(alloc, words) else {
        return Ok(String::new(alloc));
    };
    let Some(name) = scenario_name(&asked) else {
        return Ok(String::new(alloc));
    };
    match read_again(alloc, surroundings, name, files) {
        Some(bytes) => item_line(alloc, key, bytes.as_slice()),
        None => Ok(String::new(alloc)),
    }
}

/// Why it means no one item of a text.
fn item_line(alloc: Global, key: &str, bytes: &[u8]) -> Result<String, Memory> {
    match document(alloc, bytes) {
        Ok(document) => line_of(alloc, &item_reason(alloc, key, &document)?),
        Err(_) => Ok(String::new(alloc)),
    }
}

/// A reason's line.
fn line_of<D: Display>(alloc: Global, reason: &D) -> Result<String, Memory> {
    Ok(format!(in alloc; "{reason}\n")?)
}
