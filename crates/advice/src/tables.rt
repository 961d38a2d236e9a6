//! Why tables aren't joined.
ghost use Rattle.std.specs.Prelude.{◌≡◌};

use crate::rereading::read_again;
use crate::surroundings::Surroundings;
use base::Memory;
use command_line::{Asked, parse};
use files::Files;
use std::alloc::Global;
use std::convert::AsStr;
use table_reasons::{TableReason, table_reason};

/// What is printed of tables that words ask to join, or to make a page of, and that aren't joined: nothing where their first
/// lines give no reason, or a file can't be read again.
pub(crate) fn table_lines<S: AsStr, F: Files, A: Surroundings>(
    alloc: Global,
    surroundings: &A,
    words: &[S],
    files: &mut F,
) -> Result<String, Memory>
    ensures same { F.known files.new ≡ F.known files.old }
    ensures making { F.making files.new ≡ F.making files.old }
    ensures counted { F.refused files.new ≡ F.refused files.old }
{
    let Ok(asked) = parse(alloc, words) else {
        return Ok(String::new(alloc));
    };
    let names = tables_of(alloc, &asked)?;
    let texts = texts_of(alloc, surroundings, &names, files)?;
    match table_reason(alloc, &names, &texts)? {
        Some(reason) => line_of(alloc, reason),
        None => Ok(String::new(alloc)),
    }
}

/// The names of the files with tables that words ask for.
fn tables_of<'a>(alloc: Global, asked: &Asked<'a>) -> Result<Vec<&'a str>, Memory> {
    let mut names = Vec::new(alloc);
    match asked {
        Asked::Join(words) => names.extend_from_slice(words.files.as_slice())?,
        Asked::Page(words) => names.extend_from_slice(words.files.as_slice())?,
        _ => {}
    }
    Ok(names)
}

/// The texts of files; no text where one of them can't be read again.
fn texts_of<F: Files, A: Surroundings>(
    alloc: Global,
    surroundings: &A,
    names: &[&str],
    files: &mut F,
) -> Result<Vec<Vec<u8>>, Memory>
    ensures same { F.known files.new ≡ F.known files.old }
    ensures making { F.making files.new ≡ F.making files.old }
    ensures counted { F.refused files.new ≡ F.refused files.old }
{
    let mut texts = Vec::new(alloc);
    for name in names {
        match read_again(alloc, surroundings, *name, files) {
            Some(bytes) => texts.push(bytes)?,
            None => return Ok(Vec::new(alloc)),
        }
    }
    Ok(texts)
}

/// A reason's line.
fn line_of(alloc: Global, reason: TableReason<'_>) -> Result<String, Memory> {
    Ok(format!(in alloc; "{reason}\n")?)
}
