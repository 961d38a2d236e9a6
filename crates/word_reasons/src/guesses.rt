//! Which key was perhaps meant.
ghost use Rattle.std.specs.Prelude.{IfOk, IfSome, string_bytes};
ghost use Rattle.word_reasons.specs.Found.{NamesKey};

use base::Memory;
use schema::{FormatKey, KeyRule, Kind, Section, Version};
use std::alloc::Global;
use strsim::levenshtein;
use sweep_plan::SweptKey;

/// A name that is longer is near none.
const LONGEST: usize = 80;

/// A key's name, and how far it is from another name.
#[derive(Drop)]
struct Guess {
    name: String,
    edits: usize,
}

/// The name of the key that is nearest to a name: one of the same last part, else one at most a third of the letters away.
pub(crate) fn guess_of(alloc: Global, name: &str) -> Result<Option<String>, Memory>
    ensures { IfOk result (λ guess. IfSome guess (λ text. NamesKey (string_bytes text))) }
{
    let guess = nearest(alloc, name)?;
    if SweptKey::named(guess.name.as_str()).is_some() {
        return Ok(Some(guess.name));
    }
    Ok(None)
}

/// The nearest name, or an empty one.
fn nearest(alloc: Global, name: &str) -> Result<Guess, Memory> {
    let mut guess = Guess {
        name: String::new(alloc),
        edits: name.chars().count() / 3 + 1,
    };
    if name.len() > LONGEST {
        return Ok(guess);
    }
    for row in Section::Top.rows(Version::Four) {
        consider_row(alloc, &mut guess, name, row)?;
    }
    Ok(guess)
}

/// Takes the nearest key that a row of the whole text gives, where it is nearer.
fn consider_row(alloc: Global, guess: &mut Guess, name: &str, row: &KeyRule) -> Result<(), Memory> {
    match row.kind {
        Kind::Table(section) => {
            consider_table(alloc, guess, name, row.key, section.rows(Version::Four))
        }
        _ => consider(alloc, guess, name, "", row.key),
    }
}

/// The same of the keys of a table.
fn consider_table(
    alloc: Global,
    guess: &mut Guess,
    name: &str,
    table: FormatKey,
    rows: &[KeyRule],
) -> Result<(), Memory> {
    let front = format!(in alloc; "{}.", table.text())?;
    for row in rows {
        consider(alloc, guess, name, front.as_str(), row.key)?;
    }
    Ok(())
}

/// Takes a key with this before its own name, where it is nearer.
fn consider(
    alloc: Global,
    guess: &mut Guess,
    name: &str,
    front: &str,
    key: FormatKey,
) -> Result<(), Memory> {
    let own = key.text();
    let full = format!(in alloc; "{front}{own}")?;
    let edits = edits_to(alloc, name, full.as_str(), own)?;
    if edits < guess.edits {
        guess.name = full;
        guess.edits = edits;
    }
    Ok(())
}

/// How many edits lead from a name to a key: one where its last part is the key's own name.
fn edits_to(alloc: Global, name: &str, full: &str, own: &str) -> Result<usize, Memory> {
    if last_part(name) == own {
        return Ok(1);
    }
    Ok(levenshtein(alloc, name, full)?)
}

/// What stands behind the last dot of a name.
fn last_part(name: &str) -> &str {
    match name.rsplit_once('.') {
        Some((_, last)) => last,
        None => name,
    }
}
