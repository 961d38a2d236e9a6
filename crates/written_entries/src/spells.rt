//! Slow times, pauses and blocks that may not be.
ghost use Rattle.std.specs.Prelude.{◌≡◌, IfOk, is_some};
ghost use Rattle.std.specs.List.{list_any};
ghost use Rattle.written_entries.specs.Bad.{is_bad_spell, is_bad_spell_time};

use crate::who::is_bad_who;
use base::Memory;
use plain_entries::{Entry, SpellTime};
use std::alloc::Global;

/// The place of the first slow time, pause or block of a list that rule 9 refuses.
///
/// # Errors
///
/// Memory was refused.
pub fn first_bad_spell(alloc: Global, entries: &[Entry<SpellTime>]) -> Result<Option<usize>, Memory>
    ensures { IfOk result (λ found. is_some found ≡ list_any is_bad_spell entries.now) }
{
    for (place, entry) in entries.iter().enumerate() {
        if is_bad_spell(alloc, entry)? {
            return Ok(Some(place));
        }
    }
    Ok(None)
}

/// Whether rule 9 refuses a slow time, pause or block.
fn is_bad_spell(alloc: Global, entry: &Entry<SpellTime>) -> Result<bool, Memory>
    ensures { IfOk result (λ bad. bad ≡ is_bad_spell entry.now) }
{
    if is_bad_who(alloc, &entry.who)? {
        Ok(true)
    } else {
        Ok(is_bad_spell_time(&entry.when))
    }
}

/// Whether it is over when it begins, or may last less than it does at least.
fn is_bad_spell_time(when: &SpellTime) -> bool
    ensures { result ≡ is_bad_spell_time when.now }
{
    match *when {
        SpellTime::Once { spell } => spell.until <= spell.from,
        SpellTime::Again {
            recurrence,
            lasting,
        } => recurrence.until <= recurrence.from || lasting.most < lasting.least,
    }
}
