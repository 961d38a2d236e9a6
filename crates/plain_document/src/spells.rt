//! The lines of plain slow times, pauses and blocks.
ghost use Rattle.std.specs.Prelude.{◌≡◌, ◌++◌, map, flat_map, OnOk};
ghost use Rattle.plain_text.specs.Document.{expression_of};
ghost use Rattle.plain_document.specs.Entries.{extra_at, slow_lines, span_lines, spell_lines};

use crate::head::{add_head, add_whole};
use base::Memory;
use plain_entries::Plain;
use plain_text::PlainLine;
use scenario::Spell;

/// Adds the lines of plain pauses, or blocks, of the list of that name. `names` has each member's name, by its number.
///
/// # Errors
///
/// Memory was refused.
pub(crate) fn add_spells<'a>(
    lines: &mut Vec<PlainLine<'a>>,
    list: &'a str,
    names: &'a [String],
    entries: &[Plain<Spell>],
) -> Result<(), Memory>
    ensures { OnOk result (map expression_of lines.new.items ≡ map expression_of lines.old.items ++ flat_map (spell_lines list.now names.now) entries.now) }
{
    for it in entries {
        add_spell(lines, list, names, it)?;
    }
    Ok(())
}

/// Adds the lines of plain slow times. `extras` has by how much members are slow, entry by entry of the text.
///
/// # Errors
///
/// Memory was refused.
pub(crate) fn add_slows<'a>(
    lines: &mut Vec<PlainLine<'a>>,
    extras: &[u64],
    names: &'a [String],
    entries: &[Plain<Spell>],
) -> Result<(), Memory>
    ensures { OnOk result (map expression_of lines.new.items ≡ map expression_of lines.old.items ++ flat_map (slow_lines extras.now names.now) entries.now) }
{
    for it in entries {
        add_slow(lines, extras, names, it)?;
    }
    Ok(())
}

/// Adds the lines of one slow time.
fn add_slow<'a>(
    lines: &mut Vec<PlainLine<'a>>,
    extras: &[u64],
    names: &'a [String],
    it: &Plain<Spell>,
) -> Result<(), Memory>
    ensures { OnOk result (map expression_of lines.new.items ≡ map expression_of lines.old.items ++ slow_lines extras.now names.now it.now) }
{
    add_spell(lines, "slow", names, it)?;
    add_whole(lines, "extra", extra_at(extras, it.entry))
}

/// By how much members are slow by the text's entry; 0 where there is none.
fn extra_at(extras: &[u64], entry: usize) -> u64
    ensures { result ≡ extra_at extras.now entry }
{
    match extras.get(entry) {
        Some(extra) => *extra,
        None => 0,
    }
}

/// Adds the lines of one pause or block, or of a slow time but for its last.
fn add_spell<'a>(
    lines: &mut Vec<PlainLine<'a>>,
    list: &'a str,
    names: &'a [String],
    it: &Plain<Spell>,
) -> Result<(), Memory>
    ensures { OnOk result (map expression_of lines.new.items ≡ map expression_of lines.old.items ++ spell_lines list.now names.now it.now) }
{
    add_head(lines, list, names, it.member)?;
    add_span(lines, it.time)
}

/// Adds when it begins and ends.
fn add_span(lines: &mut Vec<PlainLine>, time: Spell) -> Result<(), Memory>
    ensures { OnOk result (map expression_of lines.new.items ≡ map expression_of lines.old.items ++ span_lines time) }
{
    add_whole(lines, "from", time.from)?;
    add_whole(lines, "until", time.until)
}
