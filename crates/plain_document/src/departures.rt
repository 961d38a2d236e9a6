//! The lines of plain crashes and leaves.
ghost use Rattle.std.specs.Prelude.{◌≡◌, ◌++◌, map, flat_map, OnOk};
ghost use Rattle.plain_text.specs.Document.{expression_of};
ghost use Rattle.plain_document.specs.Entries.{departure_lines};

use crate::head::{add_head, add_whole};
use base::Memory;
use plain_entries::{Departure, Plain};
use plain_text::PlainLine;

/// Adds the lines of plain crashes, or leaves, of the list of that name. `names` has each member's name, by its number.
///
/// # Errors
///
/// Memory was refused.
pub(crate) fn add_departures<'a>(
    lines: &mut Vec<PlainLine<'a>>,
    list: &'a str,
    names: &'a [String],
    entries: &[Plain<Departure>],
) -> Result<(), Memory>
    ensures { OnOk result (map expression_of lines.new.items ≡ map expression_of lines.old.items ++ flat_map (departure_lines list.now names.now) entries.now) }
{
    for it in entries {
        add_departure(lines, list, names, it)?;
    }
    Ok(())
}

/// Adds the lines of one.
fn add_departure<'a>(
    lines: &mut Vec<PlainLine<'a>>,
    list: &'a str,
    names: &'a [String],
    it: &Plain<Departure>,
) -> Result<(), Memory>
    ensures { OnOk result (map expression_of lines.new.items ≡ map expression_of lines.old.items ++ departure_lines list.now names.now it.now) }
{
    add_head(lines, list, names, it.member)?;
    add_whole(lines, "at", it.time.at.ticks())
}
