//! The lines of plain restarts.
ghost use Rattle.std.specs.Prelude.{◌≡◌, ◌++◌, map, flat_map, OnOk};
ghost use Rattle.plain_text.specs.Document.{expression_of};
ghost use Rattle.plain_document.specs.Entries.{contact_lines, restart_lines};

use crate::head::{add_head, add_name, add_whole, name_at};
use base::{MemberId, Memory};
use plain_entries::{Plain, Restart};
use plain_text::PlainLine;

/// Adds the lines of plain restarts. `names` has each member's name, by its number.
///
/// # Errors
///
/// Memory was refused.
pub(crate) fn add_restarts<'a>(
    lines: &mut Vec<PlainLine<'a>>,
    names: &'a [String],
    entries: &[Plain<Restart>],
) -> Result<(), Memory>
    ensures { OnOk result (map expression_of lines.new.items ≡ map expression_of lines.old.items ++ flat_map (restart_lines names.now) entries.now) }
{
    for it in entries {
        add_restart(lines, names, it)?;
    }
    Ok(())
}

/// Adds the lines of one.
fn add_restart<'a>(
    lines: &mut Vec<PlainLine<'a>>,
    names: &'a [String],
    it: &Plain<Restart>,
) -> Result<(), Memory>
    ensures { OnOk result (map expression_of lines.new.items ≡ map expression_of lines.old.items ++ restart_lines names.now it.now) }
{
    add_head(lines, "restart", names, it.member)?;
    add_whole(lines, "at", it.time.at.ticks())?;
    add_contact(lines, names, it.time.contact)
}

/// Adds whom it asks, where it says so.
fn add_contact<'a>(
    lines: &mut Vec<PlainLine<'a>>,
    names: &'a [String],
    contact: Option<MemberId>,
) -> Result<(), Memory>
    ensures { OnOk result (map expression_of lines.new.items ≡ map expression_of lines.old.items ++ contact_lines names.now contact) }
{
    match contact {
        Some(contact) => add_name(lines, "contact", name_at(names, contact)),
        None => Ok(()),
    }
}
