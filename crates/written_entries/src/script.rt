//! The six lists of a text, judged by rule 9.
ghost use Rattle.std.specs.Prelude.{◌≡◌, Ok, None, IfOk, is_some, length};
ghost use Rattle.plain_entries.specs.Entries.{start_in};
ghost use Rattle.plain_entries.specs.Script.{IsScript};
ghost use Rattle.written_entries.specs.Bad.{breaks_entries};
ghost use Rattle.written_entries.specs.Ranges.{AreInRange};

use crate::departures::first_bad_departure;
use crate::fault::EntryFault;
use crate::keys::ScriptList;
use crate::restarts::first_bad_restart;
use crate::spells::first_bad_spell;
use base::{Memory, Moment};
use plain_entries::Script;
use std::alloc::Global;

/// The first entry of the six lists that rule 9 refuses, list by list in the order in which they draw. `starts` has each
/// member's start, by its number. Where it refuses none, the lists are such that `plain_script` takes them.
///
/// # Errors
///
/// Memory was refused.
pub fn check_entries(
    alloc: Global,
    starts: &[Moment],
    script: &Script,
) -> Result<Option<EntryFault>, Memory>
    requires { AreInRange (length starts.now) script.now }
    ensures judged { IfOk result (λ found. is_some found ≡ breaks_entries (start_in starts.now) (length starts.now) script.now) }
    ensures sound { result ≡ Ok None → IsScript (length starts.now) script.now }
{
    if let Some(place) = first_bad_departure(alloc, starts, script.crashes.as_slice())? {
        return Ok(Some(in_list(ScriptList::Crash, place)));
    }
    if let Some(place) = first_bad_departure(alloc, starts, script.leaves.as_slice())? {
        return Ok(Some(in_list(ScriptList::Leave, place)));
    }
    if let Some(place) = first_bad_restart(alloc, starts, script.restarts.as_slice())? {
        return Ok(Some(in_list(ScriptList::Restart, place)));
    }
    if let Some(place) = first_bad_spell(alloc, script.slows.as_slice())? {
        return Ok(Some(in_list(ScriptList::Slow, place)));
    }
    if let Some(place) = first_bad_spell(alloc, script.pauses.as_slice())? {
        return Ok(Some(in_list(ScriptList::Pause, place)));
    }
    match first_bad_spell(alloc, script.blocks.as_slice())? {
        Some(place) => Ok(Some(in_list(ScriptList::Block, place))),
        None => Ok(None),
    }
}

/// The fault of the entry at a place of a list.
fn in_list(list: ScriptList, place: usize) -> EntryFault {
    EntryFault { list, place }
}
