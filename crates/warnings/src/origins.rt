//! Which items of a text's lists its plain entries are of: an item of version 4 may stand for several.
ghost use Rattle.std.specs.Prelude.{◌≡◌, map};
ghost use Rattle.lengths.specs.Lengths.{IsTick};
ghost use Rattle.script_reader.specs.Who.{member_total};
ghost use Rattle.toml.specs.View.{view};
ghost use Rattle.written_entries.specs.Ranges.{AreInRange};
ghost use Rattle.written_names.specs.Roster.{group_of};

use base::Memory;
use expansion::{ScriptRefusal, expand_script};
use plain_entries::{Plain, PlainScript, Script};
use scenario::Version;
use scenario_reader::{document, version_of};
use schema::{FormatKey, Section, number};
use script_reader::{ScriptFault, read_script};
use std::alloc::Global;
use toml::Value;
use written_groups::{member_starts, written_groups};
use written_names::{NameFault, Roster, WrittenGroup};
use written_schema::tick_of;

/// The most members that a text may have.
const MOST_MEMBERS: usize = 16_384;

/// The plain entries of the six lists of an accepted text of version 4, each with the place of its
/// item; none of another text, whose items are plain entries. Or `Memory` where it was refused.
pub(crate) fn plain_entries(alloc: Global, text: &str) -> Result<Option<PlainScript>, Memory> {
    match document(alloc, text.as_bytes()) {
        Ok(tree) => entries_in(alloc, &tree),
        Err(_) => Ok(None),
    }
}

/// Those of a document.
fn entries_in(alloc: Global, tree: &Value) -> Result<Option<PlainScript>, Memory> {
    match version_of(tree) {
        Version::One | Version::Two | Version::Three => Ok(None),
        Version::Four => entries_of(alloc, tree),
    }
}

/// Those of a document of version 4.
fn entries_of(alloc: Global, tree: &Value) -> Result<Option<PlainScript>, Memory> {
    let tick = tick_of(tree);
    let groups = written_groups(alloc, tree, tick)?;
    let written = groups.as_slice();
    match Roster::of(alloc, written) {
        Ok(roster) => entries_by(alloc, tree, tick, &roster, written),
        Err(NameFault::Memory) => Err(Memory),
        Err(NameFault::Group(_)) => Ok(None),
    }
}

/// The same with these groups, of which the roster is. A tick has so many microseconds.
fn entries_by(
    alloc: Global,
    tree: &Value,
    tick: u64,
    roster: &Roster,
    groups: &[WrittenGroup],
) -> Result<Option<PlainScript>, Memory>
    requires tick { IsTick tick }
    requires groups { roster.now ≡ map group_of groups.now }
{
    match read_script(alloc, tree, tick, roster, groups) {
        Ok(script) => drawn(alloc, tree, groups, &script),
        Err(ScriptFault::Memory) => Err(Memory),
        Err(ScriptFault::Rule(_)) => Ok(None),
    }
}

/// The plain entries for which these six lists of a document stand.
fn drawn(
    alloc: Global,
    tree: &Value,
    groups: &[WrittenGroup],
    script: &Script,
) -> Result<Option<PlainScript>, Memory>
    requires { AreInRange (member_total groups.now) script.now }
{
    let starts = member_starts(alloc, groups)?;
    let seed = number(Section::Top, FormatKey::Seed, Some(tree));
    let moments = starts.as_slice();
    if moments.len() > MOST_MEMBERS {
        return Ok(None);
    }
    match expand_script(alloc, script, moments, seed) {
        Ok(plain) => Ok(Some(plain)),
        Err(ScriptRefusal::Memory) => Err(Memory),
        Err(_) => Ok(None),
    }
}

/// The item of the plain entry at a place of its list, where these are all; each is its own where
/// there are none.
pub(crate) fn item_of<T: Copy>(entries: &[Plain<T>], place: usize) -> usize {
    match entries.get(place) {
        Some(plain) => plain.entry,
        None => place,
    }
}
