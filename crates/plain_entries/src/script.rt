//! The six lists of a text, and the plain ones for which they stand.
ghost use Rattle.std.specs.Prelude.{◌≡◌, ◌≤◌, ◌<◌, IfOk, Err, length};
ghost use Rattle.script_draws.specs.Turns.{text_words};
ghost use Rattle.plain_entries.specs.Entries.{start_in};
ghost use Rattle.plain_entries.specs.Script.{entries_made, lists_of, most_made, plain_of, IsScript};

use crate::departures::{Departure, DepartureTime, add_returns};
use crate::drawing::Drawing;
use crate::entry::Entry;
use crate::listing::plain_list;
use crate::plain::Plain;
use crate::restarts::{Restart, RestartTime};
use crate::spells::SpellTime;
use base::Moment;
use scenario::Spell;
use script_draws::{DrawFault, TextStream};
use std::alloc::Global;

/// The most entries that `every` may make in a text.
const MOST_MADE: u64 = 100_000;

/// The six lists of a text.
#[derive(Debug, Drop)]
pub struct Script {
    pub crashes: Vec<Entry<DepartureTime>>,
    pub leaves: Vec<Entry<DepartureTime>>,
    pub restarts: Vec<Entry<RestartTime>>,
    pub slows: Vec<Entry<SpellTime>>,
    pub pauses: Vec<Entry<SpellTime>>,
    pub blocks: Vec<Entry<SpellTime>>,
}

/// The plain lists of a text. The restarts are the text's own, then those of crashes that are back, then those of leaves.
#[derive(Debug, Drop)]
pub struct PlainScript {
    pub crashes: Vec<Plain<Departure>>,
    pub leaves: Vec<Plain<Departure>>,
    pub restarts: Vec<Plain<Restart>>,
    pub slows: Vec<Plain<Spell>>,
    pub pauses: Vec<Plain<Spell>>,
    pub blocks: Vec<Plain<Spell>>,
}

/// The plain lists for which a text's six lists stand under this seed. `starts` has each member's start, by its number.
///
/// # Errors
///
/// `TooMany` where `every` makes more than 100,000 entries, and `Memory`.
pub fn plain_script(
    alloc: Global,
    script: &Script,
    starts: &[Moment],
    seed: u64,
) -> Result<PlainScript, DrawFault>
    requires members { length starts.now ≤ 16384 }
    requires sound { IsScript (length starts.now) script.now }
    ensures made { IfOk result (λ made. lists_of made ≡ plain_of (start_in starts.now) script.now (text_words seed)) }
    ensures within { IfOk result (λ made. entries_made (lists_of made) ≤ most_made) }
    ensures too_many { result ≡ Err DrawFault.TooMany
        → most_made < entries_made (plain_of (start_in starts.now) script.now (text_words seed)) }
{
    let mut drawing = Drawing {
        stream: TextStream::of(seed),
        room: MOST_MADE,
    };
    let crashes = plain_list(alloc, &mut drawing, script.crashes.as_slice(), starts)?;
    let leaves = plain_list(alloc, &mut drawing, script.leaves.as_slice(), starts)?;
    let mut restarts = plain_list(alloc, &mut drawing, script.restarts.as_slice(), starts)?;
    let slows = plain_list(alloc, &mut drawing, script.slows.as_slice(), starts)?;
    let pauses = plain_list(alloc, &mut drawing, script.pauses.as_slice(), starts)?;
    let blocks = plain_list(alloc, &mut drawing, script.blocks.as_slice(), starts)?;
    add_returns(&mut restarts, crashes.as_slice())?;
    add_returns(&mut restarts, leaves.as_slice())?;
    Ok(PlainScript {
        crashes,
        leaves,
        restarts,
        slows,
        pauses,
        blocks,
    })
}
