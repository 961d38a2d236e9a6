//! Plain entries of any of the six lists, with all that a line says of them.
ghost use Rattle.std.specs.Prelude.{◌≡◌, map, IfOk, None};
ghost use Rattle.script_summary.specs.Happenings.{of_departure, of_restart, of_slow, of_spell, extra_at, spell_with};

use base::{MemberId, Memory};
use plain_entries::{Departure, Plain, Restart};
use scenario::Spell;
use std::alloc::Global;

/// A plain entry.
#[derive(Clone, Copy, Debug)]
pub struct Happening {
    /// The place of the text's entry in its list, from 0.
    pub entry: usize,
    pub member: MemberId,
    /// When it is, or when it begins.
    pub from: u64,
    /// When it ends; as it begins where it is but one moment.
    pub until: u64,
    /// By how much the member is slow; 0 where it isn't.
    pub extra: u64,
    /// Whom a member asks that starts again.
    pub contact: Option<MemberId>,
}

/// Crashes or leaves.
pub(crate) fn departures(
    alloc: Global,
    entries: &[Plain<Departure>],
) -> Result<Vec<Happening>, Memory>
    ensures { IfOk result (λ made. made.items ≡ map of_departure entries.now) }
{
    let mut made = Vec::new(alloc);
    for it in entries {
        made.push(departure(it))?;
    }
    Ok(made)
}

/// A crash or leave.
fn departure(it: &Plain<Departure>) -> Happening
    ensures { result ≡ of_departure it.now }
{
    let at = it.time.at.ticks();
    Happening {
        entry: it.entry,
        member: it.member,
        from: at,
        until: at,
        extra: 0,
        contact: None,
    }
}

/// Restarts.
pub(crate) fn restarts(alloc: Global, entries: &[Plain<Restart>]) -> Result<Vec<Happening>, Memory>
    ensures { IfOk result (λ made. made.items ≡ map of_restart entries.now) }
{
    let mut made = Vec::new(alloc);
    for it in entries {
        made.push(restart(it))?;
    }
    Ok(made)
}

/// A restart.
fn restart(it: &Plain<Restart>) -> Happening
    ensures { result ≡ of_restart it.now }
{
    let at = it.time.at.ticks();
    Happening {
        entry: it.entry,
        member: it.member,
        from: at,
        until: at,
        extra: 0,
        contact: it.time.contact,
    }
}

/// Pauses or blocks.
pub(crate) fn spells(alloc: Global, entries: &[Plain<Spell>]) -> Result<Vec<Happening>, Memory>
    ensures { IfOk result (λ made. made.items ≡ map of_spell entries.now) }
{
    let mut made = Vec::new(alloc);
    for it in entries {
        made.push(spell(it, 0, None))?;
    }
    Ok(made)
}

/// Slow times. `extras` has by how much, entry by entry of the text.
pub(crate) fn slows(
    alloc: Global,
    entries: &[Plain<Spell>],
    extras: &[u64],
) -> Result<Vec<Happening>, Memory>
    ensures { IfOk result (λ made. made.items ≡ map (of_slow extras.now) entries.now) }
{
    let mut made = Vec::new(alloc);
    for it in entries {
        made.push(spell(it, extra_at(extras, it.entry), None))?;
    }
    Ok(made)
}

/// A time, by so much slow. It asks nobody.
fn spell(it: &Plain<Spell>, extra: u64, nobody: Option<MemberId>) -> Happening
    requires { nobody ≡ None }
    ensures { result ≡ spell_with extra it.now }
{
    Happening {
        entry: it.entry,
        member: it.member,
        from: it.time.from,
        until: it.time.until,
        extra,
        contact: nobody,
    }
}

/// By how much the entry at a place says that a member is slow.
fn extra_at(extras: &[u64], entry: usize) -> u64
    ensures { result ≡ extra_at extras.now entry }
{
    match extras.get(entry) {
        Some(extra) => *extra,
        None => 0,
    }
}
