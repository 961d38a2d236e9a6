//! Times that stand apart in their order, so that the one around a moment is found by halves.
ghost use Rattle.std.specs.Prelude.{◌≡◌, ℕ, ◌<◌, ◌≤◌, ◌&&◌, ◌||◌, [], length, nat_le, nat_lt, slice_index_or, true, false, OnOk, IfSome, IfNone};
ghost use Rattle.std.specs.Bool.{OnTrue};
ghost use Rattle.scenario.specs.Spells.{is_in_any, HaveBegun, AreApart, IsEndFrom};
ghost use Rattle.scenario.specs.declared.spells.Spell.{Spell as ASpell};

use base::Memory;
use std::alloc::Global;
use std::marker::Model;

/// A time, in ticks: from its first moment on, until before its last.
#[derive(Clone, Copy, Debug)]
pub struct Spell {
    /// Its first moment.
    pub from: u64,
    /// The first moment after it.
    pub until: u64,
}

/// Times in their order, of which none touches another.
#[derive(Drop)]
pub struct Spells {
    spells: Vec<Spell>,
}

impl Model for Spells {
    ghost use Rattle.std.specs.Prelude.{List};
    ghost use Rattle.scenario.specs.declared.spells.Spell.{Spell as OneSpell};

    ghost Value = { List OneSpell };

    ghost use Rattle.scenario.specs.SpellsOf.{spells_of, AreSpells};

    ghost view = { spells_of };

    ghost invariant = { AreSpells };
}

impl Spells {
    /// No time at all. Takes no memory.
    pub fn new(alloc: Global) -> Spells
        ensures { result ≡ [] }
    {
        Spells {
            spells: Vec::new(alloc),
        }
    }

    /// Adds a time that begins no earlier than any that was added. One that touches the last is joined to it.
    pub fn add(&mut self, from: u64, until: u64) -> Result<(), Memory>
        requires begun { HaveBegun self.old from }
        ensures added { OnOk result ((t : ℕ) → is_in_any self.new t ≡ (is_in_any self.old t || (nat_le from t && nat_lt t until))) }
        ensures begun { OnOk result (HaveBegun self.new from) }
    {
        add(&mut self.spells, from, until)
    }

    /// Whether one of the times is at the moment.
    pub fn covers(&self, at: u64) -> bool
        ensures { result ≡ is_in_any self.now at }
    {
        self.end_from(at).is_some()
    }

    /// The first moment after the time that is at the moment.
    pub fn end_from(&self, at: u64) -> Option<u64>
        ensures some { IfSome result (λ until. is_in_any self.now at ≡ true) }
        ensures end { IfSome result (IsEndFrom self.now at) }
        ensures none { IfNone result (is_in_any self.now at ≡ false) }
    {
        let begun = begun_by(self.spells.as_slice(), at);
        if begun == 0 {
            return None;
        }
        let until = self.spells[begun - 1].until;
        if at < until { Some(until) } else { None }
    }
}

/// Adds a time that begins no earlier than the others.
fn add(spells: &mut Vec<Spell>, from: u64, until: u64) -> Result<(), Memory>
    requires apart { AreApart spells.old.items }
    requires begun { HaveBegun spells.old.items from }
    ensures apart { AreApart spells.new.items }
    ensures added { OnOk result ((t : ℕ) → is_in_any spells.new.items t ≡ (is_in_any spells.old.items t || (nat_le from t && nat_lt t until))) }
    ensures begun { OnOk result (HaveBegun spells.new.items from) }
{
    if until <= from {
        return Ok(());
    }
    let count = spells.len();
    if count == 0 {
        return append(spells, from, until);
    }
    let last = spells[count - 1];
    if last.until < from {
        return append(spells, from, until);
    }
    if last.until < until {
        spells[count - 1] = Spell {
            from: last.from,
            until,
        };
    }
    Ok(())
}

/// Puts a time behind the others.
fn append(spells: &mut Vec<Spell>, from: u64, until: u64) -> Result<(), Memory>
    requires lasts { from < until }
    requires over { (i : ℕ) (d : ASpell) → i < length spells.old.items → (slice_index_or spells.old.items i d).until < from }
    requires apart { AreApart spells.old.items }
    requires begun { HaveBegun spells.old.items from }
    ensures apart { AreApart spells.new.items }
    ensures added { OnOk result ((t : ℕ) → is_in_any spells.new.items t ≡ (is_in_any spells.old.items t || (nat_le from t && nat_lt t until))) }
    ensures begun { OnOk result (HaveBegun spells.new.items from) }
{
    match spells.push(Spell { from, until }) {
        Ok(()) => Ok(()),
        Err(_) => Err(Memory),
    }
}

/// How many of the times have begun by the moment. Where even the first is still to come, the others aren't looked at.
fn begun_by(spells: &[Spell], at: u64) -> usize
    requires { AreApart spells.now }
    ensures few { result ≤ length spells.now }
    ensures begun { (i : ℕ) (d : ASpell) → i < result → (slice_index_or spells.now i d).from ≤ at }
    ensures later { (i : ℕ) (d : ASpell) → result ≤ i → i < length spells.now → at < (slice_index_or spells.now i d).from }
{
    if are_to_come(spells, at) {
        return 0;
    }
    count_begun(spells, at)
}

/// Whether all of the times begin after the moment.
fn are_to_come(spells: &[Spell], at: u64) -> bool
    requires { AreApart spells.now }
    ensures { OnTrue result ((i : ℕ) (d : ASpell) → i < length spells.now → at < (slice_index_or spells.now i d).from) }
{
    if spells.is_empty() {
        return true;
    }
    let first = spells[0];
    at < first.from
}

/// How many of the times have begun by the moment.
fn count_begun(spells: &[Spell], at: u64) -> usize
    requires { AreApart spells.now }
    ensures few { result ≤ length spells.now }
    ensures begun { (i : ℕ) (d : ASpell) → i < result → (slice_index_or spells.now i d).from ≤ at }
    ensures later { (i : ℕ) (d : ASpell) → result ≤ i → i < length spells.now → at < (slice_index_or spells.now i d).from }
{
    spells.partition_point(|spell| spell.from <= at)
}
