//! Pairs of members: for each second one the first ones.
ghost use Rattle.std.specs.Prelude.{◌≡◌, ◌<◌, ℕ, true, false, IfOk, OnOk, length, if◌then◌else◌, ◌==◌};
ghost use Rattle.std.specs.Bool.{OnTrue, OnFalse};
ghost use Rattle.std.specs.Ordering.{nat_cmp};
ghost use Rattle.std.specs.BTreeSet.{contains};
ghost use Rattle.incidents.specs.Pairs.{has, has_with, has_without};

use base::{MemberId, Memory};
use std::alloc::Global;
use std::collections::BTreeSet;

/// Pairs of members.
#[derive(Drop)]
pub(crate) struct Pairs {
    /// The first members, by the second.
    pub(crate) columns: Vec<BTreeSet<u16>>,
}

impl Pairs {
    /// No pairs, with room for those of so many second members.
    pub(crate) fn new(alloc: Global, count: usize) -> Result<Pairs, Memory>
        ensures none { IfOk result (λ pairs. (a b : ℕ) → has pairs a b ≡ false) }
        ensures room { IfOk result (λ pairs. length pairs.columns.items ≡ count) }
    {
        let mut columns = Vec::new(alloc);
        for _place in 0..count {
            columns.push(BTreeSet::new(alloc))?;
        }
        Ok(Pairs { columns })
    }

    /// Whether a pair is there.
    pub(crate) fn has(&self, first: MemberId, second: MemberId) -> bool
        ensures { result ≡ has self.now first second }
    {
        match self.columns.get(second.index()) {
            Some(column) => column.contains(&first.0),
            None => false,
        }
    }

    /// Whether no pair has this second member.
    pub(crate) fn has_none(&self, second: MemberId) -> bool
        ensures none { OnTrue result ((a : ℕ) → has self.now a second ≡ false) }
        ensures some { OnFalse result ((a : ℕ) × (has self.now a second ≡ true)) }
    {
        match self.columns.get(second.index()) {
            Some(column) => has_no_number(column),
            None => true,
        }
    }

    /// Puts a pair in, or takes it out.
    pub(crate) fn put(
        &mut self,
        first: MemberId,
        second: MemberId,
        is_in: bool,
    ) -> Result<(), Memory>
        requires { second < length self.old.columns.items }
        ensures room { length self.new.columns.items ≡ length self.old.columns.items }
        ensures put { OnOk result ((a b : ℕ) → has self.new a b ≡ has_with first second is_in (has self.old) a b) }
    {
        put_number(&mut self.columns[second.index()], first.0, is_in)
    }

    /// Takes out all pairs of a first member, where it may have some.
    pub(crate) fn drop_first(&mut self, first: MemberId, may_have: bool)
        requires { may_have ≡ false → (b : ℕ) → has self.old first b ≡ false }
        ensures room { length self.new.columns.items ≡ length self.old.columns.items }
        ensures dropped { (a b : ℕ) → has self.new a b ≡ has_without first (has self.old) a b }
    {
        if !may_have {
            return;
        }
        self.drop_from_each(first);
    }

    /// Takes all pairs of a first member out of the columns.
    fn drop_from_each(&mut self, first: MemberId)
        ensures room { length self.new.columns.items ≡ length self.old.columns.items }
        ensures dropped { (a b : ℕ) → has self.new a b ≡ has_without first (has self.old) a b }
    {
        for place in 0..self.columns.len() {
            self.take_out(first, place);
        }
    }

    /// Takes a pair out.
    fn take_out(&mut self, first: MemberId, place: usize)
        requires { place < length self.old.columns.items }
        ensures room { length self.new.columns.items ≡ length self.old.columns.items }
        ensures out { (a b : ℕ) → has self.new a b ≡ has_with first place false (has self.old) a b }
    {
        remove_number(&mut self.columns[place], first.0);
    }
}

/// Puts a number in, or takes it out.
fn put_number(numbers: &mut BTreeSet<u16>, number: u16, is_in: bool) -> Result<(), Memory>
    ensures { OnOk result ((a : ℕ) → contains nat_cmp numbers.new a ≡ (if number == a then is_in else contains nat_cmp numbers.old a)) }
{
    if !is_in {
        remove_number(numbers, number);
        return Ok(());
    }
    match numbers.insert(number) {
        Ok(_) => Ok(()),
        Err(_) => Err(Memory),
    }
}

/// Takes a number out.
fn remove_number(numbers: &mut BTreeSet<u16>, number: u16)
    ensures { (a : ℕ) → contains nat_cmp numbers.new a ≡ (if number == a then false else contains nat_cmp numbers.old a) }
{
    let _ = numbers.remove(&number);
}

/// Whether there is no number.
fn has_no_number(numbers: &BTreeSet<u16>) -> bool
    ensures none { OnTrue result ((a : ℕ) → contains nat_cmp numbers.now a ≡ false) }
    ensures some { OnFalse result ((a : ℕ) × (contains nat_cmp numbers.now a ≡ true)) }
{
    numbers.is_empty()
}
