//! Who is up in the rows so far, and who has started again.
ghost use Rattle.std.specs.Prelude.{◌≡◌, ◌<◌, ◌||◌, ℕ, false, IfOk, length, slice_index_or, if◌then◌else◌};
ghost use Rattle.incidents.specs.Lives.{begins, is_turn_of, restarts};
ghost use Rattle.incidents.specs.Flags.{is_up_in, has_restarted_in};

use crate::rows::{begins, is_turn};
use base::{MemberId, Memory};
use std::alloc::Global;
use trace::{Row, What};
use trace_rows::has_kind;

/// Who is up, and who has started again.
#[derive(Drop)]
pub(crate) struct Lives {
    /// Whether each member is up.
    pub(crate) up: Vec<bool>,
    /// Whether each has started again.
    pub(crate) restarted: Vec<bool>,
}

impl Lives {
    /// Nobody is up yet, of so many members.
    pub(crate) fn new(alloc: Global, count: usize) -> Result<Lives, Memory>
        ensures up { IfOk result (λ lives. (m : ℕ) → is_up_in lives m ≡ false) }
        ensures restarted { IfOk result (λ lives. (m : ℕ) → has_restarted_in lives m ≡ false) }
        ensures members { IfOk result (λ lives. length lives.up.items ≡ count) }
        ensures also { IfOk result (λ lives. length lives.restarted.items ≡ count) }
    {
        let up = nobody(alloc, count)?;
        let restarted = nobody(alloc, count)?;
        Ok(Lives { up, restarted })
    }

    /// Whether a member is up.
    pub(crate) fn is_up(&self, member: MemberId) -> bool
        ensures { result ≡ is_up_in self.now member }
    {
        flag_at(self.up.as_slice(), member.index())
    }

    /// Whether a member has started again.
    pub(crate) fn has_restarted(&self, member: MemberId) -> bool
        ensures { result ≡ has_restarted_in self.now member }
    {
        flag_at(self.restarted.as_slice(), member.index())
    }

    /// Takes in the next row.
    pub(crate) fn follow(&mut self, row: &Row)
        requires up { row.now.member < length self.old.up.items }
        requires restarted { row.now.member < length self.old.restarted.items }
        ensures up { (m : ℕ) → is_up_in self.new m ≡ (if is_turn_of m row.now then begins row.now else is_up_in self.old m) }
        ensures restarted { (m : ℕ) → has_restarted_in self.new m ≡ (has_restarted_in self.old m || restarts m row.now) }
        ensures members { length self.new.up.items ≡ length self.old.up.items }
        ensures also { length self.new.restarted.items ≡ length self.old.restarted.items }
    {
        let place = row.member.index();
        if is_turn(row) {
            self.up[place] = begins(row);
        }
        if has_kind(row, What::Restart) {
            self.restarted[place] = true;
        }
    }
}

/// A flag for each of so many members, none set.
pub(crate) fn nobody(alloc: Global, count: usize) -> Result<Vec<bool>, Memory>
    ensures none { IfOk result (λ flags. (k : ℕ) → slice_index_or flags.items k false ≡ false) }
    ensures len { IfOk result (λ flags. length flags.items ≡ count) }
{
    let mut flags = Vec::new(alloc);
    flags.resize(count, false)?;
    Ok(flags)
}

/// A flag, or false past the end.
fn flag_at(flags: &[bool], place: usize) -> bool
    ensures { result ≡ slice_index_or flags.now place false }
{
    match flags.get(place) {
        Some(flag) => *flag,
        None => false,
    }
}
