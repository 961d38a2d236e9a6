//! Pairs of members, some of which are marked.
ghost use Rattle.std.specs.Prelude.{◌≡◌, ◌<◌, ℕ, Bool, true, false, OnOk, ◌==◌, vec_len, if◌then◌else◌};
ghost use Rattle.reports.specs.Held.{is_marked, are_marked, marked_with, HasPlace};

use base::{MemberId, Memory};
use std::alloc::Global;

/// Places that are marked. Those past the end aren't.
#[derive(Drop)]
pub(crate) struct Marks {
    marks: Vec<bool>,
}

impl Marks {
    /// No place is marked. It takes no memory.
    fn new(alloc: Global) -> Marks
        ensures { (k : ℕ) → is_marked result k ≡ false }
    {
        Marks {
            marks: Vec::new(alloc),
        }
    }

    /// Whether a place is marked.
    fn has(&self, place: usize) -> bool
        ensures { result ≡ is_marked self.now place }
    {
        match self.marks.get(place) {
            Some(mark) => *mark,
            None => false,
        }
    }

    /// Has room for a mark at a place. The marks stay, also where it is refused.
    fn grow_to_place(&mut self, place: usize) -> Result<(), Memory>
        ensures room { OnOk result (place < vec_len self.new.marks) }
        ensures same { (k : ℕ) → is_marked self.new k ≡ is_marked self.old k }
    {
        while self.marks.len() <= place {
            self.marks.push(false)?;
        }
        Ok(())
    }

    /// Marks a place for which there is room, or takes its mark away.
    fn set(&mut self, place: usize, mark: bool)
        requires { mark ≡ true → place < vec_len self.old.marks }
        ensures { (k : ℕ) → is_marked self.new k ≡ (if place == k then mark else is_marked self.old k) }
    {
        if place < self.marks.len() {
            self.marks[place] = mark;
        }
    }
}

/// Pairs of members that are marked. For each second member that ever was in a marked pair it takes
/// a byte for each member up to the last first one.
#[derive(Drop)]
pub(crate) struct Pairs {
    alloc: Global,
    /// The first members that are marked, by the second.
    columns: Vec<Marks>,
}

impl Pairs {
    /// No pair is marked. It takes no memory.
    pub(crate) fn new(alloc: Global) -> Pairs
        ensures { (a b : ℕ) → are_marked result a b ≡ false }
    {
        Pairs {
            alloc,
            columns: Vec::new(alloc),
        }
    }

    /// Whether a pair is marked.
    pub(crate) fn has(&self, first: MemberId, second: MemberId) -> bool
        ensures { result ≡ are_marked self.now first second }
    {
        match self.columns.get(second.index()) {
            Some(marks) => marks.has(first.index()),
            None => false,
        }
    }

    /// Has room for the mark of a pair. The marks stay, also where it is refused.
    pub(crate) fn grow_to_pair(&mut self, first: MemberId, second: MemberId) -> Result<(), Memory>
        ensures room { OnOk result (HasPlace self.new first second) }
        ensures same { (a b : ℕ) → are_marked self.new a b ≡ are_marked self.old a b }
    {
        let place = second.index();
        self.reach_column(place)?;
        self.columns[place].grow_to_place(first.index())
    }

    /// Has a column for a second member.
    fn reach_column(&mut self, place: usize) -> Result<(), Memory>
        ensures room { OnOk result (place < vec_len self.new.columns) }
        ensures same { (a b : ℕ) → are_marked self.new a b ≡ are_marked self.old a b }
    {
        while self.columns.len() <= place {
            self.columns.push(Marks::new(self.alloc))?;
        }
        Ok(())
    }

    /// Marks a pair for which there is room, or takes its mark away.
    pub(crate) fn set(&mut self, first: MemberId, second: MemberId, mark: bool)
        requires { mark ≡ true → HasPlace self.old first second }
        ensures { (a b : ℕ) → are_marked self.new a b ≡ marked_with first second mark (are_marked self.old) a b }
    {
        let place = second.index();
        if place < self.columns.len() {
            self.columns[place].set(first.index(), mark);
        }
    }
}
