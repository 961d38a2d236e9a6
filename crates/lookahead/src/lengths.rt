//! A 64 by 64 matrix of lengths in ticks between parts, on which the least walks of links are computed.
ghost use Rattle.std.specs.Prelude.{◌≡◌, ℕ, ◌+◌, ◌*◌, ◌^◌, ◌<◌, length, IfOk, Some, None};
ghost use Rattle.lookahead.specs.Lengths.{length_at, weight_of, weight};

use base::Memory;
use base::limits::MOST_PARTS;
use std::alloc::Global;
use std::marker::Model;

/// A length, in ticks, from each part to each, or None. It has a place for each two of 64 parts.
#[derive(Drop)]
pub struct Lengths {
    entries: Vec<Option<u64>>,
}

impl Model for Lengths {
    ghost use Rattle.std.specs.Prelude.{◌≡◌, ℕ, List, Option, length};
    ghost use Rattle.lookahead.specs.Lengths.{entries_of};

    ghost Value = { List (Option ℕ) };

    ghost view = { entries_of };

    ghost invariant = { λ t. length t.entries.items ≡ 4096 };
}

impl Lengths {
    /// No length at all, or `Memory` where it was refused.
    pub(crate) fn new(alloc: Global) -> Result<Self, Memory>
        ensures { IfOk result (λ lengths. (from to : ℕ) → length_at lengths from to ≡ None) }
    {
        let entries = vec![in alloc; None; MOST_PARTS * MOST_PARTS]?;
        Ok(Lengths { entries })
    }

    /// The length from one part to another.
    pub(crate) fn at(&self, from: usize, to: usize) -> Option<u64>
        requires from { from < 64 }
        requires to { to < 64 }
        ensures { result ≡ length_at self.now from to }
    {
        self.entries[from * MOST_PARTS + to]
    }

    /// Sets the length from one part to another.
    pub(crate) fn put(&mut self, from: usize, to: usize, length: Option<u64>)
        requires from { from < 64 }
        requires to { to < 64 }
        ensures here { length_at self.new from to ≡ length }
        ensures others { (p q : ℕ) → q < 64 → ¬ ((p ≡ from) × (q ≡ to)) → length_at self.new p q ≡ length_at self.old p q }
        ensures weight { weight self.new + weight_of (length_at self.old from to) ≡ weight self.old + weight_of length }
    {
        self.entries[from * MOST_PARTS + to] = length;
    }
}
