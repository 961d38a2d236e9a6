//! Counts by track and span.
ghost use Rattle.std.specs.Prelude.{◌≡◌, ℕ, ◌+◌, ◌*◌, ◌<◌, ◌≤◌, ◌^◌, ◌&&◌, ◌==◌, OnOk, cond, length};

use base::Memory;
use std::alloc::Global;

/// The most spans into which the time of a run is divided.
const SPANS: usize = 120;

/// Counts by track and span. It takes no memory before it is opened, and has counted nothing then.
#[derive(Drop)]
pub struct Grid {
    /// The counts of the first track, span by span, then those of the next one.
    counts: Vec<u64>,
}

impl Grid {
    ghost use Rattle.series.specs.Grid.{count_at};

    /// A grid that isn't open yet.
    pub(crate) fn new(alloc: Global) -> Grid
        ensures { (track span : ℕ) → count_at result track span ≡ 0 }
    {
        Grid {
            counts: Vec::new(alloc),
        }
    }

    /// Opens so many tracks, where they aren't open yet.
    pub(crate) fn make_room(&mut self, tracks: usize) -> Result<(), Memory>
        requires { tracks ≤ 64 }
        ensures room { OnOk result (tracks * 120 ≤ length self.new.counts.items) }
        ensures same { (track span : ℕ) → count_at self.new track span ≡ count_at self.old track span }
        ensures keeps { length self.old.counts.items ≤ length self.new.counts.items }
    {
        if self.counts.len() < tracks * SPANS {
            self.counts.resize(tracks * SPANS, 0)?;
        }
        Ok(())
    }

    /// Counts one more in a span of an open track.
    pub(crate) fn raise(&mut self, track: usize, span: usize)
        requires span { span < 120 }
        requires room { track * 120 + 120 ≤ length self.old.counts.items }
        requires by_one { count_at self.old track span < 2 ^ 63 }
        ensures raised { (t k : ℕ) → k < 120 → count_at self.new t k ≡ count_at self.old t k + cond (t == track && k == span) 1 0 }
        ensures keeps { length self.new.counts.items ≡ length self.old.counts.items }
    {
        self.counts[track * SPANS + span] += 1;
    }

    /// The count of a track in a span, 0 where nothing was counted yet.
    pub fn count(&self, track: usize, span: usize) -> u64
        requires track { track ≤ 64 }
        requires span { span < 120 }
        ensures { result ≡ count_at self.now track span }
    {
        match self.counts.get(track * SPANS + span) {
            Some(count) => *count,
            None => 0,
        }
    }
}
