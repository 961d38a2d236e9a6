//! How far a turn's windows go past the first pending moment: twice as far after few rows, half as far after many.
ghost use Rattle.std.specs.Prelude.{◌<◌, ◌≤◌, ◌^◌};

use base::Moment;

/// How many ticks the first turn of a run may take.
const FIRST_TICKS: u64 = 256;

/// A turn that writes fewer rows than these may be longer.
const FEW_ROWS: usize = 256;

/// A turn that writes more rows than these is too long: they are kept until it ends, and more rows than these drive the
/// members' own memory out of a processor's caches.
const MANY_ROWS: usize = 1_024;

/// How far past the first pending moment the windows of a turn go at most, so that the rows which are kept until a
/// turn ends stay few, and turns are long where little is written.
#[derive(Drop)]
pub struct TurnLimit {
    ticks: u64,
    ghost some: { 0 < ticks },
}

impl TurnLimit {
    /// The limit of a run's first turn.
    pub fn new() -> Self {
        TurnLimit { ticks: FIRST_TICKS }
    }

    /// The moment before which the windows of a turn stay whose first pending moment is this one.
    pub fn end(&self, first: Moment) -> Moment
        requires { first < 2 ^ 63 }
        ensures { first < result }
    {
        Moment(first.ticks().saturating_add(self.ticks))
    }

    /// Takes note of how many rows the turn wrote: the next one is half as long where these were many, and twice as
    /// long where they were few.
    pub fn adapt(&mut self, rows: usize) {
        if rows > MANY_ROWS {
            self.ticks = (self.ticks / 2).max(1);
        } else if rows < FEW_ROWS {
            self.ticks = self.ticks.saturating_mul(2);
        }
    }
}
