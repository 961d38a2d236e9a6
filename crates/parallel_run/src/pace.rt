//! Whether several workers pay: how often they sleep while they wait for each other.

use crate::process::Counts;

/// So few sleeps say nothing.
const FEW_SLEEPS: u64 = 16;

/// While a worker sleeps and is woken so many events could be handled: some 50 microseconds, where a
/// processor is free.
const EVENTS_OF_A_SLEEP: u64 = 256;

/// How many rounds one worker runs alone at first, and at most, before all are tried again.
const FIRST_ALONE: u64 = 2_048;

const MOST_ALONE: u64 = 1 << 20;

/// What all workers did since the processes were dealt out. All hear the same words, so that it is
/// the same for all of them.
#[derive(Clone, Copy)]
pub(crate) struct Pace {
    rows: u64,
    slept: u64,
    rounds: u64,
}

impl Pace {
    /// They have just been dealt out.
    pub(crate) const fn new() -> Pace {
        Pace {
            rows: 0,
            slept: 0,
            rounds: 0,
        }
    }

    /// Adds what all did in a round.
    pub(crate) fn add(&mut self, counts: Counts) {
        self.rows = self.rows.saturating_add(counts.rows);
        self.slept = self.slept.saturating_add(counts.slept);
        self.rounds = self.rounds.saturating_add(1);
    }

    /// Whether one worker alone is likely to be faster: all together slept too often for what they did.
    pub(crate) fn is_slow(self) -> bool {
        self.slept >= FEW_SLEEPS && self.slept.saturating_mul(EVENTS_OF_A_SLEEP) > self.rows
    }
}

/// How long one worker goes on alone.
#[derive(Clone, Copy)]
pub(crate) struct Solo {
    rounds: u64,
}

impl Solo {
    /// Before the first time.
    pub(crate) const fn new() -> Solo {
        Solo {
            rounds: FIRST_ALONE,
        }
    }

    /// How many rounds it goes on alone now: twice as many as the last time where all together did not
    /// last as long since then.
    pub(crate) fn next(&mut self, together: Pace) -> u64 {
        let rounds = self.rounds;
        self.rounds = if together.rounds < rounds {
            rounds.saturating_mul(2).min(MOST_ALONE)
        } else {
            FIRST_ALONE
        };
        rounds
    }
}
