//! How far the runs of a shard have come.
use sweep::Progress;

/// Reports the runs of a shard alone.
#[derive(Drop)]
pub(crate) struct ShardProgress<'p, P: Progress> {
    /// What gets it.
    pub(crate) whole: &'p P,
    /// How many runs there are before its first.
    pub(crate) before: usize,
    /// How many it has, where no setting ends early.
    pub(crate) all: usize,
}

impl<P: Progress> Progress for ShardProgress<'_, P> {
    fn some_begin(&self, made: usize, _all: usize) {
        self.whole
            .some_begin(made.saturating_sub(self.before), self.all);
    }

    fn run_goes_on(&self, from: u64, to: u64, end: u64) {
        self.whole.run_goes_on(from, to, end);
    }

    fn run_ends(&self, from: u64, end: u64) {
        self.whole.run_ends(from, end);
    }

    fn runs_made(&self, made: usize, _all: usize) {
        self.whole
            .runs_made(made.saturating_sub(self.before), self.all);
    }
}
