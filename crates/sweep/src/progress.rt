//! How far a sweep has come.

use base::Moment;
use scenario::Scenario;
use sequential_run::RunWatch;
use std::marker::Sync;

/// Gets how far a sweep has come. Several runs that are made side by side report to it at once.
pub trait Progress: Sync {
    /// Some runs are made next. So many of all were made before: `412` of `800`, say.
    fn some_begin(&self, made: usize, all: usize);

    /// One of them, which goes up to `end`, has come from one moment to another, in ticks.
    fn run_goes_on(&self, from: u64, to: u64, end: u64);

    /// One of them, which goes up to `end` and had come to a moment, was made.
    fn run_ends(&self, from: u64, end: u64);

    /// So many runs of all were made, and their lines written. It is called again and again, each time with more runs, and at
    /// the end with all.
    fn runs_made(&self, made: usize, all: usize);
}

/// Nothing is done with it.
#[derive(Drop)]
pub struct NoProgress;

impl Progress for NoProgress {
    fn some_begin(&self, _made: usize, _all: usize) {}

    fn run_goes_on(&self, _from: u64, _to: u64, _end: u64) {}

    fn run_ends(&self, _from: u64, _end: u64) {}

    fn runs_made(&self, _made: usize, _all: usize) {}
}

/// How far one of the runs of a sweep has come.
#[derive(Drop)]
pub(crate) struct OneRun<'p, P: Progress> {
    /// What gets it.
    progress: &'p P,
    /// The moment that it got last, in ticks.
    moment: u64,
}

impl<'p, P: Progress> OneRun<'p, P> {
    /// A run that begins.
    pub(crate) fn new(progress: &'p P) -> OneRun<'p, P> {
        OneRun {
            progress,
            moment: 0,
        }
    }

    /// It was made.
    pub(crate) fn end(self, scenario: &Scenario) {
        self.progress.run_ends(self.moment, scenario.end().ticks());
    }
}

impl<P: Progress> RunWatch for OneRun<'_, P> {
    fn has_come(&mut self, moment: Moment, end: Moment) {
        let (moment, end) = (moment.ticks(), end.ticks());
        if moment <= end {
            self.progress.run_goes_on(self.moment, moment, end);
            self.moment = moment;
        }
    }
}
