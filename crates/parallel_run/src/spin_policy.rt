//! A thread that waits looks for a while before it sleeps, and looks for a shorter time after looks that were in vain.
use std::mem;

/// How often a thread looks before it sleeps: some 150 microseconds, longer than most windows take.
const MANY_LOOKS: usize = 100_000;

/// How often it looks after looks in vain.
const FEW_LOOKS: usize = 200;

/// For how many waits it looks that seldom after the first looks in vain.
const FIRST_CAUTION: usize = 2;

/// And after many, at most.
const MOST_CAUTION: usize = 512;

/// How long a thread looks for what is to come before it sleeps. Looking costs a processor, so
/// where it was in vain, as it mostly is where there are more threads than processors, the thread
/// looks but shortly for a while: the longer the more often it was in vain.
#[derive(Clone, Copy)]
pub(crate) struct SpinPolicy {
    // for so many waits it looks but shortly
    cautious: usize,
    // for how many after the next looks in vain
    caution: usize,
    // how often it slept since that was asked last
    slept: u64,
}

impl SpinPolicy {
    /// That of a thread which has not looked yet.
    pub(crate) fn new() -> Self {
        SpinPolicy {
            cautious: 0,
            caution: FIRST_CAUTION,
            slept: 0,
        }
    }

    /// How often to look before the next sleep.
    pub(crate) fn looks(self) -> usize {
        if self.cautious > 0 {
            FEW_LOOKS
        } else {
            MANY_LOOKS
        }
    }

    /// The thread is about to sleep.
    pub(crate) fn sleeps(&mut self) {
        self.slept = self.slept.saturating_add(1);
    }

    /// How often it slept since this was asked last.
    pub(crate) fn taken_sleeps(&mut self) -> u64 {
        mem::replace(&mut self.slept, 0)
    }

    /// What was awaited came while the thread looked.
    pub(crate) fn served(&mut self) {
        if self.cautious > 0 {
            self.cautious -= 1;
        } else if self.caution > FIRST_CAUTION {
            self.caution -= 1;
        }
    }

    /// It looked in vain.
    pub(crate) fn looked_in_vain(&mut self) {
        if self.cautious > 0 {
            self.cautious -= 1;
            return;
        }
        self.cautious = self.caution;
        self.caution = self.caution.saturating_mul(2).min(MOST_CAUTION);
    }
}
