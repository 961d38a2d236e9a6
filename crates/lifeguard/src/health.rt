//! A member's health score (Lifeguard's local health multiplier, LHA-Probe), which lengthens the member's own probe
//! times.
ghost use Rattle.std.specs.Prelude.{◌≡◌, ◌*◌, ◌≤◌, ◌^◌};

use crate::probe::Probe;
use std::marker::Model;

/// How a member fares by its own account, Lifeguard's local health multiplier (LHA-Probe): a counter
/// that rises with each sign that the member itself is slow, up to a ceiling, and falls with each
/// probe that was answered, down to 0.
#[derive(Clone, Copy, Debug, PartialEq, Eq)]
pub struct Health {
    counter: u32,
    ceiling: u32,
}

impl Model for Health {
    ghost use Rattle.std.specs.Prelude.{◌≤◌};
    ghost use Rattle.lifeguard.specs.Health.{LocalHealth};

    ghost Value = { LocalHealth };

    ghost view = { λ h. record { counter = h.counter; ceiling = h.ceiling } };

    ghost invariant = { λ h. (h.counter ≤ h.ceiling) × (h.ceiling ≤ 16) };

    ghost inverse = { λ h. record { counter = h.counter; ceiling = h.ceiling } };
}

impl Health {
    ghost use Rattle.lifeguard.specs.Health.{full_health, lowered, raised, scaled};
    ghost use Rattle.lifeguard.specs.Probe.{after_probe, after_deadline};

    /// Full health, with a ceiling of at most 16; a ceiling of 0 switches LHA-Probe's scaling off.
    pub fn new(ceiling: u32) -> Self
        requires { ceiling ≤ 16 }
        ensures { result ≡ full_health ceiling }
    {
        Health {
            counter: 0,
            ceiling,
        }
    }

    /// A probe was answered in time.
    pub fn good(&mut self)
        ensures { self.new ≡ lowered self.old }
    {
        self.counter = self.counter.saturating_sub(1);
    }

    /// A probe failed.
    pub fn bad(&mut self)
        ensures { self.new ≡ raised self.old 1 }
    {
        self.rise();
    }

    /// A nack that was expected did not come.
    pub fn missed(&mut self)
        ensures { self.new ≡ raised self.old 1 }
    {
        self.rise();
    }

    /// The member refuted a suspicion of itself.
    pub fn refuted(&mut self)
        ensures { self.new ≡ raised self.old 1 }
    {
        self.rise();
    }

    /// One more, not above the ceiling.
    fn rise(&mut self)
        ensures { self.new ≡ raised self.old 1 }
    {
        self.counter = (self.counter + 1).min(self.ceiling);
    }

    /// What the end of a probe says of the member that probed: good where an ack came, else bad, and
    /// where nacks that were expected did not come, missed too.
    pub fn probe_ended(&mut self, probe: &Probe)
        ensures { self.new ≡ after_probe self.old probe.now }
    {
        if probe.acked {
            self.good();
            return;
        }
        self.bad();
        if probe.missed_nacks() {
            self.missed();
        }
    }

    /// What a probe that was still under way at its deadline says of the member that probed (memberlist's
    /// rules): good where a call reached the target, else bad for each nack that is missing, or once
    /// where none was expected.
    pub fn deadline_passed(&mut self, probe: &Probe)
        ensures { self.new ≡ after_deadline self.old probe.now }
    {
        if probe.reached {
            self.good();
        } else {
            self.rise_by(probe.misses());
        }
    }

    /// So much more, not above the ceiling.
    fn rise_by(&mut self, failures: u32)
        requires { failures ≤ 255 }
        ensures { self.new ≡ raised self.old failures }
    {
        self.counter = (self.counter + failures).min(self.ceiling);
    }

    /// The counter: 0 in full health, and at most the ceiling.
    pub fn counter(&self) -> u32
        ensures value { result ≡ self.now.counter }
        ensures within { result ≤ self.now.ceiling }
        ensures ceiling { self.now.ceiling ≤ 16 }
    {
        self.counter
    }

    /// A probe period or a probe timeout of `base` ticks, as long as the health makes it: LHA-Probe
    /// multiplies it by the counter plus 1.
    pub fn scaled(&self, base: u64) -> u64
        requires { base ≤ 2 ^ 24 }
        ensures value { result ≡ scaled self.now base }
        ensures bound { result ≤ base * 17 }
    {
        base * (u64::from(self.counter) + 1)
    }
}
