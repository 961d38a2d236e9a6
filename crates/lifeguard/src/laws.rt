//! Laws of the definitions, whatever calls a member makes. Each function does nothing: its contract
//! is the law.
ghost use Rattle.std.specs.Prelude.{◌≡◌, ◌≢◌, ◌≤◌, ◌<◌, ◌+◌, ◌⊎◌, ◌↔◌, ℕ, List, false, min, IsTrue};
ghost use Rattle.std.specs.FinSet as set;
ghost use Rattle.lifeguard.specs.Health.{LocalHealth, Sign, full_health, raised, scaled, after_signs};
ghost use Rattle.lifeguard.specs.NackDelay.{nack_delay_of};
ghost use Rattle.lifeguard.specs.Probe.{FailsWithRoom, MissedNacks, after_probe, after_deadline, fresh_probe, with_nacks, with_reach};
ghost use Rattle.lifeguard.specs.Relays.{RelaySet, relay_cmp};
ghost use Rattle.lifeguard.specs.declared.probe.Probe.{Probe};

/// Whatever a member learns of its health, the counter stays from 0 to the ceiling, and the ceiling
/// stays what it was made with.
pub fn counter_stays_within_ceiling()
    ensures counter { (ceiling : ℕ) (signs : List Sign) →
        (after_signs (full_health ceiling) signs).counter ≤ ceiling }
    ensures ceiling { (ceiling : ℕ) (signs : List Sign) →
        (after_signs (full_health ceiling) signs).ceiling ≡ ceiling }
{}

/// With a ceiling of 0 the counter stays at 0, so nothing is scaled.
pub fn no_ceiling_no_scaling()
    ensures counter { (signs : List Sign) → (after_signs (full_health 0) signs).counter ≡ 0 }
    ensures scaled { (signs : List Sign) (base : ℕ) →
        scaled (after_signs (full_health 0) signs) base ≡ base }
{}

/// Failures that come one after another count as if they came together.
pub fn failures_add_up()
    ensures { (h : LocalHealth) (m n : ℕ) → raised (raised h m) n ≡ raised h (m + n) }
{}

/// Where the ceiling leaves room, a failed probe adds 2 exactly where nacks that were expected are
/// missing, and 1 exactly where none is. It never passes the ceiling.
pub fn failed_probe_adds_one_or_two()
    ensures two { (h : LocalHealth) (p : Probe) → FailsWithRoom h p →
        (((after_probe h p).counter ≡ h.counter + 2) ↔ MissedNacks p) }
    ensures one { (h : LocalHealth) (p : Probe) → FailsWithRoom h p →
        (((after_probe h p).counter ≡ h.counter + 1) ↔ (p.expected ≤ p.nacks)) }
    ensures ceiling { (h : LocalHealth) (p : Probe) → p.acked ≡ false →
        (after_probe h p).counter ≤ h.ceiling }
{}

/// By memberlist's rules a probe that failed adds nothing where all nacks came, one where none was
/// expected, and never passes the ceiling; one that reached its target never makes health worse.
pub fn missing_nacks_are_added()
    ensures all_came { (h : LocalHealth) (p : Probe) → p.reached ≡ false → 0 < p.expected → p.expected ≤ p.nacks
        → h.counter ≤ h.ceiling → (after_deadline h p).counter ≡ h.counter }
    ensures none_expected { (h : LocalHealth) (p : Probe) → p.reached ≡ false → p.expected ≡ 0
        → (after_deadline h p).counter ≡ min (h.counter + 1) h.ceiling }
    ensures ceiling { (h : LocalHealth) (p : Probe) → p.reached ≡ false → (after_deadline h p).counter ≤ h.ceiling }
    ensures reached { (h : LocalHealth) (p : Probe) → (after_deadline h (with_reach p)).counter ≤ h.counter }
{}

/// The worse the health, the longer a scaled time, which is never shorter than it is unscaled.
pub fn scaled_grows_with_the_counter()
    ensures monotone { (g h : LocalHealth) (base : ℕ) → g.counter ≤ h.counter →
        scaled g base ≤ scaled h base }
    ensures least { (h : LocalHealth) (base : ℕ) → base ≤ scaled h base }
{}

/// The nacks to a probe are all counted, up to 16.
pub fn nacks_are_counted()
    ensures { (seq target n : ℕ) → (with_nacks (fresh_probe seq target) n).nacks ≡ min n 16 }
{}

/// A nack is sent at least one tick after the ping-req came, and no later than the timeout.
pub fn nack_delay_is_within_timeout()
    ensures least { (nack_percent timeout : ℕ) → 1 ≤ nack_delay_of nack_percent timeout }
    ensures most { (nack_percent timeout : ℕ) → nack_percent ≤ 100 → 1 ≤ timeout →
        nack_delay_of nack_percent timeout ≤ timeout }
{}

/// A set of relays has none at first, then those that were added and not removed since.
pub fn relays_are_a_set()
    ensures empty { (relay : ℕ × ℕ) → set.contains (set.empty {R = relay_cmp}) relay ≡ false }
    ensures added { (relays : RelaySet) (relay other : ℕ × ℕ) →
        IsTrue (set.contains (set.insert relays relay) other)
        ↔ ((other ≡ relay) ⊎ IsTrue (set.contains relays other)) }
    ensures removed { (relays : RelaySet) (relay other : ℕ × ℕ) →
        IsTrue (set.contains (set.remove relays relay) other)
        ↔ ((other ≢ relay) × IsTrue (set.contains relays other)) }
{}
