//! How long a helper waits for the target's ack before it sends a nack to the member that asked (Lifeguard,
//! LHA-Probe).
ghost use Rattle.std.specs.Prelude.{◌≡◌, ◌≤◌, ◌^◌};
ghost use Rattle.lifeguard.specs.NackDelay.{nack_delay_of};

/// How many ticks a helper waits for the target's ack before it answers by a nack: `nack_percent`
/// of the probe timeout, rounded down, and at least 1 (LHA-Probe).
pub fn nack_delay(nack_percent: u32, timeout: u64) -> u64
    requires percent { nack_percent ≤ 100 }
    requires timeout { timeout ≤ 2 ^ 24 }
    ensures value { result ≡ nack_delay_of nack_percent timeout }
    ensures bound { result ≤ 2 ^ 24 }
{
    (u64::from(nack_percent) * timeout / 100).max(1)
}
