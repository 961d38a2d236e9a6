//! Local health, the current probe, and relayed probes (Lifeguard).
#![tactic(auto)]

mod health;
pub mod laws;
mod nack;
mod probe;
mod relays;

pub use health::Health;
pub use nack::nack_delay;
pub use probe::Probe;
pub use relays::Relays;
