//! Suspicions and their timers: each further accuser shortens a suspicion (SWIM, section 4.2; Lifeguard's LHA-Suspicion).
#![tactic(auto)]

mod accusers;
pub mod laws;
mod standing;
mod suspicions;
mod terms;

pub use suspicions::{Accused, Suspicions};
pub use terms::Terms;
