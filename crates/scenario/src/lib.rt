//! A scenario as values, and the division of its members into parts.
#![tactic(auto)]

mod calendar;
mod division;
mod labels;
pub mod laws;
mod naps;
mod profile;
mod scenario;
mod script;
mod settings;
mod spells;

pub use calendar::Calendar;
pub use division::{Division, DivisionFault, Workers};
pub use scenario::{Contents, Scenario};
pub use schema::Version;
pub use script::{ScriptEvent, ScriptKind};
pub use settings::{
    Crash, Cut, DialTimes, Gossip, Group, Leave, Lifeguard, Link, Path, Pause, Queue, Restart,
    Serf, Slow, StreamTimes, Suspicion, Swim,
};
pub use spells::{Spell, Spells};
