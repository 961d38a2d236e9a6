//! Why a key like `pause.node-7.until` names no item of a scenario, or several, and what to write.
#![tactic(auto)]

mod items;

pub use items::item_reason;
