//! Moments, members, keys of events, limits and faults, which every crate uses.
#![tactic(auto)]

mod beats;
mod fault;
mod key;
mod keyed;
pub mod limits;
mod logarithm;
mod order;
mod profile;

pub use beats::next_in_step;
pub use fault::{Fault, Memory};
pub use key::{Key, MemberId, Moment};
pub use keyed::Keyed;
pub use logarithm::{close_log_thousandths, digits, fine_log_thousandths, log_thousandths};
pub use order::key_order;
pub use profile::Profile;
