//! A relay: items go over it in order, from one thread that sends to one that receives.
//!
//! A relay is made for a value, together with its two seats ([`Relay::new`]). Each seat keeps account, in proofs alone,
//! of what was sent or received over it: a list of what the items stand for ([`BatchRule`]). Nothing is sent after the
//! last item. When both seats are together again, [`close`] says that what was sent is what was received and then what
//! still lies in the relay; so where the last item was received, all were.
//!
//! An item that is sent must belong to the value that the relay was made for, and whoever receives one knows that it
//! does.
//!
//! That a call returns is said by no clause.
#![tactic(auto)]

mod item;
mod relay;
mod roles;
mod rule;

pub use item::BatchRule;
pub use relay::{Relay, SendSeat, TakeSeat, close};
