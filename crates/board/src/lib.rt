//! A board: a shared object from which each item is taken as often as it was put there.
//!
//! A board is made together with all its seats ([`Board::new`]). Each thread has a seat of its own, from which it
//! deals items and takes them, the first one dealt first. A seat keeps account, in proofs alone, of what was
//! dealt from it and of what it has taken: two bags of what the items stand for ([`ItemRule`]). When all seats are
//! together again, [`settle`] says how many items still lie on the board, and that each item was dealt as often
//! as it was taken or lies there (`DealBalance`). So where none lies there, every item that was dealt was taken,
//! as often, and no other.
//!
//! An item that is dealt must belong to the board, and whoever takes one knows that it does. Which items belong is
//! what a type says that stands for `ItemRule`: where that depends on a value of the program, as a scenario, the
//! type has a parameter whose ghost member is the value, and a call picks it (`std::marker::Brand`).
//!
//! Neither that a thread gets on, nor which of them gets an item, is said by any clause.
#![tactic(auto)]

mod past;
mod post;
mod posts;
mod record;
mod rule;
mod seats;
mod site;

pub use past::Past;
pub use post::Post;
pub use posts::{posts_at, seats_of};
pub use record::{BoardRecord, SeatRecord};
pub use rule::{Hand, ItemRule};
pub use seats::{Board, Seat, settle};
pub use site::Site;
