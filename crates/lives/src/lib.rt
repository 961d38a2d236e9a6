//! What a member keeps through one life, from a start to the next, by memberlist 0.5.0's and Serf's rules: whom it asks
//! for all that is known, how far its leave is, and how Serf regards the others.
#![tactic(auto)]

mod kept;
mod leaving;
mod life;
mod news;
mod regards;

pub use leaving::Leaving;
pub use life::Life;
pub use regards::Regard;
