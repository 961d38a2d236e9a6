//! Members that start again.

use base::{MemberId, Moment};

/// A restart, and what the rows of the life behind it tell.
#[derive(Clone, Copy, Debug)]
pub struct Return {
    /// Who started again.
    pub member: MemberId,
    /// When.
    pub at: Moment,
    /// When it had a first table.
    pub joined: Option<Moment>,
    /// When somebody last said that it is alive.
    pub back: Option<Moment>,
    /// How many members said so.
    pub holders: usize,
}
