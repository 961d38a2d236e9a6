//! The turn of one member of an entry.
use base::{MemberId, Moment};

/// The turn of one member, the k-th of the entry at a place of its list, who starts at a moment.
#[derive(Clone, Copy, Debug)]
pub(crate) struct Turn {
    pub entry: usize,
    pub k: usize,
    pub member: MemberId,
    pub start: Moment,
}
