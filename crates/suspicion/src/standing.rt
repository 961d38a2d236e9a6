//! What a member keeps of one suspicion until it ends: its terms, its start, its accusers and its present timer.
ghost use Rattle.suspicion.specs.Ranges.{IsKept};

use crate::accusers::Accusers;
use crate::terms::Terms;
use base::{MemberId, Moment};

/// A suspicion that stands.
#[derive(Drop)]
pub(crate) struct Standing {
    /// The settings under which it started.
    pub(crate) terms: Terms,
    /// How many members were not confirmed when it started, oneself included.
    pub(crate) members: u32,
    pub(crate) since: Moment,
    /// The first accuser.
    pub(crate) first: MemberId,
    pub(crate) further: Accusers,
    /// The number of its present timer.
    pub(crate) timer: u64,
    ghost kept: { IsKept terms members since },
}
