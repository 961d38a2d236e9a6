//! What a life keeps once there is something to keep.
use crate::leaving::Leaving;
use crate::regards::Regard;
use base::MemberId;
use broadcast_queue::BroadcastQueue;
use piggyback::Buffer;

/// What a life keeps.
#[derive(Drop)]
pub(crate) struct Kept {
    /// The number from which on the member's timers are of this life.
    pub(crate) birth: u64,
    /// Whom it asks for all that is known, until it has heard that.
    pub(crate) contact: Option<MemberId>,
    /// How far its leave is.
    pub(crate) leaving: Leaving,
    /// How Serf regards the others, by their numbers. Who has no place is regarded as usual.
    pub(crate) regards: Vec<Regard>,
    /// The intents that are still to be sent.
    pub(crate) intents: Buffer,
    /// The updates that are still to be sent, where memberlist's queue holds them.
    pub(crate) queue: BroadcastQueue,
}
