//! Why shards aren't joined: a text is no shard, of another sweep, doubled or torn, a shard is missing, the table's
//! sink failed, or memory was refused.
ghost use Rattle.std.specs.Prelude.{◌≡◌};
ghost use Rattle.shard_merge.specs.declared.fault.JoinFault.TheVariants as join;

use base::Memory as Refused;
use thiserror::Error;

/// Why texts weren't put together. Places are counted from 0.
#[derive(Clone, Copy, Debug, PartialEq, Eq, Error)]
pub enum JoinFault {
    /// The text at this place is no shard of a sweep.
    #[error("no piece of a sweep")]
    NoShard(usize),
    /// The text at this place is a shard of another sweep than the first.
    #[error("of another sweep")]
    Other(usize),
    /// The text at this place is the same shard as one before it.
    #[error("there twice")]
    Doubled(usize),
    /// The text at this place is a shard that isn't whole.
    #[error("torn")]
    Torn(usize),
    /// The text at this place is a shard whose lines have no checksums, as those of versions before 1.11.0.
    #[error("without checksums")]
    Older(usize),
    /// The shard of this number, counted from 1, isn't there.
    #[error("missing")]
    Missing(u64),
    /// The table's sink failed.
    #[error("write")]
    Write,
    /// Memory was refused.
    #[error("memory")]
    Memory,
}

impl From<Refused> for JoinFault {
    ghost from_gives = { λ _ fault. fault ≡ join.Memory };

    fn from(_refused: Refused) -> Self {
        JoinFault::Memory
    }
}
