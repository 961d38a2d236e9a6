//! Why tables aren't put together: they aren't the shards of one sweep, or their seeds don't follow one another.
ghost use Rattle.std.specs.Prelude.{◌≡◌};
ghost use Rattle.shard_merge.specs.declared.fault.JoinFault.TheVariants as shards;
ghost use Rattle.table_merge.specs.declared.fault.MergeFault.TheVariants as merge;

use base::Memory as Refused;
use shard_merge::JoinFault;
use thiserror::Error;

/// Why texts weren't put together. Places are counted from 0.
#[derive(Clone, Copy, Debug, PartialEq, Eq, Error)]
pub enum MergeFault {
    /// They aren't shards, or tables, of one sweep, one of them isn't whole, the sink failed, or memory was refused.
    #[error("shards")]
    Shards(JoinFault),
    /// The table at the first place has a seed that the one at the second has, which stands before it.
    #[error("seeds there twice")]
    Overlap(usize, usize),
    /// No table has the seeds between those of the table at the first place and those of the one at the second.
    #[error("seeds missing")]
    Gap(usize, usize),
    /// Together they have more than 1,000,000 runs.
    #[error("too many runs")]
    TooMany,
}

impl From<JoinFault> for MergeFault {
    ghost from_gives = { λ cause fault. fault ≡ merge.Shards cause };

    fn from(cause: JoinFault) -> Self {
        MergeFault::Shards(cause)
    }
}

impl From<Refused> for MergeFault {
    ghost from_gives = { λ _ fault. fault ≡ merge.Shards shards.Memory };

    fn from(_refused: Refused) -> Self {
        MergeFault::Shards(JoinFault::Memory)
    }
}
