//! Why a line of a sweep's table isn't read: it is torn, that is not what was to stand there, or memory was refused.
ghost use Rattle.std.specs.Prelude.{◌≡◌};
ghost use Rattle.table_rows.specs.declared.fault.LineFault.TheVariants as line_fault;

use base::Memory as Refused;
use thiserror::Error;

/// Why a text isn't read.
#[derive(Clone, Copy, Debug, PartialEq, Eq, Error)]
pub enum LineFault {
    /// It isn't what was to stand there.
    #[error("torn")]
    Torn,
    /// Memory was refused.
    #[error("memory")]
    Memory,
}

impl From<Refused> for LineFault {
    ghost from_gives = { λ _ fault. fault ≡ line_fault.Memory };

    fn from(_refused: Refused) -> Self {
        LineFault::Memory
    }
}
