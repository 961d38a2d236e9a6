//! Why a text isn't expanded.
ghost use Rattle.std.specs.Prelude.{◌≡◌};
ghost use Rattle.expanded_text.specs.declared.error.ExpandError.TheVariants as error;

use base::Memory;
use thiserror::Error;

/// Why a text isn't expanded.
#[derive(Clone, Copy, Debug, PartialEq, Eq, Error)]
pub enum ExpandError {
    /// The text breaks the rule of this number, and no lower one.
    #[error("scenario rule {0}")]
    Rule(u8),
    /// Memory was refused.
    #[error("memory was refused")]
    Memory,
}

impl From<Memory> for ExpandError {
    ghost from_gives = { λ _ e. e ≡ error.Memory };

    fn from(_memory: Memory) -> Self {
        ExpandError::Memory
    }
}
