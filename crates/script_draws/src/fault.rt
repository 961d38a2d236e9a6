//! Why what comes again and again isn't drawn.
ghost use Rattle.std.specs.Prelude.{◌≡◌};
ghost use Rattle.script_draws.specs.declared.fault.DrawFault.TheVariants as fault;

use std::alloc::{AllocError, AllocFailed};

/// Why what comes again and again isn't drawn.
#[derive(Clone, Copy, Debug, PartialEq, Eq)]
pub enum DrawFault {
    /// Memory was refused.
    Memory,
    /// There are more entries than may be made.
    TooMany,
}

impl From<AllocError> for DrawFault {
    ghost from_gives = { λ _ f. f ≡ fault.Memory };

    fn from(_error: AllocError) -> Self {
        DrawFault::Memory
    }
}

impl<T: Drop> From<AllocFailed<T>> for DrawFault {
    ghost from_gives = { λ _ f. f ≡ fault.Memory };

    fn from(_error: AllocFailed<T>) -> Self {
        DrawFault::Memory
    }
}
