//! The faults that end a run early, F1 to F4: refused memory, a counter overflow, a failed write, a lost thread.
ghost use Rattle.std.specs.Prelude.{◌≡◌};
ghost use Rattle.base.specs.declared.fault.Fault.TheVariants as fault;

use std::alloc::{AllocError, AllocFailed};
use thiserror::Error;

/// Memory was refused.
#[derive(Clone, Copy, Debug, PartialEq, Eq, Error)]
#[error("memory was refused")]
pub struct Memory;

impl From<AllocError> for Memory {
    fn from(_error: AllocError) -> Self {
        Memory
    }
}

impl<T: Drop> From<AllocFailed<T>> for Memory {
    fn from(_error: AllocFailed<T>) -> Self {
        Memory
    }
}

/// Why a run was refused. Of several causes the first in this order is answered.
#[derive(Clone, Copy, Debug, PartialEq, Eq, Error)]
pub enum Fault {
    /// Memory was refused.
    #[error("F1")]
    Memory,
    /// A counter stands at its limit, 2^63, and would have to rise.
    #[error("F2")]
    CounterOverflow,
    /// A sink failed to take what was written.
    #[error("F3")]
    Write,
    /// The threads of a parallel run did not hand on what they were given.
    #[error("F4")]
    ThreadLost,
}

impl From<Memory> for Fault {
    ghost from_gives = { λ _ f. f ≡ fault.Memory };

    fn from(_memory: Memory) -> Self {
        Fault::Memory
    }
}
